ghost use Rattle.std.specs.Prelude.{◌≢◌, ℕ, Ok, Err, OnOk, IfErr};
ghost use Rattle.hanging_refine.specs.declared.fault.RefineFault.TheVariants.{NoMemory as Memory};
ghost use Rattle.constrained_mesh.specs.Steps.{RefinesBy, StopsAt};

use hanging_refine::{Forest, RefineFault};
use problem_read::Problem;

/// Refines by the steps of a problem, in order, each with the numbers of active cells that it asks for.
///
/// # Errors
///
/// The fault of the first step that is refused: the steps before that one were done, and the mesh is as they
/// left it.
pub fn refine_by_steps(forest: &mut Forest, problem: &Problem) -> Result<(), RefineFault>
    ensures ok { OnOk result (RefinesBy problem.now.steps forest.old (Ok forest.new)) }
    ensures fault { IfErr result (λ fault. fault ≢ Memory → RefinesBy problem.now.steps forest.old (Err fault)) }
    ensures stopped { IfErr result (λ fault. (step : ℕ) × StopsAt problem.now.steps forest.old forest.new fault step) }
{
    for step in 0..problem.steps() {
        match forest.refine(problem.asked(step)) {
            Ok(_) => {}
            Err(fault) => return Err(fault),
        }
    }
    Ok(())
}
