ghost use Rattle.std.specs.Prelude.{◌≡◌, ◌≢◌, ◌≤◌, ◌^◌, length, Ok, Err, IfOk, IfErr};
ghost use Rattle.affine_constraints.specs.Lines.{lines_in};
ghost use Rattle.dof_numbers.specs.Dofs.{IsNumberingOf};
ghost use Rattle.constrained_mesh.specs.declared.fault.ConstraintFault.TheVariants.{NoMemory as Memory};
ghost use Rattle.constrained_mesh.specs.Constrained.{IsConstrained};

use crate::fault::ConstraintFault;
use crate::mesh_lines::mesh_lines;
use crate::nodes::NodeDofs;
use crate::ties::add_ties;
use affine_constraints::Closed;
use dof_numbers::Dofs;
use hanging_refine::Forest;
use node_ids::NodeIds;
use problem_read::Problem;
use std::alloc::Global;

/// The closed constraint lines of a refined mesh under a problem: first the Dirichlet line of each dof of a
/// boundary face whose id has a value, where the least such id decides; then the lines of hanging dofs;
/// then the constraints of the problem in order, each decided before the next; and then closing.
///
/// # Errors
///
/// The first fault in this order, as [`ConstraintFault`] names it.
pub fn constraint_lines(
    alloc: Global,
    forest: &Forest,
    dofs: &Dofs,
    ids: &NodeIds,
    problem: &Problem,
) -> Result<Closed, ConstraintFault>
    requires numbered { IsNumberingOf forest.now dofs.now }
    requires count { length ids.now ≤ 2 ^ 20 }
    ensures ok { IfOk result (λ closed. IsConstrained (record { ids = ids.now; degree = dofs.now.degree; forest = forest.now }) problem.now (Ok (lines_in closed))) }
    ensures fault { IfErr result (λ fault. fault ≢ Memory → IsConstrained (record { ids = ids.now; degree = dofs.now.degree; forest = forest.now }) problem.now (Err fault)) }
    ensures size { IfOk result (λ closed. length closed ≡ dofs.now.size) }
{
    let mut lines = mesh_lines(alloc, forest, dofs, problem)?;
    match add_ties(alloc, &NodeDofs { ids, dofs }, problem, &mut lines) {
        Ok(()) => {}
        Err(fault) => return Err(fault),
    }
    match lines.close() {
        Ok(closed) => Ok(closed),
        Err(fault) => Err(ConstraintFault::from(fault)),
    }
}
