ghost use Rattle.std.specs.Prelude.{◌≡◌, ◌≤◌, ◌<◌, ◌^◌, length, map, Ok, IfOk, IfErr};
ghost use Rattle.jump_refine.specs.Jumps.{IsFunctionOn};
ghost use Rattle.run_words.specs.Choice.{seen_output};
ghost use Rattle.run_outputs.specs.Targets.{seen_target};
ghost use Rattle.diagnostics.specs.Stages.{EndsIn};
ghost use Rattle.vector_texts.specs.Marks.{Indicated, MarkedOn, MarksText};

use crate::endings::indicators_ending;
use crate::fitting::fitted;
use crate::text::marks_text;
use diagnostics::Ending;
use dof_numbers::Dofs;
use fem_fixed::NoMemory;
use hanging_refine::Forest;
use jump_refine::{indicators, marked};
use matrix_market::Values;
use run_outputs::{Target, first_target};
use run_words::Output;
use std::alloc::Global;
use std::thread::Threads;

// The greatest size of a value.
const VALUE_LIMIT: u32 = 2_147_483_648;

/// The indicators of all cells, and the marked cells in falling order of these.
#[derive(Drop)]
pub struct Marked {
    pub etas: Vec<u128>,
    pub cells: Vec<u32>,
}

/// Marks the cells with the greatest indicators, at most `count`, for a function that is given by its values at the degrees
/// of freedom of degree 1. A hanging value is taken as it is given.
///
/// # Errors
///
/// That the vector hasn't one value for each degree of freedom, or the first value above 2^31 in size; or the first cell
/// with a part of a face that has a fault.
pub fn mark_cells(
    rt: &(impl Threads + Sync),
    alloc: Global,
    forest: &Forest,
    values: &Values,
    count: u32,
) -> Result<Marked, Ending>
    requires few { length values.now < 2 ^ 32 }
    ensures ok { IfOk result (λ marks. MarkedOn count values.now forest.now (Ok (marks.etas.items, marks.cells.items))) }
    ensures ends { IfErr result (EndsIn (MarkedOn count values.now forest.now)) }
{
    let dofs = Dofs::number(alloc, forest, 1)?;
    let x = match fitted(alloc, values.as_slice(), dofs.size(), VALUE_LIMIT) {
        Ok(x) => x,
        Err(ending) => return Err(ending),
    };
    let etas = match indicators_of(rt, alloc, forest, &dofs, x.as_slice()) {
        Ok(etas) => etas,
        Err(ending) => return Err(ending),
    };
    let cells = marked(alloc, etas.as_slice(), count)?;
    Ok(Marked { etas, cells })
}

// The indicators of all cells.
fn indicators_of(
    rt: &(impl Threads + Sync),
    alloc: Global,
    forest: &Forest,
    dofs: &Dofs,
    x: &[i64],
) -> Result<Vec<u128>, Ending>
    requires { IsFunctionOn forest.now dofs.now x.now }
    ensures ok { IfOk result (λ etas. Indicated forest.now x.now (Ok etas.items)) }
    ensures few { IfOk result (λ etas. length etas.items ≤ 2 ^ 20) }
    ensures ends { IfErr result (EndsIn (Indicated forest.now x.now)) }
{
    // for the proof: there are few cells
    let _cells = forest.cells();
    match indicators(rt, alloc, forest, dofs, x) {
        Ok(etas) => Ok(etas),
        Err(fault) => Err(indicators_ending(fault)),
    }
}

/// The text of marked cells, and where it goes.
pub fn marks_targets<'a>(
    alloc: Global,
    output: Output<'a>,
    marks: &Marked,
) -> Result<Vec<Target<'a>>, NoMemory>
    ensures { IfOk result (λ targets. MarksText (seen_output output.entry) (marks.now.etas.items, marks.now.cells.items) (Ok (map seen_target targets.items))) }
{
    let text = marks_text(alloc, &marks.etas, &marks.cells)?;
    first_target(alloc, output, text)
}
