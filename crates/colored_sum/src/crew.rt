//! The workers of all rounds of a plan.
ghost use Rattle.std.specs.Prelude.{◌≡◌, IfOk, vec_len};
ghost use Rattle.mesh_loop.specs.Plans.{IsWithinRanges};

use colored_copier::Crew;
use fem_fixed::NoMemory;
use mesh_loop::{CellCopy, CellScratch, Plan};
use std::alloc::Global;

/// The crew of a plan: a copy object for each of its workers, and its scratch objects.
pub fn crew_of(alloc: Global, plan: &Plan) -> Result<Crew<CellScratch, CellCopy>, NoMemory>
    requires { IsWithinRanges plan.now }
    ensures { IfOk result (λ crew. crew.workers ≡ plan.now.workers) }
{
    let copies = copies(alloc, plan.workers)?;
    let objects = scratches(alloc, plan.scratch)?;
    Crew::new(alloc, objects, CellScratch::new(), copies)
}

/// This many scratch objects.
pub fn scratches(alloc: Global, count: u32) -> Result<Vec<CellScratch>, NoMemory>
    ensures { IfOk result (λ made. vec_len made ≡ count) }
{
    let mut made = Vec::new(alloc);
    for _k in 0..count {
        made.push(CellScratch::new())?;
    }
    Ok(made)
}

/// This many copy objects.
fn copies(alloc: Global, count: u32) -> Result<Vec<CellCopy>, NoMemory>
    ensures { IfOk result (λ made. vec_len made ≡ count) }
{
    let mut made = Vec::new(alloc);
    for _k in 0..count {
        made.push(CellCopy::new(alloc)?)?;
    }
    Ok(made)
}
