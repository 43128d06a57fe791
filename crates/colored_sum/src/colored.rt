//! The serial sum in the order of the colours.
ghost use Rattle.std.specs.Prelude.{◌≡◌, ◌+◌, ◌<◌, ◌≤◌, ◌^◌, IfOk, IfErr, Ok, Some, map, length, slice_index};
ghost use Rattle.conflict_coloring.specs.Coloring.{IsColoring, AreStarts, color_count};
ghost use Rattle.conflict_coloring.specs.Colours.{coloured};
ghost use Rattle.conflict_coloring.specs.Cut.{part};
ghost use Rattle.serial_sum.specs.Marks.{AreItems, IsRound, Tells};
ghost use Rattle.serial_sum.specs.Rows.{AreUnmarked, FitsRows};
ghost use Rattle.serial_sum.specs.SerialSum.{SumIs};
ghost use Rattle.serial_sum.specs.Steps.{FaultIs};
ghost use Rattle.mesh_loop.specs.Plans.{IsWithinRanges};
ghost use Rattle.mesh_loop.specs.Setup.{cells_of, pattern_of, written_rows};
ghost use Rattle.mesh_loop.specs.Sum.{parts_of};
ghost use Rattle.colored_sum.specs.Rounds.{items_of};

use crate::crew::crew_of;
use crate::heap_rows::HeapRows;
use crate::row_job::MatrixRowJob;
use colored_copier::{Crew, run_round};
use conflict_coloring::Colors;
use fem_fixed::NoMemory;
use mesh_loop::{AssembleFault, CellCopy, CellScratch, Plan, Setup};
use scratch_pool::Gate;
use serial_sum::{Failure, first_failure};
use sparsity::Rows;
use std::alloc::Global;
use std::thread::Threads;

/// The serial sum in the order of the colours, by several workers: one round a colour, in which each worker claims
/// cell after cell and writes its rows in place. After a colour with a cell that fails no later colour runs.
///
/// Item k of a colour has at the gate the number that it has in the order of all cells. Threads that can't be
/// started leave their work to the caller. The scratch objects, the copy objects and the rows on the heap are made once
/// and serve all rounds; nothing is allocated for an item.
///
/// # Errors
///
/// `Local` and `Sum` where the sum fails so, at its first cell that fails.
pub fn assemble_colored<G: Gate + Sync, R: Threads + Sync>(
    rt: &R,
    alloc: Global,
    setup: &Setup,
    colors: &Colors,
    plan: &Plan,
    gate: &G,
) -> Result<Rows, AssembleFault>
    requires plan { IsWithinRanges plan.now }
    requires colors { IsColoring (map (written_rows setup.now) (cells_of setup.now)) colors.now }
    ensures ok { IfOk result (λ rows. SumIs plan.now.digits (pattern_of setup.now) (parts_of setup.now colors.now.order) (Ok rows)) }
    ensures fails { IfErr result (FaultIs plan.now.digits (pattern_of setup.now) (parts_of setup.now colors.now.order)) }
{
    setup.cells_are_written();
    let mut rows = HeapRows::zero(alloc, setup.pattern())?;
    let mut crew = crew_of(alloc, plan)?;
    let starts = colors.starts();
    for color in 0..starts.len() - 1 {
        let job = MatrixRowJob::new(setup, cells_of_color(colors, color), plan.digits);
        rows = add_color(rt, alloc, &job, rows, &mut crew, starts[color], gate)?;
        if rows.has_mark() {
            let failed = rows.into_rows(alloc)?;
            return Err(AssembleFault::from(failure_of(&failed)));
        }
    }
    let sums = rows.into_rows(alloc)?;
    Ok(sums)
}

/// How a round failed, by the marks of the rows.
fn failure_of(rows: &Rows) -> Failure
    requires marked { AreUnmarked rows.now → ⊥ }
    ensures { Tells rows.now (Some result) }
{
    match first_failure(rows) {
        Some(failure) => failure,
        None => unreachable!(),
    }
}

/// The cells of a colour, rising.
fn cells_of_color(colors: &Colors, color: usize) -> &[u32]
    requires starts { AreStarts colors.now.colors colors.now.order colors.now.starts (color_count colors.now) }
    requires color { color < color_count colors.now }
    ensures cells { result.now ≡ coloured colors.now.colors color }
    ensures part { result.now ≡ part colors.now.order (slice_index colors.now.starts color) (slice_index colors.now.starts (color + 1)) }
    ensures few { length result.now ≤ 2 ^ 32 }
{
    let starts = colors.starts();
    let start = starts[color] as usize;
    let end = starts[color + 1] as usize;
    &colors.order()[start..end]
}

/// Adds the cells of a colour to the rows, as one round. A cell that fails marks its rows.
fn add_color<G: Gate + Sync, R: Threads + Sync>(
    rt: &R,
    alloc: Global,
    job: &MatrixRowJob<'_>,
    rows: HeapRows,
    crew: &mut Crew<CellScratch, CellCopy>,
    first: u32,
    gate: &G,
) -> Result<HeapRows, NoMemory>
    requires items { AreItems (pattern_of job.now.setup.now) (items_of job.now.setup.now job.now.cells.now) }
    requires few { length job.now.cells.now ≤ 2 ^ 32 }
    requires fits { FitsRows (pattern_of job.now.setup.now) rows }
    ensures round { IfOk result (IsRound job.now.digits (pattern_of job.now.setup.now) (items_of job.now.setup.now job.now.cells.now) rows) }
    ensures fits { IfOk result (FitsRows (pattern_of job.now.setup.now)) }
{
    match run_round(
        rt,
        alloc,
        job,
        rows.into_numbered(),
        crew,
        first as u64,
        gate,
    ) {
        Ok(after) => Ok(HeapRows::from_numbered(after)),
        Err((_, fault)) => Err(fault),
    }
}
