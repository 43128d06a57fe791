ghost use Rattle.std.specs.Prelude.{Ok, IfOk, IfErr};
ghost use Rattle.serial_sum.specs.SerialSum.{SumIs};
ghost use Rattle.serial_sum.specs.Steps.{FaultIs};
ghost use Rattle.mesh_loop.specs.Plans.{IsWithinRanges};
ghost use Rattle.mesh_loop.specs.Setup.{cells_of, pattern_of};
ghost use Rattle.mesh_loop.specs.Sum.{parts_of};

use crate::job::MatrixJob;
use crate::objects::{copies, scratches};
use fem_fixed::NoMemory;
use mesh_loop::{AssembleFault, Plan, Setup};
use ordered_pipeline::{JobData, run_job};
use scratch_pool::Gate;
use serial_sum::MatrixState;
use sparsity::Rows;
use std::alloc::Global;
use std::sync::Wait;
use std::thread::Threads;

/// The serial sum in the order of the cells, by several workers: they make the blocks of chunks of cells in
/// parallel, and one chunk after another is added to the rows. After a cell that fails nothing is added.
///
/// Threads that can't be started leave their work to the caller. It may wait for another thread.
///
/// # Errors
///
/// `Local` and `Sum` where the sum fails so, at its first cell that fails.
pub fn assemble_ordered<G: Gate + Sync, R: Threads + Wait + Sync>(
    rt: &R,
    alloc: Global,
    setup: &Setup,
    plan: &Plan,
    gate: &G,
) -> Result<Rows, AssembleFault>
    requires plan { IsWithinRanges plan.now }
    ensures ok { IfOk result (λ rows. SumIs plan.now.digits (pattern_of setup.now) (parts_of setup.now (cells_of setup.now)) (Ok rows)) }
    ensures fails { IfErr result (FaultIs plan.now.digits (pattern_of setup.now) (parts_of setup.now (cells_of setup.now))) }
{
    setup.cells_are_written();
    let job = MatrixJob::new(setup, plan.chunk, plan.digits);
    let rows = Rows::zero(alloc, setup.pattern())?;
    let given = JobData {
        copies: copies(alloc, plan.queue, plan.chunk)?,
        scratches: scratches(alloc, plan.scratch)?,
        state: MatrixState {
            rows,
            failure: None,
        },
    };
    let Ok(JobData { state: end, .. }) = run_job(rt, alloc, &job, given, plan.workers, gate) else {
        return Err(AssembleFault::from(NoMemory));
    };
    match end.failure {
        None => Ok(end.rows),
        Some(failure) => Err(AssembleFault::from(failure)),
    }
}
