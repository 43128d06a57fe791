//! One call that runs a job: `WorkStream::run` of deal.II (Turcksin, Kronbichler, Bangerth, ACM TOMS 43, 2016).
ghost use Rattle.std.specs.Prelude.{◌≡◌, ◌<◌, ◌≤◌, ◌^◌, All, vec_len, IfOk, IfErr};
ghost use Rattle.ordered_pipeline.specs.Fold.{fold};
ghost use Rattle.ordered_pipeline.specs.Hands.{IsReady, IsFinished};

use crate::crew::Crew;
use crate::hands::{Hand, run_ordered};
use crate::job::Job;
use crate::pipeline::Pipeline;
use fem_fixed::NoMemory;
use scratch_pool::{Gate, Pool};
use std::alloc::Global;
use std::sync::Wait;
use std::thread::Threads;

/// What a run works with and what it makes.
#[derive(Drop)]
pub struct JobData<C, X, S> {
    /// 1 to 256 copy objects: so many items may be under way at a time.
    pub copies: Vec<C>,
    /// 1 to 64 scratch objects: so many items may be worked at a time.
    pub scratches: Vec<X>,
    /// What the items are copied into.
    pub state: S,
}

/// The data of a job's run.
pub type DataOf<J> = JobData<<J as Job>::Copy, <J as Job>::Scratch, <J as Job>::State>;

/// Works all items of a job by 1 to 64 workers, each in a thread of its own where one can be started, and copies them into
/// the state in their order: the state is as after one item after another in one thread. Each item passes the gate before
/// it is worked. The objects come back with the state. It may wait for another thread.
///
/// # Errors
///
/// The data and `NoMemory` where there is no memory for the run. Then no item was worked.
pub fn run_job<J: Job, G: Gate + Sync, R: Threads + Wait + Sync>(
    rt: &R,
    alloc: Global,
    job: &J,
    given: DataOf<J>,
    workers: u32,
    gate: &G,
) -> Result<DataOf<J>, (DataOf<J>, NoMemory)>
    requires copies { (0 < vec_len given.copies) × (vec_len given.copies ≤ 256) × All (J.has_room job.now) given.copies.items }
    requires scratches { (0 < vec_len given.scratches) × (vec_len given.scratches ≤ 64) }
    requires state { J.fits job.now given.state }
    requires workers { (0 < workers) × (workers ≤ 64) }
    requires few { J.count job.now ≤ 2 ^ 32 }
    ensures state { IfOk result (λ r. r.state ≡ fold J.step job.now given.state (J.count job.now)) }
    ensures objects { IfOk result (λ r. (vec_len r.copies ≡ vec_len given.copies) × All (J.has_room job.now) r.copies.items × (vec_len r.scratches ≡ vec_len given.scratches)) }
    ensures err { IfErr result (λ e. (e.0.copies.items ≡ given.copies.items) × (vec_len e.0.scratches ≡ vec_len given.scratches) × (e.0.state ≡ given.state)) }
{
    match Crew::new(alloc, job, given, workers) {
        Ok(mut crew) => {
            work_all(rt, job, &crew.pipeline, &crew.pool, &mut crew.hands, gate);
            Ok(crew.end())
        }
        Err(given) => Err((given, NoMemory)),
    }
}

// All hands of a crew, each in a thread of its own where one can be started.
fn work_all<J: Job, G: Gate + Sync, R: Threads + Wait + Sync>(
    rt: &R,
    job: &J,
    pipeline: &Pipeline<J>,
    pool: &Pool<J::Scratch>,
    hands: &mut Vec<Hand<J>>,
    gate: &G,
)
    requires some { 0 < vec_len hands.old }
    requires job { job.now ≡ pipeline.now.key.job.value }
    requires ready { All (λ h. IsReady pipeline.now.table pipeline.now.key pool.now.table h.pass h.scratch) hands.old.items }
    ensures count { vec_len hands.new ≡ vec_len hands.old }
    ensures finished { All (λ h. IsFinished pipeline.now.table pipeline.now.key pool.now.table h.pass h.scratch) hands.new.items }
{
    run_ordered(rt, job, pipeline, pool, hands.as_mut_slice(), gate);
}
