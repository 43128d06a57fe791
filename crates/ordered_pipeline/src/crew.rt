//! The crew of one run: a pipeline of a job, a pool of its scratch objects, and a hand for each worker.
ghost use Rattle.std.specs.Prelude.{◌≡◌, ◌<◌, ◌≤◌, ◌^◌, [], true, All, vec_len, IfOk, IfErr};
ghost use Rattle.std.specs.Vec.{vec_capacity};
ghost use Rattle.scratch_pool.specs.Pools as pools;
ghost use Rattle.ordered_pipeline.specs.Crews.{IsManned};
ghost use Rattle.ordered_pipeline.specs.Ending.{AreIdle};
ghost use Rattle.ordered_pipeline.specs.Fold.{fold};
ghost use Rattle.ordered_pipeline.specs.Fresh.{AreFresh};
ghost use Rattle.ordered_pipeline.specs.Hands.{IsReady, IsFinished};

use crate::hands::Hand;
use crate::job::Job;
use crate::pass::Pass;
use crate::pipeline::{Ended, Pipeline};
use crate::run::{DataOf, JobData};
use scratch_pool::{Pool, PoolPass};
use std::alloc::Global;

/// A crew has room for the passes of its hands, which it takes back at the end without memory.
pub(crate) struct Crew<J: Job> {
    pub(crate) pipeline: Pipeline<J>,
    pub(crate) pool: Pool<J::Scratch>,
    pub(crate) hands: Vec<Hand<J>>,
    passes: Vec<Pass<J>>,
    seats: Vec<PoolPass<J::Scratch>>,
}

impl<J: Job> Crew<J> {
    /// The crew of so many workers. Where there is no memory it hands the data back.
    pub(crate) fn new(
        alloc: Global,
        job: &J,
        given: DataOf<J>,
        workers: u32,
    ) -> Result<Crew<J>, DataOf<J>>
        requires copies { (0 < vec_len given.copies) × (vec_len given.copies ≤ 256) × All (J.has_room job.now) given.copies.items }
        requires scratches { (0 < vec_len given.scratches) × (vec_len given.scratches ≤ 64) }
        requires state { J.fits job.now given.state }
        requires workers { (0 < workers) × (workers ≤ 64) }
        requires few { J.count job.now ≤ 2 ^ 32 }
        ensures key { IfOk result (λ c. (c.pipeline.key.job.value ≡ job.now) × (c.pipeline.key.state.value ≡ given.state)) }
        ensures objects { IfOk result (λ c. (c.pipeline.key.queue ≡ vec_len given.copies) × (c.pool.objects ≡ vec_len given.scratches)) }
        ensures manned { IfOk result IsManned }
        ensures ready { IfOk result (λ c. All (λ h. IsReady c.pipeline.table c.pipeline.key c.pool.table h.pass h.scratch) c.hands.items) }
        ensures err { IfErr result (λ e. (e.copies.items ≡ given.copies.items) × (vec_len e.scratches ≡ vec_len given.scratches) × (e.state ≡ given.state)) }
    {
        let JobData {
            copies,
            scratches,
            state,
        } = given;
        let Ok(mut hands) = Vec::with_capacity(alloc, workers as usize) else {
            return Err(JobData {
                copies,
                scratches,
                state,
            });
        };
        let (pool, mut seats) = match Pool::new(alloc, scratches, workers) {
            Ok(made) => made,
            Err((scratches, _)) => {
                hands.destroy_empty();
                return Err(JobData {
                    copies,
                    scratches,
                    state,
                });
            }
        };
        match Pipeline::new(alloc, job, copies, state, workers) {
            Ok((pipeline, mut passes)) => {
                hand_out(&pipeline, &pool, &mut passes, &mut seats, &mut hands);
                Ok(Crew {
                    pipeline,
                    pool,
                    hands,
                    passes,
                    seats,
                })
            }
            Err((copies, state, _)) => {
                hands.destroy_empty();
                let scratches = pool.close(seats);
                Err(JobData {
                    copies,
                    scratches,
                    state,
                })
            }
        }
    }

    /// Ends a run whose hands are finished: the state behind the last item, and the objects again.
    pub(crate) fn end(self) -> DataOf<J>
        requires manned { IsManned self }
        requires finished { All (λ h. IsFinished self.pipeline.table self.pipeline.key self.pool.table h.pass h.scratch) self.hands.items }
        ensures state { result.state ≡ fold J.step self.pipeline.key.job.value self.pipeline.key.state.value (J.count self.pipeline.key.job.value) }
        ensures copies { (vec_len result.copies ≡ self.pipeline.key.queue) × All (J.has_room self.pipeline.key.job.value) result.copies.items }
        ensures scratches { vec_len result.scratches ≡ self.pool.objects }
    {
        let Crew {
            pipeline,
            pool,
            mut hands,
            mut passes,
            mut seats,
        } = self;
        take_back(&pipeline, &pool, &mut hands, &mut passes, &mut seats);
        hands.destroy_empty();
        let Ended {
            copies,
            state,
            copied: _,
        } = pipeline.close(passes);
        JobData {
            copies,
            scratches: pool.close(seats),
            state,
        }
    }
}

// Gives each worker a pass of the pipeline and a pass of the pool.
fn hand_out<J: Job>(
    pipeline: &Pipeline<J>,
    pool: &Pool<J::Scratch>,
    passes: &mut Vec<Pass<J>>,
    seats: &mut Vec<PoolPass<J::Scratch>>,
    hands: &mut Vec<Hand<J>>,
)
    requires passes { AreFresh pipeline.now.table pipeline.now.key passes.old.items }
    requires seats { pools.AreIdle pool.now.table seats.old.items }
    requires room { (vec_len seats.old ≡ vec_len passes.old) × (hands.old.items ≡ []) × (vec_len passes.old ≤ vec_capacity hands.old) }
    ensures ready { All (λ h. IsReady pipeline.now.table pipeline.now.key pool.now.table h.pass h.scratch) hands.new.items }
    ensures count { vec_len hands.new ≡ vec_len passes.old }
    ensures passes { (passes.new.items ≡ []) × (vec_capacity passes.new ≡ vec_capacity passes.old) }
    ensures seats { (seats.new.items ≡ []) × (vec_capacity seats.new ≡ vec_capacity seats.old) }
{
    while let Some(pass) = passes.pop() {
        let Some(scratch) = seats.pop() else {
            unreachable!()
        };
        hands.push_reserved(Hand { pass, scratch });
    }
}

// Takes the passes of all hands back.
fn take_back<J: Job>(
    pipeline: &Pipeline<J>,
    pool: &Pool<J::Scratch>,
    hands: &mut Vec<Hand<J>>,
    passes: &mut Vec<Pass<J>>,
    seats: &mut Vec<PoolPass<J::Scratch>>,
)
    requires finished { All (λ h. IsFinished pipeline.now.table pipeline.now.key pool.now.table h.pass h.scratch) hands.old.items }
    requires passes { (passes.old.items ≡ []) × (vec_len hands.old ≤ vec_capacity passes.old) }
    requires seats { (seats.old.items ≡ []) × (vec_len hands.old ≤ vec_capacity seats.old) }
    ensures hands { hands.new.items ≡ [] }
    ensures count { (vec_len passes.new ≡ vec_len hands.old) × (vec_len seats.new ≡ vec_len hands.old) }
    ensures passes { AreIdle pipeline.now.table passes.new.items }
    ensures over { All (λ p. p.over ≡ true) passes.new.items }
    ensures seats { pools.AreIdle pool.now.table seats.new.items }
{
    while let Some(hand) = hands.pop() {
        let Hand { pass, scratch } = hand;
        passes.push_reserved(pass);
        seats.push_reserved(scratch);
    }
}
