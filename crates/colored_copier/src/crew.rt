//! The workers of one round after another.
ghost use Rattle.std.specs.Prelude.{◌≡◌, ◌<◌, ◌≤◌, ◌^◌, [], All, IfOk, IfErr};
ghost use Rattle.std.specs.Vec.{vec_capacity};
ghost use Rattle.colored_copier.specs.Conditions.{Suits, Worked};
ghost use Rattle.colored_copier.specs.Fresh.{fresh_passes};
ghost use Rattle.colored_copier.specs.Views.{job_of, rows_at_first, seats_of};

use crate::driver::{ColorHand, run_colored};
use crate::job::RowJob;
use crate::pass::RoundPass;
use crate::round::Round;
use crate::tools::{Tools, hand_out, take_back};
use fem_fixed::NoMemory;
use scratch_pool::{Gate, Pool};
use std::alloc::Global;
use std::marker::Model;
use std::thread::Threads;

/// The workers of one round after another, with what they work with: a pool of scratch objects and one to spare, and a copy
/// object for each worker. Contracts see how many workers there are, 1 to 64, and the copy objects.
#[derive(Drop)]
pub struct Crew<S, C> {
    workers: u32,
    pool: Pool<S>,
    tools: Tools<S, C>,
    // For the caller, where no hand got an object of the pool.
    spare: S,
}

impl<S, C> Model for Crew<S, C> {
    ghost use Rattle.colored_copier.specs.Crews.{CrewView, seen_crew, IsManned};

    ghost Value = { CrewView C };

    ghost view = { λ c. seen_crew c.workers c.tools };

    ghost invariant = { λ c. IsManned c.workers c.pool.table c.tools };
}

impl<S: Drop, C: Drop> Crew<S, C> {
    ghost use Rattle.std.specs.Prelude.{◌≡◌, ◌<◌, ◌≤◌, vec_len, IfOk};

    /// A crew with a worker for each copy object, 1 to 64 of them, and 1 to 64 scratch objects to share, which serve all
    /// rounds.
    pub fn new(
        alloc: Global,
        scratches: Vec<S>,
        spare: S,
        copies: Vec<C>,
    ) -> Result<Crew<S, C>, NoMemory>
        requires scratches { (0 < vec_len scratches) × (vec_len scratches ≤ 64) }
        requires copies { (0 < vec_len copies) × (vec_len copies ≤ 64) }
        ensures { IfOk result (λ crew. (crew.workers ≡ vec_len copies) × (crew.copies ≡ copies.items)) }
    {
        let workers = copies.len() as u32;
        match Pool::new(alloc, scratches, workers) {
            Ok((pool, seats)) => Ok(Crew {
                workers,
                pool,
                tools: Tools { seats, copies },
                spare,
            }),
            Err(_) => Err(NoMemory),
        }
    }
}

// A round that nobody works yet, and room for the hands on it.
struct Started<J: RowJob> {
    round: Round<J>,
    passes: Vec<RoundPass<J>>,
    hands: Vec<ColorHand<J>>,
}

// Starts a round for this many workers.
fn start<J: RowJob>(
    alloc: Global,
    job: &J,
    rows: Vec<(u32, J::Row)>,
    workers: u32,
) -> Result<Started<J>, (Vec<(u32, J::Row)>, NoMemory)>
    requires suits { Suits J.count J.rows_of J.fits job.now rows.items }
    requires workers { (0 < workers) × (workers ≤ 64) }
    ensures round { IfOk result (λ s. (job_of s.round ≡ job.now) × (rows_at_first s.round ≡ rows.items) × (seats_of s.round ≡ workers)) }
    ensures passes { IfOk result (λ s. s.passes.items ≡ fresh_passes s.round workers) }
    ensures hands { IfOk result (λ s. (s.hands.items ≡ []) × (workers ≤ vec_capacity s.hands)) }
    ensures err { IfErr result (λ back. back.0.items ≡ rows.items) }
{
    let Ok(hands) = Vec::with_capacity(alloc, workers as usize) else {
        return Err((rows, NoMemory));
    };
    match Round::new(alloc, job, rows, workers) {
        Ok((round, passes)) => Ok(Started {
            round,
            passes,
            hands,
        }),
        Err(back) => {
            hands.destroy_empty();
            Err(back)
        }
    }
}

// Works a round that was started, and ends it.
fn work_round<J: RowJob, G: Gate + Sync, R: Threads + Sync>(
    rt: &R,
    job: &J,
    started: Started<J>,
    crew: &mut Crew<J::Scratch, J::Copy>,
    first: u64,
    gate: &G,
) -> Vec<(u32, J::Row)>
    requires job { (job.now ≡ job_of started.round) × (seats_of started.round ≡ crew.old.workers) × (first ≤ 2 ^ 32) }
    requires passes { started.passes.items ≡ fresh_passes started.round crew.old.workers }
    requires hands { (started.hands.items ≡ []) × (crew.old.workers ≤ vec_capacity started.hands) }
    requires copies { All (J.has_room job.now) crew.old.copies }
    ensures worked { Worked J.count J.rows_of J.row_step (job_of started.round) (rows_at_first started.round) result.items }
    ensures workers { crew.new.workers ≡ crew.old.workers }
    ensures copies { All (J.has_room job.now) crew.new.copies }
{
    let Started {
        round,
        mut passes,
        mut hands,
    } = started;
    hand_out(
        &round,
        job,
        &crew.pool,
        &mut crew.tools,
        &mut passes,
        &mut hands,
    );
    let spare = &mut crew.spare;
    run_colored(
        rt,
        job,
        &round,
        &crew.pool,
        hands.as_mut_slice(),
        spare,
        first,
        gate,
    );
    take_back(
        &round,
        job,
        &crew.pool,
        &mut crew.tools,
        &mut hands,
        &mut passes,
    );
    hands.destroy_empty();
    round.close(passes)
}

/// Runs one round of the job on the rows: each row that an item names is after that item's `row_step`, and each other row
/// is as it was, whichever workers worked the items and in whichever order. Item k has at the gate the number `first` + k.
/// Each worker works in a thread of its own, where one can be started. Nothing is allocated for an item. The crew is the
/// same afterwards, and has its copy objects back, in some order.
///
/// # Errors
///
/// `NoMemory`, with the rows as they were.
pub fn run_round<J: RowJob, G: Gate + Sync, R: Threads + Sync>(
    rt: &R,
    alloc: Global,
    job: &J,
    rows: Vec<(u32, J::Row)>,
    crew: &mut Crew<J::Scratch, J::Copy>,
    first: u64,
    gate: &G,
) -> Result<Vec<(u32, J::Row)>, (Vec<(u32, J::Row)>, NoMemory)>
    requires suits { Suits J.count J.rows_of J.fits job.now rows.items }
    requires copies { All (J.has_room job.now) crew.old.copies }
    requires first { first ≤ 2 ^ 32 }
    ensures worked { IfOk result (λ after. Worked J.count J.rows_of J.row_step job.now rows.items after.items) }
    ensures err { IfErr result (λ back. back.0.items ≡ rows.items) }
    ensures workers { crew.new.workers ≡ crew.old.workers }
    ensures copies { All (J.has_room job.now) crew.new.copies }
{
    match start(alloc, job, rows, crew.workers) {
        Ok(started) => Ok(work_round(rt, job, started, crew, first, gate)),
        Err(back) => Err(back),
    }
}
