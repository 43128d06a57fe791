//! The driver: hands in threads that draw, work and copy until all items are done.
ghost use Rattle.std.specs.Prelude.{◌≡◌, ◌<◌, ℕ, None, true, false, All, length, slice_index_or, IsSome, IsSomeAnd};
ghost use Rattle.ordered_pipeline.specs.declared.view.Phase.TheVariants as phase;
ghost use Rattle.ordered_pipeline.specs.Passes.{IsPassOf, IsSame};
ghost use Rattle.ordered_pipeline.specs.Hands.{IsReady, IsBetween, IsThrough, IsFinished};
ghost use Rattle.scratch_pool.specs.Pools as pools;

use crate::job::Job;
use crate::pass::{Drawn, Handed, Next, Pass, Start};
use crate::pipeline::Pipeline;
use crate::turn::Turn;
use crossbeam_utils::Backoff;
use scratch_pool::{Gate, Pool, PoolPass};
use std::sync::Wait;
use std::thread;
use std::thread::Threads;

/// What one thread of an ordered run has: its pass of the pipeline, and its pass of the pool of scratch objects.
pub struct Hand<J: Job> {
    pub pass: Pass<J>,
    pub scratch: PoolPass<J::Scratch>,
}

// Waits until the item is near enough.
fn start<J: Job, R: Wait>(rt: &R, pipeline: &Pipeline<J>, pass: &mut Pass<J>) -> Turn
    requires pass { IsPassOf pipeline.now.table pipeline.now.key pass.old }
    requires drawn { (n : ℕ) × (pass.old.phase ≡ phase.Drawn n) }
    ensures same { IsSame pass.old pass.new × (pass.new.over ≡ pass.old.over) }
    ensures started { (pass.old.phase ≡ phase.Drawn result) × (pass.new.phase ≡ phase.Started result) × IsSomeAnd pass.new.copy (J.has_room pipeline.now.key.job.value) }
{
    let backoff = Backoff::new();
    for _ in rt.forever() {
        match pipeline.try_start(pass) {
            Start::Go(turn) => return turn,
            Start::NotYet(_) => backoff.snooze(),
        }
    }
    unreachable!()
}

// Takes an object as soon as one is at home.
fn acquire<T, R: Wait>(rt: &R, pool: &Pool<T>, scratch: &mut PoolPass<T>)
    requires { (scratch.old.table ≡ pool.now.table) × (scratch.old.holds ≡ None) }
    ensures { pools.IsSame scratch.old scratch.new × IsSome scratch.new.holds }
{
    let backoff = Backoff::new();
    for _ in rt.forever() {
        if pool.acquire(scratch) {
            return;
        }
        backoff.snooze();
    }
    unreachable!()
}

// Copies for as long as the next item is ready.
fn copy_all<J: Job, R: Wait>(rt: &R, pipeline: &Pipeline<J>, pass: &mut Pass<J>, job: &J)
    requires pass { IsPassOf pipeline.now.table pipeline.now.key pass.old }
    requires baton { (n : ℕ) × (pass.old.phase ≡ phase.Baton n) }
    requires job { job.now ≡ pipeline.now.key.job.value }
    ensures same { IsSame pass.old pass.new × (pass.new.over ≡ pass.old.over) }
    ensures idle { pass.new.phase ≡ phase.Idle }
{
    for _ in rt.forever() {
        match pipeline.copy_next(pass, job) {
            Next::Again => {}
            Next::Left => return,
        }
    }
    unreachable!()
}

// One item, from its draw on.
fn work_on<J: Job, G: Gate, R: Wait>(
    rt: &R,
    job: &J,
    pipeline: &Pipeline<J>,
    pool: &Pool<J::Scratch>,
    hand: &mut Hand<J>,
    gate: &G,
)
    requires pass { IsPassOf pipeline.now.table pipeline.now.key hand.old.pass }
    requires drawn { (n : ℕ) × (hand.old.pass.phase ≡ phase.Drawn n) × (n < J.count job.now) }
    requires scratch { (hand.old.scratch.table ≡ pool.now.table) × (hand.old.scratch.holds ≡ None) }
    requires job { job.now ≡ pipeline.now.key.job.value }
    ensures { IsBetween hand.old.pass hand.old.scratch hand.new.pass hand.new.scratch }
{
    let turn = start(rt, pipeline, &mut hand.pass);
    acquire(rt, pool, &mut hand.scratch);
    gate.pass(turn.item());
    let worked = job.work(turn, hand.scratch.scratch(), hand.pass.copy_object());
    pool.release(&mut hand.scratch);
    match pipeline.finish(&mut hand.pass, worked) {
        Handed::Left => {}
        Handed::Baton => copy_all(rt, pipeline, &mut hand.pass, job),
    }
}

// Items one after another, until the pass is over.
fn run_hand<J: Job, G: Gate, R: Wait>(
    rt: &R,
    job: &J,
    pipeline: &Pipeline<J>,
    pool: &Pool<J::Scratch>,
    hand: &mut Hand<J>,
    gate: &G,
)
    requires ready { IsReady pipeline.now.table pipeline.now.key pool.now.table hand.old.pass hand.old.scratch }
    requires job { job.now ≡ pipeline.now.key.job.value }
    ensures { IsThrough hand.old.pass hand.old.scratch hand.new.pass hand.new.scratch }
{
    for _ in rt.forever() {
        match pipeline.draw(&mut hand.pass) {
            Drawn::Item(_) => work_on(rt, job, pipeline, pool, hand, gate),
            Drawn::Over(_) => return,
        }
    }
    unreachable!()
}

/// Works and copies all items: each hand draws, starts, takes a scratch object, passes the gate, works, returns the
/// object, finishes and copies, until it is over. Where it can't go on yet it pauses by a `Backoff` and tries again;
/// nothing rests on the pause. It may wait for another hand, and takes no memory. A thread that can't be started is
/// no error: its hand runs in the caller.
pub fn run_ordered<J: Job, G: Gate + Sync, R: Threads + Wait + Sync>(
    rt: &R,
    job: &J,
    pipeline: &Pipeline<J>,
    pool: &Pool<J::Scratch>,
    hands: &mut [Hand<J>],
    gate: &G,
)
    requires some { 0 < length hands.old }
    requires job { job.now ≡ pipeline.now.key.job.value }
    requires hands { All (λ h. IsReady pipeline.now.table pipeline.now.key pool.now.table h.pass h.scratch) hands.old }
    ensures len { length hands.new ≡ length hands.old }
    ensures each { (k : ℕ) (d : _) → k < length hands.old → IsThrough (slice_index_or hands.old k d).pass (slice_index_or hands.old k d).scratch (slice_index_or hands.new k d).pass (slice_index_or hands.new k d).scratch }
    ensures finished { All (λ h. IsFinished pipeline.now.table pipeline.now.key pool.now.table h.pass h.scratch) hands.new }
{
    let count = hands.len();
    thread::for_each_mut(
        rt,
        hands,
        count,
        &|_: usize, hand: &mut Hand<J>|
            requires { IsReady pipeline.now.table pipeline.now.key pool.now.table hand.now.pass hand.now.scratch × (job.now ≡ pipeline.now.key.job.value) }
            ensures { IsThrough hand.entry.now.pass hand.entry.now.scratch hand.exit.now.pass hand.exit.now.scratch }
        { run_hand(rt, job, pipeline, pool, hand, gate) },
    );
}
