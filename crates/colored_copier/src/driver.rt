//! Hands that work a round until all its items are done.
ghost use Rattle.std.specs.Prelude.{◌≡◌, ◌<◌, ◌≤◌, ◌+◌, ◌^◌, true, All, Any, length, ◌⊎◌};
ghost use Rattle.scratch_pool.specs.Pools.{RoseBelow};
ghost use Rattle.colored_copier.specs.Phases.{IsOver, NotOver};
ghost use Rattle.colored_copier.specs.Passes.{IsSame};
ghost use Rattle.colored_copier.specs.Views.{IsPassOf, job_of, seats_of};
ghost use Rattle.colored_copier.specs.Hands.{IsReady, IsThrough, IsFinished, AllBoth};

use crate::job::RowJob;
use crate::pass::RoundPass;
use crate::round::{Claimed, Round};
use scratch_pool::{Gate, Pool, PoolPass};
use std::thread;
use std::thread::Threads;

/// What one thread of a coloured run has.
pub struct ColorHand<J: RowJob> {
    pub pass: RoundPass<J>,
    pub scratch: PoolPass<J::Scratch>,
    pub copy: J::Copy,
}

// The number that an item has at the gate.
fn gate_number(first: u64, item: u64) -> u64
    requires { (first ≤ 2 ^ 32) × (item < 2 ^ 32) }
    ensures { result ≡ first + item }
{
    item + first
}

// Claims and writes until the pass is over.
fn work_all<J: RowJob, G: Gate>(
    job: &J,
    round: &Round<J>,
    pass: &mut RoundPass<J>,
    scratch: &mut J::Scratch,
    copy: &mut J::Copy,
    first: u64,
    gate: &G,
)
    requires pass { IsPassOf round.now pass.old × (pass.old.written ≡ true) × NotOver pass.old.phase }
    requires job { (job.now ≡ job_of round.now) × (first ≤ 2 ^ 32) }
    requires room { J.has_room job.now copy.old }
    ensures pass { IsSame pass.old pass.new × IsOver pass.new.phase × (pass.new.written ≡ true) }
    ensures room { J.has_room job.now copy.new }
{
    let mut next = 0u64;
    let mut over = false;
    while !over {
        match round.claim(pass) {
            Claimed::Item(turn) => {
                next = turn.item() + 1;
                gate.pass(gate_number(first, turn.item()));
                let worked = job.work(turn, scratch, copy);
                round.write_rows(pass, job, worked, copy);
            }
            Claimed::Over(_) => over = true,
        }
    }
}

// Works the round with an object of the pool, where one is at home.
fn one_hand<J: RowJob, G: Gate>(
    job: &J,
    round: &Round<J>,
    pool: &Pool<J::Scratch>,
    hand: &mut ColorHand<J>,
    first: u64,
    gate: &G,
)
    requires ready { IsReady round.now pool.now.table hand.old.pass hand.old.scratch }
    requires room { J.has_room job.now hand.old.copy }
    requires job { (job.now ≡ job_of round.now) × (first ≤ 2 ^ 32) }
    ensures through { IsThrough pool.now.objects hand.old.pass hand.old.scratch hand.new.pass hand.new.scratch }
    ensures room { J.has_room job.now hand.new.copy }
{
    if pool.acquire(&mut hand.scratch) {
        work_all(
            job,
            round,
            &mut hand.pass,
            hand.scratch.scratch(),
            &mut hand.copy,
            first,
            gate,
        );
        pool.release(&mut hand.scratch);
    }
}

// Each hand works in a thread of its own, where it gets an object.
fn in_threads<J: RowJob, G: Gate + Sync, R: Threads + Sync>(
    rt: &R,
    job: &J,
    round: &Round<J>,
    pool: &Pool<J::Scratch>,
    hands: &mut [ColorHand<J>],
    first: u64,
    gate: &G,
)
    requires some { 0 < length hands.old }
    requires job { (job.now ≡ job_of round.now) × (first ≤ 2 ^ 32) }
    requires hands { All (λ h. IsReady round.now pool.now.table h.pass h.scratch × J.has_room job.now h.copy) hands.old }
    ensures len { length hands.new ≡ length hands.old }
    ensures each { AllBoth (λ h i. IsThrough pool.now.objects h.pass h.scratch i.pass i.scratch × J.has_room job.now i.copy) hands.old hands.new }
{
    let count = hands.len();
    thread::for_each_mut(
        rt,
        hands,
        count,
        &|_: usize, hand: &mut ColorHand<J>|
            requires { IsReady round.now pool.now.table hand.now.pass hand.now.scratch × J.has_room job.now hand.now.copy × (job.now ≡ job_of round.now) × (first ≤ 2 ^ 32) }
            ensures { IsThrough pool.entry.now.objects hand.entry.now.pass hand.entry.now.scratch hand.exit.now.pass hand.exit.now.scratch × J.has_room job.entry.now hand.exit.now.copy }
        { one_hand(job, round, pool, hand, first, gate) },
    );
}

/// Works all items of the round: each hand that gets a scratch object claims until it is over.
/// Where none got one, the caller goes on with the first hand and the spare object.
pub fn run_colored<J: RowJob, G: Gate + Sync, R: Threads + Sync>(
    rt: &R,
    job: &J,
    round: &Round<J>,
    pool: &Pool<J::Scratch>,
    hands: &mut [ColorHand<J>],
    spare: &mut J::Scratch,
    first: u64,
    gate: &G,
)
    requires all { (0 < length hands.old) × (length hands.old ≡ seats_of round.now) }
    requires job { (job.now ≡ job_of round.now) × (first ≤ 2 ^ 32) }
    requires hands { All (λ h. IsReady round.now pool.now.table h.pass h.scratch × J.has_room job.now h.copy) hands.old }
    ensures len { length hands.new ≡ length hands.old }
    ensures each { AllBoth (λ h i. IsThrough pool.now.objects h.pass h.scratch i.pass i.scratch × J.has_room job.now i.copy) hands.old hands.new }
    ensures finished { All (λ h. IsFinished round.now pool.now.table h.pass h.scratch × J.has_room job.now h.copy) hands.new }
    ensures over { Any (λ h. IsOver h.pass.phase) hands.new }
    ensures spare { (spare.new ≡ spare.old) ⊎ AllBoth (λ h i. RoseBelow pool.now.objects h.scratch.looks i.scratch.looks) hands.old hands.new }
{
    in_threads(rt, job, round, pool, hands, first, gate);
    for i in 0..hands.len() {
        if hands[i].pass.is_over() {
            return;
        }
    }
    let hand = &mut hands[0];
    work_all(
        job,
        round,
        &mut hand.pass,
        spare,
        &mut hand.copy,
        first,
        gate,
    );
}
