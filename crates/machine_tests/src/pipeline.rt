//! A toy job: item n appends the hexadecimal digit n to a number, so a change of order changes the number.
ghost use Rattle.std.specs.Prelude.{◌≡◌, ◌<◌, ◌≤◌, ◌+◌, ◌*◌, ◌%◌, ◌^◌, ℕ, All, Some, false, vec_len, [], ◌∷◌};
ghost use Rattle.std.specs.Vec.{vec_capacity};
ghost use Rattle.ordered_pipeline.specs.declared.view.Phase.TheVariants as phase;
ghost use Rattle.ordered_pipeline.specs.Passes.{IsPassOf, IsSame};

use ordered_pipeline::{
    Drawn, Ended, Handed, Job, JobData, Next, Pass, Pipeline, Start, Turn, Worked, run_job,
};
use scratch_pool::OpenGate;
use std::alloc::Global;
use std::process::Abort;
use std::sync::Wait;
use std::test::Fail;
use std::thread::Threads;

/// It appends a digit for each item.
#[derive(Drop)]
pub struct Digits {
    items: u64,
    ghost few: { items ≤ 16 },
}

impl Job for Digits {
    type Scratch = u64;

    type Copy = u64;

    type State = u64;

    ghost count = { λ j. j.items };

    ghost has_place = { λ j s. Unit {0} };

    ghost has_room = { λ j c. Unit {0} };

    ghost fits = { λ j s. Unit {0} };

    ghost stands = { λ j i c. c ≡ i };

    ghost step = { λ j s i. ((s * 16) % 2 ^ 64 + i) % 2 ^ 64 };

    ghost all_have_place = { λ j s. tt };

    ghost still_fits = { λ j s i h. tt };

    fn items(&self) -> u64 {
        self.items
    }

    fn work(&self, turn: Turn, scratch: &mut u64, copy: &mut u64) -> Worked {
        *scratch = 1;
        *copy = turn.item();
        turn.done()
    }

    fn copy(&self, _item: u64, copy: &u64, state: &mut u64) {
        *state = state.wrapping_mul(16).wrapping_add(*copy);
    }
}

// Draws an item.
fn draw_item(rt: &impl Abort, pipeline: &Pipeline<Digits>, pass: &mut Pass<Digits>) -> u64
    requires pass { IsPassOf pipeline.now.table pipeline.now.key pass.old }
    requires idle { (pass.old.phase ≡ phase.Idle) × (pass.old.over ≡ false) }
    ensures { IsSame pass.old pass.new × (pass.new.phase ≡ phase.Drawn result) × (pass.new.over ≡ false) × (result < pipeline.now.key.job.value.items) }
{
    match pipeline.draw(pass) {
        Drawn::Item(item) => item,
        Drawn::Over(_) => panic!(rt; "over"),
    }
}

// Draws a number past the last item.
fn draw_past(rt: &impl Abort, pipeline: &Pipeline<Digits>, pass: &mut Pass<Digits>) -> u64
    requires pass { IsPassOf pipeline.now.table pipeline.now.key pass.old }
    requires idle { (pass.old.phase ≡ phase.Idle) × (pass.old.over ≡ false) }
    ensures { IsSame pass.old pass.new × (pass.new.phase ≡ phase.Idle) }
{
    match pipeline.draw(pass) {
        Drawn::Item(_) => panic!(rt; "an item"),
        Drawn::Over(number) => number,
    }
}

// How many items are copied, where the drawn one can't start yet.
fn look(rt: &impl Abort, pipeline: &Pipeline<Digits>, pass: &mut Pass<Digits>) -> u64
    requires pass { IsPassOf pipeline.now.table pipeline.now.key pass.old }
    requires drawn { (n : ℕ) × (pass.old.phase ≡ phase.Drawn n) }
    ensures { IsSame pass.old pass.new × (pass.new.phase ≡ pass.old.phase) × (pass.new.over ≡ pass.old.over) }
{
    match pipeline.try_start(pass) {
        Start::NotYet(copied) => copied,
        Start::Go(turn) => { panic!(rt; "a start") }
    }
}

// Starts and works the drawn item.
fn work(
    rt: &impl Abort,
    pipeline: &Pipeline<Digits>,
    job: &Digits,
    pass: &mut Pass<Digits>,
) -> Worked
    requires pass { IsPassOf pipeline.now.table pipeline.now.key pass.old }
    requires drawn { (n : ℕ) × (pass.old.phase ≡ phase.Drawn n) × (n < job.now.items) }
    ensures pass { IsSame pass.old pass.new × (pass.new.phase ≡ phase.Started result) × (pass.new.over ≡ pass.old.over) }
    ensures copy { pass.new.copy ≡ Some result }
{
    let mut scratch = 0u64;
    match pipeline.try_start(pass) {
        Start::NotYet(_) => panic!(rt; "not yet"),
        Start::Go(turn) => job.work(turn, &mut scratch, pass.copy_object()),
    }
}

// Finishes the item, and copies for as long as the pass has the baton: how many items it copied.
fn finish(
    rt: &impl Abort,
    pipeline: &Pipeline<Digits>,
    job: &Digits,
    pass: &mut Pass<Digits>,
    worked: Worked,
) -> u64
    requires pass { IsPassOf pipeline.now.table pipeline.now.key pass.old }
    requires started { (pass.old.phase ≡ phase.Started worked) × (pass.old.copy ≡ Some worked) }
    requires job { job.now ≡ pipeline.now.key.job.value }
    ensures { IsSame pass.old pass.new × (pass.new.phase ≡ phase.Idle) × (pass.new.over ≡ pass.old.over) }
{
    match pipeline.finish(pass, worked) {
        Handed::Left => 0,
        Handed::Baton => copy_all(rt, pipeline, job, pass),
    }
}

fn copy_all(
    rt: &impl Abort,
    pipeline: &Pipeline<Digits>,
    job: &Digits,
    pass: &mut Pass<Digits>,
) -> u64
    requires pass { IsPassOf pipeline.now.table pipeline.now.key pass.old }
    requires baton { (n : ℕ) × (pass.old.phase ≡ phase.Baton n) }
    requires job { job.now ≡ pipeline.now.key.job.value }
    ensures { IsSame pass.old pass.new × (pass.new.phase ≡ phase.Idle) × (pass.new.over ≡ pass.old.over) }
{
    for copied in 1..17 {
        match pipeline.copy_next(pass, job) {
            Next::Again => {}
            Next::Left => return copied,
        }
    }
    panic!(rt; "no end")
}

#[test]
fn one_place_and_two_passes(rt: HostRuntime) -> Result<(), Fail> {
    let job = Digits { items: 3 };
    let copies = [0].to_vec(rt.alloc())?;
    let Ok((pipeline, mut passes)) = Pipeline::new(rt.alloc(), &job, copies, 15, 2) else {
        return Err(Fail::from("memory"));
    };
    let (mut a, mut b) = two(&mut passes);
    assert_eq!(rt; draw_item(&rt, &pipeline, &mut a), 0);
    assert_eq!(rt; draw_item(&rt, &pipeline, &mut b), 1);
    assert_eq!(rt; look(&rt, &pipeline, &mut b), 0);
    assert_eq!(rt; b.looks(), 1);
    let zero = work(&rt, &pipeline, &job, &mut a);
    assert_eq!(rt; finish(&rt, &pipeline, &job, &mut a, zero), 1);
    let one = work(&rt, &pipeline, &job, &mut b);
    assert_eq!(rt; finish(&rt, &pipeline, &job, &mut b, one), 1);
    assert_eq!(rt; draw_item(&rt, &pipeline, &mut a), 2);
    let last = work(&rt, &pipeline, &job, &mut a);
    assert_eq!(rt; finish(&rt, &pipeline, &job, &mut a, last), 1);
    assert_eq!(rt; draw_past(&rt, &pipeline, &mut a), 3);
    assert_eq!(rt; draw_past(&rt, &pipeline, &mut b), 4);
    assert!(rt; a.is_over() && b.is_over());
    passes.push_reserved(a);
    passes.push_reserved(b);
    let Ended {
        copies,
        state,
        copied,
    } = pipeline.close(passes);
    assert_eq!(rt; (copies.len(), state, copied), (1, 0xf012, 3));
    Ok(())
}

#[test]
fn two_places_and_two_passes(rt: HostRuntime) -> Result<(), Fail> {
    let job = Digits { items: 2 };
    let copies = [0, 0].to_vec(rt.alloc())?;
    let Ok((pipeline, mut passes)) = Pipeline::new(rt.alloc(), &job, copies, 15, 2) else {
        return Err(Fail::from("memory"));
    };
    let (mut a, mut b) = two(&mut passes);
    assert_eq!(rt; draw_item(&rt, &pipeline, &mut a), 0);
    assert_eq!(rt; draw_item(&rt, &pipeline, &mut b), 1);
    let zero = work(&rt, &pipeline, &job, &mut a);
    let one = work(&rt, &pipeline, &job, &mut b);
    assert_eq!(rt; finish(&rt, &pipeline, &job, &mut b, one), 0);
    assert_eq!(rt; finish(&rt, &pipeline, &job, &mut a, zero), 2);
    assert!(rt; !a.is_over());
    passes.push_reserved(a);
    passes.push_reserved(b);
    let Ended {
        copies,
        state,
        copied,
    } = pipeline.close(passes);
    assert_eq!(rt; (copies.len(), state, copied), (2, 0xf01, 2));
    Ok(())
}

fn two<T>(values: &mut Vec<T>) -> (T, T)
    requires { vec_len values.old ≡ 2 }
    ensures { (values.old.items ≡ result.0 ∷ result.1 ∷ []) × (values.new.items ≡ []) × (vec_capacity values.new ≡ vec_capacity values.old) }
{
    let Some(second) = values.pop() else {
        unreachable!()
    };
    let Some(first) = values.pop() else {
        unreachable!()
    };
    (first, second)
}

// The state after workers have run 16 items, and how many copy objects and scratch objects came back.
fn run<R: Threads + Wait + Sync>(
    rt: &R,
    alloc: Global,
    scratches: Vec<u64>,
    copies: Vec<u64>,
    workers: u32,
) -> Result<(u64, usize, usize), Fail>
    requires scratches { (0 < vec_len scratches) × (vec_len scratches ≤ 64) }
    requires copies { (0 < vec_len copies) × (vec_len copies ≤ 256) }
    requires workers { (0 < workers) × (workers ≤ 64) }
{
    let job = Digits { items: 16 };
    let given = JobData {
        copies,
        scratches,
        state: 0,
    };
    match run_job(rt, alloc, &job, given, workers, &OpenGate) {
        Ok(done) => Ok((done.state, done.copies.len(), done.scratches.len())),
        Err(_) => Err(Fail::from("memory")),
    }
}

#[test]
fn workers_append_the_digits_in_order(rt: HostRuntime) -> Result<(), Fail> {
    for (objects, queue, workers) in [(1, 1, 1), (2, 1, 2), (1, 3, 2), (3, 2, 8), (2, 8, 8)] {
        let scratches = vec![in rt.alloc(); 0u64; objects]?;
        let copies = vec![in rt.alloc(); 0u64; queue]?;
        let (state, copies, scratches) = run(&rt, rt.alloc(), scratches, copies, workers)?;
        assert_eq!(rt;
            state,
            0x0123_4567_89ab_cdef,
            "queue {queue}, {workers} workers"
        );
        assert_eq!(rt; (copies, scratches), (queue, objects));
    }
    Ok(())
}
