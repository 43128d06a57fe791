//! A toy job, whose item n has the rows 2 n and 2 n + 1.
ghost use Rattle.std.specs.Prelude.{◌≡◌, ◌+◌, ◌*◌, ◌%◌, ◌^◌, ◌<◌, ◌≤◌, ℕ, [], ◌∷◌, map, length, vec_len, true, IfOk, All, Any};
ghost use Rattle.std.specs.List.{range_with_len};
ghost use Rattle.std.specs.Vec.{vec_capacity};
ghost use Rattle.colored_copier.specs.Passes.{IsSame};
ghost use Rattle.colored_copier.specs.Phases.{IsOver, NotOver};
ghost use Rattle.colored_copier.specs.Hands.{IsReady, IsFinished};
ghost use Rattle.colored_copier.specs.Views.{IsPassOf, job_of, seats_of};

use colored_copier::{
    Claimed, ColorHand, Round, RoundPass, RowJob, RowTurn, RowWorked, run_colored,
};
use scratch_pool::{OpenGate, Pool};
use std::alloc::{AllocError, Global};
use std::process::Abort;
use std::test::Fail;
use std::thread::Threads;

/// It adds one more than the item's number, and the row's number, to each of the item's two rows.
#[derive(Drop)]
pub struct Pairs {
    rows: Vec<[u32; 2]>,
    ghost few: { vec_len rows ≤ 1000 },
    ghost pairs: { rows.items ≡ map (λ n. (2 * n) ∷ (2 * n + 1) ∷ []) (range_with_len 0 (vec_len rows)) },
}

impl RowJob for Pairs {
    type Scratch = u64;

    type Copy = u64;

    type Row = u64;

    ghost count = { λ j. vec_len j.rows };

    ghost rows_of = { λ j i. (2 * i) ∷ (2 * i + 1) ∷ [] };

    ghost has_place = { λ j s. Unit {0} };

    ghost has_room = { λ j c. Unit {0} };

    ghost fits = { λ j r x. Unit {0} };

    ghost stands = { λ j i c. c ≡ i + 1 };

    ghost row_step = { λ j x i r. ((x + (i + 1)) % 2 ^ 64 + r) % 2 ^ 64 };

    ghost all_have_place = { λ j s. tt };

    ghost still_fits = { λ j r x i h. tt };

    fn items(&self) -> u64 {
        self.rows.len() as u64
    }

    fn rows(&self, item: u64) -> &[u32] {
        &self.rows[item as usize]
    }

    fn work(&self, turn: RowTurn, scratch: &mut u64, copy: &mut u64) -> RowWorked {
        *scratch = 1;
        *copy = turn.item() + 1;
        turn.done()
    }

    fn copy_row(&self, _item: u64, row: u32, copy: &u64, value: &mut u64) {
        *value = value.wrapping_add(*copy).wrapping_add(row as u64);
    }
}

fn make_pairs(alloc: Global, items: u32) -> Result<Pairs, AllocError>
    requires { items ≤ 1000 }
    ensures { IfOk result (λ j. vec_len j.rows ≡ items) }
{
    let mut rows = Vec::new(alloc);
    for i in 0..items {
        rows.push([2 * i, 2 * i + 1])?;
    }
    Ok(Pairs { rows })
}

// The rows below `count`, each with 100.
fn hundreds(alloc: Global, count: u32) -> Result<Vec<(u32, u64)>, AllocError>
    ensures { IfOk result (λ v. v.items ≡ map (λ r. (r, 100)) (range_with_len 0 count)) }
{
    let mut rows = Vec::new(alloc);
    for row in 0..count {
        rows.push((row, 100))?;
    }
    Ok(rows)
}

// Claims an item and writes its rows.
fn claim_and_write(
    rt: &impl Abort,
    round: &Round<Pairs>,
    job: &Pairs,
    pass: &mut RoundPass<Pairs>,
) -> u64
    requires pass { IsPassOf round.now pass.old × (pass.old.written ≡ true) × NotOver pass.old.phase }
    requires job { job.now ≡ job_of round.now }
    ensures pass { IsSame pass.old pass.new × (pass.new.written ≡ true) × NotOver pass.new.phase }
{
    let mut scratch = 0u64;
    let mut copy = 0u64;
    match round.claim(pass) {
        Claimed::Over(_) => panic!(rt; "over"),
        Claimed::Item(turn) => {
            let item = turn.item();
            let worked = job.work(turn, &mut scratch, &mut copy);
            round.write_rows(pass, job, worked, &copy);
            item
        }
    }
}

#[test]
fn one_pass_claims_two_items_and_is_over(rt: HostRuntime) -> Result<(), Fail> {
    let job = make_pairs(rt.alloc(), 2)?;
    let rows = hundreds(rt.alloc(), 5)?;
    let Ok((round, mut passes)) = Round::new(rt.alloc(), &job, rows, 1) else {
        return Err(Fail::from("memory"));
    };
    let Some(mut pass) = passes.pop() else {
        unreachable!()
    };
    assert_eq!(rt; claim_and_write(&rt, &round, &job, &mut pass), 0);
    assert_eq!(rt; claim_and_write(&rt, &round, &job, &mut pass), 1);
    match round.claim(&mut pass) {
        Claimed::Item(turn) => { panic!(&rt; "a third item") }
        Claimed::Over(n) => assert_eq!(rt; n, 2),
    }
    passes.push_reserved(pass);
    let back = round.close(passes);
    let wanted = [(0, 101), (1, 102), (2, 104), (3, 105), (4, 100)];
    assert_eq!(rt; back.as_slice(), wanted.as_slice());
    Ok(())
}

fn two<T>(values: &mut Vec<T>) -> (T, T)
    requires { vec_len values.old ≡ 2 }
    ensures { (values.old.items ≡ result.0 ∷ result.1 ∷ []) × (values.new.items ≡ []) × (vec_capacity values.new ≡ vec_capacity values.old) }
{
    let Some(second) = values.pop() else {
        unreachable!()
    };
    let Some(first) = values.pop() else {
        unreachable!()
    };
    (first, second)
}

// Works the round with the hands of a vector.
fn work_in_threads<R: Threads + Sync>(
    rt: &R,
    job: &Pairs,
    round: &Round<Pairs>,
    pool: &Pool<u64>,
    hands: &mut Vec<ColorHand<Pairs>>,
    spare: &mut u64,
)
    requires all { (0 < vec_len hands.old) × (vec_len hands.old ≡ seats_of round.now) }
    requires job { job.now ≡ job_of round.now }
    requires hands { All (λ h. IsReady round.now pool.now.table h.pass h.scratch × Unit {0}) hands.old.items }
    ensures len { vec_len hands.new ≡ vec_len hands.old }
    ensures finished { All (λ h. IsFinished round.now pool.now.table h.pass h.scratch × Unit {0}) hands.new.items }
    ensures over { Any (λ h. IsOver h.pass.phase) hands.new.items }
{
    run_colored(
        rt,
        job,
        round,
        pool,
        hands.as_mut_slice(),
        spare,
        0,
        &OpenGate,
    );
}

// The rows and the spare object after two hands have worked eight items. Where `out` is true, a third pass of the pool tries
// for an object first, and keeps it.
fn run<R: Threads + Sync>(
    rt: &R,
    alloc: Global,
    objects: Vec<u64>,
    out: bool,
) -> Result<(Vec<(u32, u64)>, u64), Fail>
    requires { (0 < vec_len objects) × (vec_len objects ≤ 64) }
{
    let job = make_pairs(alloc, 8)?;
    let rows = hundreds(alloc, 17)?;
    let mut hands = Vec::with_capacity(alloc, 2)?;
    let Ok((pool, mut seats)) = Pool::new(alloc, objects, 3) else {
        hands.destroy_empty();
        return Err(Fail::from("memory"));
    };
    let Ok((round, mut passes)) = Round::new(alloc, &job, rows, 2) else {
        hands.destroy_empty();
        return Err(Fail::from("memory"));
    };
    let Some(mut other) = seats.pop() else {
        unreachable!()
    };
    if out {
        pool.acquire(&mut other);
    }
    let (left, right) = two(&mut passes);
    let (one, another) = two(&mut seats);
    hands.push_reserved(ColorHand {
        pass: left,
        scratch: one,
        copy: 0u64,
    });
    hands.push_reserved(ColorHand {
        pass: right,
        scratch: another,
        copy: 0u64,
    });
    let mut spare = 77u64;
    work_in_threads(rt, &job, &round, &pool, &mut hands, &mut spare);
    let (left, right) = two(&mut hands);
    hands.destroy_empty();
    let ColorHand {
        pass,
        scratch: _,
        copy: _,
    } = left;
    passes.push_reserved(pass);
    let ColorHand {
        pass,
        scratch: _,
        copy: _,
    } = right;
    passes.push_reserved(pass);
    Ok((round.close(passes), spare))
}

#[test]
fn hands_write_each_row_once(rt: HostRuntime) -> Result<(), Fail> {
    let one = [0].to_vec(rt.alloc())?;
    let three = [0, 0, 0].to_vec(rt.alloc())?;
    let (rows, spare) = run(&rt, rt.alloc(), one, false)?;
    let (again, _) = run(&rt, rt.alloc(), three, false)?;
    // Row r of the item r / 2 has 100 + (r / 2 + 1) + r.
    let wanted = [
        101, 102, 104, 105, 107, 108, 110, 111, 113, 114, 116, 117, 119, 120, 122, 123, 100,
    ];
    assert_eq!(rt; rows.len(), wanted.len());
    for r in 0..wanted.len() {
        assert_eq!(rt; rows[r], (r as u32, wanted[r]));
    }
    assert_eq!(rt; again.as_slice(), rows.as_slice());
    assert_eq!(rt; spare, 77);
    Ok(())
}

#[test]
fn the_caller_works_where_no_object_is_at_home(rt: HostRuntime) -> Result<(), Fail> {
    let one = [0].to_vec(rt.alloc())?;
    let (rows, spare) = run(&rt, rt.alloc(), one, true)?;
    assert_eq!(rt; rows.len(), 17);
    assert_eq!(rt; rows[15], (15, 123));
    assert_eq!(rt; spare, 1);
    Ok(())
}
