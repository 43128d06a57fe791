ghost use Rattle.std.specs.Prelude.{◌≡◌, ◌<◌, ◌≤◌, All, IfOk, length, vec_len};
ghost use Rattle.scratch_pool.specs.Pools.{AreIdle, IsIdleAt};

use scratch_pool::{Gate, HoldGate, Pool, PoolPass};
use std::sync::atomic::{AtomicU64, Ordering};
use std::test::Fail;
use std::thread;
use std::thread::Threads;

/// How often each thread borrows; 100,000 by hand.
const TURNS: u32 = 500;

/// An object that counts who has it, and how often it was used.
#[derive(Drop)]
struct Tally {
    holders: AtomicU64,
    uses: u64,
}

/// What all threads count: borrowings, and those of an object that another had.
#[derive(Drop)]
struct Counts {
    uses: AtomicU64,
    shared: AtomicU64,
}

#[test]
fn one_object_and_two_passes(rt: HostRuntime) -> Result<(), Fail> {
    let mut objects = Vec::new(rt.alloc());
    objects.push(7u64)?;
    let Ok((pool, mut passes)) = Pool::new(rt.alloc(), objects, 2) else {
        return Err(Fail::from("memory"));
    };
    let Some(mut second) = passes.pop() else {
        unreachable!()
    };
    let Some(mut first) = passes.pop() else {
        unreachable!()
    };
    assert!(rt; pool.acquire(&mut first));
    *first.scratch() = 8;
    assert!(rt; !pool.acquire(&mut second));
    assert_eq!(rt; (second.looks(0), second.holds()), (1, None));
    pool.release(&mut first);
    assert!(rt; pool.acquire(&mut second));
    assert_eq!(rt; (*second.scratch(), second.holds()), (8, Some(0)));
    pool.release(&mut second);
    passes.push(first)?;
    passes.push(second)?;
    let back = pool.close(passes);
    assert_eq!(rt; back.as_slice(), [8].as_slice());
    Ok(())
}

#[test]
fn no_object_is_with_two_threads(rt: HostRuntime) -> Result<(), Fail> {
    let counts = Counts {
        uses: AtomicU64::new(0),
        shared: AtomicU64::new(0),
    };
    let mut objects = Vec::new(rt.alloc());
    for _ in 0..3 {
        objects.push(Tally {
            holders: AtomicU64::new(0),
            uses: 0,
        })?;
    }
    assert!(rt; objects.len() == 3);
    let (pool, mut passes) = pool_of(objects)?;
    share(&rt, &pool, &mut passes, &counts);
    let mut uses = 0u64;
    for object in pool.close(passes).iter() {
        uses = uses.wrapping_add(object.uses);
    }
    assert_eq!(rt; counts.shared.load(Ordering::SeqCst), 0);
    assert_eq!(rt; counts.uses.load(Ordering::SeqCst), uses);
    assert!(rt; uses > 0);
    Ok(())
}

#[test]
fn a_gate_tells_whether_a_wait_ended(rt: HostRuntime) {
    let alone = HoldGate::new(3);
    alone.pass(0);
    let after = HoldGate::new(3);
    after.pass(1);
    after.pass(0);
    let together = HoldGate::new(1_000_000_000);
    thread::join(&rt, || together.pass(0), || together.pass(1));
    assert!(rt; alone.gave_up() && !after.gave_up() && !together.gave_up());
}

fn pool_of(objects: Vec<Tally>) -> Result<(Pool<Tally>, Vec<PoolPass<Tally>>), Fail>
    requires { vec_len objects ≡ 3 }
    ensures { IfOk result (λ r. AreIdle r.0.table r.1.items × (vec_len r.1 ≡ r.0.seats) × (vec_len r.1 ≡ 8)) }
{
    let alloc = *objects.allocator();
    match Pool::new(alloc, objects, 8) {
        Ok(made) => Ok(made),
        Err(_) => Err(Fail::from("memory")),
    }
}

/// Each pass in a thread of its own.
fn share<R: Threads + Sync>(
    rt: &R,
    pool: &Pool<Tally>,
    passes: &mut [PoolPass<Tally>],
    counts: &Counts,
)
    requires { (length passes.old ≡ 8) × All (λ p. IsIdleAt pool.now.table p) passes.old }
    ensures { (length passes.new ≡ length passes.old) × All (λ p. IsIdleAt pool.now.table p) passes.new }
{
    thread::for_each_mut(rt, passes, 8, &|_, pass| borrow(pool, pass, counts));
}

fn borrow(pool: &Pool<Tally>, pass: &mut PoolPass<Tally>, counts: &Counts)
    requires { IsIdleAt pool.now.table pass.old }
    ensures { IsIdleAt pool.now.table pass.new }
{
    for _ in 0..TURNS {
        if pool.acquire(pass) {
            count(pass.scratch(), counts);
            pool.release(pass);
        } else {
            thread::yield_now();
        }
    }
}

fn count(tally: &mut Tally, counts: &Counts) {
    let others = tally.holders.fetch_add(1, Ordering::SeqCst);
    tally.uses = tally.uses.wrapping_add(1);
    counts.uses.fetch_add(1, Ordering::SeqCst);
    counts.shared.fetch_add(others, Ordering::SeqCst);
    tally.holders.fetch_sub(1, Ordering::SeqCst);
}
