ghost use Rattle.std.specs.Prelude.{◌≡◌, ◌+◌, ◌*◌, ◌%◌, ◌^◌, ℕ, vec_len};

use batch_pool::{Batch, Taken, Tasks, run_batch};
use fem_fixed::NoMemory;
use scratch_pool::{HoldGate, OpenGate};
use std::alloc::Global;
use std::test::Fail;
use std::thread::Threads;

/// The output of task n is 3 n + 1.
#[derive(Drop)]
struct Triples {
    count: u32,
}

impl Tasks for Triples {
    type Output = u64;

    ghost total = { λ t. t.count };

    ghost output = { λ t n. 3 * n + 1 };

    fn count(&self) -> u32 {
        self.count
    }

    fn run<R: Threads + Sync>(&self, _rt: &R, _alloc: Global, task: u32) -> Result<u64, NoMemory> {
        Ok(3 * task as u64 + 1)
    }
}

#[test]
fn two_passes_take_two_numbers(rt: HostRuntime) -> Result<(), Fail> {
    let Ok((batch, mut passes)) = Batch::new(rt.alloc(), 2, 2) else {
        return Err(Fail::from("memory"));
    };
    let Some(mut second) = passes.pop() else {
        unreachable!()
    };
    let Some(mut first) = passes.pop() else {
        unreachable!()
    };
    assert_eq!(rt; batch.take(&rt, &mut second), Taken::Task(0));
    assert_eq!(rt; batch.take(&rt, &mut first), Taken::Task(1));
    assert!(rt; !first.is_over() && !second.is_over());
    assert_eq!(rt; batch.take(&rt, &mut first), Taken::Empty);
    assert_eq!(rt; batch.take(&rt, &mut second), Taken::Empty);
    assert!(rt; first.is_over() && second.is_over());
    assert_eq!(rt; first.taken(), [1].as_slice());
    assert_eq!(rt; second.taken(), [0].as_slice());
    passes.push_reserved(first);
    passes.push_reserved(second);
    batch.close(passes);
    Ok(())
}

#[test]
fn outputs_stand_in_the_order_of_the_tasks(rt: HostRuntime) -> Result<(), Fail> {
    let tasks = Triples { count: 100 };
    let counts = [1, 2, 8, 64];
    for w in 0..counts.len() {
        let Ok(list) = run_batch(&rt, rt.alloc(), &tasks, counts[w], &OpenGate) else {
            return Err(Fail::from("memory"));
        };
        assert_eq!(rt; list.len(), 100);
        assert_eq!(rt; (list[0], list[1], list[99]), (1, 4, 298));
    }
    let none = Triples { count: 0 };
    let Ok(list) = run_batch(&rt, rt.alloc(), &none, 3, &OpenGate) else {
        return Err(Fail::from("memory"));
    };
    assert_eq!(rt; list.len(), 0);
    Ok(())
}

#[test]
fn many_workers_share_many_small_tasks(rt: HostRuntime) -> Result<(), Fail> {
    let tasks = Triples { count: 10_000 };
    let Ok(list) = run_batch(&rt, rt.alloc(), &tasks, 64, &OpenGate) else {
        return Err(Fail::from("memory"));
    };
    assert_eq!(rt; list.len(), 10_000);
    assert!(rt;
        list.iter()
            .enumerate()
            .all(|(n, output)| *output == 3 * n as u64 + 1)
    );
    Ok(())
}

#[test]
fn task_one_passes_while_task_zero_is_held(rt: HostRuntime) -> Result<(), Fail> {
    let tasks = Triples { count: 50 };
    let gate = HoldGate::new(1_000_000_000);
    let Ok(list) = run_batch(&rt, rt.alloc(), &tasks, 2, &gate) else {
        return Err(Fail::from("memory"));
    };
    assert_eq!(rt; list.len(), 50);
    assert!(rt; !gate.gave_up());
    Ok(())
}
