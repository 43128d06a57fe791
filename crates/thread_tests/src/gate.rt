//! A gate at which items wait for others.
use scratch_pool::Gate;
use std::alloc::Global;
use std::sync::atomic::{AtomicU64, Ordering};
use std::thread;

/// How often a waiting item looks before it gives up.
pub const TURNS: u64 = 100_000_000;

/// How many items there are.
const ITEMS: usize = 16;

/// It counts 16 items, and keeps some of them until others have come. One thread alone, or threads among which the
/// items were dealt out beforehand, would keep them there.
#[derive(Drop)]
pub struct MeetGate<'a> {
    turns: u64,
    /// The first item of a pair waits until the second has come.
    waits: &'a [(u64, u64)],
    /// How often each item has come.
    came: Vec<AtomicU64>,
    /// How many items came that are none of these.
    strays: AtomicU64,
    /// How many waits ended by their turns.
    over: AtomicU64,
}

impl<'a> MeetGate<'a> {
    /// None where memory runs out.
    pub fn new(alloc: Global, turns: u64, waits: &'a [(u64, u64)]) -> Option<MeetGate<'a>> {
        let mut came = Vec::new(alloc);
        for _ in 0..ITEMS {
            came.push(AtomicU64::new(0)).ok()?;
        }
        Some(MeetGate {
            turns,
            waits,
            came,
            strays: AtomicU64::new(0),
            over: AtomicU64::new(0),
        })
    }

    /// Whether a wait ended by its turns.
    pub fn gave_up(&self) -> bool {
        self.over.load(Ordering::SeqCst) != 0
    }

    /// Whether each of the 16 items came once, and no other.
    pub fn each_once(&self) -> bool {
        let all_once = self
            .came
            .iter()
            .all(|times| times.load(Ordering::SeqCst) == 1);
        all_once && self.strays.load(Ordering::SeqCst) == 0
    }

    fn count(&self, item: u64) {
        match self.came.get(item as usize) {
            Some(times) => times.fetch_add(1, Ordering::SeqCst),
            None => self.strays.fetch_add(1, Ordering::SeqCst),
        };
    }

    fn has_come(&self, item: u64) -> bool {
        match self.came.get(item as usize) {
            Some(times) => times.load(Ordering::SeqCst) != 0,
            None => false,
        }
    }

    /// True once the item has come.
    fn wait_for(&self, item: u64) -> bool {
        for _ in 0..self.turns {
            if self.has_come(item) {
                return true;
            }
            thread::yield_now();
        }
        false
    }
}

impl Gate for MeetGate<'_> {
    fn pass(&self, item: u64) {
        self.count(item);
        for (kept, other) in self.waits {
            if *kept == item && !self.wait_for(*other) {
                self.over.fetch_add(1, Ordering::SeqCst);
            }
        }
    }
}

// What the gate tells where nobody else is there to come.
fn tells_a_wait_in_vain(alloc: Global) -> bool {
    let Some(gate) = MeetGate::new(alloc, 100, &[(1, 2)]) else {
        return false;
    };
    gate.pass(0);
    let gave_up = gate.gave_up();
    gate.pass(1);
    !gave_up && gate.gave_up() && !gate.each_once()
}

#[test]
fn a_wait_in_vain_is_told(rt: HostRuntime) {
    assert!(rt; tells_a_wait_in_vain(rt.alloc()));
}
