//! All copy objects and the state at once, moved into the slots of a table and out of them again. Nothing but the
//! list of words takes memory.
ghost use Rattle.std.specs.Prelude.{◌≡◌, ◌<◌, ◌≤◌, ◌+◌, ◌*◌, ℕ, List, [], ◌∷◌, ◌++◌, map, reverse, vec_len, slice_index_or, slice_set, replicate, IfOk, IsTrue, take, false};
ghost use Rattle.std.specs.Slots.{slots_items, slots_len, slots_filled, IsFull};
ghost use Rattle.std.specs.Vec.{vec_capacity};
ghost use mathlib.Core.Option.{some};
ghost use lib.ListN.{get_elem?};
ghost use Rattle.ordered_pipeline.specs.declared.view.Cargo.{Cargo};
ghost use Rattle.ordered_pipeline.specs.declared.view.Cargo.TheVariants as cargo;
ghost use Rattle.ordered_pipeline.specs.Slots.{IsPacked};

use crate::view::Cargo;
use atomic_table::Closed;
use std::alloc::{AllocError, Global};

// The words at first. Word 0 is the next number, word 8 the copied count, and the ring's words stand at 16, 24, ..:
// one to a cache line of 64 bytes, as threads write them. The baton rests at the ring's first place.
pub fn first_words(alloc: Global, queue: usize) -> Result<Vec<u64>, AllocError>
    requires { (0 < queue) × (queue ≤ 256) }
    ensures { IfOk result (λ w. w.items ≡ slice_set (replicate (8 * queue + 16) 0) 16 2) }
{
    let mut words = vec![in alloc; 0u64; 8 * queue + 16]?;
    words[16] = 2;
    Ok(words)
}

// Moves all copy objects out of `from`, last first.
pub fn wrap_all<C, S>(from: &mut Vec<C>, to: &mut Vec<Cargo<C, S>>)
    requires { (to.old.items ≡ []) × (vec_len from.old ≤ vec_capacity to.old) }
    ensures values { reverse to.new.items ≡ map cargo.Copy from.old.items }
    ensures room { (from.new.items ≡ []) × (vec_capacity from.new ≡ vec_capacity from.old) × (vec_capacity to.new ≡ vec_capacity to.old) × (vec_len to.new ≡ vec_len from.old) }
{
    while let Some(value) = from.pop() {
        to.push_reserved(Cargo::Copy(value));
    }
}

// Moves all copy objects back.
fn unwrap_all<C, S>(mut from: Vec<Cargo<C, S>>, mut to: Vec<C>) -> Vec<C>
    requires room { (to.items ≡ []) × (vec_len from ≤ vec_capacity to) }
    requires full { (xs : List C) × (reverse from.items ≡ map cargo.Copy xs) }
    ensures { map cargo.Copy result.items ≡ reverse from.items }
{
    while let Some(value) = from.pop() {
        match value {
            Cargo::Copy(copy) => to.push_reserved(copy),
            Cargo::State(_state) => unreachable!(),
            Cargo::Out => unreachable!(),
        }
    }
    from.destroy_empty();
    to
}

// Gives the copy objects and the state back.
pub fn unpack<C, S>(mut slots: Vec<Cargo<C, S>>, home: Vec<C>) -> (Vec<C>, S)
    requires packed { (xs : List C) × (y : S) × IsPacked xs y slots.items }
    requires room { (home.items ≡ []) × (vec_len slots ≤ vec_capacity home + 1) }
    ensures { (xs : List C) (y : S) → IsPacked xs y slots.items → (result.0.items ≡ xs) × (result.1 ≡ y) }
{
    let Some(last) = slots.pop() else {
        unreachable!()
    };
    match last {
        Cargo::State(state) => (unwrap_all(slots, home), state),
        Cargo::Copy(_copy) => unreachable!(),
        Cargo::Out => unreachable!(),
    }
}

/// What a closed table had.
pub struct Taken<C, S> {
    pub copies: Vec<C>,
    pub state: S,
    pub copied: u64,
}

// The copy object of a closed table's slot.
fn take_copy<C, S>(closed: &mut Closed<Cargo<C, S>, Global>, k: usize) -> C
    requires place { (k < slots_len closed.old.slots) × IsTrue (slice_index_or (slots_filled closed.old.slots) k false) }
    requires there { (x : C) × (get_elem? (slots_items closed.old.slots) k ≡ some (cargo.Copy x)) }
    ensures value { get_elem? (slots_items closed.old.slots) k ≡ some (cargo.Copy result) }
    ensures others { (slots_items closed.new.slots ≡ slots_items closed.old.slots) × (slots_filled closed.new.slots ≡ slice_set (slots_filled closed.old.slots) k false) × (slots_len closed.new.slots ≡ slots_len closed.old.slots) × (closed.new.words ≡ closed.old.words) }
{
    match closed.take(k) {
        Cargo::Copy(x) => x,
        Cargo::State(_state) => unreachable!(),
        Cargo::Out => unreachable!(),
    }
}

// The state of a closed table.
fn take_state<C, S>(closed: &mut Closed<Cargo<C, S>, Global>, k: usize) -> S
    requires place { (k < slots_len closed.old.slots) × IsTrue (slice_index_or (slots_filled closed.old.slots) k false) }
    requires there { (y : S) × (get_elem? (slots_items closed.old.slots) k ≡ some (cargo.State y)) }
    ensures value { get_elem? (slots_items closed.old.slots) k ≡ some (cargo.State result) }
    ensures others { (slots_items closed.new.slots ≡ slots_items closed.old.slots) × (slots_filled closed.new.slots ≡ slice_set (slots_filled closed.old.slots) k false) × (slots_len closed.new.slots ≡ slots_len closed.old.slots) × (closed.new.words ≡ closed.old.words) }
{
    match closed.take(k) {
        Cargo::State(y) => y,
        Cargo::Copy(_copy) => unreachable!(),
        Cargo::Out => unreachable!(),
    }
}

// The copy objects, the state and the copied count of a closed table.
pub fn take_all<C, S>(
    mut closed: Closed<Cargo<C, S>, Global>,
    queue: usize,
    mut home: Vec<C>,
) -> Taken<C, S>
    requires slots { (slots_len closed.slots ≡ queue + 1) × IsFull closed.slots }
    requires copies { (k : ℕ) → k < queue → (x : C) × (get_elem? (slots_items closed.slots) k ≡ some (cargo.Copy x)) }
    requires state { (y : S) × (get_elem? (slots_items closed.slots) queue ≡ some (cargo.State y)) }
    requires words { (8 < slots_len closed.words) × IsFull closed.words }
    requires room { (vec_len home ≡ 0) × (queue ≤ vec_capacity home) }
    ensures copies { (vec_len result.copies ≡ queue) × ((k : ℕ) (d : C) → k < queue → get_elem? (slots_items closed.slots) k ≡ some (cargo.Copy (slice_index_or result.copies.items k d))) }
    ensures state { get_elem? (slots_items closed.slots) queue ≡ some (cargo.State result.state) }
    ensures copied { get_elem? (slots_items closed.words) 8 ≡ some result.copied }
{
    for k in 0..queue {
        home.push_reserved(take_copy(&mut closed, k));
    }
    let state = take_state(&mut closed, queue);
    let copied = closed.word(8);
    closed.free();
    Taken {
        copies: home,
        state,
        copied,
    }
}
