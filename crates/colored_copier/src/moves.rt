//! Values that move out of a closed table, with no new memory.
ghost use Rattle.std.specs.Prelude.{◌≡◌, ◌≤◌, vec_len};
ghost use Rattle.std.specs.Slots.{slots_items, slots_len, IsFull};
ghost use Rattle.std.specs.Vec.{vec_capacity};

use atomic_table::Closed;
use std::alloc::Global;

/// The values of a closed table, in the order of its slots.
pub(crate) fn take_all<X>(mut closed: Closed<X, Global>, mut home: Vec<X>) -> Vec<X>
    requires closed { IsFull closed.slots }
    requires room { (vec_len home ≡ 0) × (slots_len closed.slots ≤ vec_capacity home) }
    ensures { result.items ≡ slots_items closed.slots }
{
    let count = closed.slot_count();
    for k in 0..count {
        home.push_reserved(closed.take(k));
    }
    closed.free();
    home
}
