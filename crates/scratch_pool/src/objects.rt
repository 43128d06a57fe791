//! All objects of a pool at once, moved between the vector that the caller gave and the places of the table.
//! Nothing here takes memory.
ghost use Rattle.std.specs.Prelude.{◌≡◌, ◌≤◌, Some, vec_len, map, reverse, List, []};
ghost use Rattle.std.specs.Slots.{slots_items, slots_len, IsFull};
ghost use Rattle.std.specs.Vec.{vec_capacity};
ghost use Rattle.scratch_pool.specs.Homes.{AreHome};

use atomic_table::Closed;
use std::alloc::Global;

/// Moves all objects out of a vector, last first.
pub fn wrap_all<T>(from: &mut Vec<T>, to: &mut Vec<Option<T>>)
    requires { (to.old.items ≡ []) × (vec_len from.old ≤ vec_capacity to.old) }
    ensures objects { reverse to.new.items ≡ map Some from.old.items }
    ensures room { (from.new.items ≡ []) × (vec_capacity from.new ≡ vec_capacity from.old) }
{
    while let Some(object) = from.pop() {
        to.push_reserved(Some(object));
    }
}

/// Moves them back.
pub fn unwrap_all<T>(mut from: Vec<Option<T>>, mut to: Vec<T>) -> Vec<T>
    requires room { (to.items ≡ []) × (vec_len from ≤ vec_capacity to) }
    requires full { (objects : List T) × (reverse from.items ≡ map Some objects) }
    ensures { map Some result.items ≡ reverse from.items }
{
    while let Some(object) = from.pop() {
        let Some(object) = object else { unreachable!() };
        to.push_reserved(object);
    }
    from.destroy_empty();
    to
}

/// Takes all objects out of their places.
pub fn take_all<T>(mut closed: Closed<Option<T>, Global>, objects: usize, mut to: Vec<T>) -> Vec<T>
    requires closed { (slots_len closed.slots ≡ objects) × IsFull closed.slots × AreHome objects (slots_items closed.slots) }
    requires room { (vec_len to ≡ 0) × (objects ≤ vec_capacity to) }
    ensures { vec_len result ≡ objects }
{
    for k in 0..objects {
        let Some(object) = closed.take(k) else {
            unreachable!()
        };
        to.push_reserved(object);
    }
    closed.free();
    to
}
