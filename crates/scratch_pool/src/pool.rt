//! The pool: its passes borrow objects and return them, from any threads, with no lock and no wait.
ghost use Rattle.std.specs.Prelude.{◌≡◌, ◌<◌, ◌≤◌, Some, None, MatchBool, IsSome, IsSomeAnd, vec_len, IfOk, IfErr, []};
ghost use Rattle.std.specs.Vec.{vec_capacity};
ghost use Rattle.scratch_pool.specs.Pools.{AreIdle, RoseBelow, IsSame, IsIdleAt, fresh_passes};
ghost use Rattle.scratch_pool.specs.Machine.{dealer};

use crate::objects::{take_all, unwrap_all, wrap_all};
use crate::parked::Parked;
use crate::pass::PoolPass;
use crate::steps::{Holder, Places};
use fem_fixed::NoMemory;
use std::alloc::Global;
use std::marker::Model;

/// A pool of 1 to 64 objects for 1 to 64 callers. Contracts see which pool it is, the number of its objects
/// and the number of its passes.
#[derive(Drop)]
pub struct Pool<T> {
    places: Places<T>,
    room: Parked<Vec<T>>,
}

impl<T> Model for Pool<T> {
    ghost use Rattle.std.specs.Prelude.{◌≡◌, ◌≤◌, vec_len};
    ghost use Rattle.std.specs.Vec.{vec_capacity};
    ghost use Rattle.scratch_pool.specs.Pools.{PoolView, pool_coded};

    ghost Value = { PoolView };

    ghost coded = { pool_coded };

    ghost view = { λ p. p.places };

    ghost invariant = { λ p. (vec_len p.room ≡ 0) × (p.places.objects ≤ vec_capacity p.room) };
}

/// What a pool is made of: its places, the room for its objects at the end, and the seat that its passes are
/// split from.
struct Made<T> {
    places: Places<T>,
    room: Parked<Vec<T>>,
    seat: Holder<T>,
}

impl<T> Pool<T> {
    /// Takes 1 to 64 objects, and gives as many passes as there are seats, in the order of their numbers.
    /// Where there is no memory it hands all objects back.
    pub fn new(
        alloc: Global,
        objects: Vec<T>,
        seats: u32,
    ) -> Result<(Pool<T>, Vec<PoolPass<T>>), (Vec<T>, NoMemory)>
        requires objects { (0 < vec_len objects) × (vec_len objects ≤ 64) }
        requires seats { (0 < seats) × (seats ≤ 64) }
        ensures ok { IfOk result (λ r. (r.0.objects ≡ vec_len objects) × (r.0.seats ≡ seats) × (r.1.items ≡ fresh_passes r.0.table seats)) }
        ensures passes { IfOk result (λ r. (vec_len r.1 ≡ seats) × AreIdle r.0.table r.1.items) }
        ensures err { IfErr result (λ e. e.0.items ≡ objects.items) }
    {
        let Ok(mut passes) = Vec::with_capacity(alloc, seats as usize) else {
            return Err((objects, NoMemory));
        };
        match lay_out(alloc, objects, seats) {
            Ok(Made { places, room, seat }) => {
                deal(&places, seats, seat, &mut passes);
                Ok((Pool { places, room }, passes))
            }
            Err(objects) => {
                passes.destroy_empty();
                Err((objects, NoMemory))
            }
        }
    }

    /// Tries the objects in rising order, one step each, until one is at home. On true the pass holds it, and
    /// it found each object below it out. On false it found each object out; its looks at each rose by one.
    pub fn acquire(&self, pass: &mut PoolPass<T>) -> bool
        requires { IsIdleAt self.now.table pass.old }
        ensures same { IsSame pass.old pass.new }
        ensures found { MatchBool result (IsSomeAnd pass.new.holds (λ k. (k < self.now.objects) × RoseBelow k pass.old.looks pass.new.looks)) ((pass.new.holds ≡ None) × RoseBelow self.now.objects pass.old.looks pass.new.looks) }
    {
        for object in 0..self.places.objects() {
            if pass.try_object(&self.places, object) {
                return true;
            }
        }
        false
    }

    /// Returns the object that the pass holds: it is at home again, with what it holds.
    pub fn release(&self, pass: &mut PoolPass<T>)
        requires { (pass.old.table ≡ self.now.table) × IsSome pass.old.holds }
        ensures { IsSame pass.old pass.new × (pass.new.holds ≡ None) × (pass.new.looks ≡ pass.old.looks) }
    {
        pass.give_back(&self.places);
    }

    /// Gives the objects back, in the vector that `new` took. It takes all passes, none of which may hold an
    /// object.
    pub fn close(self, mut passes: Vec<PoolPass<T>>) -> Vec<T>
        requires idle { AreIdle self.table passes.items }
        requires all { vec_len passes ≡ self.seats }
        ensures { vec_len result ≡ self.objects }
    {
        let Pool { places, room } = self;
        let Some(first) = passes.pop() else {
            unreachable!()
        };
        let mut seat = first.into_seat();
        while let Some(pass) = passes.pop() {
            places.join(&mut seat, pass.into_seat());
        }
        passes.destroy_empty();
        let objects = places.objects();
        take_all(places.close(seat), objects, room.take())
    }
}

// Moves the objects to their places, and keeps the vector that they came in.
fn lay_out<T>(alloc: Global, mut objects: Vec<T>, seats: u32) -> Result<Made<T>, Vec<T>>
    requires objects { (0 < vec_len objects) × (vec_len objects ≤ 64) }
    requires seats { 0 < seats }
    ensures places { IfOk result (λ made. (made.places.objects ≡ vec_len objects) × (made.places.seats ≡ seats)) }
    ensures seat { IfOk result (λ made. (made.seat.table_id ≡ made.places.table) × (made.seat.me ≡ (dealer seats, []))) }
    ensures room { IfOk result (λ made. (vec_len made.room ≡ 0) × (made.places.objects ≤ vec_capacity made.room)) }
    ensures err { IfErr result (λ e. e.items ≡ objects.items) }
{
    let Ok(mut slots) = Vec::with_capacity(alloc, objects.len()) else {
        return Err(objects);
    };
    wrap_all(&mut objects, &mut slots);
    let room = match Parked::new(alloc, objects) {
        Ok(room) => room,
        Err(objects) => return Err(unwrap_all(slots, objects)),
    };
    match Places::new(alloc, slots, seats) {
        Ok((places, seat)) => Ok(Made { places, room, seat }),
        Err(slots) => Err(unwrap_all(slots, room.take())),
    }
}

// Splits the passes off, in the order of their numbers.
fn deal<T>(places: &Places<T>, seats: u32, mut seat: Holder<T>, passes: &mut Vec<PoolPass<T>>)
    requires seat { (seat.table_id ≡ places.now.table) × (seat.me ≡ (dealer seats, [])) }
    requires room { (passes.old.items ≡ []) × (seats ≤ vec_capacity passes.old) }
    ensures passes { passes.new.items ≡ fresh_passes places.now.table seats }
    ensures idle { (vec_len passes.new ≡ seats) × AreIdle places.now.table passes.new.items }
{
    for number in 0..seats {
        let next = places.split(&mut seat);
        passes.push_reserved(PoolPass::of(next));
    }
}
