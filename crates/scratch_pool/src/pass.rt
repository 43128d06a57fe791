//! A pass: what one caller borrows objects with. Any thread may use it, one at a time.
ghost use Rattle.std.specs.Prelude.{◌≡◌, ◌<◌, ◌≤◌, Some, None, MatchBool, IsSome, slice_index};
ghost use Rattle.std.specs.Borrow.{Lends, sem};

use crate::steps::{Holder, Places};
use std::marker::Model;

/// What one caller holds of a pool, and what it knows: its number, and how often it found each object out.
#[derive(Drop)]
pub struct PoolPass<T> {
    seat: Holder<T>,
    held: Option<T>,
    object: u32,
    looks: [u64; 64],
}

impl<T> Model for PoolPass<T> {
    ghost use Rattle.scratch_pool.specs.Passes.{PassView, pass_coded, seen, Ties};

    ghost Value = { PassView };

    ghost coded = { pass_coded };

    ghost view = { λ p. seen p.seat.table_id p.seat.me.0 };

    ghost invariant = { λ p. Ties p.held p.object p.looks p.seat.me };
}

impl<T> PoolPass<T> {
    ghost use Rattle.scratch_pool.specs.Passes.{keeps_pass, IsDealt, IsIdle};
    ghost use Rattle.scratch_pool.specs.Pools.{IsSame, RoseAt};
    ghost use Rattle.scratch_pool.specs.Machine.{no_looks};
    ghost use Rattle.scratch_pool.specs.contracts.pass.PoolPass.{the_row};

    /// The pass of a new seat.
    pub(crate) fn of(seat: Holder<T>) -> PoolPass<T>
        requires { IsDealt seat.me }
        ensures { (result.table ≡ seat.table_id) × (result.number ≡ seat.me.0.number) × (result.holds ≡ None) × (result.looks ≡ no_looks) }
    {
        PoolPass {
            seat,
            held: None,
            object: 0,
            looks: [0; 64],
        }
    }

    /// Its seat again.
    pub(crate) fn into_seat(self) -> Holder<T>
        requires { self.holds ≡ None }
        ensures { (result.table_id ≡ self.table) × IsIdle result.me }
    {
        let PoolPass {
            seat,
            held,
            object: _,
            looks: _,
        } = self;
        match held {
            None => {}
            Some(_) => unreachable!(),
        }
        seat
    }

    /// Tries one object. True where it was at home, and is now with this pass.
    pub(crate) fn try_object(&mut self, places: &Places<T>, object: usize) -> bool
        requires { (self.old.table ≡ places.now.table) × (self.old.holds ≡ None) × (object < places.now.objects) × (places.now.objects ≤ 64) }
        ensures same { IsSame self.old self.new }
        ensures found { MatchBool result ((self.new.holds ≡ Some object) × (self.new.looks ≡ self.old.looks)) ((self.new.holds ≡ None) × RoseAt object self.old.looks self.new.looks) }
    {
        let Some(value) = places.try_object(&mut self.seat, object) else {
            self.looks[object] = self.looks[object].saturating_add(1);
            return false;
        };
        put(&mut self.held, value);
        self.object = object as u32;
        true
    }

    /// Returns the object that it holds.
    pub(crate) fn give_back(&mut self, places: &Places<T>)
        requires { (self.old.table ≡ places.now.table) × IsSome self.old.holds }
        ensures { IsSame self.old self.new × (self.new.holds ≡ None) × (self.new.looks ≡ self.old.looks) }
    {
        let Some(value) = self.held.take() else {
            unreachable!()
        };
        places.give_back(&mut self.seat, self.object as usize, value);
    }

    /// The object that it holds.
    pub fn scratch(&mut self) -> &mut T
        requires { IsSome self.old.holds }
        ensures* { sem 𝓛 (Lends (the_row T.row) T.row self.entry result (keeps_pass self.old)) }
    {
        match &mut self.held {
            Some(value) => value,
            None => unreachable!(),
        }
    }

    /// The number of the object that it holds, from 0; None exactly where it holds none.
    pub fn holds(&self) -> Option<u32>
        ensures { result ≡ self.now.holds }
    {
        match &self.held {
            None => None,
            Some(_) => Some(self.object),
        }
    }

    /// How often this pass tried an object and found it out. The count stays at 2^64 - 1.
    pub fn looks(&self, object: u32) -> u64
        requires { object < 64 }
        ensures { result ≡ slice_index self.now.looks object }
    {
        self.looks[object as usize]
    }
}

// Puts a value into an empty place.
fn put<T>(place: &mut Option<T>, value: T)
    requires { place.old ≡ None }
    ensures { place.new ≡ Some value }
{
    match std::mem::replace(place, Some(value)) {
        None => {}
        Some(_) => unreachable!(),
    }
}
