//! The only steps that are made on a pool: a try, a return, the split of a new pass, and the joining of an
//! idle one. Each is one atomic operation on the pool's one word.
//!
//! The rule of the pool says which states there are, and not which steps lead from one to the next: that is
//! said by the functions of this module. No other module reaches the table.
ghost use Rattle.std.specs.Prelude.{◌≡◌, ◌<◌, ◌≤◌, ◌-◌, ◌^◌, ℕ, Some, None, MatchOption, length, IfOk, IfErr, List, [], ◌∷◌, map, reverse};
ghost use Rattle.std.specs.Slots.{slots_items, slots_len, IsFull};
ghost use Rattle.scratch_pool.specs.Homes.{AreHome};
ghost use Rattle.scratch_pool.specs.Machine.{dealer, dealing, dealt, joined, spent, Takes, Misses, Returns};
ghost use Rattle.scratch_pool.specs.Plays.{tried, given};
ghost use Rattle.scratch_pool.specs.Passes.{IsIdle};

use crate::rule::Bits;
use crate::view::View;
use atomic_table::{Closed, Join, Play, Refused, Seat, Split, Table};
use std::alloc::Global;
use std::marker::Model;

/// A try: it takes the object where it is at home, else it has looked once more.
struct Try;

impl<T> Play<Option<T>, View> for Try {
    ghost then = { tried };
}

/// A return: the object is in its place, and the pass holds none.
struct Return;

impl<T> Play<Option<T>, View> for Return {
    ghost then = { given };
}

struct Deal;

impl Split<View> for Deal {
    ghost left = { dealing };

    ghost right = { dealt };
}

struct Gather;

impl Join<View> for Gather {
    ghost both = { joined };

    ghost spent = { spent };
}

/// The word of bits, and a place for each object. Contracts see it as they see a pool.
#[derive(Drop)]
pub struct Places<T> {
    table: Table<Option<T>, View, u64, Bits, Global>,
    objects: usize,
    seats: u32,
}

impl<T> Model for Places<T> {
    ghost use Rattle.std.specs.Prelude.{◌≡◌, ◌<◌, ◌≤◌};
    ghost use Rattle.scratch_pool.specs.Pools.{PoolView, pool_coded, seen_pool, IsLaidOut};

    ghost Value = { PoolView };

    ghost coded = { pool_coded };

    ghost view = { λ p. seen_pool p.table.shared.table_id p.objects p.seats };

    ghost invariant = { λ p. IsLaidOut p.table.shared.table_id p.table.shared.key p.objects p.seats };
}

// The word in which the bits of so many objects are set.
fn all_home(objects: usize) -> u64
    requires { (0 < objects) × (objects ≤ 64) }
    ensures { result ≡ 2 ^ objects - 1 }
{
    u64::MAX >> (64 - objects)
}

/// What a caller steps with.
pub type Holder<T> = Seat<Option<T>, View>;

impl<T> Places<T> {
    /// Puts each object into its place; they come last first. The seat is the one that the passes are split
    /// from.
    pub fn new(
        alloc: Global,
        objects: Vec<Option<T>>,
        seats: u32,
    ) -> Result<(Places<T>, Holder<T>), Vec<Option<T>>>
        requires objects { (values : List T) × (reverse objects.items ≡ map Some values) }
        requires count { (0 < length objects.items) × (length objects.items ≤ 64) × (0 < seats) }
        ensures ok { IfOk result (λ r. (r.0.objects ≡ length objects.items) × (r.0.seats ≡ seats) × (r.1.table_id ≡ r.0.table) × (r.1.me ≡ (dealer seats, []))) }
        ensures err { IfErr result (λ e. e.items ≡ objects.items) }
    {
        let count = objects.len();
        let bits = all_home(count);
        match Table::new(alloc, &[bits], objects, &(seats as u64)) {
            Ok((table, seat)) => {
                let places = Places {
                    table,
                    objects: count,
                    seats,
                };
                Ok((places, seat))
            }
            Err(Refused { slots }) => Err(slots),
        }
    }

    /// The number of objects.
    pub fn objects(&self) -> usize
        ensures { (result ≡ self.now.objects) × (0 < result) × (result ≤ 64) }
    {
        self.objects
    }

    /// Tries an object: one fetch_and, which clears its bit. Where the bit was set, the object comes out of
    /// its place.
    pub fn try_object(&self, seat: &mut Holder<T>, object: usize) -> Option<T>
        requires { (seat.old.table_id ≡ self.now.table) × IsIdle seat.old.me × (object < self.now.objects) × (object < 64) }
        ensures event { (bits : ℕ) × (bits' : ℕ) × MatchOption result (Misses object bits seat.old.me.0 bits' seat.new.me.0) (λ _. Takes object bits seat.old.me.0 bits' seat.new.me.0) }
        ensures place { (seat.new.table_id ≡ seat.old.table_id) × MatchOption result (seat.new.me.1 ≡ []) (λ _. seat.new.me.1 ≡ (object, None) ∷ []) }
    {
        let bit = 1u64 << object;
        let found = self.table.shared.fetch_and::<Try>(seat, 0, !bit);
        if found & bit == 0 {
            return None;
        }
        self.table.shared.exchange(seat, object, None)
    }

    /// Puts the object back into its place and returns it: one fetch_or, which sets its bit.
    pub fn give_back(&self, seat: &mut Holder<T>, object: usize, value: T)
        requires pass { (seat.old.table_id ≡ self.now.table) × (object < 64) }
        requires holds { (seat.old.me.0.holds ≡ Some object) × (seat.old.me.1 ≡ (object, None) ∷ []) }
        ensures event { (bits : ℕ) × (bits' : ℕ) × Returns object bits seat.old.me.0 bits' seat.new.me.0 }
        ensures place { (seat.new.table_id ≡ seat.old.table_id) × (seat.new.me.1 ≡ []) }
    {
        match self.table.shared.exchange(seat, object, Some(value)) {
            None => {}
            Some(_) => unreachable!(),
        }
        self.table
            .shared
            .fetch_or::<Return>(seat, 0, 1u64 << object);
    }

    /// Splits a new pass off: one load.
    pub fn split(&self, seat: &mut Holder<T>) -> Holder<T>
        requires { (seat.old.table_id ≡ self.now.table) × (seat.old.me.0.holds ≡ None) × (0 < seat.old.me.0.parts) }
        ensures left { (seat.new.table_id ≡ seat.old.table_id) × (seat.new.me ≡ (dealing seat.old.me.0, seat.old.me.1)) }
        ensures right { (result.table_id ≡ seat.old.table_id) × (result.me ≡ (dealt seat.old.me.0, [])) }
    {
        self.table.shared.split_seat::<Deal>(seat)
    }

    /// Takes an idle pass into another: one load.
    pub fn join(&self, seat: &mut Holder<T>, other: Holder<T>)
        requires seat { (seat.old.table_id ≡ self.now.table) × (seat.old.me.0.holds ≡ None) }
        requires other { (other.table_id ≡ self.now.table) × IsIdle other.me }
        ensures { (seat.new.table_id ≡ seat.old.table_id) × (seat.new.me ≡ (joined seat.old.me.0 other.me.0, seat.old.me.1)) }
    {
        self.table.shared.join_seat::<Gather>(seat, other);
    }

    /// Ends the sharing, where one seat has all parts: each object is in its place.
    pub fn close(self, seat: Holder<T>) -> Closed<Option<T>, Global>
        requires { (seat.table_id ≡ self.table) × (seat.me.0.parts ≡ self.seats) × (seat.me.0.holds ≡ None) }
        ensures { (slots_len result.slots ≡ self.objects) × IsFull result.slots × AreHome self.objects (slots_items result.slots) }
    {
        let Places {
            table,
            objects: _,
            seats: _,
        } = self;
        table.close_with(seat)
    }
}
