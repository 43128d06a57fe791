//! The only steps that are made on a pipeline: a draw, a look, a finish, an advance, a pass, the split of a new
//! pass and the joining of an idle one. Each is one atomic operation on one word of the table.
//!
//! The rule of the pipeline says which states there are, and not which steps lead from one to the next: that
//! is said by the functions of this module. No other module reaches the table.
ghost use Rattle.std.specs.Prelude.{◌≡◌, ◌<◌, ◌≤◌, ◌+◌, ◌*◌, ◌%◌, ◌^◌, ℕ, [], ◌∷◌, None, Some, MatchResult, MatchBool, IfOk, IfErr, length, vec_len};
ghost use Rattle.std.specs.List.{All};
ghost use Rattle.std.specs.Vec.{vec_capacity};
ghost use Rattle.ordered_pipeline.specs.declared.view.Phase.TheVariants.{Idle, Drawn, Started, Baton};
ghost use Rattle.ordered_pipeline.specs.declared.view.Cargo.TheVariants.{Out};
ghost use Rattle.ordered_pipeline.specs.declared.view.Cargo.TheVariants as Cargo;
ghost use Rattle.atomic_table.specs.Table.{rest, opening};
ghost use Rattle.ordered_pipeline.specs.Fold.{fold};
ghost use Rattle.ordered_pipeline.specs.declared.view.View.{View};
ghost use Rattle.ordered_pipeline.specs.declared.view.Known.{Known};
ghost use Rattle.ordered_pipeline.specs.declared.rule.Key.{Key};
ghost use Rattle.ordered_pipeline.specs.Machine.{Draws, Looks, Finishes, Advances, PassesOn, phased, drawn_view, over_view, started_view, waiting_view, MayDeal, dealing, dealt, joined, spent_view};
ghost use Rattle.ordered_pipeline.specs.Plays.{drew, looked, finished, advanced, passed, Carries, HasBoth};
ghost use Rattle.ordered_pipeline.specs.Rule.{Kept, first_view};

use crate::job::Job;
use crate::rule::{Key, Order};
use crate::slots::{Taken, take_all};
use crate::view::{Cargo, Known, View};
use atomic_table::{Join, Play, Refused, Seat, Shared, Split, Table};
use std::alloc::Global;

/// A draw: the next number, which is the pass's own item where it is below the number of items.
struct Draw;

impl<J: Job> Play<Cargo<J::Copy, J::State>, View<Known<Key<J, J::State>>>> for Draw {
    ghost then = { drew };
}

/// A look at the copied count: the item starts where it is near enough.
struct Look;

impl<J: Job> Play<Cargo<J::Copy, J::State>, View<Known<Key<J, J::State>>>> for Look {
    ghost then = { looked J.has_room };
}

/// A finish: the item is ready, or its pass takes the baton.
struct Finish;

impl<J: Job> Play<Cargo<J::Copy, J::State>, View<Known<Key<J, J::State>>>> for Finish {
    ghost then = { finished J.step };
}

/// An advance of the copied count, after a copy.
struct Advance;

impl<J: Job> Play<Cargo<J::Copy, J::State>, View<Known<Key<J, J::State>>>> for Advance {
    ghost then = { advanced };
}

/// The baton passed on: to the next item's place, or on to that item with this pass.
struct PassOn;

impl<J: Job> Play<Cargo<J::Copy, J::State>, View<Known<Key<J, J::State>>>> for PassOn {
    ghost then = { passed J.has_room J.stands };
}

struct Deal;

impl<X> Split<View<X>> for Deal {
    ghost left = { dealing };

    ghost right = { dealt };
}

struct Gather;

impl<X> Join<View<Known<X>>> for Gather {
    ghost both = { joined };

    ghost spent = { spent_view };
}

/// The table of a pipeline: the next number, the copied count, the ring of words, and the places of the copy
/// objects and of the state.
pub struct Line<J: Job> {
    table: Table<
        Cargo<J::Copy, J::State>,
        View<Known<Key<J, J::State>>>,
        Key<J, J::State>,
        Order<J>,
        Global,
    >,
    pub(crate) items: u64,
    pub(crate) queue: u64,
    ghost sized: { (table.shared.table_id.words ≡ 8 * queue + 16) × (table.shared.table_id.slots ≡ queue + 1) × (0 < queue) × (queue ≤ 256) },
    ghost few: { (items ≡ table.shared.key.items) × (items ≤ 2 ^ 32) × (table.shared.key.queue ≡ queue) × (table.shared.key.seats ≤ 64) × (0 < table.shared.key.seats) },
}

/// What a caller steps with.
pub type Me<J> = Seat<
    Cargo<<J as Job>::Copy, <J as Job>::State>,
    View<Known<Key<J, <J as Job>::State>>>,
>;

type Steps<J> = Shared<
    Cargo<<J as Job>::Copy, <J as Job>::State>,
    View<Known<Key<J, <J as Job>::State>>>,
    Key<J, <J as Job>::State>,
    Order<J>,
>;

// Fills a slot that is empty.
fn put<J: Job>(table: &Steps<J>, seat: &mut Me<J>, slot: usize, value: Cargo<J::Copy, J::State>)
    requires { (seat.old.table_id ≡ table.now.table_id) × (seat.old.me.1 ≡ (slot, Out) ∷ rest seat.old.me.1) }
    ensures { (seat.new.table_id ≡ seat.old.table_id) × (seat.new.id ≡ seat.old.id) × (seat.new.me ≡ (seat.old.me.0, (slot, value) ∷ rest seat.old.me.1)) }
{
    match table.exchange(seat, slot, value) {
        Cargo::Out => {}
        Cargo::Copy(_copy) => unreachable!(),
        Cargo::State(_state) => unreachable!(),
    }
}

impl<J: Job> Line<J> {
    ghost use Rattle.ordered_pipeline.specs.Lines.{line_table, line_key};

    /// Draws: one fetch_add on the next number. The number that it finds is the pass's own item where it is
    /// below the number of items.
    pub(crate) fn draw(&self, seat: &mut Me<J>) -> u64
        requires { (seat.old.table_id ≡ self.now.table.shared.table_id) × (seat.old.me.0.phase ≡ Idle) × (seat.old.me.0.key.key ≡ Some self.now.table.shared.key) × (seat.old.me.1 ≡ []) × (seat.old.me.0.overs < seat.old.me.0.parts) }
        ensures same { seat.new.table_id ≡ seat.old.table_id }
        ensures event { Draws self.now.items result seat.old.me.0 seat.new.me.0 }
        ensures item { result < self.now.items → (seat.old.me.0.drawn ≤ result) × (seat.new.me ≡ (drawn_view seat.old.me.0 result, [])) }
        ensures over { self.now.items ≤ result → seat.new.me ≡ (over_view seat.old.me.0 result, []) }
    {
        self.table.shared.fetch_add::<Draw>(seat, 0, 1)
    }

    /// Looks: one load of the copied count. Where the item is near enough it starts, and its copy object comes
    /// out of its place; else the count comes back.
    pub(crate) fn try_start(&self, seat: &mut Me<J>, n: u64) -> Result<J::Copy, u64>
        requires { (seat.old.table_id ≡ self.now.table.shared.table_id) × (seat.old.me.0.phase ≡ Drawn n) × (seat.old.me.0.key.key ≡ Some self.now.table.shared.key) × (seat.old.me.1 ≡ []) }
        ensures same { seat.new.table_id ≡ seat.old.table_id }
        ensures event { (c : ℕ) × Looks self.now.queue n c seat.old.me.0 seat.new.me.0 }
        ensures found { MatchResult result (λ x. J.has_room self.now.table.shared.key.job.value x × ((c : ℕ) × (seat.old.me.0.seen ≤ c) × (n < c + self.now.queue) × (seat.new.me ≡ (started_view seat.old.me.0 n c, (n % self.now.queue, Out) ∷ [])))) (λ c. (seat.old.me.0.seen ≤ c) × (c + self.now.queue ≤ n) × (seat.new.me ≡ (waiting_view seat.old.me.0 n c, []))) }
    {
        let c = self.table.shared.load::<Look>(seat, 8);
        if n.saturating_sub(c) >= self.queue {
            return Err(c);
        }
        let place = (n % self.queue) as usize;
        match self.table.shared.exchange(seat, place, Cargo::Out) {
            Cargo::Copy(x) => Ok(x),
            Cargo::State(_state) => unreachable!(),
            Cargo::Out => unreachable!(),
        }
    }

    /// Finishes: puts the copy object into its place, and then one swap of READY into the item's word. True
    /// where the swap found the baton there: then the copy object and the state come out.
    pub(crate) fn finish(&self, seat: &mut Me<J>, n: u64, copy: J::Copy) -> bool
        requires seat { (seat.old.table_id ≡ self.now.table.shared.table_id) × (seat.old.me.0.phase ≡ Started n) × (seat.old.me.0.key.key ≡ Some self.now.table.shared.key) × (seat.old.me.1 ≡ (n % self.now.queue, Out) ∷ []) × (n < self.now.items) }
        requires copy { J.has_room self.now.table.shared.key.job.value copy × J.stands self.now.table.shared.key.job.value n copy }
        ensures same { seat.new.table_id ≡ seat.old.table_id }
        ensures event { (word : ℕ) × Finishes n word seat.old.me.0 seat.new.me.0 }
        ensures found { MatchBool result (Carries J.has_room J.stands J.step self.now.table.shared.key n seat.new.me × (seat.new.me.0 ≡ phased seat.old.me.0 (Baton n))) (seat.new.me ≡ (phased seat.old.me.0 Idle, [])) }
    {
        let place = (n % self.queue) as usize;
        match self.table.shared.exchange(seat, place, Cargo::Copy(copy)) {
            Cargo::Out => {}
            Cargo::Copy(_copy) => unreachable!(),
            Cargo::State(_state) => unreachable!(),
        }
        let found = self
            .table
            .shared
            .swap::<Finish>(seat, 8 * place + 16, 2 * n + 1);
        if found != 2 * n + 2 {
            return false;
        }
        seat.turn();
        true
    }

    // The place of an item.
    fn place(&self, n: u64) -> usize
        ensures { (result ≡ n % self.now.queue) × (result < self.now.queue) }
    {
        (n % self.queue) as usize
    }

    // Takes the copy object and the state out of the slots that the seat has.
    fn take_both(&self, seat: &mut Me<J>, place: usize) -> (J::Copy, J::State)
        requires { (seat.old.table_id ≡ self.now.table.shared.table_id) × HasBoth place self.now.queue seat.old.me.1 }
        ensures seat { (seat.new.table_id ≡ seat.old.table_id) × (seat.new.me ≡ (seat.old.me.0, (self.now.queue, Out) ∷ (place, Out) ∷ [])) }
        ensures values { seat.old.me.1 ≡ (place, Cargo.Copy result.0) ∷ (self.now.queue, Cargo.State result.1) ∷ [] }
    {
        let copy = self.table.shared.exchange(seat, place, Cargo::Out);
        seat.turn();
        let state = self
            .table
            .shared
            .exchange(seat, self.queue as usize, Cargo::Out);
        match copy {
            Cargo::Copy(copy) => match state {
                Cargo::State(state) => (copy, state),
                Cargo::Copy(_copy) => unreachable!(),
                Cargo::Out => unreachable!(),
            },
            Cargo::State(_state) => unreachable!(),
            Cargo::Out => unreachable!(),
        }
    }

    fn put_both(&self, seat: &mut Me<J>, place: usize, copy: J::Copy, state: J::State)
        requires { (seat.old.table_id ≡ self.now.table.shared.table_id) × (seat.old.me.1 ≡ (self.now.queue, Out) ∷ (place, Out) ∷ []) }
        ensures { (seat.new.table_id ≡ seat.old.table_id) × (seat.new.me ≡ (seat.old.me.0, (place, Cargo.Copy copy) ∷ (self.now.queue, Cargo.State state) ∷ [])) }
    {
        put(
            &self.table.shared,
            seat,
            self.queue as usize,
            Cargo::State(state),
        );
        seat.turn();
        put(&self.table.shared, seat, place, Cargo::Copy(copy));
    }

    /// Copies the baton's item into the state. Then it advances, by one store of the copied count, and passes
    /// on, by one swap of TURN into the next item's word. True where the swap found that item ready.
    pub(crate) fn copy_next(&self, seat: &mut Me<J>, job: &J, n: u64) -> bool
        requires seat { (seat.old.table_id ≡ self.now.table.shared.table_id) × Carries J.has_room J.stands J.step self.now.table.shared.key n seat.old.me }
        requires job { (job.now ≡ self.now.table.shared.key.job.value) × (n < J.count job.now) × (n < 2 ^ 32) }
        requires fits { J.fits job.now (fold J.step job.now self.now.table.shared.key.state.value n) }
        ensures same { seat.new.table_id ≡ seat.old.table_id }
        ensures events { (w : View (Known (Key J J.State))) × (word : ℕ) × Advances n seat.old.me.0 w × PassesOn n word w seat.new.me.0 }
        ensures found { MatchBool result (Carries J.has_room J.stands J.step self.now.table.shared.key (n + 1) seat.new.me × (n + 1 < self.now.table.shared.key.items) × (seat.new.me.0 ≡ phased seat.old.me.0 (Baton (n + 1)))) (seat.new.me ≡ (phased seat.old.me.0 Idle, [])) }
    {
        let place = self.place(n);
        let (copy, mut state) = self.take_both(seat, place);
        job.copy(n, &copy, &mut state);
        self.put_both(seat, place, copy, state);
        self.table.shared.store::<Advance>(seat, 8, n + 1);
        let next = self.place(n + 1);
        let found = self
            .table
            .shared
            .swap::<PassOn>(seat, 8 * next + 16, 2 * (n + 1) + 2);
        if found != 2 * (n + 1) + 1 {
            return false;
        }
        true
    }

    /// Splits a new pass off: one load.
    pub(crate) fn split(&self, seat: &mut Me<J>) -> Me<J>
        requires { (seat.old.table_id ≡ line_table self.now) × MayDeal seat.old.me.0 }
        ensures left { (seat.new.table_id ≡ seat.old.table_id) × (seat.new.me ≡ (dealing seat.old.me.0, seat.old.me.1)) }
        ensures right { (result.table_id ≡ seat.old.table_id) × (result.me ≡ (dealt seat.old.me.0, [])) }
    {
        self.table.shared.split_seat::<Deal>(seat)
    }

    /// Takes an idle pass into another: one load.
    pub(crate) fn join(&self, seat: &mut Me<J>, other: Me<J>)
        requires seat { (seat.old.table_id ≡ line_table self.now) × (seat.old.me.0.phase ≡ Idle) }
        requires other { (other.table_id ≡ line_table self.now) × (other.me.0.phase ≡ Idle) × (other.me.1 ≡ []) }
        ensures { (seat.new.table_id ≡ seat.old.table_id) × (seat.new.me ≡ (joined seat.old.me.0 other.me.0, seat.old.me.1)) }
    {
        self.table.shared.join_seat::<Gather>(seat, other);
    }

    /// The table at the start, with the seat that the passes are split from.
    pub(crate) fn new(
        alloc: Global,
        words: &[u64],
        slots: Vec<Cargo<J::Copy, J::State>>,
        key: Key<J, J::State>,
    ) -> Result<(Line<J>, Me<J>), Vec<Cargo<J::Copy, J::State>>>
        requires rule { Kept J.has_room J.stands J.step key (opening words.now slots.items (first_view key)) }
        requires sized { (length words.now ≡ 8 * key.queue + 16) × (length slots.items ≡ key.queue + 1) × (0 < key.queue) × (key.queue ≤ 256) }
        requires few { (key.items ≤ 2 ^ 32) × (key.seats ≤ 64) × (0 < key.seats) }
        ensures ok { IfOk result (λ r. (line_key r.0 ≡ key) × (r.1.table_id ≡ line_table r.0) × (r.1.me ≡ (first_view key, []))) }
        ensures err { IfErr result (λ back. back.items ≡ slots.items) }
    {
        match Table::new(alloc, words, slots, &key) {
            Ok((table, seat)) => {
                let line = Line {
                    table,
                    items: key.items,
                    queue: key.queue,
                };
                Ok((line, seat))
            }
            Err(Refused { slots }) => Err(slots),
        }
    }

    /// Ends the sharing, where one seat has all parts and is idle: the copy objects, the state and the copied
    /// count come out.
    pub(crate) fn end(self, seat: Me<J>, home: Vec<J::Copy>) -> Taken<J::Copy, J::State>
        requires seat { (seat.table_id ≡ self.table.shared.table_id) × (seat.me.0.parts ≡ self.table.shared.key.seats) × (seat.me.0.phase ≡ Idle) }
        requires room { (vec_len home ≡ 0) × (self.queue ≤ vec_capacity home) }
        ensures copied { result.copied ≡ seat.me.0.drawn }
        ensures over { 0 < seat.me.0.overs → result.copied ≡ self.table.shared.key.items }
        ensures state { result.state ≡ fold J.step self.table.shared.key.job.value self.table.shared.key.state.value result.copied }
        ensures copies { (vec_len result.copies ≡ self.table.shared.key.queue) × All (J.has_room self.table.shared.key.job.value) result.copies.items }
    {
        let Line {
            table,
            items: _,
            queue,
        } = self;
        take_all(table.close_with(seat), queue as usize, home)
    }
}
