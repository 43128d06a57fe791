//! The only steps that are made on a round: a claim, the split of a new pass and the joining of a pass that has no item.
//! Each is one atomic operation on the table's one word.
//!
//! The rule of a round says which states there are, and not which steps lead from one to the next: that is said by the
//! functions of this module. No other module reaches the table.
ghost use Rattle.std.specs.Prelude.{◌≡◌, ◌<◌, ◌≤◌, ◌+◌, ◌^◌, ◌∷◌, ◌++◌, [], ℕ, Some, IfOk, IfErr, length, map, vec_len};
ghost use Rattle.std.specs.Vec.{vec_capacity};
ghost use mathlib.Core.Option.{some};
ghost use lib.ListN.{get_elem?};
ghost use Rattle.atomic_table.specs.Table.{rest, opening};
ghost use Rattle.colored_copier.specs.Conditions.{Suits, Worked};
ghost use Rattle.colored_copier.specs.Keyed.{JobRule, claimed, dealing, dealt, first_view, joined, spent_view, plan_of, finish_of};
ghost use Rattle.colored_copier.specs.Machine.{ClaimEvent, SplitEvent, JoinEvent};
ghost use Rattle.colored_copier.specs.Phases.{NotOver, Free, Rises};
ghost use Rattle.colored_copier.specs.Places.{Next};
ghost use Rattle.colored_copier.specs.Plans.{In, row_number};
ghost use Rattle.colored_copier.specs.Rule.{carried, view};
ghost use Rattle.colored_copier.specs.Shown.{StartsFresh, StatesAreExclusive, ClaimsAreEvents, SplitsAreEvents, JoinsAreEvents};
ghost use Rattle.colored_copier.specs.declared.view.Phase.TheVariants as phase;

use crate::job::RowJob;
use crate::moves::take_all;
use crate::rule::{Key, Rounds};
use crate::view::View;
use atomic_table::{Join, Play, Refused, Seat, Split, Table};
use std::alloc::Global;

/// What a pass steps with.
pub type RowSeat<J> = Seat<(u32, <J as RowJob>::Row), View<Key<J, <J as RowJob>::Row>>>;

/// What a claim tells: the rows of the last item are back, and those of the item that was found are with the pass.
struct Claim;

impl<J: RowJob> Play<(u32, J::Row), View<Key<J, J::Row>>> for Claim {
    ghost then = { claimed J.rows_of };
}

/// One more pass is dealt.
struct Deal;

impl<X> Split<View<X>> for Deal {
    ghost left = { dealing };

    ghost right = { dealt };
}

/// A pass takes in another.
struct Gather;

impl<X> Join<View<X>> for Gather {
    ghost both = { joined };

    ghost spent = { spent_view };
}

/// The table of a round: the next number, and a place for each row.
pub struct RoundTable<J: RowJob> {
    table: Table<(u32, J::Row), View<Key<J, J::Row>>, Key<J, J::Row>, Rounds<J>, Global>,
    ghost one_word: { table.shared.table_id.words ≡ 1 },
}

impl<J: RowJob> RoundTable<J> {
    ghost use Rattle.colored_copier.specs.Tables.{table_of, key_of};

    /// The table at the start, each row in its place, with the seat that the passes are split from.
    pub(crate) fn new(
        alloc: Global,
        rows: Vec<(u32, J::Row)>,
        key: Key<J, J::Row>,
    ) -> Result<(RoundTable<J>, RowSeat<J>), Vec<(u32, J::Row)>>
        requires rule { JobRule J.count J.rows_of J.row_step key (opening (0 ∷ []) rows.items (first_view key)) }
        ensures ok { IfOk result (λ r. (key_of r.0 ≡ key) × ((table_of r.0).slots ≡ length rows.items) × (r.1.table_id ≡ table_of r.0) × (r.1.me ≡ (first_view key, []))) }
        ensures err { IfErr result (λ back. back.items ≡ rows.items) }
    {
        match Table::new(alloc, &[0], rows, &key) {
            Ok((table, seat)) => Ok((RoundTable { table }, seat)),
            Err(Refused { slots }) => Err(slots),
        }
    }

    /// Gives the last item's rows back and takes the next number, with the rows of its item: one `fetch_add`.
    pub(crate) fn claim_number(&self, seat: &mut RowSeat<J>) -> u64
        requires few { (key_of self.now).items + (key_of self.now).seats + 1 < 2 ^ 64 }
        requires seat { (seat.old.table_id ≡ table_of self.now) × (seat.old.me.0.key ≡ Some (key_of self.now)) × (seat.old.me.0.overs < seat.old.me.0.parts) × NotOver seat.old.me.0.phase }
        requires carries { seat.old.me.1 ≡ carried (plan_of J.rows_of (key_of self.now)) (finish_of J.row_step (key_of self.now)) seat.old.me.0.phase }
        ensures same { seat.new.table_id ≡ seat.old.table_id }
        ensures event { ClaimEvent (key_of self.now).items seat.old.me.0.phase result seat.new.me.0.phase }
        ensures item { result < (key_of self.now).items → (seat.new.me ≡ (view seat.old.me.0.parts seat.old.me.0.overs seat.old.me.0.number (phase.Claimed result) seat.old.me.0.key, plan_of J.rows_of (key_of self.now) result)) × Rises result seat.old.me.0.phase }
        ensures over { (key_of self.now).items ≤ result → seat.new.me ≡ (view seat.old.me.0.parts (seat.old.me.0.overs + 1) seat.old.me.0.number (phase.Over result) seat.old.me.0.key, []) }
    {
        self.table.shared.fetch_add::<Claim>(seat, 0, 1)
    }

    /// Deals a new pass, of the dealer's parts and number: one load.
    pub(crate) fn deal_pass(&self, dealer: &mut RowSeat<J>) -> RowSeat<J>
        requires dealer { (dealer.old.table_id ≡ table_of self.now) × (dealer.old.me.0.phase ≡ phase.Fresh) × (dealer.old.me.0.overs ≡ 0) × (0 < dealer.old.me.0.parts) }
        ensures same { (dealer.new.table_id ≡ dealer.old.table_id) × (result.table_id ≡ dealer.old.table_id) }
        ensures event { SplitEvent dealer.old.me.0.phase dealer.new.me.0.phase result.me.0.phase }
        ensures both { (dealer.new.me ≡ (dealing dealer.old.me.0, dealer.old.me.1)) × (result.me ≡ (dealt dealer.old.me.0, [])) }
    {
        self.table.shared.split_seat::<Deal>(dealer)
    }

    /// Joins a pass into the seat: one load. Neither has an item.
    pub(crate) fn join_pass(&self, seat: &mut RowSeat<J>, other: RowSeat<J>)
        requires tables { (seat.old.table_id ≡ table_of self.now) × (other.table_id ≡ table_of self.now) }
        requires free { Free seat.old.me.0.phase × Free other.me.0.phase × (other.me.1 ≡ []) }
        requires overs { (seat.old.me.0.overs ≤ seat.old.me.0.parts) × (other.me.0.overs ≤ other.me.0.parts) }
        ensures same { seat.new.table_id ≡ seat.old.table_id }
        ensures event { JoinEvent seat.old.me.0.phase other.me.0.phase seat.new.me.0.phase }
        ensures both { seat.new.me ≡ (joined seat.old.me.0 other.me.0, seat.old.me.1) }
    {
        self.table.shared.join_seat::<Gather>(seat, other)
    }

    /// Writes the seat's first row, and brings the next one forward. No word is touched.
    pub(crate) fn write_row(
        &self,
        place: usize,
        seat: &mut RowSeat<J>,
        job: &J,
        item: u64,
        row: u32,
        copy: &J::Copy,
    )
        requires suits { Suits J.count J.rows_of J.fits (key_of self.now).job.value (key_of self.now).rows.value.items }
        requires place { get_elem? (map row_number (key_of self.now).rows.value.items) place ≡ some row }
        requires seat { (seat.old.table_id ≡ table_of self.now) × Next (key_of self.now).rows.value.items row seat.old.me.1 }
        requires job { (job.now ≡ (key_of self.now).job.value) × (item < J.count job.now) × In row (J.rows_of job.now item) × J.stands job.now item copy.now }
        ensures same { seat.new.table_id ≡ seat.old.table_id }
        ensures me { (p : ℕ) (x : J.Row) → seat.old.me.1 ≡ (p, (row, x)) ∷ rest seat.old.me.1 → seat.new.me ≡ (seat.old.me.0, rest seat.old.me.1 ++ (p, (row, J.row_step job.now x item row)) ∷ []) }
    {
        let slot = seat.slot_mut(&self.table.shared, place);
        job.copy_row(item, row, copy, &mut slot.1);
        seat.turn();
    }

    /// Ends the sharing, where one seat has all parts, no item, and has found a number past the last item: the rows come
    /// out, in their order.
    pub(crate) fn end(self, seat: RowSeat<J>, home: Vec<(u32, J::Row)>) -> Vec<(u32, J::Row)>
        requires seat { (seat.table_id ≡ table_of self) × (seat.me.0.parts ≡ (key_of self).seats) × Free seat.me.0.phase × (0 < seat.me.0.overs) }
        requires suits { Suits J.count J.rows_of J.fits (key_of self).job.value (key_of self).rows.value.items }
        requires items { (key_of self).items ≡ J.count (key_of self).job.value }
        requires room { (vec_len home ≡ 0) × ((table_of self).slots ≤ vec_capacity home) }
        ensures { Worked J.count J.rows_of J.row_step (key_of self).job.value (key_of self).rows.value.items result.items }
    {
        let RoundTable { table } = self;
        take_all(table.close_with(seat), home)
    }
}

/// A table that meets the rule shows a state of the machine, in which no item and no row is with two passes, and each kind
/// of step, whatever else is in the table, is one event of the machine.
pub fn rounds_are_machines<X, S>()
    ensures start { StartsFresh X S }
    ensures states { StatesAreExclusive X S }
    ensures claims { ClaimsAreEvents X S }
    ensures splits { SplitsAreEvents X S }
    ensures joins { JoinsAreEvents X S }
{}
