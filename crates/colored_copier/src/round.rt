//! A round: rows that are shared without a lock, and the items that are claimed one by one.
ghost use Rattle.std.specs.Prelude.{◌≡◌, ◌<◌, ◌≤◌, ◌+◌, ◌^◌, [], ◌∷◌, ◌++◌, Some, ℕ, map, length, vec_len, IfOk};
ghost use Rattle.std.specs.Vec.{vec_capacity};
ghost use mathlib.Core.Option.{some};
ghost use lib.ListN.{get_elem?};
ghost use Rattle.colored_copier.specs.Plans.{In, row_number};
ghost use Rattle.colored_copier.specs.Places.{ArePlaced};
ghost use Rattle.colored_copier.specs.Rule.{steps, view};
ghost use Rattle.colored_copier.specs.Keyed.{plan_of, finish_of};
ghost use Rattle.colored_copier.specs.Conditions.{Suits};
ghost use Rattle.colored_copier.specs.Fresh.{fresh_passes};
ghost use Rattle.colored_copier.specs.Tables.{table_of, key_of};
ghost use Rattle.colored_copier.specs.Views.{seen_round};
ghost use Rattle.colored_copier.specs.declared.view.Phase.TheVariants as phase;

use crate::job::RowJob;
use crate::pass::RoundPass;
use crate::places::Places;
use crate::rule::Key;
use crate::steps::{RoundTable, RowSeat};
use crate::turn::{RowTurn, RowWorked};
use fem_fixed::NoMemory;
use scratch_pool::Parked;
use std::alloc::Global;
use std::marker::Model;
use std::snapshot::Snapshot;

/// Rows that are numbered and rise, and a job whose items each name some of them, no two the same. The items are claimed
/// by passes, by one step each, and each item's rows are written in place by the pass that claimed it.
pub struct Round<J: RowJob> {
    table: RoundTable<J>,
    items: u64,
    places: Places,
    // An empty vector with room for all rows, for `close`.
    home: Parked<Vec<(u32, J::Row)>>,
}

impl<J: RowJob> Model for Round<J> {
    ghost use Rattle.std.specs.Prelude.{◌≡◌, ◌≤◌, vec_len};
    ghost use Rattle.std.specs.Vec.{vec_capacity};
    ghost use Rattle.colored_copier.specs.Tables.{table_of, key_of};
    ghost use Rattle.colored_copier.specs.Views.{RoundView, seen_round, Sound};
    ghost use Rattle.colored_copier.specs.declared.rule.Key.{Key};

    ghost Value = { RoundView (Key J J.Row) };

    ghost view = { λ r. seen_round (table_of r.table) (key_of r.table) };

    ghost invariant = { λ r. Sound J.count J.rows_of J.fits (key_of r.table) r.items r.places × (vec_len r.home ≡ 0) × ((table_of r.table).slots ≤ vec_capacity r.home) };
}

/// What a claim found.
pub enum Claimed {
    /// This item is the pass's.
    Item(RowTurn),
    /// All items were claimed: the number that stood there.
    Over(u64),
}

// The place of the item's i-th row.
fn row_place<J: RowJob>(
    table: &RoundTable<J>,
    places: &Places,
    job: &J,
    item: u64,
    i: usize,
    row: u32,
) -> usize
    requires places { ArePlaced (J.rows_of job.now) (map row_number (key_of table.now).rows.value.items) (J.count job.now) places.now }
    requires item { item < J.count job.now }
    requires row { get_elem? (J.rows_of job.now item) i ≡ some row }
    requires among { In row (map row_number (key_of table.now).rows.value.items) }
    ensures { get_elem? (map row_number (key_of table.now).rows.value.items) result ≡ some row }
{
    match places {
        Places::Counted => row as usize,
        Places::Listed(lists) => lists.places[lists.starts[item as usize] + i],
    }
}

// Writes all rows of the item that the seat has.
fn write_all<J: RowJob>(
    table: &RoundTable<J>,
    places: &Places,
    seat: &mut RowSeat<J>,
    job: &J,
    item: u64,
    copy: &J::Copy,
)
    requires table { Suits J.count J.rows_of J.fits (key_of table.now).job.value (key_of table.now).rows.value.items }
    requires places { ArePlaced (J.rows_of job.now) (map row_number (key_of table.now).rows.value.items) (J.count job.now) places.now }
    requires seat { (seat.old.table_id ≡ table_of table.now) × (seat.old.me.1 ≡ plan_of J.rows_of (key_of table.now) item) }
    requires job { (job.now ≡ (key_of table.now).job.value) × (item < J.count job.now) × J.stands job.now item copy.now }
    ensures same { seat.new.table_id ≡ seat.old.table_id }
    ensures me { seat.new.me ≡ (seat.old.me.0, steps (plan_of J.rows_of (key_of table.now)) (finish_of J.row_step (key_of table.now)) item) }
{
    let rows = job.rows(item);
    for i in 0..rows.len() {
        let place = row_place(table, places, job, item, i, rows[i]);
        table.write_row(place, seat, job, item, rows[i], copy);
    }
}

// Deals all passes, in the order of their numbers.
fn deal<J: RowJob>(
    table: &RoundTable<J>,
    seats: u32,
    mut dealer: RowSeat<J>,
    passes: &mut Vec<RoundPass<J>>,
)
    requires dealer { (dealer.table_id ≡ table_of table.now) × (dealer.me ≡ (view seats 0 0 phase.Fresh (Some (key_of table.now)), [])) }
    requires room { (passes.old.items ≡ []) × (seats ≤ vec_capacity passes.old) }
    ensures { passes.new.items ≡ fresh_passes (seen_round (table_of table.now) (key_of table.now)) seats }
{
    for number in 0..seats {
        let next = table.deal_pass(&mut dealer);
        passes.push_reserved(RoundPass::of(next));
    }
}

// What a round takes memory for, but its table.
struct Room<J: RowJob> {
    places: Places,
    passes: Vec<RoundPass<J>>,
    home: Parked<Vec<(u32, J::Row)>>,
}

// An empty vector with room for this many values, parked.
fn park_room<X>(alloc: Global, count: usize) -> Result<Parked<Vec<X>>, NoMemory>
    ensures { IfOk result (λ home. (vec_len home ≡ 0) × (count ≤ vec_capacity home)) }
{
    match Parked::new(alloc, Vec::with_capacity(alloc, count)?) {
        Ok(home) => Ok(home),
        Err(home) => {
            home.destroy_empty();
            Err(NoMemory)
        }
    }
}

impl<J: RowJob> Room<J> {
    fn of(alloc: Global, job: &J, rows: &[(u32, J::Row)], seats: u32) -> Result<Room<J>, NoMemory>
        requires suits { Suits J.count J.rows_of J.fits job.now rows.now }
        ensures places { IfOk result (λ r. ArePlaced (J.rows_of job.now) (map row_number rows.now) (J.count job.now) r.places) }
        ensures passes { IfOk result (λ r. (r.passes.items ≡ []) × (seats ≤ vec_capacity r.passes)) }
        ensures home { IfOk result (λ r. (vec_len r.home ≡ 0) × (length rows.now ≤ vec_capacity r.home)) }
    {
        let places = Places::of(alloc, job, rows)?;
        let passes = Vec::with_capacity(alloc, seats as usize)?;
        let Ok(home) = park_room(alloc, rows.len()) else {
            passes.destroy_empty();
            return Err(NoMemory);
        };
        Ok(Room {
            places,
            passes,
            home,
        })
    }
}

impl<J: RowJob> Round<J> {
    ghost use Rattle.std.specs.Prelude.{◌≡◌, ◌<◌, ◌≤◌, true, false, vec_len, IfOk, IfErr, Any, Some};
    ghost use Rattle.colored_copier.specs.Answers.{Told};
    ghost use Rattle.colored_copier.specs.Conditions.{Suits, Worked};
    ghost use Rattle.colored_copier.specs.Ending.{AreDone};
    ghost use Rattle.colored_copier.specs.Fresh.{fresh_passes};
    ghost use Rattle.colored_copier.specs.Passes.{IsSame};
    ghost use Rattle.colored_copier.specs.Tables.{table_of, key_of};
    ghost use Rattle.colored_copier.specs.Phases.{IsOver, NotOver};
    ghost use Rattle.colored_copier.specs.Views.{IsPassOf, job_of, rows_at_first, seats_of, seen_round, Sound};
    ghost use Rattle.std.specs.Vec.{vec_capacity};
    ghost use Rattle.colored_copier.specs.declared.view.Phase.TheVariants as phase;

    // The round of a table that was just made.
    fn of(
        table: RoundTable<J>,
        items: u64,
        places: Places,
        home: Parked<Vec<(u32, J::Row)>>,
    ) -> Round<J>
        requires sound { Sound J.count J.rows_of J.fits (key_of table) items places }
        requires home { (vec_len home ≡ 0) × ((table_of table).slots ≤ vec_capacity home) }
        ensures { result ≡ seen_round (table_of table) (key_of table) }
    {
        Round {
            table,
            items,
            places,
            home,
        }
    }

    /// Takes the rows, and gives as many passes as there are seats, 1 to 64. Where the rows' numbers leave a gap, each row
    /// of an item is looked up once. Where there is no memory, the rows come back.
    pub fn new(
        alloc: Global,
        job: &J,
        rows: Vec<(u32, J::Row)>,
        seats: u32,
    ) -> Result<(Round<J>, Vec<RoundPass<J>>), (Vec<(u32, J::Row)>, NoMemory)>
        requires suits { Suits J.count J.rows_of J.fits job.now rows.items }
        requires seats { (0 < seats) × (seats ≤ 64) }
        ensures round { IfOk result (λ r. (job_of r.0 ≡ job.now) × (rows_at_first r.0 ≡ rows.items) × (seats_of r.0 ≡ seats)) }
        ensures passes { IfOk result (λ r. r.1.items ≡ fresh_passes r.0 seats) }
        ensures err { IfErr result (λ e. e.0.items ≡ rows.items) }
    {
        let Ok(
            Room {
                places,
                mut passes,
                home,
            },
        ) = Room::of(alloc, job, &rows, seats)
        else {
            return Err((rows, NoMemory));
        };
        let items = job.items();
        let key = Key {
            job: Snapshot::of(job),
            rows: Snapshot::of(&rows),
            items,
            seats: seats as u64,
        };
        match RoundTable::new(alloc, rows, key) {
            Ok((table, dealer)) => {
                deal(&table, seats, dealer, &mut passes);
                Ok((Round::of(table, items, places, home), passes))
            }
            Err(rows) => {
                passes.destroy_empty();
                home.take().destroy_empty();
                Err((rows, NoMemory))
            }
        }
    }

    /// Gives the last item's rows back and claims the next item, by one `fetch_add`. The pass isn't over, and its last item
    /// is written. It takes no lock and doesn't wait.
    pub fn claim(&self, pass: &mut RoundPass<J>) -> Claimed
        requires pass { IsPassOf self.now pass.old }
        requires ready { (pass.old.written ≡ true) × NotOver pass.old.phase }
        ensures same { IsSame pass.old pass.new }
        ensures found { Told (J.count (job_of self.now)) pass.old pass.new result }
        // What `new` was told of the job.
        ensures few { J.count (job_of self.now) ≤ 2 ^ 32 }
    {
        let number = self.table.claim_number(&mut pass.seat);
        if number < self.items {
            pass.written = false;
            pass.over = false;
            Claimed::Item(RowTurn::of(number))
        } else {
            pass.over = true;
            Claimed::Over(number)
        }
    }

    /// Makes each row of the pass's item its `row_step`, in place. The copy object stands for the item's value.
    pub fn write_rows(&self, pass: &mut RoundPass<J>, job: &J, worked: RowWorked, copy: &J::Copy)
        requires pass { IsPassOf self.now pass.old }
        requires item { (pass.old.phase ≡ phase.Claimed worked) × (pass.old.written ≡ false) }
        requires job { (job.now ≡ job_of self.now) × J.stands job.now worked copy.now }
        ensures same { IsSame pass.old pass.new }
        ensures written { (pass.new.phase ≡ pass.old.phase) × (pass.new.written ≡ true) }
    {
        let item = worked.item();
        worked.spend();
        write_all(&self.table, &self.places, &mut pass.seat, job, item, copy);
        pass.written = true;
    }

    /// Gives all rows back, in their order: each row that an item names after that item's `row_step`, whichever pass
    /// claimed it, and each other row as it was. It takes all passes, each of which is over or has claimed nothing, and one
    /// at least is over.
    pub fn close(self, mut passes: Vec<RoundPass<J>>) -> Vec<(u32, J::Row)>
        requires done { AreDone self.table passes.items }
        requires all { vec_len passes ≡ seats_of self }
        requires over { Any (λ p. IsOver p.phase) passes.items }
        ensures { Worked J.count J.rows_of J.row_step (job_of self) (rows_at_first self) result.items }
    {
        let Round {
            table,
            items: _,
            places: _,
            home,
        } = self;
        let Some(first) = passes.pop() else {
            unreachable!()
        };
        let mut seat = first.into_seat();
        while let Some(pass) = passes.pop() {
            table.join_pass(&mut seat, pass.into_seat());
        }
        passes.destroy_empty();
        table.end(seat, home.take())
    }
}
