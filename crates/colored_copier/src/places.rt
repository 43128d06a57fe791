//! Where the rows of each item lie among the rows of a round.
ghost use Rattle.std.specs.Prelude.{◌≡◌, ◌<◌, ◌++◌, ◌∷◌, [], ℕ, length, map, true, IfOk, OnOk};
ghost use mathlib.Core.Option.{some};
ghost use lib.ListN.{get_elem?};
ghost use Rattle.colored_copier.specs.Plans.{In, Rise, row_number};
ghost use Rattle.colored_copier.specs.Places.{IsPlaced, AddsItem, AreCounted, ArePlaced};

use crate::job::RowJob;
use fem_fixed::NoMemory;
use std::alloc::Global;

/// Where the rows of each item lie.
#[derive(Drop)]
pub enum Places {
    /// Each row's number is its place.
    Counted,
    /// The places were looked up.
    Listed(PlaceLists),
}

/// For each item the places of its rows, one item after the other.
#[derive(Drop)]
pub struct PlaceLists {
    /// Where each item's places begin.
    pub starts: Vec<usize>,
    pub places: Vec<usize>,
}

// Whether the numbers are 0, 1, 2 and so on. They rise, so it is enough to look at the last.
fn are_counted<R>(rows: &[(u32, R)]) -> bool
    requires { Rise (map row_number rows.now) }
    ensures { result ≡ true → AreCounted (map row_number rows.now) }
{
    if rows.len() == 0 {
        return false;
    }
    rows[rows.len() - 1].0 as usize == rows.len() - 1
}

/// The place of a number in a rising list that has it.
fn place_of(numbers: &[u32], row: u32) -> usize
    requires { Rise numbers.now × In row numbers.now }
    ensures { get_elem? numbers.now result ≡ some row }
{
    match numbers.binary_search(&row) {
        Ok(place) => place,
        Err(_) => unreachable!(),
    }
}

fn numbers_of<R>(alloc: Global, rows: &[(u32, R)]) -> Result<Vec<u32>, NoMemory>
    ensures { IfOk result (λ v. v.items ≡ map row_number rows.now) }
{
    let mut numbers = Vec::with_capacity(alloc, rows.len())?;
    for i in 0..rows.len() {
        numbers.push_reserved(rows[i].0);
    }
    Ok(numbers)
}

impl PlaceLists {
    // Adds the places of the next item's rows.
    fn add_item(&mut self, rows: &[u32], numbers: &[u32]) -> Result<(), NoMemory>
        requires rise { Rise numbers.now }
        requires among { (row : ℕ) → In row rows.now → In row numbers.now }
        ensures starts { OnOk result (self.new.starts.items ≡ self.old.starts.items ++ length self.old.places.items ∷ []) }
        ensures places { OnOk result (AddsItem numbers.now rows.now (length rows.now) self.old.places.items self.new.places.items) }
    {
        self.starts.push(self.places.len())?;
        for i in 0..rows.len() {
            self.places.push(place_of(numbers, rows[i]))?;
        }
        Ok(())
    }

    /// Looks each row of each item up once, by a binary search.
    fn of<J: RowJob>(alloc: Global, job: &J, rows: &[(u32, J::Row)]) -> Result<PlaceLists, NoMemory>
        requires rise { Rise (map row_number rows.now) }
        requires among { (n row : ℕ) → n < J.count job.now → In row (J.rows_of job.now n) → In row (map row_number rows.now) }
        ensures { IfOk result (λ p. IsPlaced (J.rows_of job.now) (map row_number rows.now) (J.count job.now) p.starts.items p.places.items) }
    {
        let numbers = numbers_of(alloc, rows)?;
        let mut places = PlaceLists {
            starts: Vec::new(alloc),
            places: Vec::new(alloc),
        };
        for item in 0..job.items() {
            places.add_item(job.rows(item), &numbers)?;
        }
        Ok(places)
    }
}

impl Places {
    /// The places of all items' rows. They are looked up only where the numbers of the rows leave a gap.
    pub(crate) fn of<J: RowJob>(
        alloc: Global,
        job: &J,
        rows: &[(u32, J::Row)],
    ) -> Result<Places, NoMemory>
        requires rise { Rise (map row_number rows.now) }
        requires among { (n row : ℕ) → n < J.count job.now → In row (J.rows_of job.now n) → In row (map row_number rows.now) }
        ensures { IfOk result (ArePlaced (J.rows_of job.now) (map row_number rows.now) (J.count job.now)) }
    {
        if are_counted(rows) {
            return Ok(Places::Counted);
        }
        Ok(Places::Listed(PlaceLists::of(alloc, job, rows)?))
    }
}
