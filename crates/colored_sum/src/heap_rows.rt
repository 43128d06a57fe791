//! Rows on the heap, so that a round moves a pointer for each row and not the row.
ghost use Rattle.std.specs.Prelude.{◌≡◌, IfOk, map, reverse, vec_len};
ghost use Rattle.std.specs.Vec.{vec_capacity};
ghost use Rattle.sparsity.specs.Rows.{zero_row};

use fem_fixed::NoMemory;
use sparsity::{Pattern, Row, RowValues, Rows};
use std::alloc::Global;
use std::marker::Model;

/// A row on the heap. Contracts see the row.
#[derive(Drop)]
pub struct HeapRow {
    row: Box<Row>,
}

impl Model for HeapRow {
    ghost use Rattle.sparsity.specs.declared.rows.Row.{Row};

    ghost Value = { Row };

    ghost view = { λ held. held.row.value };
}

impl HeapRow {
    ghost use Rattle.std.specs.Prelude.{◌≡◌, IfOk};
    ghost use Rattle.std.specs.Borrow.{Lends, sem};
    ghost use Rattle.colored_sum.specs.contracts.heap_rows.HeapRow.{the_row};
    ghost use Rattle.sparsity.specs.contracts.rows.Row.{the_row as row_row};

    /// Takes memory for the row.
    pub fn new(alloc: Global, row: Row) -> Result<HeapRow, NoMemory>
        ensures { IfOk result (λ held. held ≡ row) }
    {
        Ok(HeapRow {
            row: Box::new(alloc, row)?,
        })
    }

    /// The row.
    pub fn get(&self) -> &Row
        ensures { result.now ≡ self.now }
    {
        &self.row
    }

    /// The row, to be written.
    pub fn get_mut(&mut self) -> &mut Row
        ensures value { result.now ≡ self.old }
        ensures* writes_back { sem 𝓛 (Lends the_row row_row self.entry result (λ w. w)) }
    {
        self.row.as_mut()
    }

    /// The row, off the heap.
    pub fn into_row(self) -> Row
        ensures { result ≡ self }
    {
        Box::into_inner(self.row)
    }
}

/// The rows of a system, each on the heap, a row a dof. Contracts see the list of the rows.
#[derive(Drop)]
pub struct HeapRows {
    rows: Vec<(u32, HeapRow)>,
}

impl Model for HeapRows {
    ghost use Rattle.std.specs.Prelude.{List, ◌<◌, ◌^◌, length};
    ghost use Rattle.sparsity.specs.declared.rows.Row.{Row};
    ghost use Rattle.sparsity.specs.Rows.{AreNumbered, rows_in};

    ghost Value = { List Row };

    ghost view = { λ held. rows_in held.rows.items };

    ghost invariant = { λ held. AreNumbered held.rows.items × (length held.rows.items < 2 ^ 32) };
}

impl HeapRows {
    ghost use Rattle.std.specs.Prelude.{◌≡◌, ◌<◌, ◌^◌, length, true, false, IfOk};
    ghost use Rattle.sparsity.specs.Rows.{AreNumbered, rows_in};
    ghost use Rattle.serial_sum.specs.Rows.{AreUnmarked};

    /// A row of zeros with no mark for each row of the pattern, each made in its place on the heap.
    pub fn zero(alloc: Global, pattern: &Pattern) -> Result<HeapRows, NoMemory>
        ensures { IfOk result (λ held. held ≡ map zero_row pattern.now) }
    {
        let size = pattern.size();
        let mut rows = Vec::with_capacity(alloc, size as usize)?;
        for i in 0..size {
            rows.push((i, zeros(alloc, pattern.row(i))?))?;
        }
        Ok(HeapRows { rows })
    }

    /// The rows, off the heap.
    pub fn into_rows(self, alloc: Global) -> Result<Rows, NoMemory>
        ensures { IfOk result (λ rows. rows ≡ self) }
    {
        Ok(Rows::from_numbered(unbox_all(alloc, self.rows)?))
    }

    /// The rows with their numbers, rising. Nothing is copied, and no memory is taken.
    pub fn into_numbered(self) -> Vec<(u32, HeapRow)>
        ensures rows { rows_in result.items ≡ self }
        ensures numbers { AreNumbered result.items }
        ensures size { length result.items < 2 ^ 32 }
    {
        self.rows
    }

    /// The rows from a list of all of them with their numbers. Nothing is copied, and no memory is taken.
    pub fn from_numbered(rows: Vec<(u32, HeapRow)>) -> HeapRows
        requires numbers { AreNumbered rows.items }
        requires size { length rows.items < 2 ^ 32 }
        ensures { result ≡ rows_in rows.items }
    {
        HeapRows { rows }
    }

    /// Whether some row has a mark.
    pub fn has_mark(&self) -> bool
        ensures some { result ≡ true → AreUnmarked self.now → ⊥ }
        ensures none { result ≡ false → AreUnmarked self.now }
    {
        for i in 0..self.rows.len() {
            let row = self.rows[i].1.get();
            if let Some(_) = row.mark {
                return true;
            }
        }
        false
    }
}

fn flip<X>(values: &mut Vec<X>)
    ensures { (values.new.items ≡ reverse values.old.items) × (vec_len values.new ≡ vec_len values.old) × (vec_capacity values.new ≡ vec_capacity values.old) }
{
    values.as_mut_slice().reverse();
}

/// A row of zeros over these columns, on the heap.
fn zeros(alloc: Global, columns: &[u32]) -> Result<HeapRow, NoMemory>
    ensures { IfOk result (λ held. held ≡ zero_row columns.now) }
{
    let row = Row {
        values: RowValues::zero(alloc, columns.len())?,
        rhs: 0,
        mark: None,
    };
    HeapRow::new(alloc, row)
}

fn unbox_all(alloc: Global, mut held: Vec<(u32, HeapRow)>) -> Result<Vec<(u32, Row)>, NoMemory>
    ensures { IfOk result (λ rows. rows.items ≡ held.items) }
{
    let mut rows = Vec::with_capacity(alloc, held.len())?;
    flip(&mut held);
    while let Some((number, row)) = held.pop() {
        rows.push_reserved((number, row.into_row()));
    }
    Ok(rows)
}
