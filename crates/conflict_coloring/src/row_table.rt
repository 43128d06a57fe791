ghost use Rattle.std.specs.Prelude.{ℕ, ◌+◌, ◌-◌, ◌<◌, ◌≤◌, ◌^◌, ◌≡◌, ◌++◌, true, All, IfOk, OnOk, length, map, slice_index};
ghost use Rattle.conflict_coloring.specs.Conflict.{has, rows_of};
ghost use Rattle.conflict_coloring.specs.Cut.{part};
ghost use Rattle.conflict_coloring.specs.RowTable.{IsByRow, pairs};

use crate::Conflicts;
use crate::order::order_by;
use fem_fixed::NoMemory;
use std::alloc::Global;

/// The cells that write each row.
#[derive(Drop)]
pub struct ByRow {
    /// Where each row starts, and where the last one ends.
    pub starts: Vec<usize>,
    /// The cells, row after row.
    pub cells: Vec<u32>,
}

/// The cells of a row.
pub fn cells_at<'a>(starts: &[usize], cells: &'a [u32], row: u32) -> &'a [u32]
    requires within { row + 1 < length starts.now }
    requires rising { slice_index starts.now row ≤ slice_index starts.now (row + 1) }
    requires inside { slice_index starts.now (row + 1) ≤ length cells.now }
    ensures { result.now ≡ part cells.now (slice_index starts.now row) (slice_index starts.now (row + 1)) }
{
    let row = row as usize;
    let start = starts[row];
    let end = starts[row + 1];
    &cells[start..end]
}

// The rows of all cells, and the cell of each.
#[derive(Drop)]
struct Entries {
    rows: Vec<u32>,
    owners: Vec<u32>,
}

/// The table from rows to cells, by a counting sort.
pub fn by_row(alloc: Global, conflicts: &Conflicts) -> Result<ByRow, NoMemory>
    requires { length conflicts.now < 2 ^ 32 }
    ensures { IfOk result (λ t. IsByRow conflicts.now t.starts.items t.cells.items) }
{
    let entries = listed(alloc, conflicts)?;
    let count = above(&entries.rows);
    let order = order_by(alloc, &entries.rows, &entries.owners, count)?;
    Ok(ByRow {
        starts: order.starts,
        cells: order.cells,
    })
}

/// One more than the greatest number of a list, or 0 for an empty one.
pub fn above(rows: &[u32]) -> usize
    ensures above { All (λ r. r < result) rows.now }
    ensures top { (k : ℕ) → k + 1 ≡ result → has rows.now k ≡ true }
    ensures few { result ≤ 2 ^ 32 }
{
    let mut count = 0;
    for row in rows {
        if count <= *row as usize {
            count = *row as usize + 1;
        }
    }
    count
}

// The written rows, cell after cell.
fn listed(alloc: Global, conflicts: &Conflicts) -> Result<Entries, NoMemory>
    requires { length conflicts.now < 2 ^ 32 }
    ensures rows { IfOk result (λ e. e.rows.items ≡ map (λ p. p.0) (pairs conflicts.now (length conflicts.now))) }
    ensures owners { IfOk result (λ e. e.owners.items ≡ map (λ p. p.1) (pairs conflicts.now (length conflicts.now))) }
{
    let mut rows = Vec::new(alloc);
    let mut owners = Vec::new(alloc);
    for cell in 0..conflicts.len() {
        add_entries(
            &mut rows,
            &mut owners,
            conflicts.rows(cell as u32),
            cell as u32,
        )?;
    }
    Ok(Entries { rows, owners })
}

// Adds the rows of a cell.
fn add_entries(
    rows: &mut Vec<u32>,
    owners: &mut Vec<u32>,
    more: &[u32],
    cell: u32,
) -> Result<(), NoMemory>
    ensures rows { OnOk result (rows.new.items ≡ rows.old.items ++ more.now) }
    ensures owners { OnOk result (owners.new.items ≡ owners.old.items ++ map (λ r. cell) more.now) }
{
    rows.extend_from_slice(more)?;
    for _row in more {
        owners.push(cell)?;
    }
    Ok(())
}
