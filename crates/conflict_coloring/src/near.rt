ghost use Rattle.std.specs.Prelude.{ℕ, ◌+◌, ◌<◌, ◌≤◌, ◌^◌, ◌≡◌, ◌==◌, ◌&&◌, ◌||◌, not, filter, OnOk, IfOk, All, length, slice_index};
ghost use Rattle.std.specs.Ordering.{nat_cmp};
ghost use Rattle.std.specs.BTreeSet.{contains, IsOrdered};
ghost use Rattle.conflict_coloring.specs.Conflict.{has, rows_of, conflict};
ghost use Rattle.conflict_coloring.specs.Colours.{cells_of};
ghost use Rattle.conflict_coloring.specs.RowTable.{IsByRow};
ghost use Rattle.conflict_coloring.specs.Near.{AreNear, near_of};

use crate::Conflicts;
use crate::row_table::cells_at;
use fem_fixed::NoMemory;
use std::alloc::Global;
use std::collections::BTreeSet;

/// The conflict neighbours of each cell in its zone.
#[derive(Drop)]
pub struct Near {
    /// Where those of each cell end.
    pub ends: Vec<usize>,
    /// They, rising, cell after cell.
    pub cells: Vec<u32>,
}

/// The conflict neighbours of all cells in their zones.
pub fn near_in_zones(
    alloc: Global,
    conflicts: &Conflicts,
    starts: &[usize],
    table: &[u32],
    zones: &[u32],
) -> Result<Near, NoMemory>
    requires few { length conflicts.now < 2 ^ 32 }
    requires table { IsByRow conflicts.now starts.now table.now }
    requires each { length zones.now ≡ length conflicts.now }
    ensures { IfOk result (λ near. AreNear conflicts.now zones.now (length conflicts.now) near.ends.items near.cells.items) }
{
    let mut ends = Vec::new(alloc);
    let mut cells = Vec::new(alloc);
    for cell in 0..zones.len() {
        let near = near_one(alloc, conflicts, starts, table, zones, cell as u32)?;
        cells.extend_from_slice(&near)?;
        ends.push(cells.len())?;
    }
    Ok(Near { ends, cells })
}

// Those of one cell.
fn near_one(
    alloc: Global,
    conflicts: &Conflicts,
    starts: &[usize],
    table: &[u32],
    zones: &[u32],
    cell: u32,
) -> Result<Vec<u32>, NoMemory>
    requires within { cell < length conflicts.now }
    requires table { IsByRow conflicts.now starts.now table.now }
    requires each { length zones.now ≡ length conflicts.now }
    ensures { IfOk result (λ near. near.items ≡ near_of conflicts.now zones.now cell) }
{
    let mut found = BTreeSet::new(alloc);
    for row in conflicts.rows(cell) {
        add_row(conflicts, starts, table, zones, cell, *row, &mut found)?;
    }
    let near = listed(alloc, &found)?;
    Ok(near)
}

// The numbers of a set, rising.
fn listed(alloc: Global, found: &BTreeSet<u32>) -> Result<Vec<u32>, NoMemory>
    ensures items { IfOk result (λ list. list.items ≡ found.now.keys) }
    ensures rising { OnOk result (IsOrdered nat_cmp found.now) }
{
    let list = found.iter().copied().collect(alloc)?;
    Ok(list)
}

// Adds the cells of a row that are in the cell's zone.
fn add_row(
    conflicts: &Conflicts,
    starts: &[usize],
    table: &[u32],
    zones: &[u32],
    cell: u32,
    row: u32,
    found: &mut BTreeSet<u32>,
) -> Result<(), NoMemory>
    requires within { row + 1 < length starts.now }
    requires inside { cell < length zones.now }
    requires table { IsByRow conflicts.now starts.now table.now }
    requires each { length zones.now ≡ length conflicts.now }
    ensures { OnOk result ((d : ℕ) → contains nat_cmp found.new d ≡ (contains nat_cmp found.old d || (has (rows_of conflicts.now d) row && (not (cell == d) && slice_index zones.now d == slice_index zones.now cell)))) }
{
    add_all(zones, cell, cells_at(starts, table, row), found)?;
    Ok(())
}

// Adds those of a list that are in the cell's zone.
fn add_all(
    zones: &[u32],
    cell: u32,
    list: &[u32],
    found: &mut BTreeSet<u32>,
) -> Result<(), NoMemory>
    requires within { All (λ c. c < length zones.now) list.now }
    requires inside { cell < length zones.now }
    ensures { OnOk result ((d : ℕ) → contains nat_cmp found.new d ≡ (contains nat_cmp found.old d || (has list.now d && (not (cell == d) && slice_index zones.now d == slice_index zones.now cell)))) }
{
    for other in list {
        add_one(zones, cell, *other, found)?;
    }
    Ok(())
}

// Adds a cell if it is in the other's zone.
fn add_one(zones: &[u32], cell: u32, other: u32, found: &mut BTreeSet<u32>) -> Result<(), NoMemory>
    requires within { other < length zones.now }
    requires inside { cell < length zones.now }
    ensures { OnOk result ((d : ℕ) → contains nat_cmp found.new d ≡ (contains nat_cmp found.old d || (other == d && (not (cell == d) && slice_index zones.now d == slice_index zones.now cell)))) }
{
    if other == cell {
        return Ok(());
    }
    if zones[other as usize] != zones[cell as usize] {
        return Ok(());
    }
    found.insert(other)?;
    Ok(())
}
