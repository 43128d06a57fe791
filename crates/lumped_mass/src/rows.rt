//! The rows of cells, and their conflicts.
ghost use Rattle.std.specs.Prelude.{◌≡◌, ◌≤◌, ◌^◌, IfOk, OnOk, length};
ghost use Rattle.lumped_mass.specs.Rows.{IsRising, AreRising};

use crate::cells::Cells;
use compressed_lists::Lists;
use conflict_coloring::Conflicts;
use fem_fixed::NoMemory;
use std::alloc::Global;

/// The dofs of each cell, rising.
pub fn cell_rows(alloc: Global, cells: &Cells<'_>) -> Result<Lists<u32>, NoMemory>
    ensures { IfOk result (λ rows. AreRising cells.now.dofs.now.cells rows (length cells.now.forest.now.cells)) }
{
    let mut rows = Lists::new(alloc);
    let mut row = Vec::new(alloc);
    for cell in 0..cells.count {
        set_rising(&mut row, cells.dofs_of(cell))?;
        rows.push(&row)?;
    }
    Ok(rows)
}

// Makes the row these numbers, rising, each once.
fn set_rising(row: &mut Vec<u32>, numbers: &[u32]) -> Result<(), NoMemory>
    ensures { OnOk result (IsRising numbers.now row.new.items) }
{
    row.clear();
    row.extend_from_slice(numbers)?;
    row.sort_unstable();
    row.dedup();
    Ok(())
}

/// The same lists, as what each cell writes.
pub fn conflicts_of(alloc: Global, rows: &Lists<u32>) -> Result<Conflicts, NoMemory>
    requires { length rows.now ≤ 2 ^ 20 }
    ensures { IfOk result (λ conflicts. conflicts ≡ rows.now) }
{
    let mut conflicts = Conflicts::new(alloc);
    for cell in 0..rows.len() {
        conflicts.add(rows.get(cell))?;
    }
    Ok(conflicts)
}
