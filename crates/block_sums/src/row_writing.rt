ghost use Rattle.std.specs.Prelude.{◌≡◌, true, fold};
ghost use Rattle.affine_constraints.specs.Lines.{lines_in};
ghost use Rattle.cell_blocks.specs.Visited.{blocks_in};
ghost use Rattle.serial_sum.specs.Columns.{IsRising, columns_at};
ghost use Rattle.serial_sum.specs.Rows.{FitsRow};
ghost use Rattle.serial_sum.specs.Steps.{RowRun, row_own, row_step};
ghost use Rattle.serial_sum.specs.Marks.{kind_of as marked_kind, marked, after_run_of, row_after};
ghost use Rattle.block_sums.specs.Parts.{part_of_blocks, cell_contributions, HoldsAll};

use crate::cells::add_blocks;
use crate::system::System;
use cell_blocks::CellCopy;
use fixed_q1::LocalFault;
use serial_sum::OneRow;
use sparsity::{Mark, MarkKind, Pattern, Row};

/// Adds to a row, which is row i, what a cell gives to it. The row is marked with the cell where the cell's blocks
/// have a fault, and where a sum of the row would be above 2^80 in size.
pub fn write_row(row: &mut Row, system: &System, i: u32, cell: u32, copy: &CellCopy)
    requires fits { FitsRow (columns_at system.now.pattern.now i) row.old }
    requires holds { HoldsAll system.now.pattern.now system.now.closed.now (blocks_in copy.now) }
    ensures row { row.new ≡ row_after system.now.digits (columns_at system.now.pattern.now i) i row.old (part_of_blocks (lines_in system.now.closed.now) cell copy.now) }
    ensures fits { FitsRow (columns_at system.now.pattern.now i) row.new }
{
    match copy.fault() {
        Some(fault) => mark(row, cell, kind_of(fault)),
        None => add_or_mark(row, system, i, cell, copy),
    }
}

/// Adds the blocks of a copy object to row i, and marks the row where a sum would be above 2^80 in size.
fn add_or_mark(row: &mut Row, system: &System, i: u32, cell: u32, copy: &CellCopy)
    requires fits { FitsRow (columns_at system.now.pattern.now i) row.old }
    requires holds { HoldsAll system.now.pattern.now system.now.closed.now (blocks_in copy.now) }
    ensures row { row.new ≡ after_run_of cell (row_step system.now.digits (columns_at system.now.pattern.now i) i (record { row = row.old; all = true }) (part_of_blocks (lines_in system.now.closed.now) cell copy.now)) }
    ensures fits { FitsRow (columns_at system.now.pattern.now i) row.new }
{
    if add_to_row(row, system, i, copy) {
        return;
    }
    mark(row, cell, MarkKind::Sum);
}

/// Adds the blocks of a copy object to row i. Whether all was added.
fn add_to_row(row: &mut Row, system: &System, i: u32, copy: &CellCopy) -> bool
    requires fits { FitsRow (columns_at system.now.pattern.now i) row.old }
    requires holds { HoldsAll system.now.pattern.now system.now.closed.now (blocks_in copy.now) }
    ensures run { ◌≡◌ {A = RowRun} (record { row = row.new; all = result })
        (fold (row_own system.now.digits (columns_at system.now.pattern.now i) i) (record { row = row.old; all = true }) (cell_contributions (lines_in system.now.closed.now) copy.now)) }
    ensures fits { FitsRow (columns_at system.now.pattern.now i) row.new }
{
    let _blocks = copy.blocks();
    let _lines = system.closed.size();
    let adder = OneRow {
        columns: columns_of(system.pattern, i),
        row: i,
        digits: system.digits,
    };
    add_blocks(&adder, system.closed, copy, row, true)
}

/// The columns of a row; none past the last row.
fn columns_of(pattern: &Pattern, i: u32) -> &[u32]
    ensures value { result.now ≡ columns_at pattern.now i }
    ensures rising { IsRising result.now }
{
    if i < pattern.size() {
        return pattern.row(i);
    }
    &[]
}

/// Marks a row with a cell.
fn mark(row: &mut Row, cell: u32, kind: MarkKind)
    ensures { row.new ≡ marked cell kind row.old }
{
    row.mark = Some(Mark { cell, kind });
}

/// The kind of mark that a fault of a local form leaves.
fn kind_of(fault: LocalFault) -> MarkKind
    ensures { result ≡ marked_kind fault }
{
    match fault {
        LocalFault::Distorted => MarkKind::Distorted,
        LocalFault::Size => MarkKind::Size,
    }
}
