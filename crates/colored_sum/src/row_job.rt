//! What a round of a coloured assembly runs.
ghost use Rattle.std.specs.Prelude.{◌≡◌, ◌<◌, ◌≤◌, All, length, slice_index};

use crate::heap_rows::HeapRow;
use block_sums::{System, write_row};
use colored_copier::{RowJob, RowTurn, RowWorked};
use mesh_loop::{CellCopy, CellScratch, Setup};

/// The cells of a colour as items of a round: item k is the cell at k. Its value is the cell's part; its rows are
/// those that the cell writes, and each gets the contributions of the cell, or a mark where the cell fails.
#[derive(Drop)]
pub struct MatrixRowJob<'a> {
    pub setup: &'a Setup,
    pub cells: &'a [u32],
    /// How many leading binary digits are kept of each sum: 0, which keeps all, to 64.
    pub digits: u32,
    pub ghost few: { digits ≤ 64 },
    pub ghost there: { All (λ cell. cell < length setup.now.given.forest.cells) cells.now },
}

impl<'a> MatrixRowJob<'a> {
    /// The job of these cells.
    pub fn new(setup: &'a Setup, cells: &'a [u32], digits: u32) -> MatrixRowJob<'a>
        requires cells { All (λ cell. cell < length setup.now.given.forest.cells) cells.now }
        requires digits { digits ≤ 64 }
        ensures setup { result.setup.now ≡ setup.now }
        ensures cells { result.cells.now ≡ cells.now }
        ensures digits { result.digits ≡ digits }
    {
        MatrixRowJob {
            setup,
            cells,
            digits,
        }
    }
}

impl RowJob for MatrixRowJob<'_> {
    ghost use Rattle.std.specs.Prelude.{◌≡◌, length, slice_index};
    ghost use Rattle.cell_blocks.specs.Blocks.{cell_blocks};
    ghost use Rattle.serial_sum.specs.Columns.{columns_at};
    ghost use Rattle.serial_sum.specs.Rows.{FitsRow};
    ghost use Rattle.mesh_loop.specs.Setup.{pattern_of};
    ghost use Rattle.colored_sum.specs.Rounds.{rows_at, row_with};
    ghost use Rattle.serial_sum.proofs.Fitting.{part_fits};
    ghost use Rattle.mesh_loop.specs.Sum.{parts_of};
    ghost use Rattle.serial_sum.specs.SerialSum.{part_at};

    type Scratch = CellScratch;

    type Copy = CellCopy;

    type Row = HeapRow;

    ghost count = { λ j. length j.cells.now };

    ghost rows_of = { λ j k. rows_at j.setup.now j.cells.now k };

    ghost has_place = { λ j scratch. Unit {0} };

    ghost has_room = { λ j copy. Unit {0} };

    ghost fits = { λ j i row. FitsRow (columns_at (pattern_of j.setup.now) i) row };

    ghost stands = { λ j k copy. copy ≡ cell_blocks j.setup.now.flags j.setup.now.given (slice_index j.cells.now k) };

    ghost row_step = { λ j row k i. row_with j.setup.now j.cells.now j.digits row k i };

    ghost all_have_place = { λ j s. tt };

    ghost still_fits = { λ j i row k fits. part_fits j.digits (columns_at (pattern_of j.setup.now) i) i row (part_at (parts_of j.setup.now j.cells.now) k) fits };

    fn items(&self) -> u64 {
        self.cells.len() as u64
    }

    fn rows(&self, item: u64) -> &[u32] {
        self.setup.rows(self.cells[item as usize])
    }

    fn work(&self, turn: RowTurn, scratch: &mut CellScratch, copy: &mut CellCopy) -> RowWorked {
        let cell = self.cells[turn.item() as usize];
        self.setup.blocks_of(cell, scratch, copy);
        turn.done()
    }

    fn copy_row(&self, item: u64, row: u32, copy: &CellCopy, value: &mut HeapRow) {
        self.setup.cells_are_written();
        let system = System {
            pattern: self.setup.pattern(),
            closed: self.setup.closed(),
            digits: self.digits,
        };
        write_row(
            value.get_mut(),
            &system,
            row,
            self.cells[item as usize],
            copy,
        );
    }
}
