//! The cells of one colour, as items of a round.
ghost use Rattle.std.specs.Prelude.{◌≡◌, ◌<◌, ◌≤◌, ◌+ℤ◌, ◌==◌, pos, cond, All, length};
ghost use Rattle.std.specs.Int.{w128, int_wrap};
ghost use Rattle.lumped_mass.specs.Masses.{sum_at};

use crate::cells::Cells;
use crate::masses::wrapped_sum;
use colored_copier::{RowJob, RowTurn, RowWorked};
use compressed_lists::Lists;

/// The cells of one colour: item k is the cell at k, and its rows are its dofs.
#[derive(Drop)]
pub struct Color<'a> {
    pub all: &'a Cells<'a>,
    /// The dofs of each cell, rising.
    pub rows: &'a Lists<u32>,
    pub cells: &'a [u32],
    pub ghost there: { All (λ cell. cell < length all.now.forest.now.cells) cells.now },
    pub ghost as_many: { length rows.now ≡ length all.now.forest.now.cells },
}

impl RowJob for Color<'_> {
    ghost use Rattle.std.specs.Prelude.{◌≡◌, ◌+ℤ◌, [], length, slice_index, slice_index_or};
    ghost use Rattle.std.specs.Int.{w128, int_wrap};
    ghost use Rattle.lumped_mass.specs.Masses.{cell_shares, cell_mass};

    type Scratch = u8;

    type Copy = [i64; 4];

    type Row = i128;

    ghost count = { λ j. length j.cells.now };

    ghost rows_of = { λ j k. slice_index_or j.rows.now (slice_index j.cells.now k) [] };

    ghost has_place = { λ j scratch. Unit {0} };

    ghost has_room = { λ j copy. Unit {0} };

    ghost fits = { λ j row sum. Unit {0} };

    ghost stands = { λ j k copy. copy ≡ cell_shares j.all.now.forest.now (slice_index j.cells.now k) };

    ghost row_step = { λ j sum k row. int_wrap w128 (sum +ℤ cell_mass j.all.now.forest.now j.all.now.dofs.now row (slice_index j.cells.now k)) };

    ghost all_have_place = { λ j s. tt };

    ghost still_fits = { λ j row sum k fits. tt };

    fn items(&self) -> u64 {
        self.cells.len() as u64
    }

    fn rows(&self, item: u64) -> &[u32] {
        self.rows.get(self.cells[item as usize] as usize)
    }

    fn work(&self, turn: RowTurn, _scratch: &mut u8, copy: &mut [i64; 4]) -> RowWorked {
        *copy = self.all.shares(self.cells[turn.item() as usize]);
        turn.done()
    }

    fn copy_row(&self, item: u64, row: u32, copy: &[i64; 4], value: &mut i128) {
        let dofs = self.all.dofs_of(self.cells[item as usize]);
        *value = with_all(*value, dofs, copy, row);
    }
}

// A value with those shares more that go to a dof.
fn with_all(value: i128, dofs: &[u32], shares: &[i64; 4], dof: u32) -> i128
    requires { length dofs.now ≡ 4 }
    ensures { result ≡ int_wrap w128 (value +ℤ sum_at dofs.now shares.now dof) }
{
    let mut sum = value;
    for v in 0..4 {
        sum = with_one(sum, dofs[v], shares[v], dof);
    }
    sum
}

// A value with the share of a vertex more, if it goes to a dof.
fn with_one(value: i128, at: u32, share: i64, dof: u32) -> i128
    ensures { result ≡ int_wrap w128 (value +ℤ cond (at == dof) share (pos 0)) }
{
    if at == dof {
        return wrapped_sum(value, i128::from(share));
    }
    value
}
