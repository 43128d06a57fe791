ghost use Rattle.std.specs.Prelude.{◌≡◌, ◌≤◌, ◌&&◌};
ghost use Rattle.serial_sum.specs.Columns.{IsRising};

use crate::adder::Adder;
use crate::adding::add;
use crate::part::Contribution;
use sparsity::Row;

/// Adds to one row of a system alone, and tells whether all that goes to it was added so far; a sum above 2^80 in size
/// isn't added.
#[derive(Drop)]
pub struct OneRow<'a> {
    /// The columns of the row.
    pub columns: &'a [u32],
    /// The number of the row.
    pub row: u32,
    /// How many leading binary digits are kept of each sum: 0, which keeps all, to 64.
    pub digits: u32,
    pub ghost rising: { IsRising columns.now },
    pub ghost few: { digits ≤ 64 },
}

impl Adder for OneRow<'_> {
    ghost use Rattle.std.specs.Prelude.{◌==◌};
    ghost use Rattle.serial_sum.specs.Rows.{FitsRow};
    ghost use Rattle.serial_sum.specs.Steps.{IsForRow};
    ghost use Rattle.serial_sum.specs.Adders.{one_row_step};

    type Sum = Row;

    type Told = bool;

    ghost fits = { λ a row. FitsRow a.columns.now row };

    ghost may_add = { λ a given. IsForRow a.columns.now a.row given };

    ghost wanted = { λ a row. row == a.row };

    ghost step = { λ a sum given. one_row_step a.digits a.columns.now a.row sum given };

    #[inline(always)]
    fn wants(&self, row: u32) -> bool {
        row == self.row
    }

    #[inline(always)]
    fn add(&self, row: &mut Row, all: bool, given: Contribution) -> bool {
        let added = add(row, self.columns, given.target, given.value, self.digits);
        both(all, added)
    }
}

/// Whether all was added so far, and this was too.
#[inline(always)]
fn both(all: bool, added: bool) -> bool
    ensures { result ≡ (all && added) }
{
    all && added
}
