ghost use Rattle.std.specs.Prelude.{◌≡◌, ◌≤◌};
ghost use Rattle.serial_sum.specs.Rows.{least_after};

use crate::adder::Adder;
use crate::adding::add_contribution;
use crate::part::Contribution;
use sparsity::{Pattern, Rows};

/// Adds to all rows of a system, and tells the least row with a sum above 2^80 in size so far; such a sum isn't added.
#[derive(Drop)]
pub struct AllRows<'a> {
    pub pattern: &'a Pattern,
    /// How many leading binary digits are kept of each sum: 0, which keeps all, to 64.
    pub digits: u32,
    pub ghost few: { digits ≤ 64 },
}

impl Adder for AllRows<'_> {
    ghost use Rattle.std.specs.Prelude.{true};
    ghost use Rattle.serial_sum.specs.Rows.{FitsRows, IsFor};
    ghost use Rattle.serial_sum.specs.Adders.{rows_step};

    type Sum = Rows;

    type Told = Option<u32>;

    ghost fits = { λ a rows. FitsRows a.pattern.now rows };

    ghost may_add = { λ a given. IsFor a.pattern.now given };

    ghost wanted = { λ a row. true };

    ghost step = { λ a sum given. rows_step a.digits a.pattern.now sum given };

    #[inline(always)]
    fn wants(&self, _row: u32) -> bool {
        true
    }

    #[inline(always)]
    fn add(&self, rows: &mut Rows, least: Option<u32>, given: Contribution) -> Option<u32> {
        let added = add_contribution(rows, self.pattern, given, self.digits);
        lower(added, least, given.row)
    }
}

/// The lower of the least failing row so far and this row, where a sum failed there.
#[inline(always)]
fn lower(added: bool, least: Option<u32>, row: u32) -> Option<u32>
    ensures { result ≡ least_after added least row }
{
    if added {
        return least;
    }
    match least {
        Some(other) => Some(other.min(row)),
        None => Some(row),
    }
}
