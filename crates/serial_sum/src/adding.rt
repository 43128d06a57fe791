ghost use Rattle.std.specs.Prelude.{◌≡◌, ◌<◌, ◌≤◌, ◌^◌, length, slice_index, true, unsigned_abs, is_some};
ghost use Rattle.fem_fixed.specs.KeptSum.{added};
ghost use Rattle.serial_sum.specs.Columns.{IsRising, columns_at};
ghost use Rattle.serial_sum.specs.Rows.{has_target, FitsRow, FitsRows, IsFor, next, added_row, is_added, row_at, with_row};
ghost use Rattle.serial_sum.specs.declared.part.Target.TheVariants.{Column, RightSide};

use crate::columns::place_of;
use crate::part::{Contribution, Target};
use fem_fixed::add_kept;
use sparsity::{Pattern, Row, Rows};

/// An entry after a value, or as it was where the sum is above the limit; and whether the value was added.
#[derive(Clone, Copy)]
struct Added {
    entry: i128,
    was_added: bool,
}

#[inline(always)]
fn add_to(entry: i128, value: i128, digits: u32) -> Added
    requires entry { unsigned_abs entry ≤ 2 ^ 80 }
    requires term { unsigned_abs value ≤ 2 ^ 100 }
    requires digits { digits ≤ 64 }
    ensures next { result.entry ≡ next digits entry value }
    ensures added { result.was_added ≡ is_some (added digits entry value) }
{
    match add_kept(entry, value, digits) {
        Some(now) => Added {
            entry: now,
            was_added: true,
        },
        None => Added {
            entry,
            was_added: false,
        },
    }
}

/// Adds a value to the entry at a place of a row with these columns, where the sum is at most 2^80 in size. Whether it
/// was added.
#[inline(always)]
fn add_at(row: &mut Row, columns: &[u32], place: usize, value: i128, digits: u32) -> bool
    requires fits { FitsRow columns.now row.old }
    requires rising { IsRising columns.now }
    requires within { place < length columns.now }
    requires term { unsigned_abs value ≤ 2 ^ 100 }
    requires digits { digits ≤ 64 }
    ensures row { row.new ≡ added_row digits columns.now row.old (Column (slice_index columns.now place)) value }
    ensures added { result ≡ is_added digits columns.now row.old (Column (slice_index columns.now place)) value }
{
    let sum = add_to(row.values.get(place), value, digits);
    row.values.set(place, sum.entry);
    sum.was_added
}

/// Adds a value to the right side of a row, where the sum is at most 2^80 in size. Whether it was added.
#[inline(always)]
fn add_right_side(row: &mut Row, columns: &[u32], value: i128, digits: u32) -> bool
    requires fits { FitsRow columns.now row.old }
    requires term { unsigned_abs value ≤ 2 ^ 100 }
    requires digits { digits ≤ 64 }
    ensures row { row.new ≡ added_row digits columns.now row.old RightSide value }
    ensures added { result ≡ is_added digits columns.now row.old RightSide value }
{
    let _ = columns;
    let sum = add_to(row.rhs, value, digits);
    row.rhs = sum.entry;
    sum.was_added
}

/// Adds a value to an entry of a row with these columns, where the sum is at most 2^80 in size. Whether it was added.
#[inline(always)]
pub(crate) fn add(row: &mut Row, columns: &[u32], target: Target, value: i128, digits: u32) -> bool
    requires fits { FitsRow columns.now row.old }
    requires rising { IsRising columns.now }
    requires held { has_target columns.now target ≡ true }
    requires term { unsigned_abs value ≤ 2 ^ 100 }
    requires digits { digits ≤ 64 }
    ensures row { row.new ≡ added_row digits columns.now row.old target value }
    ensures added { result ≡ is_added digits columns.now row.old target value }
{
    match target {
        Target::Column(j) => add_at(row, columns, place_of(columns, j), value, digits),
        Target::RightSide => add_right_side(row, columns, value, digits),
    }
}

/// Adds a contribution to the rows, where the sum is at most 2^80 in size. Whether it was added.
#[inline(always)]
pub(crate) fn add_contribution(
    rows: &mut Rows,
    pattern: &Pattern,
    given: Contribution,
    digits: u32,
) -> bool
    requires fits { FitsRows pattern.now rows.old }
    requires given { IsFor pattern.now given }
    requires digits { digits ≤ 64 }
    ensures rows { rows.new ≡ with_row digits pattern.now rows.old given }
    ensures added { result ≡ is_added digits (columns_at pattern.now given.row) (row_at rows.old given.row) given.target given.value }
{
    let columns = pattern.row(given.row);
    let row = rows.get_mut(given.row);
    add(row, columns, given.target, given.value, digits)
}
