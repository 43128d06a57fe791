ghost use Rattle.std.specs.Prelude.{◌≡◌, ◌+◌, ◌≤◌, ◌<◌, ◌^◌, ◌+ℤ◌, length, fold, unsigned_abs, All};
ghost use Rattle.matrix_market.specs.Entries.{entries_of, row_entries, right_sides, values_of};
ghost use Rattle.run_summary.specs.Summary.{diagonal_sum, matrix_sum, vector_sum, IsSmall, IsSummable};
ghost use Rattle.run_summary.specs.Steps.{no_sums, with_entry, AreWithin};

use crate::weighted::WeightedSum;
use sparsity::{Pattern, Rows};

/// The sums of a system.
#[derive(Clone, Copy)]
pub(crate) struct SystemSums {
    pub(crate) diagonal: i128,
    pub(crate) weighted: i128,
    pub(crate) rhs: i128,
}

/// The sums of a system over a pattern, in one pass over its rows.
pub(crate) fn system_sums(pattern: &Pattern, rows: &Rows) -> SystemSums
    requires { IsSummable pattern.now (values_of rows.now) (right_sides rows.now) }
    ensures diagonal { result.diagonal ≡ diagonal_sum pattern.now (values_of rows.now) }
    ensures weighted { result.weighted ≡ matrix_sum pattern.now (values_of rows.now) }
    ensures rhs { result.rhs ≡ vector_sum (right_sides rows.now) }
{
    let mut matrix = MatrixSums::new();
    let mut rhs = WeightedSum::new();
    for i in 0..pattern.size() {
        let row = rows.get(i);
        matrix.add_row(i, pattern.row(i), row.values.as_slice());
        rhs.add(row.rhs);
    }
    SystemSums {
        diagonal: matrix.diagonal,
        weighted: matrix.weighted.sum,
        rhs: rhs.sum,
    }
}

/// The sums of a matrix so far: of its values on the diagonal, and of all its values with their weights.
#[derive(Clone, Copy)]
struct MatrixSums {
    diagonal: i128,
    weighted: WeightedSum,
}

impl MatrixSums {
    /// The sums of no entry.
    fn new() -> MatrixSums
        ensures { result ≡ no_sums }
    {
        MatrixSums {
            diagonal: 0,
            weighted: WeightedSum::new(),
        }
    }

    /// Adds the entries of a row, whose number is counted from 0.
    fn add_row(&mut self, row: u32, columns: &[u32], values: &[i128])
        requires small { All IsSmall values.now }
        requires few { self.old.weighted.count + length columns.now ≤ 2 ^ 32 }
        requires within { AreWithin self.old }
        ensures sums { self.new ≡ fold with_entry self.old (row_entries row columns.now values.now) }
        ensures few { self.new.weighted.count ≤ self.old.weighted.count + length columns.now }
        ensures within { AreWithin self.new }
    {
        for (column, value) in columns.iter().zip(values) {
            self.add_entry(row, *column, *value);
        }
    }

    /// Adds an entry, whose row and column are counted from 0.
    fn add_entry(&mut self, row: u32, column: u32, value: i128)
        requires small { IsSmall value }
        requires few { self.old.weighted.count < 2 ^ 32 }
        requires within { AreWithin self.old }
        ensures sums { self.new ≡ with_entry self.old (row, column, value) }
        ensures within { AreWithin self.new }
    {
        if row == column {
            self.diagonal = plus(self.diagonal, value);
        }
        self.weighted.add(value);
    }
}

// A sum after a number.
fn plus(sum: i128, value: i128) -> i128
    requires small { unsigned_abs value ≤ 2 ^ 80 }
    requires within { unsigned_abs sum ≤ 2 ^ 115 }
    ensures { result ≡ sum +ℤ value }
{
    sum + value
}
