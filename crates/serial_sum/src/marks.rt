ghost use Rattle.std.specs.Prelude.{◌≡◌};
ghost use Rattle.serial_sum.specs.FirstMark.{earlier_of};
ghost use Rattle.serial_sum.specs.Marks.{failure_of, Tells};

use crate::sum::Failure;
use fixed_q1::LocalFault;
use sparsity::{Mark, MarkKind, Rows};

/// A marked row.
#[derive(Clone, Copy)]
struct Marked {
    row: u32,
    mark: Mark,
}

impl Marked {
    /// The failure that the mark tells.
    fn failure(self) -> Failure
        ensures { result ≡ failure_of self.row self.mark }
    {
        match self.mark.kind {
            MarkKind::Distorted => Failure::Local(self.mark.cell, LocalFault::Distorted),
            MarkKind::Size => Failure::Local(self.mark.cell, LocalFault::Size),
            MarkKind::Sum => Failure::Sum(self.mark.cell, self.row),
        }
    }
}

/// How a round failed, by the marks of the rows: as the least marked cell did, and where that was in sums, at its first
/// marked row.
pub fn first_failure(rows: &Rows) -> Option<Failure>
    ensures { Tells rows.now result }
{
    let mut first = None;
    for i in 0..rows.size() {
        first = earlier(first, i, rows.get(i).mark);
    }
    match first {
        None => None,
        Some(marked) => Some(marked.failure()),
    }
}

/// The first of the marked rows so far and this row.
fn earlier(first: Option<Marked>, row: u32, mark: Option<Mark>) -> Option<Marked>
    ensures { result ≡ earlier_of first row mark }
{
    let Some(mark) = mark else {
        return first;
    };
    match first {
        Some(other) if other.mark.cell <= mark.cell => Some(other),
        _ => Some(Marked { row, mark }),
    }
}
