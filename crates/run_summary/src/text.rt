ghost use Rattle.std.specs.Prelude.{◌≡◌, ◌++◌, ◌∷◌, [], IfOk, OnOk};
ghost use Rattle.matrix_market.specs.Entries.{right_sides, values_of};
ghost use Rattle.fem_text.specs.Written.{line_of, text_of};
ghost use Rattle.run_summary.specs.Summary.{IsSummable};
ghost use Rattle.run_summary.specs.Summary as written;

use crate::sums::system_sums;
use fem_fixed::NoMemory;
use itoa::{Buffer, Integer};
use sparsity::{Pattern, Rows};
use std::alloc::Global;

// The most bytes that a summary has: six names of at most eight letters, and six numbers of at most forty digits.
const ROOM: usize = 300;

/// The summary of a system over a pattern, on a mesh of this many active cells. Its lines are `cells`, `dofs` and
/// `entries` with how many there are, and `diagonal`, `weighted` and `rhs` with the sums of the values on the diagonal, of
/// all values of the matrix and of the right side, in units of 2^-32. In the last two the number at place k, counted from
/// 0 in the order of its text, has the weight 1 + k mod 7.
///
/// The values are summed in one pass, and nothing but the lines is kept.
pub fn summary_text(
    alloc: Global,
    cells: u32,
    pattern: &Pattern,
    rows: &Rows,
) -> Result<Vec<u8>, NoMemory>
    requires { IsSummable pattern.now (values_of rows.now) (right_sides rows.now) }
    ensures { IfOk result (λ text. text.items ≡ written.summary_text cells pattern.now (values_of rows.now) (right_sides rows.now)) }
{
    let sums = system_sums(pattern, rows);
    let mut text = Vec::with_capacity(alloc, ROOM)?;
    append_line(&mut text, b"cells", cells)?;
    append_line(&mut text, b"dofs", pattern.size())?;
    append_line(&mut text, b"entries", pattern.entries())?;
    append_line(&mut text, b"diagonal", sums.diagonal)?;
    append_line(&mut text, b"weighted", sums.weighted)?;
    append_line(&mut text, b"rhs", sums.rhs)?;
    Ok(text)
}

// Adds a line: a name and its number.
fn append_line<I: Integer>(text: &mut Vec<u8>, name: &[u8], number: I) -> Result<(), NoMemory>
    ensures { OnOk result (text.new.items ≡ text.old.items ++ text_of (line_of (name.now ∷ I.text number ∷ []) ∷ [])) }
{
    let mut buffer = Buffer::new();
    text.extend_from_slice(name)?;
    text.extend_from_slice(b" ")?;
    text.extend_from_slice(buffer.format(number).as_bytes())?;
    text.extend_from_slice(b"\n")?;
    Ok(())
}
