ghost use Rattle.std.specs.Prelude.{◌≡◌, ◌≤◌, ◌++◌, ◌∷◌, [], length, vec_capacity, All, IfOk};
ghost use Rattle.std.specs.Int.{w128};
ghost use Rattle.std.specs.Int.RustNames.{FitsSigned};
ghost use Rattle.matrix_market.specs.Entries.{Fills, values_of, entries_of};
ghost use Rattle.matrix_market.specs.Market.{MatrixText};
ghost use Rattle.fem_text.specs.Written.{text_of};
ghost use Rattle.matrix_market.specs.Texts.{entry_line};
ghost use Rattle.matrix_market.specs.Texts as written;
ghost use Rattle.matrix_market.specs.Parts.{row_text, rows_text, size_of};

use crate::append::{append_size_line, reserve};
use crate::sizes::{entry_size, size_line_size};
use fem_fixed::NoMemory;
use fem_text::{append, append_number};
use sparsity::{Pattern, Rows};
use std::alloc::Global;

const HEAD: &[u8] = b"%%MatrixMarket matrix coordinate integer general\n% unit 2^-32\n";

/// The text of a matrix over a pattern, with values in units of 2^-32: after the banner and a comment that names the
/// unit the line `rows columns entries`, and then a line `i j v` for each pair of the pattern, also where the value is
/// 0, by row and then by column, both counted from 1. What is written is read back: the text, whose values
/// are numbers of 128 bits, is one of this matrix.
///
/// The text is written into one buffer, which is taken once with just the size of the text.
pub fn matrix_text(alloc: Global, pattern: &Pattern, rows: &Rows) -> Result<Vec<u8>, NoMemory>
    requires { Fills (values_of rows.now) pattern.now }
    ensures text { IfOk result (λ text. text.items ≡ written.matrix_text pattern.now (values_of rows.now)) }
    ensures read_back { IfOk result (λ text. All (All (FitsSigned w128)) (values_of rows.now) → MatrixText text.items
        (record { rows = length pattern.now; columns = length pattern.now; entries = entries_of pattern.now (values_of rows.now) })) }
{
    let mut text = reserve(alloc, matrix_size(pattern, rows))?;
    append_front(&mut text, pattern.size(), pattern.entries());
    append_rows(&mut text, pattern, rows);
    Ok(text)
}

// How many bytes the text of a matrix takes.
fn matrix_size(pattern: &Pattern, rows: &Rows) -> usize
    requires { Fills (values_of rows.now) pattern.now }
    ensures { result ≡ size_of (written.matrix_text pattern.now (values_of rows.now)) }
{
    let mut size = front_size(pattern.size(), pattern.entries());
    for i in 0..pattern.size() {
        let values = rows.get(i).values.as_slice();
        size = size.saturating_add(row_size(i, pattern.row(i), values));
    }
    size
}

// How many bytes the entries of a row take.
fn row_size(row: u32, columns: &[u32], values: &[i128]) -> usize
    ensures { result ≡ size_of (row_text row columns.now values.now) }
{
    let mut size: usize = 0;
    for (column, value) in columns.iter().zip(values) {
        size = size.saturating_add(entry_size(row, *column, *value));
    }
    size
}

// Adds the first lines.
#[tactic(auto, unfolding(crate::specs::Texts::matrix_front))]
fn append_front(text: &mut Vec<u8>, size: u32, count: u64)
    requires { length (text.old.items ++ text_of (written.matrix_front size count)) ≤ vec_capacity text.old }
    ensures items { text.new.items ≡ text.old.items ++ text_of (written.matrix_front size count) }
    ensures room { vec_capacity text.old ≤ vec_capacity text.new }
{
    append(text, HEAD);
    append_size_line(text, size, count);
}

// How many bytes the first lines take.
#[tactic(auto, unfolding(crate::specs::Texts::matrix_front))]
fn front_size(size: u32, count: u64) -> usize
    ensures value { result ≡ length (text_of (written.matrix_front size count)) }
    ensures few { result ≤ 300 }
{
    HEAD.len() + size_line_size(size, count)
}

// Adds the entries of all rows.
fn append_rows(text: &mut Vec<u8>, pattern: &Pattern, rows: &Rows)
    requires fills { Fills (values_of rows.now) pattern.now }
    requires room { length (text.old.items ++ rows_text 0 pattern.now (values_of rows.now)) ≤ vec_capacity text.old }
    ensures items { text.new.items ≡ text.old.items ++ rows_text 0 pattern.now (values_of rows.now) }
    ensures room { vec_capacity text.old ≤ vec_capacity text.new }
{
    for i in 0..pattern.size() {
        append_row(text, i, pattern.row(i), rows.get(i).values.as_slice());
    }
}

// Adds the entries of a row, whose number is counted from 0.
fn append_row(text: &mut Vec<u8>, row: u32, columns: &[u32], values: &[i128])
    requires { length (text.old.items ++ row_text row columns.now values.now) ≤ vec_capacity text.old }
    ensures items { text.new.items ≡ text.old.items ++ row_text row columns.now values.now }
    ensures room { vec_capacity text.old ≤ vec_capacity text.new }
{
    for (column, value) in columns.iter().zip(values) {
        append_entry(text, row, *column, *value);
    }
}

// Adds an entry, whose row and column are counted from 0.
fn append_entry(text: &mut Vec<u8>, row: u32, column: u32, value: i128)
    requires { length (text.old.items ++ text_of (entry_line (row, column, value) ∷ [])) ≤ vec_capacity text.old }
    ensures items { text.new.items ≡ text.old.items ++ text_of (entry_line (row, column, value) ∷ []) }
    ensures room { vec_capacity text.old ≤ vec_capacity text.new }
{
    append_number(text, row as u64 + 1, b" ");
    append_number(text, column as u64 + 1, b" ");
    append_number(text, value, b"\n");
}
