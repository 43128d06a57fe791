ghost use Rattle.std.specs.Prelude.{◌≡◌, ◌≤◌, ◌++◌, ◌∷◌, [], length, vec_capacity, IfOk};
ghost use Rattle.fem_text.specs.Written.{text_of};
ghost use Rattle.matrix_market.specs.Texts.{pair_line};
ghost use Rattle.matrix_market.specs.Texts as written;
ghost use Rattle.matrix_market.specs.Parts.{row_pairs_text, pairs_text, size_of};

use crate::append::{append_size_line, reserve};
use crate::sizes::{pair_size, size_line_size};
use fem_fixed::NoMemory;
use fem_text::{append, append_number};
use sparsity::Pattern;
use std::alloc::Global;

const HEAD: &[u8] = b"%%MatrixMarket matrix coordinate pattern general\n";

/// The text of a pattern: after the banner the line `rows columns entries`, and then a line `i j` for each pair, by row
/// and then by column, both counted from 1.
///
/// The text is written into one buffer, which is taken once with just the size of the text.
pub fn pattern_text(alloc: Global, pattern: &Pattern) -> Result<Vec<u8>, NoMemory>
    ensures { IfOk result (λ text. text.items ≡ written.pattern_text pattern.now) }
{
    let mut text = reserve(alloc, pattern_size(pattern))?;
    append_front(&mut text, pattern.size(), pattern.entries());
    append_rows(&mut text, pattern);
    Ok(text)
}

// How many bytes the text of a pattern takes.
fn pattern_size(pattern: &Pattern) -> usize
    ensures { result ≡ size_of (written.pattern_text pattern.now) }
{
    let mut size = front_size(pattern.size(), pattern.entries());
    for i in 0..pattern.size() {
        size = size.saturating_add(row_size(i, pattern.row(i)));
    }
    size
}

// How many bytes the pairs of a row take.
fn row_size(row: u32, columns: &[u32]) -> usize
    ensures { result ≡ size_of (row_pairs_text row columns.now) }
{
    let mut size: usize = 0;
    for column in columns {
        size = size.saturating_add(pair_size(row, *column));
    }
    size
}

// Adds the first lines.
#[tactic(auto, unfolding(crate::specs::Texts::pattern_front))]
fn append_front(text: &mut Vec<u8>, size: u32, count: u64)
    requires { length (text.old.items ++ text_of (written.pattern_front size count)) ≤ vec_capacity text.old }
    ensures items { text.new.items ≡ text.old.items ++ text_of (written.pattern_front size count) }
    ensures room { vec_capacity text.old ≤ vec_capacity text.new }
{
    append(text, HEAD);
    append_size_line(text, size, count);
}

// How many bytes the first lines take.
#[tactic(auto, unfolding(crate::specs::Texts::pattern_front))]
fn front_size(size: u32, count: u64) -> usize
    ensures value { result ≡ length (text_of (written.pattern_front size count)) }
    ensures few { result ≤ 300 }
{
    HEAD.len() + size_line_size(size, count)
}

// Adds the pairs of all rows.
fn append_rows(text: &mut Vec<u8>, pattern: &Pattern)
    requires { length (text.old.items ++ pairs_text 0 pattern.now) ≤ vec_capacity text.old }
    ensures items { text.new.items ≡ text.old.items ++ pairs_text 0 pattern.now }
    ensures room { vec_capacity text.old ≤ vec_capacity text.new }
{
    for i in 0..pattern.size() {
        append_row(text, i, pattern.row(i));
    }
}

// Adds the pairs of a row, whose number is counted from 0.
fn append_row(text: &mut Vec<u8>, row: u32, columns: &[u32])
    requires { length (text.old.items ++ row_pairs_text row columns.now) ≤ vec_capacity text.old }
    ensures items { text.new.items ≡ text.old.items ++ row_pairs_text row columns.now }
    ensures room { vec_capacity text.old ≤ vec_capacity text.new }
{
    for column in columns {
        append_pair(text, row, *column);
    }
}

// Adds a pair, whose row and column are counted from 0.
fn append_pair(text: &mut Vec<u8>, row: u32, column: u32)
    requires { length (text.old.items ++ text_of (pair_line row column ∷ [])) ≤ vec_capacity text.old }
    ensures items { text.new.items ≡ text.old.items ++ text_of (pair_line row column ∷ []) }
    ensures room { vec_capacity text.old ≤ vec_capacity text.new }
{
    append_number(text, row as u64 + 1, b" ");
    append_number(text, column as u64 + 1, b"\n");
}
