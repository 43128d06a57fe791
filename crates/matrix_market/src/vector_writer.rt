ghost use Rattle.std.specs.Prelude.{◌≡◌, ◌≤◌, ◌++◌, ◌∷◌, ◌<◌, [], length, pos, slice_index_or, vec_capacity, IfOk};
ghost use Rattle.std.specs.Fmt.{signed_decimal};
ghost use Rattle.matrix_market.specs.Entries.{right_sides};
ghost use Rattle.fem_text.specs.Written.{text_of};
ghost use Rattle.matrix_market.specs.Texts.{vector_size_line};
ghost use Rattle.matrix_market.specs.Texts as written;
ghost use Rattle.matrix_market.specs.Parts.{values_text, size_of};

use crate::append::reserve;
use crate::sizes::{digits, width};
use fem_fixed::NoMemory;
use fem_text::{append, append_number};
use sparsity::Rows;
use std::alloc::Global;

const HEAD: &[u8] = b"%%MatrixMarket matrix array integer general\n% unit 2^-32\n";

/// The text of values, in units of 2^-32: that of a right side with these values.
///
/// The text is written into one buffer, which is taken once with just the size of the text.
pub fn values_text(alloc: Global, list: &[i128]) -> Result<Vec<u8>, NoMemory>
    ensures { IfOk result (λ text. text.items ≡ written.vector_text list.now) }
{
    let mut text = reserve(alloc, list_size(list))?;
    append_front(&mut text, list.len() as u64);
    append_list(&mut text, list);
    Ok(text)
}

// How many bytes the text of values takes.
fn list_size(list: &[i128]) -> usize
    ensures { result ≡ size_of (written.vector_text list.now) }
{
    let mut size = front_size(list.len() as u64);
    for value in list {
        size = size.saturating_add(width(*value) + 1);
    }
    size
}

// Adds the values of a list.
fn append_list(text: &mut Vec<u8>, list: &[i128])
    requires { length (text.old.items ++ values_text list.now) ≤ vec_capacity text.old }
    ensures items { text.new.items ≡ text.old.items ++ values_text list.now }
    ensures room { vec_capacity text.old ≤ vec_capacity text.new }
{
    for value in list {
        append_value(text, *value);
    }
}

/// The text of a right side, in units of 2^-32: after the banner and a comment that names the unit the line `rows 1`,
/// and then a value a line.
///
/// The text is written into one buffer, which is taken once with just the size of the text.
pub fn vector_text(alloc: Global, rows: &Rows) -> Result<Vec<u8>, NoMemory>
    ensures { IfOk result (λ text. text.items ≡ written.vector_text (right_sides rows.now)) }
{
    let mut text = reserve(alloc, vector_size(rows))?;
    append_front(&mut text, rows.size() as u64);
    append_values(&mut text, rows);
    Ok(text)
}

// How many bytes the text of a right side takes.
fn vector_size(rows: &Rows) -> usize
    ensures { result ≡ size_of (written.vector_text (right_sides rows.now)) }
{
    let mut size = front_size(rows.size() as u64);
    for i in 0..rows.size() {
        size = size.saturating_add(width(right_side(rows, i)) + 1);
    }
    size
}

// Adds the first lines.
#[tactic(auto, unfolding(crate::specs::Texts::vector_front))]
fn append_front(text: &mut Vec<u8>, size: u64)
    requires { length (text.old.items ++ text_of (written.vector_front size)) ≤ vec_capacity text.old }
    ensures items { text.new.items ≡ text.old.items ++ text_of (written.vector_front size) }
    ensures room { vec_capacity text.old ≤ vec_capacity text.new }
{
    append(text, HEAD);
    append_size(text, size);
}

// Adds the size line.
fn append_size(text: &mut Vec<u8>, size: u64)
    requires { length (text.old.items ++ text_of (vector_size_line size ∷ [])) ≤ vec_capacity text.old }
    ensures items { text.new.items ≡ text.old.items ++ text_of (vector_size_line size ∷ []) }
    ensures room { vec_capacity text.old ≤ vec_capacity text.new }
{
    append_number(text, size, b" 1\n");
}

// How many bytes the first lines take.
#[tactic(auto, unfolding(crate::specs::Texts::vector_front))]
fn front_size(size: u64) -> usize
    ensures value { result ≡ length (text_of (written.vector_front size)) }
    ensures few { result ≤ 300 }
{
    HEAD.len() + digits(size as u128) + 3
}

// Adds the values.
fn append_values(text: &mut Vec<u8>, rows: &Rows)
    requires { length (text.old.items ++ values_text (right_sides rows.now)) ≤ vec_capacity text.old }
    ensures items { text.new.items ≡ text.old.items ++ values_text (right_sides rows.now) }
    ensures room { vec_capacity text.old ≤ vec_capacity text.new }
{
    for i in 0..rows.size() {
        append_value(text, right_side(rows, i));
    }
}

// The right side of a row.
fn right_side(rows: &Rows, i: u32) -> i128
    requires { i < length rows.now }
    ensures { result ≡ slice_index_or (right_sides rows.now) i (pos 0) }
{
    rows.get(i).rhs
}

// Adds a value.
fn append_value(text: &mut Vec<u8>, value: i128)
    requires { length (text.old.items ++ text_of (signed_decimal value ∷ [])) ≤ vec_capacity text.old }
    ensures items { text.new.items ≡ text.old.items ++ text_of (signed_decimal value ∷ []) }
    ensures room { vec_capacity text.old ≤ vec_capacity text.new }
{
    append_number(text, value, b"\n");
}
