ghost use Rattle.std.specs.Prelude.{◌≡◌, ◌<◌, ◌≤◌, ◌^◌, ◌++◌, vec_capacity, codes, length, drop, unsigned_abs};
ghost use Rattle.ucd_write.specs.Coordinates.{last_digits, minus, size_word, coordinate};

use fem_text::{append, append_number};
use itoa::Buffer;

/// How many units of 10^-16 a tick of 2^-16 is.
const TICK: u64 = 152_587_890_625;

/// Adds a coordinate and a blank.
#[tactic(auto, unfolding(crate::specs::Coordinates::coordinate))]
pub(crate) fn append_coordinate(text: &mut Vec<u8>, ticks: i64)
    requires few { unsigned_abs ticks ≤ 2 ^ 26 }
    requires room { length (text.old.items ++ (coordinate ticks ++ codes " ")) ≤ vec_capacity text.old }
    ensures items { text.new.items ≡ text.old.items ++ (coordinate ticks ++ codes " ") }
    ensures room { vec_capacity text.old ≤ vec_capacity text.new }
{
    append_minus(text, ticks < 0);
    append_size(text, ticks.unsigned_abs());
    append(text, b" ");
}

fn append_minus(text: &mut Vec<u8>, is_negative: bool)
    requires { length (text.old.items ++ minus is_negative) ≤ vec_capacity text.old }
    ensures items { text.new.items ≡ text.old.items ++ minus is_negative }
    ensures room { vec_capacity text.old ≤ vec_capacity text.new }
{
    if is_negative {
        append(text, b"-");
    }
}

#[tactic(auto, unfolding(crate::specs::Coordinates::size_word))]
fn append_size(text: &mut Vec<u8>, size: u64)
    requires few { size ≤ 2 ^ 26 }
    requires room { length (text.old.items ++ size_word size) ≤ vec_capacity text.old }
    ensures items { text.new.items ≡ text.old.items ++ size_word size }
    ensures room { vec_capacity text.old ≤ vec_capacity text.new }
{
    append_number(text, size / 65_536, b".");
    append_sixteen(text, size % 65_536 * TICK);
}

// Adds a number in sixteen digits.
fn append_sixteen(text: &mut Vec<u8>, number: u64)
    requires few { number < 10 ^ 16 }
    requires room { length (text.old.items ++ last_digits 16 number) ≤ vec_capacity text.old }
    ensures items { text.new.items ≡ text.old.items ++ last_digits 16 number }
    ensures room { vec_capacity text.old ≤ vec_capacity text.new }
{
    let mut buffer = Buffer::new();
    // The digit before the sixteen keeps the leading zeros.
    let digits = buffer.format(10_000_000_000_000_000 + number).as_bytes();
    append(text, without_first(digits));
}

fn without_first(word: &[u8]) -> &[u8]
    requires { 1 ≤ length word.now }
    ensures { result.now ≡ drop 1 word.now }
{
    &word[1..]
}
