ghost use Rattle.std.specs.Prelude.{◌≡◌, ◌≤◌, ◌∷◌, [], length, decimal};
ghost use Rattle.std.specs.Fmt.{signed_decimal};
ghost use Rattle.fem_text.specs.Written.{text_of};
ghost use Rattle.matrix_market.specs.Texts.{size_line, entry_line, pair_line};

/// How many digits a number has.
pub(crate) fn digits(number: u128) -> usize
    ensures value { result ≡ length (decimal number) }
    ensures few { result ≤ 39 }
{
    match number.checked_ilog10() {
        Some(power) => power as usize + 1,
        None => 1,
    }
}

/// How many bytes a value takes.
pub(crate) fn width(value: i128) -> usize
    ensures value { result ≡ length (signed_decimal value) }
    ensures few { result ≤ 40 }
{
    let digits = digits(value.unsigned_abs());
    if value < 0 { digits + 1 } else { digits }
}

/// How many bytes the size line of a square matrix takes.
pub(crate) fn size_line_size(size: u32, count: u64) -> usize
    ensures value { result ≡ length (text_of (size_line size count ∷ [])) }
    ensures few { result ≤ 200 }
{
    2 * digits(size as u128) + digits(count as u128) + 3
}

/// How many bytes an entry takes.
pub(crate) fn entry_size(row: u32, column: u32, value: i128) -> usize
    ensures { result ≡ length (text_of (entry_line (row, column, value) ∷ [])) }
{
    digits(row as u128 + 1) + digits(column as u128 + 1) + width(value) + 3
}

/// How many bytes a pair takes.
pub(crate) fn pair_size(row: u32, column: u32) -> usize
    ensures { result ≡ length (text_of (pair_line row column ∷ [])) }
{
    digits(row as u128 + 1) + digits(column as u128 + 1) + 2
}
