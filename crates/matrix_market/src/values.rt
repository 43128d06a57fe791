ghost use Rattle.std.specs.Prelude.{◌≡◌, ◌≤◌, ◌^◌, true, length, if◌then◌else◌, IfSome};
ghost use Rattle.std.specs.Char.{is_ascii_digit};
ghost use Rattle.std.specs.List.{list_all};
ghost use Rattle.fem_fixed.specs.Numbers.{digits_value};
ghost use Rattle.fem_fixed.specs.Ticks.{with_sign};
ghost use Rattle.matrix_market.specs.Values.{whole_of, count_of, greatest, value_of};

/// The greatest size of a number of 128 bits.
const GREATEST: u128 = 1 << 127;

/// The greatest number of entries of a matrix.
const ENTRIES_LIMIT: u128 = 33_554_432;

/// How many entries a matrix has.
#[tactic(auto, unfolding(crate::specs::Values::count_of))]
pub(crate) fn read_count(word: &[u8]) -> Option<u32>
    ensures value { result ≡ count_of word.now }
    ensures few { IfSome result (λ count. count ≤ 33554432) }
{
    let count = read_whole(word, 20, ENTRIES_LIMIT)?;
    Some(count as u32)
}

/// The value of an entry.
#[tactic(auto, unfolding(crate::specs::Values::value_of))]
pub(crate) fn read_value(word: &[u8]) -> Option<i128>
    ensures { result ≡ value_of word.now }
{
    match word {
        [b'-', digits @ ..] => Some(negative(read_whole(digits, 39, GREATEST)?)),
        _ => Some(read_whole(word, 39, GREATEST - 1)? as i128),
    }
}

fn negative(size: u128) -> i128
    requires { size ≤ 2 ^ 127 }
    ensures { result ≡ with_sign true size }
{
    if size == GREATEST {
        i128::MIN
    } else {
        -(size as i128)
    }
}

// The value of at most so many digits, where it is at most this limit.
#[tactic(auto, unfolding(crate::specs::Values::whole_of))]
fn read_whole(word: &[u8], most: usize, limit: u128) -> Option<u128>
    requires most { most ≤ 39 }
    requires limit { limit ≤ 2 ^ 127 }
    ensures value { result ≡ whole_of most limit word.now }
    ensures within { IfSome result (λ value. value ≤ limit) }
{
    let [front @ .., last] = word else {
        return None;
    };
    if word.len() > most || !last.is_ascii_digit() {
        return None;
    }
    let tens = read_digits(front)?;
    // A greater one has a value above the limit with any last digit.
    if tens > GREATEST / 10 {
        return None;
    }
    let value = tens * 10 + (*last - b'0') as u128;
    if value <= limit { Some(value) } else { None }
}

// The value of digits, where each byte is one.
fn read_digits(word: &[u8]) -> Option<u128>
    requires { length word.now ≤ 38 }
    ensures { result ≡ (if list_all is_ascii_digit word.now then Some (digits_value word.now) else None) }
{
    let mut value: u128 = 0;
    for byte in word {
        if !byte.is_ascii_digit() {
            return None;
        }
        value = value * 10 + (*byte - b'0') as u128;
    }
    Some(value)
}
