ghost use Rattle.std.specs.Prelude.{◌≡◌};
ghost use Rattle.std.specs.Option.{option_copied};
ghost use Rattle.run_words.specs.Values.{format_of, faces_of};
ghost use Rattle.run_words.specs.Reading.{number_of, number_within, name_of, read_or};

use crate::{Faces, Format};

/// The number of a word of one to twenty decimal digits. Leading zeros are allowed, and a sign is not.
fn number_of(word: &str) -> Option<u128>
    ensures { result ≡ number_of word.now }
{
    let digits = word.as_bytes();
    if digits.is_empty() || digits.len() > 20 {
        return None;
    }
    let mut value: u128 = 0;
    for digit in digits {
        if !digit.is_ascii_digit() {
            return None;
        }
        value = value * 10 + (*digit - b'0') as u128;
    }
    Some(value)
}

/// The number of a word, from a least one to a greatest.
pub(crate) fn number_within(word: &str, least: u64, greatest: u64) -> Option<u64>
    ensures { result ≡ number_within least greatest word.now }
{
    let number = number_of(word)?;
    if least as u128 <= number && number <= greatest as u128 {
        Some(number as u64)
    } else {
        None
    }
}

/// The number of a value, from a least one to a greatest, or the default where there is none.
pub(crate) fn number_or(default: u32, least: u32, greatest: u32, value: Option<&str>) -> Option<u32>
    ensures { result ≡ read_or default (number_within least greatest) (option_copied value.entry) }
{
    match value {
        Some(word) => {
            let number = number_within(word, least as u64, greatest as u64)?;
            Some(number as u32)
        }
        None => Some(default),
    }
}

/// The word, where it is a name: not empty, and without `-` at the front, but for `-` alone.
pub(crate) fn name_of(word: &str) -> Option<&str>
    ensures { option_copied result ≡ name_of word.now }
{
    if word.is_empty() {
        return None;
    }
    if word.starts_with("-") && word != "-" {
        return None;
    }
    Some(word)
}

#[tactic(auto, unfolding(crate::specs::Values::format_of))]
pub(crate) fn format_of(word: &str) -> Option<Format>
    ensures { result ≡ format_of word.now }
{
    if word == "ucd" {
        return Some(Format::Ucd);
    }
    if word == "msh" {
        return Some(Format::Msh);
    }
    None
}

#[tactic(auto, unfolding(crate::specs::Values::faces_of))]
pub(crate) fn faces_of(word: &str) -> Option<Faces>
    ensures { result ≡ faces_of word.now }
{
    if word == "none" {
        return Some(Faces::None);
    }
    if word == "once" {
        return Some(Faces::Once);
    }
    if word == "both" {
        return Some(Faces::Both);
    }
    None
}
