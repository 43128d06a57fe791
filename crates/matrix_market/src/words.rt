ghost use Rattle.std.specs.Prelude.{◌≡◌, ◌<◌, Ok, IfOk, IfErr, OnOk};
ghost use Rattle.matrix_market.specs.Lines as expected;

use crate::MarketKind;
use crate::values::read_value;
use fem_text::{LineWords, id_at};

/// The index that stands at a place, from 0; in the text it counts from 1.
#[tactic(auto, unfolding(crate::specs::Lines::index_at))]
pub(crate) fn index_at(size: u32, words: &LineWords, place: u32) -> Result<u32, MarketKind>
    ensures { result ≡ expected.index_at size words.now place }
{
    let index = id_at(MarketKind::Entry, words, place)?;
    if 0 < index && index <= size {
        Ok(index - 1)
    } else {
        Err(MarketKind::Entry)
    }
}

/// The value that stands at a place.
#[tactic(auto, unfolding(crate::specs::Lines::value_at))]
pub(crate) fn value_at(words: &LineWords, place: u32) -> Result<i128, MarketKind>
    ensures { result ≡ expected.value_at words.now place }
{
    let Some(word) = words.word(place) else {
        return Err(MarketKind::Entry);
    };
    read_value(word).ok_or(MarketKind::Entry)
}
