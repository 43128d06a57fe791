ghost use Rattle.std.specs.Prelude.{◌≡◌};
ghost use Rattle.mesh_nodes.specs.Words.{coordinate_at, height_at};

use fem_fixed::{NumberFault, read_number};
use fem_text::{LineWords, number_at};

/// The greatest size of a coordinate, in ticks of 2^-16.
const COORDINATE_LIMIT: u64 = 1 << 26;

/// The coordinate at a place, counted from 0, in ticks of 2^-16. The error is `kind` where no number stands there, or one
/// above 2^26 ticks in size.
pub fn coordinate_at<K: Copy>(kind: K, words: &LineWords, place: u32) -> Result<i64, K>
    ensures { result ≡ coordinate_at kind words.now place }
{
    number_at(kind, COORDINATE_LIMIT, words, place)
}

/// Whether a number of any size stands at a place, counted from 0: a coordinate that isn't used. The error is `kind`.
#[tactic(auto, unfolding(crate::specs::Words::height_at))]
pub fn height_at<K: Copy>(kind: K, words: &LineWords, place: u32) -> Result<(), K>
    ensures { result ≡ height_at kind words.now place }
{
    let Some(word) = words.word(place) else {
        return Err(kind);
    };
    match read_number(word) {
        Err(NumberFault::Form) => Err(kind),
        _ => Ok(()),
    }
}
