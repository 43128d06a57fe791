ghost use Rattle.std.specs.Prelude.{◌≡◌, ◌<◌, ◌≤◌, ◌^◌, length, IfOk, IfErr, Ok};
ghost use Rattle.fem_text.specs.Counts.{after_call};
ghost use Rattle.diagnostics.specs.Stages as stages;
ghost use Rattle.run_texts.specs.Texts.{text_limit, VectorIn};
ghost use Rattle.run_texts.specs.Read.{VectorUnder, EndsIn, is_read_fault};

use crate::endings::vector_text_ending;
use crate::read::read_text;
use diagnostics::{Ending, Role};
use fem_text::Store;
use matrix_market::{Values, read_vector};
use std::alloc::Global;

/// The values of the text of a vector under a name, in the array format of Matrix Market.
///
/// # Errors
///
/// `Refused` for a text that the store tells is absent, is above 268,435,456 bytes or has a fault, and `ReadFault` where
/// the read failed.
pub fn read_vector_text<S: Store>(
    alloc: Global,
    name: &str,
    store: &mut S,
) -> Result<Values, Ending>
    ensures ok { IfOk result (λ values. VectorUnder (S.holds store.old) name.now (Ok values)) }
    ensures few { IfOk result (λ values. length values < 2 ^ 32) }
    ensures ends { IfErr result (EndsIn Role.Vector (VectorUnder (S.holds store.old) name.now)) }
    ensures same { S.holds store.new ≡ S.holds store.old }
    ensures calls { S.counts store.new ≡ after_call (is_read_fault result) (S.counts store.old) }
{
    let text = match read_text(alloc, Role::Vector, name, store) {
        Ok(text) => text,
        Err(ending) => return Err(ending),
    };
    vector_in(alloc, text.as_slice())
}

// The values of a text.
#[tactic(auto, unfolding(crate::specs::Texts::text_limit), using(crate::proofs::Faults::vector_ends))]
fn vector_in(alloc: Global, text: &[u8]) -> Result<Values, Ending>
    requires { length text.now ≤ text_limit }
    ensures ok { IfOk result (λ values. VectorIn text.now (Ok values)) }
    ensures few { IfOk result (λ values. length values < 2 ^ 32) }
    ensures refused { IfErr result (stages.EndsIn (VectorIn text.now)) }
{
    match read_vector(alloc, text) {
        Ok(values) => Ok(values),
        Err(fault) => Err(vector_text_ending(fault)),
    }
}
