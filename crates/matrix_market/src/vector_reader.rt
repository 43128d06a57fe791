ghost use Rattle.std.specs.Prelude.{◌≡◌, ◌≤◌, ◌<◌, ◌^◌, length, Ok, IfOk, IfErr, OnOk};
ghost use Rattle.std.specs.List.{slice_get};
ghost use Rattle.fem_text.specs.WordLines.{behind};
ghost use Rattle.fem_text.specs.Reading.{outcome, IsFault, ReadsAll, FailsFirst};
ghost use Rattle.matrix_market.specs.Lines as expected;
ghost use Rattle.matrix_market.specs.Market.{VectorText, VectorFaultAt, NoMemoryOr};

use crate::banner::{read_banner, read_end};
use crate::push::push;
use crate::size::read_vector_size;
use crate::triples::Values;
use crate::words::value_at;
use crate::{MarketFault, MarketKind};
use fem_text::{LineWords, WordLines, at_line, exactly};
use std::alloc::Global;

/// The right side of a text in the array format of whole numbers: the words
/// `%%MatrixMarket matrix array integer general` on line 1, comments that begin with `%`, the line `rows 1`, and a value a
/// line. Blank lines may stand anywhere behind line 1.
///
/// The text has at most 4,294,967,294 bytes. An error is the first fault of the text, or that memory ran out.
pub fn read_vector(alloc: Global, text: &[u8]) -> Result<Values, MarketFault>
    requires { length text.now ≤ 4294967294 }
    ensures ok { IfOk result (λ values. VectorText text.now values) }
    ensures few { IfOk result (λ values. length values < 2 ^ 32) }
    ensures err { IfErr result (λ fault. NoMemoryOr fault (VectorFaultAt text.now fault.kind fault.line)) }
{
    let mut lines = WordLines::new(text, None);
    read_banner(&mut lines, b"array")?;
    let size = read_vector_size(&mut lines)?;
    let values = read_values(alloc, &mut lines, size)?;
    read_end(&mut lines)?;
    Ok(Values::from(values))
}

// Reads the lines of the values.
fn read_values(alloc: Global, lines: &mut WordLines, count: u32) -> Result<Vec<i128>, MarketFault>
    ensures ok { IfOk result (λ values. ReadsAll MarketKind.TooFew (λ before. expected.vector_entry) lines.old count values.items) }
    ensures lines { OnOk result (lines.new ≡ behind count lines.old) }
    ensures err { IfErr result (λ fault. NoMemoryOr fault (FailsFirst MarketKind.TooFew (λ before. expected.vector_entry) lines.old count fault.kind fault.line)) }
{
    let mut values = Vec::new(alloc);
    for _ in 0..count {
        let value = read_value_line(lines)?;
        push(&mut values, value)?;
    }
    Ok(values)
}

// Reads the line of a value.
fn read_value_line(lines: &mut WordLines) -> Result<i128, MarketFault>
    ensures ok { IfOk result (λ value. outcome MarketKind.TooFew expected.vector_entry (slice_get lines.old.ahead 0) ≡ Ok value) }
    ensures lines { OnOk result (lines.new ≡ behind 1 lines.old) }
    ensures err { IfErr result (λ fault. IsFault MarketKind.TooFew expected.vector_entry lines.old 0 fault.kind fault.line) }
{
    let line = lines.expect(MarketKind::TooFew)?;
    at_line(vector_entry(&LineWords::of(&line)), &line)
}

#[tactic(auto, unfolding(crate::specs::Lines::vector_entry))]
fn vector_entry(words: &LineWords) -> Result<i128, MarketKind>
    ensures { result ≡ expected.vector_entry words.now }
{
    exactly(1, MarketKind::Entry, words)?;
    value_at(words, 0)
}
