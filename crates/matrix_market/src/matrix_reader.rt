ghost use Rattle.std.specs.Prelude.{◌≡◌, ◌≤◌, length, Ok, IfOk, IfErr, OnOk};
ghost use Rattle.std.specs.List.{slice_get};
ghost use Rattle.fem_text.specs.WordLines.{behind};
ghost use Rattle.fem_text.specs.Reading.{outcome, IsFault, ReadsAll, FailsFirst};
ghost use Rattle.matrix_market.specs.Lines as expected;
ghost use Rattle.matrix_market.specs.Market.{MatrixText, MatrixFaultAt, NoMemoryOr};

use crate::banner::{read_banner, read_end};
use crate::push::push;
use crate::size::{MatrixSize, read_matrix_size};
use crate::triples::Triples;
use crate::words::{index_at, value_at};
use crate::{MarketFault, MarketKind};
use fem_text::{LineWords, WordLines, at_line, exactly};
use std::alloc::Global;

/// The matrix of a text in the coordinate format of whole numbers: the words
/// `%%MatrixMarket matrix coordinate integer general` on line 1, comments that begin with `%`, the line
/// `rows columns entries`, and a line `i j v` for each entry, in any order, with i and j from 1. Blank lines may stand
/// anywhere behind line 1.
///
/// The text has at most 4,294,967,294 bytes. An error is the first fault of the text, or that memory ran out.
pub fn read_matrix(alloc: Global, text: &[u8]) -> Result<Triples, MarketFault>
    requires { length text.now ≤ 4294967294 }
    ensures ok { IfOk result (λ matrix. MatrixText text.now matrix) }
    ensures err { IfErr result (λ fault. NoMemoryOr fault (MatrixFaultAt text.now fault.kind fault.line)) }
{
    let mut lines = WordLines::new(text, None);
    read_banner(&mut lines, b"coordinate")?;
    let size = read_matrix_size(&mut lines)?;
    let entries = read_entries(alloc, &mut lines, size)?;
    read_end(&mut lines)?;
    Ok(Triples::new(size.rows, size.columns, entries))
}

// Reads the entry lines.
fn read_entries(
    alloc: Global,
    lines: &mut WordLines,
    size: MatrixSize,
) -> Result<Vec<(u32, u32, i128)>, MarketFault>
    ensures ok { IfOk result (λ entries. ReadsAll MarketKind.TooFew (λ before. expected.matrix_entry size) lines.old size.count entries.items) }
    ensures lines { OnOk result (lines.new ≡ behind size.count lines.old) }
    ensures err { IfErr result (λ fault. NoMemoryOr fault (FailsFirst MarketKind.TooFew (λ before. expected.matrix_entry size) lines.old size.count fault.kind fault.line)) }
{
    let mut entries = Vec::new(alloc);
    for _ in 0..size.count {
        let entry = read_entry(lines, size)?;
        push(&mut entries, entry)?;
    }
    Ok(entries)
}

// Reads an entry line.
fn read_entry(lines: &mut WordLines, size: MatrixSize) -> Result<(u32, u32, i128), MarketFault>
    ensures ok { IfOk result (λ entry. outcome MarketKind.TooFew (expected.matrix_entry size) (slice_get lines.old.ahead 0) ≡ Ok entry) }
    ensures lines { OnOk result (lines.new ≡ behind 1 lines.old) }
    ensures err { IfErr result (λ fault. IsFault MarketKind.TooFew (expected.matrix_entry size) lines.old 0 fault.kind fault.line) }
{
    let line = lines.expect(MarketKind::TooFew)?;
    at_line(matrix_entry(size, &LineWords::of(&line)), &line)
}

#[tactic(auto, unfolding(crate::specs::Lines::matrix_entry))]
fn matrix_entry(size: MatrixSize, words: &LineWords) -> Result<(u32, u32, i128), MarketKind>
    ensures { result ≡ expected.matrix_entry size words.now }
{
    exactly(3, MarketKind::Entry, words)?;
    let row = index_at(size.rows, words, 0)?;
    let column = index_at(size.columns, words, 1)?;
    let value = value_at(words, 2)?;
    Ok((row, column, value))
}
