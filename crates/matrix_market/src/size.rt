ghost use Rattle.std.specs.Prelude.{◌≡◌, ◌≤◌, Ok, IfOk, IfErr, OnOk};
ghost use Rattle.std.specs.List.{slice_get};
ghost use Rattle.fem_text.specs.WordLines.{behind, behind_comments};
ghost use Rattle.fem_text.specs.Reading.{outcome, IsFault};
ghost use Rattle.matrix_market.specs.Lines as expected;

use crate::values::read_count;
use crate::{MarketFault, MarketKind};
use fem_text::{LineWords, WordLines, at_line, exactly, id_at, this_word};

/// How many rows, columns and entries a matrix has.
#[derive(Clone, Copy)]
pub(crate) struct MatrixSize {
    pub(crate) rows: u32,
    pub(crate) columns: u32,
    pub(crate) count: u32,
}

/// Reads the size line of a matrix, behind the lines that begin with `%`.
pub(crate) fn read_matrix_size(lines: &mut WordLines) -> Result<MatrixSize, MarketFault>
    ensures ok { IfOk result (λ size. outcome MarketKind.TooFew expected.matrix_size (slice_get (behind_comments 37 lines.old).ahead 0) ≡ Ok size) }
    ensures lines { OnOk result (lines.new ≡ behind 1 (behind_comments 37 lines.old)) }
    ensures err { IfErr result (λ fault. IsFault MarketKind.TooFew expected.matrix_size (behind_comments 37 lines.old) 0 fault.kind fault.line) }
{
    let line = lines.expect_behind_comments(b'%', MarketKind::TooFew)?;
    at_line(matrix_size(&LineWords::of(&line)), &line)
}

#[tactic(auto, unfolding(crate::specs::Lines::matrix_size))]
fn matrix_size(words: &LineWords) -> Result<MatrixSize, MarketKind>
    ensures { result ≡ expected.matrix_size words.now }
{
    exactly(3, MarketKind::Size, words)?;
    let rows = id_at(MarketKind::Size, words, 0)?;
    let columns = id_at(MarketKind::Size, words, 1)?;
    let Some(word) = words.word(2) else {
        return Err(MarketKind::Size);
    };
    match read_count(word) {
        Some(count) => Ok(MatrixSize {
            rows,
            columns,
            count,
        }),
        None => Err(MarketKind::Size),
    }
}

/// Reads the size line of a right side, behind the lines that begin with `%`: how many values it has.
pub(crate) fn read_vector_size(lines: &mut WordLines) -> Result<u32, MarketFault>
    ensures ok { IfOk result (λ size. outcome MarketKind.TooFew expected.vector_size (slice_get (behind_comments 37 lines.old).ahead 0) ≡ Ok size) }
    ensures lines { OnOk result (lines.new ≡ behind 1 (behind_comments 37 lines.old)) }
    ensures err { IfErr result (λ fault. IsFault MarketKind.TooFew expected.vector_size (behind_comments 37 lines.old) 0 fault.kind fault.line) }
{
    let line = lines.expect_behind_comments(b'%', MarketKind::TooFew)?;
    at_line(vector_size(&LineWords::of(&line)), &line)
}

#[tactic(auto, unfolding(crate::specs::Lines::vector_size))]
fn vector_size(words: &LineWords) -> Result<u32, MarketKind>
    ensures { result ≡ expected.vector_size words.now }
{
    exactly(2, MarketKind::Size, words)?;
    let rows = id_at(MarketKind::Size, words, 0)?;
    this_word(MarketKind::Size, b"1", words, 1)?;
    Ok(rows)
}
