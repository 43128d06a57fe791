ghost use Rattle.std.specs.Prelude.{◌≡◌, ◌≤◌, ◌^◌, IfOk, IfErr, OnOk};
ghost use Rattle.ucd_read.specs.Header.{header_line};
ghost use Rattle.fem_text.specs.WordLines.{behind};
ghost use Rattle.ucd_read.specs.Comments.{from_header};
ghost use Rattle.fem_text.specs.Reading.{IsFault};
ghost use Rattle.ucd_read.specs.Ucd.{HasHeader};

use crate::{UcdFault, UcdKind};
use fem_text::{LineWords, WordLines, at_line, exactly, id_at};

const NODE_LIMIT: u32 = 1 << 20;

const CELL_LIMIT: u32 = 1 << 21;

/// How many nodes and cells a text has.
#[derive(Clone, Copy)]
pub struct Header {
    pub nodes: u32,
    pub cells: u32,
}

/// Reads the header, behind the comments.
pub(crate) fn read_header(lines: &mut WordLines) -> Result<Header, UcdFault>
    ensures ok { IfOk result (HasHeader (from_header lines.old)) }
    ensures nodes { IfOk result (λ header. header.nodes ≤ 2 ^ 20) }
    ensures cells { IfOk result (λ header. header.cells ≤ 2 ^ 21) }
    ensures lines { OnOk result (lines.new ≡ behind 1 (from_header lines.old)) }
    ensures err { IfErr result (λ fault. IsFault UcdKind.TooFew header_line (from_header lines.old) 0 fault.kind fault.line) }
{
    let line = lines.expect_behind_comments(b'#', UcdKind::TooFew)?;
    let words = LineWords::of(&line);
    at_line(header_line(&words), &line)
}

#[tactic(auto, unfolding(crate::specs::Header::header_line))]
pub(crate) fn header_line(words: &LineWords) -> Result<Header, UcdKind>
    ensures value { result ≡ header_line words.now }
    ensures nodes { IfOk result (λ header. header.nodes ≤ 2 ^ 20) }
    ensures cells { IfOk result (λ header. header.cells ≤ 2 ^ 21) }
{
    exactly(5, UcdKind::Header, words)?;
    let nodes = id_at(UcdKind::Header, words, 0)?;
    let cells = id_at(UcdKind::Header, words, 1)?;
    id_at(UcdKind::Header, words, 2)?;
    id_at(UcdKind::Header, words, 3)?;
    id_at(UcdKind::Header, words, 4)?;
    if nodes <= NODE_LIMIT && cells <= CELL_LIMIT {
        Ok(Header { nodes, cells })
    } else {
        Err(UcdKind::Limit)
    }
}
