ghost use Rattle.std.specs.Prelude.{◌≡◌, ◌≤◌, Ok, IfOk, IfErr, OnOk};
ghost use Rattle.std.specs.List.{slice_get};
ghost use Rattle.fem_text.specs.WordLines.{behind};
ghost use Rattle.fem_text.specs.Reading.{outcome, IsFault};
ghost use Rattle.msh_read.specs.Format.{count_line};
ghost use Rattle.msh_read.specs.Others.{behind_others};
ghost use Rattle.msh_read.specs.Sections.{first_is};

use crate::others::expect_behind_others;
use crate::{MshFault, MshKind};
use fem_text::{LineWords, WordLines, at_line, exactly, id_at, this_word};

/// Reads the line that opens a section, behind the sections that are passed over.
pub(crate) fn open_section(lines: &mut WordLines, opening: &[u8]) -> Result<(), MshFault>
    ensures ok { OnOk result (outcome MshKind.TooFew (first_is opening.now) (slice_get (behind_others lines.old).ahead 0) ≡ Ok tt) }
    ensures lines { OnOk result (lines.new ≡ behind 1 (behind_others lines.old)) }
    ensures err { IfErr result (λ fault. IsFault MshKind.TooFew (first_is opening.now) (behind_others lines.old) 0 fault.kind fault.line) }
{
    let line = expect_behind_others(lines)?;
    at_line(
        this_word(MshKind::Section, opening, &LineWords::of(&line), 0),
        &line,
    )
}

/// Reads the line that ends a section.
pub(crate) fn end_section(lines: &mut WordLines, ending: &[u8]) -> Result<(), MshFault>
    ensures ok { OnOk result (outcome MshKind.TooFew (first_is ending.now) (slice_get lines.old.ahead 0) ≡ Ok tt) }
    ensures lines { OnOk result (lines.new ≡ behind 1 lines.old) }
    ensures err { IfErr result (λ fault. IsFault MshKind.TooFew (first_is ending.now) lines.old 0 fault.kind fault.line) }
{
    let line = lines.expect(MshKind::TooFew)?;
    at_line(
        this_word(MshKind::Section, ending, &LineWords::of(&line), 0),
        &line,
    )
}

/// Reads the line that tells how many rows follow, which may be at most so many.
pub(crate) fn read_count(lines: &mut WordLines, limit: u32) -> Result<u32, MshFault>
    ensures ok { IfOk result (λ count. outcome MshKind.TooFew (count_line limit) (slice_get lines.old.ahead 0) ≡ Ok count) }
    ensures few { IfOk result (λ count. count ≤ limit) }
    ensures lines { OnOk result (lines.new ≡ behind 1 lines.old) }
    ensures err { IfErr result (λ fault. IsFault MshKind.TooFew (count_line limit) lines.old 0 fault.kind fault.line) }
{
    let line = lines.expect(MshKind::TooFew)?;
    at_line(count_line(limit, &LineWords::of(&line)), &line)
}

#[tactic(auto, unfolding(crate::specs::Format::count_line))]
fn count_line(limit: u32, words: &LineWords) -> Result<u32, MshKind>
    ensures value { result ≡ count_line limit words.now }
    ensures few { IfOk result (λ count. count ≤ limit) }
{
    exactly(1, MshKind::Section, words)?;
    let count = id_at(MshKind::Section, words, 0)?;
    if count <= limit {
        Ok(count)
    } else {
        Err(MshKind::Limit)
    }
}
