ghost use Rattle.std.specs.Prelude.{◌≡◌, [], Ok, IfOk, IfErr, OnOk};
ghost use Rattle.std.specs.List.{slice_get};
ghost use Rattle.fem_text.specs.WordLines.{behind};
ghost use Rattle.fem_text.specs.Reading.{outcome, IsFault};
ghost use Rattle.msh_read.specs.Format.{format_line};
ghost use Rattle.msh_read.specs.Sections.{FaultInSection};
ghost use Rattle.msh_read.specs.Msh.{format_section, HasFormat, after_format};

use crate::sections::{end_section, open_section};
use crate::{MshFault, MshKind};
use fem_text::{LineWords, WordLines, at_line, exactly, id_at, this_word};

/// Reads the section of the format.
pub(crate) fn read_format(lines: &mut WordLines) -> Result<(), MshFault>
    ensures ok { OnOk result (HasFormat lines.old) }
    ensures lines { OnOk result (lines.new ≡ after_format lines.old) }
    ensures err { IfErr result (λ fault. FaultInSection format_section lines.old fault.kind fault.line) }
{
    open_section(lines, b"$MeshFormat")?;
    read_format_line(lines)?;
    end_section(lines, b"$EndMeshFormat")?;
    Ok(())
}

// Reads the line of the format.
fn read_format_line(lines: &mut WordLines) -> Result<(), MshFault>
    ensures ok { OnOk result (outcome MshKind.TooFew format_line (slice_get lines.old.ahead 0) ≡ Ok 0) }
    ensures lines { OnOk result (lines.new ≡ behind 1 lines.old) }
    ensures err { IfErr result (λ fault. IsFault MshKind.TooFew format_line lines.old 0 fault.kind fault.line) }
{
    let line = lines.expect(MshKind::TooFew)?;
    at_line(format_line(&LineWords::of(&line)), &line)?;
    Ok(())
}

// No rows follow, so a format gives 0.
#[tactic(auto, unfolding(crate::specs::Format::format_line))]
fn format_line(words: &LineWords) -> Result<u32, MshKind>
    ensures value { result ≡ format_line words.now }
    ensures none { IfOk result (λ count. count ≡ 0) }
{
    exactly(3, MshKind::Format, words)?;
    this_word(MshKind::Format, b"2.2", words, 0)?;
    this_word(MshKind::Format, b"0", words, 1)?;
    id_at(MshKind::Format, words, 2)?;
    Ok(0)
}
