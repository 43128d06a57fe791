ghost use Rattle.std.specs.Prelude.{◌≡◌, [], OnOk, OnErr, IfErr};
ghost use Rattle.fem_text.specs.WordLines.{behind};
ghost use Rattle.matrix_market.specs.Lines as expected;
ghost use Rattle.matrix_market.specs.Market.{HasBanner, NoBanner, Follows};

use crate::{MarketFault, MarketKind};
use fem_text::{LineWords, WordLines, exactly, this_word};

const NO_BANNER: MarketFault = MarketFault {
    kind: MarketKind::Banner,
    line: 1,
};

/// Reads the banner, which stands on line 1.
pub(crate) fn read_banner(lines: &mut WordLines, format: &[u8]) -> Result<(), MarketFault>
    ensures ok { OnOk result (HasBanner format.now lines.old) }
    ensures lines { OnOk result (lines.new ≡ behind 1 lines.old) }
    ensures err { IfErr result (λ fault. NoBanner format.now lines.old fault.kind fault.line) }
{
    match lines.next_line() {
        Some(line) if line.number == 1 => match banner_line(format, &LineWords::of(&line)) {
            Ok(()) => Ok(()),
            Err(_) => Err(NO_BANNER),
        },
        _ => Err(NO_BANNER),
    }
}

#[tactic(auto, unfolding(crate::specs::Lines::banner_line))]
fn banner_line(format: &[u8], words: &LineWords) -> Result<(), MarketKind>
    ensures { result ≡ expected.banner_line format.now words.now }
{
    exactly(5, MarketKind::Banner, words)?;
    this_word(MarketKind::Banner, b"%%MatrixMarket", words, 0)?;
    this_word(MarketKind::Banner, b"matrix", words, 1)?;
    this_word(MarketKind::Banner, format, words, 2)?;
    this_word(MarketKind::Banner, b"integer", words, 3)?;
    this_word(MarketKind::Banner, b"general", words, 4)
}

/// Sees that no line follows.
pub(crate) fn read_end(lines: &mut WordLines) -> Result<(), MarketFault>
    ensures ok { OnOk result (lines.old.ahead ≡ []) }
    ensures err { IfErr result (λ fault. Follows lines.old fault.kind fault.line) }
{
    match lines.next_line() {
        Some(line) => Err(MarketFault {
            kind: MarketKind::Entry,
            line: line.number,
        }),
        None => Ok(()),
    }
}
