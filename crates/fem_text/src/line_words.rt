ghost use Rattle.std.specs.Prelude.{◌≡◌, slice_get};
ghost use Rattle.std.specs.Option.{option_copied};
ghost use Rattle.fem_text.specs.Lines.{words_of};

use crate::TextLine;
use crate::blanks::split_at_blank;
use std::marker::Model;

// How many words are kept.
const KEPT: usize = 8;

/// The words of a line, of which the first eight are found in one pass. Contracts see the list of all words.
#[derive(Drop)]
pub struct LineWords<'a> {
    line: TextLine<'a>,
    first: [&'a [u8]; 8],
    count: usize,
}

impl<'a> Model for LineWords<'a> {
    ghost use Rattle.std.specs.Prelude.{ℕ, List};
    ghost use Rattle.fem_text.specs.Lines.{words_of};
    ghost use Rattle.fem_text.specs.LineWords.{AreFirst};

    ghost Value = { List (List ℕ) };

    ghost view = { λ words. words_of words.line.bytes.now };

    ghost invariant = { λ words. AreFirst (words_of words.line.bytes.now) words.first words.count };
}

impl<'a> LineWords<'a> {
    /// The words of this line.
    pub fn of(line: &TextLine<'a>) -> Self
        ensures { result ≡ words_of line.now.bytes.now }
    {
        let bytes = line.bytes;
        let mut first = [bytes; 8];
        let mut count = 0;
        let mut left = bytes;
        while count < KEPT && !left.is_empty() {
            let (part, rest) = split_at_blank(left);
            left = rest;
            if !part.is_empty() {
                first[count] = part;
                count += 1;
            }
        }
        LineWords {
            line: *line,
            first,
            count,
        }
    }

    /// Word number `place`, counted from 0, where there are more words than that. Behind the first eight, the line is
    /// passed over anew.
    pub fn word(&self, place: u32) -> Option<&'a [u8]>
        ensures { option_copied result ≡ slice_get self.now place }
    {
        if (place as usize) < self.count {
            return Some(self.first[place as usize]);
        }
        if self.count < KEPT {
            return None;
        }
        self.line.word(place)
    }

    /// The line that the words stand on.
    pub fn line(&self) -> TextLine<'a>
        ensures { words_of result.bytes.now ≡ self.now }
    {
        self.line
    }
}
