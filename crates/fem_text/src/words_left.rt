ghost use Rattle.std.specs.Prelude.{◌≡◌, drop, MatchOption, [], ◌∷◌};
ghost use Rattle.fem_text.specs.Lines.{words_of};

use crate::blanks::{split_at_blank, without_blanks};
use crate::{LineWords, TextLine};
use std::marker::Model;

/// The words of a line that are left, of any number, taken one after another. Contracts see the list of them.
#[derive(Drop)]
pub struct WordsLeft<'a> {
    left: &'a [u8],
}

impl<'a> Model for WordsLeft<'a> {
    ghost use Rattle.std.specs.Prelude.{ℕ, List};
    ghost use Rattle.fem_text.specs.Lines.{words_of};

    ghost Value = { List (List ℕ) };

    ghost view = { λ words. words_of words.left.now };
}

impl<'a> WordsLeft<'a> {
    /// All words of this line.
    pub fn of(line: &TextLine<'a>) -> Self
        ensures { result ≡ words_of line.now.bytes.now }
    {
        WordsLeft { left: line.bytes }
    }

    /// The words behind the first `count` ones.
    pub fn behind(words: &LineWords<'a>, count: u32) -> Self
        ensures { result ≡ drop count words.now }
    {
        let mut left = WordsLeft::of(&words.line());
        for _ in 0..count {
            left.next_word();
        }
        left
    }

    /// Takes the first of the words that are left, or nothing at the end of the line.
    pub fn next_word(&mut self) -> Option<&'a [u8]>
        ensures { MatchOption result ((self.old ≡ []) × (self.new ≡ [])) (λ word. self.old ≡ word.now ∷ self.new) }
    {
        let line = without_blanks(self.left);
        if line.is_empty() {
            self.left = line;
            return None;
        }
        let (word, left) = split_at_blank(line);
        self.left = left;
        Some(word)
    }
}
