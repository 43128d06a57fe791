ghost use Rattle.std.specs.Prelude.{◌≡◌, ◌≤◌, ◌+◌, length, [], None};
ghost use Rattle.fem_text.specs.WordLines.{lines_from, text_lines, counts, has_words, starts_with, is_comment, behind_comments};
ghost use Rattle.fem_text.specs.LineSteps.{TakesAny, TakesNext};

use crate::{TextFault, TextLine, TextLines};
use std::marker::Model;

/// The lines of a text that have words and are no comments, one after another.
#[derive(Drop)]
pub struct WordLines<'a> {
    lines: TextLines<'a>,
    read: u32,
    comments: Option<u8>,
}

impl<'a> Model for WordLines<'a> {
    ghost use Rattle.std.specs.Prelude.{◌≡◌, ◌+◌, ◌≤◌, length};
    ghost use Rattle.fem_text.specs.WordLines.{Lines, lines_from};

    ghost Value = { Lines };

    ghost view = { λ w. lines_from w.comments w.read w.lines.rest };

    ghost invariant = { λ w. (w.read ≡ w.lines.read) × (w.read + length w.lines.rest ≤ 4294967294) };
}

impl<'a> WordLines<'a> {
    /// The lines of this text that count, from the first one on: those with words, without the ones that begin
    /// with the byte of comments, if any.
    pub fn new(text: &'a [u8], comments: Option<u8>) -> Self
        requires { length text.now ≤ 4294967294 }
        ensures { result ≡ text_lines comments text.now }
    {
        WordLines {
            lines: TextLines::new(text),
            read: 0,
            comments,
        }
    }

    /// The next line that counts, or nothing at the end of the text.
    pub fn next_line(&mut self) -> Option<TextLine<'a>>
        ensures { TakesAny self.old result self.new }
    {
        next_counted(self.comments, &mut self.lines, &mut self.read)
    }

    /// The next line that counts, or this kind of fault where the text ends before it, at the number of lines
    /// plus one.
    pub fn expect<K: Copy>(&mut self, too_few: K) -> Result<TextLine<'a>, TextFault<K>>
        ensures { TakesNext too_few self.old result self.new }
    {
        let Some(line) = next_counted(self.comments, &mut self.lines, &mut self.read) else {
            return Err(TextFault {
                kind: too_few,
                line: self.read + 1,
            });
        };
        Ok(line)
    }

    /// The same, behind the lines that begin with this byte, which are passed over.
    pub fn expect_behind_comments<K: Copy>(
        &mut self,
        mark: u8,
        too_few: K,
    ) -> Result<TextLine<'a>, TextFault<K>>
        ensures { TakesNext too_few (behind_comments mark self.old) result self.new }
    {
        let mut line = self.expect(too_few)?;
        while starts_with(mark, &line) {
            line = self.expect(too_few)?;
        }
        Ok(line)
    }
}

// The next line that counts. The last argument counts the lines that were read.
fn next_counted<'a>(
    comments: Option<u8>,
    lines: &mut TextLines<'a>,
    read: &mut u32,
) -> Option<TextLine<'a>>
    requires read { read.old ≡ lines.old.read }
    requires whole { read.old + length lines.old.rest ≤ 4294967294 }
    ensures taken { TakesAny (lines_from comments read.old lines.old.rest) result (lines_from comments read.new lines.new.rest) }
    ensures ended { result ≡ None → lines.new.rest ≡ [] }
    ensures read { read.new ≡ lines.new.read }
    ensures whole { read.new + length lines.new.rest ≡ read.old + length lines.old.rest }
{
    while let Some(line) = lines.next() {
        *read = line.number;
        if counts(comments, &line) {
            return Some(line);
        }
    }
    None
}

fn counts(comments: Option<u8>, line: &TextLine) -> bool
    ensures { result ≡ counts comments line.now.bytes.now }
{
    has_words(line) && !is_comment(comments, line)
}

fn has_words(line: &TextLine) -> bool
    ensures { result ≡ has_words line.now.bytes.now }
{
    line.word(0).is_some()
}

fn is_comment(comments: Option<u8>, line: &TextLine) -> bool
    ensures { result ≡ is_comment comments line.now.bytes.now }
{
    match comments {
        Some(mark) => starts_with(mark, line),
        None => false,
    }
}

fn starts_with(mark: u8, line: &TextLine) -> bool
    ensures { result ≡ starts_with mark line.now.bytes.now }
{
    match line.bytes {
        [first, ..] => *first == mark,
        [] => false,
    }
}
