ghost use Rattle.std.specs.Prelude.{◌≡◌, map, string_bytes, IsUtf8, MatchOption, IfOk, IfSome, IfNone};
ghost use Rattle.fem_text.specs.Lines.{words_of};
ghost use Rattle.run_words.specs.Choice.{seen};
ghost use Rattle.run_words.specs.Jobs.{AskForJob};
ghost use Rattle.batch_read.specs.Batch.{AreTexts, IsJob};
ghost use Rattle.batch_read.specs.SoFar.{IsJobOf};

use fem_fixed::NoMemory;
use fem_text::{TextLine, WordsLeft};
use run_words::{Options, read_job};
use std::alloc::Global;
use std::marker::Model;

/// A job of a batch: the words of a run of its own. Contracts see the list of its words.
#[derive(Drop)]
pub struct Job {
    words: Vec<String>,
}

impl Model for Job {
    ghost use Rattle.std.specs.Prelude.{ℕ, List, map, string_bytes};
    ghost use Rattle.batch_read.specs.Batch.{IsJob};

    ghost Value = { List (List ℕ) };

    ghost view = { λ job. map string_bytes job.words.items };

    ghost invariant = { λ job. IsJob (map string_bytes job.words.items) };
}

impl Job {
    /// The job of a line, where its words are text and ask for one.
    pub(crate) fn of(alloc: Global, line: &TextLine) -> Result<Option<Job>, NoMemory>
        ensures { IfOk result (λ found. IsJobOf (words_of line.now.bytes.now) found) }
    {
        match texts_of(alloc, line)? {
            Some(words) => Ok(Job::asking(words)),
            None => Ok(None),
        }
    }

    // The job of these words, where they ask for one.
    fn asking(words: Vec<String>) -> Option<Job>
        requires { AreTexts (map string_bytes words.items) }
        ensures { IsJobOf (map string_bytes words.items) result }
    {
        let asks = read_job(words.as_slice()).is_some();
        if asks { Some(Job { words }) } else { None }
    }

    /// The words of the job, which ask for it.
    pub fn words(&self) -> &[String]
        ensures words { map string_bytes result.now ≡ self.now }
        ensures job { IsJob self.now }
    {
        self.words.as_slice()
    }

    /// What the job asks for.
    pub fn options(&self) -> Options<'_>
        ensures { AskForJob self.now (seen result) }
    {
        match read_job(self.words.as_slice()) {
            Some(options) => options,
            None => unreachable!(),
        }
    }
}

// The words of a line, where they are text.
fn texts_of(alloc: Global, line: &TextLine) -> Result<Option<Vec<String>>, NoMemory>
    ensures some { IfOk result (λ found. IfSome found (λ texts. (map string_bytes texts.items ≡ words_of line.now.bytes.now) × AreTexts (words_of line.now.bytes.now))) }
    ensures none { IfOk result (λ found. IfNone found (AreTexts (words_of line.now.bytes.now) → ⊥)) }
{
    let mut texts = Vec::new(alloc);
    let mut left = WordsLeft::of(line);
    while let Some(word) = left.next_word() {
        match text_of(alloc, word)? {
            Some(text) => texts.push(text)?,
            None => return Ok(None),
        }
    }
    Ok(Some(texts))
}

// The text of a word, where it is one.
fn text_of(alloc: Global, word: &[u8]) -> Result<Option<String>, NoMemory>
    ensures { IfOk result (λ found. MatchOption found (IsUtf8 word.now → ⊥) (λ text. (string_bytes text ≡ word.now) × IsUtf8 word.now)) }
{
    match str::from_utf8(word) {
        Ok(text) => Ok(Some(String::from_str(alloc, text)?)),
        Err(_) => Ok(None),
    }
}
