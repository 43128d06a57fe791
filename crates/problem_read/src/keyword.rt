ghost use Rattle.std.specs.Prelude.{◌≡◌, ◌<◌, ◌==◌, length};
ghost use Rattle.problem_read.specs.Shapes.{keyword_of, is_equation, has_shape, keyword_at};
ghost use Rattle.problem_read.specs.Sums.{is_sum};

use crate::ProblemKind;
use crate::ties::{is_constant, is_term};
use fem_text::{LineWords, WordsLeft};

/// The first word of a line, which says what the line sets.
#[derive(Clone, Copy)]
pub(crate) enum Keyword {
    Diffusion,
    Source,
    Robin,
    Dirichlet,
    Penalty,
    Refine,
    Constraint,
    Subdomain,
}

/// The first word of a line that has the shape of such a line.
#[tactic(auto, unfolding(crate::specs::Shapes::keyword_at))]
pub(crate) fn keyword_at(words: &LineWords) -> Result<Keyword, ProblemKind>
    ensures { result ≡ keyword_at words.now }
{
    let Some(word) = words.word(0) else {
        return Err(ProblemKind::Word);
    };
    let keyword = keyword_of(word).ok_or(ProblemKind::Word)?;
    if has_shape(keyword, words) {
        Ok(keyword)
    } else {
        Err(ProblemKind::Word)
    }
}

#[tactic(auto, unfolding(crate::specs::Shapes::keyword_of))]
fn keyword_of(word: &[u8]) -> Option<Keyword>
    ensures { result ≡ keyword_of word.now }
{
    if word == b"diffusion".as_slice() {
        return Some(Keyword::Diffusion);
    }
    if word == b"source".as_slice() {
        return Some(Keyword::Source);
    }
    if word == b"robin".as_slice() {
        return Some(Keyword::Robin);
    }
    if word == b"dirichlet".as_slice() {
        return Some(Keyword::Dirichlet);
    }
    if word == b"penalty".as_slice() {
        return Some(Keyword::Penalty);
    }
    if word == b"refine".as_slice() {
        return Some(Keyword::Refine);
    }
    if word == b"constraint".as_slice() {
        return Some(Keyword::Constraint);
    }
    if word == b"subdomain".as_slice() {
        return Some(Keyword::Subdomain);
    }
    None
}

fn has_shape(keyword: Keyword, words: &LineWords) -> bool
    ensures { result ≡ has_shape keyword words.now }
{
    match keyword {
        Keyword::Diffusion | Keyword::Source | Keyword::Dirichlet | Keyword::Subdomain => {
            has_words(words, 3)
        }
        Keyword::Robin => has_words(words, 4),
        Keyword::Penalty => has_words(words, 2),
        Keyword::Refine => words.word(1).is_some(),
        Keyword::Constraint => is_equation(words),
    }
}

fn has_words(words: &LineWords, count: u32) -> bool
    requires { 0 < count }
    ensures { result ≡ (length words.now == count) }
{
    words.word(count - 1).is_some() && words.word(count).is_none()
}

fn is_equation(words: &LineWords) -> bool
    ensures { result ≡ is_equation words.now }
{
    match words.word(2) {
        Some(word) if word == b"=".as_slice() => is_sum(WordsLeft::behind(words, 3)),
        _ => false,
    }
}

fn is_sum(mut words: WordsLeft) -> bool
    ensures { result ≡ is_sum words.entry }
{
    while let Some(word) = words.next_word() {
        if !is_term(word) {
            return is_constant(word) && words.next_word().is_none();
        }
        let Some(sign) = words.next_word() else {
            return true;
        };
        if sign != b"+".as_slice() {
            return false;
        }
    }
    false
}
