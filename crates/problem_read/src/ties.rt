ghost use Rattle.std.specs.Prelude.{◌≡◌, ◌<◌, ◌≤◌, ◌^◌, ◌&&◌, ◌∷◌, [], length, nat_lt, nat_le, drop, position, pos, unwrap_or, ◌++◌, OnOk, OnErr, IfOk, IfErr};
ghost use Rattle.std.specs.List.{before_first, after_first};
ghost use Rattle.fem_fixed.specs.Ticks.{number_of};
ghost use Rattle.problem_read.specs.Sums.{is_star, stars, is_plus, is_term, is_constant, within, term_of, constant_of, sum_of};
ghost use Rattle.fem_text.specs.Words.{or_fault};
ghost use Rattle.problem_read.specs.Ties.{IsTie, AddsTie, AddsPart, HasSum, StartsWith, tie_line, tie_line_of};
ghost use Rattle.problem_read.specs.Steps.{IsLineFault};
ghost use Rattle.problem_read.specs.declared.fault.ProblemKind.{ProblemKind};
ghost use Rattle.problem_read.specs.Problem.{NoMemoryOr};

use crate::lists::keep;
use crate::{ProblemFault, ProblemKind};
use fem_fixed::{NoMemory, read_id, read_number};
use fem_text::{LineWords, TextLine, WordsLeft, at_line, id_at};
use std::alloc::Global;
use std::marker::Model;

/// A term of a constraint: a node id of the mesh text, and its weight in ticks of 2^-16.
#[derive(Clone, Copy, Debug, PartialEq, Eq)]
pub struct TieTerm {
    pub node: u32,
    pub weight: i64,
}

/// A constraint, with the place of its terms among those of all constraints.
#[derive(Clone, Copy)]
pub(crate) struct TieLine {
    pub(crate) node: u32,
    pub(crate) count: u32,
    pub(crate) start: usize,
    pub(crate) constant: i64,
}

/// The constraints in the order of the text.
#[derive(Drop)]
pub(crate) struct Ties {
    lines: Vec<TieLine>,
    terms: Vec<TieTerm>,
}

impl Model for Ties {
    ghost use Rattle.std.specs.Prelude.{List, ◌≤◌, ◌^◌, length};
    ghost use Rattle.problem_read.specs.Entries.{Tie};

    ghost Value = { List Tie };

    ghost use Rattle.problem_read.specs.Ties.{ties_in, AreThere};

    ghost view = { λ ties. ties_in ties.lines.items ties.terms.items };

    ghost invariant = { λ ties. (length ties.lines.items ≤ 2 ^ 20) × AreThere ties.lines.items (length ties.terms.items) };
}

const LINE_LIMIT: usize = 1 << 20;

const TERM_LIMIT: usize = 16;

impl Ties {
    pub(crate) fn new(alloc: Global) -> Self
        ensures { result ≡ [] }
    {
        Ties {
            lines: Vec::new(alloc),
            terms: Vec::new(alloc),
        }
    }

    pub(crate) fn len(&self) -> u32
        ensures { result ≡ length self.now }
    {
        self.lines.len() as u32
    }

    /// Constraint number k: its node, its terms and its constant.
    pub(crate) fn get(&self, k: u32) -> (u32, &[TieTerm], i64)
        requires { k < length self.now }
        ensures { IsTie self.now k result.0 result.1.now result.2 }
    {
        let line = self.lines[k as usize];
        let terms = &self.terms[line.start..line.start + line.count as usize];
        (line.node, terms, line.constant)
    }

    /// Adds the constraint of a line.
    #[tactic(auto, unfolding(crate::specs::Ties::tie_line, crate::specs::EntryLine::tie_at))]
    pub(crate) fn add(&mut self, line: &TextLine, words: &LineWords) -> Result<(), ProblemFault>
        ensures ok { OnOk result (AddsTie self.old words.now self.new) }
        ensures err { IfErr result (λ fault. NoMemoryOr fault (IsLineFault (tie_line self.old words.now) line.now.number fault)) }
    {
        let node = at_line(id_at(ProblemKind::Number, words, 1), line)?;
        let start = self.terms.len();
        let constant = read_sum(&mut self.terms, line, words)?;
        let count = self.terms.len() - start;
        if !has_room(self.lines.len(), count) {
            return at_line(Err(ProblemKind::Limit), line);
        }
        push_line(&mut self.lines, node, count, start, constant)?;
        Ok(())
    }
}

// Puts a line at the end, whose constant is 0 where it has none.
fn push_line(
    lines: &mut Vec<TieLine>,
    node: u32,
    count: usize,
    start: usize,
    constant: Option<i64>,
) -> Result<(), NoMemory>
    requires { count ≤ 16 }
    ensures ok { OnOk result (lines.new.items ≡ lines.old.items ++ tie_line_of node count start (unwrap_or constant (pos 0)) ∷ []) }
    ensures err { OnErr result (lines.new.items ≡ lines.old.items) }
{
    lines.push(TieLine {
        node,
        count: count as u32,
        start,
        constant: constant.unwrap_or(0),
    })?;
    Ok(())
}

// Adds the terms on the right side of a constraint, and gives its constant, if any.
fn read_sum(
    terms: &mut Vec<TieTerm>,
    line: &TextLine,
    words: &LineWords,
) -> Result<Option<i64>, ProblemFault>
    ensures ok { IfOk result (λ constant. HasSum (drop 3 words.now) terms.old.items terms.new.items (unwrap_or constant (pos 0))) }
    ensures err { IfErr result (λ fault. NoMemoryOr fault (IsLineFault (or_fault ProblemKind.Number (sum_of (drop 3 words.now))) line.now.number fault)) }
    ensures grows { StartsWith terms.old.items terms.new.items }
{
    let mut constant = None;
    let mut left = WordsLeft::behind(words, 3);
    while let Some(word) = left.next_word() {
        constant = add_part(terms, constant, word, line)?;
    }
    Ok(constant)
}

// Adds the term of a word, or gives its constant in place of this one.
fn add_part(
    terms: &mut Vec<TieTerm>,
    constant: Option<i64>,
    word: &[u8],
    line: &TextLine,
) -> Result<Option<i64>, ProblemFault>
    ensures ok { IfOk result (λ now. AddsPart word.now terms.old.items (unwrap_or constant (pos 0)) terms.new.items (unwrap_or now (pos 0))) }
    ensures err { IfErr result (λ fault. NoMemoryOr fault (IsLineFault (or_fault ProblemKind.Number (sum_of (word.now ∷ []))) line.now.number fault)) }
    ensures grows { StartsWith terms.old.items terms.new.items }
{
    if is_term(word) {
        let Some(term) = term_of(word) else {
            return at_line(Err(ProblemKind::Number), line);
        };
        keep(terms, term)?;
        return Ok(constant);
    }
    if is_constant(word) {
        let value = constant_of(word);
        if value.is_none() {
            return at_line(Err(ProblemKind::Number), line);
        }
        return Ok(value);
    }
    Ok(constant)
}

// Whether there is room for a constraint of so many terms behind so many lines.
fn has_room(lines: usize, terms: usize) -> bool
    ensures { result ≡ (nat_lt lines (2 ^ 20) && nat_le terms 16) }
{
    lines < LINE_LIMIT && terms <= TERM_LIMIT
}

#[tactic(auto, unfolding(crate::specs::Sums::term_of))]
fn term_of(word: &[u8]) -> Option<TieTerm>
    ensures { result ≡ term_of word.now }
{
    let (weight, node) = split_at_star(word);
    let weight = number_within(weight, 1 << 20)?;
    let node = read_id(node)?;
    Some(TieTerm { node, weight })
}

#[tactic(auto, unfolding(crate::specs::Sums::constant_of))]
fn constant_of(word: &[u8]) -> Option<i64>
    ensures { result ≡ constant_of word.now }
{
    number_within(word, 1 << 31)
}

// The number of a word, where it is at most this many ticks in size.
fn number_within(word: &[u8], limit: u64) -> Option<i64>
    ensures { result ≡ within limit (number_of word.now) }
{
    match read_number(word) {
        Ok(ticks) if ticks.unsigned_abs() <= limit => Some(ticks),
        _ => None,
    }
}

// What stands before the first `*`, and what follows it.
fn split_at_star(word: &[u8]) -> (&[u8], &[u8])
    ensures weight { result.0.now ≡ before_first is_star word.now }
    ensures node { result.1.now ≡ after_first is_star word.now }
{
    match star_at(word) {
        Some(star) => (&word[..star], &word[star + 1..]),
        None => (word, &word[word.len()..]),
    }
}

fn star_at(word: &[u8]) -> Option<usize>
    ensures { result ≡ position is_star word.now }
{
    word.iter().position(|byte| *byte == b'*')
}

/// Whether a word has the shape of a term.
pub(crate) fn is_term(word: &[u8]) -> bool
    ensures { result ≡ is_term word.now }
{
    stars(word) == 1
}

/// Whether a word has the shape of a constant.
pub(crate) fn is_constant(word: &[u8]) -> bool
    ensures { result ≡ is_constant word.now }
{
    stars(word) == 0 && word != b"+".as_slice()
}

fn stars(word: &[u8]) -> usize
    ensures { result ≡ stars word.now }
{
    word.iter().filter(|byte| **byte == b'*').count()
}
