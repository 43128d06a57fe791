ghost use Rattle.std.specs.Prelude.{◌≡◌, ◌<◌, ◌≤◌, ◌++◌, ◌∷◌, [], length, drop, slice_index_or, false, Some, Ok, OnOk, OnErr, IfOk, IfErr};
ghost use Rattle.fem_fixed.specs.Numbers.{id_of};
ghost use Rattle.fem_text.specs.Words.{or_fault, all_of};
ghost use Rattle.problem_read.specs.Held.{steps_in};
ghost use Rattle.fem_text.specs.Lines.{words_of};
ghost use Rattle.problem_read.specs.declared.fault.ProblemKind.{ProblemKind};
ghost use Rattle.problem_read.specs.Entries.{parts_of};
ghost use Rattle.problem_read.specs.Shapes.{keyword_at};
ghost use Rattle.problem_read.specs.EntryLine.{is_listed, setting_of, two_settings_of, two_ids_of, entry_behind};
ghost use Rattle.problem_read.specs.LookUps.{diffusion_on, source_on, robin_on, dirichlet_on, penalty_in, subdomain_on};
ghost use Rattle.problem_read.specs.Ties.{IsTie};
ghost use Rattle.problem_read.specs.Problem.{NoMemoryOr};
ghost use Rattle.problem_read.specs.Steps.{AddsEntry, AddsSetting, AddsPenalty, AddsStep, IsLineFault, setting_line, penalty_line, step_line};

use crate::keyword::{Keyword, keyword_at};
use crate::lists::keep;
use crate::ties::{TieTerm, Ties};
use crate::{ProblemFault, ProblemKind};
use fem_fixed::{NoMemory, read_id};
use fem_text::{LineWords, TextLine, WordsLeft, at_line, id_at, number_at};
use indexmap::IndexMap;
use std::alloc::Global;
use std::marker::Model;

const VALUE_LIMIT: u64 = 1 << 31;

const STEP_LIMIT: usize = 32;

/// What the lines so far say.
#[derive(Drop)]
pub(crate) struct Tables {
    diffusion: IndexMap<u32, i64>,
    source: IndexMap<u32, i64>,
    robin: IndexMap<u32, (i64, i64)>,
    dirichlet: IndexMap<u32, i64>,
    penalty: Option<i64>,
    steps: Vec<Vec<u32>>,
    ties: Ties,
    subdomain: IndexMap<u32, u32>,
}

impl Model for Tables {
    ghost use Rattle.std.specs.Prelude.{◌≤◌, length, map};
    ghost use Rattle.problem_read.specs.Entries.{ProblemParts};

    ghost Value = { ProblemParts };

    ghost use Rattle.problem_read.specs.Held.{steps_in};

    ghost view = { λ tables. record {
      diffusion = tables.diffusion.entries;
      source = tables.source.entries;
      robin = tables.robin.entries;
      dirichlet = tables.dirichlet.entries;
      penalty = tables.penalty;
      steps = steps_in tables.steps.items;
      ties = tables.ties;
      subdomain = tables.subdomain.entries;
    } };

    ghost invariant = { λ tables. length tables.steps.items ≤ 32 };
}

impl Tables {
    pub(crate) fn new(alloc: Global) -> Self
        ensures { result ≡ parts_of [] }
    {
        Tables {
            diffusion: IndexMap::new(alloc),
            source: IndexMap::new(alloc),
            robin: IndexMap::new(alloc),
            dirichlet: IndexMap::new(alloc),
            penalty: None,
            steps: Vec::new(alloc),
            ties: Ties::new(alloc),
            subdomain: IndexMap::new(alloc),
        }
    }

    pub(crate) fn diffusion(&self, material: u32) -> i64
        ensures { result ≡ diffusion_on self.now material }
    {
        self.diffusion.get(&material).copied().unwrap_or(1 << 16)
    }

    pub(crate) fn source(&self, material: u32) -> i64
        ensures { result ≡ source_on self.now material }
    {
        self.source.get(&material).copied().unwrap_or(0)
    }

    pub(crate) fn robin(&self, id: u32) -> Option<(i64, i64)>
        ensures { result ≡ robin_on self.now id }
    {
        self.robin.get(&id).copied()
    }

    pub(crate) fn dirichlet(&self, id: u32) -> Option<i64>
        ensures { result ≡ dirichlet_on self.now id }
    {
        self.dirichlet.get(&id).copied()
    }

    pub(crate) fn penalty(&self) -> i64
        ensures { result ≡ penalty_in self.now }
    {
        self.penalty.unwrap_or(0)
    }

    pub(crate) fn subdomain(&self, material: u32) -> u32
        ensures { result ≡ subdomain_on self.now material }
    {
        self.subdomain.get(&material).copied().unwrap_or(0)
    }

    pub(crate) fn steps(&self) -> u32
        ensures { result ≡ length self.now.steps }
    {
        self.steps.len() as u32
    }

    pub(crate) fn asked(&self, step: u32) -> &[u32]
        requires { step < length self.now.steps }
        ensures { result.now ≡ slice_index_or self.now.steps step [] }
    {
        &self.steps[step as usize]
    }

    pub(crate) fn ties(&self) -> u32
        ensures { result ≡ length self.now.ties }
    {
        self.ties.len()
    }

    pub(crate) fn tie(&self, k: u32) -> (u32, &[TieTerm], i64)
        requires { k < length self.now.ties }
        ensures { IsTie self.now.ties k result.0 result.1.now result.2 }
    {
        self.ties.get(k)
    }

    /// Adds what a line says.
    pub(crate) fn add(&mut self, alloc: Global, line: &TextLine) -> Result<(), ProblemFault>
        ensures ok { OnOk result (AddsEntry self.old (words_of line.now.bytes.now) self.new) }
        ensures err { IfErr result (λ fault. NoMemoryOr fault (IsLineFault (entry_behind self.old (words_of line.now.bytes.now)) line.now.number fault)) }
    {
        let words = LineWords::of(line);
        let keyword = at_line(keyword_at(&words), line)?;
        self.add_as(alloc, keyword, line, &words)
    }

    // Adds what a line with this first word says.
    fn add_as(
        &mut self,
        alloc: Global,
        keyword: Keyword,
        line: &TextLine,
        words: &LineWords,
    ) -> Result<(), ProblemFault>
        requires { keyword_at words.now ≡ Ok keyword }
        ensures ok { OnOk result (AddsEntry self.old words.now self.new) }
        ensures err { IfErr result (λ fault. NoMemoryOr fault (IsLineFault (entry_behind self.old words.now) line.now.number fault)) }
    {
        match keyword {
            Keyword::Diffusion => add_setting(&mut self.diffusion, setting_of(words), line),
            Keyword::Source => add_setting(&mut self.source, setting_of(words), line),
            Keyword::Robin => add_setting(&mut self.robin, two_settings_of(words), line),
            Keyword::Dirichlet => add_setting(&mut self.dirichlet, setting_of(words), line),
            Keyword::Penalty => add_penalty(&mut self.penalty, line, words),
            Keyword::Refine => add_step(alloc, &mut self.steps, line, words),
            Keyword::Constraint => self.ties.add(line, words),
            Keyword::Subdomain => add_setting(&mut self.subdomain, two_ids_of(words), line),
        }
    }
}

// Lists what a line sets for an id, where no earlier line sets it.
fn add_setting<V: Copy + Drop>(
    map: &mut IndexMap<u32, V>,
    given: Result<(u32, V), ProblemKind>,
    line: &TextLine,
) -> Result<(), ProblemFault>
    ensures ok { OnOk result (AddsSetting given map.old.entries map.new.entries) }
    ensures err { IfErr result (λ fault. NoMemoryOr fault (IsLineFault (setting_line given map.old.entries) line.now.number fault)) }
{
    let (id, value) = at_line(given, line)?;
    if map.get(&id).is_some() {
        return at_line(Err(ProblemKind::Repeated), line);
    }
    insert_new(map, id, value)?;
    Ok(())
}

// Lists what an id sets that isn't listed yet.
fn insert_new<V: Copy + Drop>(map: &mut IndexMap<u32, V>, id: u32, value: V) -> Result<(), NoMemory>
    requires { is_listed map.old.entries id ≡ false }
    ensures { OnOk result (map.new.entries ≡ map.old.entries ++ (id, value) ∷ []) }
{
    map.insert(id, value)?;
    Ok(())
}

#[tactic(auto, unfolding(crate::specs::EntryLine::setting_of))]
fn setting_of(words: &LineWords) -> Result<(u32, i64), ProblemKind>
    ensures { result ≡ setting_of words.now }
{
    let id = id_at(ProblemKind::Number, words, 1)?;
    let value = number_at(ProblemKind::Number, VALUE_LIMIT, words, 2)?;
    Ok((id, value))
}

#[tactic(auto, unfolding(crate::specs::EntryLine::two_settings_of))]
fn two_settings_of(words: &LineWords) -> Result<(u32, (i64, i64)), ProblemKind>
    ensures { result ≡ two_settings_of words.now }
{
    let id = id_at(ProblemKind::Number, words, 1)?;
    let first = number_at(ProblemKind::Number, VALUE_LIMIT, words, 2)?;
    let second = number_at(ProblemKind::Number, VALUE_LIMIT, words, 3)?;
    Ok((id, (first, second)))
}

#[tactic(auto, unfolding(crate::specs::EntryLine::two_ids_of))]
fn two_ids_of(words: &LineWords) -> Result<(u32, u32), ProblemKind>
    ensures { result ≡ two_ids_of words.now }
{
    let id = id_at(ProblemKind::Number, words, 1)?;
    let other = id_at(ProblemKind::Number, words, 2)?;
    Ok((id, other))
}

fn add_penalty(
    penalty: &mut Option<i64>,
    line: &TextLine,
    words: &LineWords,
) -> Result<(), ProblemFault>
    ensures ok { OnOk result (AddsPenalty words.now penalty.old penalty.new) }
    ensures err { IfErr result (λ fault. NoMemoryOr fault (IsLineFault (penalty_line words.now penalty.old) line.now.number fault)) }
{
    let value = at_line(number_at(ProblemKind::Number, VALUE_LIMIT, words, 1), line)?;
    if penalty.is_some() {
        return at_line(Err(ProblemKind::Repeated), line);
    }
    *penalty = Some(value);
    Ok(())
}

fn add_step(
    alloc: Global,
    steps: &mut Vec<Vec<u32>>,
    line: &TextLine,
    words: &LineWords,
) -> Result<(), ProblemFault>
    ensures ok { OnOk result (AddsStep words.now (steps_in steps.old.items) (steps_in steps.new.items)) }
    ensures err { IfErr result (λ fault. NoMemoryOr fault (IsLineFault (step_line words.now (steps_in steps.old.items)) line.now.number fault)) }
    ensures few { length steps.old.items ≤ 32 → length steps.new.items ≤ 32 }
{
    let cells = read_cells(alloc, line, words)?;
    if steps.len() >= STEP_LIMIT {
        return at_line(Err(ProblemKind::Limit), line);
    }
    keep_step(steps, cells)?;
    Ok(())
}

fn keep_step(steps: &mut Vec<Vec<u32>>, cells: Vec<u32>) -> Result<(), NoMemory>
    ensures ok { OnOk result (steps.new.items ≡ steps.old.items ++ cells ∷ []) }
    ensures err { OnErr result (steps.new.items ≡ steps.old.items) }
{
    steps.push(cells)?;
    Ok(())
}

// The cell numbers behind the first word.
fn read_cells(alloc: Global, line: &TextLine, words: &LineWords) -> Result<Vec<u32>, ProblemFault>
    ensures ok { IfOk result (λ cells. all_of id_of (drop 1 words.now) ≡ Some cells.items) }
    ensures err { IfErr result (λ fault. NoMemoryOr fault (IsLineFault (or_fault ProblemKind.Number (all_of id_of (drop 1 words.now))) line.now.number fault)) }
{
    let mut cells = Vec::new(alloc);
    let mut left = WordsLeft::behind(words, 1);
    while let Some(word) = left.next_word() {
        let Some(cell) = read_id(word) else {
            return at_line(Err(ProblemKind::Number), line);
        };
        keep(&mut cells, cell)?;
    }
    Ok(cells)
}
