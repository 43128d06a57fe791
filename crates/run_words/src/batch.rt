ghost use Rattle.std.specs.Prelude.{◌≡◌, ◌||◌, ℕ, List, map, string_bytes, IfSome, IfNone};
ghost use Rattle.std.specs.Option.{option_map, option_copied};
ghost use Rattle.std.specs.List.{list_any};
ghost use Rattle.run_words.specs.Held.{seen_settings};
ghost use Rattle.run_words.specs.Names.{all_names};
ghost use Rattle.run_words.specs.Switches.{all_switches};
ghost use Rattle.run_words.specs.Words.{AskForNothing};
ghost use Rattle.run_words.specs.BatchWords.{BatchChoice, seen_batch, AskForBatch, AskForNoBatch, AskForBatchOrNot, IsBatchWithinRanges, is_batch_option, is_beside_batch};
ghost use Rattle.run_words.specs.BatchReading.{has_more_than_batch, read_batch, batch_reading};

use crate::BatchOptions;
use crate::choice::destination_or_standard;
use crate::name::{NAMES, Name};
use crate::settings::Settings;
use crate::switch::SWITCHES;
use crate::values::{name_of, number_or};

/// Reads the words of a batch. It has the options `--batch`, `--workers` and `--matrix` and no others; `--batch` names its
/// text and stands always, there are 1 to 64 workers and by default 4, and its text goes to standard output where `--matrix`
/// names no other place. There is no answer exactly where the words ask for no such batch.
pub fn read_batch_words(words: &[String]) -> Option<BatchOptions<'_>>
    ensures some { IfSome result (λ options. AskForBatch (map string_bytes words.now) (seen_batch options)) }
    ensures none { IfNone result (AskForNoBatch (map string_bytes words.now)) }
{
    match Settings::read(words) {
        Some(settings) => batch_of(&settings),
        None => None,
    }
}

/// Words ask for one batch at most.
pub fn one_batch_reading()
    ensures { (words : List (List ℕ)) (first second : BatchChoice) → AskForBatch words first → AskForBatch words second → first ≡ second }
{}

/// Words ask for a batch or for none, so one of the two answers of [`read_batch_words`] is right for them.
pub fn words_have_a_batch_or_none()
    ensures { (words : List (List ℕ)) → AskForBatchOrNot words }
{}

/// Words that ask for a batch ask for no other run: [`crate::read_words`] has no answer for them.
pub fn batches_ask_for_nothing_else()
    ensures { (words : List (List ℕ)) (choice : BatchChoice) → AskForBatch words choice → AskForNothing words }
{}

/// What the words of a batch ask for is within its ranges.
pub fn batches_are_within()
    ensures { (words : List (List ℕ)) (choice : BatchChoice) → AskForBatch words choice → IsBatchWithinRanges choice }
{}

#[tactic(auto, unfolding(crate::specs::BatchReading::batch_reading))]
fn batch_of<'a>(settings: &Settings<'a>) -> Option<BatchOptions<'a>>
    ensures { option_map seen_batch result ≡ batch_reading (seen_settings settings.now) }
{
    if has_more_than_batch(settings) {
        return None;
    }
    options_of(
        settings.value(Name::Batch),
        settings.value(Name::Workers),
        settings.value(Name::Matrix),
    )
}

#[tactic(auto, unfolding(crate::specs::BatchReading::read_batch))]
fn options_of<'a>(
    batch: Option<&'a str>,
    workers: Option<&str>,
    matrix: Option<&'a str>,
) -> Option<BatchOptions<'a>>
    ensures { option_map seen_batch result ≡ read_batch (option_copied batch.entry) (option_copied workers.entry) (option_copied matrix.entry) }
{
    let name = name_of(batch?)?;
    let workers = number_or(4, 1, 64, workers)?;
    let destination = destination_or_standard(matrix)?;
    Some(BatchOptions {
        name,
        workers,
        destination,
    })
}

// Whether an option stands that no batch may have.
fn has_more_than_batch(settings: &Settings) -> bool
    ensures { result ≡ has_more_than_batch (seen_settings settings.now) }
{
    has_option_beside(settings) || has_switch(settings)
}

fn has_option_beside(settings: &Settings) -> bool
    ensures { result ≡ list_any (is_beside_batch (seen_settings settings.now)) all_names }
{
    NAMES
        .iter()
        .copied()
        .any(|name| is_beside_batch(settings, name))
}

fn has_switch(settings: &Settings) -> bool
    ensures { result ≡ list_any (seen_settings settings.now).stands all_switches }
{
    SWITCHES
        .iter()
        .copied()
        .any(|switch| settings.stands(switch))
}

fn is_beside_batch(settings: &Settings, name: Name) -> bool
    ensures { result ≡ is_beside_batch (seen_settings settings.now) name }
{
    settings.value(name).is_some() && !is_batch_option(name)
}

fn is_batch_option(name: Name) -> bool
    ensures { result ≡ is_batch_option name }
{
    match name {
        Name::Batch | Name::Workers | Name::Matrix => true,
        _ => false,
    }
}
