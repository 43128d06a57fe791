ghost use Rattle.std.specs.Prelude.{◌≡◌, ℕ, List, map, string_bytes, IfSome, IfNone};
ghost use Rattle.std.specs.Option.{option_map};
ghost use Rattle.run_words.specs.Held.{seen_settings};
ghost use Rattle.run_words.specs.Choice.{seen, seen_mode, seen_source};
ghost use Rattle.run_words.specs.Jobs.{AskForJob, AskForNoJob, AskForJobOrNot, is_other, is_job_option, is_job_mode, reads_input};
ghost use Rattle.run_words.specs.JobReading.{has_other, job_reading};

use crate::choice::options_of;
use crate::name::{NAMES, Name};
use crate::settings::Settings;
use crate::{Mode, Options, Source, SystemMode};

/// Reads the words of a job of a batch, as [`crate::read_words`] reads those of a run. A job has no other options than
/// `--mode`, `--mesh`, `--problem`, `--format`, `--digits`, `--faces`, `--degree` and `--summary`; its mode is `serial`, `pattern` or
/// `colors`, and no name is `-`. There is no answer exactly where the words ask for no such job.
pub fn read_job(words: &[String]) -> Option<Options<'_>>
    ensures some { IfSome result (λ options. AskForJob (map string_bytes words.now) (seen options)) }
    ensures none { IfNone result (AskForNoJob (map string_bytes words.now)) }
{
    match Settings::read(words) {
        Some(settings) => job_of(&settings),
        None => None,
    }
}

/// Words ask for a job or for none, so one of the two answers of [`read_job`] is right for them.
pub fn words_have_a_job_or_none()
    ensures { (words : List (List ℕ)) → AskForJobOrNot words }
{}

#[tactic(auto, unfolding(crate::specs::JobReading::job_reading))]
fn job_of<'a>(settings: &Settings<'a>) -> Option<Options<'a>>
    ensures { option_map seen result ≡ job_reading (seen_settings settings.now) }
{
    if has_other(settings) {
        return None;
    }
    let options = options_of(settings)?;
    if is_job_mode(options.mode) && !reads_input(options.source) {
        Some(options)
    } else {
        None
    }
}

// Whether an option stands that no job may have.
fn has_other(settings: &Settings) -> bool
    ensures { result ≡ has_other (seen_settings settings.now) }
{
    NAMES.iter().copied().any(|name| is_other(settings, name))
}

fn is_other(settings: &Settings, name: Name) -> bool
    ensures { result ≡ is_other (seen_settings settings.now) name }
{
    settings.value(name).is_some() && !is_job_option(name)
}

fn is_job_option(name: Name) -> bool
    ensures { result ≡ is_job_option name }
{
    match name {
        Name::Mode | Name::Mesh | Name::Problem => true,
        Name::Format | Name::Digits | Name::Faces | Name::Degree => true,
        _ => false,
    }
}

fn is_job_mode(mode: Mode) -> bool
    ensures { result ≡ is_job_mode (seen_mode mode.entry) }
{
    match mode {
        Mode::System(SystemMode::Serial | SystemMode::Pattern | SystemMode::Colors) => true,
        _ => false,
    }
}

// Whether one of the texts is standard input.
fn reads_input(source: Source) -> bool
    ensures { result ≡ reads_input (seen_source source.entry) }
{
    match source {
        Source::Texts {
            mesh,
            format: _,
            problem,
        } => mesh == "-" || problem == Some("-"),
        Source::Generated { n: _, seed: _ } => false,
    }
}
