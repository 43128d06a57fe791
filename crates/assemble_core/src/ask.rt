ghost use Rattle.std.specs.Prelude.{◌≡◌, map, string_bytes, IfSome, IfNone, Ok, Err};
ghost use Rattle.run_words.specs.Choice.{seen, seen_mode};
ghost use Rattle.run_words.specs.Ranges.{IsWithinRanges};
ghost use Rattle.diagnostics.specs.declared.refusal.Refusal.TheVariants.{Words};
ghost use Rattle.assemble_core.specs.Modes.{plain_modes, all_modes};
ghost use Rattle.assemble_core.specs.Answer.{Asked};

use run_words::{Mode, Options, SystemMode, choices_are_within, one_reading, read_words};

/// What the words ask of a run that does not wait.
#[tactic(auto, using(crate::proofs::Asking::other_refused))]
pub(crate) fn plain_options(words: &[String]) -> Option<Options<'_>>
    ensures asked { IfSome result (λ options. Asked plain_modes (map string_bytes words.now) (Ok (seen options))) }
    ensures within { IfSome result (λ options. IsWithinRanges (seen options)) }
    ensures refused { IfNone result (Asked plain_modes (map string_bytes words.now) (Err Words)) }
{
    choices_are_within();
    one_reading();
    match read_words(words) {
        Some(options) => {
            if is_plain(options.mode) {
                Some(options)
            } else {
                None
            }
        }
        None => None,
    }
}

/// What the words ask of a run that may wait.
pub(crate) fn all_options(words: &[String]) -> Option<Options<'_>>
    ensures asked { IfSome result (λ options. Asked all_modes (map string_bytes words.now) (Ok (seen options))) }
    ensures within { IfSome result (λ options. IsWithinRanges (seen options)) }
    ensures refused { IfNone result (Asked all_modes (map string_bytes words.now) (Err Words)) }
{
    choices_are_within();
    match read_words(words) {
        Some(options) => Some(options),
        None => None,
    }
}

// The modes of a run that does not wait.
fn is_plain(mode: Mode<'_>) -> bool
    ensures { result ≡ plain_modes (seen_mode mode.entry) }
{
    match mode {
        Mode::System(SystemMode::Serial | SystemMode::Colored) => true,
        Mode::System(SystemMode::Pattern | SystemMode::Colors) => true,
        Mode::Mesh | Mode::Vector { name: _, task: _ } => true,
        Mode::System(SystemMode::Ordered) => false,
    }
}
