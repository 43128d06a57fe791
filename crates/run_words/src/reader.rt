ghost use Rattle.std.specs.Prelude.{◌≡◌, ℕ, List, map, string_bytes, IfSome, IfNone};
ghost use Rattle.run_words.specs.Choice.{Choice, seen};
ghost use Rattle.run_words.specs.Ranges.{IsWithinRanges};
ghost use Rattle.run_words.specs.Words.{AskFor, AskForNothing, AskForSomethingOrNothing};

use crate::Options;
use crate::choice::options_of;
use crate::settings::Settings;

/// Reads the words behind the program's name, in one pass and in any order. Names and values are those of the
/// words, and nothing is copied. There is no answer exactly where the words ask for nothing: a word is out of
/// place, an option stands twice, a value is not in the set of its option, or a rule between options is broken.
pub fn read_words(words: &[String]) -> Option<Options<'_>>
    ensures some { IfSome result (λ options. AskFor (map string_bytes words.now) (seen options)) }
    ensures none { IfNone result (AskForNothing (map string_bytes words.now)) }
{
    match Settings::read(words) {
        Some(settings) => options_of(&settings),
        None => None,
    }
}

/// Words ask for one thing at most.
pub fn one_reading()
    ensures { (words : List (List ℕ)) (first second : Choice) → AskFor words first → AskFor words second → first ≡ second }
{}

/// Words ask for something or for nothing, so one of the two answers of [`read_words`] is right for them.
pub fn words_have_a_reading()
    ensures { (words : List (List ℕ)) → AskForSomethingOrNothing words }
{}

/// What words ask for is within its ranges.
pub fn choices_are_within()
    ensures { (words : List (List ℕ)) (choice : Choice) → AskFor words choice → IsWithinRanges choice }
{}
