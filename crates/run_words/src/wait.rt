ghost use Rattle.std.specs.Prelude.{◌≡◌, ◌↔◌, ℕ, List, map, string_bytes, IsTrue, codes};
ghost use Rattle.run_words.specs.Choice.{Choice, of_system};
ghost use Rattle.run_words.specs.Words.{AskFor, NameOrdered, NameBatch, MayWait};
ghost use Rattle.run_words.specs.BatchWords.{BatchChoice, AskForBatch};
ghost use Rattle.run_words.specs.Waits.{begins_with, names_ordered, names_batch, waits_at};

use crate::SystemMode;

/// Whether two words in a row are `--mode` and `ordered`, or a word is `--mode=ordered`, or a word is `--batch` or begins
/// with `--batch=`: whether a run may wait.
pub fn wants_wait(words: &[String]) -> bool
    ensures { IsTrue result ↔ MayWait (map string_bytes words.now) }
{
    let mut left = words;
    while let [word, behind @ ..] = left {
        if waits_at(word.as_str(), behind) {
            return true;
        }
        left = behind;
    }
    false
}

/// Words that ask for the mode `ordered` name it: the answers of [`crate::read_words`] have that mode only where
/// [`wants_wait`] is true.
pub fn ordered_is_named()
    ensures { (words : List (List ℕ)) (choice : Choice) → AskFor words choice → choice.mode ≡ of_system SystemMode.Ordered → NameOrdered words }
{}

/// Words that ask for a batch name its option: [`crate::read_batch_words`] has an answer only where [`wants_wait`] is true.
pub fn batch_is_named()
    ensures { (words : List (List ℕ)) (choice : BatchChoice) → AskForBatch words choice → NameBatch words }
{}

fn waits_at(word: &str, behind: &[String]) -> bool
    ensures { result ≡ waits_at word.now (map string_bytes behind.now) }
{
    names_ordered(word, behind) || names_batch(word)
}

#[tactic(auto, unfolding(crate::specs::Waits::names_ordered))]
fn names_ordered(word: &str, behind: &[String]) -> bool
    ensures { result ≡ names_ordered word.now (map string_bytes behind.now) }
{
    if word == "--mode=ordered" {
        return true;
    }
    word == "--mode" && begins_with_ordered(behind)
}

fn begins_with_ordered(words: &[String]) -> bool
    ensures { result ≡ begins_with (codes "ordered") (map string_bytes words.now) }
{
    match words {
        [first, ..] => first.as_str() == "ordered",
        [] => false,
    }
}

#[tactic(auto, unfolding(crate::specs::Waits::names_batch))]
fn names_batch(word: &str) -> bool
    ensures { result ≡ names_batch word.now }
{
    word == "--batch" || word.starts_with("--batch=")
}
