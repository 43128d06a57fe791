ghost use Rattle.std.specs.Prelude.{◌≡◌};
ghost use Rattle.std.specs.Option.{option_map};
ghost use Rattle.run_words.specs.Openings.{begins, seen_opening};

use crate::name::{Name, find_name};
use crate::switch::{Switch, find_switch};

/// What a word begins.
#[derive(Clone, Copy)]
pub(crate) enum Opening<'a> {
    /// An option without a value.
    Alone(Switch),
    /// An option with its value.
    Joined(Name, &'a str),
    /// An option whose value is the next word.
    Apart(Name),
}

#[tactic(auto, unfolding(crate::specs::Openings::begins))]
pub(crate) fn opening_of(word: &str) -> Option<Opening<'_>>
    ensures { option_map seen_opening result ≡ begins word.now }
{
    if let Some(switch) = find_switch(word) {
        return Some(Opening::Alone(switch));
    }
    match word.split_once('=') {
        Some((name, value)) => Some(Opening::Joined(find_name(name)?, value)),
        None => Some(Opening::Apart(find_name(word)?)),
    }
}
