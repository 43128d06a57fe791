ghost use Rattle.std.specs.Prelude.{◌≡◌, length};

use crate::name::Name;
use crate::opening::{Opening, opening_of};
use crate::switch::Switch;

/// The options that stand, with their values.
#[derive(Drop)]
pub(crate) struct Settings<'a> {
    values: [Option<&'a str>; Name::COUNT],
    switches: [bool; Switch::COUNT],
    ghost full: { length values ≡ 20 },
    ghost both: { length switches ≡ 2 },
}

impl<'a> Settings<'a> {
    ghost use Rattle.std.specs.Prelude.{◌∷◌, true, map, string_bytes, IfSome, IfNone, OnSome, IsSome};
    ghost use Rattle.std.specs.Option.{option_copied};
    ghost use Rattle.run_words.specs.Held.{seen_settings, Sets, Turns, Takes, CannotTake, Holds, CannotHold};

    /// The options of these words, where the words are settings and no option stands twice.
    pub(crate) fn read(words: &'a [String]) -> Option<Settings<'a>>
        ensures some { IfSome result (λ settings. Holds (map string_bytes words.now) (seen_settings settings)) }
        ensures none { IfNone result (CannotHold (map string_bytes words.now)) }
    {
        let mut settings = Settings {
            values: [None; Name::COUNT],
            switches: [false; Switch::COUNT],
        };
        let mut left = words;
        while let [word, behind @ ..] = left {
            left = settings.take(word.as_str(), behind)?;
        }
        Some(settings)
    }

    /// The value of an option, where it stands.
    pub(crate) fn value(&self, name: Name) -> Option<&'a str>
        ensures { option_copied result ≡ (seen_settings self.now).value name }
    {
        self.values[name.place()]
    }

    /// Whether an option without a value stands.
    pub(crate) fn stands(&self, switch: Switch) -> bool
        ensures { result ≡ (seen_settings self.now).stands switch }
    {
        self.switches[switch.place()]
    }

    // Takes the setting that begins with a word, and answers the words behind it.
    fn take(&mut self, word: &'a str, behind: &'a [String]) -> Option<&'a [String]>
        ensures some { IfSome result (λ left. Takes (seen_settings self.old) (word.now ∷ map string_bytes behind.now) (seen_settings self.new) (map string_bytes left.now)) }
        ensures none { IfNone result (CannotTake (seen_settings self.old) (word.now ∷ map string_bytes behind.now)) }
    {
        match opening_of(word)? {
            Opening::Alone(switch) => {
                self.turn_on(switch)?;
                Some(behind)
            }
            Opening::Joined(name, value) => {
                self.set(name, value)?;
                Some(behind)
            }
            Opening::Apart(name) => {
                let [value, left @ ..] = behind else {
                    return None;
                };
                self.set(name, value.as_str())?;
                Some(left)
            }
        }
    }

    fn set(&mut self, name: Name, value: &'a str) -> Option<()>
        ensures some { OnSome result (Sets (seen_settings self.old) name value.now (seen_settings self.new)) }
        ensures none { IfNone result (IsSome ((seen_settings self.old).value name)) }
    {
        if self.value(name).is_some() {
            return None;
        }
        self.values[name.place()] = Some(value);
        Some(())
    }

    fn turn_on(&mut self, switch: Switch) -> Option<()>
        ensures some { OnSome result (Turns (seen_settings self.old) switch (seen_settings self.new)) }
        ensures none { IfNone result ((seen_settings self.old).stands switch ≡ true) }
    {
        if self.stands(switch) {
            return None;
        }
        self.switches[switch.place()] = true;
        Some(())
    }
}
