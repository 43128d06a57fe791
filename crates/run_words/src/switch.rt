ghost use Rattle.std.specs.Prelude.{◌≡◌};
ghost use Rattle.run_words.specs.Switches.{spelled_alone, switch_place};
ghost use Rattle.run_words.specs.Openings.{find_switch};

/// An option that stands alone, without a value.
#[derive(Clone, Copy)]
pub(crate) enum Switch {
    Summary,
    GhostCells,
}

impl Switch {
    pub(crate) const COUNT: usize = 2;

    #[tactic(auto, unfolding(crate::specs::Switches::spelled_alone))]
    fn spelled(self) -> &'static str
        ensures { result.now ≡ spelled_alone self }
    {
        match self {
            Switch::Summary => "--summary",
            Switch::GhostCells => "--ghost-cells",
        }
    }

    /// Its place among all the options that stand alone.
    pub(crate) fn place(self) -> usize
        ensures { result ≡ switch_place self }
    {
        self as usize
    }
}

pub(crate) const SWITCHES: [Switch; 2] = [Switch::Summary, Switch::GhostCells];

/// The option that a word spells.
#[tactic(auto, unfolding(crate::specs::Openings::find_switch))]
pub(crate) fn find_switch(word: &str) -> Option<Switch>
    ensures { result ≡ find_switch word.now }
{
    SWITCHES
        .iter()
        .copied()
        .find(|switch| switch.spelled() == word)
}
