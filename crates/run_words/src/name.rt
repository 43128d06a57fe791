ghost use Rattle.std.specs.Prelude.{◌≡◌};
ghost use Rattle.run_words.specs.Names.{spelled, place_of};
ghost use Rattle.run_words.specs.Openings.{find_name};

/// An option that has a value.
#[derive(Clone, Copy)]
pub(crate) enum Name {
    Mode,
    Mesh,
    Problem,
    Workers,
    Queue,
    Chunk,
    Scratch,
    Digits,
    Faces,
    Matrix,
    Rhs,
    Generate,
    Seed,
    Format,
    Subdomain,
    Ghost,
    Vector,
    Mark,
    Batch,
    Degree,
}

impl Name {
    pub(crate) const COUNT: usize = 20;

    #[tactic(auto, unfolding(crate::specs::Names::spelled))]
    fn spelled(self) -> &'static str
        ensures { result.now ≡ spelled self }
    {
        match self {
            Name::Mode => "--mode",
            Name::Mesh => "--mesh",
            Name::Problem => "--problem",
            Name::Workers => "--workers",
            Name::Queue => "--queue",
            Name::Chunk => "--chunk",
            Name::Scratch => "--scratch",
            Name::Digits => "--digits",
            Name::Faces => "--faces",
            Name::Matrix => "--matrix",
            Name::Rhs => "--rhs",
            Name::Generate => "--generate",
            Name::Seed => "--seed",
            Name::Format => "--format",
            Name::Subdomain => "--subdomain",
            Name::Ghost => "--ghost",
            Name::Vector => "--vector",
            Name::Mark => "--mark",
            Name::Batch => "--batch",
            Name::Degree => "--degree",
        }
    }

    /// Its place among all the options that have a value.
    pub(crate) fn place(self) -> usize
        ensures { result ≡ place_of self }
    {
        self as usize
    }
}

pub(crate) const NAMES: [Name; 20] = [
    Name::Mode,
    Name::Mesh,
    Name::Problem,
    Name::Workers,
    Name::Queue,
    Name::Chunk,
    Name::Scratch,
    Name::Digits,
    Name::Faces,
    Name::Matrix,
    Name::Rhs,
    Name::Generate,
    Name::Seed,
    Name::Format,
    Name::Subdomain,
    Name::Ghost,
    Name::Vector,
    Name::Mark,
    Name::Batch,
    Name::Degree,
];

/// The option that a word spells.
#[tactic(auto, unfolding(crate::specs::Openings::find_name))]
pub(crate) fn find_name(word: &str) -> Option<Name>
    ensures { result ≡ find_name word.now }
{
    NAMES.iter().copied().find(|name| name.spelled() == word)
}
