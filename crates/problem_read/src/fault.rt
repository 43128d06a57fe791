use fem_fixed::NoMemory;
use fem_text::TextFault;

/// What is wrong with a problem text.
#[derive(Clone, Copy, Debug, PartialEq, Eq)]
pub enum ProblemKind {
    /// The first word is none of the eight, or the line hasn't the shape of its word.
    Word = 1,
    /// An id or a number isn't one, or is above its limit.
    Number = 2,
    /// An earlier line has the same word and number, or is a `penalty` too.
    Repeated = 3,
    /// This is `refine` line 33, `constraint` line 1,048,577, or a constraint of more than 16 terms.
    Limit = 4,
    /// Memory ran out. It says nothing of the text, and its line is 0.
    NoMemory = 5,
}

/// The first fault of a problem text, and the number of its line, counted from 1.
pub type ProblemFault = TextFault<ProblemKind>;

impl From<NoMemory> for ProblemKind {
    ghost use Rattle.std.specs.Prelude.{◌≡◌};
    ghost use Rattle.problem_read.specs.declared.fault.ProblemKind.TheVariants.{NoMemory};

    ghost from_gives = { λ _ kind. kind ≡ NoMemory };

    fn from(_error: NoMemory) -> ProblemKind {
        ProblemKind::NoMemory
    }
}
