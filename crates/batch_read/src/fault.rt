use fem_fixed::NoMemory;
use fem_text::TextFault;

/// What is wrong with a batch text.
#[derive(Clone, Copy, Debug, PartialEq, Eq)]
pub enum BatchKind {
    /// The words of the line aren't text, or they ask for no job.
    Words = 1,
    /// This is job 65,537.
    Count = 2,
    /// Memory ran out. It says nothing of the text, and its line is 0.
    NoMemory = 3,
}

/// The first fault of a batch text, and the number of its line, counted from 1.
pub type BatchFault = TextFault<BatchKind>;

impl From<NoMemory> for BatchKind {
    ghost use Rattle.std.specs.Prelude.{◌≡◌};
    ghost use Rattle.batch_read.specs.declared.fault.BatchKind.TheVariants.{NoMemory};

    ghost from_gives = { λ _ kind. kind ≡ NoMemory };

    fn from(_error: NoMemory) -> BatchKind {
        BatchKind::NoMemory
    }
}
