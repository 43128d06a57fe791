ghost use Rattle.std.specs.Prelude.{◌≡◌};

use fem_fixed::NoMemory;

/// A text that a batch reads.
#[derive(Clone, Copy, Debug, PartialEq, Eq)]
pub enum BatchRole {
    /// The text with a job on each line.
    Batch,
    /// The mesh or the problem of a job; jobs are counted from 0.
    Job(u32),
}

/// Why the words and the texts of a batch have no result. What is wrong with one job is a part of the result.
#[derive(Clone, Copy, Debug, PartialEq, Eq)]
pub enum BatchRefusal {
    /// The words on this line of the batch text ask for no job.
    Text(u32),
    /// There are too many jobs, the first one too many on this line.
    Count(u32),
    /// All texts together have more than 268,435,456 bytes.
    Size,
    /// The store tells what it holds, and the text isn't held.
    Absent(BatchRole),
}

/// How a batch ends that doesn't write its text.
#[derive(Clone, Copy, Debug, PartialEq, Eq)]
pub enum BatchEnding {
    /// The words and the texts have no result.
    Refused(BatchRefusal),
    /// The read of this text failed.
    ReadFault(BatchRole),
    /// The write of the text failed.
    WriteFault,
    /// Memory ran out.
    NoMemory,
}

impl From<NoMemory> for BatchEnding {
    ghost use Rattle.batch_sources.specs.declared.ending.BatchEnding.TheVariants.{NoMemory as OutOfMemory};

    ghost from_gives = { λ _ e. e ≡ OutOfMemory };

    fn from(_error: NoMemory) -> BatchEnding {
        BatchEnding::NoMemory
    }
}
