//! The status and the line of a batch's ending.
ghost use Rattle.std.specs.Prelude.{◌≡◌};
ghost use Rattle.diagnostics.specs.Lines.{TookLine};
ghost use Rattle.batch_sources.specs.Lines.{batch_status, batch_ending_status};
ghost use Rattle.batch_sources.specs.Lines as lines;

use crate::{BatchEnding, BatchRefusal, BatchRole};
use diagnostics::{put_fault, put_word};
use fem_text::Sink;

impl BatchRefusal {
    /// The status that the program ends with.
    pub fn status(self) -> u8
        ensures { result ≡ batch_status self }
    {
        match self {
            BatchRefusal::Text(_) => 16,
            BatchRefusal::Count(_) | BatchRefusal::Size => 9,
            BatchRefusal::Absent(_) => 17,
        }
    }

    // Puts the line of the refusal.
    fn put_line<K: Sink>(self, err: &mut K)
        ensures { TookLine (K.taken err.old) (K.taken err.new) (K.counts err.old) (K.counts err.new) (lines.batch_refusal_line self) }
    {
        match self {
            BatchRefusal::Text(line) => put_fault(err, b"16 BatchText ", b"line", line),
            BatchRefusal::Count(line) => put_fault(err, b"9 Limit BatchCount ", b"line", line),
            BatchRefusal::Size => put_word(err, b"9 Limit ", b"BatchSize"),
            BatchRefusal::Absent(role) => put_role(err, b"17 Absent ", role),
        }
    }
}

impl BatchEnding {
    /// The status that the program ends with.
    pub fn status(self) -> u8
        ensures { result ≡ batch_ending_status self }
    {
        match self {
            BatchEnding::Refused(refusal) => refusal.status(),
            BatchEnding::ReadFault(_) => 10,
            BatchEnding::WriteFault => 11,
            BatchEnding::NoMemory => 12,
        }
    }

    /// Puts the line of the ending, or a prefix of it where a put fails, which is then the last one.
    pub fn put_line<K: Sink>(self, err: &mut K)
        ensures { TookLine (K.taken err.old) (K.taken err.new) (K.counts err.old) (K.counts err.new) (lines.batch_ending_line self) }
    {
        match self {
            BatchEnding::Refused(refusal) => refusal.put_line(err),
            BatchEnding::ReadFault(role) => put_role(err, b"10 ReadFault ", role),
            BatchEnding::WriteFault => put_word(err, b"11 WriteFault ", b"matrix"),
            BatchEnding::NoMemory => put_word(err, b"12 ", b"NoMemory"),
        }
    }
}

// A line that ends with a text that a batch reads.
fn put_role<K: Sink>(err: &mut K, front: &'static [u8], role: BatchRole)
    ensures { TookLine (K.taken err.old) (K.taken err.new) (K.counts err.old) (K.counts err.new) (lines.role_line front.now role) }
{
    match role {
        BatchRole::Batch => put_word(err, front, b"batch"),
        BatchRole::Job(job) => put_fault(err, front, b"job", job),
    }
}
