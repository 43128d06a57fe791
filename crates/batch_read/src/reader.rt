ghost use Rattle.std.specs.Prelude.{◌≡◌, ◌≤◌, ◌⊎◌, ◌++◌, ◌∷◌, [], ℕ, List, length, IfOk, IfErr, OnOk};
ghost use Rattle.fem_text.specs.Lines.{words_of};
ghost use Rattle.batch_read.specs.declared.fault.BatchKind.{BatchKind};
ghost use Rattle.batch_read.specs.Batch.{BatchText, BatchFaultAt, IsJob, IsLineFault, NoMemoryOr};

use crate::{BatchFault, BatchKind, Job};
use fem_fixed::NoMemory;
use fem_text::{TextLine, WordLines};
use run_words::words_have_a_job_or_none;
use std::alloc::Global;

// The greatest number of jobs.
const JOB_LIMIT: usize = 65_536;

/// Reads a batch text: one job a line, in words parted by spaces and tabs. Blank lines and lines that begin with `#` are
/// passed over. There are at most 65,536 jobs.
///
/// The text has at most 4,294,967,294 bytes. An error is the first fault of the text, or that memory ran out.
pub fn read_batch(alloc: Global, text: &[u8]) -> Result<Vec<Job>, BatchFault>
    requires { length text.now ≤ 4294967294 }
    ensures ok { IfOk result (λ jobs. BatchText text.now jobs.items) }
    ensures err { IfErr result (λ fault. NoMemoryOr fault (BatchFaultAt text.now fault.kind fault.line)) }
{
    let mut lines = WordLines::new(text, Some(b'#'));
    let mut jobs = Vec::new(alloc);
    while let Some(line) = lines.next_line() {
        add_job(alloc, &line, &mut jobs)?;
    }
    Ok(jobs)
}

// Adds the job of a line, or tells what is wrong with the line.
fn add_job(alloc: Global, line: &TextLine, jobs: &mut Vec<Job>) -> Result<(), BatchFault>
    requires { length jobs.old.items ≤ 65536 }
    ensures added { OnOk result (jobs.new.items ≡ jobs.old.items ++ words_of line.now.bytes.now ∷ []) }
    ensures job { OnOk result (IsJob (words_of line.now.bytes.now)) }
    ensures few { OnOk result (length jobs.new.items ≤ 65536) }
    ensures err { IfErr result (λ fault. NoMemoryOr fault (IsLineFault fault.kind (length jobs.old.items) (words_of line.now.bytes.now) × (fault.line ≡ line.now.number))) }
{
    let Some(job) = Job::of(alloc, line)? else {
        return Err(BatchFault {
            kind: BatchKind::Words,
            line: line.number,
        });
    };
    if jobs.len() >= JOB_LIMIT {
        return Err(BatchFault {
            kind: BatchKind::Count,
            line: line.number,
        });
    }
    keep(jobs, job)?;
    Ok(())
}

fn keep(jobs: &mut Vec<Job>, job: Job) -> Result<(), NoMemory>
    ensures { OnOk result (jobs.new.items ≡ jobs.old.items ++ job ∷ []) }
{
    jobs.push(job)?;
    Ok(())
}

/// Each text has one reading: jobs or a fault, never both, and no two of either.
pub fn one_reading()
    ensures jobs { (text : List ℕ) (first second : List (List (List ℕ))) → BatchText text first → BatchText text second → first ≡ second }
    ensures fault { (text : List ℕ) (kind other : BatchKind) (line another : ℕ) →
        BatchFaultAt text kind line → BatchFaultAt text other another → (kind ≡ other) × (line ≡ another) }
    ensures apart { (text : List ℕ) (jobs : List (List (List ℕ))) (kind : BatchKind) (line : ℕ) →
        BatchText text jobs → BatchFaultAt text kind line → ⊥ }
    ensures some { (text : List ℕ) → ((jobs : List (List (List ℕ))) × BatchText text jobs) ⊎ ((kind : BatchKind) × (line : ℕ) × BatchFaultAt text kind line) }
{
    words_have_a_job_or_none();
}
