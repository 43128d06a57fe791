ghost use Rattle.std.specs.Prelude.{◌≡◌, ◌≤◌, IfOk, IfErr, OnOk, IsSome, length};
ghost use Rattle.fem_text.specs.Counts.{after_good};
ghost use Rattle.fem_text.specs.Memory.{held_of};
ghost use Rattle.batch_texts.specs.Shelf.{size_of, size_limit};
ghost use Rattle.batch_sources.specs.Sources.{AreSources, EndsSources};
ghost use Rattle.batch_sources.specs.Steps.{HasJobs, EndsText, ReadsJobs, EndsJobs};
ghost use Rattle.batch_sources.specs.Steps as steps;

use crate::names::job_names;
use crate::{BatchEnding, BatchRefusal, BatchRole};
use batch_read::{BatchFault, BatchKind, Job, read_batch};
use batch_texts::{NameFault, Shelf};
use fem_text::Store;
use std::alloc::Global;

/// The jobs of a batch, and the texts that they name, that of the batch among them.
#[derive(Drop)]
pub struct BatchSources {
    pub jobs: Vec<Job>,
    pub shelf: Shelf,
}

/// Reads the batch text under a name, and then the texts that its jobs name, job by job, the mesh before the problem. A name
/// that was read is not read again, and all texts together have at most 268,435,456 bytes.
///
/// # Errors
///
/// The first refusal in the order of this work; or that a read failed, before which nothing is refused; or want of memory.
pub fn read_batch_sources<S: Store>(
    alloc: Global,
    name: &str,
    store: &mut S,
) -> Result<BatchSources, BatchEnding>
    ensures ok { IfOk result (λ read. AreSources (S.holds store.old) name.now read.jobs.items read.shelf × (S.counts store.new ≡ after_good (length read.shelf) (S.counts store.old))) }
    ensures ends { IfErr result (EndsSources (S.holds store.old) name.now (S.counts store.old) (S.counts store.new)) }
    ensures same { S.holds store.new ≡ S.holds store.old }
{
    let mut shelf = match Shelf::of_name(alloc, name, store) {
        Ok(shelf) => shelf,
        Err(fault) => return Err(name_ending(BatchRole::Batch, fault)),
    };
    let jobs = match jobs_of(alloc, name, &shelf) {
        Ok(jobs) => jobs,
        Err(ending) => return Err(ending),
    };
    match read_jobs(alloc, jobs.as_slice(), &mut shelf, store) {
        Ok(()) => Ok(BatchSources { jobs, shelf }),
        Err(ending) => Err(ending),
    }
}

// The jobs of the batch text, which was read.
fn jobs_of(alloc: Global, name: &str, shelf: &Shelf) -> Result<Vec<Job>, BatchEnding>
    requires there { IsSome (held_of shelf.now name.now) }
    requires few { size_of shelf.now ≤ size_limit }
    ensures ok { IfOk result (λ jobs. HasJobs shelf.now name.now jobs.items) }
    ensures ends { IfErr result (EndsText shelf.now name.now) }
{
    let Some(text) = shelf.text(name) else {
        unreachable!()
    };
    match read_batch(alloc, text) {
        Ok(jobs) => Ok(jobs),
        Err(fault) => Err(line_ending(fault)),
    }
}

// Reads the texts that the jobs name.
fn read_jobs<S: Store>(
    alloc: Global,
    jobs: &[Job],
    shelf: &mut Shelf,
    store: &mut S,
) -> Result<(), BatchEnding>
    requires { length jobs.now ≤ 65536 }
    ensures ok { OnOk result (ReadsJobs (S.holds store.old) jobs.now shelf.old shelf.new (S.counts store.old) (S.counts store.new)) }
    ensures ends { IfErr result (EndsJobs (S.holds store.old) jobs.now shelf.old (S.counts store.old) (S.counts store.new)) }
    ensures same { S.holds store.new ≡ S.holds store.old }
{
    let reads = match job_names(alloc, jobs) {
        Ok(reads) => reads,
        Err(_) => return Err(BatchEnding::NoMemory),
    };
    match shelf.read_all(alloc, reads.as_slice(), store) {
        Ok(()) => Ok(()),
        Err(stopped) => Err(name_ending(BatchRole::Job(stopped.job), stopped.fault)),
    }
}

// How a batch ends that has no text under a name, for this cause.
fn name_ending(role: BatchRole, fault: NameFault) -> BatchEnding
    ensures { result ≡ steps.name_ending role fault }
{
    match fault {
        NameFault::Absent => BatchEnding::Refused(BatchRefusal::Absent(role)),
        NameFault::Size => BatchEnding::Refused(BatchRefusal::Size),
        NameFault::Failed => BatchEnding::ReadFault(role),
        NameFault::NoMemory => BatchEnding::NoMemory,
    }
}

// How a batch ends whose text has this fault.
fn line_ending(fault: BatchFault) -> BatchEnding
    ensures { result ≡ steps.line_ending fault.kind fault.line }
{
    match fault.kind {
        BatchKind::Words => BatchEnding::Refused(BatchRefusal::Text(fault.line)),
        BatchKind::Count => BatchEnding::Refused(BatchRefusal::Count(fault.line)),
        BatchKind::NoMemory => BatchEnding::NoMemory,
    }
}
