//! The run of a batch: its texts, the text that its jobs come to, and where that goes.
ghost use Rattle.std.specs.Prelude.{◌≡◌};
ghost use Rattle.run_words.specs.Choice.{seen_destination};
ghost use Rattle.run_words.specs.BatchWords.{seen_batch, IsBatchWithinRanges};
ghost use Rattle.run_outputs.specs.Targets.{first_target};
ghost use Rattle.assemble_core.specs.Run.{outside};
ghost use Rattle.assemble_core.specs.Batch.{LeavesBatch, IsBatchRun, batch_target};
ghost use Rattle.assemble_core.specs.Writing.{IsOfWriting, EndsWriting, Writing};

use batch_run::batch_text;
use batch_sources::{BatchEnding, read_batch_sources};
use diagnostics::Ending;
use fem_text::{Sink, Store};
use run_outputs::{first_target, write_targets};
use run_words::{BatchOptions, Output};
use scratch_pool::Gate;
use std::alloc::Global;
use std::sync::Wait;
use std::thread::Threads;

/// Runs a batch: it answers the status, and with each status but 0 one line goes to `err`, last.
pub(crate) fn run_batch<R: Threads + Wait + Sync, S: Store, K: Sink, G: Gate + Sync>(
    rt: &R,
    alloc: Global,
    options: &BatchOptions<'_>,
    store: &mut S,
    out: &mut K,
    err: &mut K,
    gate: &G,
) -> u8
    requires { IsBatchWithinRanges (seen_batch options.now) }
    ensures { IsBatchRun (seen_batch options.now) (outside S.holds S.counts K.taken K.counts store.old out.old err.old) (outside S.holds S.counts K.taken K.counts store.new out.new err.new) result }
{
    match batch_work(rt, alloc, options, store, out, gate) {
        Ok(()) => 0,
        Err(ending) => {
            ending.put_line(err);
            ending.status()
        }
    }
}

// Reads, runs the jobs and writes.
fn batch_work<R: Threads + Wait + Sync, S: Store, K: Sink, G: Gate + Sync>(
    rt: &R,
    alloc: Global,
    options: &BatchOptions<'_>,
    store: &mut S,
    out: &mut K,
    gate: &G,
) -> Result<(), BatchEnding>
    requires { IsBatchWithinRanges (seen_batch options.now) }
    ensures { LeavesBatch (seen_batch options.now)
        (record { holds = S.holds store.old; taken = K.taken out.old; store = S.counts store.old; out = K.counts out.old })
        (record { holds = S.holds store.new; taken = K.taken out.new; store = S.counts store.new; out = K.counts out.new })
        result }
{
    let sources = match read_batch_sources(alloc, options.name, store) {
        Ok(sources) => sources,
        Err(ending) => return Err(ending),
    };
    let jobs = sources.jobs.as_slice();
    let text = match batch_text(rt, alloc, jobs, &sources.shelf, options.workers, gate) {
        Ok(text) => text,
        Err(_) => return Err(BatchEnding::NoMemory),
    };
    write_text(alloc, options, text, store, out)
}

// Writes the text of a batch.
fn write_text<S: Store, K: Sink>(
    alloc: Global,
    options: &BatchOptions<'_>,
    text: Vec<u8>,
    store: &mut S,
    out: &mut K,
) -> Result<(), BatchEnding>
    ensures { Writing (batch_target (seen_batch options.now) text.items)
        (record { holds = S.holds store.old; taken = K.taken out.old; store = S.counts store.old; out = K.counts out.old })
        (record { holds = S.holds store.new; taken = K.taken out.new; store = S.counts store.new; out = K.counts out.new })
        result }
{
    let output = Output::Texts {
        matrix: options.destination,
        right_side: None,
    };
    let targets = match first_target(alloc, output, text) {
        Ok(targets) => targets,
        Err(_) => return Err(BatchEnding::NoMemory),
    };
    match write_targets(alloc, targets.as_slice(), store, out) {
        Ok(()) => Ok(()),
        Err(ending) => Err(writing_ending(ending)),
    }
}

// How a batch ends whose writing ended so.
fn writing_ending(ending: Ending) -> BatchEnding
    requires { IsOfWriting ending }
    ensures { EndsWriting ending result }
{
    match ending {
        Ending::WriteFault(_) => BatchEnding::WriteFault,
        Ending::NoMemory => BatchEnding::NoMemory,
        Ending::Refused(_) | Ending::ReadFault(_) => unreachable!(),
    }
}
