ghost use Rattle.std.specs.Prelude.{◌≡◌, map, string_bytes};
ghost use Rattle.assemble_core.specs.Modes.{plain_modes, all_modes};
ghost use Rattle.assemble_core.specs.Run.{Leaves, IsRun, outside};
ghost use Rattle.assemble_core.specs.Batch.{IsAnyRun};

use crate::ask::{all_options, plain_options};
use crate::batch::run_batch;
use diagnostics::{Ending, Refusal};
use fem_text::{Sink, Store};
use run_outputs::write_targets;
use run_targets::{all_targets, plain_targets};
use run_words::{
    batch_is_named, batches_are_within, ordered_is_named, read_batch_words, wants_wait,
};
use scratch_pool::Gate;
use std::alloc::Global;
use std::rt::Runtime;
use std::sync::Wait;
use std::thread::Threads;

/// The program: reads the mesh and the problem that the words name, or generates them, and the vector, and writes what the
/// words ask for.
///
/// The status is 0 where all was written, and else that of the first fault in the order of work: the words; the mesh text,
/// read and judged in its format, and then the problem text; the coarse mesh, its steps of refinement, the constraint lines,
/// the pattern; the sums; the writing. The mode `mesh` goes from the problem text to the writing. A vector is read and its text
/// judged behind the problem text. In the mode `product` its values are looked at behind the pattern, and then its product is
/// made; in the modes `marks` and `adapt` they are looked at behind the steps of refinement, and then its indicators are made,
/// and `adapt` goes on with one more step.
///
/// | Status | Where |
/// |---|---|
/// | 2 | the words ask for nothing |
/// | 10 | a read failed: the first where the line names the mesh, the second where it names the problem, the last where it names the vector |
/// | 17 | the store tells that a text is absent |
/// | 9 | a text, a count, a level, the cells or the entries pass their limit |
/// | 3 | the mesh text has another fault |
/// | 4 | the problem text has another fault |
/// | 5 | the coarse mesh or a step of its refinement has another fault |
/// | 6 | the constraint lines have a fault |
/// | 7 | the local form of a cell or of one of its faces has a fault |
/// | 8 | an addition passes 2^80 in size |
/// | 14 | the text of the vector has another fault, or it hasn't one value for each degree of freedom, or one is too large |
/// | 15 | the product of a local row with the vector passes 2^104 in size |
/// | 11 | a write or a put failed: the texts before it are whole, and of it a part stands |
/// | 12 | memory ran out: nothing is written, or the first of two texts alone |
///
/// With each status but 0 one line goes to `err`, last. With a status other than 0, 11 and 12 nothing is written, and with 0
/// and 11 all texts that the words name were read.
/// It always returns.
pub fn run_plain<R: Runtime + Threads + Sync, S: Store, K: Sink, G: Gate + Sync>(
    rt: &R,
    alloc: Global,
    words: &[String],
    store: &mut S,
    out: &mut K,
    err: &mut K,
    gate: &G,
) -> u8
    ensures { IsRun plain_modes (map string_bytes words.now) (outside S.holds S.counts K.taken K.counts store.old out.old err.old) (outside S.holds S.counts K.taken K.counts store.new out.new err.new) result }
{
    match plain_work(rt, alloc, words, store, out, gate) {
        Ok(()) => 0,
        Err(ending) => {
            ending.put_line(err);
            ending.status()
        }
    }
}

/// The program with the mode `ordered` and with batches, in which it may wait for another thread: what it leaves is said of a
/// run that returns. Words that ask for no batch it answers as [`run_plain`] does, beside those of that mode.
///
/// A batch has a text with a job on each line, each the words of a run of its own. Its text is read first, and then job by
/// job the mesh and the problem, each name once. The jobs run by workers that take one after another, and a worker passes the
/// gate with the number of a job, counted from 0, before it runs it. What is written is for each job, in their order, the line
/// `job K status S` and behind it what a run of its words writes, or its line: so what is wrong with one job is no fault of the
/// batch. The status is 0 where that was written, and else that of the first fault in the order of work.
///
/// | Status | Where |
/// |---|---|
/// | 10 | a read failed: that of the batch text, or that of a text of the job that the line names |
/// | 17 | the store tells that one of them is absent |
/// | 9 | all texts together have more than 268,435,456 bytes, each name once; or there are more than 65,536 jobs |
/// | 16 | a line of the batch text isn't text, or its words ask for no job |
/// | 11 | a write or a put failed: a part of the text stands |
/// | 12 | memory ran out: nothing is written |
///
/// With each status but 0 one line goes to `err`, last. With a status other than 0 and 11 nothing is written.
pub fn run<R: Runtime + Threads + Wait + Sync, S: Store, K: Sink, G: Gate + Sync>(
    rt: &R,
    alloc: Global,
    words: &[String],
    store: &mut S,
    out: &mut K,
    err: &mut K,
    gate: &G,
) -> u8
    ensures { IsAnyRun (map string_bytes words.now) (outside S.holds S.counts K.taken K.counts store.old out.old err.old) (outside S.holds S.counts K.taken K.counts store.new out.new err.new) result }
{
    batches_are_within();
    match read_batch_words(words) {
        Some(options) => run_batch(rt, alloc, &options, store, out, err, gate),
        None => run_alone(rt, alloc, words, store, out, err, gate),
    }
}

/// The program on any words: [`run`] where they name the mode `ordered` or a batch, and else [`run_plain`], which never waits.
/// Both answer such words alike, so all that is said of [`run`] holds.
pub fn run_chosen<R: Runtime + Threads + Wait + Sync, S: Store, K: Sink, G: Gate + Sync>(
    rt: &R,
    alloc: Global,
    words: &[String],
    store: &mut S,
    out: &mut K,
    err: &mut K,
    gate: &G,
) -> u8
    ensures { IsAnyRun (map string_bytes words.now) (outside S.holds S.counts K.taken K.counts store.old out.old err.old) (outside S.holds S.counts K.taken K.counts store.new out.new err.new) result }
{
    ordered_is_named();
    batch_is_named();
    if wants_wait(words) {
        return run(rt, alloc, words, store, out, err, gate);
    }
    run_plain(rt, alloc, words, store, out, err, gate)
}

// A run of words that ask for no batch.
fn run_alone<R: Runtime + Threads + Wait + Sync, S: Store, K: Sink, G: Gate + Sync>(
    rt: &R,
    alloc: Global,
    words: &[String],
    store: &mut S,
    out: &mut K,
    err: &mut K,
    gate: &G,
) -> u8
    ensures { IsRun all_modes (map string_bytes words.now) (outside S.holds S.counts K.taken K.counts store.old out.old err.old) (outside S.holds S.counts K.taken K.counts store.new out.new err.new) result }
{
    match work(rt, alloc, words, store, out, gate) {
        Ok(()) => 0,
        Err(ending) => {
            ending.put_line(err);
            ending.status()
        }
    }
}

// Reads, assembles and writes.
fn plain_work<R: Runtime + Threads + Sync, S: Store, K: Sink, G: Gate + Sync>(
    rt: &R,
    alloc: Global,
    words: &[String],
    store: &mut S,
    out: &mut K,
    gate: &G,
) -> Result<(), Ending>
    ensures { Leaves plain_modes (map string_bytes words.now)
        (record { holds = S.holds store.old; taken = K.taken out.old; store = S.counts store.old; out = K.counts out.old })
        (record { holds = S.holds store.new; taken = K.taken out.new; store = S.counts store.new; out = K.counts out.new })
        result }
{
    let Some(options) = plain_options(words) else {
        return Err(Ending::Refused(Refusal::Words));
    };
    let targets = match plain_targets(rt, alloc, &options, store, gate) {
        Ok(targets) => targets,
        Err(ending) => return Err(ending),
    };
    write_targets(alloc, targets.as_slice(), store, out)
}

// The same, and it may wait.
fn work<R: Runtime + Threads + Wait + Sync, S: Store, K: Sink, G: Gate + Sync>(
    rt: &R,
    alloc: Global,
    words: &[String],
    store: &mut S,
    out: &mut K,
    gate: &G,
) -> Result<(), Ending>
    ensures { Leaves all_modes (map string_bytes words.now)
        (record { holds = S.holds store.old; taken = K.taken out.old; store = S.counts store.old; out = K.counts out.old })
        (record { holds = S.holds store.new; taken = K.taken out.new; store = S.counts store.new; out = K.counts out.new })
        result }
{
    let Some(options) = all_options(words) else {
        return Err(Ending::Refused(Refusal::Words));
    };
    let targets = match all_targets(rt, alloc, &options, store, gate) {
        Ok(targets) => targets,
        Err(ending) => return Err(ending),
    };
    write_targets(alloc, targets.as_slice(), store, out)
}
