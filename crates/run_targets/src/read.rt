ghost use Rattle.std.specs.Prelude.{◌≡◌, map, IfOk, IfErr, Ok};
ghost use Rattle.run_words.specs.Choice.{seen};
ghost use Rattle.run_words.specs.Ranges.{IsWithinRanges};
ghost use Rattle.run_outputs.specs.Targets.{seen_target};
ghost use Rattle.run_targets.specs.Defines.{Defines};
ghost use Rattle.run_targets.specs.Reads.{ChoiceReads};
ghost use Rattle.run_targets.specs.Ends.{EndsDefining};

use crate::make::{make_any, make_plain};
use diagnostics::Ending;
use fem_text::Store;
use run_outputs::Target;
use run_texts::read_source;
use run_words::Options;
use scratch_pool::Gate;
use std::alloc::Global;
use std::sync::Wait;
use std::thread::Threads;

/// The texts that are asked for, and where they go. It does not wait: the mode `ordered` goes cell by cell, as `serial` does.
///
/// # Errors
///
/// The first refusal in the order of work, that a read failed, or want of memory.
pub fn plain_targets<'a, R: Threads + Sync, S: Store, G: Gate + Sync>(
    rt: &R,
    alloc: Global,
    options: &Options<'a>,
    store: &mut S,
    gate: &G,
) -> Result<Vec<Target<'a>>, Ending>
    requires within { IsWithinRanges (seen options.now) }
    ensures ok { IfOk result (λ targets. Defines (S.holds store.old) (seen options.now) (Ok (map seen_target targets.items))) }
    ensures ends { IfErr result (EndsDefining (S.holds store.old) (seen options.now)) }
    ensures same { S.holds store.new ≡ S.holds store.old }
    ensures calls { ChoiceReads (seen options.now) result (S.counts store.old) (S.counts store.new) }
{
    match read_source(alloc, options.source, store) {
        Ok(read) => make_plain(rt, alloc, options, read, store, gate),
        Err(ending) => Err(ending),
    }
}

/// The same with a pipeline in the mode `ordered`. It may wait for another thread.
///
/// # Errors
///
/// As [`plain_targets`].
pub fn all_targets<'a, R: Threads + Wait + Sync, S: Store, G: Gate + Sync>(
    rt: &R,
    alloc: Global,
    options: &Options<'a>,
    store: &mut S,
    gate: &G,
) -> Result<Vec<Target<'a>>, Ending>
    requires within { IsWithinRanges (seen options.now) }
    ensures ok { IfOk result (λ targets. Defines (S.holds store.old) (seen options.now) (Ok (map seen_target targets.items))) }
    ensures ends { IfErr result (EndsDefining (S.holds store.old) (seen options.now)) }
    ensures same { S.holds store.new ≡ S.holds store.old }
    ensures calls { ChoiceReads (seen options.now) result (S.counts store.old) (S.counts store.new) }
{
    match read_source(alloc, options.source, store) {
        Ok(read) => make_any(rt, alloc, options, read, store, gate),
        Err(ending) => Err(ending),
    }
}
