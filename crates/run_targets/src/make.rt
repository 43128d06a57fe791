ghost use Rattle.std.specs.Prelude.{◌≡◌, ◌≤◌, ◌^◌, length, map, Ok, IfOk, IfErr};
ghost use Rattle.ucd_read.specs.Bounds.{IsBounded};
ghost use Rattle.run_words.specs.Choice.{seen, vector_in};
ghost use Rattle.run_words.specs.Ranges.{IsWithinRanges};
ghost use Rattle.run_outputs.specs.Targets.{seen_target};
ghost use Rattle.run_texts.specs.Read.{after_read, is_read_fault};
ghost use Rattle.run_targets.specs.Defines.{Made};
ghost use Rattle.run_targets.specs.Ends.{EndsMaking};

use crate::mesh::mesh_targets;
use crate::system::{any_system, plain_system};
use crate::vector::vector_targets;
use diagnostics::Ending;
use fem_fixed::MeshParts;
use fem_text::Store;
use problem_read::Problem;
use run_outputs::Target;
use run_words::{Mode, Options};
use scratch_pool::Gate;
use std::alloc::Global;
use std::sync::Wait;
use std::thread::Threads;

/// What the mode makes of a mesh and a problem, and of the vector that it reads. It does not wait.
pub(crate) fn make_plain<'a, R: Threads + Sync, S: Store, G: Gate + Sync>(
    rt: &R,
    alloc: Global,
    options: &Options<'a>,
    read: (MeshParts, Problem),
    store: &mut S,
    gate: &G,
) -> Result<Vec<Target<'a>>, Ending>
    requires within { IsWithinRanges (seen options.now) }
    requires bounded { IsBounded read.0 }
    requires ids { length read.0.ids ≤ 2 ^ 20 }
    ensures ok { IfOk result (λ targets. Made (S.holds store.old) (seen options.now).mode (seen options.now) read (Ok (map seen_target targets.items))) }
    ensures ends { IfErr result (EndsMaking (S.holds store.old) (seen options.now) read) }
    ensures same { S.holds store.new ≡ S.holds store.old }
    ensures calls { S.counts store.new ≡ after_read (vector_in (seen options.now).mode) (is_read_fault result) (S.counts store.old) }
{
    match options.mode {
        Mode::System(mode) => plain_system(rt, alloc, mode, options, read, gate),
        Mode::Mesh => mesh_targets(alloc, options.output, &read.0),
        Mode::Vector { name, task } => {
            vector_targets(rt, alloc, name, task, options, read, store, gate)
        }
    }
}

/// The same in each mode. It may wait for another thread.
pub(crate) fn make_any<'a, R: Threads + Wait + Sync, S: Store, G: Gate + Sync>(
    rt: &R,
    alloc: Global,
    options: &Options<'a>,
    read: (MeshParts, Problem),
    store: &mut S,
    gate: &G,
) -> Result<Vec<Target<'a>>, Ending>
    requires within { IsWithinRanges (seen options.now) }
    requires bounded { IsBounded read.0 }
    requires ids { length read.0.ids ≤ 2 ^ 20 }
    ensures ok { IfOk result (λ targets. Made (S.holds store.old) (seen options.now).mode (seen options.now) read (Ok (map seen_target targets.items))) }
    ensures ends { IfErr result (EndsMaking (S.holds store.old) (seen options.now) read) }
    ensures same { S.holds store.new ≡ S.holds store.old }
    ensures calls { S.counts store.new ≡ after_read (vector_in (seen options.now).mode) (is_read_fault result) (S.counts store.old) }
{
    match options.mode {
        Mode::System(mode) => any_system(rt, alloc, mode, options, read, gate),
        Mode::Mesh => mesh_targets(alloc, options.output, &read.0),
        Mode::Vector { name, task } => {
            vector_targets(rt, alloc, name, task, options, read, store, gate)
        }
    }
}
