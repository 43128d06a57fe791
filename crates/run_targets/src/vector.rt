ghost use Rattle.std.specs.Prelude.{◌≡◌, ◌≤◌, ◌<◌, ◌^◌, length, map, Ok, IfOk, IfErr};
ghost use Rattle.ucd_read.specs.Bounds.{IsBounded};
ghost use Rattle.fem_text.specs.Counts.{after_call};
ghost use Rattle.run_words.specs.Choice.{seen};
ghost use Rattle.run_words.specs.Ranges.{IsWithinRanges};
ghost use Rattle.run_texts.specs.Read.{is_read_fault};
ghost use Rattle.run_texts.specs.Read as reading;
ghost use Rattle.run_outputs.specs.Targets.{seen_target};
ghost use Rattle.diagnostics.specs.Stages.{Then, EndsIn};
ghost use Rattle.vector_texts.specs.Marks.{MarksTexts};
ghost use Rattle.run_targets.specs.Defines.{AssembledOn, FinerMesh, VectorMade, VectorTexts};

use crate::system::{plain_texts, prepare, prepare_on};
use diagnostics::{Ending, Role};
use fem_fixed::MeshParts;
use fem_text::Store;
use hanging_refine::Forest;
use matrix_market::Values;
use problem_read::Problem;
use run_outputs::Target;
use run_texts::read_vector_text;
use run_words::{Options, SystemMode, VectorTask};
use scratch_pool::Gate;
use std::alloc::Global;
use std::thread::Threads;
use system_setup::{refined_further, refined_mesh};
use vector_texts::{mark_cells, marks_targets, product_targets};

/// Reads the vector under a name, and makes of it what is asked for. It does not wait.
pub(crate) fn vector_targets<'a, R: Threads + Sync, S: Store, G: Gate + Sync>(
    rt: &R,
    alloc: Global,
    name: &str,
    task: VectorTask,
    options: &Options<'a>,
    read: (MeshParts, Problem),
    store: &mut S,
    gate: &G,
) -> Result<Vec<Target<'a>>, Ending>
    requires within { IsWithinRanges (seen options.now) }
    requires bounded { IsBounded read.0 }
    requires ids { length read.0.ids ≤ 2 ^ 20 }
    ensures ok { IfOk result (λ targets. VectorTexts (S.holds store.old) name.now task (seen options.now) read (Ok (map seen_target targets.items))) }
    ensures ends { IfErr result (reading.EndsIn Role.Vector (VectorTexts (S.holds store.old) name.now task (seen options.now) read)) }
    ensures same { S.holds store.new ≡ S.holds store.old }
    ensures calls { S.counts store.new ≡ after_call (is_read_fault result) (S.counts store.old) }
{
    let values = match read_vector_text(alloc, name, store) {
        Ok(values) => values,
        Err(ending) => return Err(ending),
    };
    targets_of(rt, alloc, task, options, read, &values, gate)
}

// What is made of a vector.
fn targets_of<'a, R: Threads + Sync, G: Gate + Sync>(
    rt: &R,
    alloc: Global,
    task: VectorTask,
    options: &Options<'a>,
    read: (MeshParts, Problem),
    values: &Values,
    gate: &G,
) -> Result<Vec<Target<'a>>, Ending>
    requires within { IsWithinRanges (seen options.now) }
    requires bounded { IsBounded read.0 }
    requires ids { length read.0.ids ≤ 2 ^ 20 }
    requires few { length values.now < 2 ^ 32 }
    ensures ok { IfOk result (λ targets. VectorMade task (seen options.now) read values.now (Ok (map seen_target targets.items))) }
    ensures ends { IfErr result (EndsIn (VectorMade task (seen options.now) read values.now)) }
{
    match task {
        VectorTask::Product => product(rt, alloc, options, read, values, gate),
        VectorTask::Marks(count) => marks(rt, alloc, count, options, read, values),
        VectorTask::Adapt(count) => adapted(rt, alloc, count, options, read, values, gate),
    }
}

// The product of the operator with a vector.
fn product<'a, R: Threads + Sync, G: Gate + Sync>(
    rt: &R,
    alloc: Global,
    options: &Options<'a>,
    read: (MeshParts, Problem),
    values: &Values,
    gate: &G,
) -> Result<Vec<Target<'a>>, Ending>
    requires within { IsWithinRanges (seen options.now) }
    requires bounded { IsBounded read.0 }
    requires ids { length read.0.ids ≤ 2 ^ 20 }
    requires few { length values.now < 2 ^ 32 }
    ensures ok { IfOk result (λ targets. VectorMade VectorTask.Product (seen options.now) read values.now (Ok (map seen_target targets.items))) }
    ensures ends { IfErr result (EndsIn (VectorMade VectorTask.Product (seen options.now) read values.now)) }
{
    match prepare(rt, alloc, options, read) {
        Ok(setup) => product_targets(rt, alloc, options, &setup, values, gate),
        Err(ending) => Err(ending),
    }
}

// The marked cells.
fn marks<'a, R: Threads + Sync>(
    rt: &R,
    alloc: Global,
    count: u32,
    options: &Options<'a>,
    read: (MeshParts, Problem),
    values: &Values,
) -> Result<Vec<Target<'a>>, Ending>
    requires bounded { IsBounded read.0 }
    requires few { length values.now < 2 ^ 32 }
    ensures ok { IfOk result (λ targets. VectorMade (VectorTask.Marks count) (seen options.now) read values.now (Ok (map seen_target targets.items))) }
    ensures ends { IfErr result (EndsIn (VectorMade (VectorTask.Marks count) (seen options.now) read values.now)) }
{
    let (parts, problem) = read;
    let (_ids, forest) = match refined_mesh(alloc, parts, &problem) {
        Ok(made) => made,
        Err(ending) => return Err(ending),
    };
    marks_on(rt, alloc, count, options, &forest, values)
}

// The marked cells of a refined mesh.
fn marks_on<'a, R: Threads + Sync>(
    rt: &R,
    alloc: Global,
    count: u32,
    options: &Options<'a>,
    forest: &Forest,
    values: &Values,
) -> Result<Vec<Target<'a>>, Ending>
    requires few { length values.now < 2 ^ 32 }
    ensures ok { IfOk result (λ targets. MarksTexts (seen options.now).output count values.now forest.now (Ok (map seen_target targets.items))) }
    ensures ends { IfErr result (EndsIn (MarksTexts (seen options.now).output count values.now forest.now)) }
{
    let marks = match mark_cells(rt, alloc, forest, values, count) {
        Ok(marks) => marks,
        Err(ending) => return Err(ending),
    };
    let targets = marks_targets(alloc, options.output, &marks)?;
    Ok(targets)
}

// The system on the mesh that is refined once more, at the marked cells.
fn adapted<'a, R: Threads + Sync, G: Gate + Sync>(
    rt: &R,
    alloc: Global,
    count: u32,
    options: &Options<'a>,
    read: (MeshParts, Problem),
    values: &Values,
    gate: &G,
) -> Result<Vec<Target<'a>>, Ending>
    requires within { IsWithinRanges (seen options.now) }
    requires bounded { IsBounded read.0 }
    requires ids { length read.0.ids ≤ 2 ^ 20 }
    requires few { length values.now < 2 ^ 32 }
    ensures ok { IfOk result (λ targets. VectorMade (VectorTask.Adapt count) (seen options.now) read values.now (Ok (map seen_target targets.items))) }
    ensures ends { IfErr result (EndsIn (VectorMade (VectorTask.Adapt count) (seen options.now) read values.now)) }
{
    let (parts, problem) = read;
    let (ids, forest) = match refined_mesh(alloc, parts, &problem) {
        Ok(made) => made,
        Err(ending) => return Err(ending),
    };
    adapted_on(
        rt,
        alloc,
        count,
        options,
        ids.as_slice(),
        problem,
        forest,
        values,
        gate,
    )
}

// The same of a refined mesh, with the node ids of the mesh text.
fn adapted_on<'a, R: Threads + Sync, G: Gate + Sync>(
    rt: &R,
    alloc: Global,
    count: u32,
    options: &Options<'a>,
    ids: &[u32],
    problem: Problem,
    forest: Forest,
    values: &Values,
    gate: &G,
) -> Result<Vec<Target<'a>>, Ending>
    requires within { IsWithinRanges (seen options.now) }
    requires ids { length ids.now ≤ 2 ^ 20 }
    requires few { length values.now < 2 ^ 32 }
    ensures ok { IfOk result (λ targets. Then (FinerMesh count values.now forest) (AssembledOn (seen options.now) ids.now problem) (Ok (map seen_target targets.items))) }
    ensures ends { IfErr result (EndsIn (Then (FinerMesh count values.now forest) (AssembledOn (seen options.now) ids.now problem))) }
{
    match finer_mesh(rt, alloc, forest, values, count) {
        Ok(finer) => texts_on(rt, alloc, options, ids, problem, finer, gate),
        Err(ending) => Err(ending),
    }
}

// The texts of the system on a refined mesh, in the order of its cells.
fn texts_on<'a, R: Threads + Sync, G: Gate + Sync>(
    rt: &R,
    alloc: Global,
    options: &Options<'a>,
    ids: &[u32],
    problem: Problem,
    forest: Forest,
    gate: &G,
) -> Result<Vec<Target<'a>>, Ending>
    requires within { IsWithinRanges (seen options.now) }
    requires ids { length ids.now ≤ 2 ^ 20 }
    ensures ok { IfOk result (λ targets. AssembledOn (seen options.now) ids.now problem forest (Ok (map seen_target targets.items))) }
    ensures ends { IfErr result (EndsIn (AssembledOn (seen options.now) ids.now problem forest)) }
{
    match prepare_on(rt, alloc, options, ids, problem, forest) {
        Ok(setup) => plain_texts(rt, alloc, SystemMode::Serial, options, &setup, gate),
        Err(ending) => Err(ending),
    }
}

// The mesh with the marked cells refined.
fn finer_mesh<R: Threads + Sync>(
    rt: &R,
    alloc: Global,
    forest: Forest,
    values: &Values,
    count: u32,
) -> Result<Forest, Ending>
    requires few { length values.now < 2 ^ 32 }
    ensures ok { IfOk result (λ finer. FinerMesh count values.now forest (Ok finer)) }
    ensures ends { IfErr result (EndsIn (FinerMesh count values.now forest)) }
{
    let marks = match mark_cells(rt, alloc, &forest, values, count) {
        Ok(marks) => marks,
        Err(ending) => return Err(ending),
    };
    refined_further(forest, &marks.cells)
}
