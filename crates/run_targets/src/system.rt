ghost use Rattle.std.specs.Prelude.{◌≡◌, ◌≤◌, ◌^◌, length, map, Ok, IfOk, IfErr};
ghost use Rattle.std.specs.List.{concat};
ghost use Rattle.ucd_read.specs.Bounds.{IsBounded};
ghost use Rattle.mesh_loop.specs.Setup.{pattern_of};
ghost use Rattle.run_words.specs.Choice.{seen};
ghost use Rattle.run_words.specs.Ranges.{IsWithinRanges};
ghost use Rattle.run_outputs.specs.Targets.{seen_target};
ghost use Rattle.diagnostics.specs.Stages.{EndsIn};
ghost use Rattle.system_setup.specs.SetUp.{SetUpOn, IsSetUp};
ghost use Rattle.system_texts.specs.Sums.{Summed};
ghost use Rattle.system_texts.specs.Texts.{AreTargets, SystemTexts};
ghost use Rattle.run_targets.specs.Defines.{Assembled};
ghost use Rattle.run_targets.specs.Defines as meaning;

use diagnostics::Ending;
use fem_fixed::{MeshParts, NoMemory};
use hanging_refine::Forest;
use mesh_loop::Setup;
use mesh_visits::{Flags, Interior};
use problem_read::Problem;
use run_outputs::Target;
use run_words::{Faces, Options, SystemMode};
use scratch_pool::Gate;
use sparsity::Rows;
use std::alloc::Global;
use std::sync::Wait;
use std::thread::Threads;
use system_setup::{Degree, Scheme, set_up, set_up_on};
use system_texts::{make_targets, sum_rows, sum_rows_by_pipeline};

/// The texts of the system of a mesh and a problem. It does not wait.
pub(crate) fn plain_system<'a, R: Threads + Sync, G: Gate + Sync>(
    rt: &R,
    alloc: Global,
    mode: SystemMode,
    options: &Options<'a>,
    read: (MeshParts, Problem),
    gate: &G,
) -> Result<Vec<Target<'a>>, Ending>
    requires within { IsWithinRanges (seen options.now) }
    requires bounded { IsBounded read.0 }
    requires ids { length read.0.ids ≤ 2 ^ 20 }
    ensures ok { IfOk result (λ targets. Assembled mode (seen options.now) read (Ok (map seen_target targets.items))) }
    ensures ends { IfErr result (EndsIn (Assembled mode (seen options.now) read)) }
{
    match prepare(rt, alloc, options, read) {
        Ok(setup) => plain_texts(rt, alloc, mode, options, &setup, gate),
        Err(ending) => Err(ending),
    }
}

/// The texts of a system that is set up. It does not wait.
pub(crate) fn plain_texts<'a, R: Threads + Sync, G: Gate + Sync>(
    rt: &R,
    alloc: Global,
    mode: SystemMode,
    options: &Options<'a>,
    setup: &Setup,
    gate: &G,
) -> Result<Vec<Target<'a>>, Ending>
    requires within { IsWithinRanges (seen options.now) }
    requires few { length (concat (pattern_of setup.now)) ≤ 33554432 }
    ensures ok { IfOk result (λ targets. SystemTexts mode (seen options.now) setup.now (Ok (map seen_target targets.items))) }
    ensures ends { IfErr result (EndsIn (SystemTexts mode (seen options.now) setup.now)) }
{
    let rows = match sum_rows(rt, alloc, mode, options, setup, gate) {
        Ok(rows) => rows,
        Err(ending) => return Err(ending),
    };
    finish(alloc, mode, options, setup, rows)
}

/// The same with a pipeline in the mode `ordered`. It may wait for another thread.
pub(crate) fn any_system<'a, R: Threads + Wait + Sync, G: Gate + Sync>(
    rt: &R,
    alloc: Global,
    mode: SystemMode,
    options: &Options<'a>,
    read: (MeshParts, Problem),
    gate: &G,
) -> Result<Vec<Target<'a>>, Ending>
    requires within { IsWithinRanges (seen options.now) }
    requires bounded { IsBounded read.0 }
    requires ids { length read.0.ids ≤ 2 ^ 20 }
    ensures ok { IfOk result (λ targets. Assembled mode (seen options.now) read (Ok (map seen_target targets.items))) }
    ensures ends { IfErr result (EndsIn (Assembled mode (seen options.now) read)) }
{
    match prepare(rt, alloc, options, read) {
        Ok(setup) => any_texts(rt, alloc, mode, options, &setup, gate),
        Err(ending) => Err(ending),
    }
}

// The texts of a system that is set up. It may wait for another thread.
fn any_texts<'a, R: Threads + Wait + Sync, G: Gate + Sync>(
    rt: &R,
    alloc: Global,
    mode: SystemMode,
    options: &Options<'a>,
    setup: &Setup,
    gate: &G,
) -> Result<Vec<Target<'a>>, Ending>
    requires within { IsWithinRanges (seen options.now) }
    requires few { length (concat (pattern_of setup.now)) ≤ 33554432 }
    ensures ok { IfOk result (λ targets. SystemTexts mode (seen options.now) setup.now (Ok (map seen_target targets.items))) }
    ensures ends { IfErr result (EndsIn (SystemTexts mode (seen options.now) setup.now)) }
{
    let rows = match sum_rows_by_pipeline(rt, alloc, mode, options, setup, gate) {
        Ok(rows) => rows,
        Err(ending) => return Err(ending),
    };
    finish(alloc, mode, options, setup, rows)
}

/// Sets up. The mesh and the problem that the texts say are freed during it.
pub(crate) fn prepare<R: Threads + Sync>(
    rt: &R,
    alloc: Global,
    options: &Options,
    read: (MeshParts, Problem),
) -> Result<Setup, Ending>
    requires bounded { IsBounded read.0 }
    requires ids { length read.0.ids ≤ 2 ^ 20 }
    ensures ok { IfOk result (λ setup. IsSetUp (meaning.scheme_of (seen options.now)) read.0 read.1 (Ok setup)) }
    ensures few { IfOk result (λ setup. length (concat (pattern_of setup)) ≤ 33554432) }
    ensures ends { IfErr result (EndsIn (IsSetUp (meaning.scheme_of (seen options.now)) read.0 read.1)) }
{
    let (parts, problem) = read;
    set_up(rt, alloc, parts, problem, scheme_of(options))
}

/// Sets up on a refined mesh, with the node ids of the mesh text.
pub(crate) fn prepare_on<R: Threads + Sync>(
    rt: &R,
    alloc: Global,
    options: &Options,
    ids: &[u32],
    problem: Problem,
    forest: Forest,
) -> Result<Setup, Ending>
    requires ids { length ids.now ≤ 2 ^ 20 }
    ensures ok { IfOk result (λ setup. SetUpOn (meaning.scheme_of (seen options.now)) ids.now problem forest (Ok setup)) }
    ensures few { IfOk result (λ setup. length (concat (pattern_of setup)) ≤ 33554432) }
    ensures ends { IfErr result (EndsIn (SetUpOn (meaning.scheme_of (seen options.now)) ids.now problem forest)) }
{
    set_up_on(rt, alloc, ids, forest, problem, scheme_of(options))
}

// The texts of sums.
fn finish<'a>(
    alloc: Global,
    mode: SystemMode,
    options: &Options<'a>,
    setup: &Setup,
    rows: Option<Rows>,
) -> Result<Vec<Target<'a>>, Ending>
    requires few { length (concat (pattern_of setup.now)) ≤ 33554432 }
    requires sums { Summed mode options.now.digits setup.now (Ok rows) }
    ensures ok { IfOk result (λ targets. SystemTexts mode (seen options.now) setup.now (Ok (map seen_target targets.items))) }
    ensures ends { IfErr result (EndsIn (SystemTexts mode (seen options.now) setup.now)) }
{
    match make_targets(alloc, mode, options.output, setup, rows) {
        Ok(targets) => Ok(targets),
        Err(NoMemory) => Err(Ending::NoMemory),
    }
}

// What the run assembles.
fn scheme_of(options: &Options) -> Scheme
    ensures { result ≡ meaning.scheme_of (seen options.now) }
{
    Scheme {
        degree: degree_of(options.degree),
        flags: flags_of(options),
    }
}

// The degree of a number.
fn degree_of(number: u32) -> Degree
    ensures { result ≡ meaning.degree_of number }
{
    if number == 2 {
        Degree::Two
    } else {
        Degree::One
    }
}

// The flags of the run.
fn flags_of(options: &Options) -> Flags
    ensures { result ≡ meaning.flags_of (seen options.now) }
{
    let interior = interior_of(options.faces);
    match options.subdomain {
        None => run_flags(interior, None, Interior::None, false),
        Some(subdomain) => run_flags(
            interior,
            Some(subdomain.id),
            interior_of(subdomain.ghost_parts),
            subdomain.ghost_cells,
        ),
    }
}

// Own cells and their faces at the boundary are visited, and cells first.
fn run_flags(
    interior: Interior,
    own: Option<u32>,
    ghost_parts: Interior,
    ghost_cells: bool,
) -> Flags
    ensures { result ≡ meaning.run_flags interior own ghost_parts ghost_cells }
{
    Flags {
        cells: true,
        boundary: true,
        interior,
        cells_after_faces: false,
        own,
        ghost_parts,
        ghost_cells,
    }
}

// From which sides parts of interior faces are visited.
fn interior_of(faces: Faces) -> Interior
    ensures { result ≡ meaning.interior_of faces }
{
    match faces {
        Faces::None => Interior::None,
        Faces::Once => Interior::Once,
        Faces::Both => Interior::Both,
    }
}
