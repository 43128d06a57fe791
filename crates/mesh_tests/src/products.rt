//! Products with the operator of a system, without its matrix.
ghost use Rattle.std.specs.Prelude.{◌≡◌, ◌<◌, ◌≤◌, All, IsTrue, IfSome, map};
ghost use Rattle.conflict_coloring.specs.Coloring.{IsColoring};
ghost use Rattle.mesh_loop.specs.Plans.{IsWithinRanges};
ghost use Rattle.mesh_loop.specs.Setup.{cells_of, written_rows};
ghost use Rattle.matrix_free.specs.Values.{AreValues, IsSmallValue};

use conflict_coloring::{Colors, color};
use matrix_free::apply;
use mesh_loop::{Plan, Setup, conflicts};
use mesh_visits::{Flags, Interior};
use problem_read::read_problem;
use scratch_pool::OpenGate;
use std::alloc::Global;
use std::thread::Threads;
use system_setup::{Degree, Scheme, set_up};
use ucd_read::read_ucd;

/// The largest value, in ticks.
const LIMIT: u64 = 1_048_576;

/// A unit square.
const SQUARE: &str = "4 1 0 0 0\n1 0 0 0\n2 1 0 0\n3 1 1 0\n4 0 1 0\n1 1 quad 1 2 3 4\n";

/// Two unit squares side by side.
const STRIP: &str =
    "6 2 0 0 0\n1 0 0 0\n2 1 0 0\n3 2 0 0\n4 0 1 0\n5 1 1 0\n6 2 1 0\n1 1 quad 1 2 5 4\n2 1 quad 2 3 6 5\n";

/// A mesh, a problem, the values, and their product.
#[derive(Clone, Copy)]
struct Case {
    mesh: &'static str,
    problem: &'static str,
    values: &'static [i64],
    product: &'static [i128],
}

/// The first column of the matrix.
const COLUMN: Case = Case {
    mesh: SQUARE,
    problem: "",
    values: &[1, 0, 0, 0],
    product: &[2_863_340_768, -715_857_120, -715_857_120, -1_431_626_528],
};

/// A constant has no flow, and the row of the hanging dof has its diagonal alone.
const CONSTANT: Case = Case {
    mesh: STRIP,
    problem: "refine 1\n",
    values: &[1; 11],
    product: &[0, 0, 0, 0, 0, 5_726_681_536, 0, 0, 0, 0, 0],
};

/// The set-up of a mesh and a problem.
fn set_up_of<R: Threads + Sync + AllocGlobal>(rt: &R, mesh: &str, problem: &str) -> Option<Setup> {
    if mesh.len() > 1000 || problem.len() > 1000 {
        return None;
    }
    let parts = match read_ucd(rt.alloc(), mesh.as_bytes()) {
        Ok(parts) => parts,
        Err(_) => return None,
    };
    let problem = match read_problem(rt.alloc(), problem.as_bytes()) {
        Ok(problem) => problem,
        Err(_) => return None,
    };
    let scheme = Scheme {
        degree: Degree::One,
        flags: Flags {
            cells: true,
            boundary: true,
            interior: Interior::None,
            cells_after_faces: false,
            own: None,
            ghost_parts: Interior::None,
            ghost_cells: false,
        },
    };
    set_up(rt, rt.alloc(), parts, problem, scheme).ok()
}

/// The cells by colours.
fn colors_of(alloc: Global, setup: &Setup) -> Option<Colors>
    ensures { IfSome result (IsColoring (map (written_rows setup.now) (cells_of setup.now))) }
{
    let conflicts = match conflicts(alloc, setup) {
        Ok(conflicts) => conflicts,
        Err(_) => return None,
    };
    match color(alloc, &conflicts) {
        Ok(colors) => Some(colors),
        Err(_) => None,
    }
}

fn are_small(x: &[i64]) -> bool
    ensures { IsTrue result → All IsSmallValue x.now }
{
    x.iter().all(|value| value.unsigned_abs() <= LIMIT)
}

/// Whether there is one value a dof, none too large.
fn are_values(setup: &Setup, x: &[i64]) -> bool
    ensures { IsTrue result → AreValues setup.now x.now }
{
    if x.len() != setup.size() as usize {
        return false;
    }
    are_small(x)
}

/// A plan with so many workers.
fn plan_of(workers: u32) -> Plan
    requires { (0 < workers) × (workers ≤ 64) }
    ensures { IsWithinRanges result }
{
    Plan {
        workers,
        queue: 2,
        chunk: 1,
        scratch: 2,
        digits: 0,
    }
}

/// The product of the values with the operator, where it doesn't fail.
fn product_of<R: Threads + Sync>(
    rt: &R,
    alloc: Global,
    setup: &Setup,
    colors: &Colors,
    plan: &Plan,
    x: &[i64],
) -> Option<Vec<i128>>
    requires plan { IsWithinRanges plan.now }
    requires colors { IsColoring (map (written_rows setup.now) (cells_of setup.now)) colors.now }
    requires values { AreValues setup.now x.now }
{
    match apply(rt, alloc, setup, colors, plan, x, &OpenGate) {
        Ok(product) => Some(product),
        Err(_) => None,
    }
}

/// The product of the values with the operator by so many workers, where there are colours and the values fit.
fn applied<R: Threads + Sync + AllocGlobal>(
    rt: &R,
    setup: &Setup,
    x: &[i64],
    workers: u32,
) -> Option<Vec<i128>>
    requires { (0 < workers) × (workers ≤ 64) }
{
    if !are_values(setup, x) {
        return None;
    }
    match colors_of(rt.alloc(), setup) {
        Some(colors) => product_of(rt, rt.alloc(), setup, &colors, &plan_of(workers), x),
        None => None,
    }
}

/// Whether the product by so many workers is that of the case.
fn has_product<R: Threads + Sync + AllocGlobal>(rt: &R, case: &Case, workers: u32) -> bool
    requires { (0 < workers) × (workers ≤ 64) }
{
    let Some(setup) = set_up_of(rt, case.mesh, case.problem) else {
        return false;
    };
    match applied(rt, &setup, case.values, workers) {
        Some(product) => product.as_slice() == case.product,
        None => false,
    }
}

#[test]
fn products_are_those_of_the_matrix(rt: HostRuntime) {
    for case in [COLUMN, CONSTANT] {
        assert!(rt; has_product(&rt, &case, 1));
        assert!(rt; has_product(&rt, &case, 8));
    }
}
