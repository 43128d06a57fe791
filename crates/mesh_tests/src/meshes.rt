//! Small meshes.
ghost use Rattle.std.specs.Prelude.{All, IsTrue, length};
ghost use Rattle.fem_fixed.specs.Mesh.{IsWithinReach};
ghost use Rattle.quad_mesh.specs.Cells.{HasCorners};

use fem_fixed::{LineSpec, Point, QuadSpec};
use hanging_refine::Forest;
use quad_mesh::QuadMesh;
use std::alloc::Global;

/// One, in ticks.
pub(crate) const ONE: i64 = 65536;

/// The largest coordinate, in ticks.
const REACH: u64 = 67_108_864;

/// A mesh that the tests refine.
#[derive(Clone, Copy, PartialEq, Eq)]
pub(crate) enum Mesh {
    /// Two unit squares side by side. Their lower edges have the id 7, and the left edge of the first the id 3.
    Strip,
    /// The strip, whose second cell goes round from its upper right corner, so that its faces run the other way.
    Turned,
    /// Two cells on the corners of one unit square.
    Double,
    /// Five parallelograms round the origin.
    Ring,
    /// The strip, and above it two cells on one another that are 1024 wide and a tick high.
    Slivers,
}

const STRIP: [Point; 6] = [
    Point { x: 0, y: 0 },
    Point { x: ONE, y: 0 },
    Point { x: 2 * ONE, y: 0 },
    Point { x: 0, y: ONE },
    Point { x: ONE, y: ONE },
    Point { x: 2 * ONE, y: ONE },
];

/// The strip, and the corners of the slivers.
const SLIVERS: [Point; 12] = [
    Point { x: 0, y: 0 },
    Point { x: ONE, y: 0 },
    Point { x: 2 * ONE, y: 0 },
    Point { x: 0, y: ONE },
    Point { x: ONE, y: ONE },
    Point { x: 2 * ONE, y: ONE },
    Point { x: 0, y: 655360 },
    Point {
        x: 67108864,
        y: 655360,
    },
    Point { x: 0, y: 655361 },
    Point {
        x: 67108864,
        y: 655361,
    },
    Point { x: 0, y: 655362 },
    Point {
        x: 67108864,
        y: 655362,
    },
];

/// The origin, five points round it, and the fourth corner of the parallelogram of each two that are neighbours.
const RING: [Point; 11] = [
    Point { x: 0, y: 0 },
    Point { x: 2 * ONE, y: 0 },
    Point { x: ONE, y: 2 * ONE },
    Point {
        x: -2 * ONE,
        y: ONE,
    },
    Point {
        x: -2 * ONE,
        y: -ONE,
    },
    Point {
        x: ONE,
        y: -2 * ONE,
    },
    Point {
        x: 3 * ONE,
        y: 2 * ONE,
    },
    Point {
        x: -ONE,
        y: 3 * ONE,
    },
    Point { x: -4 * ONE, y: 0 },
    Point {
        x: -ONE,
        y: -3 * ONE,
    },
    Point {
        x: 3 * ONE,
        y: -2 * ONE,
    },
];

/// Corners round each cell.
const LEFT: [u32; 4] = [0, 1, 4, 3];

const RIGHT: [u32; 4] = [1, 2, 5, 4];

const TURNED_RIGHT: [u32; 4] = [5, 4, 1, 2];

const ROUND: [[u32; 4]; 5] = [
    [0, 1, 6, 2],
    [0, 2, 7, 3],
    [0, 3, 8, 4],
    [0, 4, 9, 5],
    [0, 5, 10, 1],
];

/// The ids of the lower edges and of the left edge of the strip.
const LINES: [LineSpec; 3] = [
    LineSpec {
        id: 7,
        ends: [0, 1],
    },
    LineSpec {
        id: 7,
        ends: [2, 1],
    },
    LineSpec {
        id: 3,
        ends: [3, 0],
    },
];

fn points_of(mesh: Mesh) -> &'static [Point] {
    match mesh {
        Mesh::Ring => &RING,
        Mesh::Slivers => &SLIVERS,
        _ => &STRIP,
    }
}

/// The corners round each cell.
fn corners_of(mesh: Mesh) -> &'static [[u32; 4]] {
    match mesh {
        Mesh::Strip => &[LEFT, RIGHT],
        Mesh::Turned => &[LEFT, TURNED_RIGHT],
        Mesh::Double => &[LEFT, LEFT],
        Mesh::Ring => &ROUND,
        Mesh::Slivers => &[LEFT, RIGHT, [6, 7, 9, 8], [8, 9, 11, 10]],
    }
}

fn lines_of(mesh: Mesh) -> &'static [LineSpec] {
    match mesh {
        Mesh::Strip | Mesh::Turned => &LINES,
        _ => &[],
    }
}

fn are_within_reach(points: &[Point]) -> bool
    ensures { IsTrue result → All IsWithinReach points.now }
{
    points.iter().all(|p| p.x.unsigned_abs() <= REACH && p.y.unsigned_abs() <= REACH)
}

fn have_corners(quads: &[QuadSpec], count: usize) -> bool
    ensures { IsTrue result → HasCorners count quads.now }
{
    quads.iter().all(|quad| quad.corners.iter().all(|corner| (*corner as usize) < count))
}

/// The cells, all of the material 5.
fn quads_of(alloc: Global, mesh: Mesh) -> Option<Vec<QuadSpec>> {
    let mut quads = Vec::new(alloc);
    for corners in corners_of(mesh) {
        quads
            .push(QuadSpec {
                material: 5,
                corners: *corners,
            })
            .ok()?;
    }
    Some(quads)
}

/// The coarse cells of a mesh.
fn coarse(alloc: Global, mesh: Mesh) -> Option<QuadMesh> {
    let points = points_of(mesh).to_vec(alloc).ok()?;
    let quads = quads_of(alloc, mesh)?;
    let lines = lines_of(mesh).to_vec(alloc).ok()?;
    if points.len() > 100 || quads.len() > 100 || lines.len() > 100 {
        return None;
    }
    if !are_within_reach(&points) || !have_corners(&quads, points.len()) {
        return None;
    }
    QuadMesh::new(alloc, points, quads, lines).ok()
}

/// The cells of a mesh before any step.
pub(crate) fn unrefined(alloc: Global, mesh: Mesh) -> Option<Forest> {
    Forest::of(alloc, coarse(alloc, mesh)?).ok()
}

/// The cells of a mesh after steps, each on one cell, and how many cells the last of them divided.
pub(crate) fn refined(alloc: Global, mesh: Mesh, steps: &[u32]) -> Option<(Forest, u32)> {
    let mut forest = unrefined(alloc, mesh)?;
    let mut count = 0;
    for cell in steps {
        count = forest.refine(&[*cell]).ok()?;
    }
    Some((forest, count))
}
