//! Refined meshes, their dofs and the lines of hanging dofs, beside the slow ones.
ghost use Rattle.std.specs.Prelude.{◌≡◌, ◌<◌, ◌≤◌, ◌^◌, All, IsTrue, IfOk, IfSome, length};
ghost use Rattle.fem_fixed.specs.Mesh.{IsWithinReach};
ghost use Rattle.quad_mesh.specs.Cells.{HasCorners};
ghost use Rattle.dof_numbers.specs.Dofs.{IsDegree, IsNumberingOf};

use crate::slow_lines::{NamedDofs, slow_lines};
use crate::slow_names::{NamedCell, Names, Path, slow_side, slow_step};
use affine_constraints::{Closed, LineSet};
use dof_numbers::Dofs;
use fem_fixed::{Point, QuadSpec};
use hanging_refine::Forest;
use quad_mesh::QuadMesh;
use std::alloc::Global;

const ONE: i64 = 65536;

const REACH: u64 = 67_108_864;

const POINTS: [Point; 6] = [
    Point { x: 0, y: 0 },
    Point { x: ONE, y: 0 },
    Point { x: 2 * ONE, y: 0 },
    Point { x: 0, y: ONE },
    Point { x: ONE, y: ONE },
    Point { x: 2 * ONE, y: ONE },
];

/// Two cells side by side, of which the second goes round from its upper right corner, so that its faces run the other
/// way.
const QUADS: [QuadSpec; 2] = [
    QuadSpec {
        material: 1,
        corners: [0, 1, 4, 3],
    },
    QuadSpec {
        material: 1,
        corners: [5, 4, 1, 2],
    },
];

/// Their nodes, in lexicographic place.
const NODES: [[u32; 4]; 2] = [[0, 1, 3, 4], [5, 4, 2, 1]];

fn are_within_reach(points: &[Point]) -> bool
    ensures { IsTrue result → All IsWithinReach points.now }
{
    points.iter().all(|p| p.x.unsigned_abs() <= REACH && p.y.unsigned_abs() <= REACH)
}

fn have_corners(quads: &[QuadSpec], count: usize) -> bool
    ensures { IsTrue result → HasCorners count quads.now }
{
    quads.iter().all(|quad| quad.corners.iter().all(|corner| (*corner as usize) < count))
}

/// The two cells.
fn pair(alloc: Global) -> Option<Forest> {
    let points = POINTS.to_vec(alloc).ok()?;
    let quads = QUADS.to_vec(alloc).ok()?;
    if points.len() > 100 || quads.len() > 100 {
        return None;
    }
    if !are_within_reach(&points) || !have_corners(&quads, points.len()) {
        return None;
    }
    let mesh = QuadMesh::new(alloc, points, quads, Vec::new(alloc)).ok()?;
    Forest::of(alloc, mesh).ok()
}

/// Whether all faces have the sides of the slow program.
fn have_sides(forest: &Forest, cells: &[NamedCell]) -> bool {
    for cell in 0..forest.cells() {
        for face in 0..4u8 {
            if Some(forest.side(cell, face)) != slow_side(cells, cell as usize, face as usize) {
                return false;
            }
        }
    }
    cells.len() == forest.cells() as usize
}

/// The lines of hanging dofs, closed.
fn hanging_lines(alloc: Global, forest: &Forest, dofs: &Dofs) -> Option<Closed>
    requires { IsNumberingOf forest.now dofs.now }
    ensures { IfSome result (λ closed. length closed ≡ dofs.now.size) }
{
    let mut lines = match LineSet::new(alloc, dofs.size()) {
        Ok(lines) => lines,
        Err(_) => return None,
    };
    if dofs.hanging(alloc, forest, &mut lines).is_err() {
        return None;
    }
    match lines.close() {
        Ok(closed) => Some(closed),
        Err(_) => None,
    }
}

/// The dofs by name, where all cells have those of the slow program.
fn dofs_by_name(
    alloc: Global,
    forest: &Forest,
    dofs: &Dofs,
    cells: &[NamedCell],
) -> Option<NamedDofs>
    requires { IsNumberingOf forest.now dofs.now }
{
    let mut named = NamedDofs::new(alloc);
    for cell in 0..forest.cells() {
        let row = named.of_cell(alloc, dofs.degree(), cells.get(cell as usize)?)?;
        if dofs.of_cell(cell) != row.as_slice() {
            return None;
        }
    }
    Some(named)
}

/// Whether dofs have the same lines.
fn are_same(lines: &Closed, others: &Closed) -> bool {
    if lines.size() != others.size() || lines.size() > 1_000_000 {
        return false;
    }
    for dof in 0..lines.size() as u32 {
        if lines.line(dof) != others.line(dof) {
            return false;
        }
    }
    true
}

/// Whether the dofs of a degree and their lines are those of the slow program.
fn are_numbered(
    alloc: Global,
    forest: &Forest,
    names: &mut Names,
    cells: &[NamedCell],
    degree: u32,
) -> Option<bool>
    requires { IsDegree degree }
{
    let dofs = match Dofs::number(alloc, forest, degree) {
        Ok(dofs) => dofs,
        Err(_) => return None,
    };
    let named = dofs_by_name(alloc, forest, &dofs, cells)?;
    let lines = hanging_lines(alloc, forest, &dofs)?;
    let others = slow_lines(alloc, cells, &named, names, degree)?;
    Some(named.size() == Some(dofs.size()) && are_same(&lines, &others))
}

/// Whether a refined mesh is that of the slow program, with the dofs of both degrees.
fn agree(alloc: Global, forest: &Forest, names: &mut Names, cells: &[NamedCell]) -> bool {
    have_sides(forest, cells)
        && are_numbered(alloc, forest, names, cells, 1) == Some(true)
        && are_numbered(alloc, forest, names, cells, 2) == Some(true)
}

/// Two asked cells, of so many.
fn asked_cells(draw: u32, count: u32) -> [u32; 2] {
    if count == 0 {
        return [0, 0];
    }
    [(draw >> 8) % count, (draw >> 20) % count]
}

/// The paths of the cells after a step.
fn divided(alloc: Global, cells: &[NamedCell], set: &[bool]) -> Option<Vec<Path>> {
    let mut paths = Vec::new(alloc);
    for (cell, is_chosen) in cells.iter().zip(set.iter()) {
        if *is_chosen {
            for child in 0..4u8 {
                paths.push(cell.path.child(child)).ok()?;
            }
        } else {
            paths.push(cell.path).ok()?;
        }
    }
    Some(paths)
}

/// Whether cells have these paths.
fn have_paths(cells: &[NamedCell], paths: &[Path]) -> bool {
    cells.len() == paths.len()
        && cells
            .iter()
            .zip(paths.iter())
            .all(|(cell, path)| cell.path == *path)
}

/// Whether a step on two drawn cells divides those of the slow program, and the mesh before it is its mesh.
fn step_agrees(alloc: Global, forest: &mut Forest, names: &mut Names, draw: u32) -> Option<bool> {
    let cells = names.cells(alloc, forest, &NODES)?;
    if !agree(alloc, forest, names, &cells) {
        return None;
    }
    let asked = asked_cells(draw, forest.cells());
    let set = slow_step(alloc, &cells, &asked)?;
    let count = set.iter().filter(|is_chosen| **is_chosen).count();
    if forest.refine(&asked).ok()? as usize != count {
        return None;
    }
    let paths = divided(alloc, &cells, &set)?;
    Some(have_paths(&names.cells(alloc, forest, &NODES)?, &paths))
}

/// Whether so many steps on drawn cells agree.
fn steps_agree(alloc: Global, steps: u32, seed: u32) -> Option<bool> {
    let mut forest = pair(alloc)?;
    let mut names = Names::new(alloc);
    let mut draw = seed;
    for _ in 0..steps {
        if step_agrees(alloc, &mut forest, &mut names, draw) != Some(true) {
            return None;
        }
        draw = draw.wrapping_mul(1_103_515_245).wrapping_add(12345);
    }
    Some(true)
}

#[test]
fn drawn_steps_of_refinement_follow_the_definitions(rt: HostRuntime) {
    assert!(rt; steps_agree(rt.alloc(), 6, 12345) == Some(true));
}
