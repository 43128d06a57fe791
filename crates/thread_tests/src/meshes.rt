//! Mesh texts, and the set-ups of their systems.
use mesh_loop::{Flags, Interior, Setup};
use problem_read::read_problem;
use std::thread::Threads;
use system_setup::{Degree, Scheme, set_up};
use ucd_read::read_ucd;

/// A grid of 4 by 4 unit squares, of which the sixth has material 2. Its first colour has three cells.
pub const GRID: &str =
    "25 16 0 0 0\n1 0 0 0\n2 1 0 0\n3 2 0 0\n4 3 0 0\n5 4 0 0\n6 0 1 0\n7 1 1 0\n8 2 1 0\n9 3 1 0\n10 4 1 0\n\
11 0 2 0\n12 1 2 0\n13 2 2 0\n14 3 2 0\n15 4 2 0\n16 0 3 0\n17 1 3 0\n18 2 3 0\n19 3 3 0\n20 4 3 0\n21 0 4 0\n\
22 1 4 0\n23 2 4 0\n24 3 4 0\n25 4 4 0\n1 1 quad 1 2 7 6\n2 1 quad 2 3 8 7\n3 1 quad 3 4 9 8\n\
4 1 quad 4 5 10 9\n5 1 quad 6 7 12 11\n6 2 quad 7 8 13 12\n7 1 quad 8 9 14 13\n8 1 quad 9 10 15 14\n\
9 1 quad 11 12 17 16\n10 1 quad 12 13 18 17\n11 1 quad 13 14 19 18\n12 1 quad 14 15 20 19\n\
13 1 quad 16 17 22 21\n14 1 quad 17 18 23 22\n15 1 quad 18 19 24 23\n16 1 quad 19 20 25 24\n";

/// The unit square.
const SQUARE: &str = "4 1 0 0 0\n1 0 0 0\n2 1 0 0\n3 1 1 0\n4 0 1 0\n1 1 quad 1 2 3 4\n";

/// Five cells of a tick in height side by side, of which the second, the third and the last are triangles of a tick, too
/// small for a local form.
const STRIP: &str =
    "12 5 0 0 0\n1 0 0 0\n2 1 0 0\n3 1.0000152587890625 0 0\n4 1.000030517578125 0 0\n5 2 0 0\n\
6 2.0000152587890625 0 0\n7 0 0.0000152587890625 0\n8 1 0.0000152587890625 0\n9 1 0.0000152587890625 0\n\
10 1 0.0000152587890625 0\n11 2 0.0000152587890625 0\n12 2 0.0000152587890625 0\n1 1 quad 1 2 8 7\n\
2 1 quad 2 3 9 8\n3 1 quad 3 4 10 9\n4 1 quad 4 5 11 10\n5 1 quad 5 6 12 11\n";

/// A mesh and a problem that the tests sum.
#[derive(Clone, Copy)]
pub enum Mesh {
    /// The grid, with a diffusion and a source that aren't whole.
    Grid,
    /// Two by two cells, of which the first is divided, and then its first child: ten cells with hanging corners, and the
    /// jumps over their inner faces.
    Graded,
    /// The strip of five cells, of which three fail.
    Strip,
}

/// The mesh text, the problem text and the faces that are visited.
fn texts_of(mesh: Mesh) -> (&'static str, &'static str, Interior) {
    match mesh {
        Mesh::Grid => (GRID, "diffusion 1 0.7\nsource 1 0.3\n", Interior::None),
        Mesh::Graded => (
            SQUARE,
            "diffusion 1 0.7\nsource 1 0.3\npenalty 0.1\nrefine 0\nrefine 0\nrefine 0\n",
            Interior::Once,
        ),
        Mesh::Strip => (STRIP, "", Interior::None),
    }
}

/// The set-up of a mesh and its problem.
pub fn set_up_of<R: Threads + Sync + AllocGlobal>(rt: &R, mesh: Mesh) -> Option<Setup> {
    let (mesh, problem, interior) = texts_of(mesh);
    if mesh.len() > 1000 || problem.len() > 1000 {
        return None;
    }
    let parts = match read_ucd(rt.alloc(), mesh.as_bytes()) {
        Ok(parts) => parts,
        Err(_) => return None,
    };
    let problem = match read_problem(rt.alloc(), problem.as_bytes()) {
        Ok(problem) => problem,
        Err(_) => return None,
    };
    let scheme = Scheme {
        degree: Degree::One,
        flags: Flags {
            cells: true,
            boundary: true,
            interior,
            cells_after_faces: false,
            own: None,
            ghost_parts: Interior::None,
            ghost_cells: false,
        },
    };
    set_up(rt, rt.alloc(), parts, problem, scheme).ok()
}
