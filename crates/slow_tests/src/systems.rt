//! Set-ups of drawn meshes.
use grid_texts::generate;
use mesh_loop::Setup;
use mesh_visits::{Flags, Interior};
use problem_read::read_problem;
use std::thread::Threads;
use system_setup::{Degree, Scheme, set_up};
use ucd_read::read_ucd;

/// The set-up of a drawn mesh of n cells in a row and in a column, under a problem of few lines.
pub(crate) fn drawn<R: Threads + Sync + AllocGlobal>(
    rt: &R,
    n: u32,
    seed: u64,
    problem: &str,
    interior: Interior,
) -> Option<Setup> {
    let alloc = rt.alloc();
    if n == 0 || n > 512 {
        return None;
    }
    let texts = generate(alloc, n, seed).ok()?;
    if texts.mesh.len() > 100_000 || problem.len() > 1000 {
        return None;
    }
    let parts = match read_ucd(alloc, &texts.mesh) {
        Ok(parts) => parts,
        Err(_) => return None,
    };
    let problem = match read_problem(alloc, problem.as_bytes()) {
        Ok(problem) => problem,
        Err(_) => return None,
    };
    let scheme = Scheme {
        degree: Degree::One,
        flags: Flags {
            cells: true,
            boundary: true,
            interior,
            cells_after_faces: false,
            own: None,
            ghost_parts: Interior::None,
            ghost_cells: false,
        },
    };
    set_up(rt, alloc, parts, problem, scheme).ok()
}
