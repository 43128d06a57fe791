//! Which cells and faces of a refined mesh are visited in a run, and in which order.
use crate::meshes::{Mesh, refined};
use fixed_q1::Part;
use mesh_visits::{Flags, Interior, Visit, make_visits};
use std::alloc::Global;

/// A visit that is awaited.
#[derive(Clone, Copy)]
enum Awaited {
    /// On the cell.
    Own,
    /// On a face at the boundary with this id.
    Edge(u8, u32),
    /// On a whole face, and the cell and the face there.
    Face(u8, u32, u8),
    /// The same of a part here and a part there.
    Half(u8, u32, u8, Part, Part),
}

use Awaited::{Edge, Face, Half, Own};

fn part(face: u8, other: u32, other_face: u8, here: Part, there: Part) -> Visit {
    Visit::Interior {
        face,
        other,
        other_face,
        here,
        there,
    }
}

fn visit_of(awaited: Awaited) -> Visit {
    match awaited {
        Own => Visit::Cell,
        Edge(face, id) => Visit::Boundary { face, id },
        Face(face, other, there) => part(face, other, there, Part::Whole, Part::Whole),
        Half(face, other, face_there, here, there) => part(face, other, face_there, here, there),
    }
}

/// The flags of a run over the strip, the cells of it that are divided first, the subdomains of the active cells
/// then, and the visits of some of them.
#[derive(Clone, Copy)]
struct Case {
    flags: Flags,
    divided: &'static [u32],
    subdomains: &'static [u32],
    visits: &'static [(usize, &'static [Awaited])],
}

/// A hanging part is visited from the finer side.
const ONCE: Case = Case {
    flags: Flags {
        cells: true,
        boundary: true,
        interior: Interior::Once,
        cells_after_faces: false,
        own: None,
        ghost_parts: Interior::None,
        ghost_cells: false,
    },
    divided: &[1],
    subdomains: &[],
    visits: &[
        (0, &[Own, Edge(0, 3), Edge(2, 7), Edge(3, 0)]),
        (
            1,
            &[
                Own,
                Half(0, 0, 1, Part::Whole, Part::Half0),
                Face(1, 2, 0),
                Edge(2, 7),
                Face(3, 3, 2),
            ],
        ),
        (2, &[Own, Edge(1, 0), Edge(2, 7), Face(3, 4, 2)]),
        (
            3,
            &[
                Own,
                Half(0, 0, 1, Part::Whole, Part::Half1),
                Face(1, 4, 0),
                Edge(3, 0),
            ],
        ),
        (4, &[Own, Edge(1, 0), Edge(3, 0)]),
    ],
};

/// Each side visits its halves in order.
const BOTH: Case = Case {
    flags: Flags {
        cells: true,
        boundary: true,
        interior: Interior::Both,
        cells_after_faces: true,
        own: None,
        ghost_parts: Interior::None,
        ghost_cells: false,
    },
    divided: &[1],
    subdomains: &[],
    visits: &[
        (
            0,
            &[
                Edge(0, 3),
                Half(1, 1, 0, Part::Half0, Part::Whole),
                Half(1, 3, 0, Part::Half1, Part::Whole),
                Edge(2, 7),
                Edge(3, 0),
                Own,
            ],
        ),
        (
            4,
            &[Face(0, 3, 1), Edge(1, 0), Face(2, 2, 3), Edge(3, 0), Own],
        ),
    ],
};

/// The part between two subdomains is visited in the run of the lesser one.
const LOWER: Case = Case {
    flags: Flags {
        cells: true,
        boundary: true,
        interior: Interior::Once,
        cells_after_faces: false,
        own: Some(0),
        ghost_parts: Interior::Once,
        ghost_cells: false,
    },
    divided: &[],
    subdomains: &[0, 5],
    visits: &[
        (0, &[Own, Edge(0, 3), Face(1, 1, 0), Edge(2, 7), Edge(3, 0)]),
        (1, &[]),
    ],
};

/// In that of the greater one it isn't; there the other cell is a ghost.
const HIGHER: Case = Case {
    flags: Flags {
        cells: true,
        boundary: true,
        interior: Interior::Once,
        cells_after_faces: false,
        own: Some(5),
        ghost_parts: Interior::Once,
        ghost_cells: true,
    },
    divided: &[],
    subdomains: &[0, 5],
    visits: &[(0, &[Own]), (1, &[Own, Edge(1, 0), Edge(2, 7), Edge(3, 0)])],
};

/// Under `Both` each run visits its side.
const EACH: Case = Case {
    flags: Flags {
        cells: true,
        boundary: true,
        interior: Interior::Once,
        cells_after_faces: false,
        own: Some(5),
        ghost_parts: Interior::Both,
        ghost_cells: false,
    },
    divided: &[],
    subdomains: &[0, 5],
    visits: &[
        (0, &[]),
        (1, &[Own, Face(0, 0, 1), Edge(1, 0), Edge(2, 7), Edge(3, 0)]),
    ],
};

/// Only cells that meet an own one are ghosts.
const GHOSTS: Case = Case {
    flags: Flags {
        cells: true,
        boundary: true,
        interior: Interior::Once,
        cells_after_faces: false,
        own: Some(0),
        ghost_parts: Interior::None,
        ghost_cells: true,
    },
    divided: &[1],
    subdomains: &[0, 5, 5, 5, 5],
    visits: &[
        (0, &[Own, Edge(0, 3), Edge(2, 7), Edge(3, 0)]),
        (1, &[Own]),
        (2, &[]),
        (3, &[Own]),
        (4, &[]),
    ],
};

/// Whether these are the awaited visits.
fn are_awaited(visits: &[Visit], awaited: &[Awaited]) -> bool {
    visits.len() == awaited.len()
        && visits
            .iter()
            .zip(awaited.iter())
            .all(|(visit, awaited)| *visit == visit_of(*awaited))
}

/// Whether the cells of the strip have the visits of a case.
fn are_visited(alloc: Global, case: &Case) -> Option<bool> {
    let (forest, _) = refined(alloc, Mesh::Strip, case.divided)?;
    let visits = make_visits(alloc, &forest, case.flags, case.subdomains).ok()?;
    for (cell, awaited) in case.visits {
        if *cell >= visits.len() || !are_awaited(visits.get(*cell), awaited) {
            return None;
        }
    }
    Some(visits.len() == 2 + 3 * case.divided.len())
}

#[test]
fn parts_of_faces_are_visited_once_or_from_both_sides(rt: HostRuntime) {
    for case in [ONCE, BOTH] {
        assert!(rt; are_visited(rt.alloc(), &case) == Some(true));
    }
}

#[test]
fn a_run_visits_own_cells_their_parts_with_ghosts_and_ghosts(rt: HostRuntime) {
    for case in [LOWER, HIGHER, EACH, GHOSTS] {
        assert!(rt; are_visited(rt.alloc(), &case) == Some(true));
    }
}
