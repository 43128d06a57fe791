//! What lies across the faces of refined cells.
use crate::meshes::{Mesh, refined};
use corner_names::CornerTable;
use hanging_refine::{ActiveSide, Forest};
use std::alloc::Global;

/// The number of the first corner that is no node.
const FIRST: u32 = 1_048_576;

/// What is awaited across a face.
#[derive(Clone, Copy)]
enum Awaited {
    /// The boundary, with this id.
    Edge(u32),
    /// A cell of the same size, and its face.
    Equal(u32, u8),
    /// A larger cell, its face, and a half of that.
    Coarser(u32, u8, u8),
    /// Two smaller cells, and the same face of both.
    Finer(u32, u32, u8),
}

use Awaited::{Coarser, Edge, Equal, Finer};

fn side_of(awaited: Awaited) -> ActiveSide {
    match awaited {
        Edge(id) => ActiveSide::Boundary(id),
        Equal(cell, face) => ActiveSide::Equal { cell, face },
        Coarser(cell, face, half) => ActiveSide::Coarser { cell, face, half },
        Finer(first, second, face) => ActiveSide::Finer {
            cells: [first, second],
            faces: [face, face],
        },
    }
}

/// A cell, and what is awaited across its faces left, right, bottom and top.
type Sides = (u32, Awaited, Awaited, Awaited, Awaited);

/// A mesh, the cells of its steps, how many cells the last step divides, how many there are then, and the sides of some.
#[derive(Clone, Copy)]
struct Case {
    mesh: Mesh,
    steps: &'static [u32],
    divided: u32,
    cells: u32,
    sides: &'static [Sides],
}

const DIVIDED: Case = Case {
    mesh: Mesh::Strip,
    steps: &[1],
    divided: 1,
    cells: 5,
    sides: &[
        (0, Edge(3), Finer(1, 3, 0), Edge(7), Edge(0)),
        (1, Coarser(0, 1, 0), Equal(2, 0), Edge(7), Equal(3, 2)),
        (2, Equal(1, 1), Edge(0), Edge(7), Equal(4, 2)),
        (3, Coarser(0, 1, 1), Equal(4, 0), Equal(1, 3), Edge(0)),
        (4, Equal(3, 1), Edge(0), Equal(2, 3), Edge(0)),
    ],
};

/// Halves follow the face, which runs the other way.
const TURNED: Case = Case {
    mesh: Mesh::Turned,
    steps: &[1],
    divided: 1,
    cells: 5,
    sides: &[
        (0, Edge(3), Finer(4, 2, 1), Edge(7), Edge(0)),
        (1, Edge(0), Equal(2, 0), Edge(0), Equal(3, 2)),
        (2, Equal(1, 1), Coarser(0, 1, 1), Edge(0), Equal(4, 2)),
        (3, Edge(0), Equal(4, 0), Equal(1, 3), Edge(7)),
        (4, Equal(3, 1), Coarser(0, 1, 0), Equal(2, 3), Edge(7)),
    ],
};

/// The larger neighbour of the cell is divided too.
const TWICE: Case = Case {
    mesh: Mesh::Strip,
    steps: &[1, 1],
    divided: 2,
    cells: 11,
    sides: &[
        (1, Equal(0, 1), Finer(4, 6, 0), Edge(7), Equal(3, 2)),
        (3, Equal(2, 1), Equal(9, 0), Equal(1, 3), Edge(0)),
        (
            6,
            Coarser(1, 1, 1),
            Equal(7, 0),
            Equal(4, 3),
            Coarser(9, 2, 0),
        ),
    ],
};

const DOUBLE: Case = Case {
    mesh: Mesh::Double,
    steps: &[1],
    divided: 1,
    cells: 5,
    sides: &[
        (
            0,
            Finer(1, 3, 0),
            Finer(2, 4, 1),
            Finer(1, 2, 2),
            Finer(3, 4, 3),
        ),
        (
            4,
            Equal(3, 1),
            Coarser(0, 1, 1),
            Equal(2, 3),
            Coarser(0, 3, 1),
        ),
    ],
};

/// The cell at the node is divided three times, and the closure goes round the node from both sides.
const RING: Case = Case {
    mesh: Mesh::Ring,
    steps: &[0, 0, 0],
    divided: 5,
    cells: 32,
    sides: &[
        (
            0,
            Coarser(10, 2, 0),
            Equal(1, 0),
            Coarser(25, 0, 0),
            Equal(2, 2),
        ),
        (
            10,
            Coarser(17, 2, 0),
            Equal(11, 0),
            Finer(0, 2, 0),
            Equal(12, 2),
        ),
        (
            17,
            Equal(21, 2),
            Equal(18, 0),
            Finer(10, 12, 0),
            Equal(19, 2),
        ),
        (
            21,
            Finer(25, 26, 2),
            Equal(22, 0),
            Equal(17, 0),
            Equal(23, 2),
        ),
        (
            25,
            Finer(0, 1, 2),
            Equal(26, 0),
            Coarser(21, 0, 0),
            Equal(27, 2),
        ),
    ],
};

const CASES: [Case; 5] = [DIVIDED, TURNED, TWICE, DOUBLE, RING];

/// Whether a cell has these sides.
fn has_sides(forest: &Forest, sides: Sides) -> bool {
    let (cell, left, right, bottom, top) = sides;
    if cell >= forest.cells() {
        return false;
    }
    forest.side(cell, 0) == side_of(left)
        && forest.side(cell, 1) == side_of(right)
        && forest.side(cell, 2) == side_of(bottom)
        && forest.side(cell, 3) == side_of(top)
}

/// Whether a refined mesh is as the case says.
fn is_refined(alloc: Global, case: &Case) -> bool {
    match refined(alloc, case.mesh, case.steps) {
        Some((forest, divided)) => {
            divided == case.divided
                && forest.cells() == case.cells
                && case.sides.iter().all(|sides| has_sides(&forest, *sides))
        }
        None => false,
    }
}

#[test]
fn halves_and_divided_neighbours_lie_across_faces(rt: HostRuntime) {
    for (i, case) in CASES.iter().enumerate() {
        assert!(rt; is_refined(rt.alloc(), case), "number {i}");
    }
}

/// The numbers of some names, of which the last two are taken back and given anew.
fn numbers(alloc: Global) -> Option<[u32; 7]> {
    let mut table = CornerTable::new(alloc);
    let middle = table.middle(3, 5).ok()?;
    let centre = table.coarse_centre(3).ok()?;
    let same_middle = table.middle(5, 3).ok()?;
    let same_centre = table.coarse_centre(3).ok()?;
    let other = table.middle(5, 7).ok()?;
    table.truncate(1);
    Some([
        middle,
        centre,
        same_middle,
        same_centre,
        other,
        table.middle(3, 5).ok()?,
        table.coarse_centre(4).ok()?,
    ])
}

#[test]
fn numbers_of_corners_come_once_and_are_taken_back(rt: HostRuntime) {
    let wanted = [
        FIRST,
        FIRST + 1,
        FIRST,
        FIRST + 1,
        FIRST + 2,
        FIRST,
        FIRST + 1,
    ];
    assert!(rt; numbers(rt.alloc()) == Some(wanted));
}
