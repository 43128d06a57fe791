//! Corners of refined cells by name, faces as pairs of names, and the cells of a step, by a slow program that follows the
//! definitions of refinement word for word.
use hanging_refine::{ActiveSide, Forest};
use std::alloc::Global;

/// A corner by its name. Other corners are told by their places in the list of names.
#[derive(Clone, Copy, PartialEq, Eq)]
enum Name {
    Node(u32),
    Middle(usize, usize),
    Centre(Path),
}

/// A cell: its coarse cell, its level, and the child numbers from there.
#[derive(Clone, Copy, PartialEq, Eq)]
pub(crate) struct Path {
    pub(crate) coarse: u32,
    level: u8,
    children: [u8; 12],
}

impl Path {
    /// A coarse cell.
    fn new(coarse: u32) -> Path {
        Path {
            coarse,
            level: 0,
            children: [0; 12],
        }
    }

    /// A child of the cell.
    pub(crate) fn child(mut self, child: u8) -> Path {
        if self.level < 12 {
            self.children[self.level as usize] = child;
            self.level += 1;
        }
        self
    }
}

/// A face: the places of the names of its ends and of its middle.
#[derive(Clone, Copy)]
pub(crate) struct Face {
    pub(crate) ends: (usize, usize),
    pub(crate) middle: usize,
}

/// An active cell by names: its corners, its faces left, right, bottom and top, and its centre.
#[derive(Clone, Copy)]
pub(crate) struct NamedCell {
    pub(crate) path: Path,
    pub(crate) corners: [usize; 4],
    pub(crate) faces: [Face; 4],
    pub(crate) centre: usize,
}

/// The names that came up.
#[derive(Drop)]
pub(crate) struct Names {
    list: Vec<Name>,
}

impl Names {
    pub(crate) fn new(alloc: Global) -> Names {
        Names {
            list: Vec::new(alloc),
        }
    }

    /// The place of a name, which is added where it is new.
    fn place(&mut self, name: Name) -> Option<usize> {
        for (place, known) in self.list.iter().enumerate() {
            if *known == name {
                return Some(place);
            }
        }
        let place = self.list.len();
        self.list.push(name).ok()?;
        Some(place)
    }

    /// The name of the middle of two names.
    pub(crate) fn middle(&mut self, a: usize, b: usize) -> Option<usize> {
        if a < b {
            self.place(Name::Middle(a, b))
        } else {
            self.place(Name::Middle(b, a))
        }
    }

    /// The corners of a child of a cell with these corners and this centre.
    fn child(&mut self, corners: [usize; 4], centre: usize, child: u8) -> Option<[usize; 4]> {
        let [a, b, c, d] = corners;
        let left = self.middle(a, c)?;
        let right = self.middle(b, d)?;
        let bottom = self.middle(a, b)?;
        let top = self.middle(c, d)?;
        match child {
            0 => Some([a, bottom, left, centre]),
            1 => Some([bottom, b, centre, right]),
            2 => Some([left, centre, c, top]),
            _ => Some([centre, right, top, d]),
        }
    }

    /// The corners of a coarse cell with these nodes.
    fn nodes(&mut self, nodes: [u32; 4]) -> Option<[usize; 4]> {
        let [a, b, c, d] = nodes;
        Some([
            self.place(Name::Node(a))?,
            self.place(Name::Node(b))?,
            self.place(Name::Node(c))?,
            self.place(Name::Node(d))?,
        ])
    }

    fn face(&mut self, a: usize, b: usize) -> Option<Face> {
        let middle = self.middle(a, b)?;
        Some(Face {
            ends: (a, b),
            middle,
        })
    }

    /// The faces between four corners.
    fn faces(&mut self, corners: [usize; 4]) -> Option<[Face; 4]> {
        let [a, b, c, d] = corners;
        Some([
            self.face(a, c)?,
            self.face(b, d)?,
            self.face(a, b)?,
            self.face(c, d)?,
        ])
    }

    /// The cell that these child numbers lead to from a coarse cell with these nodes.
    fn cell(&mut self, coarse: u32, nodes: [u32; 4], children: &[u8]) -> Option<NamedCell> {
        let mut path = Path::new(coarse);
        let mut corners = self.nodes(nodes)?;
        for child in children {
            let centre = self.place(Name::Centre(path))?;
            corners = self.child(corners, centre, *child)?;
            path = path.child(*child);
        }
        Some(NamedCell {
            path,
            corners,
            faces: self.faces(corners)?,
            centre: self.place(Name::Centre(path))?,
        })
    }

    /// The active cells. The nodes of the coarse cells are these.
    pub(crate) fn cells(
        &mut self,
        alloc: Global,
        forest: &Forest,
        nodes: &[[u32; 4]],
    ) -> Option<Vec<NamedCell>> {
        let mut cells = Vec::new(alloc);
        for cell in 0..forest.cells() {
            let coarse = forest.coarse(cell);
            let nodes = nodes.get(coarse as usize).copied()?;
            let cell = self.cell(coarse, nodes, forest.path(cell))?;
            cells.push(cell).ok()?;
        }
        Some(cells)
    }
}

/// Whether two unordered pairs are the same.
fn same(a: (usize, usize), b: (usize, usize)) -> bool {
    a == b || a == (b.1, b.0)
}

/// Which half of the second face the first is, if any.
fn half(face: &Face, of: &Face) -> Option<u8> {
    if same(face.ends, (of.ends.0, of.middle)) {
        return Some(0);
    }
    if same(face.ends, (of.middle, of.ends.1)) {
        return Some(1);
    }
    None
}

/// Whether two faces are one, or one is a half of the other.
fn meet(a: &Face, b: &Face) -> bool {
    same(a.ends, b.ends) || half(a, b).is_some() || half(b, a).is_some()
}

/// What is known of a face, while the faces of other cells are gone through.
#[derive(Clone, Copy)]
struct Sought {
    side: ActiveSide,
    halves: [Option<(u32, u8)>; 2],
}

/// What is known after one face more.
fn looked(known: Sought, this: &Face, there: &Face, cell: u32, face: u8) -> Sought {
    let [first, last] = known.halves;
    if same(this.ends, there.ends) {
        return Sought {
            side: ActiveSide::Equal { cell, face },
            halves: known.halves,
        };
    }
    if let Some(half) = half(this, there) {
        return Sought {
            side: ActiveSide::Coarser { cell, face, half },
            halves: known.halves,
        };
    }
    match half(there, this) {
        Some(0) => Sought {
            side: known.side,
            halves: [Some((cell, face)), last],
        },
        Some(_) => Sought {
            side: known.side,
            halves: [first, Some((cell, face))],
        },
        None => known,
    }
}

/// What is known after the faces of one cell more.
fn looked_at_cell(known: Sought, this: &Face, faces: &[Face; 4], cell: u32) -> Sought {
    let [left, right, bottom, top] = faces;
    let known = looked(known, this, left, cell, 0);
    let known = looked(known, this, right, cell, 1);
    let known = looked(known, this, bottom, cell, 2);
    looked(known, this, top, cell, 3)
}

/// What lies at a face of a cell, sought among the faces of all other cells; every boundary edge has the id 0.
pub(crate) fn slow_side(cells: &[NamedCell], cell: usize, face: usize) -> Option<ActiveSide> {
    let this = cells.get(cell)?.faces.get(face).copied()?;
    let mut known = Sought {
        side: ActiveSide::Boundary(0),
        halves: [None, None],
    };
    for (place, other) in cells.iter().enumerate() {
        if place != cell {
            known = looked_at_cell(known, &this, &other.faces, u32::try_from(place).ok()?);
        }
    }
    match known.halves {
        [Some(first), Some(last)] => Some(ActiveSide::Finer {
            cells: [first.0, last.0],
            faces: [first.1, last.1],
        }),
        _ => Some(known.side),
    }
}

/// Whether a cell is one level lower than another and meets it at a part of an edge.
fn is_below(lower: &NamedCell, upper: &NamedCell) -> bool {
    if upper.path.level == 0 || lower.path.level != upper.path.level - 1 {
        return false;
    }
    lower
        .faces
        .iter()
        .any(|face| upper.faces.iter().any(|other| meet(face, other)))
}

/// Whether a cell is in a set, or below a cell of it.
fn goes_with(cells: &[NamedCell], set: &[bool], lower: &NamedCell) -> bool {
    cells
        .iter()
        .zip(set.iter())
        .any(|(upper, is_chosen)| *is_chosen && is_below(lower, upper))
}

/// The cells of a step: the asked cells, and with each the cells below it, round and round until nothing is added.
pub(crate) fn slow_step(alloc: Global, cells: &[NamedCell], asked: &[u32]) -> Option<Vec<bool>> {
    let mut set = Vec::new(alloc);
    for cell in 0..cells.len() {
        set.push(asked.iter().any(|asked| *asked as usize == cell))
            .ok()?;
    }
    for _ in 0..12u8 {
        let mut next = Vec::new(alloc);
        for (cell, is_chosen) in cells.iter().zip(set.iter()) {
            next.push(*is_chosen || goes_with(cells, &set, cell)).ok()?;
        }
        set = next;
    }
    Some(set)
}
