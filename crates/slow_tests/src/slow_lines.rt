//! The dofs of named cells in the order in which names come up, and the lines of those that hang, by a slow program that
//! follows their definitions.
ghost use Rattle.std.specs.Prelude.{◌≡◌, All, IsTrue, length};
ghost use Rattle.affine_constraints.specs.Lines.{IsTerm};

use crate::slow_names::{Face, NamedCell, Names};
use affine_constraints::{Closed, LineSet, Term};
use std::alloc::Global;

/// A half, three quarters, three eighths and minus an eighth, in ticks.
const HALF: i64 = 32768;

const THREE_QUARTERS: i64 = 49152;

const THREE_EIGHTHS: i64 = 24576;

const MINUS_EIGHTH: i64 = -8192;

/// The names that have dofs: the dof of a name is its place.
#[derive(Drop)]
pub(crate) struct NamedDofs {
    names: Vec<usize>,
}

impl NamedDofs {
    pub(crate) fn new(alloc: Global) -> NamedDofs {
        NamedDofs {
            names: Vec::new(alloc),
        }
    }

    /// How many dofs there are.
    pub(crate) fn size(&self) -> Option<u32> {
        u32::try_from(self.names.len()).ok()
    }

    /// The dof of a name that came up.
    fn of(&self, name: usize) -> Option<u32> {
        for (dof, other) in self.names.iter().enumerate() {
            if *other == name {
                return u32::try_from(dof).ok();
            }
        }
        None
    }

    /// The dof of a name: how many names came before it, which is added where it is new.
    fn of_next(&mut self, name: usize) -> Option<u32> {
        match self.of(name) {
            Some(dof) => Some(dof),
            None => {
                let dof = self.size()?;
                self.names.push(name).ok()?;
                Some(dof)
            }
        }
    }

    /// The dofs of a cell: those of its corners, and with degree 2 then those of the middles of its faces and of its centre.
    pub(crate) fn of_cell(
        &mut self,
        alloc: Global,
        degree: u32,
        cell: &NamedCell,
    ) -> Option<Vec<u32>> {
        let mut dofs = Vec::new(alloc);
        for corner in &cell.corners {
            dofs.push(self.of_next(*corner)?).ok()?;
        }
        if degree == 1 {
            return Some(dofs);
        }
        for face in &cell.faces {
            dofs.push(self.of_next(face.middle)?).ok()?;
        }
        dofs.push(self.of_next(cell.centre)?).ok()?;
        Some(dofs)
    }
}

/// Lines of the dofs below a size.
#[derive(Drop)]
struct Lines {
    size: u32,
    set: LineSet,
    ghost sized: { length set ≡ size },
}

fn is_term(term: Term, size: u32) -> bool
    ensures { IsTrue result → IsTerm size term }
{
    term.dof < size && term.weight.unsigned_abs() <= 1_048_576
}

fn are_terms(terms: &[Term], size: u32) -> bool
    ensures { IsTrue result → All (IsTerm size) terms.now }
{
    terms.iter().all(|term| is_term(*term, size))
}

impl Lines {
    fn new(alloc: Global, size: u32) -> Option<Lines> {
        match LineSet::new(alloc, size) {
            Ok(set) => Some(Lines { size, set }),
            Err(_) => None,
        }
    }

    /// Adds the line of a dof; None where it has one, or a term is none.
    fn add(&mut self, dof: u32, terms: &[Term]) -> Option<()> {
        if dof >= self.size || terms.len() > 16 || !are_terms(terms, self.size) {
            return None;
        }
        self.set.add(dof, terms, 0).ok()
    }

    fn close(self) -> Option<Closed> {
        let Lines { set, .. } = self;
        match set.close() {
            Ok(closed) => Some(closed),
            Err(_) => None,
        }
    }
}

/// The term of a name.
fn term(dofs: &NamedDofs, name: usize, weight: i64) -> Option<Term> {
    Some(Term {
        dof: dofs.of(name)?,
        weight,
    })
}

/// Adds the line of the middle of a face: half of each end.
fn add_middle(lines: &mut Lines, dofs: &NamedDofs, face: &Face) -> Option<()> {
    let first = term(dofs, face.ends.0, HALF)?;
    let last = term(dofs, face.ends.1, HALF)?;
    lines.add(dofs.of(face.middle)?, &[first, last])
}

/// Adds the line of the middle of a half of a face, from the near and the far end of the face.
fn add_quarter(
    lines: &mut Lines,
    dofs: &NamedDofs,
    names: &mut Names,
    near: usize,
    middle: usize,
    far: usize,
) -> Option<()> {
    let quarter = names.middle(near, middle)?;
    let first = term(dofs, near, THREE_EIGHTHS)?;
    let second = term(dofs, middle, THREE_QUARTERS)?;
    let third = term(dofs, far, MINUS_EIGHTH)?;
    lines.add(dofs.of(quarter)?, &[first, second, third])
}

/// Adds the lines of what hangs at a face whose middle is a corner of a cell.
fn add_face(
    lines: &mut Lines,
    dofs: &NamedDofs,
    names: &mut Names,
    degree: u32,
    face: &Face,
) -> Option<()> {
    if degree == 1 {
        return add_middle(lines, dofs, face);
    }
    let (start, end) = face.ends;
    add_quarter(lines, dofs, names, start, face.middle, end)?;
    add_quarter(lines, dofs, names, end, face.middle, start)
}

/// Whether a name is that of a corner.
fn is_corner(cells: &[NamedCell], name: usize) -> bool {
    cells.iter().any(|cell| cell.corners.contains(&name))
}

/// The closed lines of all faces whose middles are corners of cells.
pub(crate) fn slow_lines(
    alloc: Global,
    cells: &[NamedCell],
    dofs: &NamedDofs,
    names: &mut Names,
    degree: u32,
) -> Option<Closed> {
    let mut lines = Lines::new(alloc, dofs.size()?)?;
    for cell in cells {
        for face in &cell.faces {
            if is_corner(cells, face.middle) {
                add_face(&mut lines, dofs, names, degree, face)?;
            }
        }
    }
    lines.close()
}
