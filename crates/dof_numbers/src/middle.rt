ghost use Rattle.std.specs.Prelude.{◌<◌, length, MatchOption};
ghost use Rattle.corner_names.specs.Cells as cells;
ghost use Rattle.corner_names.specs.Forest.{IsHalfAt};
ghost use Rattle.hanging_refine.specs.Coarse.{corner_at};
ghost use Rattle.hanging_refine.specs.Refined.{cell_at};
ghost use Rattle.hanging_refine.specs.Grown.{IsGrown};
ghost use Rattle.dof_numbers.specs.Dofs.{middle_name};
ghost use Rattle.dof_numbers.specs.Middles.{IsVertexNumber, IsNoVertex};

use crate::faces::{end_of, other, start_of};
use hanging_refine::{ActiveSide, Forest};

/// The number of the corner that is the middle of a face of an active cell. None exactly where no active cell has
/// that middle as a vertex.
pub fn face_middle(forest: &Forest, cell: u32, face: u8) -> Option<u32>
    requires grown { IsGrown forest.now }
    requires cell { cell < length forest.now.cells }
    requires face { face < 4 }
    ensures { MatchOption result (IsNoVertex forest.now (middle_name forest.now cell face)) (IsVertexNumber forest.now (middle_name forest.now cell face)) }
{
    match forest.side(cell, face) {
        ActiveSide::Boundary(_) => None,
        ActiveSide::Equal { .. } => None,
        ActiveSide::Coarser { .. } => None,
        ActiveSide::Finer { cells, faces } => {
            Some(middle_number(forest, cell, face, cells[0], faces[0]))
        }
    }
}

/// The number of the corner that is the middle of a face, from the smaller cell at the face's start.
pub fn middle_number(forest: &Forest, cell: u32, face: u8, smaller: u32, beyond: u8) -> u32
    requires cell { cell < length forest.now.cells }
    requires face { face < 4 }
    requires smaller { smaller < length forest.now.cells }
    requires beyond { beyond < 4 }
    requires half { IsHalfAt (corner_at forest.now.mesh) (cell_at forest.now smaller) beyond (cell_at forest.now cell) face (cells.face_start face) }
    ensures { IsVertexNumber forest.now (middle_name forest.now cell face) result }
{
    let start = forest.corners(cell)[start_of(face)];
    let corners = forest.corners(smaller);
    other(corners[start_of(beyond)], corners[end_of(beyond)], start)
}
