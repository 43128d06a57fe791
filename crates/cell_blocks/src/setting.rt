ghost use Rattle.std.specs.Prelude.{◌≡◌, ◌<◌};
ghost use Rattle.corner_names.specs.Cells as cells;

use dof_numbers::Dofs;
use fem_fixed::Point;
use hanging_refine::Forest;
use problem_read::Problem;

/// What blocks are made of: a refined mesh, its dofs of degree 1 or 2, and the coefficients of a problem.
#[derive(Drop)]
pub struct Setting<'a> {
    pub forest: &'a Forest,
    pub dofs: &'a Dofs,
    pub problem: &'a Problem,
}

impl Setting<'_> {
    ghost use Rattle.std.specs.Prelude.{All, length};
    ghost use Rattle.fem_fixed.specs.Mesh.{IsWithinReach};
    ghost use Rattle.dof_numbers.specs.Dofs.{IsNumberingOf};
    ghost use Rattle.cell_blocks.specs.Blocks as blocks;
    ghost use Rattle.cell_blocks.specs.Views.{given};

    /// The points of the two ends of a face of a cell.
    pub fn end_points(&self, cell: u32, face: u8) -> [Point; 2]
        requires cell { cell < length self.now.forest.now.cells }
        ensures value { result ≡ blocks.end_points (given self.now) cell face }
        ensures reach { All IsWithinReach result }
    {
        let points = self.forest.points(cell);
        [points[first_vertex(face)], points[last_vertex(face)]]
    }

    /// The dofs of the two ends of a face of a cell.
    pub fn end_dofs(&self, cell: u32, face: u8) -> [u32; 2]
        requires numbered { IsNumberingOf self.now.forest.now self.now.dofs.now }
        requires cell { cell < length self.now.forest.now.cells }
        ensures { result ≡ blocks.end_dofs (given self.now) cell face }
    {
        let dofs = self.dofs.of_cell(cell);
        [dofs[first_vertex(face)], dofs[last_vertex(face)]]
    }

    /// The dofs of the two ends of a face of a cell, and of its middle.
    pub fn end_and_middle_dofs(&self, cell: u32, face: u8) -> [u32; 3]
        requires degree { self.now.dofs.now.degree ≡ 2 }
        requires numbered { IsNumberingOf self.now.forest.now self.now.dofs.now }
        requires cell { cell < length self.now.forest.now.cells }
        requires face { face < 4 }
        ensures { result ≡ blocks.face_dofs (given self.now) cell face }
    {
        let dofs = self.dofs.of_cell(cell);
        [
            dofs[first_vertex(face)],
            dofs[last_vertex(face)],
            dofs[4 + face as usize],
        ]
    }
}

/// The vertex at which a face starts.
fn first_vertex(face: u8) -> usize
    ensures value { result ≡ cells.face_start face }
    ensures small { result < 4 }
{
    match face {
        1 => 1,
        3 => 2,
        _ => 0,
    }
}

/// The vertex at which a face ends.
fn last_vertex(face: u8) -> usize
    ensures value { result ≡ cells.face_end face }
    ensures small { result < 4 }
{
    match face {
        0 => 2,
        2 => 1,
        _ => 3,
    }
}
