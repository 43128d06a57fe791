//! Local systems of degree 2.
ghost use Rattle.std.specs.Prelude.{◌≡◌, ◌≤◌, ◌^◌, ◌+◌, ◌++◌, All, length, unsigned_abs};
ghost use Rattle.fem_fixed.specs.Mesh.{IsWithinReach};
ghost use Rattle.fixed_q1.specs.Geometry.{vector};
ghost use Rattle.fixed_q2.specs.CellForm.{cell_form};
ghost use Rattle.fixed_q2.specs.BoundaryForm.{boundary_form};
ghost use Rattle.fixed_q2.specs.JumpForm.{jump_form};
ghost use Rattle.cell_blocks.specs.Blocks.{with_dofs};
ghost use Rattle.cell_blocks.specs.Filling.{IsMade};
ghost use Rattle.cell_blocks.specs.Lending.{block_in, IsWhole};
ghost use Rattle.cell_blocks.specs.Sides.{IsWithinPart};

use crate::local::{Form, LocalSystem};
use crate::sides::PartPlace;
use fem_fixed::Point;
use fixed_q1::LocalFault;
use fixed_q2::{Q2Scratch, boundary_matrix2, cell_matrix2, jump_matrix2};

/// Room to work in for local forms of degree 2.
#[derive(Drop)]
pub struct QuadraticScratch {
    points: Q2Scratch,
    cell: Form<9>,
    face: Form<3>,
    part: Form<18>,
}

impl QuadraticScratch {
    /// Room with nothing in it yet.
    pub fn new() -> QuadraticScratch {
        QuadraticScratch {
            points: Q2Scratch::new(),
            cell: Form::zero(),
            face: Form::zero(),
            part: Form::zero(),
        }
    }
}

/// Writes the local system of a cell with these vertices and dofs.
pub fn write_cell(
    points: &[Point; 4],
    diffusion: i64,
    source: i64,
    dofs: &[u32],
    scratch: &mut QuadraticScratch,
    system: &mut LocalSystem,
) -> Result<(), LocalFault>
    requires points { All IsWithinReach points.now }
    requires diffusion { unsigned_abs diffusion ≤ 2 ^ 31 }
    requires source { unsigned_abs source ≤ 2 ^ 31 }
    requires dofs { length dofs.now ≡ 9 }
    ensures { IsMade (with_dofs dofs.now (cell_form points.now diffusion source)) system.new result }
{
    let form = &mut scratch.cell;
    cell_matrix2(
        points,
        diffusion,
        source,
        &mut scratch.points,
        &mut form.matrix,
        &mut form.load,
    )?;
    system.hold(dofs, form);
    Ok(())
}

/// Writes the local system of a face at the boundary with these ends and dofs.
pub fn write_face(
    ends: &[Point; 2],
    alpha: i64,
    g: i64,
    dofs: &[u32],
    scratch: &mut QuadraticScratch,
    system: &mut LocalSystem,
)
    requires ends { All IsWithinReach ends.now }
    requires alpha { unsigned_abs alpha ≤ 2 ^ 31 }
    requires g { unsigned_abs g ≤ 2 ^ 31 }
    requires dofs { length dofs.now ≡ 3 }
    ensures block { block_in system.new ≡ record { dofs = dofs.now; form = boundary_form ends.now alpha g } }
    ensures whole { IsWhole system.new }
{
    let form = &mut scratch.face;
    boundary_matrix2(ends, alpha, g, &mut form.matrix, &mut form.load);
    system.hold(dofs, form);
}

/// Writes the local system of a part of an interior face, over the dofs of the cell here and then of the cell there.
pub fn write_part(
    place: &PartPlace,
    gamma: i64,
    mine: &[u32],
    theirs: &[u32],
    scratch: &mut QuadraticScratch,
    system: &mut LocalSystem,
) -> Result<(), LocalFault>
    requires place { IsWithinPart place.now }
    requires gamma { unsigned_abs gamma ≤ 2 ^ 31 }
    requires dofs { length mine.now + length theirs.now ≡ 18 }
    ensures { let form = jump_form place.now.here (vector place.now.here_at.0 place.now.here_at.1) place.now.there (vector place.now.there_at.0 place.now.there_at.1) place.now.ends gamma in
        IsMade (with_dofs (mine.now ++ theirs.now) form) system.new result }
{
    let form = &mut scratch.part;
    form.load = [0; 18];
    jump_matrix2(
        &place.here,
        place.here_at,
        &place.there,
        place.there_at,
        &place.ends,
        gamma,
        &mut scratch.points,
        &mut form.matrix,
    )?;
    system.hold_both(mine, theirs, form);
    Ok(())
}
