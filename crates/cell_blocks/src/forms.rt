//! The local system of a visit, by the degree of the dofs.
ghost use Rattle.std.specs.Prelude.{◌≡◌, ◌<◌, length, Ok};
ghost use Rattle.mesh_visits.specs.declared.visit.Visit.TheVariants.{Cell as OnCell, Boundary as OnBoundary, Interior as OnPart};
ghost use Rattle.dof_numbers.specs.Dofs.{IsNumberingOf};
ghost use Rattle.cell_blocks.specs.Blocks.{block_of};
ghost use Rattle.cell_blocks.specs.Filling.{IsMade};
ghost use Rattle.cell_blocks.specs.Lending.{block_in, IsWhole};
ghost use Rattle.cell_blocks.specs.Views.{given};

use crate::copy::CellScratch;
use crate::local::LocalSystem;
use crate::setting::Setting;
use crate::sides::{PartPlace, Side};
use crate::{linear, quadratic};
use fixed_q1::LocalFault;

/// Writes the local system of the cell itself.
pub fn write_own(
    setting: &Setting,
    cell: u32,
    scratch: &mut CellScratch,
    system: &mut LocalSystem,
) -> Result<(), LocalFault>
    requires numbered { IsNumberingOf setting.now.forest.now setting.now.dofs.now }
    requires cell { cell < length setting.now.forest.now.cells }
    ensures { IsMade (block_of (given setting.now) cell OnCell) system.new result }
{
    let material = setting.forest.material(cell);
    let points = setting.forest.points(cell);
    let diffusion = setting.problem.diffusion(material);
    let source = setting.problem.source(material);
    let dofs = setting.dofs.of_cell(cell);
    if setting.dofs.degree() == 2 {
        let room = &mut scratch.quadratic;
        return quadratic::write_cell(&points, diffusion, source, dofs, room, system);
    }
    linear::write_cell(
        &points,
        diffusion,
        source,
        dofs,
        &mut scratch.linear,
        system,
    )
}

/// Writes the local system of a face at the boundary: zeros where nothing is set on its id.
pub fn write_face(
    setting: &Setting,
    cell: u32,
    face: u8,
    id: u32,
    scratch: &mut CellScratch,
    system: &mut LocalSystem,
)
    requires numbered { IsNumberingOf setting.now.forest.now setting.now.dofs.now }
    requires cell { cell < length setting.now.forest.now.cells }
    requires face { face < 4 }
    ensures value { block_of (given setting.now) cell (OnBoundary face id) ≡ Ok (block_in system.new) }
    ensures whole { IsWhole system.new }
{
    let ends = setting.end_points(cell, face);
    let (alpha, g) = setting.problem.robin(id).unwrap_or((0, 0));
    if setting.dofs.degree() == 2 {
        let dofs = setting.end_and_middle_dofs(cell, face);
        quadratic::write_face(&ends, alpha, g, &dofs, &mut scratch.quadratic, system);
        return;
    }
    let dofs = setting.end_dofs(cell, face);
    linear::write_face(&ends, alpha, g, &dofs, &mut scratch.linear, system);
}

/// Writes the local system of a part of an interior face.
pub fn write_part(
    setting: &Setting,
    here: Side,
    there: Side,
    scratch: &mut CellScratch,
    system: &mut LocalSystem,
) -> Result<(), LocalFault>
    requires numbered { IsNumberingOf setting.now.forest.now setting.now.dofs.now }
    requires cell { here.cell < length setting.now.forest.now.cells }
    requires other { there.cell < length setting.now.forest.now.cells }
    requires face { here.face < 4 }
    requires other_face { there.face < 4 }
    ensures { IsMade (block_of (given setting.now) here.cell (OnPart here.face there.cell there.face here.part there.part)) system.new result }
{
    let place = PartPlace::of(setting, &here, &there);
    let gamma = setting.problem.penalty();
    let mine = setting.dofs.of_cell(here.cell);
    let theirs = setting.dofs.of_cell(there.cell);
    if setting.dofs.degree() == 2 {
        let room = &mut scratch.quadratic;
        return quadratic::write_part(&place, gamma, mine, theirs, room, system);
    }
    linear::write_part(&place, gamma, mine, theirs, &mut scratch.linear, system)
}
