ghost use Rattle.std.specs.Prelude.{◌<◌, length, IfOk};
ghost use Rattle.cell_blocks.specs.Blocks.{block_of, visit_dofs};
ghost use Rattle.cell_blocks.specs.Views.{given};
ghost use Rattle.dof_numbers.specs.Dofs.{IsNumberingOf};
ghost use Rattle.cell_blocks.specs.LocalBlocks.{IsBlock};
ghost use Rattle.mesh_visits.specs.Within.{IsVisitWithin};

use cell_blocks::Setting;
use mesh_visits::Visit;

/// Looks up what the block of a visit of a cell is made of: points and coefficients are within their limits, so
/// the block is within its limits, whichever thread makes it later.
pub fn look_up(setting: &Setting, cell: u32, visit: Visit)
    requires numbered { IsNumberingOf setting.now.forest.now setting.now.dofs.now }
    requires cell { cell < length setting.now.forest.now.cells }
    requires visit { IsVisitWithin setting.now.forest.now visit }
    ensures block { IfOk (block_of (given setting.now) cell visit) IsBlock }
    ensures some { 0 < length (visit_dofs (given setting.now) cell visit) }
{
    match visit {
        Visit::Cell => look_up_own(setting, cell),
        Visit::Boundary { face, id } => look_up_face(setting, cell, face, id),
        Visit::Interior {
            face,
            other,
            other_face,
            here,
            there,
        } => {
            let _others = setting.dofs.of_cell(other);
        }
    }
}

/// Looks up what the block of the cell itself is made of.
fn look_up_own(setting: &Setting, cell: u32)
    requires numbered { IsNumberingOf setting.now.forest.now setting.now.dofs.now }
    requires cell { cell < length setting.now.forest.now.cells }
    ensures block { IfOk (block_of (given setting.now) cell Visit.Cell) IsBlock }
    ensures some { 0 < length (visit_dofs (given setting.now) cell Visit.Cell) }
{
    let _points = setting.forest.points(cell);
    let material = setting.forest.material(cell);
    let _source = setting.problem.source(material);
}

/// Looks up what the block of a face at the boundary is made of.
fn look_up_face(setting: &Setting, cell: u32, face: u8, id: u32)
    requires numbered { IsNumberingOf setting.now.forest.now setting.now.dofs.now }
    requires cell { cell < length setting.now.forest.now.cells }
    ensures block { IfOk (block_of (given setting.now) cell (Visit.Boundary face id)) IsBlock }
    ensures some { 0 < length (visit_dofs (given setting.now) cell (Visit.Boundary face id)) }
{
    let _ends = setting.end_points(cell, face);
    let _robin = setting.problem.robin(id);
}
