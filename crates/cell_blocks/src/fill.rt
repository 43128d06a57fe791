ghost use Rattle.std.specs.Prelude.{◌≡◌, ◌<◌, length};
ghost use Rattle.dof_numbers.specs.Dofs.{IsNumberingOf};
ghost use Rattle.mesh_visits.specs.Within.{IsVisitWithin, IsFit};
ghost use Rattle.cell_blocks.specs.Blocks.{blocks_of, block_of};
ghost use Rattle.cell_blocks.specs.Filling.{IsMade, AreBlocksMade};
ghost use Rattle.cell_blocks.specs.Views.{given};

use crate::copy::{CellCopy, CellScratch};
use crate::forms::{write_face, write_own, write_part};
use crate::local::LocalSystem;
use crate::setting::Setting;
use crate::sides::Side;
use crate::systems::Systems;
use fixed_q1::LocalFault;
use mesh_visits::Visit;

/// Makes the blocks of these visits of a cell, in order. The copy object then stands for them, or for the
/// fault of the first visit that has one, whatever it and the scratch object held before.
pub fn fill_blocks(
    setting: &Setting,
    cell: u32,
    visits: &[Visit],
    scratch: &mut CellScratch,
    copy: &mut CellCopy,
)
    requires numbered { IsNumberingOf setting.now.forest.now setting.now.dofs.now }
    requires cell { cell < length setting.now.forest.now.cells }
    requires visits { IsFit setting.now.forest.now 9 4 8 visits.now }
    ensures { copy.new ≡ blocks_of (given setting.now) cell visits.now }
{
    copy.fault = fill_systems(setting, cell, visits, scratch, &mut copy.systems);
}

/// Writes the local systems of these visits of a cell, in order. The fault of the first visit that has one, where
/// there is one.
fn fill_systems(
    setting: &Setting,
    cell: u32,
    visits: &[Visit],
    scratch: &mut CellScratch,
    systems: &mut Systems,
) -> Option<LocalFault>
    requires numbered { IsNumberingOf setting.now.forest.now setting.now.dofs.now }
    requires cell { cell < length setting.now.forest.now.cells }
    requires visits { IsFit setting.now.forest.now 9 4 8 visits.now }
    ensures { AreBlocksMade (blocks_of (given setting.now) cell visits.now) systems.new result }
{
    systems.used = 0;
    for visit in visits {
        let at = systems.used;
        if let Err(fault) = write_visit(setting, cell, *visit, scratch, &mut systems.list[at]) {
            systems.used = 0;
            return Some(fault);
        }
        systems.used = at + 1;
    }
    None
}

/// Writes the local system of a visit.
fn write_visit(
    setting: &Setting,
    cell: u32,
    visit: Visit,
    scratch: &mut CellScratch,
    system: &mut LocalSystem,
) -> Result<(), LocalFault>
    requires numbered { IsNumberingOf setting.now.forest.now setting.now.dofs.now }
    requires cell { cell < length setting.now.forest.now.cells }
    requires visit { IsVisitWithin setting.now.forest.now visit }
    ensures { IsMade (block_of (given setting.now) cell visit) system.new result }
{
    match visit {
        Visit::Cell => write_own(setting, cell, scratch, system),
        Visit::Boundary { face, id } => {
            write_face(setting, cell, face, id, scratch, system);
            Ok(())
        }
        Visit::Interior {
            face,
            other,
            other_face,
            here,
            there,
        } => {
            let mine = Side {
                cell,
                face,
                part: here,
            };
            let theirs = Side {
                cell: other,
                face: other_face,
                part: there,
            };
            write_part(setting, mine, theirs, scratch, system)
        }
    }
}
