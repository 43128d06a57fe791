ghost use Rattle.std.specs.Prelude.{◌≡◌, map, IfOk};
ghost use Rattle.mesh_loop.specs.Setup.{cells_of, written_rows};

use crate::setup::Setup;
use conflict_coloring::Conflicts;
use fem_fixed::NoMemory;
use std::alloc::Global;

/// The cells in order, each with the rows that it writes.
pub fn conflicts(alloc: Global, setup: &Setup) -> Result<Conflicts, NoMemory>
    ensures { IfOk result (λ conflicts. conflicts ≡ map (written_rows setup.now) (cells_of setup.now)) }
{
    let mut conflicts = Conflicts::new(alloc);
    for cell in 0..setup.cells() {
        conflicts.add(setup.rows(cell))?;
    }
    Ok(conflicts)
}
