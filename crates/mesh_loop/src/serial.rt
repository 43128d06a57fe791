ghost use Rattle.std.specs.Prelude.{◌≡◌, ◌≤◌, Ok, IfOk, IfErr};
ghost use Rattle.serial_sum.specs.SerialSum.{SumIs};
ghost use Rattle.serial_sum.specs.Steps.{FaultIs};
ghost use Rattle.mesh_loop.specs.Setup.{cells_of, pattern_of};
ghost use Rattle.mesh_loop.specs.Sum.{parts_of};

use crate::setup::Setup;
use block_sums::{System, add_cell};
use cell_blocks::{CellCopy, CellScratch};
use serial_sum::AssembleFault;
use sparsity::Rows;
use std::alloc::Global;

/// The serial sum in the order of the cells, with this many leading binary digits kept of each sum (0 keeps
/// all).
///
/// One copy object and one scratch object serve all cells. Nothing is added after a cell that fails.
///
/// # Errors
///
/// `Local` and `Sum` where the sum fails so, at its first cell that fails.
pub fn assemble_serial(alloc: Global, setup: &Setup, digits: u32) -> Result<Rows, AssembleFault>
    requires { digits ≤ 64 }
    ensures ok { IfOk result (λ rows. SumIs digits (pattern_of setup.now) (parts_of setup.now (cells_of setup.now)) (Ok rows)) }
    ensures fails { IfErr result (FaultIs digits (pattern_of setup.now) (parts_of setup.now (cells_of setup.now))) }
{
    let system = System {
        pattern: setup.pattern(),
        closed: setup.closed(),
        digits,
    };
    let mut rows = Rows::zero(alloc, system.pattern)?;
    let mut copy = CellCopy::new(alloc)?;
    let mut scratch = CellScratch::new();
    for cell in 0..setup.cells() {
        setup.blocks_of(cell, &mut scratch, &mut copy);
        if let Some(failure) = add_cell(&mut rows, &system, cell, &copy) {
            return Err(AssembleFault::from(failure));
        }
    }
    Ok(rows)
}
