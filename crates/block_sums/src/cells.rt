//! Cells, added block after block.
ghost use Rattle.std.specs.Prelude.{◌≡◌, None, All, fold, length};
ghost use Rattle.affine_constraints.specs.Lines.{lines_in};
ghost use Rattle.cell_blocks.specs.Visited.{blocks_in};
ghost use Rattle.serial_sum.specs.Rows.{FitsRows, IsFor, Run, one};
ghost use Rattle.serial_sum.specs.Steps.{failure_at, formed_step, step_of, IsPartFor};
ghost use Rattle.serial_sum.specs.declared.sum.MatrixState.{MatrixState as Stepped};
ghost use Rattle.block_sums.specs.Adding.{Adds};
ghost use Rattle.block_sums.specs.Parts.{part_of_blocks, cell_contributions, HoldsAll, AreBelow};

use crate::system::System;
use crate::walk::add_block;
use affine_constraints::Closed;
use cell_blocks::CellCopy;
use serial_sum::{Adder, AllRows, Failure, MatrixState};
use sparsity::Rows;

/// Adds a cell to the rows, one block after another. A sum above 2^80 in size isn't added, and the least row
/// with such a sum is told. After a fault of its blocks nothing is added, and the fault is told.
pub fn add_cell(rows: &mut Rows, system: &System, cell: u32, copy: &CellCopy) -> Option<Failure>
    requires fits { FitsRows system.now.pattern.now rows.old }
    requires holds { HoldsAll system.now.pattern.now system.now.closed.now (blocks_in copy.now) }
    ensures step { let part = part_of_blocks (lines_in system.now.closed.now) cell copy.now in
        ◌≡◌ {A = Stepped} (record { rows = rows.new; failure = result }) (formed_step system.now.digits system.now.pattern.now rows.old part part.fault) }
    ensures fits { FitsRows system.now.pattern.now rows.new }
    ensures allowed { IsPartFor system.now.pattern.now (part_of_blocks (lines_in system.now.closed.now) cell copy.now) }
{
    match copy.fault() {
        Some(fault) => Some(Failure::Local(cell, fault)),
        None => sum_failure(cell, add_to_all(rows, system, copy)),
    }
}

/// Adds the blocks of a copy object to all rows. The least row with a sum above 2^80 in size is told.
fn add_to_all(rows: &mut Rows, system: &System, copy: &CellCopy) -> Option<u32>
    requires fits { FitsRows system.now.pattern.now rows.old }
    requires holds { HoldsAll system.now.pattern.now system.now.closed.now (blocks_in copy.now) }
    ensures run { ◌≡◌ {A = Run} (record { rows = rows.new; least = result })
        (fold (one system.now.digits system.now.pattern.now) (record { rows = rows.old; least = None }) (cell_contributions (lines_in system.now.closed.now) copy.now)) }
    ensures fits { FitsRows system.now.pattern.now rows.new }
    ensures allowed { All (IsFor system.now.pattern.now) (cell_contributions (lines_in system.now.closed.now) copy.now) }
{
    let _blocks = copy.blocks();
    let _lines = system.closed.size();
    let adder = AllRows {
        pattern: system.pattern,
        digits: system.digits,
    };
    add_blocks(&adder, system.closed, copy, rows, None)
}

/// Adds the contributions of the blocks of a copy object, one block after another, as the adder adds them.
pub(crate) fn add_blocks<A: Adder>(
    adder: &A,
    closed: &Closed,
    copy: &CellCopy,
    sum: &mut A::Sum,
    told: A::Told,
) -> A::Told
    requires dofs { AreBelow (length closed.now) (blocks_in copy.now) }
    requires fits { A.fits adder.now sum.old }
    requires given { All (A.may_add adder.now) (cell_contributions (lines_in closed.now) copy.now) }
    ensures { Adds (A.fits adder.now) (A.step adder.now) (sum.old, told) (sum.new, result) (cell_contributions (lines_in closed.now) copy.now) }
{
    let mut told = told;
    for k in 0..copy.blocks() {
        told = add_block(adder, closed, &copy.block(k), sum, told);
    }
    told
}

/// The failure at the least failing row, where there is one.
fn sum_failure(cell: u32, least: Option<u32>) -> Option<Failure>
    ensures { result ≡ failure_at cell least }
{
    match least {
        Some(row) => Some(Failure::Sum(cell, row)),
        None => None,
    }
}

/// Adds a cell to the rows of a state, unless the sum has failed before.
pub fn add_cell_to_state(state: &mut MatrixState, system: &System, cell: u32, copy: &CellCopy)
    requires fits { FitsRows system.now.pattern.now state.old.rows }
    requires holds { HoldsAll system.now.pattern.now system.now.closed.now (blocks_in copy.now) }
    ensures step { state.new ≡ step_of system.now.digits system.now.pattern.now state.old (part_of_blocks (lines_in system.now.closed.now) cell copy.now) }
    ensures fits { FitsRows system.now.pattern.now state.new.rows }
{
    if state.failure.is_some() {
        return;
    }
    state.failure = add_cell(&mut state.rows, system, cell, copy);
}
