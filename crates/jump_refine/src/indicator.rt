ghost use Rattle.std.specs.Prelude.{◌≡◌, ◌++◌, map, Ok, IfOk, OnOk, IfErr};
ghost use Rattle.jump_refine.specs.Jumps.{IsFunctionOn};
ghost use Rattle.jump_refine.specs.Indicator.{indicators_of, IsFaultOf};
ghost use Rattle.jump_refine.specs.Pieces.{told};
ghost use Rattle.jump_refine.specs.Steps.{joined_all};

use crate::IndicatorFault;
use crate::pieces::{Piece, all_pieces};
use dof_numbers::Dofs;
use fem_fixed::NoMemory;
use hanging_refine::Forest;
use std::alloc::Global;
use std::thread::Threads;

/// The indicator of each active cell for the function with these values at the dofs of degree 1, in ticks and at most
/// 32768 in size: the sum of the squares of the jumps of its normal gradient, times the length of the face, across all
/// parts of faces at which the cell meets another one. A linear function has the indicator 0 everywhere.
///
/// The cells are worked on by several threads, in pieces; the indicators don't depend on their number. It takes one
/// pass over the cells. A piece takes memory for its indicators, and nothing is allocated for a cell.
///
/// # Errors
///
/// `Local` with the least cell that has a part with a fault, and the fault of its first such part.
pub fn indicators(
    rt: &(impl Threads + Sync),
    alloc: Global,
    forest: &Forest,
    dofs: &Dofs,
    values: &[i64],
) -> Result<Vec<u128>, IndicatorFault>
    requires { IsFunctionOn forest.now dofs.now values.now }
    ensures ok { IfOk result (λ etas. indicators_of forest.now dofs.now values.now ≡ Ok etas.items) }
    ensures fault { IfErr result (IsFaultOf (indicators_of forest.now dofs.now values.now)) }
{
    let pieces = all_pieces(rt, alloc, forest, dofs, values)?;
    joined(alloc, &pieces)
}

/// The indicators of all pieces, one behind the other, or the fault of the first piece that has one.
fn joined(alloc: Global, pieces: &[Piece]) -> Result<Vec<u128>, IndicatorFault>
    ensures ok { IfOk result (λ etas. joined_all (map told pieces.now) ≡ Ok etas.items) }
    ensures fault { IfErr result (IsFaultOf (joined_all (map told pieces.now))) }
{
    let mut all = Vec::new(alloc);
    for piece in pieces {
        match piece {
            Piece::Etas(etas) => append(&mut all, etas)?,
            Piece::Fault { cell, fault } => return Err(IndicatorFault::Local(*cell, *fault)),
        }
    }
    Ok(all)
}

/// Adds indicators behind the others.
fn append(all: &mut Vec<u128>, etas: &[u128]) -> Result<(), NoMemory>
    ensures { OnOk result (all.new.items ≡ all.old.items ++ etas.now) }
{
    all.extend_from_slice(etas)?;
    Ok(())
}
