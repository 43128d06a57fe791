ghost use Rattle.std.specs.Prelude.{◌≡◌, ◌<◌, [], All, length, slice_index_or, Ok, IfOk};
ghost use Rattle.cell_blocks.specs.LocalBlocks.{IsBlock};
ghost use Rattle.cell_blocks.specs.Visited.{fault_in, blocks_in};

use crate::block::Block;
use crate::linear::LinearScratch;
use crate::quadratic::QuadraticScratch;
use crate::systems::Systems;
use fem_fixed::NoMemory;
use fixed_q1::LocalFault;
use std::alloc::Global;
use std::marker::Model;

/// Room to work in for the local forms of a cell, of either degree. What it holds before a call never matters.
#[derive(Drop)]
pub struct CellScratch {
    pub(crate) linear: LinearScratch,
    pub(crate) quadratic: QuadraticScratch,
}

impl CellScratch {
    /// Room with nothing in it yet.
    pub fn new() -> CellScratch {
        CellScratch {
            linear: LinearScratch::new(),
            quadratic: QuadraticScratch::new(),
        }
    }
}

/// The copy object of a cell: the blocks of its visits, or the fault of the first visit that has one. It has
/// room for every cell, of either degree.
#[derive(Drop)]
pub struct CellCopy {
    pub(crate) systems: Systems,
    pub(crate) fault: Option<LocalFault>,
}

impl Model for CellCopy {
    ghost use Rattle.std.specs.Prelude.{List};
    ghost use Rattle.std.specs.declared.result.Result.{Result};
    ghost use Rattle.fixed_q1.specs.declared.fault.LocalFault.{LocalFault};
    ghost use Rattle.cell_blocks.specs.LocalBlocks.{LocalBlock};
    ghost use Rattle.cell_blocks.specs.Stored.{IsStore, seen_copy};

    ghost Value = { Result (List LocalBlock) LocalFault };

    ghost view = { λ copy. seen_copy copy.fault copy.systems };

    ghost invariant = { λ copy. IsStore copy.systems };
}

impl CellCopy {
    /// No blocks, with room for every cell.
    pub fn new(alloc: Global) -> Result<CellCopy, NoMemory>
        ensures { IfOk result (λ copy. copy ≡ Ok []) }
    {
        Ok(CellCopy {
            systems: Systems::new(alloc)?,
            fault: None,
        })
    }

    /// The fault of the first visit that has one, where there is one.
    pub fn fault(&self) -> Option<LocalFault>
        ensures { result ≡ fault_in self.now }
    {
        self.fault
    }

    /// How many blocks there are; none after a fault.
    pub fn blocks(&self) -> u32
        ensures count { result ≡ length (blocks_in self.now) }
        ensures whole { All IsBlock (blocks_in self.now) }
    {
        if self.fault.is_some() {
            return 0;
        }
        self.systems.used as u32
    }

    /// A block.
    pub fn block(&self, k: u32) -> Block<'_>
        requires { k < length (blocks_in self.now) }
        ensures { result ≡ slice_index_or (blocks_in self.now) k result }
    {
        Block::new(&self.systems.list[k as usize])
    }
}
