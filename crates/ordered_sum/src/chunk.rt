ghost use Rattle.std.specs.Prelude.{◌≡◌, ◌+◌, ◌≤◌, ◌<◌, length, take, slice_index_or, IfOk};
ghost use Rattle.std.specs.List.{range_with_len};
ghost use Rattle.ordered_sum.specs.Chunks.{blocks_of};

use fem_fixed::NoMemory;
use mesh_loop::{CellCopy, CellScratch, Setup};
use std::alloc::Global;
use std::marker::Model;

/// The copy object of a chunk: a copy object for each of its cells. It is made once and serves one chunk after
/// another. Contracts see what each of its copy objects stands for.
#[derive(Drop)]
pub struct ChunkCopy {
    copies: Vec<CellCopy>,
}

impl Model for ChunkCopy {
    ghost use Rattle.std.specs.Prelude.{List};
    ghost use Rattle.std.specs.declared.result.Result.{Result};
    ghost use Rattle.fixed_q1.specs.declared.fault.LocalFault.{LocalFault};
    ghost use Rattle.cell_blocks.specs.LocalBlocks.{LocalBlock};

    ghost Value = { List (Result (List LocalBlock) LocalFault) };

    ghost view = { λ chunk. chunk.copies.items };
}

impl ChunkCopy {
    /// No blocks, with room for so many cells.
    pub fn new(alloc: Global, chunk: u32) -> Result<ChunkCopy, NoMemory>
        ensures { IfOk result (λ copy. length copy ≡ chunk) }
    {
        let mut copies = Vec::new(alloc);
        for _cell in 0..chunk {
            copies.push(CellCopy::new(alloc)?)?;
        }
        Ok(ChunkCopy { copies })
    }

    /// What it has of its cell k.
    pub fn cell(&self, k: u32) -> &CellCopy
        requires { k < length self.now }
        ensures { result.now ≡ slice_index_or self.now k result.now }
    {
        &self.copies[k as usize]
    }

    /// Makes the blocks of so many cells, from the first on. Its first copy objects then stand for them, whatever
    /// they and the scratch object held before.
    pub fn fill(&mut self, setup: &Setup, first: u32, count: u32, scratch: &mut CellScratch)
        requires there { first + count ≤ length setup.now.given.forest.cells }
        requires room { count ≤ length self.old }
        ensures made { take count self.new ≡ blocks_of setup.now (range_with_len first count) }
        ensures room { length self.new ≡ length self.old }
    {
        // There are fewer than 2^32 cells, so no number of a cell wraps.
        let _cells = setup.cells();
        for k in 0..count {
            setup.blocks_of(first + k, scratch, &mut self.copies[k as usize]);
        }
    }
}
