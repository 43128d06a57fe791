//! The objects that a run works with.
ghost use Rattle.std.specs.Prelude.{◌≡◌, All, length, vec_len, IfOk};

use crate::chunk::ChunkCopy;
use fem_fixed::NoMemory;
use mesh_loop::CellScratch;
use std::alloc::Global;

/// So many scratch objects.
pub fn scratches(alloc: Global, count: u32) -> Result<Vec<CellScratch>, NoMemory>
    ensures { IfOk result (λ made. vec_len made ≡ count) }
{
    let mut made = Vec::new(alloc);
    for _k in 0..count {
        made.push(CellScratch::new())?;
    }
    Ok(made)
}

/// So many copy objects, each with room for a chunk of cells.
pub fn copies(alloc: Global, count: u32, chunk: u32) -> Result<Vec<ChunkCopy>, NoMemory>
    ensures count { IfOk result (λ made. vec_len made ≡ count) }
    ensures room { IfOk result (λ made. All (λ copy. length copy ≡ chunk) made.items) }
{
    let mut made = Vec::new(alloc);
    for _k in 0..count {
        made.push(ChunkCopy::new(alloc, chunk)?)?;
    }
    Ok(made)
}
