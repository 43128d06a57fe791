ghost use Rattle.std.specs.Prelude.{◌≡◌, ◌<◌, ◌≤◌, ◌^◌, [], All, length, pos, unsigned_abs, slice_index, slice_index_or};
ghost use Rattle.cell_blocks.specs.LocalBlocks.{IsBlock, IsSmallEntry};
ghost use Rattle.cell_blocks.specs.Lending.{block_in, IsWhole};

use crate::local::LocalSystem;
use std::marker::Model;

/// What one visit of a cell gives, lent by the copy object where it stands: dofs, of which one may stand twice,
/// a local matrix and a load, in units of 2^-32. Contracts see these.
#[derive(Drop)]
pub struct Block<'a> {
    system: &'a LocalSystem,
}

impl<'a> Model for Block<'a> {
    ghost use Rattle.cell_blocks.specs.LocalBlocks.{LocalBlock};
    ghost use Rattle.cell_blocks.specs.Lending.{block_in, IsWhole};

    ghost Value = { LocalBlock };

    ghost view = { λ block. block_in block.system.now };

    ghost invariant = { λ block. IsWhole block.system.now };
}

impl<'a> Block<'a> {
    /// The block that stands there.
    pub(crate) fn new(system: &'a LocalSystem) -> Block<'a>
        requires { IsWhole system.now }
        ensures { result ≡ block_in system.now }
    {
        Block { system }
    }

    /// The block is within its limits.
    pub fn is_within_limits(&self)
        ensures { IsBlock self.now }
    {
        let _system = &self.system;
    }

    /// The dofs of the block.
    pub fn dofs(&self) -> &[u32]
        ensures { result.now ≡ self.now.dofs }
    {
        &self.system.dofs[..self.system.used]
    }

    /// A row of the local matrix, in units of 2^-32; empty past its last row.
    pub fn row(&self, i: usize) -> &[i128]
        ensures { result.now ≡ slice_index_or self.now.form.matrix i [] }
    {
        self.is_within_limits();
        if i < self.dofs().len() {
            return self.row_at(i);
        }
        &[]
    }

    /// A row that the local matrix has, in units of 2^-32.
    pub fn row_at(&self, i: usize) -> &[i128]
        requires { i < length self.now.dofs }
        ensures value { result.now ≡ slice_index_or self.now.form.matrix i [] }
        ensures length { length result.now ≡ length self.now.dofs }
        ensures small { All IsSmallEntry result.now }
    {
        let system = self.system;
        &system.matrix[i][..system.used]
    }

    /// The load, in units of 2^-32.
    pub fn load(&self) -> &[i128]
        ensures value { result.now ≡ self.now.form.load }
        ensures length { length result.now ≡ length self.now.dofs }
        ensures small { All IsSmallEntry result.now }
    {
        &self.system.load[..self.system.used]
    }

    /// The dof of a local row.
    pub fn dof(&self, i: usize) -> u32
        requires { i < length self.now.dofs }
        ensures { result ≡ slice_index self.now.dofs i }
    {
        let dofs = self.dofs();
        dofs[i]
    }

    /// An entry of the local matrix, in units of 2^-32.
    #[tactic(auto, using(crate::proofs::Entries::row_length, crate::proofs::Entries::entry_small))]
    pub fn entry(&self, i: usize, j: usize) -> i128
        requires i { i < length self.now.dofs }
        requires j { j < length self.now.dofs }
        ensures value { result ≡ slice_index_or (slice_index_or self.now.form.matrix i []) j (pos 0) }
        ensures small { unsigned_abs result ≤ 2 ^ 72 }
    {
        let row = self.row_at(i);
        row[j]
    }

    /// The load of a local row, in units of 2^-32.
    #[tactic(auto, using(crate::proofs::Entries::load_length, crate::proofs::Entries::load_small))]
    pub fn load_at(&self, i: usize) -> i128
        requires { i < length self.now.dofs }
        ensures value { result ≡ slice_index_or self.now.form.load i (pos 0) }
        ensures small { unsigned_abs result ≤ 2 ^ 72 }
    {
        let load = self.load();
        load[i]
    }
}
