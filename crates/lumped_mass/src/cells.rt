//! A refined mesh and its dofs, cell by cell.
ghost use Rattle.std.specs.Prelude.{◌≡◌, ◌<◌, ◌≤◌, ◌^◌, ℕ, All, length, slice_index, unsigned_abs};
ghost use Rattle.dof_numbers.specs.Dofs.{IsNumberingOf, AreDofsOfCorners};
ghost use Rattle.lumped_mass.specs.Masses.{cell_shares, cell_dofs};
ghost use Rattle.lumped_mass.specs.Rows.{HaveFourEach};

use crate::shares::shares_of;
use dof_numbers::Dofs;
use hanging_refine::Forest;

/// The active cells of a refined mesh, with their dofs of degree 1.
#[derive(Drop)]
pub struct Cells<'a> {
    pub forest: &'a Forest,
    pub dofs: &'a Dofs,
    /// How many cells there are.
    pub count: u32,
    pub ghost counted: { count ≡ length forest.now.cells },
    pub ghost few: { count ≤ 2 ^ 20 },
    pub ghost four: { HaveFourEach (length forest.now.cells) dofs.now },
}

impl<'a> Cells<'a> {
    /// The cells of this mesh, with dofs that [`Dofs::number`] made for it.
    #[tactic(auto, using(crate::proofs::Numbered::four_each))]
    pub fn new(forest: &'a Forest, dofs: &'a Dofs) -> Cells<'a>
        requires degree { dofs.now.degree ≡ 1 }
        requires numbered { IsNumberingOf forest.now dofs.now }
        requires corners { AreDofsOfCorners forest.now dofs.now }
        ensures forest { result.forest.now ≡ forest.now }
        ensures dofs { result.dofs.now ≡ dofs.now }
    {
        Cells {
            forest,
            dofs,
            count: forest.cells(),
        }
    }

    /// The shares of the vertices of a cell, in square ticks.
    pub fn shares(&self, cell: u32) -> [i64; 4]
        requires { cell < length self.now.forest.now.cells }
        ensures value { result ≡ cell_shares self.now.forest.now cell }
        ensures small { All (λ share. unsigned_abs share ≤ 2 ^ 55) result }
    {
        shares_of(&self.forest.points(cell))
    }

    /// The dofs of the vertices of a cell.
    pub fn dofs_of(&self, cell: u32) -> &[u32]
        requires { cell < length self.now.forest.now.cells }
        ensures value { result.now ≡ cell_dofs self.now.dofs.now cell }
        ensures four { length result.now ≡ 4 }
        ensures below { (v : ℕ) → v < 4 → slice_index result.now v < self.now.dofs.now.size }
    {
        self.dofs.of_cell(cell)
    }
}
