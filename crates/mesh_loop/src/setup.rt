ghost use Rattle.std.specs.Prelude.{◌≡◌, ◌<◌, ◌≤◌, ℕ, All, length, IfOk, IfErr, OnOk, MatchOption, IfSome, Some, None};
ghost use Rattle.std.specs.List.Sorted.{IsStrictlyIncreasing};
ghost use Rattle.affine_constraints.specs.Closing.{IsClosedForm};
ghost use Rattle.affine_constraints.specs.Lines.{lines_in};
ghost use Rattle.cell_blocks.specs.Blocks.{cell_blocks};
ghost use Rattle.cell_blocks.specs.Visited.{blocks_in};
ghost use Rattle.block_sums.specs.Parts.{HoldsAll};
ghost use Rattle.dof_numbers.specs.Dofs.{IsNumberingOf};
ghost use Rattle.sparsity.specs.Coupled.{pairs_of};
ghost use Rattle.sparsity.specs.declared.fault.PatternFault.TheVariants.{Limit as AboveLimit};
ghost use Rattle.mesh_loop.specs.Setup.{MeshProblem, cell_visits, coupled_dofs, pattern_of, written_rows, HoldsVisit};
ghost use Rattle.mesh_loop.specs.Sum.{IsWritten};
ghost use Rattle.mesh_loop.specs.Limits.{IsWithinLimits};

use crate::gather::{Parts, make_parts};
use crate::source::Source;
use affine_constraints::{Closed, Term};
use cell_blocks::{CellCopy, CellScratch, Setting, fill_blocks};
use dof_numbers::Dofs;
use hanging_refine::Forest;
use mesh_visits::{Flags, Visit};
use problem_read::Problem;
use sparsity::{Pattern, PatternFault};
use std::alloc::Global;
use std::marker::Model;
use std::thread::Threads;

/// A refined mesh with its dofs, closed lines, coefficients and flags, and what comes of them: the visits of
/// each cell, the rows that a cell writes, and the pattern of the system. Contracts see what it is made of.
#[derive(Drop)]
pub struct Setup {
    forest: Forest,
    dofs: Dofs,
    closed: Closed,
    problem: Problem,
    flags: Flags,
    parts: Parts,
}

impl Model for Setup {
    ghost use Rattle.mesh_loop.specs.Setup.{MeshProblem};

    ghost Value = { MeshProblem };

    ghost use Rattle.mesh_loop.specs.Parts.{ArePartsOf};

    ghost view = { λ a. record { given = record { forest = a.forest; dofs = a.dofs; problem = a.problem }; closed = a.closed; flags = a.flags } };

    ghost invariant = { λ a. ArePartsOf (record { given = record { forest = a.forest; dofs = a.dofs; problem = a.problem }; closed = a.closed; flags = a.flags }) a.parts };
}

impl Setup {
    /// A set-up, of dofs of degree 1 or 2. It takes one pass over the cells, and the rows of the pattern are made in
    /// several threads.
    ///
    /// # Errors
    ///
    /// `Limit` where the pattern has more than 33,554,432 pairs.
    pub fn build(
        rt: &(impl Threads + Sync),
        alloc: Global,
        forest: Forest,
        dofs: Dofs,
        closed: Closed,
        problem: Problem,
        flags: Flags,
    ) -> Result<Setup, PatternFault>
        requires numbered { IsNumberingOf forest dofs }
        requires lines { length closed ≡ dofs.size }
        ensures value { IfOk result (λ setup. setup ≡ record { given = record { forest = forest; dofs = dofs; problem = problem }; closed = closed; flags = flags }) }
        ensures within { OnOk result (pairs_of (coupled_dofs (record { given = record { forest = forest; dofs = dofs; problem = problem }; closed = closed; flags = flags })) ≤ 33554432) }
        ensures limit { IfErr result (λ fault. fault ≡ AboveLimit → 33554432 < pairs_of (coupled_dofs (record { given = record { forest = forest; dofs = dofs; problem = problem }; closed = closed; flags = flags }))) }
    {
        let setting = Setting {
            forest: &forest,
            dofs: &dofs,
            problem: &problem,
        };
        let source = Source::new(setting, &closed, flags);
        let parts = make_parts(rt, alloc, &source)?;
        Ok(Setup {
            forest,
            dofs,
            closed,
            problem,
            flags,
            parts,
        })
    }

    /// How many active cells there are.
    pub fn cells(&self) -> u32
        ensures { result ≡ length self.now.given.forest.cells }
    {
        self.forest.cells()
    }

    /// The visits of a cell, in order.
    pub fn visits(&self, cell: u32) -> &[Visit]
        requires { cell < length self.now.given.forest.cells }
        ensures value { result.now ≡ cell_visits self.now cell }
        ensures held { All (HoldsVisit self.now cell) result.now }
    {
        self.parts.visits.get(cell as usize)
    }

    /// The rows that a cell writes: the dofs of its visits and their masters, rising, each once.
    pub fn rows(&self, cell: u32) -> &[u32]
        requires { cell < length self.now.given.forest.cells }
        ensures value { result.now ≡ written_rows self.now cell }
        ensures rising { IsStrictlyIncreasing result.now }
    {
        self.parts.rows.get(cell as usize)
    }

    /// The pattern of the system.
    pub fn pattern(&self) -> &Pattern
        ensures { result.now ≡ pattern_of self.now }
    {
        &self.parts.pattern
    }

    /// How many dofs there are.
    pub fn size(&self) -> u32
        ensures { result ≡ self.now.given.dofs.size }
    {
        self.dofs.size()
    }

    /// The closed line of a dof: its terms, in rising order of dof, and its constant, in ticks of 2^-16. Nothing
    /// where the dof is free.
    pub fn line(&self, dof: u32) -> Option<(&[Term], i64)>
        requires { dof < self.now.given.dofs.size }
        ensures value { MatchOption result (lines_in self.now.closed dof ≡ None) (λ line. lines_in self.now.closed dof ≡ Some (record { terms = line.0.now; constant = line.1 })) }
        ensures form { IfSome result (λ line. IsClosedForm self.now.closed (record { terms = line.0.now; constant = line.1 })) }
    {
        self.closed.line(dof)
    }

    /// The closed lines.
    pub fn closed(&self) -> &Closed
        ensures { result.now ≡ self.now.closed }
    {
        &self.closed
    }

    /// What each cell contributes may be added, and goes to the rows that the cell writes.
    pub fn cells_are_written(&self)
        ensures { (cell : ℕ) → cell < length self.now.given.forest.cells → IsWritten self.now cell }
    {
        let _size = self.closed.size();
    }

    /// The set-up is within the limits of its parts.
    pub fn is_within_limits(&self)
        ensures { IsWithinLimits self.now }
    {
        let _size = self.closed.size();
        let _cells = self.forest.cells();
    }

    /// Makes the blocks of a cell. The copy object then stands for them, or for the fault of the first visit
    /// that has one, whatever it and the scratch object held before.
    pub fn blocks_of(&self, cell: u32, scratch: &mut CellScratch, copy: &mut CellCopy)
        requires { cell < length self.now.given.forest.cells }
        ensures value { copy.new ≡ cell_blocks self.now.flags self.now.given cell }
        ensures held { HoldsAll (pattern_of self.now) self.now.closed (blocks_in copy.new) }
    {
        let setting = Setting {
            forest: &self.forest,
            dofs: &self.dofs,
            problem: &self.problem,
        };
        fill_blocks(
            &setting,
            cell,
            self.parts.visits.get(cell as usize),
            scratch,
            copy,
        );
    }
}
