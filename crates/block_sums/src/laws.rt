ghost use Rattle.std.specs.Prelude.{ℕ, List, All};
ghost use Rattle.std.specs.declared.option.Option.{Option};
ghost use Rattle.std.specs.declared.result.Result.{Result};
ghost use Rattle.affine_constraints.specs.Lines.{AffineLine, Lines, lines_in};
ghost use Rattle.affine_constraints.specs.Closing.{AreClosedForms};
ghost use Rattle.cell_blocks.specs.Visited.{blocks_in};
ghost use Rattle.fixed_q1.specs.declared.fault.LocalFault.{LocalFault};
ghost use Rattle.cell_blocks.specs.LocalBlocks.{LocalBlock, IsBlock};
ghost use Rattle.serial_sum.specs.Rows.{IsFor};
ghost use Rattle.serial_sum.specs.Steps.{IsPartFor};
ghost use Rattle.block_sums.specs.Masters.{Holds};
ghost use Rattle.block_sums.specs.Contributions.{contributions};
ghost use Rattle.block_sums.specs.SmallLines.{AreSmallLines};
ghost use Rattle.block_sums.specs.Parts.{part_of_blocks, HoldsAll};

/// Each contribution of a block may be added, where the pattern has all pairs of masters of its dofs and the
/// lines are within their limits.
pub fn contributions_may_be_added()
    ensures { (pattern : List (List ℕ)) (lines : Lines) (block : LocalBlock) → AreSmallLines lines → IsBlock block →
        Holds pattern lines block.dofs → All (IsFor pattern) (contributions lines block) }
{}

/// Closed lines are within the limits.
pub fn closed_lines_are_small()
    ensures { (table : List (Option AffineLine)) → AreClosedForms table → AreSmallLines (lines_in table) }
{}

/// Each contribution of a cell may be added, where the lines are closed and the pattern holds the cell's blocks.
pub fn parts_may_be_added()
    ensures { (pattern : List (List ℕ)) (table : List (Option AffineLine)) (cell : ℕ) (blocks : Result (List LocalBlock) LocalFault) →
        AreClosedForms table → All IsBlock (blocks_in blocks) → HoldsAll pattern table (blocks_in blocks) →
        IsPartFor pattern (part_of_blocks (lines_in table) cell blocks) }
{}
