ghost use Rattle.std.specs.Prelude.{◌≤◌, ℕ, List, Ok, length};
ghost use Rattle.std.specs.List.{concat};
ghost use Rattle.matrix_market.specs.Entries.{right_sides, values_of};
ghost use Rattle.run_summary.specs.Summary.{IsSummable};
ghost use Rattle.serial_sum.specs.SerialSum.{SumIs};
ghost use Rattle.serial_sum.specs.Parts.{CellPart};
ghost use Rattle.sparsity.specs.declared.rows.Row.{Row};

/// Each serial sum over a pattern of at most 33,554,432 pairs has a summary.
pub fn sums_are_summable()
    ensures { (digits : ℕ) (pattern : List (List ℕ)) (parts : List CellPart) (rows : List Row) → SumIs digits pattern parts (Ok rows) →
        length (concat pattern) ≤ 33554432 → IsSummable pattern (values_of rows) (right_sides rows) }
{}
