ghost use Rattle.std.specs.Prelude.{◌==◌, ◌≡◌, ◌<◌, ◌++◌, ◌∷◌, [], ℕ, List, All, None, true, false, fold, length, ◌↔◌};
ghost use Rattle.std.specs.declared.result.Result.{Result};
ghost use Rattle.serial_sum.specs.Columns.{AreRising, columns_at};
ghost use Rattle.serial_sum.specs.Rows.{row_at, AreUnmarked, FitsRow, FitsRows};
ghost use Rattle.serial_sum.specs.Marks.{row_after, RoundItem, AreItems, IsRound, RoundIs};
ghost use Rattle.serial_sum.specs.Steps.{RowRun, step_of, zero_state, answer_of, IsPartFor, IsForRow, row_step};
ghost use Rattle.serial_sum.specs.SerialSum.{SumIs, FailsAtRow};
ghost use Rattle.std.specs.List.{list_any, flat_map};
ghost use Rattle.sparsity.specs.Rows.{zero_row};
ghost use Rattle.sparsity.specs.declared.rows.Row.{Row};
ghost use Rattle.serial_sum.specs.Parts.{CellPart};
ghost use Rattle.serial_sum.specs.declared.sum.MatrixState.{MatrixState};
ghost use Rattle.serial_sum.specs.declared.part.Contribution.{Contribution};
ghost use Rattle.serial_sum.specs.declared.sum.Failure.{Failure};

/// The parts have one sum at most.
pub fn sum_is_unique()
    ensures { (digits : ℕ) (pattern : List (List ℕ)) (parts : List CellPart) (a b : Result (List Row) Failure) → SumIs digits pattern parts a → SumIs digits pattern parts b → a ≡ b }
{}

/// And they have one.
pub fn sum_exists()
    ensures { (digits : ℕ) (pattern : List (List ℕ)) (parts : List CellPart) → (a : Result (List Row) Failure) × SumIs digits pattern parts a }
{}

/// Steps over all parts, from rows of 0 on, give the sum.
pub fn steps_give_the_sum()
    ensures { (digits : ℕ) (pattern : List (List ℕ)) (parts : List CellPart) → AreRising pattern → All (IsPartFor pattern) parts →
        SumIs digits pattern parts (answer_of (fold (step_of digits pattern) (zero_state pattern) parts)) }
{}

/// A step is one part more.
pub fn a_step_is_one_part_more()
    ensures { (digits : ℕ) (pattern : List (List ℕ)) (parts : List CellPart) (part : CellPart) →
        fold (step_of digits pattern) (zero_state pattern) (parts ++ part ∷ []) ≡ step_of digits pattern (fold (step_of digits pattern) (zero_state pattern) parts) part }
{}

/// Where no sum fails, each row is what the parts do to it alone, one after another.
pub fn rows_step_alone()
    ensures { (digits : ℕ) (pattern : List (List ℕ)) (parts : List CellPart) (i : ℕ) → i < length pattern →
        (fold (step_of digits pattern) (zero_state pattern) parts).failure ≡ None →
        row_at (fold (step_of digits pattern) (zero_state pattern) parts).rows i
        ≡ (fold (row_step digits (columns_at pattern i) i) (record { row = zero_row (columns_at pattern i); all = true }) parts).row }
{}

/// The steps of a row alone tell whether a part fails in a sum at this row.
pub fn rows_tell_failures()
    ensures { (digits : ℕ) (pattern : List (List ℕ)) (parts : List CellPart) (part : CellPart) (i : ℕ) → i < length pattern →
        All (IsPartFor pattern) parts → IsPartFor pattern part → part.fault ≡ None →
        (fold (step_of digits pattern) (zero_state pattern) parts).failure ≡ None →
        ((row_step digits (columns_at pattern i) i (record { row = row_at (fold (step_of digits pattern) (zero_state pattern) parts).rows i; all = true }) part).all ≡ false)
        ↔ FailsAtRow digits (parts ++ part ∷ []) (length parts) i }
{}

/// A part that has no contribution to a row leaves it.
pub fn other_rows_stay()
    ensures { (digits : ℕ) (columns : List ℕ) (i : ℕ) (part : CellPart) (run : RowRun) →
        list_any (λ (c : Contribution). c.row == i) part.list ≡ false → row_step digits columns i run part ≡ run }
{}

/// Parts in chunks are parts one after another.
pub fn chunks_are_parts()
    ensures { (digits : ℕ) (pattern : List (List ℕ)) (chunks : List (List CellPart)) (state : MatrixState) →
        fold (λ (s : MatrixState) (chunk : List CellPart). fold (step_of digits pattern) s chunk) state chunks ≡ fold (step_of digits pattern) state (flat_map (λ (chunk : List CellPart). chunk) chunks) }
{}

/// A round does what the steps do: where it leaves no mark, the rows are those of the steps over its parts one after
/// another, and else the first mark tells how the steps fail.
pub fn rounds_do_the_steps()
    ensures { (digits : ℕ) (pattern : List (List ℕ)) (items : List RoundItem) (old new : List Row) → length old ≡ length pattern → AreUnmarked old →
        AreItems pattern items → IsRound digits pattern items old new → RoundIs digits pattern items (record { rows = old; failure = None }) new }
{}

/// Rows that fit still fit after a step.
pub fn rows_fit_after_a_step()
    ensures { (digits : ℕ) (pattern : List (List ℕ)) (state : MatrixState) (part : CellPart) → IsPartFor pattern part →
        FitsRows pattern state.rows → FitsRows pattern (step_of digits pattern state part).rows }
{}

/// A row that fits still fits after a part.
pub fn a_row_fits_after_a_part()
    ensures { (digits : ℕ) (columns : List ℕ) (i : ℕ) (row : Row) (part : CellPart) → All (IsForRow columns i) part.list →
        FitsRow columns row → FitsRow columns (row_after digits columns i row part) }
{}
