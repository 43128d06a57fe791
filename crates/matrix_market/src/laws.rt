ghost use Rattle.std.specs.Prelude.{◌≡◌, ◌⊎◌, ◌<◌, ◌^◌, ℕ, ℤ, List, length, All};
ghost use Rattle.std.specs.Int.{w128};
ghost use Rattle.std.specs.Int.RustNames.{FitsSigned};
ghost use Rattle.matrix_market.specs.declared.fault.MarketKind.{MarketKind};
ghost use Rattle.matrix_market.specs.Market.{Matrix, MatrixText, MatrixFaultAt, VectorText, VectorFaultAt};
ghost use Rattle.matrix_market.specs.Entries.{entries_of};
ghost use Rattle.matrix_market.specs.Texts.{matrix_text, vector_text};
ghost use Rattle.matrix_market.specs.ReadBack.{IsReadable};

/// Each text has one reading as a matrix: a matrix or a fault, never both, and no two of either.
pub fn one_matrix_reading()
    ensures matrix { (text : List ℕ) (first second : Matrix) → MatrixText text first → MatrixText text second → first ≡ second }
    ensures fault { (text : List ℕ) (kind other : MarketKind) (line another : ℕ) →
        MatrixFaultAt text kind line → MatrixFaultAt text other another → (kind ≡ other) × (line ≡ another) }
    ensures apart { (text : List ℕ) (matrix : Matrix) (kind : MarketKind) (line : ℕ) → MatrixText text matrix → MatrixFaultAt text kind line → ⊥ }
    // No fault of a text is that memory ran out.
    ensures memory { (text : List ℕ) (line : ℕ) → MatrixFaultAt text MarketKind.NoMemory line → ⊥ }
    ensures some { (text : List ℕ) → ((matrix : Matrix) × MatrixText text matrix) ⊎ ((kind : MarketKind) × (line : ℕ) × MatrixFaultAt text kind line) }
{}

/// Each text has one reading as a right side: values or a fault, never both, and no two of either.
pub fn one_vector_reading()
    ensures values { (text : List ℕ) (first second : List ℤ) → VectorText text first → VectorText text second → first ≡ second }
    ensures fault { (text : List ℕ) (kind other : MarketKind) (line another : ℕ) →
        VectorFaultAt text kind line → VectorFaultAt text other another → (kind ≡ other) × (line ≡ another) }
    ensures apart { (text : List ℕ) (values : List ℤ) (kind : MarketKind) (line : ℕ) → VectorText text values → VectorFaultAt text kind line → ⊥ }
    // No fault of a text is that memory ran out.
    ensures memory { (text : List ℕ) (line : ℕ) → VectorFaultAt text MarketKind.NoMemory line → ⊥ }
    ensures some { (text : List ℕ) → ((values : List ℤ) × VectorText text values) ⊎ ((kind : MarketKind) × (line : ℕ) × VectorFaultAt text kind line) }
{}

/// What is written is read back: each text of a square matrix, within the limits of a text, is of this matrix, with its
/// entries by row and then by column.
pub fn written_matrices_are_read_back()
    ensures { (pattern : List (List ℕ)) (values : List (List ℤ)) → IsReadable pattern values →
        MatrixText (matrix_text pattern values) (record { rows = length pattern; columns = length pattern; entries = entries_of pattern values }) }
{}

/// What is written is read back: each text of a right side is of its values, each in the range of 128 bits.
pub fn written_right_sides_are_read_back()
    ensures { (values : List ℤ) → length values < 2 ^ 32 → All (FitsSigned w128) values → VectorText (vector_text values) values }
{}
