ghost use Rattle.std.specs.Prelude.{◌≡◌, ◌≤◌, ◌⊎◌, ℕ, List, length, IfOk, IfErr};
ghost use Rattle.problem_read.specs.declared.fault.ProblemKind.{ProblemKind};
ghost use Rattle.problem_read.specs.Entries.{ProblemParts};
ghost use Rattle.problem_read.specs.Limits.{AreWithinLimits};
ghost use Rattle.problem_read.specs.Problem.{ProblemText, ProblemFaultAt, NoMemoryOr};

use crate::tables::Tables;
use crate::{Problem, ProblemFault};
use fem_text::WordLines;
use std::alloc::Global;

/// Reads a problem text: coefficients by material, boundary data by boundary id, the weight of jumps,
/// refinement steps and constraints. Blank lines and lines that begin with `#` are passed over.
///
/// The text has at most 4,294,967,294 bytes. An error is the first fault of the text, or that memory ran out.
pub fn read_problem(alloc: Global, text: &[u8]) -> Result<Problem, ProblemFault>
    requires { length text.now ≤ 4294967294 }
    ensures ok { IfOk result (λ problem. ProblemText text.now problem) }
    ensures limits { IfOk result AreWithinLimits }
    ensures err { IfErr result (λ fault. NoMemoryOr fault (ProblemFaultAt text.now fault.kind fault.line)) }
{
    let mut lines = WordLines::new(text, Some(b'#'));
    let mut tables = Tables::new(alloc);
    while let Some(line) = lines.next_line() {
        tables.add(alloc, &line)?;
    }
    Ok(Problem::new(tables))
}

/// Each text has one reading: a problem or a fault, never both, and no two of either.
pub fn one_reading()
    ensures problem { (text : List ℕ) (first second : ProblemParts) → ProblemText text first → ProblemText text second → first ≡ second }
    ensures fault { (text : List ℕ) (kind other : ProblemKind) (line another : ℕ) →
        ProblemFaultAt text kind line → ProblemFaultAt text other another → (kind ≡ other) × (line ≡ another) }
    ensures apart { (text : List ℕ) (parts : ProblemParts) (kind : ProblemKind) (line : ℕ) →
        ProblemText text parts → ProblemFaultAt text kind line → ⊥ }
    // No fault of a text is that memory ran out.
    ensures memory { (text : List ℕ) (line : ℕ) → ProblemFaultAt text ProblemKind.NoMemory line → ⊥ }
    ensures some { (text : List ℕ) → ((parts : ProblemParts) × ProblemText text parts) ⊎ ((kind : ProblemKind) × (line : ℕ) × ProblemFaultAt text kind line) }
{}
