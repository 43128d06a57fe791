ghost use Rattle.std.specs.Prelude.{◌≡◌, ◌<◌, ◌≤◌, ◌^◌, IfOk, length, map};
ghost use Rattle.std.specs.List.Sorted.{IsNonDecreasing};
ghost use Rattle.conflict_coloring.specs.Ranks.{entries_of, rank_in, ranked_by};

use crate::Conflicts;
use fem_fixed::NoMemory;
use std::alloc::Global;

/// The rows of all cells, one cell after another.
pub fn all_rows(alloc: Global, conflicts: &Conflicts) -> Result<Vec<u32>, NoMemory>
    ensures { IfOk result (λ rows. rows.items ≡ entries_of conflicts.now) }
{
    let mut rows = Vec::new(alloc);
    for cell in 0..conflicts.len() {
        rows.extend_from_slice(conflicts.rows(cell as u32))?;
    }
    Ok(rows)
}

/// The cells with each row replaced by its rank among some rising numbers.
pub fn ranked(alloc: Global, conflicts: &Conflicts, rising: &[u32]) -> Result<Conflicts, NoMemory>
    requires few { length rising.now < 2 ^ 32 }
    requires rising { IsNonDecreasing rising.now }
    ensures { IfOk result (λ made. made ≡ ranked_by rising.now conflicts.now) }
{
    let mut made = Conflicts::new(alloc);
    for cell in 0..conflicts.len() {
        let ranks = ranks_of(alloc, rising, conflicts.rows(cell as u32))?;
        made.add(&ranks)?;
    }
    Ok(made)
}

// The ranks of the rows of a cell.
fn ranks_of(alloc: Global, rising: &[u32], rows: &[u32]) -> Result<Vec<u32>, NoMemory>
    requires few { length rising.now < 2 ^ 32 }
    requires rising { IsNonDecreasing rising.now }
    ensures { IfOk result (λ ranks. ranks.items ≡ map (rank_in rising.now) rows.now) }
{
    let mut ranks = Vec::with_capacity(alloc, rows.len())?;
    for row in rows {
        ranks.push(rank_of(rising, *row))?;
    }
    Ok(ranks)
}

// How many of some rising numbers are below a row.
fn rank_of(rising: &[u32], row: u32) -> u32
    requires few { length rising.now < 2 ^ 32 }
    requires rising { IsNonDecreasing rising.now }
    ensures { result ≡ rank_in rising.now row }
{
    rising.partition_point(|number| *number < row) as u32
}
