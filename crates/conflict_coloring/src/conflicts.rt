ghost use Rattle.std.specs.Prelude.{ℕ, ◌+◌, ◌<◌, ◌≤◌, ◌^◌, ◌≡◌, ◌++◌, ◌∷◌, [], OnOk, OnErr, IfOk, length};
ghost use Rattle.conflict_coloring.specs.Conflict.{rows_of};

use crate::cut::list_at;
use fem_fixed::NoMemory;
use std::alloc::Global;
use std::marker::Model;

/// Cells, each with the rows that it writes. Contracts see a list of rows for each cell.
#[derive(Drop)]
pub struct Conflicts {
    /// Where the rows of each cell end.
    ends: Vec<usize>,
    /// The rows of all cells, one cell after another.
    rows: Vec<u32>,
}

impl Model for Conflicts {
    ghost use Rattle.std.specs.Prelude.{ℕ, List};
    ghost use Rattle.conflict_coloring.specs.Cut.{cut, AreLists};

    ghost Value = { List (List ℕ) };

    ghost view = { λ c. cut c.ends.items c.rows.items };

    ghost invariant = { λ c. AreLists c.ends.items c.rows.items };
}

impl Conflicts {
    /// No cells.
    pub fn new(alloc: Global) -> Conflicts
        ensures { result ≡ [] }
    {
        Conflicts {
            ends: Vec::new(alloc),
            rows: Vec::new(alloc),
        }
    }

    /// Adds the next cell with the rows that it writes, in any order and with or without repeats. A refusal changes nothing.
    pub fn add(&mut self, rows: &[u32]) -> Result<(), NoMemory>
        requires { length self.old < u32.MAX }
        ensures added { OnOk result (self.new ≡ self.old ++ rows.now ∷ []) }
        ensures unchanged { OnErr result (self.new ≡ self.old) }
    {
        self.ends.reserve(1)?;
        self.rows.extend_from_slice(rows)?;
        let end = self.rows.len();
        match self.ends.push(end) {
            Ok(()) => Ok(()),
            Err(_) => {
                self.rows.truncate(end - rows.len());
                Err(NoMemory)
            }
        }
    }

    /// How many cells there are.
    pub(crate) fn len(&self) -> usize
        ensures count { result ≡ length self.now }
        ensures few { result ≤ u32.MAX }
    {
        self.ends.len()
    }

    /// The rows that a cell writes.
    pub(crate) fn rows(&self, cell: u32) -> &[u32]
        requires { cell < length self.now }
        ensures { result.now ≡ rows_of self.now cell }
    {
        list_at(&self.ends, &self.rows, cell as usize)
    }
}
