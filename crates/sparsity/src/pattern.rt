ghost use Rattle.std.specs.Prelude.{◌≡◌, ◌<◌, ◌≤◌, false, [], length, slice_index_or, All, IfOk, IfErr, OnOk, MatchOption};
ghost use Rattle.std.specs.List.{concat};
ghost use Rattle.std.specs.List.Sorted.{IsStrictlyIncreasing};
ghost use Rattle.sparsity.specs.Chains.{AreChains};
ghost use Rattle.sparsity.specs.Coupled.{has, share_list, rows_of, pairs_of};
ghost use Rattle.sparsity.specs.declared.fault.PatternFault.TheVariants.{Limit as AboveLimit};

use crate::chains::{Chains, make_chains};
use crate::couplings::Couplings;
use crate::fault::PatternFault;
use crate::limit::is_above_limit;
use crate::lists::Lists;
use crate::pieces::{all_pieces, joined};
use fem_fixed::NoMemory;
use std::alloc::Global;
use std::marker::Model;
use std::thread::Threads;

/// Which pairs of dofs couple, by rows of rising columns, in compressed rows: 4 bytes a pair and 8 a row. Contracts see
/// the list of its rows. Each column is below the number of rows, and there are at most 33,554,432 pairs.
#[derive(Drop)]
pub struct Pattern {
    rows: Lists,
}

impl Model for Pattern {
    ghost use Rattle.std.specs.Prelude.{ℕ, List};
    ghost use Rattle.sparsity.specs.Coupled.{IsPattern};

    ghost Value = { List (List ℕ) };

    ghost view = { λ a. a.rows };

    ghost invariant = { λ a. IsPattern a.rows };
}

impl Pattern {
    /// The pattern of all pairs (i, i) and all pairs of each list. The rows are made in several threads; they are the
    /// same whatever the number of threads.
    ///
    /// # Errors
    ///
    /// `Limit` where there are more than 33,554,432 pairs; this is known before the rows are kept.
    pub fn build(
        rt: &(impl Threads + Sync),
        alloc: Global,
        couplings: &Couplings,
    ) -> Result<Pattern, PatternFault>
        ensures rows { IfOk result (λ pattern. pattern ≡ rows_of couplings.now) }
        ensures within { OnOk result (pairs_of couplings.now ≤ 33554432) }
        ensures limit { IfErr result (λ fault. fault ≡ AboveLimit → 33554432 < pairs_of couplings.now) }
    {
        let size = couplings.size();
        let lists = couplings.lists();
        let chains = make_chains(alloc, size, lists)?;
        if is_above_limit(rt, alloc, size, lists, &chains)? {
            return Err(PatternFault::Limit);
        }
        let rows = all_rows(rt, alloc, size, lists, &chains)?;
        Ok(Pattern { rows })
    }

    /// How many rows there are, and so how many columns.
    pub fn size(&self) -> u32
        ensures size { result ≡ length self.now }
        ensures rising { All IsStrictlyIncreasing self.now }
        ensures square { All (All (λ j. j < length self.now)) self.now }
        ensures few { length (concat self.now) ≤ 33554432 }
    {
        self.rows.len() as u32
    }

    /// How many pairs there are.
    pub fn entries(&self) -> u64
        ensures { result ≡ length (concat self.now) }
    {
        self.rows.total() as u64
    }

    /// The columns of a row, rising.
    pub fn row(&self, i: u32) -> &[u32]
        requires { i < length self.now }
        ensures value { result.now ≡ slice_index_or self.now i [] }
        ensures rising { IsStrictlyIncreasing result.now }
    {
        self.rows.get(i as usize)
    }

    /// The place of a column in a row, `None` exactly where the pattern hasn't the pair. A binary search.
    pub fn place(&self, i: u32, j: u32) -> Option<usize>
        requires { i < length self.now }
        ensures { MatchOption result (has (slice_index_or self.now i []) j ≡ false)
            (λ p. (p < length (slice_index_or self.now i [])) × (slice_index_or (slice_index_or self.now i []) p 0 ≡ j)) }
    {
        self.row(i).binary_search(&j).ok()
    }
}

/// The rows of the pattern, one behind the other.
fn all_rows(
    rt: &(impl Threads + Sync),
    alloc: Global,
    size: u32,
    lists: &Lists,
    chains: &Chains,
) -> Result<Lists, NoMemory>
    requires within { All (All (λ j. j < size)) lists.now }
    requires size { length chains.now.heads.items ≡ size }
    requires chains { AreChains lists.now chains.now.heads.items chains.now.nodes.items (share_list lists.now) }
    ensures { IfOk result (λ rows. rows ≡ rows_of (record { size = size; lists = lists.now })) }
{
    let pieces = all_pieces(rt, alloc, size, lists, chains)?;
    joined(alloc, &pieces)
}
