ghost use Rattle.std.specs.Prelude.{◌≡◌, ◌<◌, ◌≤◌, ◌+◌, ◌↔◌, map, sum, length, All, IfOk, IsTrue};
ghost use Rattle.std.specs.List.{range_with_len, concat};
ghost use Rattle.std.specs.Bool.{OnFalse};
ghost use Rattle.sparsity.specs.Chains.{AreChains};
ghost use Rattle.sparsity.specs.Coupled.{share_list, pairs_of, squares_of};
ghost use Rattle.sparsity.specs.Pieces.{piece_of, pieces_in};

use crate::chains::Chains;
use crate::gather::gather_row;
use crate::lists::Lists;
use crate::pieces::{count_pieces, ends_of_piece};
use fem_fixed::NoMemory;
use rayon::prelude::*;
use std::alloc::Global;
use std::thread::Threads;

/// The greatest number of pairs.
const LIMIT: usize = 33_554_432;

/// Whether there are more pairs than the limit. It is known before a row is kept: where the lists are too short for so
/// many pairs nothing is counted, and else each row is gathered and its length counted.
pub fn is_above_limit(
    rt: &(impl Threads + Sync),
    alloc: Global,
    size: u32,
    lists: &Lists,
    chains: &Chains,
) -> Result<bool, NoMemory>
    requires within { All (All (λ j. j < size)) lists.now }
    requires size { length chains.now.heads.items ≡ size }
    requires chains { AreChains lists.now chains.now.heads.items chains.now.nodes.items (share_list lists.now) }
    ensures { IfOk result (λ above. IsTrue above ↔ (33554432 < pairs_of (record { size = size; lists = lists.now }))) }
{
    if !may_pass(size, lists) {
        return Ok(false);
    }
    let counts = all_counts(rt, alloc, size, lists, chains)?;
    Ok(is_sum_above(&counts))
}

/// Whether the squares of the lists' lengths and the size are together above the limit: a list of n dofs gives at most
/// n rows at most n columns each.
fn may_pass(size: u32, lists: &Lists) -> bool
    ensures { OnFalse result (size + squares_of lists.now ≤ 33554432) }
{
    let mut left = LIMIT;
    if size as usize > left {
        return true;
    }
    left -= size as usize;
    for k in 0..lists.len() {
        let length = lists.get(k).len();
        if length > LIMIT || length * length > left {
            return true;
        }
        left -= length * length;
    }
    false
}

/// How many pairs each piece of the rows has.
fn all_counts(
    rt: &(impl Threads + Sync),
    alloc: Global,
    size: u32,
    lists: &Lists,
    chains: &Chains,
) -> Result<Vec<usize>, NoMemory>
    requires within { All (All (λ j. j < size)) lists.now }
    requires size { length chains.now.heads.items ≡ size }
    requires chains { AreChains lists.now chains.now.heads.items chains.now.nodes.items (share_list lists.now) }
    ensures { IfOk result (λ counts. map (λ count. count) counts.items ≡ map (λ p. length (concat (piece_of size lists.now p))) (range_with_len 0 (pieces_in size))) }
{
    let counts: Result<Vec<usize>, NoMemory> = (0..count_pieces(size))
        .into_par_iter()
        .with_min_len(1)
        .map(
            |p: u32| -> Result<usize, NoMemory>
                requires { (p < pieces_in size) × All (All (λ j. j < size)) lists.now × (length chains.now.heads.items ≡ size) × AreChains lists.now chains.now.heads.items chains.now.nodes.items (share_list lists.now) }
                ensures { IfOk result (λ count. count ≡ length (concat (piece_of size lists.entry.now p))) }
            { one_count(alloc, size, lists, chains, p) },
        )
        .collect(rt, alloc)?;
    counts
}

/// How many pairs a piece of the rows has.
fn one_count(
    alloc: Global,
    size: u32,
    lists: &Lists,
    chains: &Chains,
    p: u32,
) -> Result<usize, NoMemory>
    requires piece { p < pieces_in size }
    requires within { All (All (λ j. j < size)) lists.now }
    requires size { length chains.now.heads.items ≡ size }
    requires chains { AreChains lists.now chains.now.heads.items chains.now.nodes.items (share_list lists.now) }
    ensures { IfOk result (λ count. count ≡ length (concat (piece_of size lists.now p))) }
{
    let (first, end) = ends_of_piece(size, p);
    let mut count = 0;
    let mut row = Vec::new(alloc);
    for i in first..end {
        gather_row(&mut row, size, lists, chains, i)?;
        count += row.len();
    }
    Ok(count)
}

/// Whether the sum of the counts is above the limit.
fn is_sum_above(counts: &[usize]) -> bool
    ensures { IsTrue result ↔ (33554432 < sum counts.now) }
{
    let mut left = LIMIT;
    for count in counts {
        if *count > left {
            return true;
        }
        left -= *count;
    }
    false
}
