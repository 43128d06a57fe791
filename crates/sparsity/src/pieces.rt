ghost use Rattle.std.specs.Prelude.{◌≡◌, ◌<◌, ◌≤◌, ◌+◌, ◌*◌, ◌-◌, min, map, length, All, IfOk};
ghost use Rattle.std.specs.List.{range_with_len, flat_map};
ghost use Rattle.sparsity.specs.Chains.{AreChains};
ghost use Rattle.sparsity.specs.Coupled.{share_list};
ghost use Rattle.sparsity.specs.Pieces.{piece_of, pieces_in};

use crate::chains::Chains;
use crate::gather::gather_row;
use crate::lists::Lists;
use fem_fixed::NoMemory;
use rayon::prelude::*;
use std::alloc::Global;
use std::thread::Threads;

/// How many rows a piece has, but for the last one.
const PIECE: u32 = 1024;

/// How many pieces the rows are made in.
pub fn count_pieces(size: u32) -> u32
    ensures { result ≡ pieces_in size }
{
    size / PIECE + 1
}

/// The first row of a piece, and the row behind its last one.
pub fn ends_of_piece(size: u32, p: u32) -> (u32, u32)
    requires { p < pieces_in size }
    ensures first { result.0 ≡ p * 1024 }
    ensures length { result.1 ≡ p * 1024 + min 1024 (size - p * 1024) }
    ensures within { result.1 ≤ size }
{
    let first = p * PIECE;
    (first, first + (size - first).min(PIECE))
}

/// All rows, in pieces that are made each by itself.
pub fn all_pieces(
    rt: &(impl Threads + Sync),
    alloc: Global,
    size: u32,
    lists: &Lists,
    chains: &Chains,
) -> Result<Vec<Lists>, NoMemory>
    requires within { All (All (λ j. j < size)) lists.now }
    requires size { length chains.now.heads.items ≡ size }
    requires chains { AreChains lists.now chains.now.heads.items chains.now.nodes.items (share_list lists.now) }
    ensures { IfOk result (λ pieces. map (λ piece. piece) pieces.items ≡ map (piece_of size lists.now) (range_with_len 0 (pieces_in size))) }
{
    let pieces: Result<Vec<Lists>, NoMemory> = (0..count_pieces(size))
        .into_par_iter()
        .with_min_len(1)
        .map(
            |p: u32| -> Result<Lists, NoMemory>
                requires { (p < pieces_in size) × All (All (λ j. j < size)) lists.now × (length chains.now.heads.items ≡ size) × AreChains lists.now chains.now.heads.items chains.now.nodes.items (share_list lists.now) }
                ensures { IfOk result (λ piece. piece ≡ piece_of size lists.entry.now p) }
            { one_piece(alloc, size, lists, chains, p) },
        )
        .collect(rt, alloc)?;
    pieces
}

/// The rows of a piece, one behind the other.
fn one_piece(
    alloc: Global,
    size: u32,
    lists: &Lists,
    chains: &Chains,
    p: u32,
) -> Result<Lists, NoMemory>
    requires piece { p < pieces_in size }
    requires within { All (All (λ j. j < size)) lists.now }
    requires size { length chains.now.heads.items ≡ size }
    requires chains { AreChains lists.now chains.now.heads.items chains.now.nodes.items (share_list lists.now) }
    ensures { IfOk result (λ piece. piece ≡ piece_of size lists.now p) }
{
    let (first, end) = ends_of_piece(size, p);
    let mut piece = Lists::new(alloc);
    let mut row = Vec::new(alloc);
    for i in first..end {
        gather_row(&mut row, size, lists, chains, i)?;
        piece.push(&row)?;
    }
    Ok(piece)
}

/// The rows of all pieces, one behind the other.
pub fn joined(alloc: Global, pieces: &[Lists]) -> Result<Lists, NoMemory>
    ensures { IfOk result (λ rows. rows ≡ flat_map (λ piece. piece) pieces.now) }
{
    let mut rows = Lists::new(alloc);
    for piece in pieces {
        rows.append(piece)?;
    }
    Ok(rows)
}
