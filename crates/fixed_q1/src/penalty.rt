ghost use Rattle.std.specs.Prelude.{◌≡◌, ◌≤◌, ◌<◌, ◌^◌, ◌++◌, map, slice_index_or, [], unsigned_abs};
ghost use Rattle.fixed_q1.specs.CellForm.{shape_numbers};
ghost use Rattle.fixed_q1.specs.JumpForm.{jump_entry, penalty_matrix};
ghost use Rattle.fixed_q1.specs.Evaluation.{AreSmallFactors, number_at, four_from, jump_block};

use crate::geometry::ONE_POWER;
use fem_fixed::rdiv_by_power;

/// Four rows of four entries: rows of one cell, columns of the same or of the other one.
type Block = [[i128; 4]; 4];

/// The matrix of a part of a face by rows, from the jumps. It is symmetric, so that 36 entries give all 64.
pub fn entries_of(factors: &[i128; 8], gamma: i128) -> [[i128; 8]; 8]
    requires factors { AreSmallFactors factors.now }
    requires gamma { unsigned_abs gamma ≤ 2 ^ 31 }
    ensures { result ≡ penalty_matrix gamma factors.now }
{
    let here = own_block(factors, gamma, 0);
    let across = mixed_block(factors, gamma);
    let there = own_block(factors, gamma, 4);
    [
        joined(&here[0], &across[0]),
        joined(&here[1], &across[1]),
        joined(&here[2], &across[2]),
        joined(&here[3], &across[3]),
        joined(&column(&across, 0), &there[0]),
        joined(&column(&across, 1), &there[1]),
        joined(&column(&across, 2), &there[2]),
        joined(&column(&across, 3), &there[3]),
    ]
}

/// The block of one cell, whose shape functions are counted from `first` on: ten entries, six of which
/// stand twice.
fn own_block(factors: &[i128; 8], gamma: i128, first: usize) -> Block
    requires factors { AreSmallFactors factors.now }
    requires gamma { unsigned_abs gamma ≤ 2 ^ 31 }
    requires first { first ≤ 4 }
    ensures { result ≡ jump_block gamma factors.now (four_from first) (four_from first) }
{
    let e00 = entry(factors, gamma, first, first);
    let e01 = entry(factors, gamma, first, first + 1);
    let e02 = entry(factors, gamma, first, first + 2);
    let e03 = entry(factors, gamma, first, first + 3);
    let e11 = entry(factors, gamma, first + 1, first + 1);
    let e12 = entry(factors, gamma, first + 1, first + 2);
    let e13 = entry(factors, gamma, first + 1, first + 3);
    let e22 = entry(factors, gamma, first + 2, first + 2);
    let e23 = entry(factors, gamma, first + 2, first + 3);
    let e33 = entry(factors, gamma, first + 3, first + 3);
    [
        [e00, e01, e02, e03],
        [e01, e11, e12, e13],
        [e02, e12, e22, e23],
        [e03, e13, e23, e33],
    ]
}

/// The block of both cells: rows of the cell here, columns of the cell there.
fn mixed_block(factors: &[i128; 8], gamma: i128) -> Block
    requires factors { AreSmallFactors factors.now }
    requires gamma { unsigned_abs gamma ≤ 2 ^ 31 }
    ensures { result ≡ jump_block gamma factors.now (four_from 0) (four_from 4) }
{
    [
        mixed_row(factors, gamma, 0),
        mixed_row(factors, gamma, 1),
        mixed_row(factors, gamma, 2),
        mixed_row(factors, gamma, 3),
    ]
}

/// One row of that block.
fn mixed_row(factors: &[i128; 8], gamma: i128, i: usize) -> [i128; 4]
    requires factors { AreSmallFactors factors.now }
    requires gamma { unsigned_abs gamma ≤ 2 ^ 31 }
    requires i { i < 4 }
    ensures { result ≡ map (jump_entry gamma factors.now i) (four_from 4) }
{
    [
        entry(factors, gamma, i, 4),
        entry(factors, gamma, i, 5),
        entry(factors, gamma, i, 6),
        entry(factors, gamma, i, 7),
    ]
}

/// The entry `(i, j)` of the matrix, in units of 2^-32.
fn entry(factors: &[i128; 8], gamma: i128, i: usize, j: usize) -> i128
    requires factors { AreSmallFactors factors.now }
    requires gamma { unsigned_abs gamma ≤ 2 ^ 31 }
    requires i { i < 8 }
    requires j { j < 8 }
    ensures { result ≡ jump_entry gamma factors.now i j }
{
    rdiv_by_power(gamma * factors[i] * factors[j], ONE_POWER)
}

/// A row of two halves.
fn joined(left: &[i128; 4], right: &[i128; 4]) -> [i128; 8]
    ensures { result ≡ map (number_at left.now) shape_numbers ++ map (number_at right.now) shape_numbers }
{
    [
        left[0], left[1], left[2], left[3], right[0], right[1], right[2], right[3],
    ]
}

/// A column of a block.
fn column(block: &Block, j: usize) -> [i128; 4]
    requires { j < 4 }
    ensures { result ≡ map (λ i. number_at (slice_index_or block.now i []) j) shape_numbers }
{
    [block[0][j], block[1][j], block[2][j], block[3][j]]
}
