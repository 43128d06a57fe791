ghost use Rattle.std.specs.Prelude.{◌≡◌, ◌≤◌, ◌<◌, ◌^◌, ◌+ℤ◌, All, map, unsigned_abs};
ghost use Rattle.fixed_q1.specs.CellForm.{total};
ghost use Rattle.fixed_q2.specs.Samples.{IsRegular, AreFluxesOf, AreScaledSourcesOf, AreRowsOf, IsPart, kept_source, kept_entry, kept_row, kept_matrix, kept_load};

use crate::flux::{Flux, ScaledSource, diffusion_part, flux_of, scaled_source_of, source_part};
use crate::sample::Sample;

/// The fluxes of the nine points.
pub fn fluxes_of_all(samples: &[Sample; 9], diffusion: i64) -> [Flux; 9]
    requires samples { All IsRegular samples.now }
    requires diffusion { unsigned_abs diffusion ≤ 2 ^ 31 }
    ensures { AreFluxesOf diffusion samples.now result }
{
    [
        flux_of(&samples[0], diffusion),
        flux_of(&samples[1], diffusion),
        flux_of(&samples[2], diffusion),
        flux_of(&samples[3], diffusion),
        flux_of(&samples[4], diffusion),
        flux_of(&samples[5], diffusion),
        flux_of(&samples[6], diffusion),
        flux_of(&samples[7], diffusion),
        flux_of(&samples[8], diffusion),
    ]
}

/// The matrix of a cell by rows, from what the nine points know of it. It is symmetric, so that 45 entries
/// give all 81.
pub fn matrix_of(samples: &[Sample; 9], fluxes: &[Flux; 9], diffusion: i64) -> [[i128; 9]; 9]
    requires samples { All IsRegular samples.now }
    requires fluxes { AreFluxesOf diffusion samples.now fluxes.now }
    requires diffusion { unsigned_abs diffusion ≤ 2 ^ 31 }
    ensures { result ≡ kept_matrix samples.now diffusion }
{
    let mut matrix = [[0; 9]; 9];
    for i in 0..9 {
        matrix[i] = row_of(&matrix, samples, fluxes, diffusion, i);
    }
    matrix
}

/// The row `i` of the matrix, whose rows before it stand.
fn row_of(
    matrix: &[[i128; 9]; 9],
    samples: &[Sample; 9],
    fluxes: &[Flux; 9],
    diffusion: i64,
    i: usize,
) -> [i128; 9]
    requires matrix { AreRowsOf samples.now diffusion i matrix.now }
    requires samples { All IsRegular samples.now }
    requires fluxes { AreFluxesOf diffusion samples.now fluxes.now }
    requires diffusion { unsigned_abs diffusion ≤ 2 ^ 31 }
    requires i { i < 9 }
    ensures { result ≡ kept_row samples.now diffusion i }
{
    let mut row = [0; 9];
    for j in 0..9 {
        row[j] = entry_of(matrix, samples, fluxes, diffusion, i, j);
    }
    row
}

/// The entry `(i, j)`, from the row `j` where that stands.
fn entry_of(
    matrix: &[[i128; 9]; 9],
    samples: &[Sample; 9],
    fluxes: &[Flux; 9],
    diffusion: i64,
    i: usize,
    j: usize,
) -> i128
    requires matrix { AreRowsOf samples.now diffusion i matrix.now }
    requires samples { All IsRegular samples.now }
    requires fluxes { AreFluxesOf diffusion samples.now fluxes.now }
    requires diffusion { unsigned_abs diffusion ≤ 2 ^ 31 }
    requires i { i < 9 }
    requires j { j < 9 }
    ensures { result ≡ kept_entry samples.now diffusion i j }
{
    if j < i {
        return matrix[j][i];
    }
    matrix_entry(samples, fluxes, diffusion, i, j)
}

/// The entry `(i, j)` of the matrix.
#[inline(never)]
fn matrix_entry(
    samples: &[Sample; 9],
    fluxes: &[Flux; 9],
    diffusion: i64,
    i: usize,
    j: usize,
) -> i128
    requires samples { All IsRegular samples.now }
    requires fluxes { AreFluxesOf diffusion samples.now fluxes.now }
    requires diffusion { unsigned_abs diffusion ≤ 2 ^ 31 }
    requires i { i < 9 }
    requires j { j < 9 }
    ensures { result ≡ kept_entry samples.now diffusion i j }
{
    let p0 = diffusion_part(&samples[0], &fluxes[0], diffusion, i, j);
    let p1 = diffusion_part(&samples[1], &fluxes[1], diffusion, i, j);
    let p2 = diffusion_part(&samples[2], &fluxes[2], diffusion, i, j);
    let p3 = diffusion_part(&samples[3], &fluxes[3], diffusion, i, j);
    let p4 = diffusion_part(&samples[4], &fluxes[4], diffusion, i, j);
    let p5 = diffusion_part(&samples[5], &fluxes[5], diffusion, i, j);
    let p6 = diffusion_part(&samples[6], &fluxes[6], diffusion, i, j);
    let p7 = diffusion_part(&samples[7], &fluxes[7], diffusion, i, j);
    let p8 = diffusion_part(&samples[8], &fluxes[8], diffusion, i, j);
    let near = sum_of_three(p0, p1, p2);
    let middle = sum_of_three(p3, p4, p5);
    let far = sum_of_three(p6, p7, p8);
    near + middle + far
}

/// The sum of three numbers.
#[inline(always)]
fn sum_of_three(a: i128, b: i128, c: i128) -> i128
    requires a { IsPart a }
    requires b { IsPart b }
    requires c { IsPart c }
    ensures value { result ≡ a +ℤ b +ℤ c }
    ensures size { unsigned_abs result ≤ 2 ^ 120 }
{
    a + b + c
}

/// The load of a cell, from what the nine points know of it.
pub fn load_of(samples: &[Sample; 9], source: i64) -> [i128; 9]
    requires samples { All IsRegular samples.now }
    requires source { unsigned_abs source ≤ 2 ^ 31 }
    ensures { result ≡ kept_load samples.now source }
{
    if source == 0 {
        return [0; 9];
    }
    let scaled_sources = scaled_sources_of(samples, source);
    [
        load_entry(samples, &scaled_sources, source, 0),
        load_entry(samples, &scaled_sources, source, 1),
        load_entry(samples, &scaled_sources, source, 2),
        load_entry(samples, &scaled_sources, source, 3),
        load_entry(samples, &scaled_sources, source, 4),
        load_entry(samples, &scaled_sources, source, 5),
        load_entry(samples, &scaled_sources, source, 6),
        load_entry(samples, &scaled_sources, source, 7),
        load_entry(samples, &scaled_sources, source, 8),
    ]
}

/// The source at the nine points, times the determinants.
fn scaled_sources_of(samples: &[Sample; 9], source: i64) -> [ScaledSource; 9]
    requires samples { All IsRegular samples.now }
    requires source { unsigned_abs source ≤ 2 ^ 31 }
    ensures { AreScaledSourcesOf source samples.now result }
{
    [
        scaled_source_of(&samples[0], source),
        scaled_source_of(&samples[1], source),
        scaled_source_of(&samples[2], source),
        scaled_source_of(&samples[3], source),
        scaled_source_of(&samples[4], source),
        scaled_source_of(&samples[5], source),
        scaled_source_of(&samples[6], source),
        scaled_source_of(&samples[7], source),
        scaled_source_of(&samples[8], source),
    ]
}

/// The entry `i` of the load.
#[inline(never)]
fn load_entry(
    samples: &[Sample; 9],
    scaled_sources: &[ScaledSource; 9],
    source: i64,
    i: usize,
) -> i128
    requires samples { All IsRegular samples.now }
    requires scaled_sources { AreScaledSourcesOf source samples.now scaled_sources.now }
    requires source { unsigned_abs source ≤ 2 ^ 31 }
    requires i { i < 9 }
    ensures { result ≡ total (map (kept_source source i) samples.now) }
{
    let p0 = source_part(&samples[0], scaled_sources[0], source, i);
    let p1 = source_part(&samples[1], scaled_sources[1], source, i);
    let p2 = source_part(&samples[2], scaled_sources[2], source, i);
    let p3 = source_part(&samples[3], scaled_sources[3], source, i);
    let p4 = source_part(&samples[4], scaled_sources[4], source, i);
    let p5 = source_part(&samples[5], scaled_sources[5], source, i);
    let p6 = source_part(&samples[6], scaled_sources[6], source, i);
    let p7 = source_part(&samples[7], scaled_sources[7], source, i);
    let p8 = source_part(&samples[8], scaled_sources[8], source, i);
    let near = sum_of_three(p0, p1, p2);
    let middle = sum_of_three(p3, p4, p5);
    let far = sum_of_three(p6, p7, p8);
    near + middle + far
}
