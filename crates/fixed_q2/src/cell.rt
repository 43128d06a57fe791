ghost use Rattle.std.specs.Prelude.{◌≡◌, ◌≤◌, ◌^◌, pos, int_le, nat_le, not, All, OnErr, OnOk, IfErr, Ok, Err, unsigned_abs};
ghost use Rattle.std.specs.List.{list_any};
ghost use Rattle.fem_fixed.specs.Mesh.{IsWithinReach};
ghost use Rattle.fixed_q1.specs.LocalForm.{zero_matrix, zero_load, is_large};
ghost use Rattle.fixed_q2.specs.Biquadratic.{shape_numbers};
ghost use Rattle.fixed_q2.specs.CellForm.{cell_form};

use crate::flux::{Flux, NO_FLUX};
use crate::jump::{NO_SLOPES, Slopes};
use crate::sample::{NO_SAMPLE, Sample, samples};
use crate::sums::{fluxes_of_all, load_of, matrix_of};
use fem_fixed::Point;
use fixed_q1::LocalFault;

/// The greatest size of an entry of a matrix, in units of 2^-32.
const ENTRY_LIMIT: u128 = 1 << 72;

/// Room for what the nine points of the quadrature know of a cell, or the middle of a part of a face of the
/// cells on its two sides. Each call fills anew what it reads, so what the room held before never matters. It
/// owns no memory.
#[derive(Drop)]
pub struct Q2Scratch {
    samples: [Sample; 9],
    fluxes: [Flux; 9],
    pub(crate) here: Slopes,
    pub(crate) there: Slopes,
}

impl Q2Scratch {
    /// Room with nothing in it yet.
    pub fn new() -> Q2Scratch {
        Q2Scratch {
            samples: [NO_SAMPLE; 9],
            fluxes: [NO_FLUX; 9],
            here: NO_SLOPES,
            there: NO_SLOPES,
        }
    }
}

/// Writes the matrix and the load of a cell: for shape functions N of the standard biquadratic element on
/// quadrilaterals (Q2) with a bilinear geometry, the integrals of `diffusion grad N_i . grad N_j` and of
/// `source N_i` by the Gauss quadrature with 3x3 points, as on the pages `FE_Q` and `QGauss` of the deal.II
/// manual. The functions are those of the four vertices, then those of the middles of the faces left, right,
/// bottom and top, and then that of the centre.
///
/// `points` are the vertices in lexicographic order, x fastest, in ticks of 2^-16 and at most 1024 in
/// size. `diffusion` and `source` are in ticks, and at most 32768 in size. The matrix, by rows, and the
/// load are in units of 2^-32. The entries of the Jacobian and the gradients of the functions on the unit
/// square are rounded to ticks, and what each point adds is rounded twice, to the nearest unit. `scratch` is
/// room to work in.
///
/// # Errors
///
/// `Distorted` where the determinant of the Jacobian isn't positive at one of the points, and otherwise
/// `Size` where an entry of the matrix is above 2^72 in size. Both arrays then hold zeros.
pub fn cell_matrix2(
    points: &[Point; 4],
    diffusion: i64,
    source: i64,
    scratch: &mut Q2Scratch,
    matrix: &mut [[i128; 9]; 9],
    rhs: &mut [i128; 9],
) -> Result<(), LocalFault>
    requires points { All IsWithinReach points.now }
    requires diffusion { unsigned_abs diffusion ≤ 2 ^ 31 }
    requires source { unsigned_abs source ≤ 2 ^ 31 }
    ensures ok { OnOk result (cell_form points.now diffusion source ≡ Ok (record { matrix = matrix.new; load = rhs.new })) }
    ensures fault { IfErr result (λ fault. cell_form points.now diffusion source ≡ Err fault) }
    ensures small { OnOk result (All (All (λ entry. unsigned_abs entry ≤ 2 ^ 72)) matrix.new) }
    ensures small_load { OnOk result (All (λ f. unsigned_abs f ≤ 2 ^ 72) rhs.new) }
    ensures cleared { OnErr result ((matrix.new ≡ zero_matrix shape_numbers) × (rhs.new ≡ zero_load shape_numbers)) }
{
    *matrix = [[0; 9]; 9];
    *rhs = [0; 9];
    scratch.samples = samples(points);
    if has_folded_point(&scratch.samples) {
        return Err(LocalFault::Distorted);
    }
    scratch.fluxes = fluxes_of_all(&scratch.samples, diffusion);
    let entries = matrix_of(&scratch.samples, &scratch.fluxes, diffusion);
    if has_large_entry(&entries) {
        return Err(LocalFault::Size);
    }
    *matrix = entries;
    *rhs = load_of(&scratch.samples, source);
    Ok(())
}

/// Whether the determinant isn't positive at one of the points.
fn has_folded_point(samples: &[Sample; 9]) -> bool
    ensures { result ≡ list_any (λ s. int_le s.determinant (pos 0)) samples.now }
{
    samples.iter().any(|s| s.determinant <= 0)
}

/// Whether an entry is above the limit in size.
#[tactic(auto, unfolding(fixed_q1::specs::LocalForm::is_large))]
fn has_large_entry(matrix: &[[i128; 9]; 9]) -> bool
    ensures { result ≡ is_large matrix.now }
{
    matrix.iter().any(|row| has_large_entry_in(row))
}

/// Whether a row has an entry above the limit.
pub fn has_large_entry_in(row: &[i128]) -> bool
    ensures { result ≡ list_any (λ entry. not (nat_le (unsigned_abs entry) (2 ^ 72))) row.now }
{
    row.iter().any(|entry| entry.unsigned_abs() > ENTRY_LIMIT)
}
