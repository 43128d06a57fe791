ghost use Rattle.std.specs.Prelude.{◌≡◌, ◌≤◌, ◌<◌, ◌^◌, pos, ◌-ℤ◌, int_le, nat_le, not, ◌||◌, All, OnErr, OnOk, IfErr, Ok, Err, unsigned_abs};
ghost use Rattle.std.specs.List.{list_any};
ghost use Rattle.fem_fixed.specs.Mesh.{IsWithinReach};
ghost use Rattle.fixed_q1.specs.LocalForm.{zero_matrix, zero_load, is_large};
ghost use Rattle.fixed_q1.specs.Geometry.{IsInside, vector};
ghost use Rattle.fixed_q1.specs.CellForm.{dot};
ghost use Rattle.fixed_q1.specs.JumpForm.{is_steep};
ghost use Rattle.fixed_q1.specs.Evaluation.{IsSmallNormal};
ghost use Rattle.fixed_q2.specs.JumpForm.{jump_form, part_numbers};
ghost use Rattle.fixed_q2.specs.Samples.{AreBounded, AreRegular, IsSmallGradient, slopes_at, kept_slope, kept_factors};

use crate::cell::{Q2Scratch, has_large_entry_in};
use crate::penalty::entries_of;
use crate::sample::{NONE, gradients_on_cell};
use crate::shapes::shapes_at;
use fem_fixed::{Point, rdiv};
use fixed_q1::{LocalFault, Vector, bilinear_jacobian, jacobian_determinant, normal_to, product};

/// The greatest size of a jump, in ticks.
const FACTOR_LIMIT: u128 = 1 << 40;

/// What a place on a side of a face knows of its cell.
#[derive(Clone, Copy)]
pub struct Slopes {
    /// The determinant of the Jacobian, in units of 2^-32.
    pub determinant: i64,
    /// The gradients of the shape functions on the cell times the determinant, in units of 2^-32.
    pub gradients: [Vector; 9],
}

/// Nothing yet.
pub const NO_SLOPES: Slopes = Slopes {
    determinant: 0,
    gradients: [NONE; 9],
};

/// Writes the matrix of a part of an interior face between two cells: `gamma` times the products of the
/// jumps of the normal gradients of the eighteen shape functions, the nine of the cell `here` and then the
/// nine of the cell `there`, by the midpoint of the part. This is the penalty of Burman and Hansbo (Computer
/// Methods in Applied Mechanics and Engineering 193, 2004).
///
/// `here` and `there` are the vertices of the cells in lexicographic order, x fastest, and `ends` the ends
/// of the face, all in ticks of 2^-16 and at most 1024 in size. `here_at` and `there_at` are the midpoint
/// of the part in the unit squares of the cells, in ticks. `gamma` is in ticks, and at most 32768 in size.
/// The matrix, by rows, is in units of 2^-32. The gradients on the unit square are rounded to ticks, and each
/// jump and each entry is rounded once. `scratch` is room to work in.
///
/// # Errors
///
/// `Distorted` where the determinant of one of the two Jacobians isn't positive, and otherwise `Size` where
/// a jump is above 2^40 in size or an entry of the matrix above 2^72. The array then holds zeros.
pub fn jump_matrix2(
    here: &[Point; 4],
    here_at: (i64, i64),
    there: &[Point; 4],
    there_at: (i64, i64),
    ends: &[Point; 2],
    gamma: i64,
    scratch: &mut Q2Scratch,
    matrix: &mut [[i128; 18]; 18],
) -> Result<(), LocalFault>
    requires here { All IsWithinReach here.now }
    requires here_x { IsInside here_at.0 }
    requires here_y { IsInside here_at.1 }
    requires there { All IsWithinReach there.now }
    requires there_x { IsInside there_at.0 }
    requires there_y { IsInside there_at.1 }
    requires ends { All IsWithinReach ends.now }
    requires gamma { unsigned_abs gamma ≤ 2 ^ 31 }
    ensures ok { OnOk result (jump_form here.now (vector here_at.0 here_at.1) there.now (vector there_at.0 there_at.1) ends.now gamma ≡ Ok (record { matrix = matrix.new; load = zero_load part_numbers })) }
    ensures fault { IfErr result (λ fault. jump_form here.now (vector here_at.0 here_at.1) there.now (vector there_at.0 there_at.1) ends.now gamma ≡ Err fault) }
    ensures small { OnOk result (All (All (λ entry. unsigned_abs entry ≤ 2 ^ 72)) matrix.new) }
    ensures cleared { OnErr result (matrix.new ≡ zero_matrix part_numbers) }
{
    *matrix = [[0; 18]; 18];
    scratch.here = slopes_of(here, place(here_at));
    scratch.there = slopes_of(there, place(there_at));
    if has_folded_side(&scratch.here, &scratch.there) {
        return Err(LocalFault::Distorted);
    }
    let factors = factors_of(&scratch.here, &scratch.there, normal_to(ends));
    if has_large_factor(&factors) {
        return Err(LocalFault::Size);
    }
    let entries = entries_of(&factors, gamma as i128);
    if has_large_entry(&entries) {
        return Err(LocalFault::Size);
    }
    *matrix = entries;
    Ok(())
}

/// A place.
fn place(at: (i64, i64)) -> Vector
    ensures { result ≡ vector at.0 at.1 }
{
    Vector { x: at.0, y: at.1 }
}

/// What a place knows of its cell.
fn slopes_of(points: &[Point; 4], place: Vector) -> Slopes
    requires points { All IsWithinReach points.now }
    requires x { IsInside place.x }
    requires y { IsInside place.y }
    ensures value { result ≡ slopes_at points.now place }
    ensures bounded { AreBounded result }
{
    let jacobian = bilinear_jacobian(points, place);
    let shapes = shapes_at(place);
    Slopes {
        determinant: jacobian_determinant(&jacobian),
        gradients: gradients_on_cell(&jacobian, &shapes),
    }
}

/// Whether one of the two determinants isn't positive.
fn has_folded_side(here: &Slopes, there: &Slopes) -> bool
    ensures { result ≡ (int_le here.now.determinant (pos 0) || int_le there.now.determinant (pos 0)) }
{
    here.determinant <= 0 || there.determinant <= 0
}

/// The jumps of the eighteen shape functions, in ticks.
fn factors_of(here: &Slopes, there: &Slopes, normal: Vector) -> [i128; 18]
    requires here { AreRegular here.now }
    requires there { AreRegular there.now }
    requires normal { IsSmallNormal normal }
    ensures { result ≡ kept_factors normal here.now there.now }
{
    [
        slope_out(here, normal, 0),
        slope_out(here, normal, 1),
        slope_out(here, normal, 2),
        slope_out(here, normal, 3),
        slope_out(here, normal, 4),
        slope_out(here, normal, 5),
        slope_out(here, normal, 6),
        slope_out(here, normal, 7),
        slope_out(here, normal, 8),
        slope_back(there, normal, 0),
        slope_back(there, normal, 1),
        slope_back(there, normal, 2),
        slope_back(there, normal, 3),
        slope_back(there, normal, 4),
        slope_back(there, normal, 5),
        slope_back(there, normal, 6),
        slope_back(there, normal, 7),
        slope_back(there, normal, 8),
    ]
}

/// The slope of the shape function `i` along a normal, in ticks.
fn slope_out(slopes: &Slopes, normal: Vector, i: usize) -> i128
    requires slopes { AreRegular slopes.now }
    requires normal { IsSmallNormal normal }
    requires i { i < 9 }
    ensures value { result ≡ kept_slope normal i slopes.now }
    ensures size { unsigned_abs result ≤ 2 ^ 75 }
{
    let product = normal_product(normal, slopes.gradients[i]);
    rdiv(product, slopes.determinant as i128)
}

/// That slope against the normal.
fn slope_back(slopes: &Slopes, normal: Vector, i: usize) -> i128
    requires slopes { AreRegular slopes.now }
    requires normal { IsSmallNormal normal }
    requires i { i < 9 }
    ensures { result ≡ pos 0 -ℤ kept_slope normal i slopes.now }
{
    -slope_out(slopes, normal, i)
}

/// The scalar product of a normal and a gradient, in units of 2^-48.
fn normal_product(normal: Vector, gradient: Vector) -> i128
    requires normal { IsSmallNormal normal }
    requires gradient { IsSmallGradient gradient }
    ensures value { result ≡ dot normal gradient }
    ensures size { unsigned_abs result ≤ 2 ^ 75 }
{
    product(normal.x, gradient.x) + product(normal.y, gradient.y)
}

/// Whether a jump is above the limit in size.
#[tactic(auto, unfolding(fixed_q1::specs::JumpForm::is_steep))]
fn has_large_factor(factors: &[i128; 18]) -> bool
    ensures { result ≡ is_steep factors.now }
{
    factors
        .iter()
        .any(|factor| factor.unsigned_abs() > FACTOR_LIMIT)
}

/// Whether an entry is above the limit in size.
#[tactic(auto, unfolding(fixed_q1::specs::LocalForm::is_large))]
fn has_large_entry(matrix: &[[i128; 18]; 18]) -> bool
    ensures { result ≡ is_large matrix.now }
{
    matrix.iter().any(|row| has_large_entry_in(row))
}
