ghost use Rattle.std.specs.Prelude.{◌≡◌, ◌≤◌, ◌^◌, pos, ◌*ℤ◌, All, unsigned_abs};
ghost use Rattle.fem_fixed.specs.Mesh.{IsWithinReach};
ghost use Rattle.fem_fixed.specs.Rounding.{nearest};
ghost use Rattle.fixed_q2.specs.BoundaryForm.{boundary_form};

use fem_fixed::{Point, rdiv};
use fixed_q1::length_between;

/// Writes the matrix and the load of a boundary face with the condition `alpha u + du/dn = g`: for the
/// quadratic shape functions of its two ends and of its middle, in this order, the integrals of
/// `alpha N_i N_j` and of `g N_i`, which are exact but for the length and one rounding an entry.
///
/// `ends` are the ends of the face, in ticks of 2^-16 and at most 1024 in size. `alpha` and `g` are in
/// ticks, and at most 32768 in size. The matrix and the load are in units of 2^-32.
pub fn boundary_matrix2(
    ends: &[Point; 2],
    alpha: i64,
    g: i64,
    matrix: &mut [[i128; 3]; 3],
    rhs: &mut [i128; 3],
)
    requires ends { All IsWithinReach ends.now }
    requires alpha { unsigned_abs alpha ≤ 2 ^ 31 }
    requires g { unsigned_abs g ≤ 2 ^ 31 }
    ensures form { boundary_form ends.now alpha g ≡ record { matrix = matrix.new; load = rhs.new } }
    ensures small { All (All (λ entry. unsigned_abs entry ≤ 2 ^ 72)) matrix.new }
    ensures small_load { All (λ f. unsigned_abs f ≤ 2 ^ 72) rhs.new }
{
    let length = length_between(ends);
    let alpha = alpha as i128;
    let end = thirtieths(4, alpha, length);
    let other = thirtieths(-1, alpha, length);
    let beside = thirtieths(2, alpha, length);
    let middle = thirtieths(16, alpha, length);
    *matrix = [
        [end, other, beside],
        [other, end, beside],
        [beside, beside, middle],
    ];
    let load = sixths(1, g as i128, length);
    *rhs = [load, load, sixths(4, g as i128, length)];
}

/// So many thirtieths of a coefficient times the length.
fn thirtieths(count: i128, coefficient: i128, length: i128) -> i128
    requires count { unsigned_abs count ≤ 16 }
    requires coefficient { unsigned_abs coefficient ≤ 2 ^ 31 }
    requires length { unsigned_abs length ≤ 2 ^ 28 }
    ensures value { result ≡ nearest (count *ℤ coefficient *ℤ length) (pos 30) }
    ensures size { unsigned_abs result ≤ 2 ^ 72 }
{
    rdiv(count * coefficient * length, 30)
}

/// So many sixths of a coefficient times the length.
fn sixths(count: i128, coefficient: i128, length: i128) -> i128
    requires count { unsigned_abs count ≤ 16 }
    requires coefficient { unsigned_abs coefficient ≤ 2 ^ 31 }
    requires length { unsigned_abs length ≤ 2 ^ 28 }
    ensures value { result ≡ nearest (count *ℤ coefficient *ℤ length) (pos 6) }
    ensures size { unsigned_abs result ≤ 2 ^ 72 }
{
    rdiv(count * coefficient * length, 6)
}
