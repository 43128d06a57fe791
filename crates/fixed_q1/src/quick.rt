ghost use Rattle.std.specs.Prelude.{◌≡◌, ◌≤◌, ◌<◌, ◌^◌, ℕ, ℤ, pos, ◌<ℤ◌, ◌*ℤ◌, ◌+ℤ◌, All, map, unsigned_abs, IfSome, IsTrue};
ghost use Rattle.fixed_q1.specs.Evaluation.{IsRegular, IsSmallGradient, number_at, kept_diffusion};
ghost use Rattle.fixed_q1.specs.TenEntries.{AreSmall, ten_parts, ten_entries};

use crate::evaluation::{Evaluation, diffusion_factor, dot_product};
use crate::geometry::Vector;
use crate::quotient::{float_of, guess_of, is_close};

/// With a determinant below this its scale fits 62 bits.
const DETERMINANT_LIMIT: i64 = 1 << 44;

/// The ten entries of the matrix of a cell on and above the diagonal, by rows, in units of 2^-32, where the
/// guess of each part is certain. It isn't for large numbers, and for some ties.
pub fn quick_entries(evaluations: &[Evaluation; 4], diffusion: i128) -> Option<[i64; 10]>
    requires evaluations { All IsRegular evaluations.now }
    requires diffusion { unsigned_abs diffusion ≤ 2 ^ 31 }
    ensures value { IfSome result (λ entries. entries ≡ ten_entries evaluations.now diffusion) }
    ensures small { IfSome result (λ entries. (k : ℕ) → k < 10 → unsigned_abs (number_at entries k) ≤ 2 ^ 53) }
{
    let p0 = quick_parts(&evaluations[0], diffusion)?;
    let p1 = quick_parts(&evaluations[1], diffusion)?;
    let p2 = quick_parts(&evaluations[2], diffusion)?;
    let p3 = quick_parts(&evaluations[3], diffusion)?;
    Some([
        sum_at(&p0, &p1, &p2, &p3, 0),
        sum_at(&p0, &p1, &p2, &p3, 1),
        sum_at(&p0, &p1, &p2, &p3, 2),
        sum_at(&p0, &p1, &p2, &p3, 3),
        sum_at(&p0, &p1, &p2, &p3, 4),
        sum_at(&p0, &p1, &p2, &p3, 5),
        sum_at(&p0, &p1, &p2, &p3, 6),
        sum_at(&p0, &p1, &p2, &p3, 7),
        sum_at(&p0, &p1, &p2, &p3, 8),
        sum_at(&p0, &p1, &p2, &p3, 9),
    ])
}

/// The sum of the numbers at a place of four lists.
#[inline(always)]
fn sum_at(p0: &[i64; 10], p1: &[i64; 10], p2: &[i64; 10], p3: &[i64; 10], k: usize) -> i64
    requires p0 { AreSmall p0.now }
    requires p1 { AreSmall p1.now }
    requires p2 { AreSmall p2.now }
    requires p3 { AreSmall p3.now }
    requires k { k < 10 }
    ensures value { result ≡ number_at p0.now k +ℤ number_at p1.now k +ℤ number_at p2.now k +ℤ number_at p3.now k }
    ensures small { unsigned_abs result ≤ 2 ^ 53 }
{
    p0[k] + p1[k] + p2[k] + p3[k]
}

/// What a point adds to the ten entries, where the guess of each part is certain.
#[inline(never)]
fn quick_parts(evaluation: &Evaluation, diffusion: i128) -> Option<[i64; 10]>
    requires evaluation { IsRegular evaluation.now }
    requires diffusion { unsigned_abs diffusion ≤ 2 ^ 31 }
    ensures value { IfSome result (λ parts. parts ≡ ten_parts diffusion evaluation.now) }
    ensures small { IfSome result AreSmall }
{
    if evaluation.determinant >= DETERMINANT_LIMIT {
        return None;
    }
    let parts = guesses(evaluation, diffusion_factor(evaluation, diffusion));
    if are_certain(evaluation, diffusion, &parts) {
        return Some(parts);
    }
    None
}

/// A gradient in floats.
#[derive(Clone, Copy)]
struct Floats {
    x: f64,
    y: f64,
}

/// Numbers near what a point adds to the ten entries: nothing is promised of them but their size.
#[inline(always)]
fn guesses(evaluation: &Evaluation, factor: f64) -> [i64; 10]
    requires { IsRegular evaluation.now }
    ensures { AreSmall result }
{
    let f0 = floats_of(evaluation.gradients[0]);
    let f1 = floats_of(evaluation.gradients[1]);
    let f2 = floats_of(evaluation.gradients[2]);
    let f3 = floats_of(evaluation.gradients[3]);
    [
        guess(f0, f0, factor),
        guess(f0, f1, factor),
        guess(f0, f2, factor),
        guess(f0, f3, factor),
        guess(f1, f1, factor),
        guess(f1, f2, factor),
        guess(f1, f3, factor),
        guess(f2, f2, factor),
        guess(f2, f3, factor),
        guess(f3, f3, factor),
    ]
}

/// A gradient in floats.
#[inline(always)]
fn floats_of(g: Vector) -> Floats
    requires { IsSmallGradient g }
{
    Floats {
        x: float_of(g.x),
        y: float_of(g.y),
    }
}

/// A number near the scalar product of two gradients times a factor: nothing is promised of it but its size.
#[inline(always)]
fn guess(f: Floats, g: Floats, factor: f64) -> i64
    ensures { unsigned_abs result ≤ 2 ^ 51 }
{
    guess_of((f.x * g.x + f.y * g.y) * factor)
}

/// Whether these are what a point adds to the ten entries. No branch is taken.
#[inline(always)]
fn are_certain(evaluation: &Evaluation, diffusion: i128, parts: &[i64; 10]) -> bool
    requires evaluation { IsRegular evaluation.now }
    requires determinant { unsigned_abs evaluation.now.determinant < 2 ^ 44 }
    requires diffusion { unsigned_abs diffusion ≤ 2 ^ 31 }
    requires small { AreSmall parts.now }
    ensures { IsTrue result → parts.now ≡ ten_parts diffusion evaluation.now }
{
    let first = is_part(evaluation, diffusion, 0, 0, parts[0])
        & is_part(evaluation, diffusion, 0, 1, parts[1])
        & is_part(evaluation, diffusion, 0, 2, parts[2])
        & is_part(evaluation, diffusion, 0, 3, parts[3])
        & is_part(evaluation, diffusion, 1, 1, parts[4]);
    let second = is_part(evaluation, diffusion, 1, 2, parts[5])
        & is_part(evaluation, diffusion, 1, 3, parts[6])
        & is_part(evaluation, diffusion, 2, 2, parts[7])
        & is_part(evaluation, diffusion, 2, 3, parts[8])
        & is_part(evaluation, diffusion, 3, 3, parts[9]);
    first & second
}

/// Whether this is what a point adds to the entry `(i, j)`.
#[inline(always)]
fn is_part(evaluation: &Evaluation, diffusion: i128, i: usize, j: usize, part: i64) -> bool
    requires evaluation { IsRegular evaluation.now }
    requires determinant { unsigned_abs evaluation.now.determinant < 2 ^ 44 }
    requires diffusion { unsigned_abs diffusion ≤ 2 ^ 31 }
    requires i { i < 4 }
    requires j { j < 4 }
    ensures { IsTrue result → part ≡ kept_diffusion diffusion i j evaluation.now }
{
    let product = dot_product(evaluation.gradients[i], evaluation.gradients[j]);
    is_close(diffusion * product, 262_144 * evaluation.determinant, part)
}
