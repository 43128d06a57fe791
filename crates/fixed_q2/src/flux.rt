ghost use Rattle.std.specs.Prelude.{◌≡◌, ◌≤◌, ◌<◌, ◌*◌, ◌^◌, ℕ, pos, ◌<ℤ◌, ◌*ℤ◌, IsTrue, unsigned_abs};
ghost use Rattle.fem_fixed.specs.Rounding.{nearest};
ghost use Rattle.fixed_q1.specs.CellForm.{dot};
ghost use Rattle.fixed_q1.specs.Evaluation.{vector_at};
ghost use Rattle.fixed_q2.specs.Samples.{kept_diffusion, kept_source, IsBounded, IsRegular, IsFluxOf, IsScaledSourceOf, IsSmallGradient, IsSmallFlux, flux_along, fluxes_along};

use crate::sample::{NONE, Sample};
use crate::sharing::{parts_of, parts_of_any};
use fem_fixed::rdiv;
use fixed_q1::{Vector, float_of, guess_of, is_certain, product};
use std::num::nearest_i64_to_f64;

/// A diffusion in 2^-16 times a product of gradients in 2^-64, over a determinant in 2^-32, is in 2^-48: 2^16
/// brings it to 2^-32.
const DIFFUSION_SCALE: i128 = 65536;

/// A source in 2^-16 times a value in 2^-32 times a determinant in 2^-32 is in 2^-80: 2^48 brings it to 2^-32.
const SOURCE_SCALE: i128 = 1 << 48;

/// Fluxes are kept where the diffusion times each slope of the cell is at most this.
const SLOPE_LIMIT: u64 = 1 << 42;

/// And where the determinant is below this.
const DETERMINANT_LIMIT: i64 = 1 << 46;

/// A source times a determinant is multiplied as a number of 64 bits below this.
const SCALED_SOURCE_LIMIT: u128 = 1 << 62;

/// Floats near a gradient, and near its flux over the divisor: nothing is promised of them.
#[derive(Clone, Copy)]
pub struct Floats {
    pub x: f64,
    pub y: f64,
    pub quotient_x: f64,
    pub quotient_y: f64,
}

/// What a point of the quadrature needs beside its sample, so that most of what it adds to the matrix takes no
/// division and only products of numbers of 64 bits.
#[derive(Clone, Copy)]
pub struct Flux {
    /// What the products are divided by, or 0 where they don't fit.
    pub divisor: i128,
    /// The gradients times the diffusion.
    pub fluxes: [Vector; 9],
    /// For guesses.
    pub floats: [Floats; 9],
}

/// Zeros.
const NO_FLOATS: Floats = Floats {
    x: 0.0,
    y: 0.0,
    quotient_x: 0.0,
    quotient_y: 0.0,
};

/// Nothing yet.
pub const NO_FLUX: Flux = Flux {
    divisor: 0,
    fluxes: [NONE; 9],
    floats: [NO_FLOATS; 9],
};

/// The flux of a point, where its numbers fit.
pub fn flux_of(sample: &Sample, diffusion: i64) -> Flux
    requires sample { IsRegular sample.now }
    requires diffusion { unsigned_abs diffusion ≤ 2 ^ 31 }
    ensures { IsFluxOf diffusion sample.now result }
{
    if sample.determinant >= DETERMINANT_LIMIT {
        return NO_FLUX;
    }
    if !is_narrow(sample, diffusion) {
        return NO_FLUX;
    }
    let factor = float_of(diffusion) / (65536.0 * nearest_i64_to_f64(sample.determinant));
    Flux {
        divisor: DIFFUSION_SCALE * sample.determinant as i128,
        fluxes: fluxes_of(sample, diffusion),
        floats: floats_of(sample, factor),
    }
}

/// Whether each flux of the cell fits 64 bits.
fn is_narrow(sample: &Sample, diffusion: i64) -> bool
    requires sample { IsBounded sample.now }
    requires diffusion { unsigned_abs diffusion ≤ 2 ^ 31 }
    ensures { IsTrue result → (i : ℕ) → i < 9 → IsSmallFlux (flux_along diffusion (vector_at sample.now.gradients i)) }
{
    let jacobian = sample.jacobian;
    if !is_short(diffusion, jacobian.xx) {
        return false;
    }
    if !is_short(diffusion, jacobian.xy) {
        return false;
    }
    if !is_short(diffusion, jacobian.yx) {
        return false;
    }
    is_short(diffusion, jacobian.yy)
}

/// Whether the diffusion times a slope is within the limit.
fn is_short(diffusion: i64, slope: i64) -> bool
    requires diffusion { unsigned_abs diffusion ≤ 2 ^ 31 }
    requires slope { unsigned_abs slope ≤ 2 ^ 28 }
    ensures { IsTrue result → unsigned_abs diffusion * unsigned_abs slope ≤ 2 ^ 42 }
{
    diffusion.unsigned_abs() * slope.unsigned_abs() <= SLOPE_LIMIT
}

/// The gradients times the diffusion, which fit 64 bits.
fn fluxes_of(sample: &Sample, diffusion: i64) -> [Vector; 9]
    requires sample { IsBounded sample.now }
    requires fluxes { (i : ℕ) → i < 9 → IsSmallFlux (flux_along diffusion (vector_at sample.now.gradients i)) }
    ensures { result ≡ fluxes_along diffusion sample.now }
{
    let g = &sample.gradients;
    [
        flux_along_gradient(diffusion, g[0]),
        flux_along_gradient(diffusion, g[1]),
        flux_along_gradient(diffusion, g[2]),
        flux_along_gradient(diffusion, g[3]),
        flux_along_gradient(diffusion, g[4]),
        flux_along_gradient(diffusion, g[5]),
        flux_along_gradient(diffusion, g[6]),
        flux_along_gradient(diffusion, g[7]),
        flux_along_gradient(diffusion, g[8]),
    ]
}

/// A gradient times the diffusion.
#[inline(always)]
fn flux_along_gradient(diffusion: i64, gradient: Vector) -> Vector
    requires gradient { IsSmallGradient gradient }
    requires flux { IsSmallFlux (flux_along diffusion gradient) }
    ensures { result ≡ flux_along diffusion gradient }
{
    Vector {
        x: diffusion * gradient.x,
        y: diffusion * gradient.y,
    }
}

/// Floats near the gradients and their fluxes: nothing is promised of them.
fn floats_of(sample: &Sample, factor: f64) -> [Floats; 9]
    requires { IsBounded sample.now }
{
    let g = &sample.gradients;
    [
        floats_near(g[0], factor),
        floats_near(g[1], factor),
        floats_near(g[2], factor),
        floats_near(g[3], factor),
        floats_near(g[4], factor),
        floats_near(g[5], factor),
        floats_near(g[6], factor),
        floats_near(g[7], factor),
        floats_near(g[8], factor),
    ]
}

/// Floats near a gradient: nothing is promised of them.
#[inline(always)]
fn floats_near(gradient: Vector, factor: f64) -> Floats
    requires { IsSmallGradient gradient }
{
    let x = float_of(gradient.x);
    let y = float_of(gradient.y);
    Floats {
        x,
        y,
        quotient_x: x * factor,
        quotient_y: y * factor,
    }
}

/// What a point adds to the entry `(i, j)` of the matrix, in units of 2^-32.
#[inline(always)]
pub fn diffusion_part(sample: &Sample, flux: &Flux, diffusion: i64, i: usize, j: usize) -> i128
    requires sample { IsRegular sample.now }
    requires flux { IsFluxOf diffusion sample.now flux.now }
    requires diffusion { unsigned_abs diffusion ≤ 2 ^ 31 }
    requires i { i < 9 }
    requires j { j < 9 }
    ensures value { result ≡ kept_diffusion diffusion i j sample.now }
    ensures size { unsigned_abs result ≤ 2 ^ 118 }
{
    if flux.divisor > 0 {
        let guess = guess_of(dot_float(&flux.floats[i], &flux.floats[j]));
        let dividend = flux_product(flux.fluxes[i], sample.gradients[j]);
        if is_certain(dividend, flux.divisor as i64, guess) {
            return parts_of(sample.weight, guess);
        }
    }
    exact_diffusion(sample, diffusion, i, j)
}

/// A float near the scalar product of two gradients over the divisor: nothing is promised of it.
#[inline(always)]
fn dot_float(g: &Floats, h: &Floats) -> f64 {
    g.quotient_x * h.x + g.quotient_y * h.y
}

/// The scalar product of a flux and a gradient.
#[inline(always)]
fn flux_product(flux: Vector, gradient: Vector) -> i128
    requires flux { IsSmallFlux flux }
    requires gradient { IsSmallGradient gradient }
    ensures value { result ≡ dot flux gradient }
    ensures size { unsigned_abs result ≤ 2 ^ 109 }
{
    product(flux.x, gradient.x) + product(flux.y, gradient.y)
}

/// What a point adds to the matrix, by divisions.
#[cold]
#[inline(never)]
fn exact_diffusion(sample: &Sample, diffusion: i64, i: usize, j: usize) -> i128
    requires sample { IsRegular sample.now }
    requires diffusion { unsigned_abs diffusion ≤ 2 ^ 31 }
    requires i { i < 9 }
    requires j { j < 9 }
    ensures value { result ≡ kept_diffusion diffusion i j sample.now }
    ensures size { unsigned_abs result ≤ 2 ^ 118 }
{
    let product = gradient_product(sample.gradients[i], sample.gradients[j]);
    let quotient = diffusion_quotient(product, diffusion, sample.determinant);
    parts_of_any(sample.weight as i128, quotient)
}

/// The scalar product of two gradients, in units of 2^-64.
fn gradient_product(g: Vector, h: Vector) -> i128
    requires g { IsSmallGradient g }
    requires h { IsSmallGradient h }
    ensures value { result ≡ dot g h }
    ensures size { unsigned_abs result ≤ 2 ^ 95 }
{
    product(g.x, h.x) + product(g.y, h.y)
}

/// A scalar product of gradients times the diffusion, over the determinant.
fn diffusion_quotient(product: i128, diffusion: i64, determinant: i64) -> i128
    requires product { unsigned_abs product ≤ 2 ^ 95 }
    requires diffusion { unsigned_abs diffusion ≤ 2 ^ 31 }
    requires positive { pos 0 <ℤ determinant }
    requires determinant { unsigned_abs determinant ≤ 2 ^ 57 }
    ensures value { result ≡ nearest (diffusion *ℤ product) (pos 65536 *ℤ determinant) }
    ensures size { unsigned_abs result ≤ 2 ^ 110 }
{
    rdiv(
        diffusion as i128 * product,
        DIFFUSION_SCALE * determinant as i128,
    )
}

/// The source at a point times the determinant there, and a float for guesses.
#[derive(Clone, Copy)]
pub struct ScaledSource {
    pub product: i128,
    pub factor: f64,
}

/// The source times the determinant.
pub fn scaled_source_of(sample: &Sample, source: i64) -> ScaledSource
    requires sample { IsBounded sample.now }
    requires source { unsigned_abs source ≤ 2 ^ 31 }
    ensures { IsScaledSourceOf source sample.now result }
{
    let determinant = sample.determinant;
    ScaledSource {
        product: product(source, determinant),
        factor: float_of(source) * nearest_i64_to_f64(determinant) / 281_474_976_710_656.0,
    }
}

/// What a point adds to the entry `i` of the load, in units of 2^-32.
#[inline(always)]
pub fn source_part(sample: &Sample, scaled: ScaledSource, source: i64, i: usize) -> i128
    requires sample { IsBounded sample.now }
    requires scaled { IsScaledSourceOf source sample.now scaled }
    requires source { unsigned_abs source ≤ 2 ^ 31 }
    requires i { i < 9 }
    ensures value { result ≡ kept_source source i sample.now }
    ensures size { unsigned_abs result ≤ 2 ^ 118 }
{
    let value = sample.values[i];
    if scaled.product.unsigned_abs() < SCALED_SOURCE_LIMIT {
        let guess = guess_of(float_of(value) * scaled.factor);
        if is_certain(
            product(scaled.product as i64, value),
            SOURCE_SCALE as i64,
            guess,
        ) {
            return parts_of(sample.weight, guess);
        }
    }
    exact_source(sample, source, i)
}

/// The same by divisions.
#[cold]
#[inline(never)]
fn exact_source(sample: &Sample, source: i64, i: usize) -> i128
    requires sample { IsBounded sample.now }
    requires source { unsigned_abs source ≤ 2 ^ 31 }
    requires i { i < 9 }
    ensures value { result ≡ kept_source source i sample.now }
    ensures size { unsigned_abs result ≤ 2 ^ 118 }
{
    let quotient = source_quotient(source, sample.values[i], sample.determinant);
    parts_of_any(sample.weight as i128, quotient)
}

/// A source times a value times a determinant, in units of 2^-32.
fn source_quotient(source: i64, value: i64, determinant: i64) -> i128
    requires source { unsigned_abs source ≤ 2 ^ 31 }
    requires value { unsigned_abs value ≤ 2 ^ 32 }
    requires determinant { unsigned_abs determinant ≤ 2 ^ 57 }
    ensures value { result ≡ nearest (source *ℤ value *ℤ determinant) (pos (2 ^ 48)) }
    ensures size { unsigned_abs result ≤ 2 ^ 110 }
{
    rdiv(
        source as i128 * value as i128 * determinant as i128,
        SOURCE_SCALE,
    )
}
