ghost use Rattle.std.specs.Prelude.{◌≡◌, ◌≤◌, ◌<◌, ◌+◌, ◌*◌, ◌^◌, ℕ, ◌-ℤ◌, ◌*ℤ◌, All, unsigned_abs};
ghost use Rattle.fem_fixed.specs.Mesh.{IsWithinReach};
ghost use Rattle.fixed_q1.specs.Geometry.{HasSmallSlopes, IsInside, vector, transformed};
ghost use Rattle.fixed_q1.specs.Evaluation.{vector_at};
ghost use Rattle.fixed_q2.specs.Biquadratic.{shapes, IsSmallShape};
ghost use Rattle.fixed_q2.specs.CellForm.{WeightedPoint};
ghost use Rattle.fixed_q2.specs.Samples.{gradients_of, values_of, sample_at, samples_of, IsBounded, IsOnCell, IsSmallGradient};

use crate::shapes::Shape;
use crate::tables::{
    BOTTOM, BOTTOM_LEFT, BOTTOM_RIGHT, CENTRE, LEFT, RIGHT, TOP, TOP_LEFT, TOP_RIGHT,
};
use fem_fixed::Point;
use fixed_q1::{Jacobian, Vector, bilinear_jacobian, jacobian_determinant};

/// The least coordinate of the points of the quadrature: (1 - sqrt 0.6) / 2, in ticks.
const NEAR: i64 = 7386;

/// The middle one: 1/2.
const MIDDLE: i64 = 32768;

/// The greatest one: (1 + sqrt 0.6) / 2.
const FAR: i64 = 58150;

/// What one point of the quadrature knows of a cell.
#[derive(Clone, Copy)]
pub struct Sample {
    /// The weight of the point, in parts of 324.
    pub weight: i64,
    /// The Jacobian there, in ticks.
    pub jacobian: Jacobian,
    /// Its determinant, in units of 2^-32.
    pub determinant: i64,
    /// The values of the shape functions, in units of 2^-32.
    pub values: [i64; 9],
    /// Their gradients on the cell times the determinant, in units of 2^-32.
    pub gradients: [Vector; 9],
}

/// No gradient.
pub const NONE: Vector = Vector { x: 0, y: 0 };

/// Nothing yet.
pub const NO_SAMPLE: Sample = Sample {
    weight: 0,
    jacobian: Jacobian {
        xx: 0,
        xy: 0,
        yx: 0,
        yy: 0,
    },
    determinant: 0,
    values: [0; 9],
    gradients: [NONE; 9],
};

/// What the nine points know of a cell.
pub fn samples(points: &[Point; 4]) -> [Sample; 9]
    requires { All IsWithinReach points.now }
    ensures value { result ≡ samples_of points.now }
    ensures bounded { All IsBounded result }
{
    [
        sample_of(points, NEAR, NEAR, 25, &BOTTOM_LEFT),
        sample_of(points, MIDDLE, NEAR, 40, &BOTTOM),
        sample_of(points, FAR, NEAR, 25, &BOTTOM_RIGHT),
        sample_of(points, NEAR, MIDDLE, 40, &LEFT),
        sample_of(points, MIDDLE, MIDDLE, 64, &CENTRE),
        sample_of(points, FAR, MIDDLE, 40, &RIGHT),
        sample_of(points, NEAR, FAR, 25, &TOP_LEFT),
        sample_of(points, MIDDLE, FAR, 40, &TOP),
        sample_of(points, FAR, FAR, 25, &TOP_RIGHT),
    ]
}

/// What one place knows of a cell, where the shape functions there are known.
fn sample_of(points: &[Point; 4], x: i64, y: i64, weight: i64, table: &[Shape; 9]) -> Sample
    requires points { All IsWithinReach points.now }
    requires x { IsInside x }
    requires y { IsInside y }
    requires weight { unsigned_abs weight ≤ 64 }
    requires table { table.now ≡ shapes (vector x y) }
    ensures value { result ≡ sample_at points.now (record { place = vector x y; weight = weight }) }
    ensures bounded { IsBounded result }
{
    let jacobian = bilinear_jacobian(points, Vector { x, y });
    Sample {
        weight,
        jacobian,
        determinant: jacobian_determinant(&jacobian),
        values: values_in(table),
        gradients: gradients_on_cell(&jacobian, table),
    }
}

/// The values of the shape functions.
fn values_in(table: &[Shape; 9]) -> [i64; 9]
    ensures { result ≡ values_of table.now }
{
    [
        table[0].value,
        table[1].value,
        table[2].value,
        table[3].value,
        table[4].value,
        table[5].value,
        table[6].value,
        table[7].value,
        table[8].value,
    ]
}

/// The gradients of the shape functions on the cell, times the determinant.
pub fn gradients_on_cell(jacobian: &Jacobian, table: &[Shape; 9]) -> [Vector; 9]
    requires slopes { HasSmallSlopes jacobian.now }
    requires table { All IsSmallShape table.now }
    ensures value { result ≡ gradients_of jacobian.now table.now }
    ensures small { (i : ℕ) → i < 9 → IsSmallGradient (vector_at result i) }
    ensures on_cell { (i : ℕ) → i < 9 → IsOnCell jacobian.now (vector_at result i) }
{
    [
        on_cell(jacobian, &table[0]),
        on_cell(jacobian, &table[1]),
        on_cell(jacobian, &table[2]),
        on_cell(jacobian, &table[3]),
        on_cell(jacobian, &table[4]),
        on_cell(jacobian, &table[5]),
        on_cell(jacobian, &table[6]),
        on_cell(jacobian, &table[7]),
        on_cell(jacobian, &table[8]),
    ]
}

/// A gradient on the unit square, brought to the cell and multiplied by the determinant.
#[inline(always)]
fn on_cell(jacobian: &Jacobian, shape: &Shape) -> Vector
    requires slopes { HasSmallSlopes jacobian.now }
    requires shape { IsSmallShape shape.now }
    ensures value { result ≡ transformed jacobian.now shape.now.gradient }
    ensures small { IsSmallGradient result }
    ensures on_cell { IsOnCell jacobian.now result }
{
    Vector {
        x: cross(jacobian.yy, shape.gradient.x, jacobian.yx, shape.gradient.y),
        y: cross(jacobian.xx, shape.gradient.y, jacobian.xy, shape.gradient.x),
    }
}

/// `a b - c d`.
#[inline(always)]
fn cross(a: i64, b: i64, c: i64, d: i64) -> i64
    requires a { unsigned_abs a ≤ 2 ^ 28 }
    requires b { unsigned_abs b ≤ 2 ^ 18 }
    requires c { unsigned_abs c ≤ 2 ^ 28 }
    requires d { unsigned_abs d ≤ 2 ^ 18 }
    ensures value { result ≡ a *ℤ b -ℤ c *ℤ d }
    ensures size { unsigned_abs result ≤ (unsigned_abs a + unsigned_abs c) * 2 ^ 18 }
{
    a * b - c * d
}
