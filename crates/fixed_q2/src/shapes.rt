ghost use Rattle.std.specs.Prelude.{◌≡◌, ◌≤◌, ◌^◌, pos, ◌-ℤ◌, ◌*ℤ◌, All, unsigned_abs};
ghost use Rattle.fem_fixed.specs.Rounding.{nearest};
ghost use Rattle.fixed_q1.specs.Geometry.{IsInside, rest};
ghost use Rattle.fixed_q2.specs.Biquadratic.{first, middle, last, times, shapes, IsSmallFactor, IsSmallShape};

use fem_fixed::rdiv_by_power;
use fixed_q1::{Vector, product};

/// One, in ticks.
const ONE: i64 = 65536;

/// A product of two factors in units of 2^-32, or of one in such units and one in ticks, has 32 digits too many.
const VALUE_POWER: u32 = 32;

/// A quadratic function of one coordinate at a place.
#[derive(Clone, Copy)]
pub struct Factor {
    /// Its value, in units of 2^-32.
    pub value: i64,
    /// Its derivative, in ticks.
    pub slope: i64,
}

/// A biquadratic shape function at a place of the unit square.
#[derive(Clone, Copy)]
pub struct Shape {
    /// Its value, in units of 2^-32.
    pub value: i64,
    /// Its gradient, in ticks.
    pub gradient: Vector,
}

/// The nine shape functions at a place: of the four vertices, x fastest, of the middles of the faces left,
/// right, bottom and top, and of the centre.
pub fn shapes_at(place: Vector) -> [Shape; 9]
    requires x { IsInside place.x }
    requires y { IsInside place.y }
    ensures { result ≡ shapes place }
{
    let x0 = first_factor(place.x);
    let xm = middle_factor(place.x);
    let x1 = last_factor(place.x);
    let y0 = first_factor(place.y);
    let ym = middle_factor(place.y);
    let y1 = last_factor(place.y);
    [
        product_of(x0, y0),
        product_of(x1, y0),
        product_of(x0, y1),
        product_of(x1, y1),
        product_of(x0, ym),
        product_of(x1, ym),
        product_of(xm, y0),
        product_of(xm, y1),
        product_of(xm, ym),
    ]
}

/// The function that is 1 at 0, and 0 in the middle and at 1.
fn first_factor(t: i64) -> Factor
    requires { IsInside t }
    ensures value { result ≡ first t }
    ensures small { IsSmallFactor result }
{
    Factor {
        value: (ONE - t) * (ONE - 2 * t),
        slope: 4 * t - 196_608,
    }
}

/// The function that is 1 in the middle, and 0 at 0 and at 1.
fn middle_factor(t: i64) -> Factor
    requires { IsInside t }
    ensures value { result ≡ middle t }
    ensures small { IsSmallFactor result }
{
    Factor {
        value: 4 * t * (ONE - t),
        slope: 262_144 - 8 * t,
    }
}

/// The function that is 1 at 1, and 0 at 0 and in the middle.
fn last_factor(t: i64) -> Factor
    requires { IsInside t }
    ensures value { result ≡ last t }
    ensures small { IsSmallFactor result }
{
    Factor {
        value: t * (2 * t - ONE),
        slope: 4 * t - ONE,
    }
}

/// The product of a function of x and one of y.
fn product_of(x: Factor, y: Factor) -> Shape
    requires x { IsSmallFactor x }
    requires y { IsSmallFactor y }
    ensures { result ≡ times x y }
{
    Shape {
        value: scaled(x.value, y.value),
        gradient: Vector {
            x: scaled(x.slope, y.value),
            y: scaled(x.value, y.slope),
        },
    }
}

/// A product with 32 binary digits dropped.
fn scaled(a: i64, b: i64) -> i64
    requires a { unsigned_abs a ≤ 2 ^ 32 }
    requires b { unsigned_abs b ≤ 2 ^ 32 }
    ensures { result ≡ nearest (a *ℤ b) (pos (2 ^ 32)) }
{
    rdiv_by_power(product(a, b), VALUE_POWER) as i64
}
