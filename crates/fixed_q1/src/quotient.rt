ghost use Rattle.std.specs.Prelude.{◌≡◌, ◌≤◌, ◌<◌, ◌^◌, ◌*ℤ◌, pos, ◌<ℤ◌, unsigned_abs, IsTrue};
ghost use Rattle.fem_fixed.specs.Rounding.{IsNearest, nearest};

use fem_fixed::rdiv;
use std::num::f64_to_bits_with_nan;

/// A guess is tried for the divisors below this.
const DIVISOR_LIMIT: i128 = 1 << 62;

/// The whole number nearest to n / d, as `rdiv` has it: the guess where it is that number, which is cheap to
/// see, and else a division.
#[inline(always)]
pub fn quotient(n: i128, d: i128, guess: i64) -> i128
    requires n { unsigned_abs n ≤ 2 ^ 122 }
    requires d { pos 0 <ℤ d }
    ensures near { IsNearest n d result }
    ensures value { result ≡ nearest n d }
{
    if d < DIVISOR_LIMIT && is_certain(n, d as i64, guess) {
        return guess as i128;
    }
    divided(n, d)
}

/// The same by a division.
#[cold]
#[inline(never)]
fn divided(n: i128, d: i128) -> i128
    requires { pos 0 <ℤ d }
    ensures near { IsNearest n d result }
    ensures value { result ≡ nearest n d }
{
    rdiv(n, d)
}

/// Whether this quotient is the nearest one: at most half a divisor off, and less than that where it is odd.
#[inline(always)]
pub fn is_certain(n: i128, d: i64, quotient: i64) -> bool
    requires n { unsigned_abs n ≤ 2 ^ 122 }
    requires positive { pos 0 <ℤ d }
    requires d { unsigned_abs d < 2 ^ 62 }
    ensures { IsTrue result → IsNearest n d quotient }
{
    let rest = n - quotient as i128 * d as i128;
    let oddness = quotient.unsigned_abs() % 2;
    rest.unsigned_abs() + oddness as u128 <= (d as u64 / 2) as u128
}

/// The product of two numbers that fit 64 bits.
#[inline(always)]
pub fn product(a: i64, b: i64) -> i128
    requires a { unsigned_abs a < 2 ^ 62 }
    requires b { unsigned_abs b < 2 ^ 62 }
    ensures { result ≡ a *ℤ b }
{
    a as i128 * b as i128
}

/// Whether this quotient is less than half a divisor off, so that it is the nearest one. No branch is taken.
#[inline(always)]
pub fn is_close(n: i128, d: i64, quotient: i64) -> bool
    requires n { unsigned_abs n ≤ 2 ^ 122 }
    requires positive { pos 0 <ℤ d }
    requires d { unsigned_abs d < 2 ^ 62 }
    ensures { IsTrue result → IsNearest n d quotient }
{
    let rest = n - quotient as i128 * d as i128;
    let half = (d as u64 - 1) / 2;
    rest.unsigned_abs() <= half as u128
}

/// A number as a float.
#[inline(always)]
pub fn float_of(n: i64) -> f64
    requires { unsigned_abs n < 2 ^ 53 }
{
    n as f64
}

/// A whole number near x, the even one of two that are equally near: only its size is promised. The sum with
/// 1.5 times 2^52 drops a fraction, and has the whole number in its low 52 binary digits.
#[inline(always)]
pub fn guess_of(x: f64) -> i64
    ensures { unsigned_abs result ≤ 2 ^ 51 }
{
    let bits = f64_to_bits_with_nan(x + 6755399441055744.0);
    (bits % 0x10_0000_0000_0000) as i64 - 0x8_0000_0000_0000
}
