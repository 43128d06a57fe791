ghost use Rattle.std.specs.Prelude.{◌≡◌, ◌<◌, ◌^◌, ◌*◌, ℤ, pos, ◌<ℤ◌, ◌-ℤ◌, ◌*ℤ◌, unsigned_abs, IsTrue};
ghost use Rattle.fem_fixed.specs.Rounding.{IsNearest, nearest};

use std::num::{f64_to_bits_with_nan, nearest_u64_to_f64};

/// Dividends from here on are divided exactly at once.
pub(crate) const DIVIDEND_LIMIT: u128 = 1 << 100;

/// The same for divisors.
pub(crate) const DIVISOR_LIMIT: i128 = 1 << 62;

/// The whole number nearest to n / d; of two that are equally near, the even one.
/// This is `rdiv` by one long division.
#[cold]
#[inline(never)]
pub(crate) fn exact(n: i128, d: i128) -> i128
    requires { pos 0 <ℤ d }
    ensures near { IsNearest n d result }
    ensures value { result ≡ nearest n d }
{
    let quotient = n / d;
    let rest = (n % d).unsigned_abs();
    let other = d.unsigned_abs() - rest;
    let is_odd = quotient.unsigned_abs() % 2 == 1;
    if rest < other {
        return quotient;
    }
    if rest == other && !is_odd {
        return quotient;
    }
    if n < 0 { quotient - 1 } else { quotient + 1 }
}

/// Whether this quotient is the nearest one: less than half a divisor off, or half of one and even.
#[inline(always)]
pub(crate) fn is_certain(n: i128, d: i64, quotient: i64) -> bool
    requires n { unsigned_abs n < 2 ^ 100 }
    requires positive { pos 0 <ℤ d }
    requires d { unsigned_abs d < 2 ^ 62 }
    ensures { IsTrue result → IsNearest n d quotient }
{
    let rest = n - quotient as i128 * d as i128;
    let twice = 2 * rest.unsigned_abs();
    let whole = d as u128;
    twice < whole || (twice == whole && quotient.unsigned_abs() % 2 == 0)
}

/// A number near n / d: nothing is promised of it.
#[inline(always)]
pub(crate) fn float_guess(n: i128, d: u64) -> i64
    requires { unsigned_abs n < 2 ^ 100 }
{
    whole_of(float_of(n) / nearest_u64_to_f64(d))
}

/// A number near n / 2^power: nothing is promised of it. Half the divisor less one, and one more where the
/// quotient rounded down is odd, bring a tie to the even number. The low 63 binary digits of the quotient
/// are taken, with a shift so that a negative one has them too.
#[inline(always)]
pub(crate) fn shift_guess(n: i128, power: u32) -> i64
    requires { power < 62 }
{
    let half = (1_i128 << power) >> 1;
    let floor = n >> power;
    let raised = n.wrapping_add(half).wrapping_add(floor & 1).wrapping_sub(1);
    let quotient = raised >> power;
    (quotient.wrapping_add(1 << 62) & 0x7fff_ffff_ffff_ffff) as i64 - (1 << 62)
}

/// A float near n: nothing is promised of it.
#[inline(always)]
fn float_of(n: i128) -> f64
    requires { unsigned_abs n < 2 ^ 100 }
{
    let high = (n >> 50) as i64;
    let low = (n & 0x3_ffff_ffff_ffff) as i64;
    high as f64 * 1125899906842624.0 + low as f64
}

/// A whole number near x: nothing is promised of it. The sum with 1.5 times 2^52 drops a fraction, and
/// has the whole number in its low 52 binary digits.
#[inline(always)]
fn whole_of(x: f64) -> i64 {
    let bits = f64_to_bits_with_nan(x + 6755399441055744.0);
    (bits & 0xf_ffff_ffff_ffff) as i64 - 0x8_0000_0000_0000
}
