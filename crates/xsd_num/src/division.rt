//! Quotients cut toward zero at 18 places.

ghost use Rattle.std.specs.Prelude.{◌≡◌, ◌≤◌, ◌<◌, ◌+◌, ◌*◌, ◌/◌, ◌^◌, unsigned_abs};
ghost use Rattle.term_core.specs.Numbers.{least_decimal, cut_quotient, do_differ};
ghost use Rattle.xsd_num.specs.Values.{found, below};

use crate::Num;
use crate::exact::{held_decimal, trimmed};

/// The first 18 digits behind the point of a rest over its divisor, one by one.
fn fraction_of(rest: u128, divisor: u128) -> u128
    requires rest { rest < divisor }
    requires limit { divisor < 10 ^ 37 }
    ensures exact { result ≡ rest * 10 ^ 18 / divisor }
    ensures bound { result < 10 ^ 18 }
{
    let mut digits: u128 = 0;
    let mut left = rest;
    for place in 0u8..18 {
        digits = digits * 10 + left * 10 / divisor;
        left = left * 10 % divisor;
    }
    digits
}

/// `whole * 10^scale + fraction`, if it is below 2^128.
fn joined(whole: u128, fraction: u128, scale: u8) -> Option<u128>
    requires { scale ≤ 18 }
    ensures { result ≡ below (whole * 10 ^ scale + fraction) }
{
    whole
        .checked_mul(10u128.pow(scale as u32))?
        .checked_add(fraction)
}

/// The quotient of two magnitudes with its sign, cut at 18 places and at its least scale.
fn signed_quotient(minus: bool, dividend: u128, divisor: u128) -> Option<Num>
    requires positive { 0 < divisor }
    requires limit { divisor < 10 ^ 37 }
    ensures { found result ≡ least_decimal minus (dividend * 10 ^ 18 / divisor) 18 }
{
    let fraction = fraction_of(dividend % divisor, divisor);
    let (fraction, scale) = trimmed(fraction, 18);
    let magnitude = joined(dividend / divisor, fraction, scale)?;
    held_decimal(minus, magnitude, scale)
}

/// Whether two signs differ.
fn do_differ(m: i128, n: i128) -> bool
    ensures { result ≡ do_differ m n }
{
    m.is_negative() != n.is_negative()
}

/// `m / n`, where `n` is below 10^37.
pub fn cut_quotient(m: i128, n: i128) -> Option<Num>
    requires { 0 < unsigned_abs n }
    ensures { found result ≡ cut_quotient m n }
{
    let divisor = n.unsigned_abs();
    if divisor >= 10u128.pow(37) {
        return None;
    }
    signed_quotient(do_differ(m, n), m.unsigned_abs(), divisor)
}
