//! The order of numbers by value.

ghost use Rattle.std.specs.Prelude.{◌≡◌, ◌≤◌, ◌<◌, ◌+◌, ◌-◌, ◌*◌, ◌^◌, unsigned_abs, IsTrue};
ghost use Rattle.std.specs.Ordering.{nat_cmp};
ghost use Rattle.term_core.specs.Numbers.{numerator, scale, is_kept, compared};
ghost use Rattle.xsd_num.specs.Values.{number_of};

use crate::Num;
use crate::exact::power;
use crate::num::{is_minus, magnitude, scale};
use std::cmp::Ordering;

/// What a magnitude has in front of its point, and behind it in parts of 10^-18.
fn parts(magnitude: u128, scale: u8) -> (u128, u128)
    requires { scale ≤ 18 }
    ensures value { magnitude * 10 ^ (18 - scale) ≡ result.0 * 10 ^ 18 + result.1 }
    ensures fraction { result.1 < 10 ^ 18 }
{
    let unit = power(scale);
    let fraction = magnitude % unit;
    (magnitude / unit, fraction * power(18 - scale))
}

/// The order of the absolute values.
fn cmp_magnitudes(a: Num, b: Num) -> Ordering
    requires a_kept { IsTrue (is_kept (number_of a)) }
    requires b_kept { IsTrue (is_kept (number_of b)) }
    ensures { result
        ≡ nat_cmp (unsigned_abs (numerator (number_of a)) * 10 ^ (18 - scale (number_of a)))
        (unsigned_abs (numerator (number_of b)) * 10 ^ (18 - scale (number_of b))) }
{
    let (a_whole, a_fraction) = parts(magnitude(a), scale(a));
    let (b_whole, b_fraction) = parts(magnitude(b), scale(b));
    a_whole.cmp(&b_whole).then(a_fraction.cmp(&b_fraction))
}

/// The order by value: the integer 2 and the decimal 2.0 tie.
pub fn cmp(a: Num, b: Num) -> Ordering
    requires a_kept { IsTrue (is_kept (number_of a)) }
    requires b_kept { IsTrue (is_kept (number_of b)) }
    ensures { result ≡ compared (number_of a) (number_of b) }
{
    match (is_minus(a), is_minus(b)) {
        (false, false) => cmp_magnitudes(a, b),
        (false, true) => Ordering::Greater,
        (true, false) => Ordering::Less,
        (true, true) => cmp_magnitudes(b, a),
    }
}
