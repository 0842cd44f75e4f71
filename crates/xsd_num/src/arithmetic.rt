//! Addition, subtraction, multiplication, division and signs (SPARQL 1.1, section 17.3).

ghost use Rattle.std.specs.Prelude.{◌≡◌, ◌+◌, ◌≤◌, ◌<◌, unsigned_abs, ◌*ℤ◌, max, IsTrue, IfOk, IfSome};
ghost use Rattle.term_core.specs.Numbers.{numerator, scale, are_whole, at_scale, is_kept, sum_at, difference_at, made, cut_quotient};
ghost use Rattle.term_core.specs.Numbers as numbers;
ghost use Rattle.xsd_num.specs.Values.{number_of, answer_of, found, held};

use crate::division::cut_quotient;
use crate::exact::{difference, made, product, scaled, sum};
use crate::num::{are_whole, magnitude, numerator, scale};
use crate::{Num, NumFault};

/// The numerator at a scale that is no less than the number's own.
fn at_scale(a: Num, to: u8) -> Option<i128>
    requires more { scale (number_of a) ≤ to }
    requires limit { to ≤ 18 }
    ensures { result ≡ held (at_scale to (number_of a)) }
{
    scaled(numerator(a), to - scale(a))
}

/// The greater scale of two numbers.
fn common_scale(a: Num, b: Num) -> u8
    requires a_kept { IsTrue (is_kept (number_of a)) }
    requires b_kept { IsTrue (is_kept (number_of b)) }
    ensures exact { result ≡ max (scale (number_of a)) (scale (number_of b)) }
    ensures limit { result ≤ 18 }
{
    scale(a).max(scale(b))
}

/// `a + b` at a scale that is no less than either's own, if it and both numerators there have 128 bits.
fn sum_at(a: Num, b: Num, to: u8) -> Option<Num>
    requires a_scale { scale (number_of a) ≤ to }
    requires b_scale { scale (number_of b) ≤ to }
    requires limit { to ≤ 18 }
    ensures exact { found result ≡ sum_at to (number_of a) (number_of b) }
    ensures kept { IfSome result (λ n. IsTrue (is_kept (number_of n))) }
{
    let x = at_scale(a, to)?;
    let y = at_scale(b, to)?;
    let m = sum(x, y)?;
    made(are_whole(a, b), m, to)
}

/// `a - b` at a scale that is no less than either's own, if it and both numerators there have 128 bits.
fn difference_at(a: Num, b: Num, to: u8) -> Option<Num>
    requires a_scale { scale (number_of a) ≤ to }
    requires b_scale { scale (number_of b) ≤ to }
    requires limit { to ≤ 18 }
    ensures exact { found result ≡ difference_at to (number_of a) (number_of b) }
    ensures kept { IfSome result (λ n. IsTrue (is_kept (number_of n))) }
{
    let x = at_scale(a, to)?;
    let y = at_scale(b, to)?;
    let m = difference(x, y)?;
    made(are_whole(a, b), m, to)
}

/// `a * b`, if the product of the numerators has 128 bits and at most 18 places at its least scale.
fn product_of(a: Num, b: Num) -> Option<Num>
    requires a_kept { IsTrue (is_kept (number_of a)) }
    requires b_kept { IsTrue (is_kept (number_of b)) }
    ensures exact { found result
        ≡ made (are_whole (number_of a) (number_of b)) (numerator (number_of a) *ℤ numerator (number_of b))
        (scale (number_of a) + scale (number_of b)) }
    ensures kept { IfSome result (λ n. IsTrue (is_kept (number_of n))) }
{
    let m = product(numerator(a), numerator(b))?;
    made(are_whole(a, b), m, scale(a) + scale(b))
}

/// `a + b`: an integer where both are, and else a decimal. `Range` comes exactly where a numerator
/// at the greater scale, or the sum of both, is past 128 bits.
pub fn add(a: Num, b: Num) -> Result<Num, NumFault>
    requires a_kept { IsTrue (is_kept (number_of a)) }
    requires b_kept { IsTrue (is_kept (number_of b)) }
    ensures exact { answer_of result ≡ numbers.sum (number_of a) (number_of b) }
    ensures kept { IfOk result (λ n. IsTrue (is_kept (number_of n))) }
{
    sum_at(a, b, common_scale(a, b)).ok_or(NumFault::Range)
}

/// `a - b`: an integer where both are, and else a decimal. `Range` comes exactly where a numerator
/// at the greater scale, or the difference of both, is past 128 bits.
pub fn sub(a: Num, b: Num) -> Result<Num, NumFault>
    requires a_kept { IsTrue (is_kept (number_of a)) }
    requires b_kept { IsTrue (is_kept (number_of b)) }
    ensures exact { answer_of result ≡ numbers.difference (number_of a) (number_of b) }
    ensures kept { IfOk result (λ n. IsTrue (is_kept (number_of n))) }
{
    difference_at(a, b, common_scale(a, b)).ok_or(NumFault::Range)
}

/// `a * b`: an integer where both are, and else a decimal. `Range` comes exactly where the product
/// of the numerators is past 128 bits, or has more than 18 places at its least scale.
pub fn mul(a: Num, b: Num) -> Result<Num, NumFault>
    requires a_kept { IsTrue (is_kept (number_of a)) }
    requires b_kept { IsTrue (is_kept (number_of b)) }
    ensures exact { answer_of result ≡ numbers.product (number_of a) (number_of b) }
    ensures kept { IfOk result (λ n. IsTrue (is_kept (number_of n))) }
{
    product_of(a, b).ok_or(NumFault::Range)
}

/// `a / b` by both numerators at a scale that is no less than either's own, cut at 18 places.
fn quotient_at(a: Num, b: Num, to: u8) -> Option<Num>
    requires a_scale { scale (number_of a) ≤ to }
    requires b_scale { scale (number_of b) ≤ to }
    requires limit { to ≤ 18 }
    requires divisor { 0 < unsigned_abs (numerator (number_of b)) }
    ensures exact { found result ≡ cut_quotient (at_scale to (number_of a)) (at_scale to (number_of b)) }
    ensures kept { IfSome result (λ n. IsTrue (is_kept (number_of n))) }
{
    let x = at_scale(a, to)?;
    let y = at_scale(b, to)?;
    cut_quotient(x, y)
}

/// `a / b`, a decimal cut toward zero at 18 places. `Zero` comes exactly where `b` is zero, and
/// else `Range` exactly where a numerator at the greater scale is past 128 bits, the one of `b` is
/// 10^37 or more, or the numerator of the quotient at its least scale is past 128 bits.
pub fn div(a: Num, b: Num) -> Result<Num, NumFault>
    requires a_kept { IsTrue (is_kept (number_of a)) }
    requires b_kept { IsTrue (is_kept (number_of b)) }
    ensures exact { answer_of result ≡ numbers.quotient (number_of a) (number_of b) }
    ensures kept { IfOk result (λ n. IsTrue (is_kept (number_of n))) }
{
    if magnitude(b) == 0 {
        return Err(NumFault::Zero);
    }
    quotient_at(a, b, common_scale(a, b)).ok_or(NumFault::Range)
}

/// The number with another numerator, which is a multiple of 10 exactly where its own is.
fn renumbered(a: Num, m: i128) -> Num
    ensures { number_of result ≡ numbers.with_numerator (number_of a) m }
{
    match a {
        Num::Whole(_) => Num::Whole(m),
        Num::Decimal { s, .. } => Num::Decimal { m, s },
    }
}

/// `-a`. `Range` comes exactly where `a` has the least numerator, -2^127.
pub fn neg(a: Num) -> Result<Num, NumFault>
    requires { IsTrue (is_kept (number_of a)) }
    ensures exact { answer_of result ≡ numbers.negation (number_of a) }
    ensures kept { IfOk result (λ n. IsTrue (is_kept (number_of n))) }
{
    match numerator(a).checked_neg() {
        Some(m) => Ok(renumbered(a, m)),
        None => Err(NumFault::Range),
    }
}

/// `|a|`. `Range` comes exactly where `a` has the least numerator, -2^127.
pub fn abs(a: Num) -> Result<Num, NumFault>
    requires { IsTrue (is_kept (number_of a)) }
    ensures exact { answer_of result ≡ numbers.absolute (number_of a) }
    ensures kept { IfOk result (λ n. IsTrue (is_kept (number_of n))) }
{
    match numerator(a).checked_abs() {
        Some(m) => Ok(renumbered(a, m)),
        None => Err(NumFault::Range),
    }
}
