//! Exact steps within 128 bits, of which the operations are made.

ghost use Rattle.std.specs.Prelude.{◌≡◌, ◌≤◌, ◌<◌, ◌^◌, ◌*◌, ◌/◌, ◌+ℤ◌, ◌-ℤ◌, ◌*ℤ◌, pos, neg_ℤ, unsigned_abs, cond, Some, IsTrue, IfSome};
ghost use Rattle.std.specs.Int.{is_negative};
ghost use Rattle.term_core.specs.Numbers.{trimmed, signed, held_decimal, least_decimal, is_kept};
ghost use Rattle.term_core.specs.Numbers as numbers;
ghost use Rattle.xsd_num.specs.Values.{number_of, held, found};

use crate::Num;

/// 10 to a power of at most 18.
#[tactic(auto, using(crate::proofs::Places::power_bound, crate::proofs::Places::power_positive))]
pub fn power(places: u8) -> u128
    requires { places ≤ 18 }
    ensures exact { result ≡ 10 ^ places }
    ensures bound { result ≤ 10 ^ 18 }
    ensures positive { 0 < result }
{
    10u128.pow(places as u32)
}

/// `m * 10^by`.
pub fn scaled(m: i128, by: u8) -> Option<i128>
    requires { by ≤ 18 }
    ensures { result ≡ held (m *ℤ pos (10 ^ by)) }
{
    m.checked_mul(10i128.pow(by as u32))
}

/// `a + b`.
pub fn sum(a: i128, b: i128) -> Option<i128>
    ensures { result ≡ held (a +ℤ b) }
{
    a.checked_add(b)
}

/// `a - b`.
pub fn difference(a: i128, b: i128) -> Option<i128>
    ensures { result ≡ held (a -ℤ b) }
{
    a.checked_sub(b)
}

/// `a * b`.
pub fn product(a: i128, b: i128) -> Option<i128>
    ensures { result ≡ held (a *ℤ b) }
{
    a.checked_mul(b)
}

/// A magnitude with its sign.
pub fn signed(minus: bool, magnitude: u128) -> Option<i128>
    ensures { result ≡ held (signed minus magnitude) }
{
    if minus {
        0i128.checked_sub_unsigned(magnitude)
    } else {
        0i128.checked_add_unsigned(magnitude)
    }
}

/// A magnitude and its scale without the zeros at the magnitude's end, as far as there are places.
#[tactic(auto, using(crate::proofs::Trims::trims_zero, crate::proofs::Trims::trims_no_place, crate::proofs::Trims::trims_no_digit))]
pub fn trimmed(magnitude: u128, scale: u8) -> (u128, u8)
    ensures exact { result ≡ trimmed magnitude scale }
    ensures less { result.0 ≤ magnitude }
    ensures fewer { result.1 ≤ scale }
{
    let mut rest = magnitude;
    let mut places = scale;
    while places > 0 && rest % 10 == 0 {
        rest /= 10;
        places -= 1;
    }
    (rest, places)
}

/// The decimal of this sign, magnitude and scale, if it has 128 bits and at most 18 places.
pub fn held_decimal(minus: bool, magnitude: u128, scale: u8) -> Option<Num>
    ensures { found result ≡ held_decimal minus (magnitude, scale) }
{
    if scale > 18 {
        return None;
    }
    let m = signed(minus, magnitude)?;
    Some(Num::Decimal { m, s: scale })
}

/// The same at its least scale.
pub fn least_decimal(minus: bool, magnitude: u128, scale: u8) -> Option<Num>
    ensures exact { found result ≡ least_decimal minus magnitude scale }
    ensures kept { IfSome result (λ n. IsTrue (is_kept (number_of n))) }
{
    let (magnitude, scale) = trimmed(magnitude, scale);
    held_decimal(minus, magnitude, scale)
}

/// `m * 10^-scale`: an integer where both terms were, and else a decimal.
pub fn made(whole: bool, m: i128, scale: u8) -> Option<Num>
    ensures exact { found result ≡ cond whole (Some (numbers.Whole m)) (least_decimal (is_negative m) (unsigned_abs m) scale) }
    ensures kept { IfSome result (λ n. IsTrue (is_kept (number_of n))) }
{
    if whole {
        Some(Num::Whole(m))
    } else {
        least_decimal(m.is_negative(), m.unsigned_abs(), scale)
    }
}
