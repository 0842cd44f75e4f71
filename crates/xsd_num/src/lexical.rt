//! Lexical forms and datatypes (XSD 1.1 part 2, sections 3.3.3 and 3.4.13 to 3.4.25).

ghost use Rattle.std.specs.Prelude.{◌≡◌, ◌&&◌, ◌++◌, not, ◌+◌, ◌-◌, ◌*◌, ℕ, length, true, Some, IsTrue, IfSome};
ghost use Rattle.term_core.specs.Characters.{is_digit};
ghost use Rattle.term_core.specs.Numbers.{are_digits, value_after, is_minus, behind_sign, before_point, behind_point, is_empty};
ghost use Rattle.term_core.specs.Numbers.{trimmed, least_decimal, is_kept, bounds_of, is_from, is_up_to, is_within, is_decimal, signed, digits_value};
ghost use Rattle.term_core.specs.Numbers as numbers;
ghost use Rattle.term_core.specs.Literals as literals;
ghost use Rattle.xsd_num.specs.Values.{number_of, found, held, below, form_in, is_open, IsKeptForm, AreHeld};

use crate::exact::{held_decimal, signed};
use crate::{Num, NumForm};

/// A type's least and greatest value, where there is one.
type Bounds = (Option<i128>, Option<i128>);

/// Whether there is nothing but digits.
fn are_digits(text: &[u8]) -> bool
    ensures { result ≡ are_digits text.now }
{
    for c in text {
        if !c.is_ascii_digit() {
            return false;
        }
    }
    true
}

/// The number that a digit writes behind those of `n`, if it is below 2^128.
fn digit_after(n: u128, digit: u8) -> Option<u128>
    requires { is_digit digit ≡ true }
    ensures { result ≡ below (n * 10 + (digit - 48)) }
{
    n.checked_mul(10)?.checked_add((digit - b'0') as u128)
}

/// The number that digits write behind those of `before`, if it is below 2^128.
fn value_after(before: u128, digits: &[u8]) -> Option<u128>
    requires { are_digits digits.now ≡ true }
    ensures { result ≡ below (value_after before digits.now) }
{
    let mut n = before;
    for digit in digits {
        n = digit_after(n, *digit)?;
    }
    Some(n)
}

/// Whether a minus stands in front, and what is behind a sign.
fn split_sign(text: &[u8]) -> (bool, &[u8])
    ensures minus { result.0 ≡ is_minus text.now }
    ensures rest { result.1.now ≡ behind_sign text.now }
{
    match text {
        [b'-', rest @ ..] => (true, rest),
        [b'+', rest @ ..] => (false, rest),
        _ => (false, text),
    }
}

/// What is in front of the first point and behind it: all and nothing where there is none.
fn split_point(body: &[u8]) -> (&[u8], &[u8])
    ensures before { result.0.now ≡ before_point body.now }
    ensures behind { result.1.now ≡ behind_point body.now }
{
    for (i, c) in body.iter().enumerate() {
        if *c == b'.' {
            return (&body[..i], &body[i + 1..]);
        }
    }
    body.split_at(body.len())
}

/// Digits without the zeros at their end.
fn without_zeros(digits: &[u8]) -> &[u8]
    requires { are_digits digits.now ≡ true }
    ensures trims { (n : ℕ) → trimmed (value_after n digits.now) (length digits.now)
        ≡ (value_after n result.now, length result.now) }
    ensures digits { are_digits result.now ≡ true }
{
    let mut end = digits.len();
    while end > 0 && digits[end - 1] == b'0' {
        end -= 1;
    }
    &digits[..end]
}

/// Whether there is nothing but digits in front of a point and behind it, and one at least.
#[tactic(auto, using(crate::proofs::Digits::digits_join, crate::proofs::Digits::empty_join))]
fn are_decimal(whole: &[u8], fraction: &[u8]) -> bool
    ensures { result ≡ (are_digits (whole.now ++ fraction.now) && not (is_empty (whole.now ++ fraction.now))) }
{
    are_digits(whole) && are_digits(fraction) && !(whole.is_empty() && fraction.is_empty())
}

/// The number that digits in front of a point and behind it write, if it is below 2^128.
fn joint_value(whole: &[u8], fraction: &[u8]) -> Option<u128>
    requires whole { are_digits whole.now ≡ true }
    requires fraction { are_digits fraction.now ≡ true }
    ensures { result ≡ below (value_after (value_after 0 whole.now) fraction.now) }
{
    value_after(value_after(0, whole)?, fraction)
}

/// The decimal of digits in front of a point and behind it, if it has 128 bits and at most 18
/// places at its least scale.
fn decimal_of(minus: bool, whole: &[u8], fraction: &[u8]) -> Option<Num>
    requires whole { are_digits whole.now ≡ true }
    requires fraction { are_digits fraction.now ≡ true }
    ensures { found result
        ≡ least_decimal minus (value_after (value_after 0 whole.now) fraction.now) (length fraction.now) }
{
    let fraction = without_zeros(fraction);
    if fraction.len() > 18 {
        return None;
    }
    let magnitude = joint_value(whole, fraction)?;
    held_decimal(minus, magnitude, fraction.len() as u8)
}

/// The decimal of a text.
fn read_decimal(text: &[u8]) -> Option<Num>
    ensures exact { found result ≡ numbers.read_decimal text.now }
    ensures kept { IfSome result (λ n. IsTrue (is_kept (number_of n))) }
{
    let (minus, body) = split_sign(text);
    let (whole, fraction) = split_point(body);
    if are_decimal(whole, fraction) {
        decimal_of(minus, whole, fraction)
    } else {
        None
    }
}

/// Whether a text is of the grammar of decimals.
fn is_decimal(text: &[u8]) -> bool
    ensures { result ≡ is_decimal text.now }
{
    let (_, body) = split_sign(text);
    let (whole, fraction) = split_point(body);
    are_decimal(whole, fraction)
}

/// A text as an xsd:decimal.
fn decimal_form(text: &[u8]) -> NumForm
    ensures exact { form_in result ≡ literals.decimal_form text.now }
    ensures kept { IsKeptForm result }
{
    match read_decimal(text) {
        Some(number) => NumForm::Exact(number),
        None if is_decimal(text) => NumForm::Wide,
        None => NumForm::Outside,
    }
}

/// Whether a number is no less than the least value and no greater than the greatest.
fn is_within(bounds: Bounds, m: i128) -> bool
    ensures { result ≡ is_within bounds m }
{
    let (low, high) = bounds;
    let is_from = match low {
        Some(low) => low <= m,
        None => true,
    };
    let is_up_to = match high {
        Some(high) => m <= high,
        None => true,
    };
    is_from && is_up_to
}

/// Whether a range has no end below, or none above.
fn is_open(bounds: Bounds, below: bool) -> bool
    ensures { result ≡ is_open bounds below }
{
    let (low, high) = bounds;
    if below { low.is_none() } else { high.is_none() }
}

/// The integer of a sign and digits, if it has 128 bits.
fn integer_of(minus: bool, digits: &[u8]) -> Option<i128>
    requires { are_digits digits.now ≡ true }
    ensures { result ≡ held (signed minus (digits_value digits.now)) }
{
    signed(minus, value_after(0, digits)?)
}

/// A text as an integer of a type of that range. What is past 128 bits is within it exactly where
/// the range has no end on that side.
#[tactic(auto, using(crate::proofs::Wide::past_is))]
fn integer_form(bounds: Bounds, text: &[u8]) -> NumForm
    requires { AreHeld bounds }
    ensures exact { form_in result ≡ literals.integer_form (Some bounds) text.now }
    ensures kept { IsKeptForm result }
{
    let (minus, digits) = split_sign(text);
    if digits.is_empty() || !are_digits(digits) {
        return NumForm::Outside;
    }
    match integer_of(minus, digits) {
        Some(m) if is_within(bounds, m) => NumForm::Exact(Num::Whole(m)),
        None if is_open(bounds, minus) => NumForm::Wide,
        _ => NumForm::Outside,
    }
}

/// The range of xsd:integer and of each of the twelve types derived from it (XSD 1.1 part 2,
/// sections 3.4.13 to 3.4.25).
#[tactic(auto, unfolding(term_core::specs::Numbers::bounds_of))]
fn bounds_of(datatype: &[u8]) -> Option<Bounds>
    ensures exact { result ≡ bounds_of datatype.now }
    ensures held { IfSome result AreHeld }
{
    if datatype == b"http://www.w3.org/2001/XMLSchema#integer".as_slice() {
        Some((None, None))
    } else if datatype == b"http://www.w3.org/2001/XMLSchema#long".as_slice() {
        Some((Some(-0x8000_0000_0000_0000), Some(0x7fff_ffff_ffff_ffff)))
    } else if datatype == b"http://www.w3.org/2001/XMLSchema#int".as_slice() {
        Some((Some(-0x8000_0000), Some(0x7fff_ffff)))
    } else if datatype == b"http://www.w3.org/2001/XMLSchema#short".as_slice() {
        Some((Some(-0x8000), Some(0x7fff)))
    } else if datatype == b"http://www.w3.org/2001/XMLSchema#byte".as_slice() {
        Some((Some(-0x80), Some(0x7f)))
    } else if datatype == b"http://www.w3.org/2001/XMLSchema#nonNegativeInteger".as_slice() {
        Some((Some(0), None))
    } else if datatype == b"http://www.w3.org/2001/XMLSchema#positiveInteger".as_slice() {
        Some((Some(1), None))
    } else if datatype == b"http://www.w3.org/2001/XMLSchema#nonPositiveInteger".as_slice() {
        Some((None, Some(0)))
    } else if datatype == b"http://www.w3.org/2001/XMLSchema#negativeInteger".as_slice() {
        Some((None, Some(-1)))
    } else if datatype == b"http://www.w3.org/2001/XMLSchema#unsignedLong".as_slice() {
        Some((Some(0), Some(0xffff_ffff_ffff_ffff)))
    } else if datatype == b"http://www.w3.org/2001/XMLSchema#unsignedInt".as_slice() {
        Some((Some(0), Some(0xffff_ffff)))
    } else if datatype == b"http://www.w3.org/2001/XMLSchema#unsignedShort".as_slice() {
        Some((Some(0), Some(0xffff)))
    } else if datatype == b"http://www.w3.org/2001/XMLSchema#unsignedByte".as_slice() {
        Some((Some(0), Some(0xff)))
    } else {
        None
    }
}

/// What a lexical form and the IRI of a datatype are as a number. The datatypes of numbers are
/// xsd:decimal, xsd:integer and the twelve types derived from it. Blanks are not dropped.
pub fn form_of(lexical: &[u8], datatype: &[u8]) -> NumForm
    ensures exact { form_in result ≡ literals.form_of lexical.now datatype.now }
    ensures kept { IsKeptForm result }
{
    if datatype == b"http://www.w3.org/2001/XMLSchema#decimal".as_slice() {
        return decimal_form(lexical);
    }
    match bounds_of(datatype) {
        Some(bounds) => integer_form(bounds, lexical),
        None => NumForm::Other,
    }
}

/// The number, if there is one.
fn number_in(form: NumForm) -> Option<Num>
    ensures exact { found result ≡ literals.number_in (form_in form) }
    ensures kept { IsKeptForm form → IfSome result (λ n. IsTrue (is_kept (number_of n))) }
{
    match form {
        NumForm::Exact(number) => Some(number),
        NumForm::Wide | NumForm::Outside | NumForm::Other => None,
    }
}

/// The number of a lexical form and the IRI of a datatype. There is one exactly where the datatype
/// is xsd:decimal, xsd:integer or one of the twelve derived types, the text is of its grammar
/// (blanks are not dropped) and within its range, and the number is within 128 bits and 18 places.
pub fn read(lexical: &[u8], datatype: &[u8]) -> Option<Num>
    ensures exact { found result ≡ numbers.read lexical.now datatype.now }
    ensures kept { IfSome result (λ n. IsTrue (is_kept (number_of n))) }
{
    number_in(form_of(lexical, datatype))
}
