//! The numbers, and the form in which they are kept.

ghost use Rattle.std.specs.Prelude.{◌≡◌, ◌≤◌, ◌^◌, unsigned_abs};
ghost use Rattle.std.specs.Int.{is_negative};
ghost use Rattle.term_core.specs.Numbers.{is_kept, scale, numerator, are_whole};
ghost use Rattle.xsd_num.specs.Values.{number_of};

/// An exact number within 128 bits. `==` tells kinds apart: the integer 2 is not the decimal 2.0,
/// which `cmp` ties with it.
#[derive(Clone, Copy, Debug, PartialEq, Eq)]
pub enum Num {
    /// A value of xsd:integer or of a type derived from it (XSD 1.1 part 2, section 3.4.13).
    Whole(i128),
    /// The value `m * 10^-s` of xsd:decimal (XSD 1.1 part 2, section 3.3.3). It is kept with `s` at
    /// most 18, and with the least `s`: 0, or `m` is no multiple of 10.
    Decimal { m: i128, s: u8 },
}

/// What a lexical form and a datatype are as a number.
#[derive(Clone, Copy, Debug, PartialEq, Eq)]
pub enum NumForm {
    /// This number.
    Exact(Num),
    /// A value of the datatype that is past 128 bits or 18 places.
    Wide,
    /// The datatype is one of numbers, and the lexical form is outside its grammar or range.
    Outside,
    /// The datatype is none of numbers.
    Other,
}

/// Why an operation has no number.
#[derive(Clone, Copy, Debug, PartialEq, Eq)]
pub enum NumFault {
    /// The value, or one on the way to it, is past 128 bits or 18 places.
    Range,
    /// The divisor is zero.
    Zero,
}

/// Whether a number is kept as it has to be: a decimal with at most 18 places, of which the last
/// is not 0.
pub fn is_kept(a: Num) -> bool
    ensures { result ≡ is_kept (number_of a) }
{
    match a {
        Num::Whole(_) => true,
        Num::Decimal { m, s } => s <= 18 && (s == 0 || m.unsigned_abs() % 10 != 0),
    }
}

/// `m`, of a number `m * 10^-s`.
pub fn numerator(a: Num) -> i128
    ensures { result ≡ numerator (number_of a) }
{
    match a {
        Num::Whole(m) | Num::Decimal { m, .. } => m,
    }
}

/// `s`, of a number `m * 10^-s`.
pub fn scale(a: Num) -> u8
    ensures { result ≡ scale (number_of a) }
{
    match a {
        Num::Whole(_) => 0,
        Num::Decimal { s, .. } => s,
    }
}

/// Whether both are integers.
pub fn are_whole(a: Num, b: Num) -> bool
    ensures { result ≡ are_whole (number_of a) (number_of b) }
{
    matches!((a, b), (Num::Whole(_), Num::Whole(_)))
}

/// Whether a number is below zero.
pub fn is_minus(a: Num) -> bool
    ensures { result ≡ is_negative (numerator (number_of a)) }
{
    numerator(a) < 0
}

/// `|m|`, of a number `m * 10^-s`.
pub fn magnitude(a: Num) -> u128
    ensures exact { result ≡ unsigned_abs (numerator (number_of a)) }
    ensures bound { result ≤ 2 ^ 127 }
{
    numerator(a).unsigned_abs()
}
