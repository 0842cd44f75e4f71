//! Texts with escapes: what stands between `<` and `>`, and between quotes.

ghost use Rattle.std.specs.Prelude.{◌≡◌, ◌++◌, ◌<◌, ◌≤◌, Some, IfOk, IfSome, length, string_bytes, option_map};
ghost use Rattle.std.specs.Str.{chars, encode_utf8_all};
ghost use Rattle.nt_text.specs.Characters.{is_in};
ghost use Rattle.nt_text.specs.Reading.{digit_at, four_at, eight_at, scalar_of, uchar_by, iri_escape, echar_or, escape_by, escape_at, plain_in, spelled_at};

use crate::classes::{Class, span, split_first};
use std::alloc::Global;
use term_core::{Memory, Text, is_iri, unescaped};

/// What a text with escapes stands for: between which signs it stands.
#[derive(Clone, Copy, Debug, PartialEq, Eq)]
pub enum Quoted {
    /// An IRI, between `<` and `>`.
    Iri,
    /// A string, between quotes.
    String,
}

/// The value of the hexadecimal digit at the front, and what is behind it.
fn read_digit(text: &str) -> Option<(u32, &str)>
    ensures exact { option_map (λ p. (p.0, chars p.1.now)) result ≡ digit_at (chars text.now) }
    ensures small { IfSome result (λ p. p.0 < 16) }
    ensures shorter { IfSome result (λ p. length p.1.now < length text.now) }
{
    match split_first(text) {
        Some((c, rest)) => match c.to_digit(16) {
            Some(digit) => Some((digit, rest)),
            None => None,
        },
        None => None,
    }
}

/// The number that four hexadecimal digits spell, and what is behind them.
#[tactic(auto, unfolding(crate::specs::Reading::four_at))]
fn read_four(text: &str) -> Option<(u32, &str)>
    ensures exact { option_map (λ p. (p.0, chars p.1.now)) result ≡ four_at (chars text.now) }
    ensures small { IfSome result (λ p. p.0 < 65536) }
    ensures shorter { IfSome result (λ p. length p.1.now < length text.now) }
{
    let (a, rest) = read_digit(text)?;
    let (b, rest) = read_digit(rest)?;
    let (c, rest) = read_digit(rest)?;
    let (d, rest) = read_digit(rest)?;
    Some((((a * 16 + b) * 16 + c) * 16 + d, rest))
}

/// The number that eight hexadecimal digits spell, and what is behind them.
#[tactic(auto, unfolding(crate::specs::Reading::eight_at))]
fn read_eight(text: &str) -> Option<(u32, &str)>
    ensures exact { option_map (λ p. (p.0, chars p.1.now)) result ≡ eight_at (chars text.now) }
    ensures shorter { IfSome result (λ p. length p.1.now < length text.now) }
{
    let (high, rest) = read_four(text)?;
    let (low, rest) = read_four(rest)?;
    Some((high * 65536 + low, rest))
}

/// The character of a number, with what is behind it; None where it is no Unicode scalar value.
fn read_scalar(number: u32, rest: &str) -> Option<(char, &str)>
    ensures exact { option_map (λ p. (p.0, chars p.1.now)) result ≡ scalar_of (number, chars rest.now) }
    ensures within { IfSome result (λ p. length p.1.now ≤ length rest.now) }
{
    match char::from_u32(number) {
        Some(c) => Some((c, rest)),
        None => None,
    }
}

/// The character that the digits behind a backslash and this letter spell (RDF 1.1 N-Triples, section
/// 7, UCHAR), and what is behind them.
fn read_uchar(letter: char, rest: &str) -> Option<(char, &str)>
    ensures exact { option_map (λ p. (p.0, chars p.1.now)) result ≡ uchar_by letter (chars rest.now) }
    ensures shorter { IfSome result (λ p. length p.1.now < length rest.now) }
{
    let (number, rest) = match letter {
        'u' => read_four(rest)?,
        'U' => read_eight(rest)?,
        _ => return None,
    };
    read_scalar(number, rest)
}

/// The character of an escape, read behind its backslash and its letter, and what is behind it.
fn read_behind(quoted: Quoted, letter: char, rest: &str) -> Option<(char, &str)>
    ensures exact { option_map (λ p. (p.0, chars p.1.now)) result ≡ escape_by quoted letter (chars rest.now) }
    ensures shorter { IfSome result (λ p. length p.1.now ≤ length rest.now) }
{
    match quoted {
        Quoted::Iri => match read_uchar(letter, rest) {
            Some((c, behind)) if is_iri(c) => Some((c, behind)),
            _ => None,
        },
        Quoted::String => match unescaped(letter) {
            Some(c) => Some((c, rest)),
            None => read_uchar(letter, rest),
        },
    }
}

/// The character of the escape at the front of a text, and what is behind it; None where none stands
/// there.
#[tactic(auto, unfolding(crate::specs::Reading::escape_at))]
fn read_escape(quoted: Quoted, text: &str) -> Option<(char, &str)>
    ensures exact { option_map (λ p. (p.0, chars p.1.now)) result ≡ escape_at quoted (chars text.now) }
    ensures shorter { IfSome result (λ p. length p.1.now < length text.now) }
{
    match split_first(text) {
        Some(('\\', body)) => match split_first(body) {
            Some((letter, rest)) => read_behind(quoted, letter, rest),
            None => None,
        },
        _ => None,
    }
}

/// The class of what may stand there as it is.
fn plain_class(quoted: Quoted) -> Class
    ensures { is_in result ≡ plain_in quoted }
{
    match quoted {
        Quoted::Iri => Class::Iri,
        Quoted::String => Class::Plain,
    }
}

/// What a text spells, up to a character that neither stands for itself nor begins an escape, and
/// what is behind. Each character is copied once.
pub fn read_spelled(alloc: Global, quoted: Quoted, text: &str) -> Result<(Text, &str), Memory>
    ensures { IfOk result (λ p. (p.0 ≡ encode_utf8_all (spelled_at quoted (chars text.now)).0)
        × (chars p.1.now ≡ (spelled_at quoted (chars text.now)).1)) }
{
    let (plain, rest) = span(plain_class(quoted), text);
    let mut spelled = String::from_str(alloc, plain)?;
    let mut left = rest;
    'escapes: while let Some((c, behind)) = read_escape(quoted, left) {
        spelled.push(c)?;
        let (plain, rest) = span(plain_class(quoted), behind);
        spelled.push_str(plain)?;
        left = rest;
    }
    Ok((Text::from_string(spelled), left))
}
