//! Escapes undone, of IRIs, strings and local names (SPARQL 1.1, sections 19.2 and 19.8).

ghost use Rattle.std.specs.Prelude.{◌≡◌, ◌++◌, [], IfOk, OnOk, string_bytes};
ghost use Rattle.std.specs.Str.{chars, encode_utf8_all};
ghost use Rattle.sparql_symbol.specs.Undoing as spec;
ghost use Rattle.sparql_symbol.specs.Undoing.{undone, with_hex_digit};

use std::alloc::AllocError;
use term_core::unescaped;

/// Where the reading of a text with escapes stands.
#[derive(Clone, Copy, Debug, PartialEq, Eq)]
pub enum Place {
    /// In an IRI or a string, outside an escape.
    Plain,
    /// Behind the backslash of an escape.
    Letter,
    /// In front of the last `left` hexadecimal digits of an escape; those before them spell `number`.
    Digits { left: u32, number: u32 },
    /// In a local name.
    Name,
}

/// What one more character does.
#[derive(Clone, Copy, Debug, PartialEq, Eq)]
struct Reading {
    spelled: Option<char>,
    next: Place,
}

fn plain_step(c: char) -> Reading
    ensures { result ≡ spec.plain_step c }
{
    if c == '\\' {
        Reading {
            spelled: None,
            next: Place::Letter,
        }
    } else {
        Reading {
            spelled: Some(c),
            next: Place::Plain,
        }
    }
}

/// In front of so many hexadecimal digits.
fn digits_follow(left: u32) -> Reading
    ensures { result ≡ spec.digits_follow left }
{
    Reading {
        spelled: None,
        next: Place::Digits { left, number: 0 },
    }
}

fn letter_step(c: char) -> Reading
    ensures { result ≡ spec.letter_step c }
{
    if c == 'u' {
        digits_follow(4)
    } else if c == 'U' {
        digits_follow(8)
    } else {
        Reading {
            spelled: unescaped(c),
            next: Place::Plain,
        }
    }
}

/// The number with one more digit.
fn with_digit(number: u32, c: char) -> u32
    ensures { result ≡ with_hex_digit number c }
{
    let digit = match c.to_digit(16) {
        Some(digit) => digit,
        None => 0,
    };
    number.saturating_mul(16).saturating_add(digit)
}

fn digit_step(left: u32, number: u32, c: char) -> Reading
    ensures { result ≡ spec.digit_step left number c }
{
    let number = with_digit(number, c);
    if left <= 1 {
        Reading {
            spelled: char::from_u32(number),
            next: Place::Plain,
        }
    } else {
        Reading {
            spelled: None,
            next: Place::Digits {
                left: left - 1,
                number,
            },
        }
    }
}

fn name_step(c: char) -> Reading
    ensures { result ≡ spec.name_step c }
{
    let spelled = if c == '\\' { None } else { Some(c) };
    Reading {
        spelled,
        next: Place::Name,
    }
}

fn step(place: Place, c: char) -> Reading
    ensures { result ≡ spec.undo_step place c }
{
    match place {
        Place::Plain => plain_step(c),
        Place::Letter => letter_step(c),
        Place::Digits { left, number } => digit_step(left, number, c),
        Place::Name => name_step(c),
    }
}

fn push_some(spelled: &mut String, c: Option<char>) -> Result<(), AllocError>
    ensures { OnOk result (string_bytes spelled.new ≡ string_bytes spelled.old ++ encode_utf8_all (spec.in_front c [])) }
{
    match c {
        Some(c) => spelled.push(c),
        None => Ok(()),
    }
}

/// What a text spells from this place on, behind `front`. Each character is copied once.
pub fn undo(front: String, place: Place, text: &str) -> Result<String, AllocError>
    ensures { IfOk result (λ all. string_bytes all ≡ string_bytes front ++ encode_utf8_all (undone place (chars text.now))) }
{
    let mut spelled = front;
    let mut place = place;
    for c in text.chars() {
        let step = step(place, c);
        push_some(&mut spelled, step.spelled)?;
        place = step.next;
    }
    Ok(spelled)
}
