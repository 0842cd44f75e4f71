//! Numbers as literals.

ghost use Rattle.std.specs.Prelude.{◌≡◌, ◌++◌, ◌≤◌, ◌/◌, ◌^◌, ◌∷◌, [], cond, IsTrue, IfOk, string_bytes};
ghost use Rattle.std.specs.Fmt.{decimal, signed_decimal};
ghost use Rattle.term_core.specs.Numbers.{last_digits, places, lexical, datatype, is_kept};
ghost use Rattle.term_core.specs.Numbers as numbers;
ghost use Rattle.term_core.specs.declared.term.Term.TheVariants.{Literal};
ghost use Rattle.xsd_num.specs.Values.{number_of};

use crate::Num;
use crate::exact::power;
use crate::num::{is_minus, magnitude};
use std::alloc::Global;
use term_core::{Memory, Term, Text};

/// The last decimal digits of a number, as many as there are places.
#[tactic(auto, unfolding(term_core::specs::Numbers::last_digits))]
fn push_digits(out: &mut String, n: u128, places: u8) -> Result<(), Memory>
    ensures { IfOk result (λ _. string_bytes out.new ≡ string_bytes out.old ++ last_digits places n) }
{
    if places == 0 {
        return Ok(());
    }
    push_digits(out, n / 10, places - 1)?;
    out.push((b'0' + (n % 10) as u8) as char)?;
    Ok(())
}

/// The places behind the point, of which there is at least one.
fn push_places(out: &mut String, n: u128, places: u8) -> Result<(), Memory>
    ensures { IfOk result (λ _. string_bytes out.new ≡ string_bytes out.old ++ numbers.places places n) }
{
    if places == 0 {
        out.push('0')?;
        Ok(())
    } else {
        push_digits(out, n, places)
    }
}

/// The lexical form of an integer.
fn write_whole(alloc: Global, m: i128) -> Result<String, Memory>
    ensures { IfOk result (λ text. string_bytes text ≡ signed_decimal m) }
{
    Ok(format!(in alloc; "{m}")?)
}

/// The lexical form of a decimal.
fn write_decimal(alloc: Global, minus: bool, magnitude: u128, scale: u8) -> Result<String, Memory>
    requires { scale ≤ 18 }
    ensures { IfOk result (λ text. string_bytes text
        ≡ cond minus (45 ∷ []) [] ++ (decimal (magnitude / 10 ^ scale) ++ 46 ∷ places scale magnitude)) }
{
    let sign = if minus { "-" } else { "" };
    let whole = magnitude / power(scale);
    let mut out = format!(in alloc; "{sign}{whole}.")?;
    push_places(&mut out, magnitude, scale)?;
    Ok(out)
}

/// The literal of a lexical form and a datatype, without a tag.
fn literal(alloc: Global, lexical: String, datatype: &str) -> Result<Term, Memory>
    ensures { IfOk result (λ t. t ≡ Literal (string_bytes lexical) datatype.now []) }
{
    Ok(Term::Literal {
        lexical: Text::from_string(lexical),
        datatype: Text::from_str(alloc, datatype)?,
        lang: Text::from_str(alloc, "")?,
    })
}

/// The number as a literal: an integer as digits, with a minus where it is below zero, and
/// xsd:integer; a decimal with at least one digit on each side of its point and xsd:decimal.
pub fn write(alloc: Global, a: Num) -> Result<Term, Memory>
    requires { IsTrue (is_kept (number_of a)) }
    ensures { IfOk result (λ t. t ≡ Literal (lexical (number_of a)) (datatype (number_of a)) []) }
{
    match a {
        Num::Whole(m) => {
            let text = write_whole(alloc, m)?;
            literal(alloc, text, "http://www.w3.org/2001/XMLSchema#integer")
        }
        Num::Decimal { s, .. } => {
            let text = write_decimal(alloc, is_minus(a), magnitude(a), s)?;
            literal(alloc, text, "http://www.w3.org/2001/XMLSchema#decimal")
        }
    }
}
