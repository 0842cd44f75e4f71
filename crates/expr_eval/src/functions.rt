//! The functions of one term and of two (SPARQL 1.1, section 17.4).

ghost use Rattle.std.specs.Prelude.{◌≡◌, ◌∷◌, [], length, pos, Some};
ghost use Rattle.std.specs.Str.{chars};
ghost use Rattle.std.specs.Option.{option_copied};
ghost use Rattle.sparql_value.specs.Functions as functions;
ghost use Rattle.expr_eval.specs.Founds.{term_of, IsKeptFound};
ghost use Rattle.expr_eval.specs.Answers.{Evaluates, FindsNumber, FindsString, FindsTexts, FindsTerm};

use crate::ExprError;
use crate::compared::{is_literal, same};
use crate::found::{Found, computed, number_of_found, value_of_found};
use expr_value::Value;
use sparql_tree::Function;
use std::alloc::Global;
use term_core::{Term, XSD_BOOLEAN, XSD_DECIMAL, XSD_INTEGER, XSD_STRING};
use xsd_num::{Num, abs, write};

/// Whether the term is an IRI.
fn is_iri(found: &Found) -> bool
    ensures { result ≡ functions.is_iri_term (term_of found.now) }
{
    match found {
        Found::Held(term) => matches!(term, Term::Iri(_)),
        Found::Made(term) => matches!(term, Term::Iri(_)),
        Found::Iri(_) => true,
        Found::Number(_) => false,
        Found::Truth(_) => false,
        Found::Text(_) => false,
    }
}

/// Whether the term is a blank node.
fn is_blank(found: &Found) -> bool
    ensures { result ≡ functions.is_blank_term (term_of found.now) }
{
    match found {
        Found::Held(term) => matches!(term, Term::Blank(_)),
        Found::Made(term) => matches!(term, Term::Blank(_)),
        Found::Iri(_) => false,
        Found::Number(_) => false,
        Found::Truth(_) => false,
        Found::Text(_) => false,
    }
}

/// Whether the term is a number that is kept.
fn is_numeric(found: &Found) -> bool
    requires { IsKeptFound found.now }
    ensures { result ≡ functions.is_numeric (term_of found.now) }
{
    matches!(value_of_found(found), Value::Numeric(_))
}

/// The text of a term that stands elsewhere.
fn text_of_held(term: &Term) -> Result<Found<'_>, ExprError>
    ensures { FindsTerm (functions.str_of term.now) result }
{
    match term {
        Term::Iri(iri) => Ok(Found::Text(iri.as_str())),
        Term::Literal { lexical, .. } => Ok(Found::Text(lexical.as_str())),
        Term::Blank(_) => Err(ExprError::Error),
    }
}

/// The text of a term that was made, which is taken and not copied.
fn text_of_made<'a>(alloc: Global, term: Term) -> Result<Found<'a>, ExprError>
    ensures { FindsTerm (functions.str_of term) result }
{
    match term {
        Term::Iri(iri) => Ok(Found::Made(Term::plain(alloc, iri)?)),
        Term::Literal { lexical, .. } => Ok(Found::Made(Term::plain(alloc, lexical)?)),
        Term::Blank(_) => Err(ExprError::Error),
    }
}

/// STR
fn text_of<'a>(alloc: Global, found: Found<'a>) -> Result<Found<'a>, ExprError>
    requires { IsKeptFound found }
    ensures { FindsTerm (functions.str_of (term_of found.entry)) result }
{
    match found {
        Found::Held(term) => text_of_held(term),
        Found::Number(number) => text_of_made(alloc, write(alloc, number)?),
        Found::Truth(true) => Ok(Found::Text("true")),
        Found::Truth(false) => Ok(Found::Text("false")),
        Found::Text(text) => Ok(Found::Text(text)),
        Found::Iri(iri) => Ok(Found::Text(iri)),
        Found::Made(term) => text_of_made(alloc, term),
    }
}

/// The tag of a term that stands elsewhere.
fn lang_of_held(term: &Term) -> Result<Found<'_>, ExprError>
    ensures { FindsTerm (functions.lang_of_term term.now) result }
{
    match term {
        Term::Literal { lang, .. } => Ok(Found::Text(lang.as_str())),
        Term::Iri(_) => Err(ExprError::Error),
        Term::Blank(_) => Err(ExprError::Error),
    }
}

/// The tag of a term that was made.
fn lang_of_made<'a>(alloc: Global, term: Term) -> Result<Found<'a>, ExprError>
    ensures { FindsTerm (functions.lang_of_term term) result }
{
    match term {
        Term::Literal { lang, .. } => Ok(Found::Made(Term::plain(alloc, lang)?)),
        Term::Iri(_) => Err(ExprError::Error),
        Term::Blank(_) => Err(ExprError::Error),
    }
}

/// LANG
fn lang_of<'a>(alloc: Global, found: Found<'a>) -> Result<Found<'a>, ExprError>
    ensures { FindsTerm (functions.lang_of_term (term_of found.entry)) result }
{
    match found {
        Found::Held(term) => lang_of_held(term),
        Found::Number(_) => Ok(Found::Text("")),
        Found::Truth(_) => Ok(Found::Text("")),
        Found::Text(_) => Ok(Found::Text("")),
        Found::Iri(_) => Err(ExprError::Error),
        Found::Made(term) => lang_of_made(alloc, term),
    }
}

/// The datatype of a term that stands elsewhere.
fn datatype_of_held(term: &Term) -> Result<Found<'_>, ExprError>
    ensures { FindsTerm (functions.datatype_of_term term.now) result }
{
    match term {
        Term::Literal { datatype, .. } => Ok(Found::Iri(datatype.as_str())),
        Term::Iri(_) => Err(ExprError::Error),
        Term::Blank(_) => Err(ExprError::Error),
    }
}

/// The datatype of a term that was made.
fn datatype_of_made<'a>(term: Term) -> Result<Found<'a>, ExprError>
    ensures { FindsTerm (functions.datatype_of_term term) result }
{
    match term {
        Term::Literal { datatype, .. } => Ok(Found::Made(Term::Iri(datatype))),
        Term::Iri(_) => Err(ExprError::Error),
        Term::Blank(_) => Err(ExprError::Error),
    }
}

/// DATATYPE
fn datatype_of<'a>(found: Found<'a>) -> Result<Found<'a>, ExprError>
    ensures { FindsTerm (functions.datatype_of_term (term_of found.entry)) result }
{
    match found {
        Found::Held(term) => datatype_of_held(term),
        Found::Number(Num::Whole(_)) => Ok(Found::Iri(XSD_INTEGER)),
        Found::Number(Num::Decimal { .. }) => Ok(Found::Iri(XSD_DECIMAL)),
        Found::Truth(_) => Ok(Found::Iri(XSD_BOOLEAN)),
        Found::Text(_) => Ok(Found::Iri(XSD_STRING)),
        Found::Iri(_) => Err(ExprError::Error),
        Found::Made(term) => datatype_of_made(term),
    }
}

/// The text of a string literal and its tag, which is empty where there is none.
pub fn string_of<'a>(found: &'a Found<'_>) -> Result<(&'a str, &'a str), ExprError>
    requires { IsKeptFound found.now }
    ensures { FindsString (functions.as_string (term_of found.now)) result }
{
    match value_of_found(found) {
        Value::Simple(text) => Ok((text, "")),
        Value::Tagged { text, lang } => Ok((text, lang)),
        _ => Err(ExprError::Error),
    }
}

/// The characters of a text.
fn char_count(text: &str) -> usize
    ensures { result ≡ length (chars text.now) }
{
    text.chars().count()
}

/// STRLEN
fn length_of<'a>(found: &Found) -> Result<Found<'a>, ExprError>
    requires { IsKeptFound found.now }
    ensures { FindsTerm (functions.length_of (term_of found.now)) result }
{
    let (text, _) = string_of(found)?;
    Ok(computed(Num::Whole(char_count(text) as i128)))
}

/// ABS
fn absolute_of<'a>(found: &Found) -> Result<Found<'a>, ExprError>
    requires { IsKeptFound found.now }
    ensures { FindsTerm (functions.absolute_of (term_of found.now)) result }
{
    let number = number_of_found(found)?;
    Ok(computed(abs(number)?))
}

/// The texts of two string literals of which the second has no tag, or both have the same (SPARQL
/// 1.1, section 17.4.3.1.2).
fn compatible<'a>(a: &'a Found<'_>, b: &'a Found<'_>) -> Result<(&'a str, &'a str), ExprError>
    requires a_kept { IsKeptFound a.now }
    requires b_kept { IsKeptFound b.now }
    ensures { FindsTexts (functions.as_string (term_of a.now)) (functions.as_string (term_of b.now)) result }
{
    let (text, tag) = string_of(a)?;
    let (other, other_tag) = string_of(b)?;
    if other_tag.is_empty() || tag == other_tag {
        Ok((text, other))
    } else {
        Err(ExprError::Error)
    }
}

/// Whether a text begins with another.
fn begins_with(text: &str, needle: &str) -> bool
    ensures { result ≡ functions.begins_with text.now needle.now }
{
    text.starts_with(needle)
}

/// Whether a text ends with another.
fn finishes_with(text: &str, needle: &str) -> bool
    ensures { result ≡ functions.finishes_with text.now needle.now }
{
    text.ends_with(needle)
}

/// Whether a text has another somewhere.
fn has_text(text: &str, needle: &str) -> bool
    ensures { result ≡ functions.has_text text.now needle.now }
{
    text.contains(needle)
}

/// The functions of one term; all others are an error.
pub fn of_term<'a>(
    alloc: Global,
    function: Function,
    found: Found<'a>,
) -> Result<Found<'a>, ExprError>
    requires { IsKeptFound found }
    ensures { FindsTerm (functions.of_term function (term_of found.entry)) result }
{
    match function {
        Function::IsIri => Ok(Found::Truth(is_iri(&found))),
        Function::IsBlank => Ok(Found::Truth(is_blank(&found))),
        Function::IsLiteral => Ok(Found::Truth(is_literal(&found))),
        Function::IsNumeric => Ok(Found::Truth(is_numeric(&found))),
        Function::Str => text_of(alloc, found),
        Function::Lang => lang_of(alloc, found),
        Function::Datatype => datatype_of(found),
        Function::StrLen => length_of(&found),
        Function::Abs => absolute_of(&found),
        _ => Err(ExprError::Error),
    }
}

/// The tests of two terms; all other functions are an error.
pub fn of_terms(alloc: Global, function: Function, a: &Found, b: &Found) -> Result<bool, ExprError>
    requires a_kept { IsKeptFound a.now }
    requires b_kept { IsKeptFound b.now }
    ensures { Evaluates (functions.of_terms function (term_of a.now) (term_of b.now)) result }
{
    match function {
        Function::SameTerm => Ok(same(alloc, a, b)?),
        Function::StrStarts => {
            let (text, needle) = compatible(a, b)?;
            Ok(begins_with(text, needle))
        }
        Function::StrEnds => {
            let (text, needle) = compatible(a, b)?;
            Ok(finishes_with(text, needle))
        }
        Function::Contains => {
            let (text, needle) = compatible(a, b)?;
            Ok(has_text(text, needle))
        }
        _ => Err(ExprError::Error),
    }
}
