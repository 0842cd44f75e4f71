//! Terms.

ghost use Rattle.std.specs.Prelude.{◌≡◌, ◌++◌, [], IfOk};
ghost use Rattle.sparql_tree.specs.Terms.{literal};
ghost use Rattle.sparql_grammar.specs.TermReading as spec;
ghost use Rattle.sparql_grammar.specs.Reads.{Reads, same};

use crate::cursor::Cursor;
use crate::fault::Fault;
use sparql_tree::Shape;
use std::alloc::Global;
use term_core::{
    Memory, RDF_LANG_STRING, Term, Text, XSD_BOOLEAN, XSD_DECIMAL, XSD_INTEGER, XSD_STRING,
};

/// A literal without a tag.
fn literal(alloc: Global, lexical: Text, datatype: &str) -> Result<Term, Memory>
    ensures { IfOk result (λ term. term ≡ literal lexical datatype.now) }
{
    let datatype = Text::from_str(alloc, datatype)?;
    Term::typed(alloc, lexical, datatype)
}

/// The sign, and the digits behind it.
fn signed(alloc: Global, sign: &str, digits: &Text) -> Result<Text, Memory>
    ensures { IfOk result (λ text. text ≡ sign.now ++ digits.now) }
{
    let mut text = String::from_str(alloc, sign)?;
    text.push_str(digits.as_str())?;
    Ok(Text::from_string(text))
}

/// A number behind this sign.
#[tactic(auto, unfolding(crate::specs::TermReading::number))]
pub fn number(alloc: Global, cursor: &mut Cursor<'_>, sign: &str) -> Result<Term, Fault>
    ensures { Reads same (spec.number sign.now cursor.old) result cursor.new }
{
    match cursor.peek() {
        Some(Shape::Integer) => {
            let digits = cursor.take(alloc)?;
            Ok(literal(alloc, signed(alloc, sign, &digits)?, XSD_INTEGER)?)
        }
        Some(Shape::Decimal) => {
            let digits = cursor.take(alloc)?;
            Ok(literal(alloc, signed(alloc, sign, &digits)?, XSD_DECIMAL)?)
        }
        _ => Err(Fault::NotAQuery),
    }
}

/// What follows a string and `^^`.
#[tactic(auto, unfolding(crate::specs::TermReading::typed))]
fn typed(alloc: Global, cursor: &mut Cursor<'_>, lexical: Text) -> Result<Term, Fault>
    ensures { Reads same (spec.typed lexical cursor.old) result cursor.new }
{
    match cursor.peek() {
        Some(Shape::Iri) => {
            let datatype = cursor.take(alloc)?;
            if datatype.bytes() == RDF_LANG_STRING.as_bytes() {
                Err(Fault::NotAQuery)
            } else {
                Ok(literal(alloc, lexical, datatype.as_str())?)
            }
        }
        _ => Err(Fault::NotAQuery),
    }
}

/// What follows a string.
#[tactic(auto, unfolding(crate::specs::TermReading::quoted))]
fn quoted(alloc: Global, cursor: &mut Cursor<'_>, lexical: Text) -> Result<Term, Fault>
    ensures { Reads same (spec.quoted lexical cursor.old) result cursor.new }
{
    match cursor.peek() {
        Some(Shape::Tag) => {
            let lang = cursor.take(alloc)?;
            Ok(Term::tagged(alloc, lexical, lang)?)
        }
        Some(Shape::Typed) => {
            cursor.advance();
            typed(alloc, cursor, lexical)
        }
        _ => Ok(literal(alloc, lexical, XSD_STRING)?),
    }
}

/// A term.
#[tactic(auto, unfolding(crate::specs::TermReading::term))]
pub fn term(alloc: Global, cursor: &mut Cursor<'_>) -> Result<Term, Fault>
    ensures { Reads same (spec.term cursor.old) result cursor.new }
{
    match cursor.peek() {
        Some(Shape::Iri) => Ok(Term::Iri(cursor.take(alloc)?)),
        Some(Shape::Quoted) => {
            let lexical = cursor.take(alloc)?;
            quoted(alloc, cursor, lexical)
        }
        Some(Shape::Boolean) => {
            let word = cursor.take(alloc)?;
            Ok(literal(alloc, word, XSD_BOOLEAN)?)
        }
        Some(Shape::Plus) => {
            cursor.advance();
            number(alloc, cursor, "+")
        }
        Some(Shape::Minus) => {
            cursor.advance();
            number(alloc, cursor, "-")
        }
        _ => number(alloc, cursor, ""),
    }
}
