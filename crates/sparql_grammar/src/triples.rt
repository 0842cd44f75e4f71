//! Triple patterns (SPARQL 1.1, section 19.8, TriplesBlock).

ghost use Rattle.std.specs.Prelude.{◌≡◌, ◌∷◌, ◌++◌, [], IfOk};
ghost use Rattle.sparql_tree.specs.Triples as grammar;
ghost use Rattle.sparql_grammar.specs.TripleReading as spec;
ghost use Rattle.sparql_grammar.specs.Elements.{elements_there};
ghost use Rattle.sparql_grammar.specs.Reads.{Reads, same};

use crate::cursor::Cursor;
use crate::fault::Fault;
use crate::terms::term;
use sparql_tree::{Element, Shape};
use std::alloc::Global;
use term_core::{Items, Memory, Pattern, Place, Term, Text};

const RDF_TYPE: &str = "http://www.w3.org/1999/02/22-rdf-syntax-ns#type";

/// A variable, a blank node or a term.
#[tactic(auto, unfolding(crate::specs::TripleReading::node))]
fn node(alloc: Global, cursor: &mut Cursor<'_>) -> Result<Place, Fault>
    ensures { Reads same (spec.node cursor.old) result cursor.new }
{
    match cursor.peek() {
        Some(Shape::Var) => Ok(Place::Var(cursor.take(alloc)?)),
        Some(Shape::Blank) => Ok(Place::Blank(cursor.take(alloc)?)),
        _ => Ok(Place::Term(term(alloc, cursor)?)),
    }
}

/// A variable, an IRI or `a`.
#[tactic(auto, unfolding(crate::specs::TripleReading::verb))]
fn verb(alloc: Global, cursor: &mut Cursor<'_>) -> Result<Place, Fault>
    ensures { Reads same (spec.verb cursor.old) result cursor.new }
{
    match cursor.peek() {
        Some(Shape::Var) => Ok(Place::Var(cursor.take(alloc)?)),
        Some(Shape::Iri) => Ok(Place::Term(Term::Iri(cursor.take(alloc)?))),
        Some(Shape::IsA) => {
            cursor.advance();
            Ok(Place::Term(Term::Iri(Text::from_str(alloc, RDF_TYPE)?)))
        }
        _ => Err(Fault::NotAQuery),
    }
}

/// Whether a verb begins there.
fn begins_verb(shape: Option<Shape>) -> bool
    ensures { result ≡ spec.begins_verb shape }
{
    matches!(
        shape,
        Some(Shape::Var) | Some(Shape::Iri) | Some(Shape::IsA)
    )
}

/// Whether a node begins there.
fn begins_node(shape: Option<Shape>) -> bool
    ensures { result ≡ spec.begins_node shape }
{
    matches!(
        shape,
        Some(Shape::Var)
            | Some(Shape::Blank)
            | Some(Shape::Iri)
            | Some(Shape::Quoted)
            | Some(Shape::Integer)
            | Some(Shape::Decimal)
            | Some(Shape::Boolean)
            | Some(Shape::Plus)
            | Some(Shape::Minus)
    )
}

/// Adds a pattern of this subject and predicate.
fn push_pattern(
    alloc: Global,
    found: &mut Items<Pattern>,
    subject: &Place,
    predicate: &Place,
    object: Place,
) -> Result<(), Memory>
    ensures { IfOk result (λ done. found.new
        ≡ found.old ++ grammar.pattern subject.now predicate.now object ∷ []) }
{
    let subject = subject.copy(alloc)?;
    let predicate = predicate.copy(alloc)?;
    found.push(Pattern {
        subject,
        predicate,
        object,
    })
}

/// The objects that follow the first, each behind a comma.
fn object_rest(
    alloc: Global,
    cursor: &mut Cursor<'_>,
    subject: &Place,
    predicate: &Place,
    found: &mut Items<Pattern>,
) -> Result<(), Fault>
    ensures { Reads (λ done. found.new)
        (spec.object_rest subject.now predicate.now found.old cursor.old) result cursor.new }
{
    for _turn in 0..cursor.left() {
        match cursor.peek() {
            Some(Shape::Comma) => {
                cursor.advance();
                let object = node(alloc, cursor)?;
                push_pattern(alloc, found, subject, predicate, object)?;
            }
            _ => return Ok(()),
        }
    }
    Ok(())
}

/// The objects of a subject and a predicate.
#[tactic(auto, unfolding(crate::specs::TripleReading::objects))]
fn objects(
    alloc: Global,
    cursor: &mut Cursor<'_>,
    subject: &Place,
    predicate: &Place,
    found: &mut Items<Pattern>,
) -> Result<(), Fault>
    ensures { Reads (λ done. found.new)
        (spec.objects subject.now predicate.now found.old cursor.old) result cursor.new }
{
    let object = node(alloc, cursor)?;
    push_pattern(alloc, found, subject, predicate, object)?;
    object_rest(alloc, cursor, subject, predicate, found)
}

/// What follows a semicolon: a predicate and its objects, or nothing.
#[tactic(auto, unfolding(crate::specs::TripleReading::property))]
fn property(
    alloc: Global,
    cursor: &mut Cursor<'_>,
    subject: &Place,
    found: &mut Items<Pattern>,
) -> Result<(), Fault>
    ensures { Reads (λ done. found.new)
        (spec.property subject.now found.old cursor.old) result cursor.new }
{
    if begins_verb(cursor.peek()) {
        let predicate = verb(alloc, cursor)?;
        objects(alloc, cursor, subject, &predicate, found)
    } else {
        Ok(())
    }
}

/// The predicates that follow the first, each behind a semicolon.
fn property_rest(
    alloc: Global,
    cursor: &mut Cursor<'_>,
    subject: &Place,
    found: &mut Items<Pattern>,
) -> Result<(), Fault>
    ensures { Reads (λ done. found.new)
        (spec.property_rest subject.now found.old cursor.old) result cursor.new }
{
    for _turn in 0..cursor.left() {
        match cursor.peek() {
            Some(Shape::Semicolon) => {
                cursor.advance();
                property(alloc, cursor, subject, found)?;
            }
            _ => return Ok(()),
        }
    }
    Ok(())
}

/// The patterns of one subject, added to those that were found.
#[tactic(auto, unfolding(crate::specs::TripleReading::same))]
fn same_subject(
    alloc: Global,
    cursor: &mut Cursor<'_>,
    found: &mut Items<Pattern>,
) -> Result<(), Fault>
    ensures { Reads (λ done. found.new) (spec.same found.old cursor.old) result cursor.new }
{
    let subject = node(alloc, cursor)?;
    let predicate = verb(alloc, cursor)?;
    objects(alloc, cursor, &subject, &predicate, found)?;
    property_rest(alloc, cursor, &subject, found)
}

/// Patterns with points between, and one behind them or none.
fn block(alloc: Global, cursor: &mut Cursor<'_>) -> Result<Items<Pattern>, Fault>
    ensures { Reads same (spec.block cursor.old) result cursor.new }
{
    let mut found = Items::new(alloc);
    for _turn in 0..cursor.left() {
        same_subject(alloc, cursor, &mut found)?;
        match cursor.peek() {
            Some(Shape::Point) => {
                cursor.advance();
                if !begins_node(cursor.peek()) {
                    return Ok(found);
                }
            }
            _ => return Ok(found),
        }
    }
    Err(Fault::NotAQuery)
}

/// Triple patterns, if any stand there.
#[tactic(auto, unfolding(crate::specs::TripleReading::triples))]
pub fn triples(alloc: Global, cursor: &mut Cursor<'_>) -> Result<Option<Element>, Fault>
    ensures { Reads elements_there (spec.triples cursor.old) result cursor.new }
{
    if begins_node(cursor.peek()) {
        let found = block(alloc, cursor)?;
        Ok(Some(Element::triples(found)))
    } else {
        Ok(None)
    }
}
