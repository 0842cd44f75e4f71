//! Values on the way: terms that stand elsewhere are borrowed, and numbers and truths are no terms yet.

ghost use Rattle.std.specs.Prelude.{◌≡◌, IfOk, IsTrue};
ghost use Rattle.term_core.specs.Numbers.{numerator, is_held, is_kept};
ghost use Rattle.xsd_num.specs.Values.{number_of};
ghost use Rattle.value_table.specs.Values as values;
ghost use Rattle.sparql_value.specs.MadeTerms as made;
ghost use Rattle.expr_value.specs.Views.{value_in, IsKeptValue};
ghost use Rattle.expr_eval.specs.Founds.{term_of, IsKeptFound};
ghost use Rattle.expr_eval.specs.Answers.{Evaluates, FindsNumber};

use crate::ExprError;
use expr_value::{Value, truth_of_value, value_of};
use std::alloc::Global;
use term_core::{Memory, Term, Text, XSD_BOOLEAN};
use xsd_num::{Num, write};

/// The value of an expression. It becomes a term of its own only where one is wanted.
#[derive(Drop)]
pub enum Found<'a> {
    /// A term of the expression or of the solution.
    Held(&'a Term),
    /// A number that was computed.
    Number(Num),
    /// A truth value that was computed.
    Truth(bool),
    /// A string without a tag, whose text stands elsewhere.
    Text(&'a str),
    /// An IRI that stands elsewhere.
    Iri(&'a str),
    /// A term that was made.
    Made(Term),
}

/// A number is within 128 bits.
fn holds(number: Num) -> bool
    ensures held { IsTrue (is_held (numerator (number_of number))) }
    ensures yes { IsTrue result }
{
    match number {
        Num::Whole(m) => m <= i128::MAX,
        Num::Decimal { m, .. } => m <= i128::MAX,
    }
}

/// A number that was computed.
pub fn computed<'a>(number: Num) -> Found<'a>
    requires { IsTrue (is_kept (number_of number)) }
    ensures exact { term_of result ≡ made.number_term (number_of number) }
    ensures kept { IsKeptFound result }
{
    prove!(holds(number));
    Found::Number(number)
}

/// What the term is to the operators.
#[tactic(auto, using(crate::proofs::MadeValues::made_values))]
pub fn value_of_found<'a>(found: &'a Found<'_>) -> Value<'a>
    requires { IsKeptFound found.now }
    ensures exact { value_in result ≡ values.value_of (term_of found.now) }
    ensures kept { IsKeptValue result }
{
    match found {
        Found::Held(term) => value_of(term),
        Found::Number(number) => Value::Numeric(*number),
        Found::Truth(truth) => Value::Logical(*truth),
        Found::Text(text) => Value::Simple(text),
        Found::Iri(_) => Value::Resource,
        Found::Made(term) => value_of(term),
    }
}

/// The truth of the term.
pub fn truth_of_found(found: &Found) -> Result<bool, ExprError>
    requires { IsKeptFound found.now }
    ensures { Evaluates (values.truth (term_of found.now)) result }
{
    Ok(truth_of_value(&value_of_found(found))?)
}

/// The number that the term is.
pub fn number_of_found(found: &Found) -> Result<Num, ExprError>
    requires { IsKeptFound found.now }
    ensures { FindsNumber (values.kept_number (values.value_of (term_of found.now))) result }
{
    match value_of_found(found) {
        Value::Numeric(number) => Ok(number),
        _ => Err(ExprError::Error),
    }
}

/// A truth value as a term.
fn boolean_term(alloc: Global, truth: bool) -> Result<Term, Memory>
    ensures { IfOk result (λ term. term ≡ made.boolean_term truth) }
{
    let text = if truth { "true" } else { "false" };
    let lexical = Text::from_str(alloc, text)?;
    let datatype = Text::from_str(alloc, XSD_BOOLEAN)?;
    Term::typed(alloc, lexical, datatype)
}

/// A text as a term: a string without a tag.
fn text_term(alloc: Global, text: &str) -> Result<Term, Memory>
    ensures { IfOk result (λ term. term ≡ made.simple_term text.now) }
{
    let lexical = Text::from_str(alloc, text)?;
    Term::plain(alloc, lexical)
}

/// The term, copied.
pub fn copied(alloc: Global, found: &Found) -> Result<Term, Memory>
    requires { IsKeptFound found.now }
    ensures { IfOk result (λ term. term ≡ term_of found.now) }
{
    match found {
        Found::Held(term) => term.copy(alloc),
        Found::Number(number) => write(alloc, *number),
        Found::Truth(truth) => boolean_term(alloc, *truth),
        Found::Text(text) => text_term(alloc, text),
        Found::Iri(iri) => Ok(Term::Iri(Text::from_str(alloc, iri)?)),
        Found::Made(term) => term.copy(alloc),
    }
}

/// The term, which is copied only where it stands elsewhere.
pub fn into_term(alloc: Global, found: Found) -> Result<Term, Memory>
    requires { IsKeptFound found }
    ensures { IfOk result (λ term. term ≡ term_of found.entry) }
{
    match found {
        Found::Made(term) => Ok(term),
        other => copied(alloc, &other),
    }
}
