//! Whether terms are one, equal or less.

ghost use Rattle.std.specs.Prelude.{◌≡◌, IfOk, []};
ghost use Rattle.term_core.specs.Mappings.{same_term};
ghost use Rattle.value_table.specs.Values as values;
ghost use Rattle.sparql_value.specs.Operators as operators;
ghost use Rattle.expr_eval.specs.Founds.{term_of, IsKeptFound};
ghost use Rattle.expr_eval.specs.Parts.{parts_term, IsWhole};
ghost use Rattle.expr_eval.specs.Answers.{Evaluates};

use crate::ExprError;
use crate::found::{Found, copied, value_of_found};
use expr_value::compare_values;
use sparql_tree::CompareOp;
use std::alloc::Global;
use std::cmp::Ordering;
use term_core::{Memory, Term, XSD_BOOLEAN, XSD_STRING};

/// A term by its texts, which stand elsewhere.
#[derive(Clone, Copy)]
pub enum Parts<'a> {
    Iri(&'a str),
    Blank(&'a str),
    Literal {
        lexical: &'a str,
        datatype: &'a str,
        lang: &'a str,
    },
}

/// The texts of a term.
fn parts_of_term(term: &Term) -> Parts<'_>
    ensures { parts_term result ≡ term.now }
{
    match term {
        Term::Iri(iri) => Parts::Iri(iri.as_str()),
        Term::Blank(label) => Parts::Blank(label.as_str()),
        Term::Literal {
            lexical,
            datatype,
            lang,
        } => Parts::Literal {
            lexical: lexical.as_str(),
            datatype: datatype.as_str(),
            lang: lang.as_str(),
        },
    }
}

/// A literal without a tag.
fn untagged<'a>(lexical: &'a str, datatype: &'a str) -> Parts<'a>
    ensures { parts_term result ≡ Term.Literal lexical.now datatype.now [] }
{
    Parts::Literal {
        lexical,
        datatype,
        lang: "",
    }
}

/// The texts of a term; None exactly of a number that was computed, which has no text yet.
fn parts_of<'a>(found: &'a Found<'_>) -> Option<Parts<'a>>
    ensures { IsWhole (term_of found.now) result }
{
    match found {
        Found::Held(term) => Some(parts_of_term(term)),
        Found::Number(_) => None,
        Found::Truth(true) => Some(untagged("true", XSD_BOOLEAN)),
        Found::Truth(false) => Some(untagged("false", XSD_BOOLEAN)),
        Found::Text(text) => Some(untagged(text, XSD_STRING)),
        Found::Iri(iri) => Some(Parts::Iri(iri)),
        Found::Made(term) => Some(parts_of_term(term)),
    }
}

/// Whether the texts are those of one term.
fn same_parts(a: Parts, b: Parts) -> bool
    ensures { result ≡ same_term (parts_term a.entry) (parts_term b.entry) }
{
    match (a, b) {
        (Parts::Iri(a), Parts::Iri(b)) => a.cmp(b).is_eq(),
        (Parts::Blank(a), Parts::Blank(b)) => a.cmp(b).is_eq(),
        (
            Parts::Literal {
                lexical,
                datatype,
                lang,
            },
            Parts::Literal {
                lexical: lexical_b,
                datatype: datatype_b,
                lang: lang_b,
            },
        ) => lexical
            .cmp(lexical_b)
            .then(datatype.cmp(datatype_b).then(lang.cmp(lang_b)))
            .is_eq(),
        _ => false,
    }
}

/// Whether the terms are one, by terms of their own.
fn same_copied(alloc: Global, a: &Found, b: &Found) -> Result<bool, Memory>
    requires a_kept { IsKeptFound a.now }
    requires b_kept { IsKeptFound b.now }
    ensures { IfOk result (λ same. same ≡ same_term (term_of a.now) (term_of b.now)) }
{
    let a = copied(alloc, a)?;
    let b = copied(alloc, b)?;
    Ok(a == b)
}

/// Whether the terms are one (SPARQL 1.1, section 17.4.1.8). Memory is taken only where one is a
/// number that was computed.
pub fn same(alloc: Global, a: &Found, b: &Found) -> Result<bool, Memory>
    requires a_kept { IsKeptFound a.now }
    requires b_kept { IsKeptFound b.now }
    ensures { IfOk result (λ same. same ≡ same_term (term_of a.now) (term_of b.now)) }
{
    match (parts_of(a), parts_of(b)) {
        (Some(a), Some(b)) => Ok(same_parts(a, b)),
        _ => same_copied(alloc, a, b),
    }
}

/// Whether the term is a literal.
pub fn is_literal(found: &Found) -> bool
    ensures { result ≡ values.is_literal (term_of found.now) }
{
    match found {
        Found::Held(term) => matches!(term, Term::Literal { .. }),
        Found::Made(term) => matches!(term, Term::Literal { .. }),
        Found::Number(_) => true,
        Found::Truth(_) => true,
        Found::Text(_) => true,
        Found::Iri(_) => false,
    }
}

/// The order of the values, where they have one.
fn order_of(a: &Found, b: &Found) -> Option<Ordering>
    requires a_kept { IsKeptFound a.now }
    requires b_kept { IsKeptFound b.now }
    ensures { result ≡ values.value_cmp (values.value_of (term_of a.now)) (values.value_of (term_of b.now)) }
{
    compare_values(&value_of_found(a), &value_of_found(b))
}

/// Equality of terms whose values have no order.
fn same_or_unknown(alloc: Global, a: &Found, b: &Found) -> Result<bool, ExprError>
    requires a_kept { IsKeptFound a.now }
    requires b_kept { IsKeptFound b.now }
    ensures { Evaluates (values.same_or_unknown (term_of a.now) (term_of b.now)) result }
{
    if same(alloc, a, b)? {
        Ok(true)
    } else if is_literal(a) && is_literal(b) {
        Err(ExprError::Error)
    } else {
        Ok(false)
    }
}

/// `a = b`
pub fn equal(alloc: Global, a: &Found, b: &Found) -> Result<bool, ExprError>
    requires a_kept { IsKeptFound a.now }
    requires b_kept { IsKeptFound b.now }
    ensures { Evaluates (values.equal (term_of a.now) (term_of b.now)) result }
{
    match order_of(a, b) {
        Some(order) => Ok(order.is_eq()),
        None => same_or_unknown(alloc, a, b),
    }
}

/// `a < b`
fn less(a: &Found, b: &Found) -> Result<bool, ExprError>
    requires a_kept { IsKeptFound a.now }
    requires b_kept { IsKeptFound b.now }
    ensures { Evaluates (values.less (term_of a.now) (term_of b.now)) result }
{
    match order_of(a, b) {
        Some(order) => Ok(order.is_lt()),
        None => Err(ExprError::Error),
    }
}

/// A comparison (SPARQL 1.1, section 17.3): `a <= b` is not `b < a`, and so on.
pub fn compare(alloc: Global, op: CompareOp, a: &Found, b: &Found) -> Result<bool, ExprError>
    requires a_kept { IsKeptFound a.now }
    requires b_kept { IsKeptFound b.now }
    ensures { Evaluates (operators.comparison op (Some (term_of a.now)) (Some (term_of b.now))) result }
{
    match op {
        CompareOp::Eq => equal(alloc, a, b),
        CompareOp::Ne => Ok(!equal(alloc, a, b)?),
        CompareOp::Lt => less(a, b),
        CompareOp::Gt => less(b, a),
        CompareOp::Le => Ok(!less(b, a)?),
        CompareOp::Ge => Ok(!less(a, b)?),
    }
}
