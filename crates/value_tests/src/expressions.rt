//! Each expression of `expression_cases.rt`, read from its text, has its value.

use crate::expression_cases::CASES;
use expr_eval::{ExprError, eval, truth_of};
use expr_value::truth;
use sparql_read::read_tree;
use sparql_tree::{Element, Expr, Query};
use std::alloc::{AllocError, Global};
use term_core::{Memory, Row, Term, Text};

/// A line of the table.
#[derive(Clone, Copy)]
struct Case<'a> {
    expression: &'a str,
    value: &'a str,
    bindings: &'a str,
}

fn case_of(line: &str) -> Case<'_> {
    let (expression, rest) = line.split_once(" => ").unwrap_or((line, ""));
    let (value, bindings) = rest.split_once(" WITH ").unwrap_or((rest, "UNDEF UNDEF"));
    Case {
        expression,
        value,
        bindings,
    }
}

/// A query that selects the expression and its value on the bindings.
fn query_of(alloc: Global, case: Case) -> Result<String, AllocError> {
    let expression = case.expression;
    let value = case.value;
    let bindings = case.bindings;
    format!(in alloc;
        "PREFIX x: <http://www.w3.org/2001/XMLSchema#> PREFIX e: <http://e/> \
        SELECT ({expression} AS ?a) ({value} AS ?v) {{ VALUES (?x ?y) {{ ({bindings}) }} }}"
    )
}

/// The row with `?b` bound to a blank node.
fn with_blank(alloc: Global, row: &Row) -> Result<Row, Memory> {
    let mut row = row.copy(alloc)?;
    let name = Text::from_str(alloc, "b")?;
    let label = Text::from_str(alloc, "n")?;
    row.set(name, Term::Blank(label))?;
    Ok(row)
}

/// The row of the bindings.
fn row_of(alloc: Global, query: &Query) -> Result<Row, Memory> {
    match query.body.elements.as_slice() {
        [Element::Values { variables: _, rows }] => match rows.get(0) {
            Some(row) => with_blank(alloc, row),
            None => Ok(Row::empty(alloc)),
        },
        _ => Ok(Row::empty(alloc)),
    }
}

/// Whether the value is the term that stands here, or the error where its name stands here.
fn is_value(value: Result<Term, ExprError>, wanted: &Expr) -> bool {
    match (value, wanted) {
        (Ok(term), Expr::Const(wanted)) => term == *wanted,
        (Err(ExprError::Error), Expr::Const(Term::Iri(name))) => name.as_str() == "http://e/error",
        _ => false,
    }
}

/// Whether the truth is that of the term that stands here, and else false.
fn is_truth(found: Result<bool, Memory>, wanted: &Expr) -> bool {
    match (found, wanted) {
        (Ok(found), Expr::Const(wanted)) => found == truth(wanted).unwrap_or(false),
        _ => false,
    }
}

/// Whether the first item has the value and the truth that the second writes.
fn agrees(alloc: Global, query: &Query, row: &Row) -> bool {
    match query.items.as_slice() {
        [item, value] => match (&item.value, &value.value) {
            (Some(e), Some(wanted)) => {
                is_value(eval(alloc, e, row), wanted) && is_truth(truth_of(alloc, e, row), wanted)
            }
            _ => false,
        },
        _ => false,
    }
}

fn is_evaluated(alloc: Global, query: &Query) -> bool {
    match row_of(alloc, query) {
        Ok(row) => agrees(alloc, query, &row),
        Err(_) => false,
    }
}

fn holds(alloc: Global, case: Case) -> bool {
    match query_of(alloc, case) {
        Ok(text) => match read_tree(alloc, text.as_bytes()) {
            Ok(query) => is_evaluated(alloc, &query),
            Err(_) => false,
        },
        Err(_) => false,
    }
}

#[test]
fn expressions_have_their_values(rt: HostRuntime) {
    let mut count = 0u64;
    for line in CASES.lines() {
        assert!(rt; holds(rt.alloc(), case_of(line)), "{line}");
        count = count.saturating_add(1);
    }
    assert!(rt; count > 480);
}
