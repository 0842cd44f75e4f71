//! Rows written as text, and rows compared.

use sparql_tree::{CompareOp, Expr};
use std::alloc::Global;
use term_core::{Items, Memory, Row, Term, Text, XSD_INTEGER};

/// The integer of digits, or else the string of a text.
fn term(alloc: Global, text: &str) -> Result<Term, Memory> {
    let lexical = Text::from_str(alloc, text)?;
    match text.as_bytes() {
        [b'0'..=b'9', ..] => integer(alloc, lexical),
        _ => Term::plain(alloc, lexical),
    }
}

fn integer(alloc: Global, lexical: Text) -> Result<Term, Memory> {
    let datatype = Text::from_str(alloc, XSD_INTEGER)?;
    Term::typed(alloc, lexical, datatype)
}

/// Binds a name to a term in a row.
pub fn bind(alloc: Global, row: &mut Row, name: &str, value: &str) -> Result<(), Memory> {
    let term = term(alloc, value)?;
    let name = Text::from_str(alloc, name)?;
    row.set(name, term)
}

/// The row of bindings such as `s=a v=1`.
fn row(alloc: Global, text: &str) -> Result<Row, Memory> {
    let mut row = Row::empty(alloc);
    for binding in text.split(' ') {
        let (name, value) = binding.split_once('=').unwrap_or(("", ""));
        if !name.is_empty() {
            bind(alloc, &mut row, name, value)?;
        }
    }
    Ok(row)
}

/// The rows of a text, each ended by a semicolon.
pub fn rows(alloc: Global, text: &str) -> Result<Items<Row>, Memory> {
    let mut rows = Items::new(alloc);
    for line in text.split_terminator(';') {
        rows.push(row(alloc, line)?)?;
    }
    Ok(rows)
}

/// Whether each entry of a row stands in the other.
fn is_within(a: &Row, b: &Row) -> bool {
    for entry in a.entries() {
        if b.get(entry.0.bytes()) != Some(&entry.1) {
            return false;
        }
    }
    true
}

pub fn is_equal(a: &Row, b: &Row) -> bool {
    is_within(a, b) && is_within(b, a)
}

/// Whether two lists have equal rows in the same order.
pub fn are_equal(found: &[Row], wanted: &[Row]) -> bool {
    for (a, b) in found.iter().zip(wanted) {
        if !is_equal(a, b) {
            return false;
        }
    }
    found.len() == wanted.len()
}

/// The condition `?v > 1`.
pub fn above_one(alloc: Global) -> Result<Expr, Memory> {
    let one = Expr::Const(term(alloc, "1")?);
    let v = Expr::Var(Text::from_str(alloc, "v")?);
    Expr::compare(alloc, CompareOp::Gt, v, one)
}
