//! The algebra and splits as texts.

use nt_text::write_term;
use sparql_algebra::{Part, Split, Tree};
use sparql_print::print_expr;
use sparql_tree::{Algebra, Expr};
use std::alloc::Global;
use std::test::Fail;
use term_core::{Pattern, Place, Text};

fn show_place(alloc: Global, out: &mut String, place: &Place) -> Result<(), Fail> {
    match place {
        Place::Var(name) => {
            out.push('?')?;
            out.push_str(name.as_str())?;
        }
        Place::Blank(label) => {
            out.push_str("_:")?;
            out.push_str(label.as_str())?;
        }
        Place::Term(term) => out.push_str(write_term(alloc, term)?.as_str())?,
    }
    Ok(())
}

fn show_pattern(alloc: Global, out: &mut String, pattern: &Pattern) -> Result<(), Fail> {
    show_place(alloc, out, &pattern.subject)?;
    out.push(' ')?;
    show_place(alloc, out, &pattern.predicate)?;
    out.push(' ')?;
    show_place(alloc, out, &pattern.object)
}

fn show_patterns(alloc: Global, out: &mut String, patterns: &[Pattern]) -> Result<(), Fail> {
    let mut between = "";
    for pattern in patterns {
        out.push_str(between)?;
        show_pattern(alloc, out, pattern)?;
        between = " . ";
    }
    Ok(())
}

fn show_names(out: &mut String, names: &[Text]) -> Result<(), Fail> {
    let mut mark = "?";
    for name in names {
        out.push_str(mark)?;
        out.push_str(name.as_str())?;
        mark = " ?";
    }
    Ok(())
}

/// `NAME(A, B)`, or `NAME(A, B, E)` with a condition.
fn operator_text(
    alloc: Global,
    name: &str,
    left: &str,
    right: &str,
    condition: Option<&Expr>,
) -> Result<String, Fail> {
    let Some(condition) = condition else {
        return Ok(format!(in alloc; "{name}({left}, {right})")?);
    };
    let text = print_expr(alloc, condition)?;
    let condition = text.as_str();
    Ok(format!(in alloc; "{name}({left}, {right}, {condition})")?)
}

fn filter_text(alloc: Global, condition: &Expr, inner: &str) -> Result<String, Fail> {
    let text = print_expr(alloc, condition)?;
    let condition = text.as_str();
    Ok(format!(in alloc; "Filter({condition}, {inner})")?)
}

fn extend_text(alloc: Global, inner: &str, name: &Text, value: &Expr) -> Result<String, Fail> {
    let name = name.as_str();
    let text = print_expr(alloc, value)?;
    let value = text.as_str();
    Ok(format!(in alloc; "Extend({inner}, ?{name}, {value})")?)
}

fn table_text(alloc: Global, variables: &[Text], rows: usize) -> Result<String, Fail> {
    let mut names = String::new(alloc);
    show_names(&mut names, variables)?;
    Ok(format!(in alloc; "Table({names}; {rows})")?)
}

fn bgp_text(alloc: Global, patterns: &[Pattern]) -> Result<String, Fail> {
    let mut shown = String::new(alloc);
    show_patterns(alloc, &mut shown, patterns)?;
    Ok(format!(in alloc; "Bgp({shown})")?)
}

/// `Join(A, B)`, `Filter(E, A)` and so on.
pub fn algebra_text(alloc: Global, a: &Algebra) -> Result<String, Fail> {
    match a {
        Algebra::Bgp(patterns) => bgp_text(alloc, patterns.as_slice()),
        Algebra::Join(left, right) => {
            let left = algebra_text(alloc, left)?;
            let right = algebra_text(alloc, right)?;
            operator_text(alloc, "Join", left.as_str(), right.as_str(), None)
        }
        Algebra::LeftJoin {
            left,
            right,
            condition,
        } => {
            let left = algebra_text(alloc, left)?;
            let right = algebra_text(alloc, right)?;
            let condition = condition.as_ref();
            operator_text(alloc, "LeftJoin", left.as_str(), right.as_str(), condition)
        }
        Algebra::Minus(left, right) => {
            let left = algebra_text(alloc, left)?;
            let right = algebra_text(alloc, right)?;
            operator_text(alloc, "Minus", left.as_str(), right.as_str(), None)
        }
        Algebra::Union(left, right) => {
            let left = algebra_text(alloc, left)?;
            let right = algebra_text(alloc, right)?;
            operator_text(alloc, "Union", left.as_str(), right.as_str(), None)
        }
        Algebra::Filter { condition, inner } => {
            let inner = algebra_text(alloc, inner)?;
            filter_text(alloc, condition, inner.as_str())
        }
        Algebra::Extend {
            inner,
            variable,
            value,
        } => {
            let inner = algebra_text(alloc, inner)?;
            extend_text(alloc, inner.as_str(), variable, value)
        }
        Algebra::Table { variables, rows } => table_text(alloc, variables.as_slice(), rows.len()),
    }
}

/// As `algebra_text`, with the numbers of parts.
fn tree_text(alloc: Global, tree: &Tree) -> Result<String, Fail> {
    match tree {
        Tree::Part(number) => Ok(format!(in alloc; "{number}")?),
        Tree::Join(left, right) => {
            let left = tree_text(alloc, left)?;
            let right = tree_text(alloc, right)?;
            operator_text(alloc, "Join", left.as_str(), right.as_str(), None)
        }
        Tree::LeftJoin {
            left,
            right,
            condition,
        } => {
            let left = tree_text(alloc, left)?;
            let right = tree_text(alloc, right)?;
            let condition = condition.as_ref();
            operator_text(alloc, "LeftJoin", left.as_str(), right.as_str(), condition)
        }
        Tree::Minus(left, right) => {
            let left = tree_text(alloc, left)?;
            let right = tree_text(alloc, right)?;
            operator_text(alloc, "Minus", left.as_str(), right.as_str(), None)
        }
        Tree::Union(left, right) => {
            let left = tree_text(alloc, left)?;
            let right = tree_text(alloc, right)?;
            operator_text(alloc, "Union", left.as_str(), right.as_str(), None)
        }
        Tree::Filter { condition, inner } => {
            let inner = tree_text(alloc, inner)?;
            filter_text(alloc, condition, inner.as_str())
        }
        Tree::Extend {
            inner,
            variable,
            value,
        } => {
            let inner = tree_text(alloc, inner)?;
            extend_text(alloc, inner.as_str(), variable, value)
        }
    }
}

/// ` | TEXT [?name ..]`
fn show_part(out: &mut String, part: &Part) -> Result<(), Fail> {
    out.push_str(" | ")?;
    out.push_str(part.text.as_str())?;
    out.push_str(" [")?;
    show_names(out, part.variables.as_slice())?;
    out.push(']')?;
    Ok(())
}

/// A part's operators, its text and its variables.
pub fn part_text(alloc: Global, part: &Part) -> Result<String, Fail> {
    let mut out = algebra_text(alloc, &part.algebra)?;
    show_part(&mut out, part)?;
    Ok(out)
}

/// The tree, each part, and behind a last bar the variables of the answer.
pub fn split_text(alloc: Global, split: &Split) -> Result<String, Fail> {
    let mut out = tree_text(alloc, &split.tree)?;
    for part in split.parts.as_slice() {
        show_part(&mut out, part)?;
    }
    out.push_str(" | ")?;
    show_names(&mut out, split.variables.as_slice())?;
    Ok(out)
}
