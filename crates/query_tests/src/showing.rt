//! What a text is read as, as a text: its tree, or why it is refused.

use sparql_read::read_tree;
use sparql_tree::{
    Element, Expr, Factor, Group, GroupKey, OrderKey, Query, QueryFault, SelectItem, Signed, Size,
};
use std::alloc::{AllocError, Global};
use std::test::Fail;
use term_core::{Pattern, Place, Row, Term, Text};

const XSD: &str = "http://www.w3.org/2001/XMLSchema#";

/// A term: `<iri>`, `_:label`, `'form'`, `'form'@tag`, `form:type` of XML Schema, or `'form'^<type>`.
fn show_term(out: &mut String, term: &Term) -> Result<(), AllocError> {
    match term {
        Term::Iri(iri) => push3(out, "<", iri.as_str(), ">"),
        Term::Blank(label) => push3(out, "_:", label.as_str(), ""),
        Term::Literal {
            lexical,
            datatype,
            lang,
        } => {
            if !lang.bytes().is_empty() {
                push3(out, "'", lexical.as_str(), "'@")?;
                return out.push_str(lang.as_str());
            }
            match datatype.as_str().strip_prefix(XSD) {
                Some("string") => push3(out, "'", lexical.as_str(), "'"),
                Some(name) => push3(out, lexical.as_str(), ":", name),
                None => {
                    push3(out, "'", lexical.as_str(), "'^<")?;
                    push3(out, datatype.as_str(), ">", "")
                }
            }
        }
    }
}

fn push3(out: &mut String, a: &str, b: &str, c: &str) -> Result<(), AllocError> {
    out.push_str(a)?;
    out.push_str(b)?;
    out.push_str(c)
}

/// How an expression begins: a whole variable or term, or what it is.
fn show_head(alloc: Global, out: &mut String, e: &Expr) -> Result<(), AllocError> {
    match e {
        Expr::Var(name) => push3(out, "?", name.as_str(), ""),
        Expr::Const(term) => show_term(out, term),
        Expr::Or(_) => out.push_str("(||"),
        Expr::And(_) => out.push_str("(&&"),
        Expr::Not(_) => out.push_str("(!"),
        Expr::Plus(_) => out.push_str("(+"),
        Expr::Minus(_) => out.push_str("(-"),
        Expr::Compare { op, .. } => out.push_str(format!(in alloc; "({op:?}")?.as_str()),
        Expr::OneOf { negated, .. } => out.push_str(if *negated { "(not in" } else { "(in" }),
        Expr::Sum { .. } => out.push('('),
        Expr::Product { .. } => out.push('('),
        Expr::Call { function, .. } => out.push_str(format!(in alloc; "({function:?}")?.as_str()),
        Expr::Aggregate {
            kind,
            distinct,
            argument,
        } => {
            let once = if *distinct { " distinct" } else { "" };
            let all = if argument.is_none() { " *" } else { "" };
            out.push_str(format!(in alloc; "({kind:?}{once}{all}")?.as_str())
        }
    }
}

#[cycle(show)]
fn show_list(alloc: Global, out: &mut String, values: &[Expr]) -> Result<(), AllocError> {
    for value in values {
        show_expr(alloc, out, " ", value)?;
    }
    out.push(')')
}

#[cycle(show)]
fn show_signed(alloc: Global, out: &mut String, rest: &[Signed]) -> Result<(), AllocError> {
    for signed in rest {
        let sign = if signed.minus { " -" } else { " +" };
        show_expr(alloc, out, sign, &signed.value)?;
    }
    out.push(')')
}

#[cycle(show)]
fn show_factors(alloc: Global, out: &mut String, rest: &[Factor]) -> Result<(), AllocError> {
    for factor in rest {
        let sign = if factor.divide { " /" } else { " *" };
        show_expr(alloc, out, sign, &factor.value)?;
    }
    out.push(')')
}

#[cycle(show)]
fn show_last(alloc: Global, out: &mut String, value: &Expr) -> Result<(), AllocError> {
    show_expr(alloc, out, " ", value)?;
    out.push(')')
}

#[cycle(show)]
fn show_expr(alloc: Global, out: &mut String, before: &str, e: &Expr) -> Result<(), AllocError> {
    out.push_str(before)?;
    show_head(alloc, out, e)?;
    match e {
        Expr::Var(_) => Ok(()),
        Expr::Const(_) => Ok(()),
        Expr::Or(parts) => show_list(alloc, out, parts),
        Expr::And(parts) => show_list(alloc, out, parts),
        Expr::Not(value) => show_last(alloc, out, value),
        Expr::Plus(value) => show_last(alloc, out, value),
        Expr::Minus(value) => show_last(alloc, out, value),
        Expr::Compare { left, right, .. } => {
            show_expr(alloc, out, " ", left)?;
            show_last(alloc, out, right)
        }
        Expr::OneOf { left, items, .. } => {
            show_expr(alloc, out, " ", left)?;
            show_list(alloc, out, items)
        }
        Expr::Sum { first, rest } => {
            show_expr(alloc, out, "", first)?;
            show_signed(alloc, out, rest)
        }
        Expr::Product { first, rest } => {
            show_expr(alloc, out, "", first)?;
            show_factors(alloc, out, rest)
        }
        Expr::Call { arguments, .. } => show_list(alloc, out, arguments),
        Expr::Aggregate { argument, .. } => match argument {
            None => out.push(')'),
            Some(argument) => show_last(alloc, out, argument),
        },
    }
}

fn show_place(out: &mut String, place: &Place) -> Result<(), AllocError> {
    out.push(' ')?;
    match place {
        Place::Var(name) => push3(out, "?", name.as_str(), ""),
        Place::Blank(label) => push3(out, "_:", label.as_str(), ""),
        Place::Term(term) => show_term(out, term),
    }
}

fn show_pattern(out: &mut String, p: &Pattern) -> Result<(), AllocError> {
    out.push_str(" [")?;
    show_place(out, &p.subject)?;
    show_place(out, &p.predicate)?;
    show_place(out, &p.object)?;
    out.push(']')
}

fn show_row(out: &mut String, row: &Row) -> Result<(), AllocError> {
    out.push_str(" [")?;
    for (name, term) in row.entries() {
        push3(out, " ", name.as_str(), "=")?;
        show_term(out, term)?;
    }
    out.push(']')
}

fn show_patterns(out: &mut String, patterns: &[Pattern]) -> Result<(), AllocError> {
    out.push_str("(bgp")?;
    for pattern in patterns {
        show_pattern(out, pattern)?;
    }
    out.push(')')
}

fn show_values(out: &mut String, variables: &[Text], rows: &[Row]) -> Result<(), AllocError> {
    out.push_str("(values")?;
    for variable in variables {
        push3(out, " ?", variable.as_str(), "")?;
    }
    show_rows(out, rows)
}

fn show_rows(out: &mut String, rows: &[Row]) -> Result<(), AllocError> {
    for row in rows {
        show_row(out, row)?;
    }
    out.push(')')
}

fn show_bind(
    alloc: Global,
    out: &mut String,
    variable: &Text,
    value: &Expr,
) -> Result<(), AllocError> {
    push3(out, "(bind ?", variable.as_str(), "")?;
    show_last(alloc, out, value)
}

fn show_filter(alloc: Global, out: &mut String, value: &Expr) -> Result<(), AllocError> {
    out.push_str("(filter")?;
    show_last(alloc, out, value)
}

#[cycle(show_group)]
fn show_group(alloc: Global, out: &mut String, group: &Group) -> Result<(), AllocError> {
    out.push('{')?;
    for element in &group.elements {
        out.push(' ')?;
        show_element(alloc, out, element)?;
    }
    out.push_str(" }")
}

#[cycle(show_group)]
fn show_union(alloc: Global, out: &mut String, groups: &[Group]) -> Result<(), AllocError> {
    out.push_str("(union")?;
    for group in groups {
        out.push(' ')?;
        show_group(alloc, out, group)?;
    }
    out.push(')')
}

#[cycle(show_group)]
fn show_element(alloc: Global, out: &mut String, element: &Element) -> Result<(), AllocError> {
    match element {
        Element::Triples(patterns) => show_patterns(out, patterns.as_slice()),
        Element::Groups(groups) => show_union(alloc, out, groups),
        Element::Optional(group) => {
            out.push_str("optional ")?;
            show_group(alloc, out, group)
        }
        Element::Minus(group) => {
            out.push_str("minus ")?;
            show_group(alloc, out, group)
        }
        Element::Filter(value) => show_filter(alloc, out, value),
        Element::Bind { value, variable } => show_bind(alloc, out, variable, value),
        Element::Values { variables, rows } => {
            show_values(out, variables.as_slice(), rows.as_slice())
        }
    }
}

fn show_item(alloc: Global, out: &mut String, item: &SelectItem) -> Result<(), AllocError> {
    push3(out, "?", item.variable.as_str(), "")?;
    match &item.value {
        None => {}
        Some(value) => show_expr(alloc, out, "=", value)?,
    }
    out.push(' ')
}

fn show_items(alloc: Global, out: &mut String, items: &[SelectItem]) -> Result<(), AllocError> {
    for item in items {
        show_item(alloc, out, item)?;
    }
    Ok(())
}

fn show_key(alloc: Global, out: &mut String, key: &GroupKey) -> Result<(), AllocError> {
    show_expr(alloc, out, " by ", &key.value)?;
    match &key.variable {
        None => Ok(()),
        Some(name) => push3(out, " as ?", name.as_str(), ""),
    }
}

fn show_keys(alloc: Global, out: &mut String, keys: &[GroupKey]) -> Result<(), AllocError> {
    for key in keys {
        show_key(alloc, out, key)?;
    }
    Ok(())
}

fn show_having(alloc: Global, out: &mut String, conditions: &[Expr]) -> Result<(), AllocError> {
    for condition in conditions {
        show_expr(alloc, out, " having ", condition)?;
    }
    Ok(())
}

fn show_order(alloc: Global, out: &mut String, keys: &[OrderKey]) -> Result<(), AllocError> {
    for key in keys {
        let direction = if key.descending { " desc " } else { " asc " };
        show_expr(alloc, out, direction, &key.value)?;
    }
    Ok(())
}

fn show_slice(
    alloc: Global,
    out: &mut String,
    limit: Option<u64>,
    offset: u64,
) -> Result<(), AllocError> {
    if let Some(limit) = limit {
        out.push_str(format!(in alloc; " limit {limit}")?.as_str())?;
    }
    if offset == 0 {
        return Ok(());
    }
    out.push_str(format!(in alloc; " offset {offset}")?.as_str())
}

/// What is selected, and the group.
fn show_selection(alloc: Global, out: &mut String, query: &Query) -> Result<(), AllocError> {
    out.push_str(if query.distinct { "distinct " } else { "" })?;
    out.push_str(if query.star { "* " } else { "" })?;
    show_items(alloc, out, query.items.as_slice())?;
    show_group(alloc, out, &query.body)
}

/// What follows the group.
fn show_modifiers(alloc: Global, out: &mut String, query: &Query) -> Result<(), AllocError> {
    show_keys(alloc, out, query.keys.as_slice())?;
    show_having(alloc, out, query.having.as_slice())?;
    show_order(alloc, out, query.order.as_slice())?;
    show_slice(alloc, out, query.limit, query.offset)
}

fn show_query(alloc: Global, query: &Query) -> Result<String, AllocError> {
    let mut out = String::new(alloc);
    show_selection(alloc, &mut out, query)?;
    show_modifiers(alloc, &mut out, query)?;
    Ok(out)
}

/// The refusal: `!lex` and a place, `!what` and a token, the limit that is passed, or `!query`.
pub(crate) fn shown_fault(alloc: Global, fault: QueryFault) -> Result<String, AllocError> {
    match fault {
        QueryFault::Lex { at } => format!(in alloc; "!lex {at}"),
        QueryFault::Unsupported { what } => format!(in alloc; "!what {}", what.as_str()),
        QueryFault::TooLarge(Size::Text) => String::from_str(alloc, "!text"),
        QueryFault::TooLarge(Size::Nesting) => String::from_str(alloc, "!nesting"),
        QueryFault::NotAQuery => String::from_str(alloc, "!query"),
        _ => String::from_str(alloc, "!"),
    }
}

/// The tree of a text, or why it is refused.
pub(crate) fn shown(alloc: Global, text: &[u8]) -> Result<String, AllocError> {
    match read_tree(alloc, text) {
        Ok(query) => show_query(alloc, &query),
        Err(fault) => shown_fault(alloc, fault),
    }
}

/// A text of a front, of a piece so often, and of what stands behind.
pub(crate) fn repeated(
    alloc: Global,
    front: &[u8],
    times: u32,
    piece: &[u8],
    behind: &[u8],
) -> Result<Vec<u8>, AllocError> {
    let mut text = Vec::from_slice(alloc, front)?;
    for _ in 0..times {
        text.extend_from_slice(piece)?;
    }
    text.extend_from_slice(behind)?;
    Ok(text)
}

/// The text between two others.
fn between(alloc: Global, around: (&str, &str), inner: &str) -> Result<String, AllocError> {
    let (front, back) = around;
    let mut whole = String::new(alloc);
    push3(&mut whole, front, inner, back)?;
    Ok(whole)
}

/// Fails, with what is found in the line, where that is not what is expected of it.
pub(crate) fn expect(alloc: Global, line: &str, found: &str, expected: &str) -> Result<(), Fail> {
    if found == expected {
        return Ok(());
    }
    Err(between(alloc, (line, found), " is read as ")?)?
}

/// Fails at the first of the lines whose text, between two others, is not read as the tree behind its
/// arrow, between two others. A line without an arrow is to be no query.
pub(crate) fn expect_trees(
    alloc: Global,
    lines: &str,
    around: (&str, &str),
    around_tree: (&str, &str),
) -> Result<(), Fail> {
    for line in lines.lines() {
        let (text, tree) = match line.split_once(" => ") {
            Some((text, tree)) => (text, between(alloc, around_tree, tree)?),
            None => (line, String::from_str(alloc, "!query")?),
        };
        let whole = between(alloc, around, text)?;
        let found = shown(alloc, whole.as_bytes())?;
        expect(alloc, line, found.as_str(), tree.as_str())?;
    }
    Ok(())
}
