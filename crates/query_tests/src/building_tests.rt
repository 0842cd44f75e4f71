//! Trees are made and copied where there is memory.

use sparql_tree::{
    AggregateKind, Algebra, CompareOp, Element, Expr, Factor, Function, Group, GroupKey, OrderKey,
    Query, SelectItem, Signed,
};
use std::alloc::Global;
use std::test::Fail;
use term_core::{Items, Memory, Row, Term, Text};

/// Kinds of expressions.
const EXPRESSIONS: [&str; 12] = [
    "and",
    "or",
    "not",
    "plus",
    "minus",
    "sum",
    "product",
    "compare",
    "one of",
    "call",
    "aggregate",
    "aggregate of all",
];

/// Operators.
const OPERATORS: [&str; 8] = [
    "bgp",
    "join",
    "left join",
    "union",
    "minus",
    "filter",
    "extend",
    "table",
];

fn variable(alloc: Global) -> Result<Expr, Memory> {
    Ok(Expr::Var(Text::from_str(alloc, "a")?))
}

fn iri(alloc: Global) -> Result<Expr, Memory> {
    Ok(Expr::Const(Term::Iri(Text::from_str(alloc, "x:y")?)))
}

fn two(alloc: Global) -> Result<Vec<Expr>, Memory> {
    let mut parts = Vec::new(alloc);
    parts.push(variable(alloc)?)?;
    parts.push(iri(alloc)?)?;
    Ok(parts)
}

fn signed(alloc: Global) -> Result<Vec<Signed>, Memory> {
    let mut rest = Vec::new(alloc);
    let value = variable(alloc)?;
    rest.push(Signed { minus: true, value })?;
    Ok(rest)
}

fn factors(alloc: Global) -> Result<Vec<Factor>, Memory> {
    let mut rest = Vec::new(alloc);
    let value = variable(alloc)?;
    rest.push(Factor {
        divide: true,
        value,
    })?;
    Ok(rest)
}

fn sum(alloc: Global) -> Result<Expr, Memory> {
    let rest = signed(alloc)?;
    Expr::sum(alloc, variable(alloc)?, rest)
}

fn product(alloc: Global) -> Result<Expr, Memory> {
    let rest = factors(alloc)?;
    Expr::product(alloc, variable(alloc)?, rest)
}

fn compared(alloc: Global) -> Result<Expr, Memory> {
    let left = variable(alloc)?;
    Expr::compare(alloc, CompareOp::Le, left, iri(alloc)?)
}

fn one_of(alloc: Global) -> Result<Expr, Memory> {
    let items = two(alloc)?;
    Expr::one_of(alloc, variable(alloc)?, items, true)
}

fn expression(alloc: Global, kind: &str) -> Result<Expr, Memory> {
    match kind {
        "and" => Ok(Expr::and(two(alloc)?)),
        "or" => Ok(Expr::or(two(alloc)?)),
        "not" => Expr::not(alloc, variable(alloc)?),
        "plus" => Expr::plus(alloc, variable(alloc)?),
        "minus" => Expr::minus(alloc, variable(alloc)?),
        "sum" => sum(alloc),
        "product" => product(alloc),
        "compare" => compared(alloc),
        "one of" => one_of(alloc),
        "call" => Ok(Expr::call(Function::Concat, two(alloc)?)),
        "aggregate" => Expr::aggregate(alloc, AggregateKind::Sum, true, variable(alloc)?),
        _ => Ok(Expr::aggregate_all(AggregateKind::Count, false)),
    }
}

/// Whether an expression is of this kind.
fn is_of(kind: &str, e: &Expr) -> bool {
    match e {
        Expr::And(_) => kind == "and",
        Expr::Or(_) => kind == "or",
        Expr::Not(_) => kind == "not",
        Expr::Plus(_) => kind == "plus",
        Expr::Minus(_) => kind == "minus",
        Expr::Sum { .. } => kind == "sum",
        Expr::Product { .. } => kind == "product",
        Expr::Compare { .. } => kind == "compare",
        Expr::OneOf { .. } => kind == "one of",
        Expr::Call { .. } => kind == "call",
        Expr::Aggregate {
            argument: Some(_),
            ..
        } => kind == "aggregate",
        Expr::Aggregate { argument: None, .. } => kind == "aggregate of all",
        _ => false,
    }
}

fn is_copied(alloc: Global, kind: &str) -> Result<bool, Memory> {
    let copy = expression(alloc, kind)?.copy(alloc)?;
    Ok(is_of(kind, &copy))
}

#[test]
fn makes_and_copies_each_kind(rt: HostRuntime) -> Result<(), Fail> {
    for &kind in EXPRESSIONS.as_slice() {
        let copied = is_copied(rt.alloc(), kind)?;
        assert!(rt; copied, "{kind}");
    }
    Ok(())
}

fn empty(alloc: Global) -> Algebra {
    Algebra::Bgp(Items::new(alloc))
}

fn operator(alloc: Global, kind: &str) -> Result<Algebra, Memory> {
    match kind {
        "bgp" => Ok(empty(alloc)),
        "join" => Algebra::join(alloc, empty(alloc), empty(alloc)),
        "left join" => Algebra::left_join(
            alloc,
            empty(alloc),
            empty(alloc),
            Some(variable(alloc)?),
        ),
        "union" => Algebra::union(alloc, empty(alloc), empty(alloc)),
        "minus" => Algebra::minus(alloc, empty(alloc), empty(alloc)),
        "filter" => Algebra::filter(alloc, variable(alloc)?, empty(alloc)),
        "extend" => extended(alloc),
        _ => Ok(Algebra::Table {
            variables: Items::new(alloc),
            rows: Items::new(alloc),
        }),
    }
}

fn extended(alloc: Global) -> Result<Algebra, Memory> {
    let name = Text::from_str(alloc, "b")?;
    Algebra::extend(alloc, empty(alloc), name, variable(alloc)?)
}

/// Whether an operator is of this kind.
fn is_operator(kind: &str, a: &Algebra) -> bool {
    match a {
        Algebra::Bgp(_) => kind == "bgp",
        Algebra::Join { .. } => kind == "join",
        Algebra::LeftJoin { condition, .. } => kind == "left join" && condition.is_some(),
        Algebra::Union { .. } => kind == "union",
        Algebra::Minus { .. } => kind == "minus",
        Algebra::Filter { .. } => kind == "filter",
        Algebra::Extend { .. } => kind == "extend",
        Algebra::Table { .. } => kind == "table",
    }
}

#[test]
fn makes_each_operator(rt: HostRuntime) -> Result<(), Fail> {
    for &kind in OPERATORS.as_slice() {
        let made = operator(rt.alloc(), kind)?;
        assert!(rt; is_operator(kind, &made), "{kind}");
    }
    Ok(())
}

fn none(alloc: Global) -> Group {
    Group::new(Vec::new(alloc))
}

fn groups(alloc: Global) -> Result<Vec<Group>, Memory> {
    let mut groups = Vec::new(alloc);
    groups.push(none(alloc))?;
    Ok(groups)
}

fn rows(alloc: Global) -> Result<Items<Row>, Memory> {
    let mut rows = Items::new(alloc);
    rows.push(Row::empty(alloc))?;
    Ok(rows)
}

fn bound(alloc: Global) -> Result<Element, Memory> {
    let name = Text::from_str(alloc, "b")?;
    Ok(Element::bind(variable(alloc)?, name))
}

fn values(alloc: Global) -> Result<Element, Memory> {
    let rows = rows(alloc)?;
    Ok(Element::values(Items::new(alloc), rows))
}

/// A part of a group, by its number.
fn part(alloc: Global, number: u32) -> Result<Element, Memory> {
    match number {
        0 => Ok(Element::triples(Items::new(alloc))),
        1 => Ok(Element::union(groups(alloc)?)),
        2 => Ok(Element::optional(none(alloc))),
        3 => Ok(Element::minus(none(alloc))),
        4 => Ok(Element::filter(variable(alloc)?)),
        5 => bound(alloc),
        _ => values(alloc),
    }
}

/// A group with a part of each of the seven kinds.
fn every_part(alloc: Global) -> Result<Group, Memory> {
    let mut elements = Vec::new(alloc);
    for number in 0..7 {
        let part = part(alloc, number)?;
        elements.push(part)?;
    }
    Ok(Group::new(elements))
}

/// The query of all variables of a group.
fn query_of(alloc: Global, body: Group) -> Query {
    Query {
        distinct: false,
        star: true,
        items: Items::<SelectItem>::new(alloc),
        body,
        keys: Items::<GroupKey>::new(alloc),
        having: Items::<Expr>::new(alloc),
        order: Items::<OrderKey>::new(alloc),
        limit: None,
        offset: 0,
    }
}

#[test]
fn makes_each_part(rt: HostRuntime) -> Result<(), Fail> {
    let group = every_part(rt.alloc())?;
    let query = query_of(rt.alloc(), group);
    assert!(rt; query.body.elements.len() == 7);
    Ok(())
}
