//! Parts of queries and their texts, worked by hand (SPARQL 1.1, section 19.8), and what the texts are read as.

ghost use Rattle.std.specs.Prelude.{◌≡◌, true, IfOk};
ghost use Rattle.sparql_tree.specs.AlgebraTrees.{algebra_of};
ghost use Rattle.sparql_tree.specs.Algebra.{is_server, is_bgp};

use sparql_print::print_part;
use sparql_read::read_query;
use sparql_tree::{Algebra, CompareOp, Element, Expr};
use std::alloc::Global;
use term_core::{Items, Memory, Pattern, Place, Row, Term, Text};

fn variable(alloc: Global, name: &str) -> Result<Place, Memory> {
    Ok(Place::Var(Text::from_str(alloc, name)?))
}

fn iri(alloc: Global, iri: &str) -> Result<Term, Memory> {
    Ok(Term::Iri(Text::from_str(alloc, iri)?))
}

fn tagged(alloc: Global, lexical: &str, lang: &str) -> Result<Term, Memory> {
    Ok(Term::Literal {
        lexical: Text::from_str(alloc, lexical)?,
        datatype: Text::from_str(
            alloc,
            "http://www.w3.org/1999/02/22-rdf-syntax-ns#langString",
        )?,
        lang: Text::from_str(alloc, lang)?,
    })
}

/// `?s <a:p> O`.
fn pattern(alloc: Global, object: Place) -> Result<Pattern, Memory> {
    Ok(Pattern {
        subject: variable(alloc, "s")?,
        predicate: Place::Term(iri(alloc, "a:p")?),
        object,
    })
}

/// `?s <a:p> ?name .`
#[tactic(auto, unfolding(sparql_tree::specs::AlgebraTrees::algebra_of))]
fn bgp(alloc: Global, name: &str) -> Result<Algebra, Memory>
    ensures server { IfOk result (λ a. is_server (algebra_of a) ≡ true) }
    ensures bgp { IfOk result (λ a. is_bgp (algebra_of a) ≡ true) }
{
    let mut patterns = Items::new(alloc);
    patterns.push(pattern(alloc, variable(alloc, name)?)?)?;
    Ok(Algebra::Bgp(patterns))
}

/// `?s <a:p> _:b . ?s <a:p> "x"@en .`
#[tactic(auto, unfolding(sparql_tree::specs::AlgebraTrees::algebra_of))]
fn two_patterns(alloc: Global) -> Result<Algebra, Memory>
    ensures { IfOk result (λ a. is_server (algebra_of a) ≡ true) }
{
    let mut patterns = Items::new(alloc);
    patterns.push(pattern(alloc, Place::Blank(Text::from_str(alloc, "b")?))?)?;
    patterns.push(pattern(alloc, Place::Term(tagged(alloc, "x", "en")?))?)?;
    Ok(Algebra::Bgp(patterns))
}

#[tactic(auto, unfolding(sparql_tree::specs::AlgebraTrees::algebra_of))]
fn no_pattern(alloc: Global) -> Result<Algebra, Memory>
    ensures { IfOk result (λ a. is_server (algebra_of a) ≡ true) }
{
    Ok(Algebra::Bgp(Items::new(alloc)))
}

fn join(alloc: Global) -> Result<Algebra, Memory>
    ensures { IfOk result (λ a. is_server (algebra_of a) ≡ true) }
{
    let left = bgp(alloc, "a")?;
    let right = bgp(alloc, "b")?;
    Algebra::join(alloc, left, right)
}

fn union(alloc: Global) -> Result<Algebra, Memory>
    ensures { IfOk result (λ a. is_server (algebra_of a) ≡ true) }
{
    let left = bgp(alloc, "a")?;
    let right = bgp(alloc, "b")?;
    Algebra::union(alloc, left, right)
}

fn compared(alloc: Global) -> Result<Expr, Memory> {
    let left = Expr::Var(Text::from_str(alloc, "a")?);
    let right = Expr::Const(iri(alloc, "a:b")?);
    Expr::compare(alloc, CompareOp::Lt, left, right)
}

fn filter(alloc: Global) -> Result<Algebra, Memory>
    ensures { IfOk result (λ a. is_server (algebra_of a) ≡ true) }
{
    let condition = compared(alloc)?;
    let inner = bgp(alloc, "a")?;
    Algebra::filter(alloc, condition, inner)
}

fn bound(alloc: Global) -> Result<Algebra, Memory>
    ensures { IfOk result (λ a. is_server (algebra_of a) ≡ true) }
{
    let value = compared(alloc)?;
    let inner = bgp(alloc, "a")?;
    Algebra::extend(alloc, inner, Text::from_str(alloc, "v")?, value)
}

/// `<a:x>` for `?a`.
fn first_row(alloc: Global) -> Result<Row, Memory> {
    let mut row = Row::empty(alloc);
    row.set(Text::from_str(alloc, "a")?, iri(alloc, "a:x")?)?;
    Ok(row)
}

/// The same, with `"y"@en` for `?b`.
fn second_row(alloc: Global) -> Result<Row, Memory> {
    let mut row = first_row(alloc)?;
    row.set(Text::from_str(alloc, "b")?, tagged(alloc, "y", "en")?)?;
    Ok(row)
}

fn three_rows(alloc: Global) -> Result<Items<Row>, Memory> {
    let mut rows = Items::new(alloc);
    rows.push(first_row(alloc)?)?;
    rows.push(second_row(alloc)?)?;
    rows.push(Row::empty(alloc))?;
    Ok(rows)
}

fn two_names(alloc: Global) -> Result<Items<Text>, Memory> {
    let mut names = Items::new(alloc);
    names.push(Text::from_str(alloc, "b")?)?;
    names.push(Text::from_str(alloc, "a")?)?;
    Ok(names)
}

/// `VALUES ( ?b ?a ) { ( UNDEF <a:x> ) ( "y"@en <a:x> ) ( UNDEF UNDEF ) }`
#[tactic(auto, unfolding(sparql_tree::specs::AlgebraTrees::algebra_of))]
fn table(alloc: Global) -> Result<Algebra, Memory>
    ensures { IfOk result (λ a. is_server (algebra_of a) ≡ true) }
{
    let variables = two_names(alloc)?;
    Ok(Algebra::Table {
        variables,
        rows: three_rows(alloc)?,
    })
}

/// A table without variables, of one row.
#[tactic(auto, unfolding(sparql_tree::specs::AlgebraTrees::algebra_of))]
fn table_of_none(alloc: Global) -> Result<Algebra, Memory>
    ensures { IfOk result (λ a. is_server (algebra_of a) ≡ true) }
{
    let mut rows = Items::new(alloc);
    rows.push(Row::empty(alloc))?;
    Ok(Algebra::Table {
        variables: Items::new(alloc),
        rows,
    })
}

#[tactic(auto, unfolding(sparql_tree::specs::AlgebraTrees::algebra_of))]
fn table_without_rows(alloc: Global) -> Result<Algebra, Memory>
    ensures { IfOk result (λ a. is_server (algebra_of a) ≡ true) }
{
    let mut variables = Items::new(alloc);
    variables.push(Text::from_str(alloc, "a")?)?;
    Ok(Algebra::Table {
        variables,
        rows: Items::new(alloc),
    })
}

/// A filter of a union of a table and a binding.
fn nested(alloc: Global) -> Result<Algebra, Memory>
    ensures { IfOk result (λ a. is_server (algebra_of a) ≡ true) }
{
    let left = table_of_none(alloc)?;
    let right = bound(alloc)?;
    let inner = Algebra::union(alloc, left, right)?;
    Algebra::filter(alloc, compared(alloc)?, inner)
}

/// What an element is, with its count.
fn element_text(alloc: Global, element: &Element) -> Result<String, Memory> {
    let text = match element {
        Element::Triples(patterns) => {
            let count = patterns.len();
            format!(in alloc; "triples {count}")
        }
        Element::Groups(groups) => {
            let count = groups.len();
            format!(in alloc; "groups {count}")
        }
        Element::Optional(_) => format!(in alloc; "optional"),
        Element::Minus(_) => format!(in alloc; "minus"),
        Element::Filter(_) => format!(in alloc; "filter"),
        Element::Bind { variable, .. } => {
            let name = variable.as_str();
            format!(in alloc; "bind {name}")
        }
        Element::Values { variables, rows } => {
            let names = variables.len();
            let count = rows.len();
            format!(in alloc; "values {names} {count}")
        }
    };
    Ok(text?)
}

/// What the elements of a text's group are, with commas between.
fn elements_text(alloc: Global, elements: &[Element]) -> Result<String, Memory> {
    let mut shown = String::new(alloc);
    for element in elements {
        if !shown.is_empty() {
            shown.push_str(", ")?;
        }
        let text = element_text(alloc, element)?;
        shown.push_str(text.as_str())?;
    }
    Ok(shown)
}

/// Whether the elements of a text's group are these.
fn is_read(alloc: Global, text: &str, elements: &str) -> bool {
    match read_query(alloc, text.as_bytes()) {
        Ok(query) => match elements_text(alloc, query.body.elements.as_slice()) {
            Ok(found) => found.as_str() == elements,
            Err(_) => false,
        },
        Err(_) => false,
    }
}

/// The part of this kind.
fn part(alloc: Global, kind: &str) -> Result<Algebra, Memory>
    ensures { IfOk result (λ a. is_server (algebra_of a) ≡ true) }
{
    match kind {
        "no pattern" => no_pattern(alloc),
        "pattern" => bgp(alloc, "a"),
        "two patterns" => two_patterns(alloc),
        "join" => join(alloc),
        "union" => union(alloc),
        "filter" => filter(alloc),
        "binding" => bound(alloc),
        "table" => table(alloc),
        "table of none" => table_of_none(alloc),
        "table without rows" => table_without_rows(alloc),
        _ => nested(alloc),
    }
}

fn is_printed(alloc: Global, kind: &str, text: &str) -> bool {
    match part(alloc, kind) {
        Ok(part) => match print_part(alloc, &part) {
            Ok(printed) => printed.as_str() == text,
            Err(_) => false,
        },
        Err(_) => false,
    }
}

/// Parts, their texts, and the elements of their texts' groups.
const PARTS: [(&str, &str, &str); 11] = [
    ("no pattern", "SELECT * { }", ""),
    ("pattern", "SELECT * { ?s <a:p> ?a . }", "triples 1"),
    (
        "two patterns",
        "SELECT * { ?s <a:p> _:b . ?s <a:p> \"x\"@en . }",
        "triples 2",
    ),
    (
        "join",
        "SELECT * { { ?s <a:p> ?a . } { ?s <a:p> ?b . } }",
        "groups 1, groups 1",
    ),
    (
        "union",
        "SELECT * { { ?s <a:p> ?a . } UNION { ?s <a:p> ?b . } }",
        "groups 2",
    ),
    (
        "filter",
        "SELECT * { { ?s <a:p> ?a . } FILTER ( ( ?a < <a:b> ) ) }",
        "groups 1, filter",
    ),
    (
        "binding",
        "SELECT * { { ?s <a:p> ?a . } BIND ( ( ?a < <a:b> ) AS ?v ) }",
        "groups 1, bind v",
    ),
    (
        "table",
        "SELECT * { VALUES ( ?b ?a ) { ( UNDEF <a:x> ) ( \"y\"@en <a:x> ) ( UNDEF UNDEF ) } }",
        "values 2 3",
    ),
    (
        "table of none",
        "SELECT * { VALUES ( ) { ( ) } }",
        "values 0 1",
    ),
    (
        "table without rows",
        "SELECT * { VALUES ( ?a ) { } }",
        "values 1 0",
    ),
    (
        "nested",
        "SELECT * { { { VALUES ( ) { ( ) } } UNION { { ?s <a:p> ?a . } BIND ( ( ?a < <a:b> ) AS ?v ) } } FILTER ( ( ?a < <a:b> ) ) }",
        "groups 1, filter",
    ),
];

#[test]
fn prints_parts(rt: HostRuntime) {
    for &(kind, text, elements) in PARTS.as_slice() {
        assert!(rt;
            is_printed(rt.alloc(), kind, text) && is_read(rt.alloc(), text, elements),
            "{kind}"
        );
    }
}
