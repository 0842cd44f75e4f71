//! Queries and what comes of them: a text a line, and behind an arrow the place of the first breach, or
//! another cause of a refusal. Without an arrow it is accepted.

use crate::showing::repeated;
use sparql_read::read_query;
use sparql_tree::{QueryFault, Size};
use std::alloc::{AllocError, Global};
use std::test::Fail;

/// BIND, and what is in scope before it.
const BINDS: &str = "SELECT ?x { ?x <http://e/p> ?y BIND(1 AS ?y) } => ?y
SELECT * { BIND(1 AS ?a) BIND(2 AS ?a) } => ?a
SELECT * { BIND(1 AS ?a) BIND(?a AS ?b) }
SELECT * { BIND(1 AS ?a) ?s ?p ?a }
SELECT * { ?s ?p ?a . FILTER(?a) BIND(1 AS ?a) } => ?a
SELECT * { FILTER(?a) BIND(1 AS ?a) }
SELECT * { ?s ?p ?o { BIND(1 AS ?o) } }
SELECT * { { ?s ?p ?o } BIND(1 AS ?o) } => ?o
SELECT * { { ?s ?p ?o } UNION { BIND(1 AS ?a) } BIND(2 AS ?a) } => ?a
SELECT * { { BIND(1 AS ?a) } UNION { BIND(2 AS ?a) } }
SELECT * { { ?s ?p ?o } { BIND(1 AS ?o) } }
SELECT * { { ?s ?p ?o { BIND(1 AS ?o) BIND(2 AS ?o) } } } => ?o
SELECT * { OPTIONAL { ?s ?p ?o } BIND(1 AS ?o) } => ?o
SELECT * { ?s ?p ?o OPTIONAL { BIND(1 AS ?o) } }
SELECT * { MINUS { ?s ?p ?o } BIND(1 AS ?o) }
SELECT * { MINUS { BIND(1 AS ?a) BIND(2 AS ?a) } } => ?a
SELECT * { MINUS { { BIND(1 AS ?a) } BIND(2 AS ?a) } } => ?a
SELECT * { ?s ?p ?o MINUS { BIND(1 AS ?o) ?o ?p ?s } BIND(2 AS ?q) }
SELECT * { VALUES ?a { 1 } BIND(1 AS ?a) } => ?a
SELECT * { BIND(1 AS ?a) VALUES ?a { 1 } }
SELECT * { ?s ?b ?o BIND(1 AS ?b) ?s ?p ?a BIND(1 AS ?a) } => ?b
SELECT * { { ?a ?b ?c } UNION { ?d ?e ?f BIND(1 AS ?a) } BIND(1 AS ?e) } => ?e
SELECT * { ?x ?y ?z { ?x ?y ?z } ?x ?y ?z BIND(1 AS ?w) }
SELECT * { BIND(1 AS ?A) BIND(1 AS ?a) }";

/// VALUES with a variable twice.
const VALUES: &str = "SELECT * { VALUES (?a ?a) { } } => ?a
SELECT * { VALUES (?a ?b ?a ?b) { (1 1 1 1) } } => ?a
SELECT * { VALUES (?a ?b ?b ?a) { } } => ?b
SELECT * { VALUES (?a ?b) { (1 2) } }
SELECT * { VALUES ?a { 1 } VALUES ?a { 2 } }
SELECT * { { VALUES (?a ?a) { } } ?s ?p ?o BIND(1 AS ?s) } => ?a";

/// Labels, and the basic graph patterns that they stand in.
const LABELS: &str = "SELECT * { _:a ?p _:a . _:a ?q _:b }
SELECT * { _:a ?p ?o . FILTER(?o) _:a ?p ?o }
SELECT * { _:a ?p ?o { ?s ?p ?o } _:a ?p ?o } => _:a
SELECT * { _:a ?p ?o { _:a ?p ?o } } => _:a
SELECT * { { _:a ?p ?o } UNION { _:a ?p ?o } } => _:a
SELECT * { { _:a ?p ?o } UNION { _:b ?p ?o } }
SELECT * { _:a ?p ?o OPTIONAL { ?s ?p _:a } } => _:a
SELECT * { _:a ?p ?o OPTIONAL { } _:a ?p ?o } => _:a
SELECT * { _:a ?p ?o MINUS { _:a ?p ?o } } => _:a
SELECT * { _:a ?p ?o BIND(1 AS ?x) _:a ?p ?o } => _:a
SELECT * { _:a ?p ?o VALUES ?x { 1 } _:a ?p ?o } => _:a
SELECT * { _:a ?p _:b { _:b ?p _:a } } => _:b
SELECT * { _:a ?p _:b { ?s ?p _:c . _:a ?p _:b . _:b ?p ?o } } => _:a
SELECT * { _:a ?p ?a BIND(1 AS ?a) _:a ?p ?o } => ?a
SELECT * { _:a ?p ?a { _:a ?p ?o } BIND(1 AS ?a) } => _:a
SELECT * { ?a ?p ?o { _:a ?p ?o } BIND(1 AS ?b) { _:a ?p ?o } } => _:a";

/// What is selected.
const ITEMS: &str = "SELECT (1 AS ?a) (?a AS ?b) { }
SELECT (1 AS ?a) (2 AS ?a) { } => ?a
SELECT ?a (2 AS ?a) { } => ?a
SELECT (2 AS ?a) ?a { }
SELECT (1 AS ?s) { ?s ?p ?o } => ?s
SELECT (1 AS ?s) { MINUS { ?s ?p ?o } FILTER(?s) }
SELECT (1 AS ?s) { { OPTIONAL { ?s ?p ?o } } UNION { } } => ?s
SELECT (?o AS ?a) { ?s ?p ?o BIND(1 AS ?s) } => ?s
SELECT (1 AS ?o) { ?s ?p ?o BIND(1 AS ?s) } => ?o
SELECT ?missing { }
SELECT (1 AS ?k) { ?s ?p ?o } GROUP BY (?s AS ?k) => ?k
SELECT (1 AS ?k) { } GROUP BY ?k
SELECT ?a ?a ?b ?a { }";

/// Grouping, and the variables outside aggregates.
const GROUPS: &str = "SELECT * { ?s ?p ?o } GROUP BY ?s => *
SELECT * { ?s ?p ?o } HAVING (COUNT(*) > 1) => *
SELECT * { ?s ?p ?o } ORDER BY COUNT(?s) => *
SELECT * { ?s ?p ?o } HAVING (?s)
SELECT ?s { ?s ?p ?o } GROUP BY ?s
SELECT ?o { ?s ?p ?o } GROUP BY ?s => ?o
SELECT (COUNT(*) AS ?n) { ?s ?p ?o }
SELECT (COUNT(?o) AS ?n) ?s { ?s ?p ?o } => ?s
SELECT (COUNT(?o) AS ?n) ?s { ?s ?p ?o } GROUP BY ?s
SELECT (SUM(?o) + ?p AS ?n) { ?s ?p ?o } => ?p
SELECT (SUM(?o + ?p) AS ?n) { ?s ?p ?o }
SELECT (SUM(?o) AS ?n) (?n + 1 AS ?m) { ?s ?p ?o }
SELECT (?n + 1 AS ?m) (SUM(?o) AS ?n) { ?s ?p ?o } => ?n
SELECT (STR(?k) AS ?t) { ?s ?p ?o } GROUP BY (STR(?s) AS ?k)
SELECT (STR(?s) AS ?t) { ?s ?p ?o } GROUP BY (STR(?s) AS ?k) => ?s
SELECT ?s { ?s ?p ?o } GROUP BY (?s) => ?s
SELECT ?s { ?s ?p ?o } GROUP BY ?s HAVING (?o) => ?o
SELECT ?s { ?s ?p ?o } GROUP BY ?s HAVING (MAX(?o) > ?s)
SELECT (MAX(?o) AS ?m) { ?s ?p ?o } GROUP BY ?s HAVING (?m) => ?m
SELECT (MAX(?o) AS ?m) { ?s ?p ?o } GROUP BY ?s ORDER BY ?m ?s
SELECT (MAX(?o) AS ?m) { ?s ?p ?o } GROUP BY ?s ORDER BY DESC(?m) ?o => ?o
SELECT ?s { ?s ?p ?o } ORDER BY MAX(?o) => ?s
SELECT (IF(?a, ?b, COUNT(*)) AS ?n) { } => ?a
SELECT (COUNT(*) IN (1, ?c) AS ?n) { } => ?c
SELECT (1 + MIN(?a) - ?d AS ?n) { } => ?d
SELECT (2 * MIN(?a) / ?e AS ?n) { } => ?e
SELECT (! ?f && (- ?g = MIN(?a)) || + ?h AS ?n) { } => ?f";

/// Keys, and the order of breaches.
const KEYS: &str = "SELECT (1 AS ?a) { } GROUP BY ?x (1 AS ?x) => ?x
SELECT (1 AS ?a) { } GROUP BY (1 AS ?x) ?x => ?x
SELECT (1 AS ?a) { } GROUP BY (1 AS ?x) (2 AS ?y) (3 AS ?y) (4 AS ?x) => ?x
SELECT (1 AS ?a) { } GROUP BY ?x ?x
SELECT (1 AS ?a) { } GROUP BY (1 AS ?x) (?x AS ?y)
SELECT (1 AS ?a) { ?x ?p ?o } GROUP BY (1 AS ?x)
SELECT * { ?s ?p ?o BIND(1 AS ?o) } GROUP BY ?s => *
SELECT ?q { ?s ?p ?o BIND(1 AS ?o) } GROUP BY ?s => ?q
SELECT ?s { ?s ?p ?o BIND(1 AS ?o) } GROUP BY ?s (1 AS ?s) => ?o
SELECT ?s { ?s ?p ?o } GROUP BY ?s (1 AS ?s) HAVING (?q) ORDER BY ?r => ?s
SELECT ?s { ?s ?p ?o } GROUP BY ?s HAVING (?q) ORDER BY ?r => ?q
SELECT ?s { ?s ?p ?o } GROUP BY ?s ORDER BY ?s ?r ?q => ?r";

/// Other causes, which come before scopes.
const CAUSES: &str = "SELECT * { ?s ?p ?o }
SELECT ?s { { } FILTER(?s = 1) }
SELECT * { ?s ?p } => none
SELECT * { ^^^ ` => lex 15
ASK { ?s ?p ?o } => unsupported ASK
SELECT * { ?s ?p ?o BIND(1 AS ?o) } => ?o
SELECT ?x { ?x <http://e/p> \"a } => lex 28
SELECT ?x { ?x <http://e/p> 1e0 } => unsupported 1e0
SELECT ?x ?x <http://e/p> } => none
SELECT * { ?s ?p ?o BIND(1 AS ?o) => none
SELECT * { ?s ?p ?o BIND(1 AS ?o) } LIMIT 1e0 => unsupported 1e0
SELECT * { VALUES (?a ?a) { (1) } } => none";

/// A piece so often, and what comes of it.
const PIECES: [(u32, &[u8], &str); 5] = [
    (0, b"", "none"),
    (1, b"\xff", "lex 0"),
    (256, b"{", "none"),
    (257, b"{", "nesting"),
    (262_145, b"{", "text"),
];

fn outcome(alloc: Global, text: &[u8]) -> Result<String, AllocError> {
    match read_query(alloc, text) {
        Ok(_) => String::from_str(alloc, ""),
        Err(QueryFault::Scope { variable }) => String::from_str(alloc, variable.as_str()),
        Err(QueryFault::Lex { at }) => format!(in alloc; "lex {at}"),
        Err(QueryFault::Unsupported { what }) => format!(in alloc; "unsupported {}", what.as_str()),
        Err(QueryFault::NotAQuery) => String::from_str(alloc, "none"),
        Err(QueryFault::TooLarge(Size::Nesting)) => String::from_str(alloc, "nesting"),
        Err(QueryFault::TooLarge(Size::Text)) => String::from_str(alloc, "text"),
        Err(_) => String::from_str(alloc, "other"),
    }
}

/// The first of these lines whose text has another outcome, with that outcome; else nothing.
fn first_other(alloc: Global, lines: &str) -> Result<String, AllocError> {
    for line in lines.lines() {
        let (text, wanted) = line.split_once(" => ").unwrap_or((line, ""));
        let found = outcome(alloc, text.as_bytes())?;
        if found.as_str() != wanted {
            return format!(in alloc; "{line} but {}", found.as_str());
        }
    }
    String::from_str(alloc, "")
}

#[test]
fn binds_what_is_not_there(rt: HostRuntime) -> Result<(), Fail> {
    let other = first_other(rt.alloc(), BINDS)?;
    assert_eq!(rt; other.as_str(), "");
    Ok(())
}

#[test]
fn gives_each_variable_once(rt: HostRuntime) -> Result<(), Fail> {
    let other = first_other(rt.alloc(), VALUES)?;
    assert_eq!(rt; other.as_str(), "");
    Ok(())
}

#[test]
fn keeps_labels_in_one_pattern(rt: HostRuntime) -> Result<(), Fail> {
    let other = first_other(rt.alloc(), LABELS)?;
    assert_eq!(rt; other.as_str(), "");
    Ok(())
}

#[test]
fn names_items_once(rt: HostRuntime) -> Result<(), Fail> {
    let other = first_other(rt.alloc(), ITEMS)?;
    assert_eq!(rt; other.as_str(), "");
    Ok(())
}

#[test]
fn selects_keys_and_aggregates(rt: HostRuntime) -> Result<(), Fail> {
    let other = first_other(rt.alloc(), GROUPS)?;
    assert_eq!(rt; other.as_str(), "");
    Ok(())
}

#[test]
fn names_keys_once(rt: HostRuntime) -> Result<(), Fail> {
    let other = first_other(rt.alloc(), KEYS)?;
    assert_eq!(rt; other.as_str(), "");
    Ok(())
}

#[test]
fn gives_other_causes_first(rt: HostRuntime) -> Result<(), Fail> {
    let other = first_other(rt.alloc(), CAUSES)?;
    assert_eq!(rt; other.as_str(), "");
    Ok(())
}

#[test]
fn tells_of_the_limits(rt: HostRuntime) -> Result<(), Fail> {
    for &(times, piece, wanted) in PIECES.as_slice() {
        let text = repeated(rt.alloc(), b"", times, piece, b"")?;
        let found = outcome(rt.alloc(), text.as_slice())?;
        assert_eq!(rt; found.as_str(), wanted, "{piece:?}");
    }
    Ok(())
}
