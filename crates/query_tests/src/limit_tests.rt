//! Queries that abbreviate much: what is accepted, with the texts of their parts, and what is want of memory.

ghost use Rattle.std.specs.Prelude.{◌≡◌, true};

use crate::tree_tests::nested;
use sparql_print::print_part;
use sparql_read::read_query;
use sparql_tree::{Algebra, Element, Group, Query, QueryFault};
use std::alloc::{AllocError, Global};
use std::test::Fail;
use term_core::{Items, Memory, Pattern, Row, Text};

/// Texts of five parts between tildes, and how often the second and the fourth stand. The parts of each, as
/// far as they are of the elements of groups, are short enough to be read.
const PARTS: [(&str, usize, usize); 4] = [
    ("SELECT * { ?s ?p '~x~'~, 1~ }", 200_000, 90),
    (
        "PREFIX p: <a:~x~> SELECT * { ?s ?p ?o~ MINUS { ?s p:a ?o }~ }",
        200_000,
        90,
    ),
    (
        "PREFIX p: <a:~x~> SELECT * { ?s ?p ?o } ORDER BY (?s IN (1~, p:a~))",
        30_000,
        600,
    ),
    ("SELECT * { VALUES ?~x~ {~ 1~ } }", 30_000, 120),
];

/// Such texts that are accepted, whatever their parts are.
const ACCEPTED: [(&str, usize, usize); 4] = [
    (
        "PREFIX p: <a:~x~> SELECT * { ?s ?p ?o FILTER(?o IN (1~, p:~)) }",
        30_000,
        560,
    ),
    ("SELECT * { <a:~x~> ?p ?o ~; ?p 1~}", 30_000, 560),
    ("SELECT * { ?s <a:~x~> 1 ~, 1~}", 30_000, 560),
    ("SELECT * { VALUES ?~x~ {~ 1~ } }", 30_000, 560),
];

/// Such texts of which more than 2^30 bytes would be written out.
const EXCESSIVE: [(&str, usize, usize); 6] = [
    (
        "PREFIX p: <a:~x~> SELECT * { ?s ?p ?o FILTER(?o IN (1~, p:~)) }",
        131_000,
        8_200,
    ),
    ("PREFIX p: <a:~x~> SELECT~ p:~", 16_382, 65_537),
    ("SELECT * { <a:~x~> ?p ?o ~; ?p 1~}", 131_000, 8_200),
    ("SELECT * { ?s <a:~x~> 1 ~, 1~}", 131_000, 8_200),
    ("SELECT * { VALUES ?~x~ {~ 1~ } }", 131_000, 8_200),
    ("SELECT * { VALUES (?a ?~x~) {~ (1 2)~ } }", 131_000, 8_200),
];

/// What becomes of a text: `accepted`, `memory` or `refused`.
fn outcome(alloc: Global, parts: &str, times: (usize, usize)) -> Result<&'static str, AllocError> {
    let text = nested(alloc, parts, times)?;
    match read_query(alloc, text.as_bytes()) {
        Ok(_query) => Ok("accepted"),
        Err(QueryFault::Memory) => Ok("memory"),
        Err(_) => Ok("refused"),
    }
}

#[tactic(auto, unfolding(sparql_tree::specs::AlgebraTrees::algebra_of))]
fn patterns_text(alloc: Global, patterns: &Items<Pattern>) -> Result<Text, Memory> {
    let part = Algebra::Bgp(patterns.copy(alloc)?);
    print_part(alloc, &part)
}

#[tactic(auto, unfolding(sparql_tree::specs::AlgebraTrees::algebra_of))]
fn table_text(alloc: Global, variables: &Items<Text>, rows: &Items<Row>) -> Result<Text, Memory> {
    let part = Algebra::Table {
        variables: variables.copy(alloc)?,
        rows: rows.copy(alloc)?,
    };
    print_part(alloc, &part)
}

fn is_accepted(alloc: Global, made: Result<Text, Memory>) -> bool {
    match made {
        Ok(text) => read_query(alloc, text.bytes()).is_ok(),
        Err(_) => false,
    }
}

/// Whether the part of triples or of a table is accepted.
fn is_part_accepted(alloc: Global, element: &Element) -> bool {
    match element {
        Element::Triples(patterns) => is_accepted(alloc, patterns_text(alloc, patterns)),
        Element::Values { variables, rows } => {
            is_accepted(alloc, table_text(alloc, variables, rows))
        }
        _ => false,
    }
}

fn are_flat_parts_accepted(alloc: Global, group: &Group) -> bool {
    for element in group.elements.as_slice() {
        if !is_part_accepted(alloc, element) {
            return false;
        }
    }
    true
}

/// Whether the parts of the group, and of each group that is taken away from it, are accepted.
fn are_parts_accepted(alloc: Global, query: &Query) -> bool {
    for element in query.body.elements.as_slice() {
        let accepted = match element {
            Element::Minus(group) => are_flat_parts_accepted(alloc, group),
            _ => is_part_accepted(alloc, element),
        };
        if !accepted {
            return false;
        }
    }
    true
}

/// Whether a text is accepted, and so is the text of each part.
fn is_stable(alloc: Global, parts: &str, times: (usize, usize)) -> Result<bool, AllocError> {
    let text = nested(alloc, parts, times)?;
    match read_query(alloc, text.as_bytes()) {
        Ok(query) => Ok(are_parts_accepted(alloc, &query)),
        Err(_) => Ok(false),
    }
}

#[test]
fn accepts_what_is_written_out_and_its_parts(rt: HostRuntime) -> Result<(), Fail> {
    for &(parts, long, times) in PARTS.as_slice() {
        let accepted = is_stable(rt.alloc(), parts, (long, times))?;
        assert!(rt; accepted, "{parts}");
    }
    Ok(())
}

#[test]
fn accepts_long_names(rt: HostRuntime) -> Result<(), Fail> {
    for &(parts, long, times) in ACCEPTED.as_slice() {
        let found = outcome(rt.alloc(), parts, (long, times))?;
        assert_eq!(rt; found, "accepted", "{parts}");
    }
    Ok(())
}

#[test]
fn has_no_room_for_too_much(rt: HostRuntime) -> Result<(), Fail> {
    for &(parts, long, times) in EXCESSIVE.as_slice() {
        let found = outcome(rt.alloc(), parts, (long, times))?;
        assert_eq!(rt; found, "memory", "{parts}");
    }
    Ok(())
}
