//! Queries, the trees that they spell, and refusals: a text a line, and its tree or its refusal behind an
//! arrow; without an arrow it is no query.

use crate::showing::{expect, expect_trees, shown, shown_fault};
use sparql_read::read_query;
use std::alloc::{AllocError, Global};
use std::test::Fail;

/// Items of a selection, and the aggregates that may stand there.
const SELECTIONS: &str = "SELECT ?a {} => ?a { }
SELECT?a{} => ?a { }
SELECT*{} => * { }
SELECT * {} # d => * { }
SELECT $x { $x ?p ?x } => ?x { (bgp [ ?x ?p ?x]) }
SELECT ?a ?b ?a {} => ?a ?b { }
SELECT ?a ?a ?a {} => ?a { }
SELECT ?a (?a AS ?b) ?b {} => ?a ?b=?a { }
SELECT (?a AS ?a) ?a {} => ?a=?a { }
SELECT (1 AS ?a) ?a (2 AS ?a) {} => ?a=1:integer ?a=2:integer { }
SELECT ?a (1 AS ?a) {} => ?a ?a=1:integer { }
SELECT DISTINCT ?a WHERE {} => distinct ?a { }
SELECT DISTINCT ?s ?o ?s { ?s ?p ?o . FILTER(?o < -1) } LIMIT 3 => distinct ?s ?o { (bgp [ ?s ?p ?o]) (filter (Lt ?o -1:integer)) } limit 3
SELECT REDUCED * {} => * { }
SELECT rEdUcEd ?a ?a {} => ?a { }
SELECT (COUNT(*) AS ?n) {} => ?n=(Count *) { }
SELECT (COUNT(DISTINCT *) AS ?n) {} => ?n=(Count distinct *) { }
SELECT (COUNT(?a) AS ?n) {} => ?n=(Count ?a) { }
SELECT (cOuNt(dIsTiNcT ?a) AS ?n) {} => ?n=(Count distinct ?a) { }
SELECT (AVG(DISTINCT ?a) AS ?n) (MIN(?a + 1) AS ?m) {} => ?n=(Avg distinct ?a) ?m=(Min (?a +1:integer)) { }
SELECT (SUM(?a) + 1 AS ?n) {} => ?n=((Sum ?a) +1:integer) { }
SELECT (- SUM(?a) AS ?n) {} => ?n=(- (Sum ?a)) { }
SELECT (SUM(?a) - SUM(?b) AS ?n) {} => ?n=((Sum ?a) -(Sum ?b)) { }
SELECT (IF(MAX(?a) IN (COUNT(*), 1), STR(MIN(?a)), 0) AS ?n) {} => ?n=(If (in (Max ?a) (Count *) 1:integer) (Str (Min ?a)) 0:integer) { }";

/// What stands behind the group, and the prologue.
const MODIFIERS: &str =
    "SELECT ?k {} GROUP BY ?k STR(?a) (?b) (?b + 1 AS ?c) => ?k { } by ?k as ?k by (Str ?a) by ?b by (?b +1:integer) as ?c
SELECT ?x {} GROUP BY (?x AS ?x) => ?x { } by ?x as ?x
SELECT ?x {} GROUP BY ?x ?x BOUND(?x) => ?x { } by ?x as ?x by ?x as ?x by (Bound ?x)
SELECT * {} HAVING(?a) COUNT(*) BOUND(?b) => * { } having ?a having (Count *) having (Bound ?b)
SELECT * {} HAVING(MAX(?a) > 1) => * { } having (Gt (Max ?a) 1:integer)
SELECT * {} HAVING STR(MAX(?a)) => * { } having (Str (Max ?a))
SELECT * {} ORDER BY ASC(?a) DESC(?b) ?c (?d) MAX(?e) STR(?f) => * { } asc ?a desc ?b asc ?c asc ?d asc (Max ?e) asc (Str ?f)
SELECT * {} ORDER BY DESC(COUNT(*) + 1) => * { } desc ((Count *) +1:integer)
SELECT * {} ORDER BY ?a ?a aSc(-1) BOUND(?a) => * { } asc ?a asc ?a asc -1:integer asc (Bound ?a)
SELECT * {} LIMIT 5 => * { } limit 5
SELECT * {} LIMIT 0 => * { } limit 0
SELECT * {} OFFSET 3 => * { } offset 3
SELECT * {} OFFSET 0 => * { }
SELECT * {} LIMIT 7 OFFSET 0 => * { } limit 7
SELECT * {} LIMIT 2 OFFSET 3 => * { } limit 2 offset 3
SELECT * {} OFFSET 05 LIMIT 0 => * { } limit 0 offset 5
SELECT * {} LIMIT 18446744073709551615 OFFSET 1 => * { } limit 18446744073709551615 offset 1
SELECT * {} OFFSET 18446744073709551615 => * { } offset 18446744073709551615
SELECT ?a {} GROUP BY ?a HAVING(1) ORDER BY ?a LIMIT 1 => ?a { } by ?a as ?a having 1:integer asc ?a limit 1
sElEcT dIsTiNcT ?x wHeRe {} gRoUp bY ?x hAvInG(1) oRdEr bY dEsC(?x) lImIt 3 oFfSeT 2 => distinct ?x { } by ?x as ?x having 1:integer desc ?x limit 3 offset 2
PREFIX p: <http://e/> SELECT ?x { ?x a p:C } => ?x { (bgp [ ?x <http://www.w3.org/1999/02/22-rdf-syntax-ns#type> <http://e/C>]) }
PREFIX p: <http://1/> PREFIX p: <http://2/> SELECT * { ?x p:a p: } => * { (bgp [ ?x <http://2/a> <http://2/>]) }
PREFIX p: <http://1/> PREFIX P: <http://2/> SELECT * { p:a P:a ?x } => * { (bgp [ <http://1/a> <http://2/a> ?x]) }
pReFiX : <x:> SELECT * { : :b 'c'^^:t } => * { (bgp [ <x:> <x:b> 'c'^<x:t>]) }
PREFIX a: <x:> SELECT * { a:a a a:b } => * { (bgp [ <x:a> <http://www.w3.org/1999/02/22-rdf-syntax-ns#type> <x:b>]) }";

/// Texts that are no query for their selection; the first is empty.
const NO_SELECTIONS: &str = "
SELECT
SELECT {}
SELECT *
{}
* {}
WHERE {}
SELECT * WHERE
SELECT WHERE {}
SELECT * WHERE WHERE {}
SELECT * ?a {}
SELECT ?a * {}
SELECT * * {}
SELECT DISTINCT {}
SELECT DISTINCT REDUCED * {}
SELECT DISTINCT DISTINCT * {}
DISTINCT SELECT * {}
SELECT ?a, ?b {}
SELECT (?a) {}
SELECT () {}
SELECT (AS ?a) {}
SELECT (1 AS 2) {}
SELECT (1 ?a) {}
SELECT (1 AS ?a {}
SELECT (1 AS ?a, 2 AS ?b) {}
SELECT 1 AS ?a {}
SELECT ?a AS ?b {}
SELECT 1 {}
SELECT <x:a> {}
SELECT STR(?a) {}
SELECT COUNT(*) {}
SELECT (COUNT(*)) {}
SELECT (SUM(COUNT(?a)) AS ?b) {}
SELECT (SUM(1 + MAX(?a)) AS ?b) {}
SELECT (MIN(IF(?a, COUNT(*), 1)) AS ?b) {}
SELECT (AVG(?a IN (1, MAX(?b))) AS ?c) {}
SELECT (SUM(*) AS ?b) {}
SELECT (SUM(DISTINCT *) AS ?b) {}
SELECT (AVG(*) AS ?b) {}
SELECT (MIN(*) AS ?b) {}
SELECT (MAX(*) AS ?b) {}
SELECT (COUNT() AS ?b) {}
SELECT (COUNT(?a, ?b) AS ?c) {}
SELECT (COUNT(DISTINCT) AS ?c) {}
SELECT (COUNT(DISTINCT DISTINCT ?a) AS ?c) {}
SELECT (COUNT(REDUCED ?a) AS ?c) {}
SELECT (COUNT(* + 1) AS ?c) {}
SELECT (COUNT * AS ?c) {}
SELECT (COUNT(* AS ?c) {}";

/// Texts that are no query for what stands behind the group, or for their prologue.
const NO_MODIFIERS: &str = "SELECT * {} GROUP ?a
SELECT * {} GROUP BY
SELECT * {} GROUP BY 1
SELECT * {} GROUP BY -?a
SELECT * {} GROUP BY ()
SELECT * {} GROUP BY (?a, ?b)
SELECT * {} GROUP BY ?a, ?b
SELECT * {} GROUP BY ?a AS ?b
SELECT * {} GROUP BY COUNT(?a)
SELECT * {} GROUP BY (SUM(?a) AS ?b)
SELECT * {} GROUP BY STR(MAX(?a))
SELECT * {} GROUP BY (1 AS 2)
SELECT * {} GROUP BY (1 AS ?a
SELECT * {} GROUP BY ASC(?a)
SELECT * {} GROUP BY ?a GROUP BY ?b
SELECT * {} HAVING
SELECT * {} HAVING ?a
SELECT * {} HAVING 1
SELECT * {} HAVING()
SELECT * {} HAVING(1 AS ?a)
SELECT * {} HAVING(SUM(MAX(?a)))
SELECT * {} HAVING(1) GROUP BY ?a
SELECT * {} HAVING(1) HAVING(2)
SELECT * {} ORDER BY
SELECT * {} ORDER ?a
SELECT * {} ORDER BY ASC ?a
SELECT * {} ORDER BY ?a ASC
SELECT * {} ORDER BY ASC(?a, ?b)
SELECT * {} ORDER BY ASC()
SELECT * {} ORDER BY ASC(DESC(?a))
SELECT * {} ORDER BY ()
SELECT * {} ORDER BY (1 AS ?a)
SELECT * {} ORDER BY 1
SELECT * {} ORDER BY -?a
SELECT * {} ORDER BY 'a'
SELECT * {} ORDER BY ?a, ?b
SELECT * {} ORDER BY ?a GROUP BY ?a
SELECT * {} ORDER BY ?a HAVING(1)
SELECT * {} ORDER BY ?a ORDER BY ?b
SELECT * {} BY ?a
SELECT * {} LIMIT
SELECT * {} LIMIT -1
SELECT * {} LIMIT +1
SELECT * {} LIMIT 1.0
SELECT * {} LIMIT ?a
SELECT * {} LIMIT (1)
SELECT * {} LIMIT 1 2
SELECT * {} LIMIT 1 LIMIT 1
SELECT * {} LIMIT 1 OFFSET 1 LIMIT 1
SELECT * {} OFFSET
SELECT * {} OFFSET -1
SELECT * {} OFFSET 1 OFFSET 1
SELECT * {} OFFSET 1 LIMIT 1 OFFSET 1
SELECT * {} LIMIT 1 ORDER BY ?a
SELECT * {} ?a
SELECT * {} {}
SELECT * {} .
PREFIX
PREFIX p: SELECT * {}
PREFIX <http://e/> SELECT * {}
PREFIX p: <p> SELECT * {}
PREFIX p:a <http://e/> SELECT * {}
PREFIX p: <http://e/>
SELECT * {} PREFIX p: <http://e/>
SELECT * { p:a ?b ?c }
PREFIX p: <http://e/> SELECT * { P:a ?b ?c }";

/// What is refused before the grammar is looked at.
const REFUSALS: &str = "SELECT * {} ` => !lex 12
SELECT ( ASK ` => !lex 13
SELECT * { ?s ?p 'a => !lex 17
é => !lex 0
SELECT * { ?s ?p [] } => !what [
SELECT [ { => !what [
aSk {} => !what aSk
PREFIX p: <http://e/> ASK {} => !what ASK
SELECT * { SERVICE <x:a> {} } => !what SERVICE
SELECT * { { SELECT * {} } } => !what SELECT
SELECT * { FILTER REGEX(?a, 'b') } => !what REGEX
SELECT * { FILTER NOT EXISTS {} } => !what EXISTS
SELECT * { ?s ?p 1e0 } => !what 1e0
SELECT (SAMPLE(?a) AS ?b) {} => !what SAMPLE
BASE <http://e/> SELECT * {} => !what BASE
SELECT * {} LIMIT 18446744073709551616 => !what 18446744073709551616
SELECT * {} OFFSET 18446744073709551616 => !what 18446744073709551616";

/// Fails where a line is read as another tree, or as none.
fn expect_lines(alloc: Global, lines: &str) -> Result<(), Fail> {
    expect_trees(alloc, lines, ("", ""), ("", ""))
}

#[test]
fn reads_queries(rt: HostRuntime) -> Result<(), Fail> {
    expect_lines(rt.alloc(), SELECTIONS)?;
    expect_lines(rt.alloc(), MODIFIERS)
}

#[test]
fn refuses_queries(rt: HostRuntime) -> Result<(), Fail> {
    expect_lines(rt.alloc(), NO_SELECTIONS)?;
    expect_lines(rt.alloc(), NO_MODIFIERS)
}

#[test]
fn refuses_before_the_grammar(rt: HostRuntime) -> Result<(), Fail> {
    expect_lines(rt.alloc(), REFUSALS)
}

/// Texts, and what they are read as at 256 open groups and at 257: before the arrow the second and the
/// fourth part of five, between tildes, stand 254 times in the one text and 255 times in the other.
const NESTS: &str = "SELECT * {{~{~~}~}} => read !nesting
SELECT * {{~ OPTIONAL {~~}~}} => read !nesting
SELECT * {{~ MINUS {~~}~}} => read !nesting
SELECT * {{~{} UNION {~~}~}} => read !nesting
SELECT * { FILTER(~(~?a~)~)} => read !nesting
SELECT * { FILTER(~!(~?a~)~)} => read !nesting
SELECT * { FILTER(~STR(~?a~)~)} => read !nesting
SELECT * { FILTER(~1 + (~?a~)~)} => read !nesting
SELECT * { FILTER(~?a IN (~1~)~)} => read !nesting
SELECT * { BIND(~-(~1~)~ AS ?x)} => read !nesting
SELECT ((~(~1~)~) AS ?x) {} => read !nesting
SELECT * {{~{~?a~}~}} => !query !nesting
{{~(~~~ => !query !nesting
SELECT * {{~{~~}~}} ASK => !what ASK !what ASK
SELECT * {{~{~~}~}} ASK ` => !lex 526 !lex 528";

/// The text of five parts, of which the second and the fourth stand so many times.
pub(crate) fn nested(
    alloc: Global,
    parts: &str,
    times: (usize, usize),
) -> Result<String, AllocError> {
    let (second, fourth) = times;
    let mut text = String::new(alloc);
    for (place, part) in parts.split('~').enumerate() {
        let count = match place {
            1 => second,
            3 => fourth,
            _ => 1,
        };
        push_times(&mut text, part, count)?;
    }
    Ok(text)
}

fn push_times(text: &mut String, part: &str, times: usize) -> Result<(), AllocError> {
    for _ in 0..times {
        text.push_str(part)?;
    }
    Ok(())
}

/// `read`, where a text is of a query that is accepted, or why it is refused.
fn outcome(alloc: Global, text: &str) -> Result<String, AllocError> {
    match read_query(alloc, text.as_bytes()) {
        Ok(_query) => String::from_str(alloc, "read"),
        Err(fault) => shown_fault(alloc, fault),
    }
}

/// What becomes of the text with its second and fourth part so often.
fn outcome_of(alloc: Global, parts: &str, times: usize) -> Result<String, AllocError> {
    let text = nested(alloc, parts, (times, times))?;
    outcome(alloc, text.as_str())
}

/// What becomes of the text with its parts as often as each of these says.
fn outcomes(alloc: Global, parts: &str, times: (usize, usize)) -> Result<String, AllocError> {
    let (fewer, more) = times;
    let mut found = outcome_of(alloc, parts, fewer)?;
    let last = outcome_of(alloc, parts, more)?;
    found.push(' ')?;
    found.push_str(last.as_str())?;
    Ok(found)
}

/// Fails where the outcomes are others.
fn expect_outcomes(
    alloc: Global,
    parts: &str,
    times: (usize, usize),
    expected: &str,
) -> Result<(), Fail> {
    expect(
        alloc,
        parts,
        outcomes(alloc, parts, times)?.as_str(),
        expected,
    )
}

#[test]
fn reads_to_the_limit_of_nesting(rt: HostRuntime) -> Result<(), Fail> {
    for line in NESTS.lines() {
        let (parts, expected) = line.split_once(" => ").unwrap_or((line, ""));
        expect_outcomes(rt.alloc(), parts, (254, 255), expected)?;
    }
    Ok(())
}

#[test]
fn reads_to_the_limit_of_size(rt: HostRuntime) -> Result<(), Fail> {
    expect_outcomes(
        rt.alloc(),
        "SELECT * {} #~ ~~~",
        (262_131, 262_132),
        "read !text",
    )?;
    expect_outcomes(rt.alloc(), "` #~ ~~~", (262_141, 262_142), "!lex 0 !text")
}

#[test]
fn refuses_bytes_that_are_no_text(rt: HostRuntime) -> Result<(), Fail> {
    let found = shown(rt.alloc(), b"SELECT * {} \xff")?;
    expect(rt.alloc(), "byte 255", found.as_str(), "!lex 12")
}

#[test]
fn reads_lines(rt: HostRuntime) -> Result<(), Fail> {
    let found = shown(rt.alloc(), b"# c\nSELECT * {}")?;
    expect(rt.alloc(), "two lines", found.as_str(), "* { }")
}
