//! Queries, the parts that they are cut into, and the variables of parts and answers, worked by hand.

use crate::showing::split_text;
use sparql_algebra::prepare;
use std::alloc::Global;
use std::test::Fail;

/// Queries, and how they are cut: the tree, each part's text and variables, and the variables of the answer.
pub(crate) const QUERIES: [(&[u8], &str); 25] = [
    (
        b"SELECT * { ?a <a:p> ?b FILTER(?b > ?a) OPTIONAL { ?b <a:q> ?c FILTER(?c > ?a) } }",
        "Filter(( ?b > ?a ), LeftJoin(0, 1, ( ?c > ?a ))) | SELECT * { ?a <a:p> ?b . } [?a ?b] | SELECT * { ?b <a:q> ?c . } [?b ?c] | ?a ?b ?c",
    ),
    (b"SELECT * {}", "0 | SELECT * { } [] | "),
    (
        b"SELECT ?b ?a { ?a <a:p> ?b }",
        "0 | SELECT * { ?a <a:p> ?b . } [?a ?b] | ?b ?a",
    ),
    (
        b"SELECT * { { ?a <a:p> ?b } { ?b <a:q> ?c } }",
        "0 | SELECT * { { ?a <a:p> ?b . } { ?b <a:q> ?c . } } [?a ?b ?c] | ?a ?b ?c",
    ),
    (
        b"SELECT * { { ?a <a:p> ?b } UNION { ?b <a:q> ?c } }",
        "0 | SELECT * { { ?a <a:p> ?b . } UNION { ?b <a:q> ?c . } } [?a ?b ?c] | ?a ?b ?c",
    ),
    (
        b"SELECT * { { { ?a <a:p> ?b } UNION { ?b <a:q> ?c } } { { ?b <a:q> ?c } UNION { ?c <a:r> ?d } } }",
        "Join(0, 1) | SELECT * { { ?a <a:p> ?b . } UNION { ?b <a:q> ?c . } } [?a ?b ?c] | SELECT * { { ?b <a:q> ?c . } UNION { ?c <a:r> ?d . } } [?b ?c ?d] | ?a ?b ?c ?d",
    ),
    (
        b"SELECT * { ?a <a:p> ?b MINUS { ?b <a:q> ?c } }",
        "Minus(0, 1) | SELECT * { ?a <a:p> ?b . } [?a ?b] | SELECT * { ?b <a:q> ?c . } [?b ?c] | ?a ?b",
    ),
    (
        b"SELECT * { ?a <a:p> ?b FILTER(?x) }",
        "0 | SELECT * { { ?a <a:p> ?b . } FILTER ( ?x ) } [?a ?b] | ?a ?b",
    ),
    (
        b"SELECT * { ?a <a:p> ?b BIND(?a AS ?x) }",
        "0 | SELECT * { { ?a <a:p> ?b . } BIND ( ?a AS ?x ) } [?a ?b ?x] | ?a ?b ?x",
    ),
    (
        b"SELECT * { VALUES ?v { <a:x> UNDEF } }",
        "0 | SELECT * { VALUES ( ?v ) { ( <a:x> ) ( UNDEF ) } } [?v] | ?v",
    ),
    (
        b"SELECT * { ?a <a:p> ?b OPTIONAL { ?b <a:q> ?c } OPTIONAL { ?c <a:r> ?d } }",
        "LeftJoin(LeftJoin(0, 1), 2) | SELECT * { ?a <a:p> ?b . } [?a ?b] | SELECT * { ?b <a:q> ?c . } [?b ?c] | SELECT * { ?c <a:r> ?d . } [?c ?d] | ?a ?b ?c ?d",
    ),
    (
        b"SELECT * { ?a <a:p> ?b OPTIONAL { ?b <a:q> ?c } FILTER(?c) }",
        "Filter(?c, LeftJoin(0, 1)) | SELECT * { ?a <a:p> ?b . } [?a ?b] | SELECT * { ?b <a:q> ?c . } [?b ?c] | ?a ?b ?c",
    ),
    (
        b"SELECT * { ?a <a:p> ?b OPTIONAL { ?b <a:q> ?c } BIND(?c AS ?x) }",
        "Extend(LeftJoin(0, 1), ?x, ?c) | SELECT * { ?a <a:p> ?b . } [?a ?b] | SELECT * { ?b <a:q> ?c . } [?b ?c] | ?a ?b ?c ?x",
    ),
    (
        b"SELECT * { { ?a <a:p> ?b OPTIONAL { ?b <a:q> ?c } } UNION { ?c <a:r> ?d } }",
        "Union(LeftJoin(0, 1), 2) | SELECT * { ?a <a:p> ?b . } [?a ?b] | SELECT * { ?b <a:q> ?c . } [?b ?c] | SELECT * { ?c <a:r> ?d . } [?c ?d] | ?a ?b ?c ?d",
    ),
    (
        b"SELECT * { ?a <a:p> ?b OPTIONAL { ?b <a:q> ?c } ?c <a:r> ?d }",
        "Join(LeftJoin(0, 1), 2) | SELECT * { ?a <a:p> ?b . } [?a ?b] | SELECT * { ?b <a:q> ?c . } [?b ?c] | SELECT * { ?c <a:r> ?d . } [?c ?d] | ?a ?b ?c ?d",
    ),
    (
        b"SELECT * { MINUS { ?a <a:p> ?b } ?b <a:q> ?c }",
        "Join(Minus(0, 1), 2) | SELECT * { } [] | SELECT * { ?a <a:p> ?b . } [?a ?b] | SELECT * { ?b <a:q> ?c . } [?b ?c] | ?b ?c",
    ),
    (
        b"SELECT * { _:x <a:p> ?b }",
        "0 | SELECT * { _:x <a:p> ?b . } [?b] | ?b",
    ),
    (
        b"SELECT (COUNT(*) AS ?n) { ?a <a:p> ?b } GROUP BY ?a",
        "0 | SELECT * { ?a <a:p> ?b . } [?a ?b] | ?n",
    ),
    (
        b"SELECT ?a ?a ?z { ?a <a:p> ?b }",
        "0 | SELECT * { ?a <a:p> ?b . } [?a ?b] | ?a ?z",
    ),
    (
        b"SELECT * { VALUES ?v { <a:x> } { ?a <a:p> ?b } UNION { ?b <a:q> ?c } }",
        "Join(0, 1) | SELECT * { VALUES ( ?v ) { ( <a:x> ) } } [?v] | SELECT * { { ?a <a:p> ?b . } UNION { ?b <a:q> ?c . } } [?a ?b ?c] | ?v ?a ?b ?c",
    ),
    (
        b"SELECT * { ?a <a:p> ?b VALUES ?v { <a:x> } }",
        "0 | SELECT * { { ?a <a:p> ?b . } { VALUES ( ?v ) { ( <a:x> ) } } } [?a ?b ?v] | ?a ?b ?v",
    ),
    (
        b"SELECT * { ?b <a:p> ?a . ?a <a:q> ?b FILTER(?z) }",
        "0 | SELECT * { { ?b <a:p> ?a . ?a <a:q> ?b . } FILTER ( ?z ) } [?b ?a] | ?b ?a",
    ),
    (
        b"SELECT ?x ?y { ?x <http://e/p> ?z . ?z <http://e/q> ?y }",
        "0 | SELECT * { ?x <http://e/p> ?z . ?z <http://e/q> ?y . } [?x ?z ?y] | ?x ?y",
    ),
    (
        b"PREFIX a: <a:b#> SELECT * { _:x a:p 'y'@EN ; a 'z\\n'^^a:t , _:x FILTER(?u IN (true, 'v')) }",
        "0 | SELECT * { { _:x <a:b#p> \"y\"@en . _:x <http://www.w3.org/1999/02/22-rdf-syntax-ns#type> \"z\\n\"^^<a:b#t> . _:x <http://www.w3.org/1999/02/22-rdf-syntax-ns#type> _:x . } FILTER ( ( ?u IN ( \"true\"^^<http://www.w3.org/2001/XMLSchema#boolean> , \"v\" ) ) ) } [] | ",
    ),
    (
        b"SELECT ?v { VALUES (?u ?v) { (-1 UNDEF) (UNDEF 'x'@en) } }",
        "0 | SELECT * { VALUES ( ?u ?v ) { ( \"-1\"^^<http://www.w3.org/2001/XMLSchema#integer> UNDEF ) ( UNDEF \"x\"@en ) } } [?u ?v] | ?v",
    ),
];

/// How a query's text is cut, or why it is not.
fn shown(alloc: Global, text: &[u8]) -> Result<String, Fail> {
    match prepare(alloc, text) {
        Ok(split) => split_text(alloc, &split),
        Err(fault) => Ok(format!(in alloc; "{fault:?}")?),
    }
}

#[test]
fn queries_are_cut(rt: HostRuntime) -> Result<(), Fail> {
    for &(query, split) in QUERIES.as_slice() {
        let found = shown(rt.alloc(), query)?;
        assert_eq!(rt; found.as_str(), split);
    }
    Ok(())
}
