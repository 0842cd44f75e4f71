//! Queries, and what they mean as algebra (SPARQL 1.1, section 18.2.2), worked by hand.

use crate::showing::algebra_text;
use sparql_algebra::translate;
use sparql_read::read_query;
use std::alloc::Global;
use std::test::Fail;

/// Queries, and their algebra.
pub(crate) const QUERIES: [(&[u8], &str); 50] = [
    (b"SELECT * {}", "Bgp()"),
    (b"SELECT * { ?a <a:p> ?b }", "Bgp(?a <a:p> ?b)"),
    (
        b"SELECT * { ?a <a:p> ?b . ?b <a:q> ?c . }",
        "Bgp(?a <a:p> ?b . ?b <a:q> ?c)",
    ),
    (
        b"SELECT * { ?a <a:p> ?b FILTER(?b = ?a) ?b <a:q> ?c }",
        "Filter(( ?b = ?a ), Bgp(?a <a:p> ?b . ?b <a:q> ?c))",
    ),
    (
        b"SELECT * { ?a <a:p> ?b FILTER(?a) FILTER(?b) }",
        "Filter(( ?a && ?b ), Bgp(?a <a:p> ?b))",
    ),
    (
        b"SELECT * { FILTER(?a) ?a <a:p> ?b FILTER(?b) ?b <a:q> ?c FILTER(?c) }",
        "Filter(( ?a && ?b && ?c ), Bgp(?a <a:p> ?b . ?b <a:q> ?c))",
    ),
    (b"SELECT * { FILTER(?a) }", "Filter(?a, Bgp())"),
    (b"SELECT * { { ?a <a:p> ?b } }", "Bgp(?a <a:p> ?b)"),
    (b"SELECT * { { { ?a <a:p> ?b } } }", "Bgp(?a <a:p> ?b)"),
    (
        b"SELECT * { { ?a <a:p> ?b } { ?b <a:q> ?c } }",
        "Join(Bgp(?a <a:p> ?b), Bgp(?b <a:q> ?c))",
    ),
    (
        b"SELECT * { ?a <a:p> ?b { ?b <a:q> ?c } }",
        "Join(Bgp(?a <a:p> ?b), Bgp(?b <a:q> ?c))",
    ),
    (
        b"SELECT * { { ?a <a:p> ?b } ?b <a:q> ?c }",
        "Join(Bgp(?a <a:p> ?b), Bgp(?b <a:q> ?c))",
    ),
    (
        b"SELECT * { ?a <a:p> ?b { ?b <a:q> ?c } ?c <a:r> ?d }",
        "Join(Join(Bgp(?a <a:p> ?b), Bgp(?b <a:q> ?c)), Bgp(?c <a:r> ?d))",
    ),
    (b"SELECT * { {} ?a <a:p> ?b {} }", "Bgp(?a <a:p> ?b)"),
    (b"SELECT * { {} {} }", "Bgp()"),
    (
        b"SELECT * { { FILTER(?a) } ?a <a:p> ?b }",
        "Join(Filter(?a, Bgp()), Bgp(?a <a:p> ?b))",
    ),
    (
        b"SELECT * { ?a <a:p> ?b FILTER(?a) { ?b <a:q> ?c } }",
        "Filter(?a, Join(Bgp(?a <a:p> ?b), Bgp(?b <a:q> ?c)))",
    ),
    (
        b"SELECT * { ?a <a:p> ?b OPTIONAL { ?b <a:q> ?c } }",
        "LeftJoin(Bgp(?a <a:p> ?b), Bgp(?b <a:q> ?c))",
    ),
    (
        b"SELECT * { ?a <a:p> ?b OPTIONAL { ?b <a:q> ?c FILTER(?c = ?a) } }",
        "LeftJoin(Bgp(?a <a:p> ?b), Bgp(?b <a:q> ?c), ( ?c = ?a ))",
    ),
    (
        b"SELECT * { ?a <a:p> ?b OPTIONAL { FILTER(?a) ?b <a:q> ?c FILTER(?b) } }",
        "LeftJoin(Bgp(?a <a:p> ?b), Bgp(?b <a:q> ?c), ( ?a && ?b ))",
    ),
    (
        b"SELECT * { ?a <a:p> ?b OPTIONAL { { ?b <a:q> ?c FILTER(?a) } } }",
        "LeftJoin(Bgp(?a <a:p> ?b), Filter(?a, Bgp(?b <a:q> ?c)))",
    ),
    (
        b"SELECT * { OPTIONAL { ?a <a:p> ?b } }",
        "LeftJoin(Bgp(), Bgp(?a <a:p> ?b))",
    ),
    (b"SELECT * { OPTIONAL {} }", "LeftJoin(Bgp(), Bgp())"),
    (
        b"SELECT * { ?a <a:p> ?b OPTIONAL { ?b <a:q> ?c } OPTIONAL { ?c <a:r> ?d } }",
        "LeftJoin(LeftJoin(Bgp(?a <a:p> ?b), Bgp(?b <a:q> ?c)), Bgp(?c <a:r> ?d))",
    ),
    (
        b"SELECT * { ?a <a:p> ?b OPTIONAL { ?b <a:q> ?c OPTIONAL { ?c <a:r> ?d } } }",
        "LeftJoin(Bgp(?a <a:p> ?b), LeftJoin(Bgp(?b <a:q> ?c), Bgp(?c <a:r> ?d)))",
    ),
    (
        b"SELECT * { ?a <a:p> ?b OPTIONAL { ?b <a:q> ?c } ?c <a:r> ?d }",
        "Join(LeftJoin(Bgp(?a <a:p> ?b), Bgp(?b <a:q> ?c)), Bgp(?c <a:r> ?d))",
    ),
    (
        b"SELECT * { ?a <a:p> ?b FILTER(?b > ?a) OPTIONAL { ?b <a:q> ?c FILTER(?c > ?a) } }",
        "Filter(( ?b > ?a ), LeftJoin(Bgp(?a <a:p> ?b), Bgp(?b <a:q> ?c), ( ?c > ?a )))",
    ),
    (
        b"SELECT * { { ?a <a:p> ?b } UNION { ?b <a:q> ?c } }",
        "Union(Bgp(?a <a:p> ?b), Bgp(?b <a:q> ?c))",
    ),
    (
        b"SELECT * { { ?a <a:p> ?b } UNION { ?b <a:q> ?c } UNION { ?c <a:r> ?d } }",
        "Union(Union(Bgp(?a <a:p> ?b), Bgp(?b <a:q> ?c)), Bgp(?c <a:r> ?d))",
    ),
    (
        b"SELECT * { ?a <a:p> ?b { ?b <a:q> ?c } UNION { ?c <a:r> ?d } }",
        "Join(Bgp(?a <a:p> ?b), Union(Bgp(?b <a:q> ?c), Bgp(?c <a:r> ?d)))",
    ),
    (
        b"SELECT * { {} UNION { ?a <a:p> ?b } }",
        "Union(Bgp(), Bgp(?a <a:p> ?b))",
    ),
    (
        b"SELECT * { { { ?a <a:p> ?b } UNION { ?b <a:q> ?c } } UNION { ?c <a:r> ?d } }",
        "Union(Union(Bgp(?a <a:p> ?b), Bgp(?b <a:q> ?c)), Bgp(?c <a:r> ?d))",
    ),
    (
        b"SELECT * { { ?a <a:p> ?b } UNION { { ?b <a:q> ?c } UNION { ?c <a:r> ?d } } }",
        "Union(Bgp(?a <a:p> ?b), Union(Bgp(?b <a:q> ?c), Bgp(?c <a:r> ?d)))",
    ),
    (
        b"SELECT * { { ?a <a:p> ?b OPTIONAL { ?b <a:q> ?c } } UNION { ?c <a:r> ?d } }",
        "Union(LeftJoin(Bgp(?a <a:p> ?b), Bgp(?b <a:q> ?c)), Bgp(?c <a:r> ?d))",
    ),
    (
        b"SELECT * { ?a <a:p> ?b MINUS { ?b <a:q> ?c } }",
        "Minus(Bgp(?a <a:p> ?b), Bgp(?b <a:q> ?c))",
    ),
    (
        b"SELECT * { MINUS { ?a <a:p> ?b } }",
        "Minus(Bgp(), Bgp(?a <a:p> ?b))",
    ),
    (
        b"SELECT * { ?a <a:p> ?b MINUS { ?b <a:q> ?c FILTER(?c) } }",
        "Minus(Bgp(?a <a:p> ?b), Filter(?c, Bgp(?b <a:q> ?c)))",
    ),
    (
        b"SELECT * { ?a <a:p> ?b MINUS { ?b <a:q> ?c } ?c <a:r> ?d }",
        "Join(Minus(Bgp(?a <a:p> ?b), Bgp(?b <a:q> ?c)), Bgp(?c <a:r> ?d))",
    ),
    (
        b"SELECT * { ?a <a:p> ?b BIND(?a AS ?x) }",
        "Extend(Bgp(?a <a:p> ?b), ?x, ?a)",
    ),
    (b"SELECT * { BIND(?a AS ?x) }", "Extend(Bgp(), ?x, ?a)"),
    (
        b"SELECT * { ?a <a:p> ?b BIND(?a AS ?x) ?b <a:q> ?c }",
        "Join(Extend(Bgp(?a <a:p> ?b), ?x, ?a), Bgp(?b <a:q> ?c))",
    ),
    (
        b"SELECT * { ?a <a:p> ?b BIND(?a AS ?x) FILTER(?x) }",
        "Filter(?x, Extend(Bgp(?a <a:p> ?b), ?x, ?a))",
    ),
    (b"SELECT * { VALUES ?v { 1 2 } }", "Table(?v; 2)"),
    (
        b"SELECT * { ?a <a:p> ?b VALUES ?v { 1 } }",
        "Join(Bgp(?a <a:p> ?b), Table(?v; 1))",
    ),
    (
        b"SELECT * { VALUES ?v { 1 } ?a <a:p> ?b }",
        "Join(Table(?v; 1), Bgp(?a <a:p> ?b))",
    ),
    (
        b"SELECT * { VALUES (?v ?w) { (1 UNDEF) (2 3) } ?b <a:q> ?c }",
        "Join(Table(?v ?w; 2), Bgp(?b <a:q> ?c))",
    ),
    (
        b"SELECT * { ?a a ?b }",
        "Bgp(?a <http://www.w3.org/1999/02/22-rdf-syntax-ns#type> ?b)",
    ),
    (
        b"SELECT * { ?a <a:p> ?b ; <a:q> ?c , ?d }",
        "Bgp(?a <a:p> ?b . ?a <a:q> ?c . ?a <a:q> ?d)",
    ),
    (b"SELECT * { _:x <a:p> 'y'@en }", "Bgp(_:x <a:p> \"y\"@en)"),
    (
        b"SELECT * { ?a <a:p> ?b } ORDER BY ?a LIMIT 1",
        "Bgp(?a <a:p> ?b)",
    ),
];

/// The algebra of a query's text, or what kept it from being read.
fn shown(alloc: Global, text: &[u8]) -> Result<String, Fail> {
    match read_query(alloc, text) {
        Ok(query) => algebra_text(alloc, &translate(alloc, &query)?),
        Err(fault) => Ok(format!(in alloc; "{fault:?}")?),
    }
}

#[test]
fn queries_mean(rt: HostRuntime) -> Result<(), Fail> {
    for &(query, algebra) in QUERIES.as_slice() {
        let found = shown(rt.alloc(), query)?;
        assert_eq!(rt; found.as_str(), algebra);
    }
    Ok(())
}
