//! Queries, good and bad, each with what the language and the limits give.

use crate::running::{Outcome, run_over};
use std::alloc::Global;
use std::test::Fail;

/// Queries that are read, and their variables as the answer shows them.
const READ: [(&[u8], &str); 46] = [
    (b"SELECT * { ?s ?p ?o }", "?s\t?p\t?o\n"),
    (b"SELECT*{?s ?p ?o}", "?s\t?p\t?o\n"),
    (b"select * where { ?s ?p ?o . }", "?s\t?p\t?o\n"),
    (b"sElEcT ?s wHeRe{?s ?p ?o.}", "?s\n"),
    (b"\t\r\n SELECT\t*\r\n{\n?s\n?p\n?o\n.\n}\n", "?s\t?p\t?o\n"),
    (b"SELECT ?s?p?o{?s?p?o}", "?s\t?p\t?o\n"),
    (b"SELECT ?s{?s<http://e/p>\"x\"}", "?s\n"),
    (b"SELECT ?s WHERE{?s<http://e/p>\"x\".}", "?s\n"),
    (b"SELECT ?o ?p ?s { ?s ?p ?o }", "?o\t?p\t?s\n"),
    (b"SELECT ?o ?o { ?s ?p ?o }", "?o\n"),
    (b"SELECT ?x { ?s ?p ?o }", "?x\n"),
    (b"SELECT $s { ?s ?p ?o }", "?s\n"),
    (b"SELECT ?s $s { ?s ?p ?o }", "?s\n"),
    (b"SELECT * { $a $b $c }", "?a\t?b\t?c\n"),
    (b"SELECT * { ?a ?a ?a }", "?a\n"),
    (b"SELECT * { ?a ?b ?a }", "?a\t?b\n"),
    (b"SELECT ?S ?s { ?S ?p ?s }", "?S\t?s\n"),
    (b"SELECT ?_ { ?_ ?p ?o }", "?_\n"),
    (b"SELECT ?1a { ?1a ?p ?o }", "?1a\n"),
    (b"SELECT ?WHERE { ?WHERE ?p ?o }", "?WHERE\n"),
    (b"SELECT ?xWHERE { ?xWHERE ?p ?o }", "?xWHERE\n"),
    (b"SELECT * { <http://e/a> <http://e/p> <http://e/b> }", "\n"),
    (b"SELECT * { <http://e/a> <http://e/p> \"x\" }", "\n"),
    (b"SELECT * { ?s <http://e/p> \"\" }", "?s\n"),
    (b"SELECT * { ?s ?p \"a b\" . }", "?s\t?p\n"),
    (b"SELECT * { ?s ?p \"\xc3\xa9\" }", "?s\t?p\n"),
    (b"SELECT * { <urn:\xc3\xa9> ?p ?o }", "?p\t?o\n"),
    (b"SELECT * { ?s ?p \"#\" }", "?s\t?p\n"),
    (b"SELECT * { ?s ?p \"'\" }", "?s\t?p\n"),
    (b"SELECT * { ?s ?p <a:> }", "?s\t?p\n"),
    (b"SELECT ?o WHERE { <http://e/a> <http://e/p> ?o.}", "?o\n"),
    (b"SELECT ?\xc3\xa9 { ?s ?p ?o }", "?\u{e9}\n"),
    (b"SELECT REDUCED ?s { ?s ?p ?o }", "?s\n"),
    (b"SELECT * { ?s ?p ?o } OFFSET 0", "?s\t?p\t?o\n"),
    (b"SELECT * { { ?s ?p ?o } }", "?s\t?p\t?o\n"),
    (b"SELECT * { {} ?s ?p ?o {} }", "?s\t?p\t?o\n"),
    (b"SELECT * { _:a ?p ?o }", "?p\t?o\n"),
    (b"SELECT * { _:a ?p _:a }", "?p\n"),
    (b"SELECT * { ?s a ?o }", "?s\t?o\n"),
    (b"SELECT * { ?s ?p -1.5 }", "?s\t?p\n"),
    (b"SELECT * { ?s ?p true }", "?s\t?p\n"),
    (b"SELECT * { ?s ?p \"x\"@en }", "?s\t?p\n"),
    (b"SELECT * { ?s ?p 'x'^^<a:b> }", "?s\t?p\n"),
    (b"SELECT * { ?s ?p \"x\\n\" } # c", "?s\t?p\n"),
    (b"# c\nSELECT * { ?s ?p ?o }", "?s\t?p\t?o\n"),
    (b"PREFIX e: <http://e/> SELECT * { ?s e:p ?o }", "?s\t?o\n"),
];

/// Queries that are good, and ask for more than one triple pattern.
const MORE: [&[u8]; 20] = [
    b"SELECT * {}",
    b"SELECT * { ?s ?p ?o ; ?q ?r }",
    b"SELECT * { ?s ?p ?o . ?o ?p ?s }",
    b"SELECT * { ?s ?p ?o FILTER(true) }",
    b"SELECT * { { ?s ?p ?o } UNION { ?s ?p ?o } }",
    b"SELECT * { ?s ?p ?o OPTIONAL { ?o ?p ?q } }",
    b"SELECT * { ?s ?p ?o MINUS { ?o ?p ?q } }",
    b"SELECT * { ?s ?p ?o BIND(1 AS ?x) }",
    b"SELECT * { ?s ?p ?o VALUES ?x { 1 } }",
    b"SELECT * { VALUES ?x { 1 } }",
    b"SELECT DISTINCT * { ?s ?p ?o }",
    b"SELECT (1 AS ?x) { ?s ?p ?o }",
    b"SELECT ?s (?p AS ?x) { ?s ?p ?o }",
    b"SELECT (COUNT(*) AS ?n) { ?s ?p ?o }",
    b"SELECT ?s { ?s ?p ?o } GROUP BY ?s",
    b"SELECT ?s { ?s ?p ?o } GROUP BY ?s HAVING (?s = 1)",
    b"SELECT * { ?s ?p ?o } ORDER BY ?s",
    b"SELECT * { ?s ?p ?o } LIMIT 1",
    b"SELECT * { ?s ?p ?o } OFFSET 1",
    b"SELECT * { ?s ?p ?o } LIMIT 0 OFFSET 0",
];

/// Texts that are refused, and what is told.
const REFUSED: [(&[u8], &str); 42] = [
    (b"", "sage: query\n"),
    (b"SELECT", "sage: query\n"),
    (b"SELECT *", "sage: query\n"),
    (b"SELECT * {", "sage: query\n"),
    (b"SELECT * { ?s }", "sage: query\n"),
    (b"SELECT * { ?s ?p }", "sage: query\n"),
    (b"SELECT * { ?s ?p ?o", "sage: query\n"),
    (b"SELECT { ?s ?p ?o }", "sage: query\n"),
    (b"SELECT * ?s { ?s ?p ?o }", "sage: query\n"),
    (b"SELECT ?s * { ?s ?p ?o }", "sage: query\n"),
    (b"SELECT * { ?s ?p ?o ?x }", "sage: query\n"),
    (b"SELECT * { ?s ?p ?o . . }", "sage: query\n"),
    (b"SELECT * { . ?s ?p ?o }", "sage: query\n"),
    (b"SELECT * { ?s ?p ?o } x", "sage: query\n"),
    (b"SELECT * { ?s ?p ?o } }", "sage: query\n"),
    (b"SELECT * WHERE WHERE { ?s ?p ?o }", "sage: query\n"),
    (b"WHERE * { ?s ?p ?o }", "sage: query\n"),
    (b"SELECT * (?s ?p ?o)", "sage: query\n"),
    (b"SELECTx * { ?s ?p ?o }", "sage: query\n"),
    (b"SELECT, ?s { ?s ?p ?o }", "sage: query\n"),
    (b"SELECT * { ?s \"x\" ?o }", "sage: query\n"),
    (b"SELECT * { ?s A ?o }", "sage: query\n"),
    (b"SELECT * { ?s _:a ?o }", "sage: query\n"),
    (b"SELECT * { ?s p:q ?o }", "sage: query\n"),
    (b"SELECT ?x ?x <http://e/p> }", "sage: query\n"),
    (b"SELECT ? { ?s ?p ?o }", "sage: query\n"),
    (b"SELECT ?a-b { ?s ?p ?o }", "sage: query\n"),
    (b"SELECT * { <e> ?p ?o }", "sage: query\n"),
    (b"SELECT\xc2\xa0* { ?s ?p ?o }", "sage: query lex 6\n"),
    (b"SELECT * { ?s ?p \"x\ny\" }", "sage: query lex 17\n"),
    (b"SELECT ?x { ?x <http://e/p> \"a }", "sage: query lex 28\n"),
    (b"\xff", "sage: query lex 0\n"),
    (b"SELECT * { ?s ?p \"\xc3\" }", "sage: query lex 18\n"),
    (b"ASK { ?s ?p ?o }", "sage: query unsupported ASK\n"),
    (
        b"construct { ?s ?p ?o } where {}",
        "sage: query unsupported construct\n",
    ),
    (
        b"SELECT ?x { ?x <http://e/p> 1e0 }",
        "sage: query unsupported 1e0\n",
    ),
    (
        b"SELECT * { GRAPH ?g { ?s ?p 1E0 } }",
        "sage: query unsupported GRAPH\n",
    ),
    (
        b"SELECT ?x { ?x <http://e/p> ?y BIND(1 AS ?y) }",
        "sage: query scope ?y\n",
    ),
    (b"SELECT (1 AS ?y) { ?x ?p ?y }", "sage: query scope ?y\n"),
    (
        b"SELECT * { _:a ?p ?o OPTIONAL { _:a ?p ?q } }",
        "sage: query scope _:a\n",
    ),
    (
        b"SELECT * { ?x ?p ?y } GROUP BY ?x",
        "sage: query scope *\n",
    ),
    (
        b"SELECT ?y { ?x ?p ?y } GROUP BY ?x",
        "sage: query scope ?y\n",
    ),
];

/// Texts of pieces, each so many times, that pass a limit or are at it, and what is told.
const LARGE: [([(&str, usize); 5], &str); 13] = [
    (
        [("", 0), (" ", 262_145), ("", 0), ("", 0), ("", 0)],
        "sage: query too large text\n",
    ),
    (
        [("", 0), (" ", 262_144), ("", 0), ("", 0), ("", 0)],
        "sage: query\n",
    ),
    (
        [("SELECT *", 1), ("{", 257), ("}", 257), ("", 0), ("", 0)],
        "sage: query too large nesting\n",
    ),
    (
        [("SELECT *", 1), ("{", 256), ("}", 256), ("", 0), ("", 0)],
        "sage: query form\n",
    ),
    (
        [
            ("SELECT *{", 1),
            ("?s ?p ?o .", 100),
            ("}", 1),
            ("", 0),
            ("", 0),
        ],
        "sage: query too large depth\n",
    ),
    (
        [
            ("SELECT *{", 1),
            ("?s ?p ?o .", 99),
            ("}", 1),
            ("", 0),
            ("", 0),
        ],
        "sage: query form\n",
    ),
    (
        [
            ("SELECT *{", 1),
            ("MINUS{}", 37_447),
            ("}", 1),
            ("", 0),
            ("", 0),
        ],
        "sage: query too large depth\n",
    ),
    (
        [
            ("SELECT *{", 1),
            ("{}UNION", 37_447),
            ("{}}", 1),
            ("", 0),
            ("", 0),
        ],
        "sage: query too large depth\n",
    ),
    (
        [
            ("SELECT *{FILTER", 1),
            ("(!", 99),
            ("(?a", 1),
            (")", 100),
            ("}", 1),
        ],
        "sage: query form\n",
    ),
    (
        [
            ("SELECT *{FILTER", 1),
            ("(!", 100),
            ("(?a", 1),
            (")", 101),
            ("}", 1),
        ],
        "sage: query too large depth\n",
    ),
    (
        [
            ("SELECT *{VALUES ?v{", 1),
            ("1 ", 2_000),
            ("}}", 1),
            ("", 0),
            ("", 0),
        ],
        "sage: query too large weight\n",
    ),
    (
        [
            ("SELECT *{VALUES ?v{", 1),
            ("1 ", 1_999),
            ("}}", 1),
            ("", 0),
            ("", 0),
        ],
        "sage: query form\n",
    ),
    (
        [
            ("PREFIX p:<a:", 1),
            ("x", 300),
            ("> SELECT *{VALUES ?v{", 1),
            ("p:a ", 1_000),
            ("}}", 1),
        ],
        "sage: query too large part\n",
    ),
];

fn push_times(text: &mut Vec<u8>, piece: &str, times: usize) -> Result<(), Fail> {
    for _ in 0..times {
        text.extend_from_slice(piece.as_bytes())?;
    }
    Ok(())
}

fn text_of(alloc: Global, pieces: &[(&str, usize)]) -> Result<Vec<u8>, Fail> {
    let mut text = Vec::new(alloc);
    for &(piece, times) in pieces {
        push_times(&mut text, piece, times)?;
    }
    Ok(text)
}

/// Runs the query of these pieces over no data.
fn run_pieces(alloc: Global, pieces: &[(&str, usize)]) -> Result<Outcome, Fail> {
    let query = text_of(alloc, pieces)?;
    run_over(alloc, b"", &query, "try|d.nt|q.rq")
}

#[test]
fn queries_are_read(rt: HostRuntime) -> Result<(), Fail> {
    for &(query, header) in READ.as_slice() {
        let outcome = run_over(rt.alloc(), b"", query, "try|d.nt|q.rq")?;
        assert!(rt; outcome.has_out(0, header), "{query:?}");
    }
    Ok(())
}

#[test]
fn more_is_not_answered(rt: HostRuntime) -> Result<(), Fail> {
    for &query in MORE.as_slice() {
        let outcome = run_over(rt.alloc(), b"", query, "try|d.nt|q.rq")?;
        assert!(rt; outcome.is(6, "", "sage: query form\n"), "{query:?}");
    }
    Ok(())
}

#[test]
fn queries_are_refused(rt: HostRuntime) -> Result<(), Fail> {
    for &(query, message) in REFUSED.as_slice() {
        let outcome = run_over(rt.alloc(), b"", query, "try|d.nt|q.rq")?;
        assert!(rt; outcome.is(6, "", message), "{query:?}");
    }
    Ok(())
}

#[test]
fn large_queries(rt: HostRuntime) -> Result<(), Fail> {
    for (pieces, message) in LARGE.as_slice() {
        let outcome = run_pieces(rt.alloc(), pieces.as_slice())?;
        assert!(rt; outcome.is(6, "", message), "{pieces:?}");
    }
    Ok(())
}
