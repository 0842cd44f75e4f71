//! `try`: the worked examples of the documentation, and the order of refusals.

use crate::running::{run_on, run_over, shelf_of};
use std::test::Fail;

const TWO: &[u8] = b"<http://e/a> <http://e/p> <http://e/b> .\n<http://e/a> <http://e/p> \"x\" .\n";

const OBJECTS: &[u8] = b"SELECT ?o { <http://e/a> <http://e/p> ?o }";

const ROWS: &str = "?o\n<http://e/b>\n\"x\"\n";

/// Lists of quanta, and the counts of the pages. The plan of two triples has five steps: the row that is
/// taken, the two triples, the end of the row and the end of the table. A suspended plan has 65 bytes
/// before its state, and the state 7 bytes, or 19 with a triple.
const QUANTA: [(&str, &str); 10] = [
    ("try|d.nt|q.rq|--quanta|1", "pages 5 steps 5 longest 84\n"),
    ("try|d.nt|q.rq|--quanta|2", "pages 3 steps 5 longest 84\n"),
    ("try|d.nt|q.rq|--quanta|3", "pages 2 steps 5 longest 84\n"),
    ("try|d.nt|q.rq|--quanta|4", "pages 2 steps 5 longest 72\n"),
    ("try|d.nt|q.rq|--quanta|5", "pages 1 steps 5 longest 0\n"),
    ("try|d.nt|q.rq|--quanta|6", "pages 1 steps 5 longest 0\n"),
    (
        "try|d.nt|q.rq|--quanta|10000",
        "pages 1 steps 5 longest 0\n",
    ),
    ("try|d.nt|q.rq|--quanta|1,2", "pages 4 steps 5 longest 84\n"),
    ("try|d.nt|q.rq|--quanta|1,4", "pages 2 steps 5 longest 72\n"),
    (
        "try|d.nt|q.rq|--quanta|1,1,2",
        "pages 4 steps 5 longest 84\n",
    ),
];

#[test]
fn two_objects_by_every_quantum(rt: HostRuntime) -> Result<(), Fail> {
    for &(words, counts) in QUANTA.as_slice() {
        let outcome = run_over(rt.alloc(), TWO, OBJECTS, words)?;
        assert!(rt; outcome.is(0, ROWS, counts), "{words}");
    }
    Ok(())
}

/// Data and a query, and what is put out and told of pages of one step. A repeated variable costs a step
/// where it would get two values.
const SMALL: [(&[u8], &[u8], &str, &str); 2] = [
    (
        b"",
        b"SELECT * {?s ?p ?o}",
        "?s\t?p\t?o\n",
        "pages 3 steps 3 longest 72\n",
    ),
    (
        b"<http://e/a> <http://e/p> <http://e/a> .\n<http://e/a> <http://e/p> <http://e/b> .\n",
        b"SELECT ?x { ?x <http://e/p> ?x }",
        "?x\n<http://e/a>\n",
        "pages 5 steps 5 longest 84\n",
    ),
];

#[test]
fn small_data(rt: HostRuntime) -> Result<(), Fail> {
    for &(document, query, rows, counts) in SMALL.as_slice() {
        let outcome = run_over(rt.alloc(), document, query, "try|d.nt|q.rq|--quanta|1")?;
        assert!(rt; outcome.is(0, rows, counts), "{query:?}");
    }
    Ok(())
}

/// Data, a query and words over an output that fails, and the status with its message. Files come before
/// data, data before the query, the query before the output, and the document before the query's file.
const REFUSALS: [(&[u8], &[u8], &str, u8, &str); 9] = [
    (TWO, OBJECTS, "try|none.nt|q.rq", 3, "sage: file none.nt\n"),
    (TWO, OBJECTS, "try|d.nt|none.rq", 3, "sage: file none.rq\n"),
    (
        TWO,
        OBJECTS,
        "try|none.nt|none.rq",
        3,
        "sage: file none.nt\n",
    ),
    (TWO, OBJECTS, "try|d.nt|q.rq|--quanta|0", 2, "sage: words\n"),
    (TWO, OBJECTS, "try|d.nt|q.rq", 9, "sage: output\n"),
    (
        b"no triple",
        b"no query",
        "try|d.nt|q.rq",
        4,
        "sage: data line 1\n",
    ),
    (b"", b"no query", "try|d.nt|q.rq", 6, "sage: query\n"),
    (
        b"no triple",
        b"no query",
        "try|d.nt|none.rq",
        3,
        "sage: file none.rq\n",
    ),
    (
        b"no triple",
        b"no query",
        "try|none.nt|q.rq",
        3,
        "sage: file none.nt\n",
    ),
];

#[test]
fn refusals_in_order(rt: HostRuntime) -> Result<(), Fail> {
    for &(document, query, words, status, message) in REFUSALS.as_slice() {
        let mut shelf = shelf_of(rt.alloc(), ("d.nt", document), ("q.rq", query), &[])?;
        let outcome = run_on(rt.alloc(), &mut shelf, words, &[0])?;
        assert!(rt; outcome.is(status, "", message), "{words}");
    }
    Ok(())
}
