//! Documents, good and bad, each with what the grammar of documents gives.

use crate::running::run_over;
use std::alloc::{AllocError, Global};
use std::test::Fail;

const EVERY: &[u8] = b"SELECT * { ?s ?p ?o }";

/// Documents that are read, and how many different triples each has.
const READ: [(&[u8], usize); 40] = [
    (b"", 0),
    (b"\n", 0),
    (b"# only a comment", 0),
    (b" \t", 0),
    (b"\r\n\r\n", 0),
    (b"   # after blanks", 0),
    (b"<http://e/a> <http://e/p> <http://e/b> .", 1),
    (b"<http://e/a> <http://e/p> <http://e/b> .\n", 1),
    (b"<http://e/a> <http://e/p> <http://e/b> .\r", 1),
    (b"<http://e/a> <http://e/p> <http://e/b> .\r\n", 1),
    (b"<http://e/a> <http://e/p> <http://e/b> .\n\n\n", 1),
    (
        b"<http://e/a> <http://e/p> <http://e/b> .\n<http://e/a> <http://e/p> <http://e/b> .",
        1,
    ),
    (
        b"<http://e/a> <http://e/p> <http://e/b> .\r<http://e/a> <http://e/p> \"x\" .",
        2,
    ),
    (
        b"<http://e/a> <http://e/p> <http://e/b> .\r\n<http://e/a> <http://e/p> \"x\" .\n",
        2,
    ),
    (b"# first\n<http://e/a> <http://e/p> <http://e/b> .", 1),
    (b"<http://e/a><http://e/p><http://e/b>.", 1),
    (b"<http://e/a> <http://e/p> \"x\".", 1),
    (b"\t<http://e/a>\t<http://e/p>\t\"x\"\t.\t", 1),
    (b"<http://e/a> <http://e/p> <http://e/b> . # comment", 1),
    (b"<http://e/a> <http://e/p> <http://e/b> .#comment", 1),
    (b"<http://e/a> <http://e/p> \"\" .", 1),
    (b"<http://e/a> <http://e/p> \"a # b\" .", 1),
    (b"<http://e/a> <http://e/p> \"a . b\" .", 1),
    (b"<http://e/a> <http://e/p> \"<x>\" .", 1),
    (b"<http://e/a> <http://e/p> \"a\tb\" .", 1),
    (b"<http://e/a> <http://e/p> \"'\" .", 1),
    (b"<http://e/a> <http://e/p> \"x\xe2\x80\xa8y\" .", 1),
    (b"<http://e/a> <http://e/p> \"\x00\" .", 1),
    (b"<urn:x> <urn:y> <urn:z> .", 1),
    (b"<a:> <b:> <c:> .", 1),
    (b"<a+b-c.d1:x> <urn:y> <urn:z> .", 1),
    (b"<http://e/\xc3\xa9> <http://e/p> \"\xc3\xa9\" .", 1),
    (b"<http://e/\x7f> <http://e/p> \"x\" .", 1),
    (b"<http://e/a#b> <http://e/p> \"x\" .", 1),
    (b"<http://e/%20> <http://e/p> \"x\" .", 1),
    (b"_:a <http://e/p> _:b .\n_:a <http://e/p> _:b .", 1),
    (b"_:a <a:p> \"x\"@en .\n_:a <a:p> \"x\"@EN .", 1),
    (b"_:a <a:p> \"x\"@en .\n_:a <a:p> \"x\" .", 2),
    (b"_:a <a:p> \"\\u0078\" .\n_:a <a:p> \"x\" .", 1),
    (b"_:a <a:p> \"1\"^^<a:t> .\n_:a <a:p> \"1\" .", 2),
];

/// Documents that are refused, and with which message.
const REFUSED: [(&[u8], &str); 11] = [
    (b"x", "sage: data line 1\n"),
    (
        b"_:a <a:p> _:b .\n_:a <a:p> \"x\ny\" .",
        "sage: data line 2\n",
    ),
    (b"\r\n# c\r\r\n<a:s> <a:p> 1 .\nx", "sage: data line 4\n"),
    (b"_:a <a:p> \"\\uD800\" .", "sage: data line 1\n"),
    (b"<http://e/a> <e> \"x\" .", "sage: data line 1\n"),
    (b"_:a <http://e/p> _:a.b. .", "sage: data line 1\n"),
    (b"\xef\xbb\xbf<a:s> <a:p> <a:o> .", "sage: data line 1\n"),
    (b"\xff", "sage: data not utf-8 at 0\n"),
    (b"x\n# \xff", "sage: data not utf-8 at 4\n"),
    (
        b"_:a <a:p> \"\xc3\xa9\xc3\" .",
        "sage: data not utf-8 at 13\n",
    ),
    (
        b"_:a <a:p> \"\xed\xa0\x80\" .",
        "sage: data not utf-8 at 11\n",
    ),
];

#[test]
fn documents_are_read(rt: HostRuntime) -> Result<(), Fail> {
    for &(document, triples) in READ.as_slice() {
        let outcome = run_over(rt.alloc(), document, EVERY, "try|d.nt|q.rq")?;
        assert!(rt; outcome.has_rows(triples), "{document:?}");
    }
    Ok(())
}

#[test]
fn documents_are_refused(rt: HostRuntime) -> Result<(), Fail> {
    for &(document, message) in REFUSED.as_slice() {
        let outcome = run_over(rt.alloc(), document, EVERY, "try|d.nt|q.rq")?;
        assert!(rt; outcome.is(4, "", message), "{document:?}");
    }
    Ok(())
}

/// A document with each kind of term.
const KINDS: &[u8] =
    b"_:a.b <http://e/p> \"caf\\u00e9\"@en-GB .\r\n# c\r\n\r\n<http://e/a><http://e/p>\"\\U0001F600\"^^<http://www.w3.org/2001/XMLSchema#string>.";

/// Its triples, as they are written back in the rows.
const KINDS_ROWS: &str =
    "?s\t?p\t?o\n_:a.b\t<http://e/p>\t\"caf\u{e9}\"@en-gb\n<http://e/a>\t<http://e/p>\t\"\u{1f600}\"\n";

#[test]
fn terms_are_written_back(rt: HostRuntime) -> Result<(), Fail> {
    let outcome = run_over(rt.alloc(), KINDS, EVERY, "try|d.nt|q.rq")?;
    assert!(rt; outcome.is(0, KINDS_ROWS, "pages 1 steps 5 longest 0\n"));
    Ok(())
}

/// A triple whose subject has so many bytes, and what stands behind it.
fn long_subject(alloc: Global, bytes: usize, behind: &[u8]) -> Result<Vec<u8>, AllocError> {
    let mut document = Vec::from_slice(alloc, b"<a:")?;
    for _ in 2..bytes {
        document.push(b's')?;
    }
    document.extend_from_slice(b"> <a:p> <a:o> .")?;
    document.extend_from_slice(behind)?;
    Ok(document)
}

// A subject of 262,144 bytes is the longest.
#[test]
fn the_longest_term(rt: HostRuntime) -> Result<(), Fail> {
    let document = long_subject(rt.alloc(), 262_144, b"")?;
    let outcome = run_over(rt.alloc(), &document, EVERY, "try|d.nt|q.rq")?;
    assert!(rt; outcome.has_rows(1));
    Ok(())
}

#[test]
fn a_term_that_is_too_long(rt: HostRuntime) -> Result<(), Fail> {
    let document = long_subject(rt.alloc(), 262_145, b"\nx")?;
    let outcome = run_over(rt.alloc(), &document, EVERY, "try|d.nt|q.rq")?;
    assert!(rt; outcome.is(4, "", "sage: data line 1 term\n"));
    Ok(())
}
