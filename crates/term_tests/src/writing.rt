//! Terms and triples, and the texts of both (RDF 1.1 N-Triples, sections 2 and 7).

use crate::spelled::{STRING, Spelled, term};
use nt_text::{push_line, push_term, push_triple, read_document, write_term, write_triple};
use std::alloc::Global;
use std::test::Fail;
use term_core::{Memory, Triple};

/// The lines of triples.
fn lines_of(alloc: Global, triples: &[Triple]) -> Result<Vec<u8>, Memory> {
    let mut out = Vec::new(alloc);
    for triple in triples {
        out.extend_from_slice(write_triple(alloc, triple)?.bytes())?;
    }
    Ok(out)
}

/// Whether the triples of a document are written as these lines.
fn is_rewritten(alloc: Global, document: &str, lines: &str) -> bool {
    match read_document(alloc, document.as_bytes()) {
        Ok(triples) => match lines_of(alloc, triples.as_slice()) {
            Ok(out) => out.as_slice() == lines.as_bytes(),
            Err(_) => false,
        },
        Err(_) => false,
    }
}

/// Documents, and the same triples as they are written.
const DOCUMENTS: [(&str, &str); 8] = [
    (
        concat!(
            "_:a.b <http://e/p> \"caf\\u00e9\"@en-GB .\r\n# c\r\n\r\n",
            "<http://e/a><http://e/p>\"\\U0001F600\"^^<http://www.w3.org/2001/XMLSchema#string>.",
        ),
        concat!(
            "_:a.b <http://e/p> \"caf\u{e9}\"@en-gb .\n",
            "<http://e/a> <http://e/p> \"\u{1F600}\" .\n",
        ),
    ),
    ("# c", ""),
    (
        "_:a <a:p> \"\\\\\\\"\\n\\r\" .",
        "_:a <a:p> \"\\\\\\\"\\n\\r\" .\n",
    ),
    (
        "_:a <a:p> \"\\t\\b\\f\\'\\u007f\" .",
        "_:a <a:p> \"\t\u{8}\u{c}'\u{7f}\" .\n",
    ),
    (
        "_:a <a:p> \"\\u005C\\u0022\\u000A\\u000D\" .",
        "_:a <a:p> \"\\\\\\\"\\n\\r\" .\n",
    ),
    (
        "_:a <a:p> \"1\"^^<http://www.w3.org/2001/XMLSchema#integer> .",
        "_:a <a:p> \"1\"^^<http://www.w3.org/2001/XMLSchema#integer> .\n",
    ),
    (
        "_:a <a:p> \"\\\\\\u005C\"^^ <a:\\u0074> .",
        "_:a <a:p> \"\\\\\\\\\"^^<a:t> .\n",
    ),
    ("<a:s>\t<a:p>_:o.#", "<a:s> <a:p> _:o .\n"),
];

#[test]
fn writes_what_was_read(rt: HostRuntime) {
    for &(document, lines) in DOCUMENTS.as_slice() {
        let first = is_rewritten(rt.alloc(), document, lines);
        let again = is_rewritten(rt.alloc(), lines, lines);
        assert_eq!(rt; (document, first, again), (document, true, true));
    }
}

/// Terms, and their texts.
const TERMS: [(Spelled, &str); 6] = [
    (
        ('l', "a\"\\\n\r\t", "a:t", ""),
        "\"a\\\"\\\\\\n\\r\t\"^^<a:t>",
    ),
    (('l', "", STRING, ""), "\"\""),
    (('l', "\\", STRING, ""), "\"\\\\\""),
    (('l', "no escape", STRING, "en"), "\"no escape\"@en"),
    (('i', "a:s", "", ""), "<a:s>"),
    (('b', "s", "", ""), "_:s"),
];

/// Whether both writers give this text.
fn is_written(alloc: Global, spelled: Spelled, wanted: &str) -> Result<bool, Fail> {
    let written = term(alloc, spelled)?;
    let text = write_term(alloc, &written)?;
    let mut out = Vec::new(alloc);
    push_term(&mut out, &written)?;
    Ok(text.as_str() == wanted && out.as_slice() == wanted.as_bytes())
}

#[test]
fn writes_terms(rt: HostRuntime) -> Result<(), Fail> {
    for &(spelled, wanted) in TERMS.as_slice() {
        assert!(rt; is_written(rt.alloc(), spelled, wanted)?, "{wanted}");
    }
    Ok(())
}

/// The line of a triple, and that of the triple turned round.
fn both_lines(alloc: Global, triple: &Triple) -> Result<Vec<u8>, Memory> {
    let mut out = Vec::new(alloc);
    push_triple(&mut out, triple)?;
    push_line(&mut out, &triple.object, &triple.predicate, &triple.subject)?;
    Ok(out)
}

/// Whether the one triple of a document has these two lines.
fn has_lines(alloc: Global, document: &str, lines: &str) -> bool {
    match read_document(alloc, document.as_bytes()) {
        Ok(triples) => match triples.as_slice() {
            [triple] => match both_lines(alloc, triple) {
                Ok(out) => out.as_slice() == lines.as_bytes(),
                Err(_) => false,
            },
            _ => false,
        },
        Err(_) => false,
    }
}

#[test]
fn writes_lines(rt: HostRuntime) {
    let lines = "<a:s> <a:p> _:o .\n_:o <a:p> <a:s> .\n";
    assert!(rt; has_lines(rt.alloc(), "<a:s> <a:p> _:o .\n", lines));
}
