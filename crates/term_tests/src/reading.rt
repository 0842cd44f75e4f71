//! Lines, and what the grammar says of each.

use nt_text::{DataFault, read_document};
use std::alloc::{AllocError, Global};
use std::test::Fail;
use term_core::{Term, Triple};

/// A term with its kind in front, so that no two terms look alike: `i` and the IRI, `b` and the label,
/// or `l`, the lexical form, the datatype and the tag, each behind a bar.
fn push_shape(out: &mut Vec<u8>, term: &Term) -> Result<(), AllocError> {
    match term {
        Term::Iri(iri) => {
            out.push(b'i')?;
            out.extend_from_slice(iri.bytes())
        }
        Term::Blank(label) => {
            out.push(b'b')?;
            out.extend_from_slice(label.bytes())
        }
        Term::Literal {
            lexical,
            datatype,
            lang,
        } => {
            out.push(b'l')?;
            out.extend_from_slice(lexical.bytes())?;
            out.push(b'|')?;
            out.extend_from_slice(datatype.bytes())?;
            out.push(b'|')?;
            out.extend_from_slice(lang.bytes())
        }
    }
}

/// The shapes of a triple's subject and object.
fn shape_of(alloc: Global, triple: &Triple) -> Result<Vec<u8>, AllocError> {
    let mut out = Vec::new(alloc);
    push_shape(&mut out, &triple.subject)?;
    out.push(b' ')?;
    push_shape(&mut out, &triple.object)?;
    Ok(out)
}

/// Lines with one triple each, and the shapes of its subject and object.
const GOOD: [(&str, &str); 46] = [
    ("<a:s> <a:p> <a:o> .", "ia:s ia:o"),
    ("<a:s><a:p><a:o>.", "ia:s ia:o"),
    ("\t <a:s>\t<a:p> \t<a:o>\t.\t ", "ia:s ia:o"),
    ("<a:s> <a:p> <a:o> .# c", "ia:s ia:o"),
    ("<a:s> <a:p> <a:o> . # <a:t> .", "ia:s ia:o"),
    (
        "<a:s><a:p>\"# o\".#.",
        "ia:s l# o|http://www.w3.org/2001/XMLSchema#string|",
    ),
    (
        "<h+t-9.Z:> <a:p> <a:\u{e9}\u{7f}> .",
        "ih+t-9.Z: ia:\u{e9}\u{7f}",
    ),
    (
        "<\\u0061:b> <a:p> <a:\\u0062\\U0001F600> .",
        "ia:b ia:b\u{1f600}",
    ),
    ("<a:\\u005F\\u005b\\u00E9> <a:p> <a:> .", "ia:_[\u{e9} ia:"),
    (
        "<a:!$&'()*+,;=@/?#[]~%> <a:p> <a:o> .",
        "ia:!$&'()*+,;=@/?#[]~% ia:o",
    ),
    ("_:a <a:p> _:b .", "ba bb"),
    ("_:a.b <a:p> _:a..b .", "ba.b ba..b"),
    ("_:a <a:p> _:b.", "ba bb"),
    ("_:0 <a:p> _:9a .", "b0 b9a"),
    ("_:_ <a:p> _:: .", "b_ b:"),
    ("_:a:b <a:p> _:a-b .", "ba:b ba-b"),
    ("_:a<a:p>_:b.", "ba bb"),
    (
        "_:\u{e9}\u{b7} <a:p> _:a\u{300}\u{203f} .",
        "b\u{e9}\u{b7} ba\u{300}\u{203f}",
    ),
    ("_:\u{10000} <a:p> _:\u{effff} .", "b\u{10000} b\u{effff}"),
    ("_:\u{feff} <a:p> _:a.\u{e9} .", "b\u{feff} ba.\u{e9}"),
    (
        "_:a <a:p> \"\" .",
        "ba l|http://www.w3.org/2001/XMLSchema#string|",
    ),
    (
        "_:a <a:p> \"o o\" .",
        "ba lo o|http://www.w3.org/2001/XMLSchema#string|",
    ),
    (
        "_:a <a:p> \"<'>\t\u{7f}\u{e9}\" .",
        "ba l<'>\t\u{7f}\u{e9}|http://www.w3.org/2001/XMLSchema#string|",
    ),
    (
        "_:a <a:p> \"\\t\\b\\n\\r\\f\" .",
        "ba l\t\u{8}\n\r\u{c}|http://www.w3.org/2001/XMLSchema#string|",
    ),
    (
        "_:a <a:p> \"\\\"\\'\\\\\" .",
        "ba l\"'\\|http://www.w3.org/2001/XMLSchema#string|",
    ),
    (
        "_:a <a:p> \"\\\\\" .",
        "ba l\\|http://www.w3.org/2001/XMLSchema#string|",
    ),
    (
        "_:a <a:p> \"\\u0041\\U00000042\" .",
        "ba lAB|http://www.w3.org/2001/XMLSchema#string|",
    ),
    (
        "_:a <a:p> \"\\u00e9\\u00E9\" .",
        "ba l\u{e9}\u{e9}|http://www.w3.org/2001/XMLSchema#string|",
    ),
    (
        "_:a <a:p> \"\\uD7FF\\uE000\" .",
        "ba l\u{d7ff}\u{e000}|http://www.w3.org/2001/XMLSchema#string|",
    ),
    (
        "_:a <a:p> \"\\U0010FFFF\" .",
        "ba l\u{10ffff}|http://www.w3.org/2001/XMLSchema#string|",
    ),
    (
        "_:a <a:p> \"\\u0022\\u005c\\u000a\" .",
        "ba l\"\\\n|http://www.w3.org/2001/XMLSchema#string|",
    ),
    (
        "_:a <a:p> \"\\u00411\" .",
        "ba lA1|http://www.w3.org/2001/XMLSchema#string|",
    ),
    (
        "_:a <a:p> \"\\u0000\" .",
        "ba l\0|http://www.w3.org/2001/XMLSchema#string|",
    ),
    (
        "_:a <a:p> \"\0\" .",
        "ba l\0|http://www.w3.org/2001/XMLSchema#string|",
    ),
    (
        "_:a <a:p> \"o\"@en .",
        "ba lo|http://www.w3.org/1999/02/22-rdf-syntax-ns#langString|en",
    ),
    (
        "_:a <a:p> \"o\"@en-GB-x1 .",
        "ba lo|http://www.w3.org/1999/02/22-rdf-syntax-ns#langString|en-gb-x1",
    ),
    (
        "_:a <a:p> \"o\"@EN.",
        "ba lo|http://www.w3.org/1999/02/22-rdf-syntax-ns#langString|en",
    ),
    (
        "_:a <a:p> \"o\" \t@de .",
        "ba lo|http://www.w3.org/1999/02/22-rdf-syntax-ns#langString|de",
    ),
    (
        "_:a <a:p> \"o\"@a-0 .",
        "ba lo|http://www.w3.org/1999/02/22-rdf-syntax-ns#langString|a-0",
    ),
    ("_:a <a:p> \"1\"^^<a:t> .", "ba l1|a:t|"),
    ("_:a <a:p> \"1\" ^^ <a:t> .", "ba l1|a:t|"),
    ("_:a <a:p> \"1\"^^<a:\\u0074>.", "ba l1|a:t|"),
    (
        "_:a <a:p> \"1\"^^<http://www.w3.org/2001/XMLSchema#string> .",
        "ba l1|http://www.w3.org/2001/XMLSchema#string|",
    ),
    (
        "_:a <a:p> \"1\"\t.",
        "ba l1|http://www.w3.org/2001/XMLSchema#string|",
    ),
    ("<a:s> <a:p> <a:o> .\r", "ia:s ia:o"),
    ("\r\n# c\r\n\n<a:s> <a:p> <a:o> .", "ia:s ia:o"),
];

/// Lines that are none of the grammar, each in one way.
const BAD: [&str; 79] = [
    "<a:s>",
    "<a:s> <a:p>",
    "<a:s> <a:p> .",
    "<a:s> <a:p> <a:o>",
    "<a:s> <a:p> <a:o> ..",
    "<a:s> <a:p> <a:o> . .",
    "<a:s> <a:p> <a:o> . x",
    "<a:s> <a:p> <a:o> . <a:s> <a:p> <a:o> .",
    "<a:s> <a:p> <a:o> # .",
    "<a:s> # c",
    "<a:s> <a:p> <a:o>\u{c}.",
    "<a:s> <a:p> <a:o>\u{a0}.",
    ".",
    "\u{feff}<a:s> <a:p> <a:o> .",
    "@prefix a: <a:> .",
    "a:s a:p a:o .",
    "\"s\" <a:p> <a:o> .",
    "<a:s> \"p\" <a:o> .",
    "<a:s> _:p <a:o> .",
    "<a:s> a <a:o> .",
    "<a:s> <a:p> 1 .",
    "<a:s> <a:p> true .",
    "<> <a:p> <a:o> .",
    "<s> <a:p> <a:o> .",
    "<:s> <a:p> <a:o> .",
    "<9:s> <a:p> <a:o> .",
    "<a> <a:p> <a:o> .",
    "<a/b:c> <a:p> <a:o> .",
    "<\u{e9}:s> <a:p> <a:o> .",
    "<a:s <a:p> <a:o> .",
    "<a:s s> <a:p> <a:o> .",
    "<a:s\t> <a:p> <a:o> .",
    "<a:\"> <a:p> <a:o> .",
    "<a:{}> <a:p> <a:o> .",
    "<a:|> <a:p> <a:o> .",
    "<a:^> <a:p> <a:o> .",
    "<a:`> <a:p> <a:o> .",
    "<a:\\> <a:p> <a:o> .",
    "<a:\\n> <a:p> <a:o> .",
    "<a:\0> <a:p> <a:o> .",
    "<a:\\u0020> <a:p> <a:o> .",
    "<a:\\u0000> <a:p> <a:o> .",
    "<a:\\u003E> <a:p> <a:o> .",
    "<a:\\U0000005C> <a:p> <a:o> .",
    "<a:\\uD800> <a:p> <a:o> .",
    "<a:\\u00e> <a:p> <a:o> .",
    "_: <a:p> <a:o> .",
    "_:.a <a:p> <a:o> .",
    "_:-a <a:p> <a:o> .",
    "_:\u{b7} <a:p> <a:o> .",
    "_:a\u{d7} <a:p> <a:o> .",
    "_:a. <a:p> <a:o> .",
    "_:a <a:p> _:a.b. .",
    "_ :a <a:p> <a:o> .",
    "_:a <a:p> \"o .",
    "_:a <a:p> \"o\\\" .",
    "_:a <a:p> 'o' .",
    "_:a <a:p> \"\\a\" .",
    "_:a <a:p> \"\\uD800\" .",
    "_:a <a:p> \"\\uDFFF\" .",
    "_:a <a:p> \"\\U00110000\" .",
    "_:a <a:p> \"\\u004g\" .",
    "_:a <a:p> \"\\U0000004\" .",
    "_:a <a:p> \"o\"@ .",
    "_:a <a:p> \"o\"@en- .",
    "_:a <a:p> \"o\"@1n .",
    "_:a <a:p> \"o\"@en--x .",
    "_:a <a:p> \"o\"@en_x .",
    "_:a <a:p> \"o\"@ en .",
    "_:a <a:p> \"o\"@en^^<a:t> .",
    "_:a <a:p> \"o\"^<a:t> .",
    "_:a <a:p> \"o\"^^ .",
    "_:a <a:p> \"o\"^^_:t .",
    "_:a <a:p> \"o\"^^<t> .",
    "_:a <a:p> \"o\"^^a:t .",
    "_:a <a:p> \"o\"^ ^<a:t> .",
    "_:a <a:p> \"o\"^^<http://www.w3.org/1999/02/22-rdf-syntax-ns#langString> .",
    "_:a <a:p> \"o\"^^<http://www.w3.org/1999/02/22-rdf-syntax-ns#\\u006CangString> .",
    "_:a <a:p> \"o\"<a:t> .",
];

/// Whether a line has one triple, whose subject and object have this shape.
fn has_shape(alloc: Global, line: &str, shape: &str) -> bool {
    match read_document(alloc, line.as_bytes()) {
        Ok(triples) => match triples.as_slice() {
            [triple] => match shape_of(alloc, triple) {
                Ok(read) => read.as_slice() == shape.as_bytes(),
                Err(_) => false,
            },
            _ => false,
        },
        Err(_) => false,
    }
}

#[test]
fn reads_lines_of_the_grammar(rt: HostRuntime) {
    let alloc = rt.alloc();
    for &(line, shape) in GOOD.as_slice() {
        assert_eq!(rt; (line, has_shape(alloc, line, shape)), (line, true));
    }
}

/// Why the document is refused; None where it is not.
fn fault_of(alloc: Global, document: &[u8]) -> Option<DataFault> {
    match read_document(alloc, document) {
        Ok(_) => None,
        Err(fault) => Some(fault),
    }
}

/// A document whose third line is this one.
fn with_line(alloc: Global, line: &str) -> Result<Vec<u8>, AllocError> {
    let mut document = Vec::new(alloc);
    document.extend_from_slice(b"# a comment\n_:a <a:p> _:b .\r\n")?;
    document.extend_from_slice(line.as_bytes())?;
    document.extend_from_slice(b"\n_:a <a:p> .\n")?;
    Ok(document)
}

#[test]
fn refuses_other_lines(rt: HostRuntime) -> Result<(), Fail> {
    let alloc = rt.alloc();
    for &line in BAD.as_slice() {
        let document = with_line(alloc, line)?;
        let fault = Some(DataFault::BadLine { line: 3 });
        assert_eq!(rt; (line, fault_of(alloc, &document)), (line, fault));
    }
    Ok(())
}

/// Documents, and why they are refused: the number of the line, or the first byte that is no text.
const FAULTS: [(&[u8], Option<DataFault>); 10] = [
    (b"", None),
    (b" \t\r\n\n\r  # a comment\n", None),
    (b"x", Some(DataFault::BadLine { line: 1 })),
    (b"\r\r\nx", Some(DataFault::BadLine { line: 3 })),
    (b"\n\rx", Some(DataFault::BadLine { line: 3 })),
    (b"<a:s>\n<a:p><a:o>.", Some(DataFault::BadLine { line: 1 })),
    (b"_:a <a:p> \"x\n\" .", Some(DataFault::BadLine { line: 1 })),
    (b"x\n\xff", Some(DataFault::NotUtf8 { at: 2 })),
    (b"\xc3", Some(DataFault::NotUtf8 { at: 0 })),
    (
        b"# \xc3\xa9\xed\xa0\x80",
        Some(DataFault::NotUtf8 { at: 4 }),
    ),
];

#[test]
fn counts_lines_and_names_the_first_byte_that_is_no_text(rt: HostRuntime) {
    for &(document, fault) in FAULTS.as_slice() {
        assert_eq!(rt; fault_of(rt.alloc(), document), fault);
    }
}

/// Adds a byte so many times.
fn push_times(out: &mut Vec<u8>, byte: u8, times: usize) -> Result<(), AllocError> {
    for _ in 0..times {
        out.push(byte)?;
    }
    Ok(())
}

/// Adds the subject and the predicate of such a document.
fn push_subject(out: &mut Vec<u8>, subject: usize) -> Result<(), AllocError> {
    out.extend_from_slice(b"#\n<a:")?;
    push_times(out, b's', subject.saturating_sub(2))?;
    out.extend_from_slice(b"> <a:p> \"")
}

/// A document with one triple behind a comment, whose subject has this many bytes and whose object
/// this many more than the datatype of a string.
fn long_document(alloc: Global, subject: usize, lexical: usize) -> Result<Vec<u8>, AllocError> {
    let mut document = Vec::new(alloc);
    push_subject(&mut document, subject)?;
    push_times(&mut document, b'o', lexical)?;
    document.extend_from_slice(b"\" .")?;
    Ok(document)
}

/// Lengths of the subject and of the object's lexical form, and why the document is refused.
const LONG: [(usize, usize, Option<DataFault>); 3] = [
    (262_144, 262_105, None),
    (262_145, 0, Some(DataFault::TermTooLong { line: 2 })),
    (2, 262_106, Some(DataFault::TermTooLong { line: 2 })),
];

#[test]
fn keeps_the_limit_of_a_term(rt: HostRuntime) -> Result<(), Fail> {
    for &(subject, lexical, fault) in LONG.as_slice() {
        let document = long_document(rt.alloc(), subject, lexical)?;
        assert_eq!(rt; fault_of(rt.alloc(), &document), fault);
    }
    Ok(())
}
