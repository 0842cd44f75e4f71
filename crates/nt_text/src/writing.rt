//! Terms and triples written as text (RDF 1.1 N-Triples, section 2).

ghost use Rattle.std.specs.Prelude.{◌≡◌, ◌++◌, ◌-◌, ◌≤◌, [], length, flat_map, IfOk, OnErr, OnOk};
ghost use Rattle.std.specs.Str.{IsUtf8, bytes_eq};
ghost use Rattle.nt_text.specs.Growth.{IsGrown};
ghost use Rattle.term_core.specs.Texts.{escaped, xsd_string, kind_text, term_text, triple_text};

use crate::classes::{Class, width};
use std::alloc::Global;
use term_core::{Memory, Term, Text, Triple, XSD_STRING};

/// One byte of a string, escaped where it must be (N-Triples, ECHAR).
#[tactic(auto, using(crate::proofs::Growth::grown_same, crate::proofs::Growth::grown_by, crate::proofs::Growth::grown_then))]
fn push_byte(out: &mut Vec<u8>, byte: u8) -> Result<(), Memory>
    ensures written { OnOk result (out.new.items ≡ out.old.items ++ escaped byte) }
    ensures grown { IsGrown out.old.items out.new.items }
{
    if byte == b'\\' {
        out.extend_from_slice(b"\\\\")?;
    } else if byte == b'"' {
        out.extend_from_slice(b"\\\"")?;
    } else if byte == b'\n' {
        out.extend_from_slice(b"\\n")?;
    } else if byte == b'\r' {
        out.extend_from_slice(b"\\r")?;
    } else {
        out.push(byte)?;
    }
    Ok(())
}

/// The first byte, escaped where it must be. It answers what is behind.
#[tactic(auto, using(crate::proofs::Growth::grown_same, crate::proofs::Growth::grown_by, crate::proofs::Growth::grown_then))]
fn push_first<'a>(out: &mut Vec<u8>, left: &'a [u8]) -> Result<&'a [u8], Memory>
    ensures written { IfOk result (λ rest. out.new.items ++ flat_map escaped rest.now
        ≡ out.old.items ++ flat_map escaped left.now) }
    ensures shorter { IfOk result (λ rest. length rest.now ≡ length left.now - 1) }
    ensures grown { IsGrown out.old.items out.new.items }
{
    match left {
        [] => Ok(left),
        [byte, rest @ ..] => {
            push_byte(out, *byte)?;
            Ok(rest)
        }
    }
}

/// The bytes in front of the first that must be escaped, and that one. It answers what is behind.
#[tactic(auto, using(crate::proofs::Growth::grown_same, crate::proofs::Growth::grown_by, crate::proofs::Growth::grown_then))]
fn push_run<'a>(out: &mut Vec<u8>, left: &'a [u8]) -> Result<&'a [u8], Memory>
    ensures written { IfOk result (λ rest. out.new.items ++ flat_map escaped rest.now
        ≡ out.old.items ++ flat_map escaped left.now) }
    ensures shorter { IfOk result (λ rest. length rest.now ≤ length left.now - 1) }
    ensures grown { IsGrown out.old.items out.new.items }
{
    let (run, rest) = left.split_at(width(Class::Plain, left));
    out.extend_from_slice(run)?;
    push_first(out, rest)
}

/// The lexical form of a literal, escaped (N-Triples, STRING_LITERAL_QUOTE), without its quotes.
#[tactic(auto, using(crate::proofs::Growth::grown_same, crate::proofs::Growth::grown_by, crate::proofs::Growth::grown_then))]
fn push_lexical(out: &mut Vec<u8>, lexical: &[u8]) -> Result<(), Memory>
    ensures written { OnOk result (out.new.items ≡ out.old.items ++ flat_map escaped lexical.now) }
    ensures grown { IsGrown out.old.items out.new.items }
{
    let mut left = lexical;
    'runs: while !left.is_empty() {
        left = push_run(out, left)?;
    }
    Ok(())
}

/// Whether a datatype is the one of plain strings.
fn is_plain(datatype: &Text) -> bool
    ensures { result ≡ bytes_eq datatype.now xsd_string }
{
    datatype.as_str() == XSD_STRING
}

/// A datatype behind a literal's closing quote.
#[tactic(auto, using(crate::proofs::Growth::grown_same, crate::proofs::Growth::grown_by, crate::proofs::Growth::grown_then))]
fn push_datatype(out: &mut Vec<u8>, datatype: &Text) -> Result<(), Memory>
    ensures written { OnOk result (out.new.items ≡ out.old.items ++ kind_text datatype.now []) }
    ensures grown { IsGrown out.old.items out.new.items }
{
    if is_plain(datatype) {
        return Ok(());
    }
    out.extend_from_slice(b"^^<")?;
    out.extend_from_slice(datatype.bytes())?;
    out.push(b'>')?;
    Ok(())
}

/// What stands behind a literal's closing quote: its language tag, or else its datatype, unless
/// that is the one of plain strings.
#[tactic(auto, using(crate::proofs::Growth::grown_same, crate::proofs::Growth::grown_by, crate::proofs::Growth::grown_then))]
fn push_kind(out: &mut Vec<u8>, datatype: &Text, lang: &Text) -> Result<(), Memory>
    ensures written { OnOk result (out.new.items ≡ out.old.items ++ kind_text datatype.now lang.now) }
    ensures grown { IsGrown out.old.items out.new.items }
{
    match lang.bytes() {
        [] => push_datatype(out, datatype),
        [first, rest @ ..] => {
            out.push(b'@')?;
            out.push(*first)?;
            out.extend_from_slice(rest)?;
            Ok(())
        }
    }
}

/// Appends a term's text, or a part of it where there is no room.
#[tactic(auto, using(crate::proofs::Growth::grown_same, crate::proofs::Growth::grown_by, crate::proofs::Growth::grown_then))]
fn add_term(out: &mut Vec<u8>, term: &Term) -> Result<(), Memory>
    ensures written { OnOk result (out.new.items ≡ out.old.items ++ term_text term.now) }
    ensures grown { IsGrown out.old.items out.new.items }
{
    match term {
        Term::Iri(iri) => {
            out.push(b'<')?;
            out.extend_from_slice(iri.bytes())?;
            out.push(b'>')?;
        }
        Term::Blank(label) => {
            out.extend_from_slice(b"_:")?;
            out.extend_from_slice(label.bytes())?;
        }
        Term::Literal {
            lexical,
            datatype,
            lang,
        } => {
            out.push(b'"')?;
            push_lexical(out, lexical.bytes())?;
            out.push(b'"')?;
            push_kind(out, datatype, lang)?;
        }
    }
    Ok(())
}

/// Appends a term's text: `<IRI>`, `_:label`, or `"lexical form"` with `@tag` or `^^<datatype>`. Of
/// the bytes that N-Triples lets be escaped, only `\`, `"`, line feed and carriage return are. After
/// an `Err` `out` is as it was.
#[tactic(auto, using(crate::proofs::Growth::front_of_grown))]
pub fn push_term(out: &mut Vec<u8>, term: &Term) -> Result<(), Memory>
    ensures ok { OnOk result (out.new.items ≡ out.old.items ++ term_text term.now) }
    ensures err { OnErr result (out.new.items ≡ out.old.items) }
{
    let length = out.len();
    match add_term(out, term) {
        Ok(()) => Ok(()),
        Err(Memory) => {
            out.truncate(length);
            Err(Memory)
        }
    }
}

/// Appends the line of a triple, or a part of it where there is no room.
#[tactic(auto, using(crate::proofs::Growth::grown_same, crate::proofs::Growth::grown_by, crate::proofs::Growth::grown_then))]
fn add_line(
    out: &mut Vec<u8>,
    subject: &Term,
    predicate: &Term,
    object: &Term,
) -> Result<(), Memory>
    ensures written { OnOk result (out.new.items ≡ out.old.items ++ triple_text (record { subject = subject.now; predicate = predicate.now; object = object.now })) }
    ensures grown { IsGrown out.old.items out.new.items }
{
    push_term(out, subject)?;
    out.push(b' ')?;
    push_term(out, predicate)?;
    out.push(b' ')?;
    push_term(out, object)?;
    out.extend_from_slice(b" .\n")?;
    Ok(())
}

/// Appends the line of a triple: its three terms with a blank between, a blank, a dot and a line
/// feed. After an `Err` `out` is as it was.
#[tactic(auto, using(crate::proofs::Growth::front_of_grown))]
pub fn push_line(
    out: &mut Vec<u8>,
    subject: &Term,
    predicate: &Term,
    object: &Term,
) -> Result<(), Memory>
    ensures ok { OnOk result (out.new.items ≡ out.old.items ++ triple_text (record { subject = subject.now; predicate = predicate.now; object = object.now })) }
    ensures err { OnErr result (out.new.items ≡ out.old.items) }
{
    let length = out.len();
    match add_line(out, subject, predicate, object) {
        Ok(()) => Ok(()),
        Err(Memory) => {
            out.truncate(length);
            Err(Memory)
        }
    }
}

/// Appends a triple's line, as `push_line` does.
pub fn push_triple(out: &mut Vec<u8>, triple: &Triple) -> Result<(), Memory>
    ensures ok { OnOk result (out.new.items ≡ out.old.items ++ triple_text triple.now) }
    ensures err { OnErr result (out.new.items ≡ out.old.items) }
{
    push_line(out, &triple.subject, &triple.predicate, &triple.object)
}

/// The text of bytes that are UTF-8. They are taken, and not copied.
fn text_of(bytes: Vec<u8>) -> Text
    requires { IsUtf8 bytes.items }
    ensures { result ≡ bytes.items }
{
    match String::from_utf8(bytes) {
        Ok(text) => Text::from_string(text),
        Err(_) => unreachable!(),
    }
}

/// A term's text is UTF-8, as the texts in it are. This does nothing.
fn term_is_text(term: &Term)
    ensures { IsUtf8 (term_text term.now) }
{
    match term {
        Term::Iri(iri) => {
            let _iri = iri.bytes();
        }
        Term::Blank(label) => {
            let _label = label.bytes();
        }
        Term::Literal {
            lexical,
            datatype,
            lang,
        } => {
            let _lexical = lexical.bytes();
            let _datatype = datatype.bytes();
            let _lang = lang.bytes();
        }
    }
}

/// A term's text, as `push_term` writes it, in room of its own.
pub fn write_term(alloc: Global, term: &Term) -> Result<Text, Memory>
    ensures { IfOk result (λ text. text ≡ term_text term.now) }
{
    let mut out = Vec::new(alloc);
    push_term(&mut out, term)?;
    term_is_text(term);
    Ok(text_of(out))
}

/// A triple's line, as `push_triple` writes it, in room of its own.
pub fn write_triple(alloc: Global, triple: &Triple) -> Result<Text, Memory>
    ensures { IfOk result (λ text. text ≡ triple_text triple.now) }
{
    let mut out = Vec::new(alloc);
    push_triple(&mut out, triple)?;
    term_is_text(&triple.subject);
    term_is_text(&triple.predicate);
    term_is_text(&triple.object);
    Ok(text_of(out))
}
