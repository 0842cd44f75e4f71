//! Documents, their store files, and what a store over such a file answers.

use nt_text::read_document;
use sage_outside::{Blocks, MemBlocks, ReadFault, StoreFault, tag};
use std::alloc::{AllocError, Global};
use std::process::Abort;
use std::test::Fail;
use store_image::{have_short_terms, image};
use term_core::{IdTriple, Items, Pattern, Place, Term, Text, Triple};
use triple_store::{OpenFault, Range, Store};

/// Six blocks in each format: the header; the numbers 0, 11, 22, 33 and 82; the records; and trees of one
/// block with the entries 0 2 1, 0 2 3 by subject, 2 1 0, 2 3 0 by predicate, 1 0 2, 3 0 2 by object. By
/// rank the terms are `http://e/a`, `http://e/b`, `http://e/p` and the string.
pub(crate) const TWO: &str =
    "<http://e/a> <http://e/p> <http://e/b> .\n<http://e/a> <http://e/p> \"x\" .\n";

/// Four terms, `i:a`, `i:b`, `i:p` and `i:q`, and the triples 0 2 1, 0 3 1 and 1 2 0.
pub(crate) const THREE: &str = "<i:b> <i:p> <i:a> .\n<i:a> <i:q> <i:b> .\n<i:a> <i:p> <i:b> .\n";

/// The triples of a document.
pub(crate) fn triples_of(alloc: Global, document: &str) -> Result<Items<Triple>, Fail> {
    match read_document(alloc, document.as_bytes()) {
        Ok(triples) => Ok(triples),
        Err(_) => Err("no document")?,
    }
}

/// The store file of a document in format 1 or 2.
pub(crate) fn image_of(alloc: Global, document: &str, format: u8) -> Result<Vec<u8>, Fail> {
    match read_document(alloc, document.as_bytes()) {
        Ok(triples) => {
            let few = triples.len() <= 4194303 && have_short_terms(triples.as_slice());
            if few && (format == 1 || format == 2) {
                Ok(store_image::image_of(alloc, triples.as_slice(), format)?)
            } else {
                Err("too large")?
            }
        }
        Err(_) => Err("no document")?,
    }
}

/// The store file of a document, as it is written where no format is named.
pub(crate) fn image_of_data(alloc: Global, document: &str) -> Result<Vec<u8>, Fail> {
    match read_document(alloc, document.as_bytes()) {
        Ok(triples) => {
            if triples.len() <= 4194303 && have_short_terms(triples.as_slice()) {
                Ok(image(alloc, triples.as_slice())?)
            } else {
                Err("too large")?
            }
        }
        Err(_) => Err("no document")?,
    }
}

/// The formats.
pub(crate) const FORMATS: [u8; 2] = [1, 2];

/// Appends a triple of the generated data: `n` leads to `next`, or has a number for its value.
fn push_trial(out: &mut String, alloc: Global, n: u32, next: u32) -> Result<(), AllocError> {
    let line = format!(in alloc;
        "<http://t.example/n{n}> <http://t.example/next> <http://t.example/n{next}> .\n"
    )?;
    out.push_str(&line)
}

/// Appends the value of `n`.
fn push_value(out: &mut String, alloc: Global, n: u32, value: u32) -> Result<(), AllocError> {
    let line = format!(in alloc;
        "<http://t.example/n{n}> <http://t.example/val> \"{value}\"^^<http://www.w3.org/2001/XMLSchema#integer> .\n"
    )?;
    out.push_str(&line)
}

/// Generated data: for each number below `count` where it leads to and its value, 2 triples.
pub(crate) fn trial(alloc: Global, count: u32) -> Result<String, Fail> {
    let mut lines = String::new(alloc);
    for n in 0..count {
        push_trial(
            &mut lines,
            alloc,
            n,
            ((7 * n as u64 + 1) % count as u64) as u32,
        )?;
        push_value(&mut lines, alloc, n, n % 10)?;
    }
    Ok(lines)
}

/// Appends a triple whose IRIs begin with `base`, of the object with that number.
fn push_numbered(out: &mut String, alloc: Global, base: &str, n: u32) -> Result<(), AllocError> {
    let line = format!(in alloc; "<{base}s> <{base}p> <{base}{n}> .\n")?;
    out.push_str(&line)
}

/// 342 triples, whose trees have two levels: two blocks of entries, and one above. The objects have the
/// ranks 0 to 341, the predicate has 342 and the subject 343.
pub(crate) fn many(alloc: Global, base: &str) -> Result<String, Fail> {
    let mut lines = String::new(alloc);
    for n in 100..442 {
        push_numbered(&mut lines, alloc, base, n)?;
    }
    Ok(lines)
}

/// The same from the last to the first, and each of them twice.
pub(crate) fn many_turned(alloc: Global, base: &str) -> Result<String, Fail> {
    let mut lines = String::new(alloc);
    for k in 0..684 {
        push_numbered(&mut lines, alloc, base, 441 - k % 342)?;
    }
    Ok(lines)
}

/// The bytes with another byte at a place, or as they are where they have no such place.
pub(crate) fn with_byte(
    alloc: Global,
    bytes: &[u8],
    place: usize,
    byte: u8,
) -> Result<Vec<u8>, AllocError> {
    let mut changed = Vec::from_slice(alloc, bytes)?;
    if place < changed.len() {
        changed[place] = byte;
    }
    Ok(changed)
}

/// The tag of a block of that number, which begins with these bytes.
fn tag_of(number: usize, block: &[u8]) -> [u8; 16] {
    if number <= 4_294_967_295 && block.len() >= 4080 {
        tag(number as u32, &block[..4080])
    } else {
        [0; 16]
    }
}

/// Turns the lowest bit of a byte.
pub(crate) fn turn(bytes: &mut [u8], place: usize) {
    if place < bytes.len() {
        bytes[place] ^= 1;
    }
}

/// Puts the tag of each block behind its payload.
pub(crate) fn put_tags(image: &mut Vec<u8>) {
    put_tags_from(image, 0)
}

/// Puts the tags of the blocks from that number on.
pub(crate) fn put_tags_from(image: &mut Vec<u8>, first: usize) {
    for number in first..image.len() / 4096 {
        let at = 4096 * number;
        if at + 4096 <= image.len() {
            let found = tag_of(number, &image[at..at + 4096]);
            image[at + 4080..at + 4096].copy_from_slice(&found);
        }
    }
}

/// A file of a format with another byte at a place, where in format 2 the tags agree again.
pub(crate) fn changed(
    alloc: Global,
    format: u8,
    bytes: &[u8],
    place: usize,
    byte: u8,
) -> Result<Vec<u8>, AllocError> {
    let mut file = with_byte(alloc, bytes, place, byte)?;
    if format == 2 {
        put_tags(&mut file);
    }
    Ok(file)
}

/// The string `x` by its name, and any other name as an IRI.
pub(crate) fn term(alloc: Global, name: &str) -> Result<Term, Fail> {
    let text = Text::from_bytes(alloc, name.as_bytes())?;
    if name == "x" {
        Ok(Term::plain(alloc, text)?)
    } else {
        Ok(Term::Iri(text))
    }
}

/// A variable by `?`, a blank node by `_`, and a term by any other name.
fn place(alloc: Global, name: &str) -> Result<Place, Fail> {
    if name == "?" {
        Ok(Place::Var(Text::from_bytes(alloc, b"v")?))
    } else if name == "_" {
        Ok(Place::Blank(Text::from_bytes(alloc, b"v")?))
    } else {
        Ok(Place::Term(term(alloc, name)?))
    }
}

pub(crate) fn pattern(
    alloc: Global,
    subject: &str,
    predicate: &str,
    object: &str,
) -> Result<Pattern, Fail> {
    let subject = place(alloc, subject)?;
    let predicate = place(alloc, predicate)?;
    let object = place(alloc, object)?;
    Ok(Pattern {
        subject,
        predicate,
        object,
    })
}

/// Three ranks as a triple.
pub(crate) fn ids((s, p, o): (u32, u32, u32)) -> IdTriple {
    IdTriple { s, p, o }
}

/// A triple as its three ranks.
pub(crate) fn ranks(t: IdTriple) -> (u32, u32, u32) {
    (t.s, t.p, t.o)
}

pub(crate) fn store_of<'a>(
    alloc: Global,
    bytes: &'a [u8],
    fails: Vec<u64>,
) -> Result<Store<MemBlocks<'a>>, OpenFault> {
    match Store::open(alloc, MemBlocks::new(bytes, fails)) {
        Ok(store) => Ok(store),
        Err(unopened) => Err(unopened.fault),
    }
}

pub(crate) fn term_in<B: Blocks>(
    rt: &impl Abort,
    alloc: Global,
    store: &mut Store<B>,
    id: u32,
) -> Result<Term, StoreFault> {
    assert!(rt; id < store.info().terms);
    store.term(alloc, id)
}

pub(crate) fn entry_in<B: Blocks>(
    rt: &impl Abort,
    store: &mut Store<B>,
    order: u8,
    place: u32,
) -> Result<IdTriple, ReadFault> {
    assert!(rt; order <= 2 && place < store.info().triples);
    store.entry(order, place)
}

pub(crate) fn triple_in<B: Blocks>(
    rt: &impl Abort,
    store: &mut Store<B>,
    range: &Range,
    place: u32,
) -> Result<IdTriple, StoreFault> {
    assert!(rt; range.order <= 2);
    assert!(rt; range.first <= range.end && range.end <= store.info().triples);
    assert!(rt; place < range.end - range.first);
    store.triple(range, place)
}

pub(crate) fn place_in<B: Blocks>(
    rt: &impl Abort,
    store: &mut Store<B>,
    range: &Range,
    t: &IdTriple,
) -> Result<Option<u32>, StoreFault> {
    assert!(rt; range.order <= 2);
    assert!(rt; range.first <= range.end && range.end <= store.info().triples);
    store.place_of(range, t)
}
