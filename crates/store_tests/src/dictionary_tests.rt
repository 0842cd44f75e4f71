//! Dictionaries in blocks of memory.

use crate::making::{put_tags, with_byte};
use sage_outside::{Blocks, MemBlocks, StoreFault};
use std::alloc::{AllocError, Global};
use std::process::Abort;
use std::test::Fail;
use term_core::{Items, Term, Text};
use term_dict::{
    Dict, DictImage, are_short, build, extent_of, lent_are_short, push_places, push_records,
};

fn text(alloc: Global, text: &str) -> Result<Text, Fail> {
    Ok(Text::from_bytes(alloc, text.as_bytes())?)
}

fn iri(alloc: Global, name: &str) -> Result<Term, Fail> {
    Ok(Term::Iri(text(alloc, name)?))
}

fn literal(alloc: Global, lexical: &str, datatype: &str, lang: &str) -> Result<Term, Fail> {
    let lexical = text(alloc, lexical)?;
    let datatype = text(alloc, datatype)?;
    let lang = text(alloc, lang)?;
    Ok(Term::Literal {
        lexical,
        datatype,
        lang,
    })
}

/// A blank node, an IRI and a literal.
fn three_terms(alloc: Global) -> Result<Items<Term>, Fail> {
    let blank = Term::Blank(text(alloc, "b")?);
    let mut terms = Items::new(alloc);
    terms.push(blank)?;
    terms.push(iri(alloc, "i:")?)?;
    terms.push(literal(alloc, "xy", "d", "en")?)?;
    Ok(terms)
}

/// So many times the letter m.
fn long_text(alloc: Global, length: u32) -> Result<String, AllocError> {
    let mut long = String::new(alloc);
    for _ in 0..length {
        long.push('m')?;
    }
    Ok(long)
}

fn push_numbered(terms: &mut Items<Term>, alloc: Global, n: u32) -> Result<(), Fail> {
    let name = format!(in alloc; "http://example.org/{n}")?;
    Ok(terms.push(iri(alloc, &name)?)?)
}

/// Six hundred IRIs, and three literals of which the second is longer than two blocks.
fn many_terms(alloc: Global) -> Result<Items<Term>, Fail> {
    let mut terms = Items::new(alloc);
    for n in 100u32..700 {
        push_numbered(&mut terms, alloc, n)?;
    }
    push_literals(&mut terms, alloc)?;
    Ok(terms)
}

fn push_literals(terms: &mut Items<Term>, alloc: Global) -> Result<(), Fail> {
    let long = long_text(alloc, 9000)?;
    terms.push(literal(alloc, "a", "d", "")?)?;
    terms.push(literal(alloc, &long, "d", "")?)?;
    terms.push(literal(alloc, &long, "d", "en")?)?;
    Ok(())
}

fn built(rt: &impl Abort, alloc: Global, terms: Items<Term>) -> Result<DictImage, Fail> {
    assert!(rt; terms.len() <= 12582909);
    assert!(rt; are_short(terms.as_slice()));
    Ok(build(alloc, terms)?)
}

fn put_blocks(image: &mut Vec<u8>, bytes: &[u8], payload: u32) -> Result<(), AllocError> {
    if payload > 0 {
        for piece in bytes.chunks(payload as usize) {
            image.extend_from_slice(piece)?;
            for _ in piece.len()..4096 {
                image.push(255)?;
            }
        }
    }
    Ok(())
}

fn blocks_of(image: &[u8]) -> u32 {
    (image.len() / 4096).min(1000) as u32
}

fn number_bytes(alloc: Global, places: &[u64]) -> Result<Vec<u8>, AllocError> {
    let mut numbers = Vec::new(alloc);
    for place in places {
        numbers.extend_from_slice(&place.to_be_bytes())?;
    }
    Ok(numbers)
}

/// A dictionary in blocks, and the bytes of its longest record.
#[derive(Drop)]
struct Made {
    image: Vec<u8>,
    dict: Dict,
    longest: u32,
}

/// A block of another kind, then the two areas.
fn in_blocks(alloc: Global, made: &DictImage, payload: u32) -> Result<Made, AllocError> {
    let numbers = number_bytes(alloc, made.places.as_slice())?;
    let mut image = vec![in alloc; 0u8; 4096]?;
    put_blocks(&mut image, &numbers, payload)?;
    let records = blocks_of(&image);
    put_blocks(&mut image, made.records.as_slice(), payload)?;
    if payload == 4080 {
        put_tags(&mut image);
    }
    let dict = Dict {
        places: 1,
        records,
        terms: made.places.len().saturating_sub(1).min(1000) as u32,
        bytes: blocks_of(&image).saturating_sub(records) as u64 * payload as u64,
        payload,
    };
    Ok(Made {
        image,
        dict,
        longest: made.longest,
    })
}

/// The dictionary of the terms, in blocks.
fn dictionary(
    rt: &impl Abort,
    alloc: Global,
    terms: Items<Term>,
    payload: u32,
) -> Result<Made, Fail> {
    let made = built(rt, alloc, terms)?;
    Ok(in_blocks(alloc, &made, payload)?)
}

fn term_in<B: Blocks>(
    rt: &impl Abort,
    alloc: Global,
    dict: &Dict,
    blocks: &mut B,
    id: u32,
) -> Result<Term, StoreFault> {
    assert!(rt; dict.lies(blocks.blocks()));
    assert!(rt; id < dict.terms);
    dict.term(alloc, blocks, id)
}

/// The rank of a term, and how many blocks were read.
fn id_in(
    rt: &impl Abort,
    alloc: Global,
    made: &Made,
    fails: Vec<u64>,
    t: &Term,
) -> (Result<Option<u32>, StoreFault>, u64) {
    let mut blocks = MemBlocks::new(&made.image, fails);
    assert!(rt; made.dict.lies(blocks.blocks()));
    let id = made.dict.id_of(alloc, &mut blocks, t);
    (id, blocks.reads())
}

fn lent_terms(alloc: Global, terms: &[Term]) -> Result<Vec<&Term>, AllocError> {
    let mut lent = Vec::new(alloc);
    for t in terms {
        lent.push(t)?;
    }
    Ok(lent)
}

/// The places of the terms and their records behind a byte, and the bytes of all records and of the
/// longest.
fn pushed(rt: &impl Abort, alloc: Global, terms: &[Term]) -> Result<(Vec<u8>, u64, u32), Fail> {
    let lent = lent_terms(alloc, terms)?;
    let mut out = Vec::from_slice(alloc, b"\x07")?;
    assert!(rt; lent.len() <= 12582909);
    assert!(rt; lent_are_short(&lent));
    let extent = extent_of(&lent);
    push_places(&mut out, &lent)?;
    push_records(&mut out, &lent)?;
    Ok((out, extent.bytes, extent.longest))
}

#[test]
fn places_and_records_are_appended(rt: HostRuntime) -> Result<(), Fail> {
    let terms = three_terms(rt.alloc())?;
    let (out, bytes, longest) = pushed(&rt, rt.alloc(), terms.as_slice())?;
    let wanted =
        b"\x07\0\0\0\0\0\0\0\0\0\0\0\0\0\0\0\x02\0\0\0\0\0\0\0\x05\0\0\0\0\0\0\0\x13\0b\x01i:\x02\0\0\0\x01\0\0\0\x02denxy";
    assert!(rt; out.as_slice() == wanted.as_slice() && bytes == 19 && longest == 14);
    Ok(())
}

#[test]
fn records_follow_one_another(rt: HostRuntime) -> Result<(), Fail> {
    let made = built(&rt, rt.alloc(), three_terms(rt.alloc())?)?;
    let records = b"\0b\x01i:\x02\0\0\0\x01\0\0\0\x02denxy";
    assert_eq!(rt; made.places.as_slice(), [0, 2, 5, 19].as_slice());
    assert!(rt; made.records.as_slice() == records.as_slice() && made.longest == 14);
    Ok(())
}

/// Payloads.
const PAYLOADS: [u32; 2] = [4096, 4080];

/// Ranks among the many terms.
const RANKS: [u32; 13] = [0, 1, 180, 181, 182, 509, 510, 511, 512, 599, 600, 601, 602];

/// Whether the term at a place has that place for its rank, by few reads.
fn has_rank(
    rt: &impl Abort,
    alloc: Global,
    made: &Made,
    terms: &[Term],
    k: u32,
) -> Result<bool, Fail> {
    let mut blocks = MemBlocks::new(&made.image, Vec::new(alloc));
    let t = term_in(rt, alloc, &made.dict, &mut blocks, k)?;
    let (id, reads) = id_in(rt, alloc, made, Vec::new(alloc), &t);
    let most = 4 + made.longest as u64 / 4080;
    Ok(
        Some(&t) == terms.get(k as usize)
            && id == Ok(Some(k))
            && blocks.reads() <= most
            && reads <= 25 * most,
    )
}

/// Whether all of these ranks are right.
fn have_ranks(rt: &impl Abort, alloc: Global, payload: u32) -> Result<bool, Fail> {
    let terms = many_terms(alloc)?;
    let made = dictionary(rt, alloc, terms.copy(alloc)?, payload)?;
    let mut right = true;
    for &k in RANKS.as_slice() {
        right = has_rank(rt, alloc, &made, terms.as_slice(), k)? && right;
    }
    Ok(right)
}

#[test]
fn terms_have_their_ranks(rt: HostRuntime) -> Result<(), Fail> {
    for &payload in PAYLOADS.as_slice() {
        assert!(rt; have_ranks(&rt, rt.alloc(), payload)?);
    }
    Ok(())
}

/// Kinds of terms that are not among the many, and their texts.
const OTHERS: [(u32, &str, &str); 6] = [
    (0, "http://example.org/100", ""),
    (1, "http://example.org/1000", ""),
    (1, "http://example.org/", ""),
    (2, "a", "en"),
    (2, "m", ""),
    (2, "n", ""),
];

fn other(alloc: Global, kind: u32, form: &str, lang: &str) -> Result<Term, Fail> {
    match kind {
        0 => Ok(Term::Blank(text(alloc, form)?)),
        1 => iri(alloc, form),
        _ => literal(alloc, form, "d", lang),
    }
}

#[test]
fn other_terms_have_no_rank(rt: HostRuntime) -> Result<(), Fail> {
    let made = dictionary(&rt, rt.alloc(), many_terms(rt.alloc())?, 4080)?;
    for &(kind, form, lang) in OTHERS.as_slice() {
        let t = other(rt.alloc(), kind, form, lang)?;
        assert!(rt; id_in(&rt, rt.alloc(), &made, Vec::new(rt.alloc()), &t).0 == Ok(None));
    }
    Ok(())
}

/// How many letters m a lexical form begins with, what follows them, and how many blocks are read at
/// most to see that the term is not there.
const FORMS: [(u32, &str, u64); 3] = [(0, "a", 3), (1, "n", 3), (40000, "", 11)];

/// Whether the literal is not found among one of 40,000 letters, by so many reads at most.
fn is_absent(
    rt: &impl Abort,
    alloc: Global,
    made: &Made,
    (count, rest, most): (u32, &str, u64),
) -> Result<bool, Fail> {
    let mut lexical = long_text(alloc, count)?;
    lexical.push_str(rest)?;
    let t = literal(alloc, &lexical, "d", "en")?;
    let (id, reads) = id_in(rt, alloc, made, Vec::new(alloc), &t);
    Ok(id == Ok(None) && reads <= most)
}

fn one_long_term(alloc: Global) -> Result<Items<Term>, Fail> {
    let long = long_text(alloc, 40000)?;
    let mut terms = Items::new(alloc);
    terms.push(literal(alloc, &long, "d", "")?)?;
    Ok(terms)
}

#[test]
fn a_long_record_is_read_as_far_as_it_decides(rt: HostRuntime) -> Result<(), Fail> {
    let made = dictionary(&rt, rt.alloc(), one_long_term(rt.alloc())?, 4096)?;
    for &form in FORMS.as_slice() {
        assert!(rt; is_absent(&rt, rt.alloc(), &made, form)?);
    }
    Ok(())
}

#[test]
fn an_empty_dictionary_has_no_term(rt: HostRuntime) -> Result<(), Fail> {
    let made = dictionary(&rt, rt.alloc(), Items::new(rt.alloc()), 4096)?;
    let t = iri(rt.alloc(), "i:")?;
    assert!(rt; id_in(&rt, rt.alloc(), &made, Vec::new(rt.alloc()), &t) == (Ok(None), 0));
    Ok(())
}

/// Whether a read that fails is told, in the search for the longest term: Some of that, and None where
/// the term is found but by a read past it, or not found.
fn is_told(
    rt: &impl Abort,
    alloc: Global,
    made: &Made,
    t: &Term,
    failing: u64,
) -> Result<Option<bool>, AllocError> {
    let (id, reads) = id_in(rt, alloc, made, vec![in alloc; failing]?, t);
    Ok(match id {
        Err(StoreFault::Blocks) if reads.saturating_sub(failing) == 1 => Some(true),
        Ok(Some(601)) if reads <= failing => Some(false),
        _ => None,
    })
}

/// How many of the first 60 reads are told where they fail, and those alone.
fn failures_told(rt: &impl Abort, alloc: Global, made: &Made, t: &Term) -> Result<u64, AllocError> {
    let mut failed = 0u64;
    for failing in 0u64..60 {
        let told = is_told(rt, alloc, made, t, failing)?;
        assert!(rt; told.is_some());
        failed = failed.saturating_add(u64::from(told == Some(true)));
    }
    Ok(failed)
}

#[test]
fn each_read_fails_in_turn(rt: HostRuntime) -> Result<(), Fail> {
    let made = dictionary(&rt, rt.alloc(), many_terms(rt.alloc())?, 4096)?;
    let t = literal(rt.alloc(), &long_text(rt.alloc(), 9000)?, "d", "")?;
    let failed = failures_told(&rt, rt.alloc(), &made, &t)?;
    assert!(rt; failed > 10 && failed < 60);
    Ok(())
}

/// A byte of the image of the three terms, what it becomes, whose record is asked for, and the
/// block that is to blame.
const BROKEN: [(usize, u8, u32, u32); 7] = [
    (4103, 1, 0, 1),
    (4111, 0, 0, 1),
    (4111, 6, 1, 1),
    (4104, 1, 0, 1),
    (8192, 3, 0, 2),
    (8193, 0x80, 0, 2),
    (8198, 9, 2, 2),
];

/// Why the three terms have no term of that rank where a byte is another.
fn fault_of(
    rt: &impl Abort,
    alloc: Global,
    place: usize,
    byte: u8,
    id: u32,
) -> Result<Option<StoreFault>, Fail> {
    let made = dictionary(rt, alloc, three_terms(alloc)?, 4096)?;
    let image = with_byte(alloc, &made.image, place, byte)?;
    let mut blocks = MemBlocks::new(&image, Vec::new(alloc));
    Ok(term_in(rt, alloc, &made.dict, &mut blocks, id).err())
}

#[test]
fn broken_blocks_are_named(rt: HostRuntime) -> Result<(), Fail> {
    for &(place, byte, id, block) in BROKEN.as_slice() {
        assert!(rt;
            fault_of(&rt, rt.alloc(), place, byte, id)? == Some(StoreFault::Damaged { block })
        );
    }
    Ok(())
}
