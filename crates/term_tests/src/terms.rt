//! Texts, terms, triples and lists of them.

use crate::spelled::{STRING, Spelled, term, text};
use std::alloc::Global;
use std::cmp::Ordering;
use std::test::Fail;
use term_core::{
    IdTriple, Items, Pattern, Place, Row, Text, TextFault, Triple, TryCopy, check_triple, compare,
    is_pn, is_pn_base, is_pn_u, size,
};

/// Bytes that are no text, and the length of their longest front that is. The grammar of RFC 3629,
/// section 4, has no lone byte FF, no sequence cut short, no overlong form, no surrogate and nothing
/// past U+10FFFF.
const NO_TEXTS: [(&[u8], usize); 5] = [
    (b"ab\xffc", 2),
    (b"a\xe2\x82", 1),
    (b"\xc0\x80", 0),
    (b"\xed\xa0\x80", 0),
    (b"\xc3\xa9\xf4\x90\x80\x80", 2),
];

/// Where the bytes are no text.
fn bad_place(alloc: Global, bytes: &[u8]) -> Option<usize> {
    match Text::from_bytes(alloc, bytes) {
        Err(TextFault::NotUtf8 { at }) => Some(at),
        _ => None,
    }
}

#[test]
fn finds_the_first_bad_place(rt: HostRuntime) {
    for &(bytes, at) in NO_TEXTS.as_slice() {
        assert_eq!(rt; bad_place(rt.alloc(), bytes), Some(at));
    }
}

/// Texts, and their bytes.
const TEXTS: [(&str, &[u8]); 2] = [("caf\u{e9}", b"caf\xc3\xa9"), ("", b"")];

/// Whether the text has these bytes, and its copy this text.
fn is_kept(alloc: Global, name: &str, bytes: &[u8]) -> Result<bool, Fail> {
    let kept = text(alloc, name)?;
    let copy = kept.copy(alloc)?;
    Ok(kept.bytes() == bytes && copy.as_str() == name)
}

#[test]
fn keeps_text(rt: HostRuntime) -> Result<(), Fail> {
    for &(name, bytes) in TEXTS.as_slice() {
        assert!(rt; is_kept(rt.alloc(), name, bytes)?, "{name}");
    }
    Ok(())
}

/// Blank nodes, IRIs, literals; these by lexical form, then datatype, then tag; capitals before
/// small letters.
const ASCENDING: [Spelled; 9] = [
    ('b', "z", "", ""),
    ('i', "http://a/B", "", ""),
    ('i', "http://a/a", "", ""),
    ('i', "http://a/ab", "", ""),
    ('l', "", STRING, ""),
    ('l', "1", "http://a/a", ""),
    ('l', "1", STRING, ""),
    ('l', "2", "http://a/lang", "de"),
    ('l', "2", "http://a/lang", "en"),
];

/// The order of two terms, by the function and by the operators.
fn orders(alloc: Global, left: Spelled, right: Spelled) -> Result<(Ordering, Ordering), Fail> {
    let left = term(alloc, left)?;
    let right = term(alloc, right)?;
    Ok((compare(&left, &right), left.cmp(&right)))
}

#[test]
fn orders_terms(rt: HostRuntime) -> Result<(), Fail> {
    for (i, &left) in ASCENDING.as_slice().iter().enumerate() {
        for (k, &right) in ASCENDING.as_slice().iter().enumerate() {
            assert_eq!(rt;
                orders(rt.alloc(), left, right)?,
                (i.cmp(&k), i.cmp(&k)),
                "terms {i} and {k}"
            );
        }
    }
    Ok(())
}

/// Whether `<`, `!=` and, with a copy, `==` hold of two terms.
fn operators(alloc: Global, left: Spelled, right: Spelled) -> Result<(bool, bool, bool), Fail> {
    let left = term(alloc, left)?;
    let right = term(alloc, right)?;
    let copy = left.copy(alloc)?;
    Ok((left < right, left != right, left == copy))
}

#[test]
fn compares_by_operators(rt: HostRuntime) -> Result<(), Fail> {
    let left = ('i', "http://a/a", "", "");
    let right = ('l', "a", STRING, "");
    assert_eq!(rt; operators(rt.alloc(), left, right)?, (true, true, true));
    assert!(rt; IdTriple { s: 1, p: 2, o: 9 } < IdTriple { s: 1, p: 3, o: 0 });
    Ok(())
}

/// Terms, and their bytes.
const SIZES: [(Spelled, usize); 4] = [
    (('i', "http://a/\u{e9}", "", ""), 11),
    (('b', "b0", "", ""), 2),
    (('l', "one", STRING, ""), 42),
    (('l', "", "x:y", "en-gb"), 8),
];

#[test]
fn counts_the_bytes_of_a_term(rt: HostRuntime) -> Result<(), Fail> {
    for &(spelled, bytes) in SIZES.as_slice() {
        let counted = term(rt.alloc(), spelled)?;
        assert_eq!(rt; size(&counted), bytes);
    }
    Ok(())
}

/// Kinds of subject, predicate and object, and whether they are a triple of RDF (RDF 1.1 Concepts,
/// section 3.1).
const TRIPLES: [(char, char, char, bool); 6] = [
    ('b', 'i', 'l', true),
    ('l', 'i', 'l', false),
    ('i', 'b', 'l', false),
    ('i', 'i', 'b', true),
    ('i', 'i', 'i', true),
    ('b', 'l', 'i', false),
];

/// Whether a triple of terms of these kinds is allowed.
fn is_allowed(alloc: Global, subject: char, predicate: char, object: char) -> Result<bool, Fail> {
    let subject = term(alloc, (subject, "a:s", STRING, ""))?;
    let predicate = term(alloc, (predicate, "a:p", STRING, ""))?;
    let object = term(alloc, (object, "a:o", STRING, ""))?;
    let triple = Triple {
        subject,
        predicate,
        object,
    };
    Ok(check_triple(&triple).is_ok())
}

#[test]
fn allows_the_triples_of_rdf(rt: HostRuntime) -> Result<(), Fail> {
    for &(subject, predicate, object, allowed) in TRIPLES.as_slice() {
        let found = is_allowed(rt.alloc(), subject, predicate, object)?;
        assert_eq!(rt; found, allowed, "{subject} {predicate} {object}");
    }
    Ok(())
}

/// The ascending terms.
fn ascending(alloc: Global) -> Result<Items<term_core::Term>, Fail> {
    let mut terms = Items::new(alloc);
    for &spelled in ASCENDING.as_slice() {
        terms.push(term(alloc, spelled)?)?;
    }
    Ok(terms)
}

/// Whether the copy of the ascending terms has this one at that place, and none behind the last.
fn is_copied(alloc: Global, place: usize, spelled: Spelled) -> Result<bool, Fail> {
    let terms = ascending(alloc)?.copy(alloc)?;
    let wanted = term(alloc, spelled)?;
    Ok(terms.get(place) == Some(&wanted) && terms.get(9).is_none() && terms.len() == 9)
}

#[test]
fn copies_lists(rt: HostRuntime) -> Result<(), Fail> {
    for (place, &spelled) in ASCENDING.as_slice().iter().enumerate() {
        assert!(rt; is_copied(rt.alloc(), place, spelled)?, "{place}");
    }
    Ok(())
}

fn can_copy<T: TryCopy>(alloc: Global, value: T) -> bool {
    value.try_copy(alloc).is_ok()
}

/// A pattern with a place of each kind.
fn pattern(alloc: Global) -> Result<Pattern, TextFault> {
    let subject = Place::Var(text(alloc, "s")?);
    let predicate = Place::Term(term(alloc, ('i', "http://a/p", "", ""))?);
    let object = Place::Blank(text(alloc, "o")?);
    Ok(Pattern {
        subject,
        predicate,
        object,
    })
}

/// Whether a value of that kind is copied.
fn is_copied_kind(alloc: Global, kind: &str) -> Result<bool, Fail> {
    Ok(match kind {
        "text" => can_copy(alloc, text(alloc, "a")?),
        "term" => can_copy(alloc, term(alloc, ('b', "a", "", ""))?),
        "place" => can_copy(alloc, Place::Blank(text(alloc, "o")?)),
        "pattern" => can_copy(alloc, pattern(alloc)?),
        "row" => can_copy(alloc, Row::empty(alloc)),
        "items" => can_copy(alloc, Items::<Text>::new(alloc)),
        _ => false,
    })
}

/// The kinds of values that are copied.
const KINDS: [&str; 6] = ["text", "term", "place", "pattern", "row", "items"];

// What a copy is says its contract; that one is made where there is memory says this.
#[test]
fn copies_each_kind(rt: HostRuntime) -> Result<(), Fail> {
    for &kind in KINDS.as_slice() {
        assert!(rt; is_copied_kind(rt.alloc(), kind)?, "{kind}");
    }
    Ok(())
}

/// Characters, and whether they are of PN_CHARS_BASE, of PN_CHARS_U and of PN_CHARS.
const CHARACTERS: [(char, (bool, bool, bool)); 29] = [
    ('A', (true, true, true)),
    ('z', (true, true, true)),
    ('\u{c0}', (true, true, true)),
    ('\u{37d}', (true, true, true)),
    ('\u{2070}', (true, true, true)),
    ('\u{fffd}', (true, true, true)),
    ('\u{10000}', (true, true, true)),
    ('\u{effff}', (true, true, true)),
    ('_', (false, true, true)),
    ('-', (false, false, true)),
    ('0', (false, false, true)),
    ('9', (false, false, true)),
    ('\u{b7}', (false, false, true)),
    ('\u{300}', (false, false, true)),
    ('\u{36f}', (false, false, true)),
    ('\u{203f}', (false, false, true)),
    ('\u{2040}', (false, false, true)),
    ('.', (false, false, false)),
    (':', (false, false, false)),
    ('@', (false, false, false)),
    ('[', (false, false, false)),
    ('\u{bf}', (false, false, false)),
    ('\u{d7}', (false, false, false)),
    ('\u{f7}', (false, false, false)),
    ('\u{37e}', (false, false, false)),
    ('\u{2041}', (false, false, false)),
    ('\u{3000}', (false, false, false)),
    ('\u{fdd0}', (false, false, false)),
    ('\u{f0000}', (false, false, false)),
];

#[test]
fn tells_characters_of_names(rt: HostRuntime) {
    for &(c, classes) in CHARACTERS.as_slice() {
        assert_eq!(rt; (is_pn_base(c), is_pn_u(c), is_pn(c)), classes);
    }
}
