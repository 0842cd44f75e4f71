//! Documents as tables of numbered terms and triples.

use crate::making::{ranks, term, triples_of};
use std::alloc::Global;
use std::process::Abort;
use std::test::Fail;
use store_image::{Table, data_id, keys_by};

/// Four triples, one of them twice. In order the terms are `i:a`, `i:b`, `i:p` and `i:q`.
const DOCUMENT: &str =
    "<i:b> <i:p> <i:a> .\n<i:a> <i:q> <i:b> .\n<i:b> <i:p> <i:a> .\n<i:a> <i:p> <i:b> .\n";

/// Keys in order: as they are, by predicate, object and subject, and by object, subject and predicate.
const KEYS: [(u8, u32, (u32, u32, u32)); 9] = [
    (0, 0, (0, 2, 1)),
    (0, 1, (0, 3, 1)),
    (0, 2, (1, 2, 0)),
    (1, 0, (2, 0, 1)),
    (1, 1, (2, 1, 0)),
    (1, 2, (3, 1, 0)),
    (2, 0, (0, 1, 2)),
    (2, 1, (1, 0, 2)),
    (2, 2, (1, 0, 3)),
];

/// How many triples, terms and keys of an order the document has, and the key at a place.
fn key_at(
    rt: &impl Abort,
    alloc: Global,
    order: u8,
    place: u32,
) -> Result<(usize, usize, usize, Option<(u32, u32, u32)>), Fail> {
    let document = triples_of(alloc, DOCUMENT)?;
    assert!(rt; document.len() <= 4194303);
    let table = Table::build(alloc, document.as_slice())?;
    let keys = keys_by(alloc, table.triples(), order)?;
    let key = keys.as_slice().get(place as usize).map(|t| ranks(*t));
    Ok((table.len(), table.term_count(), keys.len(), key))
}

#[test]
fn keys_are_in_order(rt: HostRuntime) -> Result<(), Fail> {
    for &(order, place, key) in KEYS.as_slice() {
        assert_eq!(rt;
            key_at(&rt, rt.alloc(), order, place)?,
            (3, 4, 3, Some(key))
        );
    }
    Ok(())
}

/// Terms, and their numbers.
const TERMS: [(&str, Option<u32>); 6] = [
    ("i:a", Some(0)),
    ("i:b", Some(1)),
    ("i:p", Some(2)),
    ("i:q", Some(3)),
    ("i:c", None),
    ("x", None),
];

/// Whether the term has that number, and the number is that of the term.
fn is_numbered(rt: &impl Abort, alloc: Global, name: &str, id: Option<u32>) -> Result<bool, Fail> {
    let document = triples_of(alloc, DOCUMENT)?;
    assert!(rt; document.len() <= 4194303);
    let table = Table::build(alloc, document.as_slice())?;
    let wanted = term(alloc, name)?;
    let found = match id {
        None => true,
        Some(id) => match table.terms().get(id as usize) {
            None => false,
            Some(term) => **term == wanted,
        },
    };
    Ok(found && table.id_of(&wanted) == id)
}

#[test]
fn terms_have_numbers(rt: HostRuntime) -> Result<(), Fail> {
    for &(name, id) in TERMS.as_slice() {
        assert!(rt; is_numbered(&rt, rt.alloc(), name, id)?);
    }
    Ok(())
}

/// Documents and their names: the digest of the empty text (FIPS 180-4, examples), and what `sha256sum`
/// makes of the lines `<i:a> <i:p> <i:b> .`, `<i:a> <i:q> <i:b> .` and `<i:b> <i:p> <i:a> .`.
const NAMES: [(&str, [u8; 32]); 2] = [
    (
        "",
        *b"\xe3\xb0\xc4\x42\x98\xfc\x1c\x14\x9a\xfb\xf4\xc8\x99\x6f\xb9\x24\x27\xae\x41\xe4\x64\x9b\x93\x4c\xa4\x95\x99\x1b\x78\x52\xb8\x55",
    ),
    (
        DOCUMENT,
        *b"\x67\x69\xc3\xc5\x2f\x8c\x48\xcc\x7f\x38\x84\x27\xed\x44\x96\x9d\x09\x4b\xf7\x49\x93\x86\xb6\x38\xfa\xe6\x8f\x7d\xed\x6e\x28\xfb",
    ),
];

/// Whether the document's data have that name.
fn is_name(rt: &impl Abort, alloc: Global, document: &str, name: [u8; 32]) -> Result<bool, Fail> {
    let document = triples_of(alloc, document)?;
    assert!(rt; document.len() <= 4194303);
    let table = Table::build(alloc, document.as_slice())?;
    Ok(data_id(alloc, &table)? == name)
}

#[test]
fn data_have_names(rt: HostRuntime) -> Result<(), Fail> {
    for &(document, name) in NAMES.as_slice() {
        assert!(rt; is_name(&rt, rt.alloc(), document, name)?);
    }
    Ok(())
}
