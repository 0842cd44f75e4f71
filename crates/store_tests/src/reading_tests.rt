//! Terms and entries of stores over blocks in memory. Expected values are worked out by hand, and hold for
//! both formats; where a byte is another, the tags of format 2 agree again.

use crate::making::{
    FORMATS, TWO, changed, entry_in, image_of, many, ranks, store_of, term, term_in,
};
use sage_outside::{ReadFault, StoreFault};
use std::alloc::Global;
use std::process::Abort;
use std::test::Fail;
use term_core::Term;

/// Another byte at a place of the two triples' file, a rank, and the name of the term or the block to
/// blame. Where the header tells more terms than were written, the number behind the last is 0; where
/// the first number is 1 it is not the beginning; and no UTF-8 has the byte 255.
const TERMS: [(usize, u8, u32, Result<&str, u32>); 8] = [
    (24576, 0, 0, Ok("http://e/a")),
    (24576, 0, 1, Ok("http://e/b")),
    (24576, 0, 2, Ok("http://e/p")),
    (24576, 0, 3, Ok("x")),
    (15, 6, 4, Err(1)),
    (4096 + 7, 1, 0, Err(1)),
    (4096 + 7, 1, 1, Ok("http://e/b")),
    (8192 + 1, 255, 0, Err(2)),
];

/// Whether the store's term of a rank is the named one, or the block is to blame.
fn is_term(
    rt: &impl Abort,
    alloc: Global,
    bytes: &[u8],
    id: u32,
    wanted: Result<&str, u32>,
) -> Result<bool, Fail> {
    let mut store = store_of(alloc, bytes, Vec::new(alloc))?;
    let found = term_in(rt, alloc, &mut store, id);
    is_wanted(alloc, found, wanted)
}

/// Whether what was found is the named term, or that block's damage.
fn is_wanted(
    alloc: Global,
    found: Result<Term, StoreFault>,
    wanted: Result<&str, u32>,
) -> Result<bool, Fail> {
    match (found, wanted) {
        (Ok(found), Ok(name)) => Ok(found == term(alloc, name)?),
        (Err(fault), Err(block)) => Ok(fault == StoreFault::Damaged { block }),
        _ => Ok(false),
    }
}

#[test]
fn ranks_have_terms(rt: HostRuntime) -> Result<(), Fail> {
    for &format in FORMATS.as_slice() {
        let bytes = image_of(rt.alloc(), TWO, format)?;
        for &(place, byte, id, wanted) in TERMS.as_slice() {
            let file = changed(rt.alloc(), format, &bytes, place, byte)?;
            assert!(rt; is_term(&rt, rt.alloc(), &file, id, wanted)?);
        }
    }
    Ok(())
}

/// Another byte at a place, a term, and its rank if it has one.
const RANKS: [(usize, u8, &str, Result<Option<u32>, StoreFault>); 6] = [
    (24576, 0, "http://e/a", Ok(Some(0))),
    (24576, 0, "http://e/b", Ok(Some(1))),
    (24576, 0, "http://e/p", Ok(Some(2))),
    (24576, 0, "x", Ok(Some(3))),
    (24576, 0, "http://e/c", Ok(None)),
    (
        4096 + 7,
        1,
        "http://e/a",
        Err(StoreFault::Damaged { block: 1 }),
    ),
];

/// The rank of the named term.
fn rank_of(
    alloc: Global,
    bytes: &[u8],
    name: &str,
) -> Result<Result<Option<u32>, StoreFault>, Fail> {
    let wanted = term(alloc, name)?;
    let mut store = store_of(alloc, bytes, Vec::new(alloc))?;
    Ok(store.id_of(alloc, &wanted))
}

#[test]
fn terms_have_ranks(rt: HostRuntime) -> Result<(), Fail> {
    for &format in FORMATS.as_slice() {
        let bytes = image_of(rt.alloc(), TWO, format)?;
        for &(place, byte, name, wanted) in RANKS.as_slice() {
            let file = changed(rt.alloc(), format, &bytes, place, byte)?;
            assert!(rt; rank_of(rt.alloc(), &file, name)? == wanted);
        }
    }
    Ok(())
}

/// Another byte at a place of the two triples' file, an order, a place of its tree, and the triple there
/// or the block to blame. Where the header tells more triples than were written, the entry behind the
/// last is 0 0 0; where it tells fewer terms, an id is no term's; and so are ids with another highest byte.
const ENTRIES: [(usize, u8, u8, u32, Result<(u32, u32, u32), u32>); 13] = [
    (24576, 0, 0, 0, Ok((0, 2, 1))),
    (24576, 0, 0, 1, Ok((0, 2, 3))),
    (24576, 0, 1, 0, Ok((0, 2, 1))),
    (24576, 0, 1, 1, Ok((0, 2, 3))),
    (24576, 0, 2, 0, Ok((0, 2, 1))),
    (24576, 0, 2, 1, Ok((0, 2, 3))),
    (19, 3, 0, 2, Ok((0, 0, 0))),
    (15, 3, 0, 0, Ok((0, 2, 1))),
    (15, 3, 0, 1, Err(3)),
    (3 * 4096 + 12 + 8, 1, 0, 1, Err(3)),
    (4 * 4096 + 8, 1, 1, 0, Err(4)),
    (5 * 4096 + 12, 1, 2, 1, Err(5)),
    (5 * 4096 + 4, 1, 2, 0, Err(5)),
];

/// A format, another byte at a place of the file of 342 triples, an order and a place of its tree, and the
/// triple there or the block to blame. Thirteen blocks, of which the trees begin in the fifth, the eighth
/// and the eleventh; the last of each is of level 1. Entry 341 is the first of its block in format 1 and
/// the second in format 2.
const MANY_ENTRIES: [(u8, usize, u8, u8, u32, Result<(u32, u32, u32), u32>); 10] = [
    (1, 53248, 0, 0, 340, Ok((343, 342, 340))),
    (1, 53248, 0, 0, 341, Ok((343, 342, 341))),
    (1, 4 * 4096 + 4080, 255, 0, 340, Err(4)),
    (1, 5 * 4096, 255, 0, 341, Err(5)),
    (1, 6 * 4096, 255, 0, 0, Ok((343, 342, 0))),
    (2, 53248, 0, 0, 339, Ok((343, 342, 339))),
    (2, 53248, 0, 2, 341, Ok((343, 342, 341))),
    (2, 5 * 4096, 255, 0, 340, Err(5)),
    (2, 5 * 4096 + 12, 255, 0, 341, Err(5)),
    (2, 8 * 4096 + 12, 255, 1, 341, Err(8)),
];

/// The ids of the entry at a place of an order's tree, or the block to blame.
fn entry_at(
    rt: &impl Abort,
    alloc: Global,
    bytes: &[u8],
    order: u8,
    place: u32,
) -> Result<Result<(u32, u32, u32), u32>, Fail> {
    let mut store = store_of(alloc, bytes, Vec::new(alloc))?;
    match entry_in(rt, &mut store, order, place) {
        Ok(t) => Ok(Ok(ranks(t))),
        Err(ReadFault::Damaged { block }) => Ok(Err(block)),
        Err(ReadFault::Blocks) => Err("a read failed")?,
    }
}

#[test]
fn entries_are_triples(rt: HostRuntime) -> Result<(), Fail> {
    for &format in FORMATS.as_slice() {
        let bytes = image_of(rt.alloc(), TWO, format)?;
        for &(at, byte, order, place, wanted) in ENTRIES.as_slice() {
            let file = changed(rt.alloc(), format, &bytes, at, byte)?;
            assert!(rt; entry_at(&rt, rt.alloc(), &file, order, place)? == wanted);
        }
    }
    Ok(())
}

/// The file of 342 triples with another byte at a place.
fn many_changed(alloc: Global, format: u8, at: usize, byte: u8) -> Result<Vec<u8>, Fail> {
    let lines = many(alloc, "http://e/")?;
    let bytes = image_of(alloc, &lines, format)?;
    Ok(changed(alloc, format, &bytes, at, byte)?)
}

#[test]
fn entries_of_two_blocks_are_triples(rt: HostRuntime) -> Result<(), Fail> {
    for &(format, at, byte, order, place, wanted) in MANY_ENTRIES.as_slice() {
        let file = many_changed(rt.alloc(), format, at, byte)?;
        assert!(rt; entry_at(&rt, rt.alloc(), &file, order, place)? == wanted);
    }
    Ok(())
}
