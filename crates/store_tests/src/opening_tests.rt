//! Stores opened over blocks in memory: what their headers tell, and why blocks are none. Expected values are
//! worked out by hand.

use crate::making::{FORMATS, TWO, changed, image_of, image_of_data, trial, with_byte};
use sage_outside::MemBlocks;
use std::alloc::Global;
use std::test::Fail;
use triple_store::{Info, OpenFault, Store};

/// SHA-256 of the two lines, as `sha256sum` makes it.
const NAME: &[u8] =
    b"\xbd\xb4\xef\xf0\xab\xe7\xb6\xc5\x57\xb5\x8a\xbc\x5a\x24\x5c\x32\x2e\xd6\x44\xcb\x8e\x03\xe5\x7c\xc8\x0d\x91\xe3\x90\xf1\x21\xb4";

const fn info_of(format: u8) -> Info {
    Info {
        format,
        terms: 4,
        triples: 2,
        longest: 49,
        blocks: 6,
    }
}

/// What a store is told to be, whether its data's name is that of the two triples, and how many blocks
/// were read; or why it is none.
fn opened(
    alloc: Global,
    bytes: &[u8],
    fails: Vec<u64>,
) -> Result<(Info, bool, u64), (OpenFault, u64)> {
    match Store::open(alloc, MemBlocks::new(bytes, fails)) {
        Ok(store) => {
            let info = store.info();
            let named = store.data_id().as_slice() == NAME;
            Ok((info, named, store.close().reads()))
        }
        Err(unopened) => Err((unopened.fault, unopened.blocks.reads())),
    }
}

#[test]
fn a_header_is_told_by_one_read(rt: HostRuntime) -> Result<(), Fail> {
    for &format in FORMATS.as_slice() {
        let bytes = image_of(rt.alloc(), TWO, format)?;
        let found = opened(rt.alloc(), &bytes, Vec::new(rt.alloc()));
        assert!(rt; found == Ok((info_of(format), true, 1)));
    }
    Ok(())
}

/// Formats, numbers of blocks, and how many reads show that so many of the six are no store.
const CUTS: [(u8, usize, u64); 12] = [
    (1, 0, 0),
    (1, 1, 1),
    (1, 2, 1),
    (1, 3, 1),
    (1, 4, 1),
    (1, 5, 1),
    (2, 0, 0),
    (2, 1, 1),
    (2, 2, 1),
    (2, 3, 1),
    (2, 4, 1),
    (2, 5, 1),
];

#[test]
fn a_store_cut_at_a_block_is_none(rt: HostRuntime) -> Result<(), Fail> {
    for &(format, blocks, reads) in CUTS.as_slice() {
        let bytes = image_of(rt.alloc(), TWO, format)?;
        assert!(rt; is_cut(rt.alloc(), &bytes, blocks, reads));
    }
    Ok(())
}

/// Whether the file has six blocks, and so many of them are no store.
fn is_cut(alloc: Global, bytes: &[u8], blocks: usize, reads: u64) -> bool {
    if bytes.len() != 24576 || blocks > 5 {
        return false;
    }
    let cut = opened(alloc, &bytes[..4096 * blocks], Vec::new(alloc));
    cut == Err((OpenFault::NotAStore, reads))
}

#[test]
fn a_first_read_that_fails_is_told(rt: HostRuntime) -> Result<(), Fail> {
    for &format in FORMATS.as_slice() {
        let bytes = image_of(rt.alloc(), TWO, format)?;
        let found = opened(rt.alloc(), &bytes, vec![in rt.alloc(); 0]?);
        assert!(rt; found == Err((OpenFault::Blocks, 1)));
    }
    Ok(())
}

/// A byte of the header, and what the store is then told to be: the mark, the number of blocks, of terms (at
/// most three for each triple), of triples (at most 4,194,303), the longest record (at most 262,153 bytes)
/// and the name. In format 2 the tag agrees again.
const HEADERS: [(usize, u8, Option<(u32, u32, u32)>); 13] = [
    (0, 0x73, None),
    (7, 0x30, None),
    (11, 5, None),
    (11, 7, None),
    (15, 7, None),
    (15, 6, Some((6, 2, 49))),
    (15, 3, Some((3, 2, 49))),
    (19, 1, None),
    (19, 3, Some((4, 3, 49))),
    (17, 0x40, None),
    (21, 0x05, None),
    (23, 50, Some((4, 2, 50))),
    (24, 0, Some((4, 2, 49))),
];

fn told(alloc: Global, bytes: &[u8]) -> Result<Option<(u32, u32, u32)>, OpenFault> {
    match opened(alloc, bytes, Vec::new(alloc)) {
        Ok((info, _, _)) => Ok(Some((info.terms, info.triples, info.longest))),
        Err((OpenFault::NotAStore, _)) => Ok(None),
        Err((fault, _)) => Err(fault),
    }
}

#[test]
fn fields_of_a_header_are_looked_at(rt: HostRuntime) -> Result<(), Fail> {
    for &format in FORMATS.as_slice() {
        let bytes = image_of(rt.alloc(), TWO, format)?;
        for &(place, byte, wanted) in HEADERS.as_slice() {
            let file = changed(rt.alloc(), format, &bytes, place, byte)?;
            assert!(rt; told(rt.alloc(), &file) == Ok(wanted));
        }
    }
    Ok(())
}

/// A byte of the first block of format 2, whose tag stays, and why the file is no store: the mark is looked
/// at first and then the tag.
const TAGGED: [(usize, u8, OpenFault); 11] = [
    (0, 0x73, OpenFault::NotAStore),
    (7, 0x30, OpenFault::NotAStore),
    (7, 0x33, OpenFault::NotAStore),
    (8, 1, OpenFault::Damaged { block: 0 }),
    (11, 7, OpenFault::Damaged { block: 0 }),
    (15, 7, OpenFault::Damaged { block: 0 }),
    (19, 1, OpenFault::Damaged { block: 0 }),
    (23, 50, OpenFault::Damaged { block: 0 }),
    (24, 0, OpenFault::Damaged { block: 0 }),
    (4079, 1, OpenFault::Damaged { block: 0 }),
    (4095, 0xc4, OpenFault::Damaged { block: 0 }),
];

#[test]
fn a_first_block_with_another_tag_is_damaged(rt: HostRuntime) -> Result<(), Fail> {
    let bytes = image_of(rt.alloc(), TWO, 2)?;
    for &(place, byte, fault) in TAGGED.as_slice() {
        let file = with_byte(rt.alloc(), &bytes, place, byte)?;
        assert!(rt; opened(rt.alloc(), &file, Vec::new(rt.alloc())) == Err((fault, 1)));
    }
    Ok(())
}

/// Formats, and what the files of two thousand generated triples are told to be.
const TRIALS: [(u8, (u32, u32, u32, u32)); 2] = [
    (1, (1012, 2000, 50, 30)),
    (2, (1012, 2000, 50, 30)),
];

/// The terms, triples, bytes of the longest record, and blocks of a file of that format.
fn numbers(alloc: Global, bytes: &[u8], format: u8) -> Option<(u32, u32, u32, u32)> {
    match opened(alloc, bytes, Vec::new(alloc)) {
        Ok((info, _, _)) if info.format == format => {
            Some((info.terms, info.triples, info.longest, info.blocks))
        }
        _ => None,
    }
}

#[test]
fn two_thousand_triples_take_thirty_blocks(rt: HostRuntime) -> Result<(), Fail> {
    let lines = trial(rt.alloc(), 1000)?;
    for &(format, wanted) in TRIALS.as_slice() {
        let bytes = image_of(rt.alloc(), &lines, format)?;
        assert!(rt; numbers(rt.alloc(), &bytes, format) == Some(wanted));
    }
    Ok(())
}

/// Documents, and what their files are told to be where no format is named: without data, and the two
/// triples with the first three times and with their lines exchanged.
const WRITTEN: [(&str, (u32, u32, u32, u32)); 4] = [
    ("", (0, 0, 0, 2)),
    (TWO, (4, 2, 49, 6)),
    (
        "<http://e/a> <http://e/p> <http://e/b> .\n<http://e/a> <http://e/p> <http://e/b> .
<http://e/a> <http://e/p> <http://e/b> .\n<http://e/a> <http://e/p> \"x\" .\n",
        (4, 2, 49, 6),
    ),
    (
        "<http://e/a> <http://e/p> \"x\" .\n<http://e/a> <http://e/p> <http://e/b> .\n",
        (4, 2, 49, 6),
    ),
];

#[test]
fn documents_have_their_numbers(rt: HostRuntime) -> Result<(), Fail> {
    for &(document, wanted) in WRITTEN.as_slice() {
        let bytes = image_of_data(rt.alloc(), document)?;
        assert!(rt; numbers(rt.alloc(), &bytes, 2) == Some(wanted));
    }
    Ok(())
}
