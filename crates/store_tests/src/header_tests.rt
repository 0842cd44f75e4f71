//! First blocks as headers: marks, tags and numbers.

use btree_scan::Tree;
use sage_outside::tag;
use store_image::{Header, HeaderFault};
use term_dict::Dict;

/// Behind the mark: six blocks, 4 terms, 2 triples, 49 bytes in the longest record, and a name.
const NUMBERS: &[u8] =
    b"\0\0\0\x06\0\0\0\x04\0\0\0\x02\0\0\0\x31\xbd\xb4\xef\xf0\xab\xe7\xb6\xc5\x57\xb5\x8a\xbc\x5a\x24\x5c\x32\x2e\xd6\x44\xcb\x8e\x03\xe5\x7c\xc8\x0d\x91\xe3\x90\xf1\x21\xb4";

/// A first block of a format, with another byte at a place.
fn block_with(format: u8, place: usize, byte: u8) -> [u8; 4096] {
    let mut block = [0; 4096];
    block[..7].copy_from_slice(b"SAGESTO");
    block[7] = if format == 1 { 49 } else { 50 };
    block[8..56].copy_from_slice(NUMBERS);
    if place < 4096 {
        block[place] = byte;
    }
    block
}

/// The block with its tag.
fn with_tag(block: &[u8; 4096]) -> [u8; 4096] {
    let own = tag(0, &block[..4080]);
    let mut tagged = *block;
    tagged[4080..].copy_from_slice(&own);
    tagged
}

/// The format, the blocks, the terms, the triples and the longest record.
type Numbers = (u8, u32, u32, u32, u32);

/// The numbers of the header, where the name is the one that stands in the block.
fn told(block: &[u8; 4096], count: u32) -> Result<Numbers, HeaderFault> {
    let header = Header::read(block, count)?;
    if header.data_id.as_slice() == &block[24..56] {
        Ok((
            header.format,
            header.blocks,
            header.terms,
            header.triples,
            header.longest,
        ))
    } else {
        Ok((0, 0, 0, 0, 0))
    }
}

const NOT_A_STORE: Result<Numbers, HeaderFault> = Err(HeaderFault::NotAStore);

/// A format, a place, the byte there, the number of blocks, and the header that is read: another mark,
/// another number of blocks, more terms than triples name, too many triples, too long a record, no room.
/// In format 2 the tag agrees.
const HEADERS: [(u8, usize, u8, u32, Result<Numbers, HeaderFault>); 26] = [
    (1, 4096, 0, 6, Ok((1, 6, 4, 2, 49))),
    (1, 0, 0x73, 6, NOT_A_STORE),
    (1, 7, 0x30, 6, NOT_A_STORE),
    (1, 7, 0x33, 6, NOT_A_STORE),
    (1, 4096, 0, 7, NOT_A_STORE),
    (1, 11, 7, 6, NOT_A_STORE),
    (1, 11, 7, 7, Ok((1, 7, 4, 2, 49))),
    (1, 15, 6, 6, Ok((1, 6, 6, 2, 49))),
    (1, 15, 7, 6, NOT_A_STORE),
    (1, 17, 0x40, 6, NOT_A_STORE),
    (1, 21, 0x05, 6, NOT_A_STORE),
    (1, 11, 5, 5, Ok((1, 5, 4, 2, 49))),
    (1, 55, 0xff, 6, Ok((1, 6, 4, 2, 49))),
    (2, 4096, 0, 6, Ok((2, 6, 4, 2, 49))),
    (2, 0, 0x73, 6, NOT_A_STORE),
    (2, 7, 0x30, 6, NOT_A_STORE),
    (2, 7, 0x31, 6, Ok((1, 6, 4, 2, 49))),
    (2, 4096, 0, 7, NOT_A_STORE),
    (2, 11, 7, 7, Ok((2, 7, 4, 2, 49))),
    (2, 15, 6, 6, Ok((2, 6, 6, 2, 49))),
    (2, 15, 7, 6, NOT_A_STORE),
    (2, 17, 0x40, 6, NOT_A_STORE),
    (2, 21, 0x04, 6, NOT_A_STORE),
    (2, 22, 0x04, 6, Ok((2, 6, 4, 2, 1073))),
    (2, 11, 4, 4, NOT_A_STORE),
    (2, 55, 0xff, 6, Ok((2, 6, 4, 2, 49))),
];

#[test]
fn a_block_is_a_header_or_none(rt: HostRuntime) {
    for &(format, place, byte, count, wanted) in HEADERS.as_slice() {
        let block = with_tag(&block_with(format, place, byte));
        assert_eq!(rt; told(&block, count), wanted);
    }
}

/// A place of a block of format 2, the byte there where the tag stays, the number of blocks, and why it
/// is no header: the mark is looked at before the tag, and the tag before the numbers.
const FAULTS: [(usize, u8, u32, HeaderFault); 6] = [
    (0, 0x73, 6, HeaderFault::NotAStore),
    (7, 0x33, 6, HeaderFault::NotAStore),
    (11, 7, 6, HeaderFault::Damaged),
    (23, 50, 6, HeaderFault::Damaged),
    (4079, 1, 6, HeaderFault::Damaged),
    (4080, 0, 7, HeaderFault::Damaged),
];

/// The block of format 2 with its tag, and then another byte at a place.
fn broken(place: usize, byte: u8) -> [u8; 4096] {
    let mut block = with_tag(&block_with(2, 4096, 0));
    if place < 4096 {
        block[place] = byte;
    }
    block
}

#[test]
fn a_tag_is_looked_at_behind_the_mark(rt: HostRuntime) {
    for &(place, byte, count, wanted) in FAULTS.as_slice() {
        assert_eq!(rt; told(&broken(place, byte), count), Err(wanted));
    }
}

/// The dictionary and the trees of the header.
fn areas(format: u8) -> Option<(Dict, Tree, Tree, Tree)> {
    let header = Header::read(&with_tag(&block_with(format, 4096, 0)), 6).ok()?;
    Some((
        header.dict(),
        header.tree(0),
        header.tree(1),
        header.tree(2),
    ))
}

/// Formats, and the bytes of data in a block.
const PAYLOADS: [(u8, u32); 2] = [(1, 4096), (2, 4080)];

/// The areas of six blocks by hand.
fn areas_of(payload: u32) -> (Dict, Tree, Tree, Tree) {
    let dict = Dict {
        places: 1,
        records: 2,
        terms: 4,
        bytes: payload as u64,
        payload,
    };
    (
        dict,
        tree_from(3, payload),
        tree_from(4, payload),
        tree_from(5, payload),
    )
}

const fn tree_from(first: u32, payload: u32) -> Tree {
    Tree {
        first,
        entries: 2,
        payload,
    }
}

#[test]
fn a_header_tells_its_areas(rt: HostRuntime) {
    for &(format, payload) in PAYLOADS.as_slice() {
        assert!(rt; areas(format) == Some(areas_of(payload)));
    }
}
