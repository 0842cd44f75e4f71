//! Store files whose bytes are known.

use crate::making::{TWO, image_of, image_of_data, many, many_turned};
use std::alloc::{AllocError, Global};
use std::test::Fail;

/// The header of no data: two blocks, and SHA-256 of the empty text (FIPS 180-4, examples).
const NO_DATA_1: &[u8] =
    b"SAGESTO1\0\0\0\x02\0\0\0\0\0\0\0\0\0\0\0\0\xe3\xb0\xc4\x42\x98\xfc\x1c\x14\x9a\xfb\xf4\xc8\x99\x6f\xb9\x24\x27\xae\x41\xe4\x64\x9b\x93\x4c\xa4\x95\x99\x1b\x78\x52\xb8\x55";

const NO_DATA_2: &[u8] =
    b"SAGESTO2\0\0\0\x02\0\0\0\0\0\0\0\0\0\0\0\0\xe3\xb0\xc4\x42\x98\xfc\x1c\x14\x9a\xfb\xf4\xc8\x99\x6f\xb9\x24\x27\xae\x41\xe4\x64\x9b\x93\x4c\xa4\x95\x99\x1b\x78\x52\xb8\x55";

/// Six blocks, 4 terms, 2 triples, 49 bytes in the longest record, and what `sha256sum` makes of the
/// two lines.
const TWO_1: &[u8] =
    b"SAGESTO1\0\0\0\x06\0\0\0\x04\0\0\0\x02\0\0\0\x31\xbd\xb4\xef\xf0\xab\xe7\xb6\xc5\x57\xb5\x8a\xbc\x5a\x24\x5c\x32\x2e\xd6\x44\xcb\x8e\x03\xe5\x7c\xc8\x0d\x91\xe3\x90\xf1\x21\xb4";

const TWO_2: &[u8] =
    b"SAGESTO2\0\0\0\x06\0\0\0\x04\0\0\0\x02\0\0\0\x31\xbd\xb4\xef\xf0\xab\xe7\xb6\xc5\x57\xb5\x8a\xbc\x5a\x24\x5c\x32\x2e\xd6\x44\xcb\x8e\x03\xe5\x7c\xc8\x0d\x91\xe3\x90\xf1\x21\xb4";

const PLACES: &[u8] =
    b"\0\0\0\0\0\0\0\0\0\0\0\0\0\0\0\x0b\0\0\0\0\0\0\0\x16\0\0\0\0\0\0\0\x21\0\0\0\0\0\0\0\x52";

/// The terms in order are `<http://e/a>`, `<http://e/b>`, `<http://e/p>` and `"x"`.
const RECORDS: &[u8] =
    b"\x01http://e/a\x01http://e/b\x01http://e/p\x02\0\0\0\x27\0\0\0\0http://www.w3.org/2001/XMLSchema#stringx";

const BY_SUBJECT: &[u8] = b"\0\0\0\0\0\0\0\x02\0\0\0\x01\0\0\0\0\0\0\0\x02\0\0\0\x03";

const BY_PREDICATE: &[u8] = b"\0\0\0\x02\0\0\0\x01\0\0\0\0\0\0\0\x02\0\0\0\x03\0\0\0\0";

const BY_OBJECT: &[u8] = b"\0\0\0\x01\0\0\0\0\0\0\0\x02\0\0\0\x03\0\0\0\0\0\0\0\x02";

/// What a block begins with, and the 16 bytes at its end; zeros are between them.
type Block = (&'static [u8], &'static [u8; 16]);

const NO_TAG: &[u8; 16] = &[0; 16];

const NO_DATA_BLOCKS_1: &[Block] = &[(NO_DATA_1, NO_TAG), (b"", NO_TAG)];

/// The tags are the first 16 bytes of what `sha256sum` makes of a block's number and its first 4,080
/// bytes.
const NO_DATA_BLOCKS_2: &[Block] = &[
    (
        NO_DATA_2,
        b"\x68\x21\x83\x7b\xc2\x6a\x3b\x1a\xff\x00\xac\x96\x6a\x2c\x9f\xae",
    ),
    (
        b"",
        b"\xad\xa9\x3c\xfa\x96\x6b\x82\x4f\x9f\xf5\xf9\x57\x3a\xd9\xb5\xfe",
    ),
];

const TWO_BLOCKS_1: &[Block] = &[
    (TWO_1, NO_TAG),
    (PLACES, NO_TAG),
    (RECORDS, NO_TAG),
    (BY_SUBJECT, NO_TAG),
    (BY_PREDICATE, NO_TAG),
    (BY_OBJECT, NO_TAG),
];

const TWO_BLOCKS_2: &[Block] = &[
    (
        TWO_2,
        b"\x62\xed\x8b\xcb\xd2\x13\xf7\x7a\xfc\xb7\x97\x4b\x0e\x45\x05\xc3",
    ),
    (
        PLACES,
        b"\xfc\x52\x3a\x01\x9b\x73\x98\x83\xca\x17\x95\xa2\x25\x4f\x48\xee",
    ),
    (
        RECORDS,
        b"\x9b\x6e\x2a\xb1\xc7\xbc\x5d\x3d\x40\x23\x4b\xeb\x7d\x48\xa5\x57",
    ),
    (
        BY_SUBJECT,
        b"\x24\x10\x21\xd4\xb2\x31\x6d\x3b\x82\xd0\x3b\x41\xad\xa9\xc8\x12",
    ),
    (
        BY_PREDICATE,
        b"\x1b\x98\xcd\x6a\x43\xd2\xef\xb7\x5b\x7a\xa3\x96\x4f\x8a\xc1\xc5",
    ),
    (
        BY_OBJECT,
        b"\x21\x13\xd7\x3f\x56\xff\xe7\xd4\xab\x5e\x02\x3b\xe6\xb1\x7b\x9d",
    ),
];

/// The first line three times.
const REPEATED: &str =
    "<http://e/a> <http://e/p> <http://e/b> .\n<http://e/a> <http://e/p> <http://e/b> .
<http://e/a> <http://e/p> <http://e/b> .\n<http://e/a> <http://e/p> \"x\" .\n";

/// The lines exchanged.
const EXCHANGED: &str =
    "<http://e/a> <http://e/p> \"x\" .\n<http://e/a> <http://e/p> <http://e/b> .\n";

/// Documents, formats and the blocks of their files.
const FILES: [(&str, u8, &[Block]); 6] = [
    ("", 1, NO_DATA_BLOCKS_1),
    ("", 2, NO_DATA_BLOCKS_2),
    (TWO, 1, TWO_BLOCKS_1),
    (TWO, 2, TWO_BLOCKS_2),
    (REPEATED, 2, TWO_BLOCKS_2),
    (EXCHANGED, 2, TWO_BLOCKS_2),
];

/// Appends bytes, zeros up to 4,080, and the end of the block.
fn put_block(out: &mut Vec<u8>, bytes: &[u8], end: &[u8; 16]) -> Result<(), AllocError> {
    out.extend_from_slice(bytes)?;
    for _ in bytes.len()..4080 {
        out.push(0)?;
    }
    out.extend_from_slice(end.as_slice())
}

/// The bytes of these blocks.
fn blocks_of(alloc: Global, blocks: &[Block]) -> Result<Vec<u8>, AllocError> {
    let mut bytes = Vec::new(alloc);
    for &(front, end) in blocks {
        put_block(&mut bytes, front, end)?;
    }
    Ok(bytes)
}

/// Whether the file of the document in the format has these blocks.
fn has_blocks(alloc: Global, document: &str, format: u8, blocks: &[Block]) -> Result<bool, Fail> {
    let wanted = blocks_of(alloc, blocks)?;
    let made = image_of(alloc, document, format)?;
    Ok(made == wanted)
}

/// Neither the order of lines nor repeats count.
#[test]
fn files_have_their_bytes(rt: HostRuntime) -> Result<(), Fail> {
    for &(document, format, blocks) in FILES.as_slice() {
        assert!(rt; has_blocks(rt.alloc(), document, format, blocks)?);
    }
    Ok(())
}

/// Whether the file of the document, where no format is named, has these blocks.
fn is_written(alloc: Global, document: &str, blocks: &[Block]) -> Result<bool, Fail> {
    let wanted = blocks_of(alloc, blocks)?;
    let made = image_of_data(alloc, document)?;
    Ok(made == wanted)
}

#[test]
fn format_2_is_written(rt: HostRuntime) -> Result<(), Fail> {
    assert!(rt; is_written(rt.alloc(), "", NO_DATA_BLOCKS_2)?);
    assert!(rt; is_written(rt.alloc(), TWO, TWO_BLOCKS_2)?);
    Ok(())
}

/// What the IRIs of 342 triples begin with.
const BASE: &str = "http://e/";

/// A format, a block of the file of 342 triples and a place in it, and the bytes from there on. Thirteen
/// blocks: the records begin in the third, the trees in the fifth, the eighth and the eleventh, and the
/// last block of each has the first entries of its other two. Format 1 keeps 341 entries in a block, and
/// format 2 keeps 340.
const PIECES: [(u8, usize, usize, &[u8]); 20] = [
    (1, 0, 8, b"\0\0\0\x0d\0\0\x01\x58\0\0\x01\x56\0\0\0\x0d"),
    (
        1,
        1,
        8 * 342,
        b"\0\0\0\0\0\0\x11\x5e\0\0\0\0\0\0\x11\x69\0\0\0\0\0\0\x11\x74\0",
    ),
    (1, 3, 4446 - 4096, b"\x01http://e/p\x01http://e/s\0"),
    (
        1,
        4,
        0,
        b"\0\0\x01\x57\0\0\x01\x56\0\0\0\0\0\0\x01\x57\0\0\x01\x56\0\0\0\x01",
    ),
    (1, 4, 4080, b"\0\0\x01\x57\0\0\x01\x56\0\0\x01\x54\0\0\0\0"),
    (1, 5, 0, b"\0\0\x01\x57\0\0\x01\x56\0\0\x01\x55\0\0\0\0"),
    (
        1,
        6,
        0,
        b"\0\0\x01\x57\0\0\x01\x56\0\0\0\0\0\0\x01\x57\0\0\x01\x56\0\0\x01\x55\0\0\0\0",
    ),
    (1, 8, 0, b"\0\0\x01\x56\0\0\x01\x55\0\0\x01\x57\0\0\0\0"),
    (1, 12, 12, b"\0\0\x01\x55\0\0\x01\x57\0\0\x01\x56\0\0\0\0"),
    (1, 13, 0, b""),
    (2, 0, 8, b"\0\0\0\x0d\0\0\x01\x58\0\0\x01\x56\0\0\0\x0d"),
    (2, 1, 8 * 342, b"\0\0\0\0\0\0\x11\x5e"),
    (2, 3, 4446 - 4080, b"\x01http://e/p\x01http://e/s\0"),
    (2, 4, 4068, b"\0\0\x01\x57\0\0\x01\x56\0\0\x01\x53"),
    (
        2,
        5,
        0,
        b"\0\0\x01\x57\0\0\x01\x56\0\0\x01\x54\0\0\x01\x57\0\0\x01\x56\0\0\x01\x55\0\0\0\0",
    ),
    (2, 6, 12, b"\0\0\x01\x57\0\0\x01\x56\0\0\x01\x54\0\0\0\0"),
    (2, 7, 0, b"\0\0\x01\x56\0\0\0\0\0\0\x01\x57\0\0\x01\x56"),
    (2, 8, 12, b"\0\0\x01\x56\0\0\x01\x55\0\0\x01\x57\0\0\0\0"),
    (2, 12, 12, b"\0\0\x01\x54\0\0\x01\x57\0\0\x01\x56\0\0\0\0"),
    (2, 13, 0, b""),
];

fn stands_at(bytes: &[u8], place: usize, wanted: &[u8]) -> bool {
    bytes.len() == 53248 && place <= 53248 && bytes[place..].starts_with(wanted)
}

/// Whether the bytes stand in the file of 342 triples.
fn has_piece(alloc: Global, format: u8, place: usize, wanted: &[u8]) -> Result<bool, Fail> {
    let made = image_of(alloc, &many(alloc, BASE)?, format)?;
    Ok(stands_at(&made, place, wanted))
}

#[test]
fn trees_go_on_in_the_next_block(rt: HostRuntime) -> Result<(), Fail> {
    for &(format, block, at, wanted) in PIECES.as_slice() {
        let place = 4096 * block + at;
        assert!(rt;
            has_piece(rt.alloc(), format, place, wanted)?,
            "{format} {place}"
        );
    }
    Ok(())
}

/// Whether the file of the 342 triples is that of the same turned and doubled.
fn have_one_image(alloc: Global) -> Result<bool, Fail> {
    let made = image_of_data(alloc, &many(alloc, BASE)?)?;
    let turned = image_of_data(alloc, &many_turned(alloc, BASE)?)?;
    Ok(made == turned)
}

#[test]
fn larger_sets_have_one_image(rt: HostRuntime) -> Result<(), Fail> {
    assert!(rt; have_one_image(rt.alloc())?);
    Ok(())
}
