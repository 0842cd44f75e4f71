//! The bytes of trees, which are known.

use btree_build::push_tree;
use std::alloc::{AllocError, Global};
use std::process::Abort;
use std::test::Fail;
use term_core::IdTriple;

/// The blocks of a tree, without tags.
pub(crate) fn image_of(
    rt: &impl Abort,
    alloc: Global,
    entries: &[IdTriple],
    payload: u32,
) -> Result<Vec<u8>, Fail> {
    assert!(rt; entries.len() <= 4194303);
    assert!(rt; payload == 4096 || payload == 4080);
    let mut out = Vec::new(alloc);
    push_tree(alloc, &mut out, entries, payload)?;
    Ok(out)
}

/// So many entries, which rise by their second id.
fn rising(alloc: Global, count: u32) -> Result<Vec<IdTriple>, AllocError> {
    let mut entries = Vec::new(alloc);
    for p in 0..count {
        entries.push(IdTriple {
            s: 0x01020304,
            p,
            o: 0xfffefdfc,
        })?;
    }
    Ok(entries)
}

/// The payload, the number of entries, the bytes of the blocks, a place in them, and bytes there. An
/// entry is three ids with the highest byte first; no entry lies in two blocks. A block keeps 341 of
/// them with 4096 and 340 with 4080, and one more than the square of that takes three levels.
const BYTES: [(u32, u32, usize, usize, &[u8]); 23] = [
    (
        4096,
        2,
        4096,
        0,
        b"\x01\x02\x03\x04\0\0\0\0\xff\xfe\xfd\xfc\x01\x02\x03\x04\0\0\0\x01\xff\xfe\xfd\xfc\0\0",
    ),
    (
        4080,
        2,
        4096,
        0,
        b"\x01\x02\x03\x04\0\0\0\0\xff\xfe\xfd\xfc\x01\x02\x03\x04\0\0\0\x01\xff\xfe\xfd\xfc\0\0",
    ),
    (4096, 2, 4096, 4095, b"\0"),
    (4080, 2, 4096, 4095, b"\0"),
    (4096, 0, 0, 0, b""),
    (4096, 1, 4096, 0, b""),
    (4096, 341, 4096, 0, b""),
    (4096, 342, 12288, 0, b""),
    (4096, 1023, 16384, 0, b""),
    (4096, 1024, 20480, 0, b""),
    (4080, 0, 0, 0, b""),
    (4080, 340, 4096, 0, b""),
    (4080, 341, 12288, 0, b""),
    (4080, 680, 12288, 0, b""),
    (4080, 681, 16384, 0, b""),
    (
        4096,
        400,
        12288,
        4080,
        b"\x01\x02\x03\x04\0\0\x01\x54\xff\xfe\xfd\xfc\0\0\0\0\x01\x02\x03\x04\0\0\x01\x55\xff\xfe\xfd\xfc",
    ),
    (
        4096,
        400,
        12288,
        8192,
        b"\x01\x02\x03\x04\0\0\0\0\xff\xfe\xfd\xfc\x01\x02\x03\x04\0\0\x01\x55\xff\xfe\xfd\xfc\0\0",
    ),
    (
        4080,
        400,
        12288,
        4068,
        b"\x01\x02\x03\x04\0\0\x01\x53\xff\xfe\xfd\xfc\0\0\0\0\0\0\0\0\0\0\0\0\0\0\0\0\x01\x02\x03\x04\0\0\x01\x54\xff\xfe\xfd\xfc",
    ),
    (
        4080,
        400,
        12288,
        8192,
        b"\x01\x02\x03\x04\0\0\0\0\xff\xfe\xfd\xfc\x01\x02\x03\x04\0\0\x01\x54\xff\xfe\xfd\xfc\0\0",
    ),
    (
        4096,
        116282,
        1413120,
        1400832,
        b"\x01\x02\x03\x04\0\0\0\0\xff\xfe\xfd\xfc\x01\x02\x03\x04\0\0\x01\x55\xff\xfe\xfd\xfc",
    ),
    (
        4096,
        116282,
        1413120,
        1409024,
        b"\x01\x02\x03\x04\0\0\0\0\xff\xfe\xfd\xfc\x01\x02\x03\x04\0\x01\xc6\x39\xff\xfe\xfd\xfc\0\0",
    ),
    (
        4080,
        115601,
        1409024,
        1396736,
        b"\x01\x02\x03\x04\0\0\0\0\xff\xfe\xfd\xfc\x01\x02\x03\x04\0\0\x01\x54\xff\xfe\xfd\xfc",
    ),
    (
        4080,
        115601,
        1409024,
        1404928,
        b"\x01\x02\x03\x04\0\0\0\0\xff\xfe\xfd\xfc\x01\x02\x03\x04\0\x01\xc3\x90\xff\xfe\xfd\xfc\0\0",
    ),
];

/// The size of the blocks of so many entries, and whether the bytes stand there.
fn stand_in(
    rt: &impl Abort,
    alloc: Global,
    (payload, count): (u32, u32),
    at: usize,
    wanted: &[u8],
) -> Result<(usize, bool), Fail> {
    let list = rising(alloc, count)?;
    let made = image_of(rt, alloc, &list, payload)?;
    let bytes = made.as_slice();
    Ok((
        bytes.len(),
        at <= bytes.len() && bytes[at..].starts_with(wanted),
    ))
}

#[test]
fn blocks_have_their_bytes(rt: HostRuntime) -> Result<(), Fail> {
    for &(payload, count, size, at, wanted) in BYTES.as_slice() {
        assert_eq!(rt;
            stand_in(&rt, rt.alloc(), (payload, count), at, wanted)?,
            (size, true)
        );
    }
    Ok(())
}

/// How many bytes stand behind a byte where a tree of two entries is appended, and whether the byte and
/// the entries stand first.
fn appended(alloc: Global) -> Result<(usize, bool), Fail> {
    let list = rising(alloc, 2)?;
    let mut out = Vec::from_slice(alloc, b"\x07")?;
    push_tree(alloc, &mut out, &list[..list.len().min(2)], 4080)?;
    let front =
        b"\x07\x01\x02\x03\x04\0\0\0\0\xff\xfe\xfd\xfc\x01\x02\x03\x04\0\0\0\x01\xff\xfe\xfd\xfc";
    Ok((out.len(), out.as_slice().starts_with(front)))
}

#[test]
fn trees_are_appended(rt: HostRuntime) -> Result<(), Fail> {
    assert_eq!(rt; appended(rt.alloc())?, (4097, true));
    Ok(())
}
