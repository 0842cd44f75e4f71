//! Trees in blocks of memory: places against plain counts over their entries.

use crate::making::put_tags;
use crate::tree_image_tests::image_of;
use btree_scan::{Prefix, Tree, entry, lower_bound, range};
use sage_outside::{Blocks, MemBlocks, ReadFault};
use std::alloc::{AllocError, Global};
use std::process::Abort;
use std::test::Fail;
use term_core::IdTriple;

/// So many entries: three with each pair of first ids, four pairs with each first id.
fn entries(alloc: Global, count: u32) -> Result<Vec<IdTriple>, AllocError> {
    let mut entries = Vec::new(alloc);
    for n in 0..count {
        entries.push(IdTriple {
            s: 2 * (n / 12) + 1,
            p: n / 3 % 4 + 1,
            o: 2 * (n % 3) + 1,
        })?;
    }
    Ok(entries)
}

/// A block of another kind, then the tree, and the tags where there is room for them.
fn in_blocks(
    rt: &impl Abort,
    alloc: Global,
    list: &[IdTriple],
    payload: u32,
) -> Result<Vec<u8>, Fail> {
    let made = image_of(rt, alloc, list, payload)?;
    let mut bytes = vec![in alloc; 255u8; 4096]?;
    bytes.extend_from_slice(made.as_slice())?;
    if payload == 4080 {
        put_tags(&mut bytes);
    }
    Ok(bytes)
}

fn tree_of(entries: u32, payload: u32) -> Tree {
    Tree {
        first: 1,
        entries,
        payload,
    }
}

fn entry_in<B: Blocks>(
    rt: &impl Abort,
    tree: &Tree,
    blocks: &mut B,
    place: u32,
) -> Result<IdTriple, ReadFault> {
    assert!(rt; tree.lies(blocks.blocks()));
    assert!(rt; place < tree.entries);
    entry(tree, blocks, place)
}

fn bound_in<B: Blocks>(
    rt: &impl Abort,
    tree: &Tree,
    blocks: &mut B,
    key: &IdTriple,
) -> Result<u32, ReadFault> {
    assert!(rt; tree.lies(blocks.blocks()));
    lower_bound(tree, blocks, key)
}

fn range_in<B: Blocks>(
    rt: &impl Abort,
    tree: &Tree,
    blocks: &mut B,
    prefix: &Prefix,
) -> Result<(u32, u32), ReadFault> {
    assert!(rt; tree.lies(blocks.blocks()));
    assert!(rt; prefix.len <= 3);
    range(tree, blocks, prefix)
}

/// The first ids of a key, and zeros.
fn front(len: u8, key: &IdTriple) -> IdTriple {
    IdTriple {
        s: if len > 0 { key.s } else { 0 },
        p: if len > 1 { key.p } else { 0 },
        o: if len > 2 { key.o } else { 0 },
    }
}

/// How many entries have a front below that of the key, or also the same.
fn plain_count(entries: &[IdTriple], len: u8, key: &IdTriple, through: bool) -> u32 {
    let mut count = 0u32;
    for e in entries {
        let order = front(len, e).cmp(&front(len, key));
        if order.is_lt() || through && order.is_eq() {
            count = count.saturating_add(1);
        }
    }
    count
}

/// Payloads, and numbers of entries: none, one, one full block, two levels, and more blocks.
const LISTS: [(u32, u32); 14] = [
    (4096, 0),
    (4096, 1),
    (4096, 2),
    (4096, 341),
    (4096, 342),
    (4096, 1100),
    (4096, 1023),
    (4080, 0),
    (4080, 1),
    (4080, 2),
    (4080, 340),
    (4080, 341),
    (4080, 342),
    (4080, 1100),
];

/// Keys in front of all entries, among them, between them, and behind all.
const KEYS: [(u32, u32, u32); 12] = [
    (0, 0, 0),
    (1, 1, 1),
    (1, 1, 2),
    (1, 4, 5),
    (1, 4, 6),
    (2, 1, 1),
    (57, 2, 3),
    (57, 2, 4),
    (57, 5, 0),
    (183, 1, 1),
    (183, 3, 3),
    (4294967295, 4294967295, 4294967295),
];

/// Whether the place of the key, and the range of each front of it, are those of a plain count.
fn are_counted<B: Blocks>(
    rt: &impl Abort,
    tree: &Tree,
    blocks: &mut B,
    list: &[IdTriple],
    key: &IdTriple,
) -> bool {
    let mut counted = bound_in(rt, tree, blocks, key) == Ok(plain_count(list, 3, key, false));
    for len in 0u8..4 {
        let prefix = Prefix {
            len,
            a: key.s,
            b: key.p,
            c: key.o,
        };
        let wanted = (
            plain_count(list, len, key, false),
            plain_count(list, len, key, true),
        );
        counted = counted && range_in(rt, tree, blocks, &prefix) == Ok(wanted);
    }
    counted
}

/// Whether all keys have their places in the list of so many entries.
fn keys_have_places(
    rt: &impl Abort,
    alloc: Global,
    payload: u32,
    count: u32,
) -> Result<bool, Fail> {
    let list = entries(alloc, count)?;
    let bytes = in_blocks(rt, alloc, &list, payload)?;
    let mut blocks = MemBlocks::new(&bytes, Vec::new(alloc));
    let tree = tree_of(count, payload);
    let mut counted = true;
    for &(s, p, o) in KEYS.as_slice() {
        let key = IdTriple { s, p, o };
        counted = counted && are_counted(rt, &tree, &mut blocks, &list, &key);
    }
    Ok(counted)
}

#[test]
fn places_are_those_of_a_plain_count(rt: HostRuntime) -> Result<(), Fail> {
    for &(payload, count) in LISTS.as_slice() {
        assert!(rt; keys_have_places(&rt, rt.alloc(), payload, count)?);
    }
    Ok(())
}

/// The payload, a place of 1,100 entries, and its ids: the last of a block, the first of the next, and
/// the last of all.
const PLACES: [(u32, u32, (u32, u32, u32)); 9] = [
    (4096, 0, (1, 1, 1)),
    (4096, 340, (57, 2, 3)),
    (4096, 341, (57, 2, 5)),
    (4096, 342, (57, 3, 1)),
    (4096, 682, (113, 4, 3)),
    (4096, 1099, (183, 3, 3)),
    (4080, 339, (57, 2, 1)),
    (4080, 340, (57, 2, 3)),
    (4080, 1099, (183, 3, 3)),
];

/// The entry at a place of 1,100, and how many blocks were read.
fn read_at(
    rt: &impl Abort,
    alloc: Global,
    payload: u32,
    place: u32,
) -> Result<(Result<IdTriple, ReadFault>, u64), Fail> {
    let list = entries(alloc, 1100)?;
    let bytes = in_blocks(rt, alloc, &list, payload)?;
    let mut blocks = MemBlocks::new(&bytes, Vec::new(alloc));
    let found = entry_in(rt, &tree_of(1100, payload), &mut blocks, place);
    Ok((found, blocks.reads()))
}

#[test]
fn entries_stand_at_their_places(rt: HostRuntime) -> Result<(), Fail> {
    for &(payload, place, (s, p, o)) in PLACES.as_slice() {
        assert!(rt; read_at(&rt, rt.alloc(), payload, place)? == (Ok(IdTriple { s, p, o }), 1));
    }
    Ok(())
}

/// A call over the list of 342 entries: entry 341, the place of its key, or the range of its first ids.
fn answer<B: Blocks>(rt: &impl Abort, blocks: &mut B, call: u32) -> Result<(u32, u32), ReadFault> {
    let tree = tree_of(342, 4096);
    let last = IdTriple { s: 57, p: 2, o: 5 };
    let prefix = Prefix {
        len: 2,
        a: 57,
        b: 2,
        c: 0,
    };
    match call {
        0 => entry_in(rt, &tree, blocks, 341).map(|e| (e.s, e.o)),
        1 => bound_in(rt, &tree, blocks, &last).map(|place| (place, 0)),
        _ => range_in(rt, &tree, blocks, &prefix),
    }
}

/// The calls, their answers, and how many blocks are read for them.
const CALLS: [(u32, (u32, u32), u64); 3] = [(0, (57, 5), 1), (1, (341, 0), 2), (2, (339, 342), 4)];

/// Whether the call answers that by so many reads, and where one of them fails `Blocks`, at once.
fn tells_each_failure(
    rt: &impl Abort,
    alloc: Global,
    bytes: &[u8],
    (call, wanted, reads): (u32, (u32, u32), u64),
) -> Result<bool, AllocError> {
    let mut whole = MemBlocks::new(bytes, Vec::new(alloc));
    let mut told = answer(rt, &mut whole, call) == Ok(wanted) && whole.reads() == reads;
    for failing in 0..reads {
        let mut blocks = MemBlocks::new(bytes, vec![in alloc; failing]?);
        let failed = answer(rt, &mut blocks, call) == Err(ReadFault::Blocks);
        told = told && failed && blocks.reads() > failing && blocks.reads() - failing == 1;
    }
    Ok(told)
}

#[test]
fn each_read_that_fails_is_told(rt: HostRuntime) -> Result<(), Fail> {
    let list = entries(rt.alloc(), 342)?;
    let bytes = in_blocks(&rt, rt.alloc(), &list, 4096)?;
    for &call in CALLS.as_slice() {
        assert!(rt; tells_each_failure(&rt, rt.alloc(), &bytes, call)?);
    }
    Ok(())
}

/// Trees, by the first block, the entries and the payload, a number of blocks, and whether they lie there.
const LYING: [(u32, u32, u32, u32, bool); 12] = [
    (1, 341, 4096, 2, true),
    (1, 342, 4096, 4, true),
    (1, 342, 4096, 3, false),
    (1, 340, 4080, 2, true),
    (1, 341, 4080, 4, true),
    (1, 341, 4080, 3, false),
    (1, 342, 4095, 4, false),
    (0, 4194303, 4096, 12339, true),
    (0, 4194303, 4096, 12338, false),
    (0, 4194303, 4080, 12375, true),
    (0, 4194303, 4080, 12374, false),
    (0, 4194304, 4096, 4294967295, false),
];

#[test]
fn trees_lie_within_their_blocks(rt: HostRuntime) {
    for &(first, entries, payload, count, lies) in LYING.as_slice() {
        let tree = Tree {
            first,
            entries,
            payload,
        };
        assert_eq!(rt; tree.lies(count), lies);
    }
}
