//! A tree of three levels: how many blocks its searches read, and which of them they blame.

use crate::making::{put_tags_from, turn};
use btree_build::push_tree;
use btree_scan::{Prefix, Tree, lower_bound, range};
use sage_outside::{Blocks, MemBlocks, ReadFault};
use std::alloc::Global;
use std::process::Abort;
use std::test::Fail;
use term_core::IdTriple;

/// One more entry than two levels of 341 in a block hold: three levels. Entry n has the ids 1, 2 n and 3.
const ENTRIES: u32 = 116282;

/// The tree at the beginning of its blocks.
const fn tree(payload: u32) -> Tree {
    Tree {
        first: 0,
        entries: ENTRIES,
        payload,
    }
}

/// The blocks of the tree, without tags.
fn image(rt: &impl Abort, alloc: Global, payload: u32) -> Result<Vec<u8>, Fail> {
    let mut entries = Vec::new(alloc);
    for n in 0..ENTRIES {
        entries.push(IdTriple {
            s: 1,
            p: 2 * n,
            o: 3,
        })?;
    }
    assert!(rt; entries.len() <= 4194303);
    assert!(rt; payload == 4096 || payload == 4080);
    let mut out = Vec::new(alloc);
    push_tree(alloc, &mut out, &entries, payload)?;
    Ok(out)
}

/// The place of the key 1, p, 3, and how many blocks were read.
fn bound_in(
    rt: &impl Abort,
    alloc: Global,
    bytes: &[u8],
    payload: u32,
    p: u32,
) -> (Result<u32, ReadFault>, u64) {
    let mut blocks = MemBlocks::new(bytes, Vec::new(alloc));
    let tree = tree(payload);
    assert!(rt; tree.lies(blocks.blocks()));
    let place = lower_bound(&tree, &mut blocks, &IdTriple { s: 1, p, o: 3 });
    (place, blocks.reads())
}

/// The second id of a key, and its place.
const BOUNDS: [(u32, u32); 9] = [
    (0, 0),
    (1, 1),
    (681, 341),
    (682, 341),
    (683, 342),
    (232561, 116281),
    (232562, 116281),
    (232563, 116282),
    (4294967295, 116282),
];

#[test]
fn keys_are_found_by_a_read_in_each_level(rt: HostRuntime) -> Result<(), Fail> {
    let bytes = image(&rt, rt.alloc(), 4096)?;
    for &(p, place) in BOUNDS.as_slice() {
        let (found, reads) = bound_in(&rt, rt.alloc(), &bytes, 4096, p);
        assert!(rt; found == Ok(place) && reads <= 3);
    }
    Ok(())
}

/// The places of the entries whose keys begin so, and how many blocks were read.
fn range_in(
    rt: &impl Abort,
    alloc: Global,
    bytes: &[u8],
    prefix: &Prefix,
) -> (Result<(u32, u32), ReadFault>, u64) {
    let mut blocks = MemBlocks::new(bytes, Vec::new(alloc));
    let tree = tree(4096);
    assert!(rt; tree.lies(blocks.blocks()));
    assert!(rt; prefix.len <= 3);
    let found = range(&tree, &mut blocks, prefix);
    (found, blocks.reads())
}

/// How many ids, the first two, and the places.
const RANGES: [(u8, u32, u32, (u32, u32)); 5] = [
    (0, 0, 0, (0, 116282)),
    (1, 1, 0, (0, 116282)),
    (1, 2, 0, (116282, 116282)),
    (2, 1, 682, (341, 342)),
    (2, 1, 683, (342, 342)),
];

#[test]
fn ranges_are_found_by_two_reads_in_each_level(rt: HostRuntime) -> Result<(), Fail> {
    let bytes = image(&rt, rt.alloc(), 4096)?;
    for &(len, a, b, wanted) in RANGES.as_slice() {
        let prefix = Prefix { len, a, b, c: 0 };
        let (found, reads) = range_in(&rt, rt.alloc(), &bytes, &prefix);
        assert!(rt; found == Ok(wanted) && reads <= 6);
    }
    Ok(())
}

/// Blocks with tags of which a byte is another, and what the search for the last entry says. Of 346 blocks
/// it reads the last, which is level 2, the second of level 1, and the last of level 0.
const BROKEN: [(usize, Result<u32, ReadFault>); 5] = [
    (345, Err(ReadFault::Damaged { block: 345 })),
    (344, Err(ReadFault::Damaged { block: 344 })),
    (343, Ok(116281)),
    (342, Err(ReadFault::Damaged { block: 342 })),
    (341, Ok(116281)),
];

#[test]
fn a_search_blames_the_blocks_on_its_way_alone(rt: HostRuntime) -> Result<(), Fail> {
    let mut bytes = image(&rt, rt.alloc(), 4080)?;
    put_tags_from(&mut bytes, 341);
    for &(block, wanted) in BROKEN.as_slice() {
        turn(&mut bytes, 4096 * block + 7);
        let found = bound_in(&rt, rt.alloc(), &bytes, 4080, 232562).0;
        turn(&mut bytes, 4096 * block + 7);
        assert!(rt; found == wanted);
    }
    Ok(())
}
