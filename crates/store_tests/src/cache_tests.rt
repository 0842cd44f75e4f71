//! A cache over blocks of memory: which reads reach the blocks below, and which tags are looked at.

use block_cache::BlockCache;
use sage_outside::{Blocks, MemBlocks, ReadFault, tag};
use std::alloc::Global;
use std::process::Abort;
use std::test::Fail;

/// The first byte of block `n`, by its payload alone where it has a tag.
fn first_byte<B: Blocks>(blocks: &mut B, n: u32, payload: u32) -> Option<Result<u8, ReadFault>> {
    if n >= blocks.blocks() || payload != 4096 && payload != 4080 {
        return None;
    }
    let mut piece = [0];
    match blocks.read_part(n, payload, 0, &mut piece) {
        Ok(()) => Some(Ok(piece[0])),
        Err(fault) => Some(Err(fault)),
    }
}

/// The number of reads that reach three blocks below a cache of so many, for reads of these numbers.
fn reads_below(
    rt: &impl Abort,
    alloc: Global,
    capacity: u32,
    numbers: &[u32],
) -> Result<Option<u64>, Fail> {
    assert!(rt; capacity > 0);
    let image = vec![in alloc; 7u8; 12288]?;
    let blocks = MemBlocks::new(&image, Vec::new(alloc));
    match BlockCache::new(alloc, blocks, capacity) {
        Err(_) => Ok(None),
        Ok(cache) => {
            let mut cache = cache;
            for n in numbers {
                let _ = first_byte(&mut cache, *n, 4096);
            }
            Ok(Some(cache.close().reads()))
        }
    }
}

/// How many blocks are kept, the numbers that are read, and how many of these reads go below.
const READS: [(u32, &[u32], u64); 7] = [
    (2, &[0], 1),
    (2, &[0, 0, 0], 1),
    (2, &[0, 1, 0, 1], 2),
    (2, &[0, 1, 2, 0], 4),
    (2, &[0, 1, 0, 2, 0], 3),
    (3, &[0, 1, 2, 0, 1, 2], 3),
    (1, &[0, 1, 0], 3),
];

#[test]
fn a_second_read_does_not_reach_below(rt: HostRuntime) -> Result<(), Fail> {
    for &(capacity, numbers, reads) in READS.as_slice() {
        let found = reads_below(&rt, rt.alloc(), capacity, numbers)?;
        assert_eq!(rt; found, Some(reads), "{capacity}");
    }
    Ok(())
}

/// What three reads of block 0 answer where the first read below is to fail, and what goes below.
const FAILED: [(Result<u8, ReadFault>, u64); 3] = [
    (Err(ReadFault::Blocks), 1),
    (Ok(97), 2),
    (Ok(97), 2),
];

/// What the last of so many reads of block 0 answers, and how many went below.
fn after_a_failure(
    alloc: Global,
    count: usize,
) -> Result<Option<(Option<Result<u8, ReadFault>>, u64)>, Fail> {
    let blocks = MemBlocks::new(b"abc", vec![in alloc; 0u64; 1]?);
    match BlockCache::new(alloc, blocks, 2) {
        Err(_) => Ok(None),
        Ok(cache) => {
            let mut cache = cache;
            let mut last = None;
            for place in 0..count {
                last = first_byte(&mut cache, 0, 4096);
            }
            Ok(Some((last, cache.close().reads())))
        }
    }
}

#[test]
fn a_failed_read_is_not_kept(rt: HostRuntime) -> Result<(), Fail> {
    for place in 0..FAILED.len() {
        let (answer, reads) = FAILED[place];
        let found = after_a_failure(rt.alloc(), place + 1)?;
        assert_eq!(rt; found, Some((Some(answer), reads)), "{place}");
    }
    Ok(())
}

/// Two blocks with tags, of which that of the second is not its own.
fn tagged(alloc: Global) -> Result<Vec<u8>, Fail> {
    let mut image = vec![in alloc; 5u8; 8192]?;
    let right = tag(0, &image[..4080]);
    image[4080..4096].copy_from_slice(&right);
    image[8176..8192].copy_from_slice(&right);
    Ok(image)
}

/// A block, the payload by which it is read, and the answer, which is the same each time.
const TAGS: [(u32, u32, Option<Result<u8, ReadFault>>); 5] = [
    (0, 4080, Some(Ok(5))),
    (0, 4096, Some(Ok(5))),
    (1, 4080, Some(Err(ReadFault::Damaged { block: 1 }))),
    (1, 4096, Some(Ok(5))),
    (2, 4080, None),
];

/// The answers of two reads over a cache of one block that was read before without its tag.
fn twice(
    alloc: Global,
    n: u32,
    payload: u32,
) -> Result<Option<[Option<Result<u8, ReadFault>>; 2]>, Fail> {
    let image = tagged(alloc)?;
    match BlockCache::new(alloc, MemBlocks::new(&image, Vec::new(alloc)), 1) {
        Err(_) => Ok(None),
        Ok(cache) => {
            let mut cache = cache;
            let _ = first_byte(&mut cache, n, 4096);
            let first = first_byte(&mut cache, n, payload);
            Ok(Some([first, first_byte(&mut cache, n, payload)]))
        }
    }
}

#[test]
fn a_tag_that_does_not_agree_is_named_each_time(rt: HostRuntime) -> Result<(), Fail> {
    for &(n, payload, answer) in TAGS.as_slice() {
        let found = twice(rt.alloc(), n, payload)?;
        assert_eq!(rt; found, Some([answer, answer]), "{n} {payload}");
    }
    Ok(())
}
