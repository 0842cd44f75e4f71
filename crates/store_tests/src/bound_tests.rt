//! How many blocks a newly opened store reads for a call, and that a second call reads none.

use crate::calls::{Asked, answer, questions};
use crate::making::{FORMATS, image_of, store_of, trial};
use std::alloc::Global;
use std::process::Abort;
use std::test::Fail;

/// Calls of the store of two thousand generated triples, the numbers of their answers, and how many blocks
/// are read at most: with records of at most 50 bytes, 4 for a term, 25 times as many for a rank, three
/// ranks and 6 for a count. By rank the terms are 1,000 numbered IRIs, `next`, `val` and ten numbers.
const CALLS: [(u32, u32, u64); 6] = [
    (0, 1, 4),
    (1, 1000, 100),
    (2, 1000, 306),
    (3, 1, 4),
    (4, 1, 3),
    (5, 1, 1),
];

/// The answer of a call that is asked so many times, and how many blocks were read, the first with them.
fn counted(
    rt: &impl Abort,
    alloc: Global,
    bytes: &[u8],
    asked: &Asked,
    call: u32,
    times: u32,
) -> Result<(Option<u32>, u64), Fail> {
    let mut store = store_of(alloc, bytes, Vec::new(alloc))?;
    let mut found = None;
    for time in 0..times {
        found = answer(rt, alloc, &mut store, asked, call).ok();
    }
    Ok((found, store.close().reads()))
}

/// Whether the call answers that number by at most so many reads behind the one that opened the store, and
/// the same again by none.
fn is_bounded(
    rt: &impl Abort,
    alloc: Global,
    bytes: &[u8],
    asked: &Asked,
    (call, wanted, most): (u32, u32, u64),
) -> Result<bool, Fail> {
    let (found, reads) = counted(rt, alloc, bytes, asked, call, 1)?;
    let again = counted(rt, alloc, bytes, asked, call, 2)?;
    Ok(found == Some(wanted) && reads >= 2 && reads - 1 <= most && again == (found, reads))
}

/// Whether all calls are bounded so.
fn are_bounded(rt: &impl Abort, alloc: Global, bytes: &[u8], asked: &Asked) -> Result<bool, Fail> {
    let mut bounded = true;
    for &call in CALLS.as_slice() {
        bounded = is_bounded(rt, alloc, bytes, asked, call)? && bounded;
    }
    Ok(bounded)
}

#[test]
fn calls_read_few_blocks_and_none_again(rt: HostRuntime) -> Result<(), Fail> {
    let asked = questions(rt.alloc(), "http://t.example/next", 1000, (0, 1000, 1))?;
    for &format in FORMATS.as_slice() {
        let bytes = image_of(rt.alloc(), &trial(rt.alloc(), 1000)?, format)?;
        assert!(rt; are_bounded(&rt, rt.alloc(), &bytes, &asked)?, "{format}");
    }
    Ok(())
}
