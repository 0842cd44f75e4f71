//! Each read of each call of a store fails in turn.

use crate::calls::{Asked, TWO_CALLS, answer, two_questions};
use crate::making::{FORMATS, TWO, image_of, store_of};
use sage_outside::StoreFault;
use std::alloc::Global;
use std::process::Abort;
use std::test::Fail;

/// How many blocks a store of the bytes has read when it was opened and has answered the call, if it
/// answers that number.
fn reads_of(
    rt: &impl Abort,
    alloc: Global,
    bytes: &[u8],
    asked: &Asked,
    (call, wanted): (u32, u32),
) -> Result<u64, Fail> {
    let mut store = store_of(alloc, bytes, Vec::new(alloc))?;
    let found = answer(rt, alloc, &mut store, asked, call);
    assert!(rt; found == Ok(wanted));
    Ok(store.close().reads())
}

/// Whether a call answers `Blocks` where that read fails, and the next call its number.
fn tells_of(
    rt: &impl Abort,
    alloc: Global,
    bytes: &[u8],
    asked: &Asked,
    (call, wanted): (u32, u32),
    failing: u64,
) -> Result<bool, Fail> {
    let mut store = store_of(alloc, bytes, vec![in alloc; failing]?)?;
    let first = answer(rt, alloc, &mut store, asked, call);
    let second = answer(rt, alloc, &mut store, asked, call);
    Ok(first == Err(StoreFault::Blocks) && second == Ok(wanted))
}

/// Whether the call reads so many blocks, each once, and each read that fails is told.
fn tells_all(
    rt: &impl Abort,
    alloc: Global,
    bytes: &[u8],
    asked: &Asked,
    call: (u32, u32),
    blocks: usize,
) -> Result<bool, Fail> {
    let reads = reads_of(rt, alloc, bytes, asked, call)?;
    let mut told = reads >= 1 && reads - 1 == blocks as u64;
    for failing in 1..reads {
        told = tells_of(rt, alloc, bytes, asked, call, failing)? && told;
    }
    Ok(told)
}

#[test]
fn each_read_that_fails_is_told(rt: HostRuntime) -> Result<(), Fail> {
    let asked = two_questions(rt.alloc())?;
    for &format in FORMATS.as_slice() {
        let bytes = image_of(rt.alloc(), TWO, format)?;
        for &(call, wanted, blocks) in TWO_CALLS.as_slice() {
            let count = blocks.len();
            assert!(rt; tells_all(&rt, rt.alloc(), &bytes, &asked, (call, wanted), count)?);
        }
    }
    Ok(())
}
