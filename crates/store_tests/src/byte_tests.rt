//! Bytes of a small store become others in turn.

use crate::calls::{Asked, TWO_CALLS, answer, two_questions};
use crate::making::{TWO, ids, image_of, many, store_of, turn};
use sage_outside::{Blocks, ReadFault, StoreFault};
use std::alloc::Global;
use std::process::Abort;
use std::test::Fail;
use triple_store::{OpenFault, Store};

/// Places in a block: the fields of a header, what the areas begin and end with, the zeros behind them,
/// and the tag.
const PLACES: [usize; 24] = [
    0, 7, 8, 11, 15, 19, 20, 23, 24, 39, 40, 55, 56, 81, 82, 600, 1531, 3007, 4079, 4080, 4085,
    4090, 4094, 4095,
];

/// Whether each call answers its number, and where it reads the block that was broken, `Damaged` with that
/// block.
fn calls_blame<B: Blocks>(
    rt: &impl Abort,
    alloc: Global,
    store: &mut Store<B>,
    asked: &Asked,
    block: u32,
) -> bool {
    let mut right = true;
    for &(call, wanted, blocks) in TWO_CALLS.as_slice() {
        let found = answer(rt, alloc, store, asked, call);
        right = right
            && if blocks.contains(&block) {
                found == Err(StoreFault::Damaged { block })
            } else {
                found == Ok(wanted)
            };
    }
    right
}

/// Whether a store of format 2 with another byte at the place is refused where the byte is of the first
/// block: as no store for its mark, and as damaged for any other; else, whether all calls that read the
/// block blame it, and all others answer as ever.
fn is_blamed(rt: &impl Abort, alloc: Global, bytes: &[u8], asked: &Asked, place: usize) -> bool {
    match store_of(alloc, bytes, Vec::new(alloc)) {
        Err(OpenFault::NotAStore) => place < 8,
        Err(fault) => place < 4096 && place >= 8 && fault == OpenFault::Damaged { block: 0 },
        Ok(store) => {
            let mut store = store;
            let block = (place / 4096).min(1000) as u32;
            block > 0 && calls_blame(rt, alloc, &mut store, asked, block)
        }
    }
}

#[test]
fn a_byte_of_format_2_is_blamed(rt: HostRuntime) -> Result<(), Fail> {
    let asked = two_questions(rt.alloc())?;
    let mut bytes = image_of(rt.alloc(), TWO, 2)?;
    for block in 0usize..6 {
        for &at in PLACES.as_slice() {
            let place = 4096 * block + at;
            turn(&mut bytes, place);
            assert!(rt;
                is_blamed(&rt, rt.alloc(), &bytes, &asked, place),
                "{place}"
            );
            turn(&mut bytes, place);
        }
    }
    Ok(())
}

/// How many bytes of each block of the two triples' file say something.
const SAYING: [usize; 6] = [56, 40, 82, 24, 24, 24];

/// Whether a byte says nothing in format 1, and the name of the data, which calls do not read, is nothing
/// to them either.
fn is_idle(place: usize) -> bool {
    let block = place / 4096;
    if block == 0 {
        place >= 24
    } else {
        block < 6 && place % 4096 >= SAYING[block]
    }
}

/// Whether an answer may follow from another byte in the block: the right one; and where the byte says
/// something and the call looks at it, another number, or the damage of a block that the call reads.
fn may_answer(
    found: Result<u32, StoreFault>,
    wanted: u32,
    blocks: &[u32],
    block: u32,
    idle: bool,
) -> bool {
    if found == Ok(wanted) {
        return true;
    }
    if idle || block > 0 && !blocks.contains(&block) {
        return false;
    }
    match found {
        Ok(_) => true,
        Err(StoreFault::Damaged { block }) => blocks.contains(&block),
        Err(_) => false,
    }
}

fn calls_may_answer<B: Blocks>(
    rt: &impl Abort,
    alloc: Global,
    store: &mut Store<B>,
    asked: &Asked,
    place: usize,
) -> bool {
    let block = (place / 4096).min(1000) as u32;
    let mut right = true;
    for &(call, wanted, blocks) in TWO_CALLS.as_slice() {
        let found = answer(rt, alloc, store, asked, call);
        right = right && may_answer(found, wanted, blocks, block, is_idle(place));
    }
    right
}

/// Whether a file of format 1 with another byte at the place is no store, where the byte is of the mark or
/// the numbers; else, whether all calls answer as they may.
fn is_borne(rt: &impl Abort, alloc: Global, bytes: &[u8], asked: &Asked, place: usize) -> bool {
    match store_of(alloc, bytes, Vec::new(alloc)) {
        Err(fault) => place < 24 && fault == OpenFault::NotAStore,
        Ok(store) => {
            let mut store = store;
            place >= 12 && calls_may_answer(rt, alloc, &mut store, asked, place)
        }
    }
}

#[test]
fn each_byte_of_format_1_that_says_something_is_borne(rt: HostRuntime) -> Result<(), Fail> {
    let asked = two_questions(rt.alloc())?;
    let mut bytes = image_of(rt.alloc(), TWO, 1)?;
    for block in 0..SAYING.len() {
        for at in 0..SAYING[block] {
            let place = 4096 * block + at;
            turn(&mut bytes, place);
            assert!(rt; is_borne(&rt, rt.alloc(), &bytes, &asked, place), "{place}");
            turn(&mut bytes, place);
        }
    }
    Ok(())
}

#[test]
fn zeros_of_format_1_say_nothing(rt: HostRuntime) -> Result<(), Fail> {
    let asked = two_questions(rt.alloc())?;
    let mut bytes = image_of(rt.alloc(), TWO, 1)?;
    for block in 0usize..6 {
        for &at in PLACES.as_slice() {
            let place = 4096 * block + at;
            turn(&mut bytes, place);
            assert!(rt; is_borne(&rt, rt.alloc(), &bytes, &asked, place), "{place}");
            turn(&mut bytes, place);
        }
    }
    Ok(())
}

/// The blocks that are read to see that the last of 342 triples is there: the one of level 1 of the tree by
/// subject, and the second of its level 0.
const WAY: [usize; 2] = [5, 6];

/// Whether the store of 342 triples in format 2 has the last of them, or blames the block of the place
/// where it is one on the way.
fn is_found_or_blamed(alloc: Global, bytes: &[u8], place: usize) -> Result<bool, Fail> {
    let mut store = store_of(alloc, bytes, Vec::new(alloc))?;
    let found = store.has(&ids((343, 342, 341)));
    let block = place / 4096;
    if WAY.as_slice().contains(&block) {
        let block = block.min(1000) as u32;
        Ok(found == Err(ReadFault::Damaged { block }))
    } else {
        Ok(found == Ok(true))
    }
}

/// A byte of each block behind the first.
#[test]
fn blocks_on_the_way_down_a_tree_are_blamed(rt: HostRuntime) -> Result<(), Fail> {
    let mut bytes = image_of(rt.alloc(), &many(rt.alloc(), "http://e/")?, 2)?;
    for block in 1usize..13 {
        let place = 4437 * block;
        turn(&mut bytes, place);
        assert!(rt; is_found_or_blamed(rt.alloc(), &bytes, place)?, "{place}");
        turn(&mut bytes, place);
    }
    Ok(())
}
