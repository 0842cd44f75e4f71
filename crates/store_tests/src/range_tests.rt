//! Ranges, places and counts of stores in blocks of memory. Expected values are worked out by hand.

use crate::making::{
    FORMATS, THREE, TWO, changed, ids, image_of, image_of_data, pattern, place_in, store_of,
    triple_in,
};
use btree_scan::Prefix;
use sage_outside::{Blocks, StoreFault};
use std::alloc::Global;
use std::process::Abort;
use std::test::Fail;
use term_core::Pattern;
use triple_store::{Range, Store};

/// A pattern, with `?` for a variable and `_` for a blank node, the order that it reads, and the
/// triples that agree with its terms.
type Row = (
    &'static str,
    &'static str,
    &'static str,
    u8,
    &'static [(u32, u32, u32)],
);

const ROWS: [Row; 16] = [
    ("?", "?", "?", 0, &[(0, 2, 1), (0, 3, 1), (1, 2, 0)]),
    ("_", "_", "_", 0, &[(0, 2, 1), (0, 3, 1), (1, 2, 0)]),
    ("i:a", "?", "?", 0, &[(0, 2, 1), (0, 3, 1)]),
    ("i:a", "i:p", "?", 0, &[(0, 2, 1)]),
    ("i:a", "i:p", "i:b", 0, &[(0, 2, 1)]),
    ("?", "i:p", "?", 1, &[(1, 2, 0), (0, 2, 1)]),
    ("?", "i:p", "i:b", 1, &[(0, 2, 1)]),
    ("?", "?", "i:b", 2, &[(0, 2, 1), (0, 3, 1)]),
    ("i:a", "?", "i:b", 2, &[(0, 2, 1), (0, 3, 1)]),
    ("i:b", "i:q", "i:a", 0, &[]),
    ("i:p", "?", "?", 0, &[]),
    ("i:z", "?", "?", 0, &[]),
    ("?", "i:z", "?", 1, &[]),
    ("?", "?", "i:z", 2, &[]),
    ("i:a", "?", "i:z", 2, &[]),
    ("x", "?", "?", 0, &[]),
];

/// Whether the triples of a range are these.
fn are_listed<B: Blocks>(
    rt: &impl Abort,
    store: &mut Store<B>,
    range: &Range,
    wanted: &[(u32, u32, u32)],
) -> bool {
    let mut same = range.first <= range.end && (range.end - range.first) as usize == wanted.len();
    for (place, &t) in wanted.iter().enumerate() {
        let place = place.min(1000) as u32;
        same = same && triple_in(rt, store, range, place) == Ok(ids(t));
    }
    same
}

/// The range of the pattern's triples and how many they are.
fn range_and_count<B: Blocks>(
    alloc: Global,
    store: &mut Store<B>,
    asked: &Pattern,
) -> Result<(Range, u32), StoreFault> {
    let range = store.range_of(alloc, asked)?;
    let count = store.count(alloc, asked)?;
    Ok((range, count))
}

/// Whether the triples of the pattern are those of the row, in its order.
fn has_range(
    rt: &impl Abort,
    alloc: Global,
    bytes: &[u8],
    asked: &Pattern,
    row: &Row,
) -> Result<bool, Fail> {
    let &(_, _, _, order, wanted) = row;
    let mut store = store_of(alloc, bytes, Vec::new(alloc))?;
    let (range, count) = range_and_count(alloc, &mut store, asked)?;
    let listed = are_listed(rt, &mut store, &range, wanted);
    Ok(listed && range.order == order && count as usize == wanted.len())
}

fn agrees(rt: &impl Abort, alloc: Global, bytes: &[u8], row: &Row) -> Result<bool, Fail> {
    let &(subject, predicate, object, _, _) = row;
    let asked = pattern(alloc, subject, predicate, object)?;
    has_range(rt, alloc, bytes, &asked, row)
}

#[test]
fn patterns_have_ranges_and_counts(rt: HostRuntime) -> Result<(), Fail> {
    for &format in FORMATS.as_slice() {
        let bytes = image_of(rt.alloc(), THREE, format)?;
        for row in ROWS.as_slice() {
            assert!(rt; agrees(&rt, rt.alloc(), &bytes, row)?);
        }
    }
    Ok(())
}

/// A triple of ranks, and its place in the range of those with the predicate `i:p`.
const PLACES: [((u32, u32, u32), Option<u32>); 5] = [
    ((1, 2, 0), Some(0)),
    ((0, 2, 1), Some(1)),
    ((0, 3, 1), None),
    ((0, 2, 0), None),
    ((4, 4, 4), None),
];

#[test]
fn triples_have_places(rt: HostRuntime) -> Result<(), Fail> {
    let bytes = image_of_data(rt.alloc(), THREE)?;
    let asked = pattern(rt.alloc(), "?", "i:p", "?")?;
    for &(t, wanted) in PLACES.as_slice() {
        assert!(rt; place_of(&rt, rt.alloc(), &bytes, &asked, t)? == Ok(wanted));
    }
    Ok(())
}

/// The place of a triple in the range of a pattern.
fn place_of(
    rt: &impl Abort,
    alloc: Global,
    bytes: &[u8],
    asked: &Pattern,
    t: (u32, u32, u32),
) -> Result<Result<Option<u32>, StoreFault>, Fail> {
    let mut store = store_of(alloc, bytes, Vec::new(alloc))?;
    let range = store.range_of(alloc, asked)?;
    Ok(place_in(rt, &mut store, &range, &ids(t)))
}

/// The triples of ranks of the three triples.
const TRIPLES: [(u32, u32, u32); 3] = [(0, 2, 1), (0, 3, 1), (1, 2, 0)];

/// How many triples of ranks below 5 the store has.
fn count_all<B: Blocks>(store: &mut Store<B>) -> u32 {
    let mut count = 0u32;
    for s in 0u32..5 {
        for p in 0u32..5 {
            for o in 0u32..5 {
                if store.has(&ids((s, p, o))) == Ok(true) {
                    count = count.saturating_add(1);
                }
            }
        }
    }
    count
}

#[test]
fn the_data_have_their_triples_alone(rt: HostRuntime) -> Result<(), Fail> {
    let bytes = image_of_data(rt.alloc(), THREE)?;
    let mut store = store_of(rt.alloc(), &bytes, Vec::new(rt.alloc()))?;
    assert_eq!(rt; count_all(&mut store), 3);
    for &t in TRIPLES.as_slice() {
        assert!(rt; store.has(&ids(t)) == Ok(true));
    }
    Ok(())
}

/// An order, a triple, and the place of its key.
const BOUNDS: [(u8, (u32, u32, u32), u32); 4] = [
    (0, (0, 3, 1), 1),
    (1, (0, 3, 1), 2),
    (2, (0, 3, 1), 2),
    (2, (9, 9, 9), 3),
];

/// An order, and the places of the keys that begin with 2.
const RANGES: [(u8, (u32, u32)); 3] = [(0, (3, 3)), (1, (0, 2)), (2, (3, 3))];

#[test]
fn keys_have_places(rt: HostRuntime) -> Result<(), Fail> {
    let bytes = image_of_data(rt.alloc(), THREE)?;
    let mut store = store_of(rt.alloc(), &bytes, Vec::new(rt.alloc()))?;
    for &(order, t, wanted) in BOUNDS.as_slice() {
        assert!(rt; order <= 2 && store.lower_bound(order, &ids(t)) == Ok(wanted));
    }
    Ok(())
}

#[test]
fn fronts_have_places(rt: HostRuntime) -> Result<(), Fail> {
    let bytes = image_of_data(rt.alloc(), THREE)?;
    let mut store = store_of(rt.alloc(), &bytes, Vec::new(rt.alloc()))?;
    let prefix = Prefix {
        len: 1,
        a: 2,
        b: 0,
        c: 0,
    };
    for &(order, wanted) in RANGES.as_slice() {
        assert!(rt; order <= 2 && store.range(order, &prefix) == Ok(wanted));
    }
    Ok(())
}

/// Whether the two triples' store answers so where the last id of its second entry is no term's: the first
/// triple of the range is there and the second damaged, the store does not have the second, and it has no
/// place.
fn answers_as_broken<B: Blocks>(rt: &impl Abort, store: &mut Store<B>, range: &Range) -> bool {
    let damaged = StoreFault::Damaged { block: 3 };
    let second = ids((0, 2, 3));
    triple_in(rt, store, range, 0) == Ok(ids((0, 2, 1)))
        && triple_in(rt, store, range, 1) == Err(damaged)
        && store.has(&second) == Ok(false)
        && place_in(rt, store, range, &second) == Ok(None)
}

/// The same of the range of a pattern, over the file of a store.
fn is_broken(rt: &impl Abort, alloc: Global, bytes: &[u8], asked: &Pattern) -> Result<bool, Fail> {
    let mut store = store_of(alloc, bytes, Vec::new(alloc))?;
    let range = store.range_of(alloc, asked)?;
    Ok(answers_as_broken(rt, &mut store, &range))
}

fn broken(alloc: Global, format: u8) -> Result<Vec<u8>, Fail> {
    let bytes = image_of(alloc, TWO, format)?;
    Ok(changed(alloc, format, &bytes, 3 * 4096 + 12 + 11, 9)?)
}

#[test]
fn a_broken_entry_is_damaged_in_a_range_and_not_in_a_search(rt: HostRuntime) -> Result<(), Fail> {
    let asked = pattern(rt.alloc(), "?", "?", "?")?;
    for &format in FORMATS.as_slice() {
        let bytes = broken(rt.alloc(), format)?;
        assert!(rt; is_broken(&rt, rt.alloc(), &bytes, &asked)?);
    }
    Ok(())
}
