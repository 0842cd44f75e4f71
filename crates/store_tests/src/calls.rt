//! Calls of a store by numbers, so that one loop can go over all of them.

use crate::making::{entry_in, ids, pattern, place_in, term, term_in, triple_in};
use sage_outside::{Blocks, ReadFault, StoreFault};
use std::alloc::Global;
use std::process::Abort;
use std::test::Fail;
use term_core::{IdTriple, Pattern, Term};
use triple_store::Store;

/// What is asked of a store: the triples of a predicate, that predicate and its rank, and a triple.
#[derive(Drop)]
pub(crate) struct Asked {
    pattern: Pattern,
    term: Term,
    id: u32,
    triple: IdTriple,
}

/// The questions about a predicate of that rank and a triple.
pub(crate) fn questions(
    alloc: Global,
    predicate: &str,
    id: u32,
    triple: (u32, u32, u32),
) -> Result<Asked, Fail> {
    let pattern = pattern(alloc, "?", predicate, "?")?;
    let term = term(alloc, predicate)?;
    Ok(Asked {
        pattern,
        term,
        id,
        triple: ids(triple),
    })
}

/// The questions about the store of two triples: `http://e/p` has the rank 2.
pub(crate) fn two_questions(alloc: Global) -> Result<Asked, Fail> {
    questions(alloc, "http://e/p", 2, (0, 2, 3))
}

/// Whether the term of the rank is the one that is asked for.
fn term_answer<B: Blocks>(
    rt: &impl Abort,
    alloc: Global,
    store: &mut Store<B>,
    asked: &Asked,
) -> Result<u32, StoreFault> {
    let found = term_in(rt, alloc, store, asked.id)?;
    Ok(u32::from(found == asked.term))
}

/// The object of the second triple of the predicate, or the place of the triple among them.
fn range_answer<B: Blocks>(
    rt: &impl Abort,
    alloc: Global,
    store: &mut Store<B>,
    asked: &Asked,
    call: u32,
) -> Result<u32, StoreFault> {
    let range = store.range_of(alloc, &asked.pattern)?;
    if call == 6 && range.first <= range.end && range.end - range.first > 1 {
        triple_in(rt, store, &range, 1).map(|t| t.o)
    } else {
        place_in(rt, store, &range, &asked.triple).map(|place| place.unwrap_or(9))
    }
}

/// The answer of a call as a number: 0 whether the rank's term is the predicate, 1 the predicate's rank,
/// 2 how many triples it has, 3 whether the triple is there, 4 its place by predicate, 5 the object of
/// the second triple by object, 6 and 7 of the triples of the predicate.
pub(crate) fn answer<B: Blocks>(
    rt: &impl Abort,
    alloc: Global,
    store: &mut Store<B>,
    asked: &Asked,
    call: u32,
) -> Result<u32, StoreFault> {
    match call {
        0 => term_answer(rt, alloc, store, asked),
        1 => store.id_of(alloc, &asked.term).map(|id| id.unwrap_or(9)),
        2 => store.count(alloc, &asked.pattern),
        3 => store.has(&asked.triple).map(u32::from).map_err(as_store),
        4 => store.lower_bound(1, &asked.triple).map_err(as_store),
        5 => entry_in(rt, store, 2, 1).map(|t| t.o).map_err(as_store),
        _ => range_answer(rt, alloc, store, asked, call),
    }
}

fn as_store(fault: ReadFault) -> StoreFault {
    match fault {
        ReadFault::Blocks => StoreFault::Blocks,
        ReadFault::Damaged { block } => StoreFault::Damaged { block },
    }
}

/// The calls of the store of two triples, the numbers of their answers, and the blocks that they read.
pub(crate) const TWO_CALLS: [(u32, u32, &[u32]); 8] = [
    (0, 1, &[1, 2]),
    (1, 2, &[1, 2]),
    (2, 2, &[1, 2, 4]),
    (3, 1, &[3]),
    (4, 1, &[4]),
    (5, 3, &[5]),
    (6, 3, &[1, 2, 4]),
    (7, 1, &[1, 2, 4]),
];
