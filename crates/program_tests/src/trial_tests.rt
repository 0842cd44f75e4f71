//! The generated data of a trial, and what is told of their store files.

use sage::trial_triples;
use sage_outside::MemBlocks;
use std::alloc::Global;
use std::test::Fail;
use store_image::{have_short_terms, image_of};
use triple_store::{Info, Store};

/// What is told of the store file of 1,000 numbers in either format, worked out by hand of the layout. The terms are the
/// numbers, two predicates and ten digits. The longest record is that of a digit: one byte of kind, two lengths of four
/// bytes, the 40 bytes of xsd:integer and the digit. Of the 30 blocks one is the header, two have the places, six the
/// records, and each tree has six and one above them.
const TOLD: [Info; 2] = [
    Info {
        format: 1,
        terms: 1012,
        triples: 2000,
        longest: 50,
        blocks: 30,
    },
    Info {
        format: 2,
        terms: 1012,
        triples: 2000,
        longest: 50,
        blocks: 30,
    },
];

/// The store file of the triples of 1,000 numbers in format 1 or 2.
fn trial_image(alloc: Global, format: u8) -> Result<Vec<u8>, Fail> {
    let triples = trial_triples(alloc, 1000)?;
    let few = triples.len() <= 4194303 && have_short_terms(triples.as_slice());
    if few && (format == 1 || format == 2) {
        Ok(image_of(alloc, triples.as_slice(), format)?)
    } else {
        Err("too large")?
    }
}

/// What is told of a store file, or nothing where it is none.
fn told(alloc: Global, bytes: &[u8]) -> Option<Info> {
    match Store::open(alloc, MemBlocks::new(bytes, Vec::new(alloc))) {
        Ok(store) => Some(store.info()),
        Err(_) => None,
    }
}

#[test]
fn a_trial_is_told_of(rt: HostRuntime) -> Result<(), Fail> {
    for &wanted in TOLD.as_slice() {
        let image = trial_image(rt.alloc(), wanted.format)?;
        assert!(rt; told(rt.alloc(), &image) == Some(wanted));
    }
    Ok(())
}
