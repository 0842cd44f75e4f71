//! Store files: built of documents, and told of.

use crate::running::{Outcome, run_on, run_with_store, shelf_of};
use std::alloc::Global;
use std::test::Fail;

/// What the store file is before a test builds it.
const OLD: &[u8] = b"what was there";

const TWO: &[u8] = b"<http://e/a> <http://e/p> <http://e/b> .\n<http://e/a> <http://e/p> \"x\" .\n";

/// The longest record is that of the string: one byte of kind, two lengths of four bytes, "x" and the
/// 39 bytes of xsd:string. The name is what `sha256sum` makes of `TWO`, whose lines stand in the order
/// of their terms. Of the six blocks one is the header, one has the places, one the records, and each
/// tree has one.
const TWO_LINES: &str =
    "format 2\nterms 4\ntriples 2\nlongest 49\nblocks 6\ndata bdb4eff0abe7b6c557b58abc5a245c322ed644cb8e03e57cc80d91e390f121b4\n";

/// The name is SHA-256 of the empty text (FIPS 180-4, examples).
const NO_LINES: &str =
    "format 2\nterms 0\ntriples 0\nlongest 0\nblocks 2\ndata e3b0c44298fc1c149afbf4c8996fb92427ae41e4649b934ca495991b7852b855\n";

/// Documents, their lines and the length of their store files in bytes.
const BUILT: [(&[u8], &str, usize); 2] = [(b"", NO_LINES, 8192), (TWO, TWO_LINES, 24_576)];

/// Documents with the data of `TWO`: its first line three times, and its lines exchanged. A graph is a
/// set: neither the order of lines counts nor how often one stands.
const EQUAL: [&[u8]; 2] = [
    b"<http://e/a> <http://e/p> <http://e/b> .\n<http://e/a> <http://e/p> <http://e/b> .\n<http://e/a> <http://e/p> <http://e/b> .\n<http://e/a> <http://e/p> \"x\" .\n",
    b"<http://e/a> <http://e/p> \"x\" .\n<http://e/a> <http://e/p> <http://e/b> .\n",
];

/// Builds the store file of a document over an old file.
fn built(alloc: Global, document: &[u8]) -> Result<Outcome, Fail> {
    run_with_store(alloc, document, OLD, "build|d.nt|s.sage")
}

#[test]
fn stores_are_built(rt: HostRuntime) -> Result<(), Fail> {
    for &(document, lines, length) in BUILT.as_slice() {
        let outcome = built(rt.alloc(), document)?;
        assert!(rt;
            outcome.is(0, lines, "") && outcome.store.len() == length,
            "{document:?}"
        );
    }
    Ok(())
}

#[test]
fn equal_data_are_equal_files(rt: HostRuntime) -> Result<(), Fail> {
    let first = built(rt.alloc(), TWO)?;
    for &document in EQUAL.as_slice() {
        let outcome = built(rt.alloc(), document)?;
        assert!(rt;
            outcome.leaves(0, TWO_LINES, "", &first.store),
            "{document:?}"
        );
    }
    Ok(())
}

/// Tells of a file. The calls of the shelf whose numbers are among `fails` fail.
fn told(alloc: Global, store: &[u8], fails: &[u64]) -> Result<Outcome, Fail> {
    let mut shelf = shelf_of(alloc, ("d.nt", b""), ("s.sage", store), fails)?;
    run_on(alloc, &mut shelf, "info|s.sage", &[])
}

#[test]
fn a_built_store_is_told_of(rt: HostRuntime) -> Result<(), Fail> {
    let store = built(rt.alloc(), TWO)?.store;
    let outcome = told(rt.alloc(), &store, &[])?;
    assert!(rt; outcome.leaves(0, TWO_LINES, "", &store));
    Ok(())
}

/// How many bytes of a store file are left, calls of the shelf that fail, and the status with its message.
/// A store that is cut has another number of blocks than its header says. The file is opened, and then its
/// first block is read.
const UNTOLD: [(usize, &[u64], u8, &str); 3] = [
    (20_480, &[], 5, "sage: not a store\n"),
    (24_576, &[0], 3, "sage: file s.sage\n"),
    (24_576, &[1], 3, "sage: file s.sage\n"),
];

#[test]
fn a_store_that_is_not_told_of(rt: HostRuntime) -> Result<(), Fail> {
    let store = built(rt.alloc(), TWO)?.store;
    for &(length, fails, status, message) in UNTOLD.as_slice() {
        let cut = &store[..length.min(store.len())];
        let outcome = told(rt.alloc(), cut, fails)?;
        assert!(rt; outcome.is(status, "", message), "{length}");
    }
    Ok(())
}

/// A store file with the byte at a place raised by one, modulo 256.
fn raised(alloc: Global, store: &[u8], place: usize) -> Result<Vec<u8>, Fail> {
    let mut changed = Vec::from_slice(alloc, store)?;
    if place < changed.len() {
        changed[place] = changed[place].wrapping_add(1);
    }
    Ok(changed)
}

/// The last byte of a block, which is one of its tag, and what comes where it is raised: the first block alone
/// is read.
const RAISED: [(usize, u8, &str, &str); 2] = [
    (4095, 5, "", "sage: store block 0\n"),
    (12_287, 0, TWO_LINES, ""),
];

#[test]
fn a_damaged_block_is_named(rt: HostRuntime) -> Result<(), Fail> {
    let store = built(rt.alloc(), TWO)?.store;
    for &(place, status, out, err) in RAISED.as_slice() {
        let changed = raised(rt.alloc(), &store, place)?;
        let outcome = told(rt.alloc(), &changed, &[])?;
        assert!(rt; outcome.is(status, out, err), "{place}");
    }
    Ok(())
}

/// Words over files that are no stores, and the status with its message.
const NO_STORES: [(&str, u8, &str); 3] = [
    ("info|d.nt", 5, "sage: not a store\n"),
    ("info|s.sage", 5, "sage: not a store\n"),
    ("info|none.sage", 3, "sage: file none.sage\n"),
];

#[test]
fn no_store(rt: HostRuntime) -> Result<(), Fail> {
    for &(words, status, message) in NO_STORES.as_slice() {
        let outcome = run_with_store(rt.alloc(), TWO, b"", words)?;
        assert!(rt; outcome.is(status, "", message), "{words}");
    }
    Ok(())
}

/// Words one after the other over one shelf, and calls of the output that fail. A new store is made beside
/// the old one and told of; then the old one is built, whole before anything is put out.
const IN_TURN: [(&str, &[u64], u8, &str, &str); 6] = [
    ("build|d.nt|new.sage", &[], 0, TWO_LINES, ""),
    ("info|new.sage", &[], 0, TWO_LINES, ""),
    ("info|s.sage", &[], 5, "", "sage: not a store\n"),
    ("build|d.nt|s.sage", &[0], 9, "", "sage: output\n"),
    ("info|s.sage", &[0], 9, "", "sage: output\n"),
    ("info|s.sage", &[], 0, TWO_LINES, ""),
];

#[test]
fn commands_in_turn(rt: HostRuntime) -> Result<(), Fail> {
    let mut shelf = shelf_of(rt.alloc(), ("d.nt", TWO), ("s.sage", OLD), &[])?;
    for &(words, fails, status, out, err) in IN_TURN.as_slice() {
        let outcome = run_on(rt.alloc(), &mut shelf, words, fails)?;
        assert!(rt; outcome.is(status, out, err), "{words}");
    }
    Ok(())
}

#[test]
fn a_new_store_leaves_the_old_one(rt: HostRuntime) -> Result<(), Fail> {
    let outcome = run_with_store(rt.alloc(), TWO, OLD, "build|d.nt|new.sage")?;
    assert!(rt; outcome.leaves(0, TWO_LINES, "", OLD));
    Ok(())
}

/// The call of the shelf that fails, the message, and what is left of the store file. The document's size is
/// asked, it is read, its end is read; the store file is started and grows.
const FAILS: [(u64, &str, &[u8]); 5] = [
    (0, "sage: file d.nt\n", OLD),
    (1, "sage: file d.nt\n", OLD),
    (2, "sage: file d.nt\n", OLD),
    (3, "sage: file s.sage\n", OLD),
    (4, "sage: file s.sage\n", b""),
];

#[test]
fn a_shelf_that_fails(rt: HostRuntime) -> Result<(), Fail> {
    for &(call, message, left) in FAILS.as_slice() {
        let mut shelf = shelf_of(rt.alloc(), ("d.nt", TWO), ("s.sage", OLD), &[call])?;
        let outcome = run_on(rt.alloc(), &mut shelf, "build|d.nt|s.sage", &[])?;
        assert!(rt; outcome.leaves(3, "", message, left), "{call}");
    }
    Ok(())
}

/// Words over a document that is none and an output that fails, and the status with its message. The store
/// file is left as it was.
const UNBUILT: [(&str, u8, &str); 2] = [
    ("build|d.nt|s.sage", 4, "sage: data line 2\n"),
    ("build|none.nt|s.sage", 3, "sage: file none.nt\n"),
];

#[test]
fn a_bad_document(rt: HostRuntime) -> Result<(), Fail> {
    for &(words, status, message) in UNBUILT.as_slice() {
        let mut shelf = shelf_of(
            rt.alloc(),
            ("d.nt", b"# c\nno triple"),
            ("s.sage", OLD),
            &[],
        )?;
        let outcome = run_on(rt.alloc(), &mut shelf, words, &[0])?;
        assert!(rt; outcome.leaves(status, "", message, OLD), "{words}");
    }
    Ok(())
}
