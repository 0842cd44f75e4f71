//! Files and output in memory, whose calls fail by a list.

use crate::blocks::byte_at;
use sage_outside::{MemFile, MemShelf, MemSink, Shelf, ShelfFault, Sink};
use std::alloc::{AllocError, Global};
use std::test::Fail;

/// Adds a file to the list.
fn push_file(
    alloc: Global,
    files: &mut Vec<MemFile>,
    name: &str,
    bytes: &str,
) -> Result<(), AllocError> {
    let name = String::from_str(alloc, name)?;
    let bytes = Vec::from_slice(alloc, bytes.as_bytes())?;
    files.push(MemFile { name, bytes })?;
    Ok(())
}

/// The files of the shelf, of which the first of each name counts.
const FILES: [(&str, &str); 3] = [("a", "first"), ("b", "other"), ("a", "second")];

/// A shelf with these files whose calls of these numbers are to fail.
fn shelf_of(alloc: Global, fails: &[u64]) -> Result<MemShelf, AllocError> {
    let mut files = Vec::new(alloc);
    for &(name, bytes) in FILES.as_slice() {
        push_file(alloc, &mut files, name, bytes)?;
    }
    let fails = Vec::from_slice(alloc, fails)?;
    Ok(MemShelf::new(alloc, files, fails))
}

/// What a call of a shelf answers: a number, or its fault.
type Answer = Result<u64, ShelfFault>;

/// The answer of one call, of which the name tells which it is. `add` adds the text, `read` reads
/// from place 2 into room for 4 bytes, `file` reads the first byte of the opened file.
fn called(shelf: &mut MemShelf, call: &str, name: &str, text: &str) -> Answer {
    match call {
        "size" => shelf.size(name),
        "start" => shelf.start(name).map(|_| 0),
        "add" => shelf.append(name, text.as_bytes()).map(|_| 0),
        "read" => read_two(shelf, name),
        _ => first_byte(shelf, name),
    }
}

/// How many bytes are read from place 2 on.
fn read_two(shelf: &mut MemShelf, name: &str) -> Answer {
    let mut buf = [0; 4];
    match shelf.read_at(name, 2, &mut buf) {
        Ok(count) => Ok(count as u64),
        Err(fault) => Err(fault),
    }
}

/// The first byte of the opened file, which is closed again; 256 where its read fails.
fn first_byte(shelf: &mut MemShelf, name: &str) -> Answer {
    match shelf.open(name) {
        Ok(mut file) => {
            let byte = byte_at(&mut file, 0, 0);
            shelf.close(file);
            Ok(match byte {
                Some(byte) => byte as u64,
                None => 256,
            })
        }
        Err(fault) => Err(fault),
    }
}

/// Calls in their order, with a name and a text, and what each answers.
type Calls = &'static [(&'static str, &'static str, &'static str, Answer)];

/// Which calls are to fail, and calls.
const RUNS: [(&[u64], Calls); 5] = [
    (
        &[],
        &[
            ("size", "a", "", Ok(5)),
            ("read", "a", "", Ok(3)),
            ("file", "a", "", Ok(102)),
            ("file", "b", "", Ok(111)),
            ("size", "c", "", Err(ShelfFault::Missing)),
        ],
    ),
    (
        &[],
        &[
            ("start", "c", "", Ok(0)),
            ("add", "c", "new", Ok(0)),
            ("add", "b", "!", Ok(0)),
            ("size", "c", "", Ok(3)),
            ("size", "b", "", Ok(6)),
        ],
    ),
    (
        &[1, 2],
        &[
            ("start", "b", "", Ok(0)),
            ("size", "b", "", Err(ShelfFault::Failed)),
            ("size", "c", "", Err(ShelfFault::Missing)),
        ],
    ),
    (
        &[2, 3, 4],
        &[
            ("file", "b", "", Ok(111)),
            ("size", "a", "", Ok(5)),
            ("size", "a", "", Err(ShelfFault::Failed)),
            ("file", "a", "", Err(ShelfFault::Failed)),
            ("file", "b", "", Err(ShelfFault::Failed)),
            ("size", "b", "", Ok(5)),
        ],
    ),
    (
        &[2, 4],
        &[
            ("file", "c", "", Err(ShelfFault::Missing)),
            ("file", "a", "", Ok(256)),
            ("size", "a", "", Err(ShelfFault::Failed)),
            ("size", "a", "", Ok(5)),
            ("file", "a", "", Err(ShelfFault::Failed)),
        ],
    ),
];

#[test]
fn shelves_answer_by_their_files_and_lists(rt: HostRuntime) -> Result<(), Fail> {
    for &(fails, calls) in RUNS.as_slice() {
        let mut shelf = shelf_of(rt.alloc(), fails)?;
        for &(call, name, text, answer) in calls {
            assert_eq!(rt;
                called(&mut shelf, call, name, text),
                answer,
                "{call} {name}"
            );
        }
    }
    Ok(())
}

/// Pieces that a sink is given, whether each is kept, and all that is kept then.
const PIECES: [(&[u8], bool, &[u8]); 3] = [
    (b"one ", true, b"one "),
    (b"two ", false, b"one "),
    (b"three", true, b"one three"),
];

#[test]
fn a_sink_keeps_what_it_is_given(rt: HostRuntime) -> Result<(), Fail> {
    let mut sink = MemSink::new(rt.alloc(), vec![in rt.alloc(); 1]?);
    for &(piece, kept, bytes) in PIECES.as_slice() {
        let found = sink.put(piece).is_ok();
        assert_eq!(rt; (found, sink.bytes(), sink.cramped()), (kept, bytes, 0));
    }
    Ok(())
}
