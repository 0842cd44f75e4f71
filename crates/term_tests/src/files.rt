//! The adapters over the files of the system and over writers.

use crate::blocks::byte_at;
use sage_outside::{Failed, FileShelf, Shelf, ShelfFault, Sink, WriteSink};
use std::fs;
use std::rt::Files;
use std::test::Fail;

/// Places, and what is read from there into room for eight bytes.
const READS: [(u64, &[u8]); 4] = [(1, b"bcde"), (0, b"abcde"), (5, b""), (3, b"de")];

/// Whether a file has these bytes from that place on.
fn has_bytes<R: Files + Drop>(shelf: &mut FileShelf<R>, name: &str, at: u64, bytes: &[u8]) -> bool {
    let mut buf = [0; 8];
    match shelf.read_at(name, at, &mut buf) {
        Ok(count) => buf.get(..count) == Some(bytes),
        Err(_) => false,
    }
}

#[test]
fn a_file_is_written_and_read(rt: HostRuntime) -> Result<(), Fail> {
    let name = "term_tests_scratch";
    let mut shelf = FileShelf::new(rt.alloc(), &rt);
    let written = (
        shelf.start(name),
        shelf.append(name, b"abc"),
        shelf.append(name, b"de"),
    );
    assert_eq!(rt; written, (Ok(()), Ok(()), Ok(())));
    for &(at, bytes) in READS.as_slice() {
        assert!(rt; has_bytes(&mut shelf, name, at, bytes), "{at}");
    }
    let found = (shelf.size(name), shelf.size("term_tests_scratch/below"));
    fs::remove_file(&rt, name)?;
    assert_eq!(rt; found, (Ok(5), Err(ShelfFault::Failed)));
    Ok(())
}

#[test]
fn a_missing_file_and_a_failed_call_are_told_apart(rt: HostRuntime) {
    let mut shelf = FileShelf::new(rt.alloc(), &rt);
    let found = (
        shelf.size("term_tests_missing"),
        shelf.append("term_tests_missing", b"a"),
        shelf.open("term_tests_missing").err(),
        shelf.start("term_tests_missing/file"),
    );
    let missing = ShelfFault::Missing;
    let wanted = (
        Err(missing),
        Err(missing),
        Some(missing),
        Err(ShelfFault::Failed),
    );
    assert_eq!(rt; found, wanted);
}

#[test]
fn a_file_that_shrank_reads_as_zeros(rt: HostRuntime) -> Result<(), Fail> {
    let name = "term_tests_blocks";
    let mut shelf = FileShelf::new(rt.alloc(), &rt);
    let written = (
        shelf.start(name),
        shelf.append(name, &[7; 4096]),
        shelf.append(name, b"end"),
    );
    assert_eq!(rt; written, (Ok(()), Ok(()), Ok(())));
    let mut file = shelf.open(name)?;
    let full = (
        byte_at(&mut file, 1, 2),
        byte_at(&mut file, 1, 3),
        byte_at(&mut file, 0, 4095),
    );
    let emptied = shelf.start(name);
    let shrunk = byte_at(&mut file, 1, 0);
    shelf.close(file);
    fs::remove_file(&rt, name)?;
    let wanted = ((Some(100), Some(0), Some(7)), Ok(()), Some(0));
    assert_eq!(rt; (full, emptied, shrunk), wanted);
    Ok(())
}

#[test]
fn a_writer_gets_the_pieces(rt: HostRuntime) {
    let mut bytes = Vec::new(rt.alloc());
    let mut sink = WriteSink::new(&mut bytes);
    let written = (sink.put(b"one "), sink.put(b"two"));
    assert_eq!(rt;
        (written, bytes.as_slice()),
        ((Ok(()), Ok(())), b"one two".as_slice())
    );
}

#[test]
fn a_full_writer_is_a_fault(rt: HostRuntime) {
    let mut room = [0u8; 2];
    let mut sink = WriteSink::new(room.as_mut_slice());
    assert_eq!(rt; sink.put(b"three"), Err(Failed));
}
