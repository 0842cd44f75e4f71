//! Blocks of bytes in memory, and replies of servers.

use sage_outside::{
    Blocks, Door, Failed, Link, LinkFault, MemBlocks, NeverBlocks, NeverSink, NoDoor, NoLink,
    ReadFault, Sink, StoreFault, tells_server_error, tells_unavailable,
};
use std::alloc::{AllocError, Global};
use std::test::Fail;

/// The sizes of files in bytes, and how many blocks of 4,096 bytes they begin.
const SIZES: [(usize, u32); 5] = [(0, 0), (1, 1), (4096, 1), (4097, 2), (8192, 2)];

/// How many blocks a file of that size begins.
fn begun(alloc: Global, size: usize) -> Result<u32, AllocError> {
    let bytes = vec![in alloc; 7u8; size]?;
    Ok(NeverBlocks::new(&bytes).blocks())
}

#[test]
fn files_begin_whole_blocks(rt: HostRuntime) -> Result<(), Fail> {
    for &(size, count) in SIZES.as_slice() {
        assert_eq!(rt; begun(rt.alloc(), size)?, count);
    }
    Ok(())
}

/// A byte of a block; None where there is no such block or byte, or the read fails.
pub fn byte_at<B: Blocks>(blocks: &mut B, n: u32, place: usize) -> Option<u8> {
    if n >= blocks.blocks() {
        return None;
    }
    let mut block = [9; 4096];
    match blocks.read_block(n, &mut block) {
        Ok(()) => block.get(place).copied(),
        Err(_) => None,
    }
}

/// A block of ones, and two bytes of the next.
fn longer_than_a_block(alloc: Global) -> Result<Vec<u8>, AllocError> {
    let mut bytes = vec![in alloc; 1u8; 4096]?;
    bytes.extend_from_slice(&[2, 3])?;
    Ok(bytes)
}

/// Numbers of blocks and places in them, and the byte there.
const BYTES: [(u32, usize, Option<u8>); 7] = [
    (1, 0, Some(2)),
    (1, 1, Some(3)),
    (1, 2, Some(0)),
    (1, 3, Some(0)),
    (1, 4095, Some(0)),
    (0, 4095, Some(1)),
    (2, 0, None),
];

#[test]
fn the_last_block_ends_in_zeros(rt: HostRuntime) -> Result<(), Fail> {
    let bytes = longer_than_a_block(rt.alloc())?;
    let mut blocks = MemBlocks::new(&bytes, Vec::new(rt.alloc()));
    let mut never = NeverBlocks::new(&bytes);
    for &(n, place, byte) in BYTES.as_slice() {
        let found = (
            byte_at(&mut blocks, n, place),
            byte_at(&mut never, n, place),
        );
        assert_eq!(rt; found, (byte, byte), "{n} {place}");
    }
    Ok(())
}

/// What the reads answer where the second is to fail, and how many were counted then.
const READS: [(Option<u8>, u64); 3] = [(Some(97), 1), (None, 2), (Some(97), 3)];

#[test]
fn listed_reads_fail(rt: HostRuntime) -> Result<(), Fail> {
    let mut blocks = MemBlocks::new(b"abc", vec![in rt.alloc(); 1]?);
    for &(byte, reads) in READS.as_slice() {
        let found = byte_at(&mut blocks, 0, 0);
        assert_eq!(rt; (found, blocks.reads(), blocks.cramped()), (byte, reads, 0));
    }
    Ok(())
}

#[test]
fn a_failed_read_is_a_fault_of_the_blocks(rt: HostRuntime) {
    let found = (ReadFault::from(Failed), StoreFault::from(Failed));
    assert_eq!(rt; found, (ReadFault::Blocks, StoreFault::Blocks));
}

/// Replies, and whether they are 500 and 503 replies.
const REPLIES: [(&[u8], bool, bool); 6] = [
    (b"HTTP/1.1 500 Internal Server Error\r\n\r\n", true, false),
    (b"HTTP/1.0 500\r\n\r\n", true, false),
    (b"HTTP/1.1 503 Service Unavailable\r\n\r\n", false, true),
    (b"HTTP/1.0 503 \r\n\r\n", false, true),
    (b"HTTP/1.1 200 OK\r\n\r\nHTTP/1.1 500", false, false),
    (b"HTTP/1.1 50", false, false),
];

#[test]
fn tells_replies_apart(rt: HostRuntime) {
    for &(reply, error, unavailable) in REPLIES.as_slice() {
        let found = (tells_server_error(reply), tells_unavailable(reply));
        assert_eq!(rt; found, (error, unavailable));
    }
}

#[test]
fn there_is_nothing(rt: HostRuntime) {
    let mut link = NoLink::new();
    let reply = link.exchange(rt.alloc(), "localhost", 80, b"GET / HTTP/1.1");
    assert_eq!(rt; reply.err(), Some(LinkFault::Failed));
    let mut door = NoDoor::new();
    let found = (door.listen("localhost", 80), door.next_conn().is_err());
    assert_eq!(rt; found, (Err(Failed), true));
    assert_eq!(rt; NeverSink::new().put(b"lost"), Ok(()));
}
