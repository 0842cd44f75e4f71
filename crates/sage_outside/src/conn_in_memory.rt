// Connections in memory.
ghost use Rattle.std.specs.Prelude.{◌≡◌, ◌<◌, ◌≤◌, ◌⊎◌, [], ℕ, Some, length, drop, IfOk, MatchResult};
ghost use Rattle.std.specs.Io.{ReadsAtMost};
ghost use Rattle.sage_outside.specs.Calls.{calls_with, Passes, FailsListed, FailsCramped};
ghost use Rattle.sage_outside.specs.Causes.{HasFaultCause};
ghost use Rattle.sage_outside.specs.Conn.{TakesFrom, Comes, Takes};
ghost use Rattle.sage_outside.specs.Sink.{Puts};

use crate::calls::Calls;
use crate::{Conn, Failed};
use std::alloc::Global;

/// A connection in memory: the bytes that come are given, in pieces of a bounded length. A call of
/// it fails exactly where its number is in a list or, in `put`, it finds no room.
#[derive(Debug, Drop)]
pub struct MemConn {
    calls: Calls,
    incoming: Vec<u8>,
    place: usize,
    piece: usize,
    wrote: Vec<u8>,
}

impl MemConn {
    ghost use Rattle.sage_outside.specs.Peers.{IsNewConn, conn_calls};

    /// A connection from which these bytes come, at most `piece` of them in one call. Its calls
    /// with the numbers of `fails`, counted from 0 over `take` and `put`, are to fail.
    pub fn new(alloc: Global, incoming: Vec<u8>, piece: usize, fails: Vec<u64>) -> MemConn
        requires { 1 ≤ piece }
        ensures coming { ⟦<MemConn as Conn>⟧.coming result ≡ Some incoming.items }
        ensures taken { ⟦<MemConn as Conn>⟧.taken result ≡ Some [] }
        ensures wrote { ⟦<MemConn as Conn>⟧.wrote result ≡ Some [] }
        ensures faults { ⟦<MemConn as Conn>⟧.faults result ≡ 0 }
        ensures calls { conn_calls result ≡ calls_with fails }
        ensures piece { result.piece ≡ piece }
        ensures fresh { IsNewConn result }
    {
        MemConn {
            calls: Calls::new(fails),
            incoming,
            place: 0,
            piece,
            wrote: Vec::new(alloc),
        }
    }

    /// The bytes written.
    pub fn written(&self) -> &[u8]
        ensures { ⟦<MemConn as Conn>⟧.wrote self.now ≡ Some result.now }
    {
        &self.wrote
    }

    /// How many calls found no room. They are among the faults.
    pub fn cramped(&self) -> u64
        ensures told { result ≡ (conn_calls self.now).cramped }
        ensures part { result ≤ ⟦<MemConn as Conn>⟧.faults self.now }
    {
        self.calls.cramped()
    }
}

impl Conn for MemConn {
    ghost use Rattle.std.specs.Prelude.{Some, max};
    ghost use Rattle.sage_outside.specs.Peers.{conn_coming, conn_taken, conn_wrote, conn_calls, conn_faults};

    ghost coming = { λ conn. Some (conn_coming conn) };

    ghost taken = { λ conn. Some (conn_taken conn) };

    ghost wrote = { λ conn. Some (conn_wrote conn) };

    ghost faults = { λ conn. conn_faults conn };

    fn take(&mut self, buf: &mut [u8]) -> Result<usize, Failed>
        requires { 0 < length buf.old }
        ensures cause { HasFaultCause (conn_faults self.old) (conn_faults self.new) result }
        ensures bound { ReadsAtMost result buf.new }
        ensures comes { Comes (Some (conn_coming self.old)) (Some (conn_coming self.new)) buf.new result }
        ensures takes { Takes (Some (conn_taken self.old)) (Some (conn_taken self.new)) buf.new result }
        ensures same { Some (conn_wrote self.new) ≡ Some (conn_wrote self.old) }
        ensures piece { IfOk result (λ count. count ≤ max self.old.piece 1) }
        ensures by_list { MatchResult result (λ _. Passes (conn_calls self.old) (conn_calls self.new))
            (λ _. FailsListed (conn_calls self.old) (conn_calls self.new)) }
    {
        if self.calls.begin() {
            self.calls.refuse();
            return Err(Failed);
        }
        let rest = rest_of(&self.incoming, self.place);
        let count = fill_piece(buf, rest, self.piece.max(1));
        self.place += count;
        Ok(count)
    }

    fn put(&mut self, piece: &[u8]) -> Result<(), Failed>
        ensures cause { HasFaultCause (conn_faults self.old) (conn_faults self.new) result }
        ensures puts { Puts (Some (conn_wrote self.old)) (Some (conn_wrote self.new)) piece.now result }
        ensures same_coming { Some (conn_coming self.new) ≡ Some (conn_coming self.old) }
        ensures same_taken { Some (conn_taken self.new) ≡ Some (conn_taken self.old) }
        ensures by_list { MatchResult result (λ _. Passes (conn_calls self.old) (conn_calls self.new))
            (λ _. FailsListed (conn_calls self.old) (conn_calls self.new)
            ⊎ FailsCramped (conn_calls self.old) (conn_calls self.new)) }
    {
        if self.calls.begin() {
            self.calls.refuse();
            return Err(Failed);
        }
        match self.wrote.extend_from_slice(piece) {
            Ok(()) => Ok(()),
            Err(_) => {
                self.calls.cramp();
                Err(Failed)
            }
        }
    }

    fn end(&mut self) {}
}

/// The bytes from that place on.
fn rest_of(bytes: &[u8], place: usize) -> &[u8]
    ensures { result.now ≡ drop place bytes.now }
{
    match bytes.get(place..) {
        Some(rest) => rest,
        None => &[],
    }
}

/// Fills a front of the buffer with at most so many of the bytes, and answers how many.
fn fill_piece(buf: &mut [u8], bytes: &[u8], most: usize) -> usize
    requires room { 0 < length buf.old }
    requires some { 0 < most }
    ensures filled { TakesFrom bytes.now buf.new result }
    ensures most { result ≤ most }
    ensures bound { result ≤ length buf.new }
{
    let count = bytes.len().min(buf.len()).min(most);
    buf[..count].copy_from_slice(&bytes[..count]);
    count
}
