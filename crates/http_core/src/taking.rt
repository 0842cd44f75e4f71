// Bytes of a connection: a head, and as many bytes as a body has.
ghost use Rattle.std.specs.Prelude.{◌≡◌, ◌++◌, ◌<◌, ◌≤◌, ℕ, List, [], Some, None, true, false, Ok, Err, IfOk, IfSome, length};
ghost use Rattle.httparse.specs.Grammar.{RequestHead, ReadsRequest, HasNoRequest};
ghost use Rattle.httparse.specs.Spans.{RequestOverflows};
ghost use Rattle.sage_outside.specs.Causes.{Rose};
ghost use Rattle.http_core.specs.Heads.{Gave, HasHead, HasNoHead, field_limit};

use httparse::Status;
use httparse::spans::{EMPTY_HEADER_SPAN, parse_request};
use sage_outside::Conn;
use std::alloc::Global;

/// The most bytes of a head (RFC 9112, 2.1).
pub const HEAD_LIMIT: usize = 16384;

/// The most fields of a head.
pub const FIELD_LIMIT: usize = 64;

/// How many bytes a connection is asked for at once.
const PIECE: usize = 4096;

/// Why no more was taken.
#[derive(Clone, Copy, Debug, PartialEq, Eq)]
pub enum TakeFault {
    /// A call of the connection failed, and was counted there.
    Conn,
    /// The allocator had no room.
    Memory,
}

/// Takes once, at most so many bytes, behind those that are there. 0 comes at the end alone.
fn take_piece<C: Conn>(conn: &mut C, buf: &mut Vec<u8>, most: usize) -> Result<usize, TakeFault>
    requires { 0 < most }
    ensures gave { IfOk result (λ count. (piece : List ℕ) × (length piece ≡ count)
        × (buf.new.items ≡ buf.old.items ++ piece) × Gave (C.coming conn.old) piece (C.coming conn.new)) }
    ensures most { IfOk result (λ count. count ≤ most) }
    ensures end { result ≡ Ok 0 → (coming : List ℕ) → C.coming conn.old ≡ Some coming → coming ≡ [] }
    ensures ended { result ≡ Ok 0 → (coming : List ℕ) → C.coming conn.new ≡ Some coming → coming ≡ [] }
    ensures later { C.faults conn.old ≤ C.faults conn.new }
    ensures conn { result ≡ Err TakeFault.Conn → Rose (C.faults conn.old) (C.faults conn.new) }
    ensures wrote { C.wrote conn.new ≡ C.wrote conn.old }
{
    let mut piece = [0; PIECE];
    let room = if most < PIECE { most } else { PIECE };
    match conn.take(&mut piece[..room]) {
        Ok(count) => match buf.extend_from_slice(&piece[..count]) {
            Ok(()) => Ok(count),
            Err(_) => Err(TakeFault::Memory),
        },
        Err(_) => Err(TakeFault::Conn),
    }
}

/// How far a head has come.
#[derive(Clone, Copy, Debug, PartialEq, Eq)]
enum Progress {
    Whole,
    Part,
    Never,
}

/// Whether the bytes begin with a head of few enough fields, or may come to.
fn head_progress(buf: &[u8]) -> Progress
    ensures whole { result ≡ Progress.Whole → (head : RequestHead) × (rest : List ℕ)
        × ReadsRequest buf.now head rest × (length head.fields ≤ field_limit) }
    ensures part { result ≡ Progress.Part → HasNoRequest buf.now }
    ensures never { result ≡ Progress.Never → RequestOverflows field_limit buf.now }
{
    let mut headers = [EMPTY_HEADER_SPAN; FIELD_LIMIT];
    match parse_request(buf, &mut headers) {
        Ok(Status::Complete(_)) => Progress::Whole,
        Ok(Status::Partial) => Progress::Part,
        Err(_) => Progress::Never,
    }
}

/// Takes until the bytes begin with a head, whatever it asks for. None comes where the bytes to
/// come begin with no head within the limits. What was taken may go past the head.
pub fn take_head<C: Conn>(alloc: Global, conn: &mut C) -> Result<Option<Vec<u8>>, TakeFault>
    ensures some { IfOk result (λ found. IfSome found (λ buf. HasHead buf.items
        × Gave (C.coming conn.old) buf.items (C.coming conn.new))) }
    ensures none { result ≡ Ok None → (coming : List ℕ) → C.coming conn.old ≡ Some coming → HasNoHead coming }
    ensures later { C.faults conn.old ≤ C.faults conn.new }
    ensures conn { result ≡ Err TakeFault.Conn → Rose (C.faults conn.old) (C.faults conn.new) }
    ensures wrote { C.wrote conn.new ≡ C.wrote conn.old }
{
    let mut buf = Vec::new(alloc);
    'pieces: loop {
        match head_progress(&buf) {
            Progress::Whole => return Ok(Some(buf)),
            Progress::Never => return Ok(None),
            Progress::Part => {}
        }
        if buf.len() >= HEAD_LIMIT {
            return Ok(None);
        }
        let room = HEAD_LIMIT - buf.len();
        if take_piece(conn, &mut buf, room)? == 0 {
            return Ok(None);
        }
    }
}

/// Takes until there are so many bytes. False comes where the connection ends before.
pub fn take_body<C: Conn>(conn: &mut C, buf: &mut Vec<u8>, whole: usize) -> Result<bool, TakeFault>
    ensures gave { IfOk result (λ _. (piece : List ℕ) × (buf.new.items ≡ buf.old.items ++ piece)
        × Gave (C.coming conn.old) piece (C.coming conn.new)) }
    ensures whole { result ≡ Ok true → whole ≤ length buf.new.items }
    ensures end { result ≡ Ok false → (length buf.new.items < whole)
        × ((coming : List ℕ) → C.coming conn.new ≡ Some coming → coming ≡ []) }
    ensures later { C.faults conn.old ≤ C.faults conn.new }
    ensures conn { result ≡ Err TakeFault.Conn → Rose (C.faults conn.old) (C.faults conn.new) }
    ensures wrote { C.wrote conn.new ≡ C.wrote conn.old }
{
    'pieces: while buf.len() < whole {
        let room = whole - buf.len();
        if take_piece(conn, buf, room)? == 0 {
            return Ok(false);
        }
    }
    Ok(true)
}
