// Requests of a connection.
ghost use Rattle.std.specs.Prelude.{◌≡◌, ◌⊎◌, ◌++◌, ◌+◌, ◌<◌, ◌≤◌, ◌^◌, ℕ, List, Some, Ok, Err, IfOk, IsOk, OnOk, length, codes, slice_range};
ghost use Rattle.httparse.specs.Grammar.{RequestHead, print_request};
ghost use Rattle.sage_outside.specs.Causes.{Rose};
ghost use Rattle.http_core.specs.Heads.{HasHead, BeginsWith};
ghost use Rattle.http_core.specs.PageRequests.{await, verdict_of, interim};
ghost use Rattle.http_core.specs.Views.{IsTaken, UnlessStopped, WritesInterim};

use crate::checks::{Checked, check_head};
use crate::taking::{TakeFault, take_body, take_head};
use sage_outside::Conn;
use std::alloc::Global;
use term_core::{Items, Text};

/// A request for a page.
#[derive(Debug, Drop)]
pub struct HttpRequest {
    /// The whole target of its head.
    pub path: Text,
    /// As many bytes behind its head as the head says.
    pub body: Items<u8>,
}

/// Why no request was taken.
#[derive(Debug, Drop)]
pub enum HttpRefusal {
    /// A check refused it: the status of the reply (RFC 9110, 15), and the name of the refusal.
    Status { code: u16, name: Text },
    /// A call of the connection failed, and was counted there.
    Conn,
    /// The allocator had no room.
    Memory,
}

impl From<TakeFault> for HttpRefusal {
    ghost use Rattle.std.specs.Prelude.{◌≡◌};
    ghost use Rattle.http_core.specs.Views.{refusal_of};

    ghost from_gives = { λ fault refusal. refusal ≡ refusal_of fault };

    fn from(fault: TakeFault) -> Self {
        match fault {
            TakeFault::Conn => HttpRefusal::Conn,
            TakeFault::Memory => HttpRefusal::Memory,
        }
    }
}

fn refused(alloc: Global, code: u16, name: &str) -> HttpRefusal
    ensures { (result ≡ HttpRefusal.Status code name.now) ⊎ (result ≡ HttpRefusal.Memory) }
{
    match Text::from_str(alloc, name) {
        Ok(name) => HttpRefusal::Status { code, name },
        Err(_) => HttpRefusal::Memory,
    }
}

/// The request for a page whose body stands there.
fn page_request(
    alloc: Global,
    buf: &[u8],
    from: usize,
    size: usize,
) -> Result<HttpRequest, HttpRefusal>
    requires { from + size ≤ length buf.now }
    ensures body { IfOk result (λ found. found.body ≡ slice_range buf.now from (from + size)) }
    ensures path { IfOk result (λ found. found.path ≡ codes "/page") }
    ensures err { (result ≡ Err HttpRefusal.Memory) ⊎ IsOk result }
{
    let Ok(path) = Text::from_str(alloc, "/page") else {
        return Err(HttpRefusal::Memory);
    };
    match buf[from..from + size].to_vec(alloc) {
        Ok(body) => Ok(HttpRequest {
            path,
            body: Items::from_vec(body),
        }),
        Err(_) => Err(HttpRefusal::Memory),
    }
}

/// Takes the body, behind what was taken with the head.
fn take_sized<C: Conn>(
    alloc: Global,
    conn: &mut C,
    buf: Vec<u8>,
    from: usize,
    size: usize,
    expects: bool,
) -> Result<HttpRequest, HttpRefusal>
    requires awaits { (head : RequestHead) × (rest : List ℕ) × BeginsWith buf.items head rest
        × (verdict_of head ≡ await size expects) × (from ≡ length (print_request head)) }
    requires small { from + size < 2 ^ 64 }
    ensures taken { (more : List ℕ) → C.coming conn.old ≡ Some more → IsTaken (buf.items ++ more) result }
    ensures later { C.faults conn.old ≤ C.faults conn.new }
    ensures conn { result ≡ Err HttpRefusal.Conn → Rose (C.faults conn.old) (C.faults conn.new) }
    ensures wrote { C.wrote conn.new ≡ C.wrote conn.old }
{
    let mut buf = buf;
    match take_body(conn, &mut buf, from + size) {
        Ok(true) => page_request(alloc, &buf, from, size),
        Ok(false) => Err(refused(alloc, 400, "Head")),
        Err(fault) => Err(HttpRefusal::from(fault)),
    }
}

/// Writes the interim reply, where it is expected (RFC 9110, 15.2.1).
fn put_interim<C: Conn>(conn: &mut C, expects: bool) -> Result<(), TakeFault>
    ensures later { C.faults conn.old ≤ C.faults conn.new }
    ensures conn { result ≡ Err TakeFault.Conn → Rose (C.faults conn.old) (C.faults conn.new) }
    ensures same { C.coming conn.new ≡ C.coming conn.old }
    ensures wrote { (wrote : List ℕ) (size : ℕ) → C.wrote conn.old ≡ Some wrote
        → OnOk result (C.wrote conn.new ≡ Some (wrote ++ interim (await size expects))) }
{
    if !expects {
        return Ok(());
    }
    match conn.put(b"HTTP/1.1 100 Continue\r\n\r\n") {
        Ok(()) => Ok(()),
        Err(_) => Err(TakeFault::Conn),
    }
}

/// Takes what stands behind a head, which is there.
fn take_rest<C: Conn>(alloc: Global, conn: &mut C, buf: Vec<u8>) -> Result<HttpRequest, HttpRefusal>
    requires { HasHead buf.items }
    ensures taken { (more : List ℕ) → C.coming conn.old ≡ Some more → IsTaken (buf.items ++ more) result }
    ensures wrote { (head : RequestHead) (rest wrote : List ℕ) → BeginsWith buf.items head rest
        → C.wrote conn.old ≡ Some wrote
        → UnlessStopped result (C.wrote conn.new ≡ Some (wrote ++ interim (verdict_of head))) }
    ensures later { C.faults conn.old ≤ C.faults conn.new }
    ensures conn { result ≡ Err HttpRefusal.Conn → Rose (C.faults conn.old) (C.faults conn.new) }
{
    match check_head(&buf) {
        (Checked::Awaits { size, expects }, from) => match put_interim(conn, expects) {
            Ok(()) => take_sized(alloc, conn, buf, from, size, expects),
            Err(fault) => Err(HttpRefusal::from(fault)),
        },
        (Checked::Refused { code, name }, _) => Err(refused(alloc, code, name)),
    }
}

/// Takes a request for a page from a connection, by the checks in their order: a head within 16,384
/// bytes and 64 fields (400 `Head`); the target `/page` (404 `Path`); POST (405 `Method`); no coded
/// body and a length (411 `Length`); lengths of digits that are all the same text (400 `Head`); at
/// most 2,097,152 bytes (413 `TooLarge`); and so many bytes behind the head (400 `Head`).
///
/// Before the body is taken the interim reply is written where HTTP/1.1 expects it. `Conn` comes
/// only where the connection counted a fault.
pub fn take_request<C: Conn>(alloc: Global, conn: &mut C) -> Result<HttpRequest, HttpRefusal>
    ensures taken { (coming : List ℕ) → C.coming conn.old ≡ Some coming → IsTaken coming result }
    ensures wrote { WritesInterim (C.coming conn.old) (C.wrote conn.old) (C.wrote conn.new) result }
    ensures later { C.faults conn.old ≤ C.faults conn.new }
    ensures conn { result ≡ Err HttpRefusal.Conn → Rose (C.faults conn.old) (C.faults conn.new) }
{
    match take_head(alloc, conn) {
        Ok(Some(buf)) => take_rest(alloc, conn, buf),
        Ok(None) => Err(refused(alloc, 400, "Head")),
        Err(fault) => Err(HttpRefusal::from(fault)),
    }
}
