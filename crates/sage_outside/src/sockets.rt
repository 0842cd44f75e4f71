// Adapters over std's listener and its streams (TCP). They tell nothing of content.
ghost use Rattle.std.specs.Prelude.{◌≡◌, ◌<◌, ◌≤◌, None, IfOk, length};
ghost use Rattle.std.specs.Io.{ReadsAtMost};
ghost use Rattle.sage_outside.specs.Causes.{Rose};

use crate::{Conn, Door, Failed};
use std::alloc::Global;
use std::io;
use std::io::{ErrorKind, Read, Write};
use std::net::{Net, OpenListener, OpenStream, Shutdown, TcpListener};
use std::time::{Clock, Duration, Instant};

/// The room for bytes that were read, which are asked for in pieces of that length.
const BUFFER: usize = 65536;

/// How many seconds a read or a write may wait.
const WAIT_SECONDS: u64 = 10;

/// How many seconds a connection may last.
const AGE_SECONDS: u64 = 60;

/// A stream of TCP. A read or a write that waits longer than 10 seconds fails, and so does each
/// call once the connection is older than 60 seconds, so that a slow peer costs the others no
/// more than that.
#[derive(Drop)]
pub struct StreamConn<R: Net> {
    rt: R,
    stream: R::Stream,
    began: Instant,
    buffer: Vec<u8>,
    start: usize,
    end: usize,
    faults: u64,
}

impl<R: Net + Clock + Drop> StreamConn<R> {
    /// A connection that begins now. It takes memory for its buffer.
    fn new(alloc: Global, rt: R, stream: R::Stream) -> io::Result<StreamConn<R>>
        ensures fresh { IfOk result (λ conn. conn.faults ≡ 0) }
    {
        let began = Instant::now(&rt)?;
        let mut buffer = Vec::new(alloc);
        buffer.resize(BUFFER, 0)?;
        Ok(StreamConn {
            rt,
            stream,
            began,
            buffer,
            start: 0,
            end: 0,
            faults: 0,
        })
    }

    /// How long the next read or write may wait, or the error that the connection is too old.
    fn patience(&self) -> io::Result<Duration> {
        let age = self.began.elapsed(&self.rt)?;
        match Duration::from_secs(AGE_SECONDS).checked_sub(age) {
            Some(left) => Ok(left.min(Duration::from_secs(WAIT_SECONDS))),
            None => Err(io::Error::from(ErrorKind::TimedOut)),
        }
    }

    /// Reads into the empty buffer.
    fn refill(&mut self) -> io::Result<()>
        ensures same { self.new.faults ≡ self.old.faults }
    {
        let patience = self.patience()?;
        self.stream.set_read_timeout(Some(patience))?;
        let count = self.stream.read(&mut self.buffer)?;
        self.start = 0;
        self.end = count;
        Ok(())
    }

    /// The bytes of the buffer that were not handed on.
    fn waiting(&self) -> &[u8] {
        match self.buffer.get(self.start..self.end) {
            Some(bytes) => bytes,
            None => &[],
        }
    }

    /// Takes bytes out of the buffer, which is filled first where it is empty.
    fn read_some(&mut self, buf: &mut [u8]) -> io::Result<usize>
        ensures bound { ReadsAtMost result buf.new }
        ensures same { self.new.faults ≡ self.old.faults }
    {
        if self.start >= self.end {
            self.refill()?;
        }
        let count = copy_front(buf, self.waiting());
        self.start = self.start.saturating_add(count);
        Ok(count)
    }

    /// Writes the whole piece.
    fn write_whole(&mut self, piece: &[u8]) -> io::Result<()>
        ensures same { self.new.faults ≡ self.old.faults }
    {
        let mut rest = piece;
        'parts: while !rest.is_empty() {
            let count = self.write_some(rest)?;
            rest = &rest[count..];
        }
        Ok(())
    }

    /// Writes a front of the bytes, and answers how many; not none.
    fn write_some(&mut self, bytes: &[u8]) -> io::Result<usize>
        ensures some { IfOk result (λ count. (0 < count) × (count ≤ length bytes.now)) }
        ensures same { self.new.faults ≡ self.old.faults }
    {
        let patience = self.patience()?;
        self.stream.set_write_timeout(Some(patience))?;
        match self.stream.write(bytes)? {
            0 => Err(io::Error::from(ErrorKind::WriteZero)),
            count => Ok(count),
        }
    }

    fn fail(&mut self)
        ensures later { self.old.faults ≤ self.new.faults }
        ensures rose { Rose self.old.faults self.new.faults }
    {
        self.faults = self.faults.saturating_add(1);
    }
}

/// Copies a front of the bytes to the front of the buffer, and answers how many.
fn copy_front(buf: &mut [u8], bytes: &[u8]) -> usize
    ensures { result ≤ length buf.new }
{
    let count = bytes.len().min(buf.len());
    buf[..count].copy_from_slice(&bytes[..count]);
    count
}

impl<R: Net + Clock + Drop> Conn for StreamConn<R> {
    ghost coming = { λ _. None };

    ghost taken = { λ _. None };

    ghost wrote = { λ _. None };

    ghost faults = { λ conn. conn.faults };

    fn take(&mut self, buf: &mut [u8]) -> Result<usize, Failed> {
        match self.read_some(buf) {
            Ok(count) => Ok(count),
            Err(_) => {
                self.fail();
                Err(Failed)
            }
        }
    }

    fn put(&mut self, piece: &[u8]) -> Result<(), Failed> {
        match self.write_whole(piece) {
            Ok(()) => Ok(()),
            Err(_) => {
                self.fail();
                Err(Failed)
            }
        }
    }

    fn end(&mut self) {
        let _ = self.stream.shutdown(Shutdown::Write);
    }
}

/// A listener of TCP. Each connection takes memory for its buffer; want of it is a fault.
#[derive(Drop)]
pub struct ListenerDoor<R: Net> {
    alloc: Global,
    rt: R,
    listener: Option<R::Listener>,
    out: u64,
    faults: u64,
}

impl<R: Net + Clock + Copy> ListenerDoor<R> {
    /// A door over this runtime's network and clock that does not listen yet.
    pub fn new(alloc: Global, rt: R) -> ListenerDoor<R>
        ensures out { ⟦<ListenerDoor<R> as Door>⟧.out result ≡ 0 }
        ensures faults { ⟦<ListenerDoor<R> as Door>⟧.faults result ≡ 0 }
    {
        ListenerDoor {
            alloc,
            rt,
            listener: None,
            out: 0,
            faults: 0,
        }
    }

    /// The port at which it listens, where it does.
    pub fn port(&self) -> Option<u16> {
        let listener = self.listener.as_ref()?;
        match listener.local_addr() {
            Ok(address) => Some(address.port()),
            Err(_) => None,
        }
    }

    fn accept(&self) -> io::Result<StreamConn<R>>
        ensures fresh { IfOk result (λ conn. conn.faults ≡ 0) }
    {
        match &self.listener {
            Some(listener) => {
                let (stream, _) = listener.accept()?;
                StreamConn::new(self.alloc, self.rt, stream)
            }
            None => Err(io::Error::from(ErrorKind::NotConnected)),
        }
    }

    fn fail(&mut self)
        ensures later { self.old.faults ≤ self.new.faults }
        ensures rose { Rose self.old.faults self.new.faults }
        ensures same { self.new.out ≡ self.old.out }
    {
        self.faults = self.faults.saturating_add(1);
    }
}

impl<R: Net + Clock + Copy> Door for ListenerDoor<R> {
    type C = StreamConn<R>;

    ghost out = { λ door. door.out };

    ghost coming = { λ _. None };

    ghost served = { λ _. None };

    ghost faults = { λ door. door.faults };

    fn listen(&mut self, host: &str, port: u16) -> Result<(), Failed> {
        match TcpListener::bind(&self.rt, (host, port)) {
            Ok(listener) => {
                self.listener = Some(listener);
                Ok(())
            }
            Err(_) => {
                self.fail();
                Err(Failed)
            }
        }
    }

    fn next_conn(&mut self) -> Result<StreamConn<R>, Failed> {
        match self.accept() {
            Ok(conn) => {
                self.out = self.out.saturating_add(1);
                Ok(conn)
            }
            Err(_) => {
                self.fail();
                Err(Failed)
            }
        }
    }

    fn give_back(&mut self, conn: StreamConn<R>) {
        drop(conn);
        self.out = self.out.saturating_sub(1);
    }
}
