// The adapter over std's streams (TCP) that exchanges requests and replies. It tells nothing of content.
ghost use Rattle.std.specs.Prelude.{◌≡◌, ◌≤◌, None};
ghost use Rattle.sage_outside.specs.Causes.{Rose};
ghost use Rattle.sage_outside.specs.Link.{HasLinkCause};

use crate::{Link, LinkFault};
use std::alloc::Global;
use std::io;
use std::io::{ErrorKind, Read, Write};
use std::net::{Net, OpenStream, SocketAddr, TcpStream, ToSocketAddrs};
use std::time::Duration;

/// How many seconds a step of connecting, a read or a write may wait.
const WAIT_SECONDS: u64 = 30;

/// The most bytes of a reply.
const MOST: u64 = 1 << 30;

/// Exchanges over TCP, each over a stream of its own, whose end is the end of the reply. No step of
/// one waits longer than 30 seconds.
#[derive(Drop)]
pub struct StreamLink<R: Net> {
    rt: R,
    stream: Option<R::Stream>,
    faults: u64,
}

impl<R: Net + Drop> StreamLink<R> {
    /// A link over this runtime's network that has not been used.
    pub fn new(rt: R) -> StreamLink<R>
        ensures { ⟦<StreamLink<R> as Link>⟧.faults result ≡ 0 }
    {
        StreamLink {
            rt,
            stream: None,
            faults: 0,
        }
    }

    fn fail(&mut self)
        ensures later { self.old.faults ≤ self.new.faults }
        ensures rose { Rose self.old.faults self.new.faults }
    {
        self.faults = self.faults.saturating_add(1);
    }

    /// The fault of a call that ended with this error, which it counts.
    fn refuse(&mut self, error: &io::Error) -> LinkFault
        ensures later { self.old.faults ≤ self.new.faults }
        ensures rose { Rose self.old.faults self.new.faults }
    {
        self.fail();
        match error.kind() {
            ErrorKind::OutOfMemory => LinkFault::Memory,
            _ => LinkFault::Failed,
        }
    }

    /// Connects to that host and port and sends the request, whose reply `receive` reads. A reply
    /// that was not read is given up.
    pub fn send(&mut self, host: &str, port: u16, request: &[u8]) -> Result<(), LinkFault>
        ensures cause { HasLinkCause (⟦<StreamLink<R> as Link>⟧.faults self.old)
            (⟦<StreamLink<R> as Link>⟧.faults self.new) result }
    {
        self.stream = None;
        match sent(&self.rt, host, port, request) {
            Ok(stream) => {
                self.stream = Some(stream);
                Ok(())
            }
            Err(error) => Err(self.refuse(&error)),
        }
    }

    /// Reads the reply to the request that was sent to its end. `Failed` comes also where none was
    /// sent, or where the reply is longer than 1 GiB.
    pub fn receive(&mut self, alloc: Global) -> Result<Vec<u8>, LinkFault>
        ensures cause { HasLinkCause (⟦<StreamLink<R> as Link>⟧.faults self.old)
            (⟦<StreamLink<R> as Link>⟧.faults self.new) result }
    {
        match self.stream.take() {
            Some(stream) => match read_reply(alloc, stream) {
                Ok(reply) => Ok(reply),
                Err(error) => Err(self.refuse(&error)),
            },
            None => {
                self.fail();
                Err(LinkFault::Failed)
            }
        }
    }
}

/// A stream to the first address of the host that answers.
fn connected<R: Net>(rt: &R, host: &str, port: u16) -> io::Result<R::Stream> {
    let mut last = io::Error::from(ErrorKind::NotFound);
    for address in (host, port).to_socket_addrs(rt)? {
        match TcpStream::connect_timeout(rt, &address, Duration::from_secs(WAIT_SECONDS)) {
            Ok(stream) => return Ok(stream),
            Err(error) => last = error,
        }
    }
    Err(last)
}

/// A stream over which the request was sent.
fn sent<R: Net>(rt: &R, host: &str, port: u16, request: &[u8]) -> io::Result<R::Stream> {
    let mut stream = connected(rt, host, port)?;
    stream.set_read_timeout(Some(Duration::from_secs(WAIT_SECONDS)))?;
    stream.set_write_timeout(Some(Duration::from_secs(WAIT_SECONDS)))?;
    stream.write_all(request)?;
    Ok(stream)
}

/// All bytes up to the end of the stream.
fn read_reply<S: Read + Drop>(alloc: Global, stream: S) -> io::Result<Vec<u8>> {
    let mut reply = Vec::new(alloc);
    let count = stream.take(MOST + 1).read_to_end(&mut reply)?;
    if count as u64 > MOST {
        return Err(io::Error::from(ErrorKind::FileTooLarge));
    }
    Ok(reply)
}

impl<R: Net + Drop> Link for StreamLink<R> {
    ghost may_reply = { λ _ _ _ _. ⊥ };

    ghost holds = { λ _ _ _ _. ⊥ };

    ghost turn = { λ _. None };

    ghost streak = { λ _. None };

    ghost scarce = { λ _. None };

    ghost asked = { λ _. None };

    ghost faults = { λ link. link.faults };

    fn exchange(
        &mut self,
        alloc: Global,
        host: &str,
        port: u16,
        request: &[u8],
    ) -> Result<Vec<u8>, LinkFault> {
        self.send(host, port, request)?;
        self.receive(alloc)
    }
}
