//! Connections and doors in memory, and the adapters over the listener and the streams of the system.

ghost use Rattle.std.specs.Prelude.{IfOk};
ghost use Rattle.sage_outside.specs.Peers.{IsNewConn};

use sage_outside::{Conn, Door, Failed, LinkFault, ListenerDoor, MemConn, MemDoor, StreamLink};
use std::alloc::{AllocError, Global};
use std::io;
use std::io::{Read, Write};
use std::net::{Net, TcpStream};
use std::test::Fail;
use std::time::Clock;

/// A connection with these bytes to come, whose calls of these numbers are to fail.
fn conn_of(alloc: Global, bytes: &[u8], piece: usize, fails: &[u64]) -> Result<MemConn, AllocError>
    ensures { IfOk result (λ conn. IsNewConn conn) }
{
    let bytes = Vec::from_slice(alloc, bytes)?;
    let fails = Vec::from_slice(alloc, fails)?;
    Ok(MemConn::new(alloc, bytes, piece.max(1), fails))
}

/// Three takes into room for four bytes: the length of a piece, the calls that fail, and what the
/// takes answer of `abcdef`.
const TAKES: [(usize, &[u64], [Result<usize, Failed>; 3]); 5] = [
    (1, &[], [Ok(1), Ok(1), Ok(1)]),
    (3, &[], [Ok(3), Ok(3), Ok(0)]),
    (9, &[], [Ok(4), Ok(2), Ok(0)]),
    (9, &[1], [Ok(4), Err(Failed), Ok(2)]),
    (2, &[0, 2], [Err(Failed), Ok(2), Err(Failed)]),
];

/// What three takes of a connection answer.
fn three_takes(conn: &mut MemConn) -> [Result<usize, Failed>; 3] {
    let mut buf = [0; 4];
    [
        conn.take(&mut buf),
        conn.take(&mut buf),
        conn.take(&mut buf),
    ]
}

#[test]
fn a_connection_gives_its_bytes_in_pieces(rt: HostRuntime) -> Result<(), Fail> {
    for &(piece, fails, wanted) in TAKES.as_slice() {
        let mut conn = conn_of(rt.alloc(), b"abcdef", piece, fails)?;
        assert_eq!(rt; three_takes(&mut conn), wanted, "{piece}");
    }
    Ok(())
}

/// Takes up to eight bytes of the connection and writes them back after `got `.
fn answer<C: Conn>(conn: &mut C) -> Result<usize, Failed> {
    let mut buf = [0; 8];
    let count = conn.take(&mut buf)?;
    conn.put(b"got ")?;
    conn.put(&buf[..count])?;
    conn.end();
    Ok(count)
}

/// Answers the next connection of the door and gives it back.
fn serve<D: Door>(door: &mut D) -> Result<usize, Failed> {
    let mut conn = door.next_conn()?;
    let answered = answer(&mut conn);
    door.give_back(conn);
    answered
}

/// A door at which `one` and `two` come, and whose calls of these numbers fail.
fn door_of_two(alloc: Global, fails: &[u64]) -> Result<MemDoor, AllocError> {
    let one = conn_of(alloc, b"one", 8, &[])?;
    let mut conns = Vec::new(alloc);
    conns.push(one)?;
    let two = conn_of(alloc, b"two", 2, &[])?;
    conns.push(two)?;
    let fails = Vec::from_slice(alloc, fails)?;
    Ok(MemDoor::new(alloc, conns, fails))
}

/// What is written back to each, of which the second gives two bytes at once.
const ANSWERS: [&[u8]; 2] = [b"got one", b"got tw"];

#[test]
fn a_door_hands_out_its_connections(rt: HostRuntime) -> Result<(), Fail> {
    let mut door = door_of_two(rt.alloc(), &[2])?;
    let answered = (
        door.listen("localhost", 80),
        serve(&mut door),
        serve(&mut door),
        serve(&mut door),
        serve(&mut door),
    );
    let wanted = (Ok(()), Ok(3), Err(Failed), Ok(2), Err(Failed));
    assert_eq!(rt; answered, wanted);
    for (place, &bytes) in ANSWERS.iter().enumerate() {
        let served = door.served().get(place);
        assert_eq!(rt; served.map(|conn| conn.written()), Some(bytes), "{place}");
    }
    Ok(())
}

/// What a client reads that writes `ping` to the door and is answered there.
fn ping<R: Net + Clock + Copy>(
    alloc: Global,
    rt: R,
    door: &mut ListenerDoor<R>,
    port: u16,
) -> io::Result<Vec<u8>> {
    let mut stream = TcpStream::connect(&rt, ("127.0.0.1", port))?;
    stream.write_all(b"ping")?;
    let mut read = Vec::new(alloc);
    if serve(door).is_ok() {
        stream.read_to_end(&mut read)?;
    }
    Ok(read)
}

#[test]
fn a_listener_hands_out_streams(rt: HostRuntime) -> Result<(), Fail> {
    let mut door = ListenerDoor::new(rt.alloc(), &rt);
    let refused = door.next_conn().err();
    let listening = door.listen("127.0.0.1", 0);
    let port = door.port().unwrap_or_default();
    let read = ping(rt.alloc(), &rt, &mut door, port)?;
    let found = (refused, listening, read.as_slice());
    assert_eq!(rt; found, (Some(Failed), Ok(()), b"got ping".as_slice()));
    Ok(())
}

/// The reply that a link gets from the door to `ping`.
fn exchanged<R: Net + Clock + Copy>(
    alloc: Global,
    rt: R,
    door: &mut ListenerDoor<R>,
    port: u16,
) -> Result<Vec<u8>, LinkFault> {
    let mut link = StreamLink::new(rt);
    link.send("127.0.0.1", port, b"ping")?;
    match serve(door) {
        Ok(_) => link.receive(alloc),
        Err(_) => Err(LinkFault::Failed),
    }
}

#[test]
fn a_link_sends_and_receives(rt: HostRuntime) -> Result<(), Fail> {
    let mut door = ListenerDoor::new(rt.alloc(), &rt);
    let listening = door.listen("127.0.0.1", 0);
    let port = door.port().unwrap_or_default();
    let reply = exchanged(rt.alloc(), &rt, &mut door, port)?;
    let unsent = StreamLink::new(&rt).receive(rt.alloc()).err();
    let found = (listening, reply.as_slice(), unsent);
    let wanted = (Ok(()), b"got ping".as_slice(), Some(LinkFault::Failed));
    assert_eq!(rt; found, wanted);
    Ok(())
}
