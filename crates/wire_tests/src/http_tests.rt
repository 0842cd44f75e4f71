//! Requests of connections, replies of bytes, and what is written of both.

ghost use Rattle.std.specs.Prelude.{IfOk};
ghost use Rattle.sage_outside.specs.Peers.{IsNewConn};

use crate::http_cases::{EXPECTED, HEADS, LENGTHS, REPLIES, TARGETS};
use http_core::{
    HttpRefusal, HttpReplyFault, HttpRequest, post, take_reply, take_request, write_head,
};
use sage_outside::MemConn;
use std::alloc::{AllocError, Global};
use std::test::Fail;

/// The bytes of a case, in which `|` stands for CR LF, `~` for LF and `^` for CR.
fn bytes_of(alloc: Global, case: &str) -> Result<Vec<u8>, AllocError> {
    let mut bytes = Vec::new(alloc);
    for byte in case.bytes() {
        match byte {
            b'|' => bytes.extend_from_slice(b"\r\n")?,
            b'~' => bytes.push(b'\n')?,
            b'^' => bytes.push(b'\r')?,
            _ => bytes.push(byte)?,
        }
    }
    Ok(bytes)
}

/// A connection from which these bytes come, at most so many at once, and of which a call fails.
fn conn_of(
    alloc: Global,
    bytes: &[u8],
    piece: usize,
    fails: &[u64],
) -> Result<MemConn, AllocError> {
    let bytes = Vec::from_slice(alloc, bytes)?;
    let fails = Vec::from_slice(alloc, fails)?;
    Ok(MemConn::new(alloc, bytes, piece.max(1), fails))
}

/// What was written before the body was taken: `100 ` for the interim reply.
fn interim(wrote: &[u8]) -> &'static str {
    match wrote {
        b"" => "",
        b"HTTP/1.1 100 Continue\r\n\r\n" => "100 ",
        _ => "other ",
    }
}

/// A request or a refusal as text, behind what was written.
fn shown(
    alloc: Global,
    wrote: &str,
    answer: Result<HttpRequest, HttpRefusal>,
) -> Result<String, AllocError> {
    match answer {
        Ok(request) => {
            let body = str::from_utf8(request.body.as_slice()).unwrap_or("?");
            format!(in alloc; "{wrote}taken {body}")
        }
        Err(HttpRefusal::Status { code, name }) => format!(in alloc;
            "{wrote}{code} {}",
            name.as_str()
        ),
        Err(HttpRefusal::Conn) => format!(in alloc; "{wrote}connection"),
        Err(HttpRefusal::Memory) => format!(in alloc; "{wrote}memory"),
    }
}

/// What bytes come to that are taken in pieces of that length.
fn taken(alloc: Global, bytes: &[u8], piece: usize, fails: &[u64]) -> Result<String, AllocError> {
    let mut conn = conn_of(alloc, bytes, piece, fails)?;
    let answer = take_request(alloc, &mut conn);
    shown(alloc, interim(conn.written()), answer)
}

/// What a case comes to.
fn taken_case(alloc: Global, case: &str, piece: usize) -> Result<String, AllocError> {
    let bytes = bytes_of(alloc, case)?;
    taken(alloc, bytes.as_slice(), piece, &[])
}

/// The first line that comes to something else, with what it comes to; else nothing.
fn first_other(alloc: Global, lines: &str, piece: usize) -> Result<String, AllocError> {
    for line in lines.lines() {
        let (case, wanted) = line.split_once(" => ").unwrap_or((line, ""));
        let wanted = bytes_of(alloc, wanted)?;
        let found = taken_case(alloc, case, piece)?;
        if found.as_bytes() != wanted.as_slice() {
            return format!(in alloc; "{line} but {}", found.as_str());
        }
    }
    String::from_str(alloc, "")
}

#[test]
fn looks_at_targets_and_methods(rt: HostRuntime) -> Result<(), Fail> {
    let other = first_other(rt.alloc(), TARGETS, 100)?;
    assert_eq!(rt; other.as_str(), "");
    Ok(())
}

#[test]
fn looks_at_lengths(rt: HostRuntime) -> Result<(), Fail> {
    let other = first_other(rt.alloc(), LENGTHS, 7)?;
    assert_eq!(rt; other.as_str(), "");
    Ok(())
}

#[test]
fn writes_the_interim_reply_where_it_is_expected(rt: HostRuntime) -> Result<(), Fail> {
    let other = first_other(rt.alloc(), EXPECTED, 1)?;
    assert_eq!(rt; other.as_str(), "");
    Ok(())
}

#[test]
fn tells_heads_from_what_is_none(rt: HostRuntime) -> Result<(), Fail> {
    let other = first_other(rt.alloc(), HEADS, 3)?;
    assert_eq!(rt; other.as_str(), "");
    Ok(())
}

/// A request for a page, whole.
const GOOD: &str = "POST /page HTTP/1.1|Content-Length: 24||{\"query\":\"SELECT * { }\"}";

/// The same, whose client waits for the interim reply.
const WAITING: &str =
    "POST /page HTTP/1.1|Content-Length: 24|Expect: 100-continue||{\"query\":\"SELECT * { }\"}";

#[test]
fn takes_pieces_of_every_length(rt: HostRuntime) -> Result<(), Fail> {
    for piece in 1..=64 {
        let found = (
            taken_case(rt.alloc(), GOOD, piece)?,
            taken_case(rt.alloc(), WAITING, piece)?,
        );
        let wanted = (
            "taken {\"query\":\"SELECT * { }\"}",
            "100 taken {\"query\":\"SELECT * { }\"}",
        );
        assert_eq!(rt; (found.0.as_str(), found.1.as_str()), wanted, "{piece}");
    }
    Ok(())
}

/// How many fronts of these bytes, in pieces of that length, are no head with its body.
fn refused_fronts(alloc: Global, bytes: &[u8], piece: usize) -> Result<usize, AllocError> {
    let mut count = 0usize;
    for end in 0..bytes.len() {
        let found = taken(alloc, &bytes[..end], piece, &[])?;
        if found.as_str() == "400 Head" {
            count = count.saturating_add(1);
        }
    }
    Ok(count)
}

#[test]
fn refuses_what_ends_early(rt: HostRuntime) -> Result<(), Fail> {
    let bytes = bytes_of(rt.alloc(), GOOD)?;
    for piece in [1, 5, 100] {
        let refused = refused_fronts(rt.alloc(), bytes.as_slice(), piece)?;
        assert_eq!(rt; refused, bytes.len(), "{piece}");
    }
    Ok(())
}

fn push_times(out: &mut Vec<u8>, times: usize, piece: &[u8]) -> Result<(), AllocError> {
    for _ in 0..times {
        out.extend_from_slice(piece)?;
    }
    Ok(())
}

/// A request with a body of one byte whose head has so many bytes more and so many fields more.
fn long_head(alloc: Global, bytes: usize, fields: usize) -> Result<Vec<u8>, AllocError> {
    let mut head = Vec::from_slice(alloc, b"POST /page HTTP/1.1\r\nContent-Length: 1\r\n")?;
    push_times(&mut head, fields, b"A:\r\n")?;
    head.extend_from_slice(b"B:")?;
    push_times(&mut head, bytes, b"b")?;
    head.extend_from_slice(b"\r\n\r\nx")?;
    Ok(head)
}

/// How many bytes and fields a head has besides, in what pieces it comes, and what it comes to. Without them it has 46 bytes and
/// two fields.
const LONG_HEADS: [(usize, usize, usize, &str); 11] = [
    (16338, 0, 16384, "taken x"),
    (16338, 0, 4097, "taken x"),
    (16338, 0, 100000, "taken x"),
    (16339, 0, 16384, "400 Head"),
    (16339, 0, 100000, "400 Head"),
    (16339, 0, 1000, "400 Head"),
    (20000, 0, 100000, "400 Head"),
    (0, 62, 100000, "taken x"),
    (0, 63, 100000, "400 Head"),
    (0, 63, 1, "400 Head"),
    (16090, 62, 100000, "taken x"),
];

/// What such a request comes to.
fn taken_long(
    alloc: Global,
    bytes: usize,
    fields: usize,
    piece: usize,
) -> Result<String, AllocError> {
    let request = long_head(alloc, bytes, fields)?;
    taken(alloc, request.as_slice(), piece, &[])
}

#[test]
fn keeps_the_limits_of_heads(rt: HostRuntime) -> Result<(), Fail> {
    for &(bytes, fields, piece, wanted) in LONG_HEADS.as_slice() {
        let found = taken_long(rt.alloc(), bytes, fields, piece)?;
        assert_eq!(rt; found.as_str(), wanted, "{bytes} {fields} {piece}");
    }
    Ok(())
}

/// A request with so many bytes of body, whose length is written.
fn long_request(alloc: Global, length: &str, bytes: usize) -> Result<Vec<u8>, AllocError> {
    let mut request = Vec::from_slice(alloc, b"POST /page HTTP/1.1\r\nContent-Length: ")?;
    request.extend_from_slice(length.as_bytes())?;
    request.extend_from_slice(b"\r\n\r\n")?;
    push_times(&mut request, bytes, b"x")?;
    Ok(request)
}

/// How many bytes are taken of a body, or the status of the refusal.
fn length_taken(alloc: Global, length: &str, bytes: usize) -> Result<usize, AllocError> {
    let request = long_request(alloc, length, bytes)?;
    let mut conn = conn_of(alloc, request.as_slice(), 100_000, &[])?;
    Ok(match take_request(alloc, &mut conn) {
        Ok(request) => request.body.len(),
        Err(HttpRefusal::Status { code, name: _name }) => code.into(),
        Err(_) => 0,
    })
}

#[test]
fn keeps_the_limit_of_bodies(rt: HostRuntime) -> Result<(), Fail> {
    let found = (
        length_taken(rt.alloc(), "2097152", 2_097_152)?,
        length_taken(rt.alloc(), "2097152", 2_097_151)?,
        length_taken(rt.alloc(), "2097153", 2_097_153)?,
    );
    assert_eq!(rt; found, (2_097_152, 400, 413));
    Ok(())
}

/// Which calls of a connection fail that gives at most so many bytes at once, and what the waiting request comes to.
const FAULTS: [(usize, &[u64], &str); 8] = [
    (100, &[0], "connection"),
    (100, &[1], "connection"),
    (100, &[2], "100 taken {\"query\":\"SELECT * { }\"}"),
    (40, &[0, 1], "connection"),
    (40, &[1], "connection"),
    (40, &[2], "connection"),
    (40, &[3], "100 connection"),
    (40, &[5], "100 taken {\"query\":\"SELECT * { }\"}"),
];

fn taken_faulty(alloc: Global, piece: usize, fails: &[u64]) -> Result<String, AllocError> {
    let bytes = bytes_of(alloc, WAITING)?;
    taken(alloc, bytes.as_slice(), piece, fails)
}

#[test]
fn tells_the_faults_of_connections(rt: HostRuntime) -> Result<(), Fail> {
    for &(piece, fails, wanted) in FAULTS.as_slice() {
        let found = taken_faulty(rt.alloc(), piece, fails)?;
        assert_eq!(rt; found.as_str(), wanted, "{piece} {fails:?}");
    }
    Ok(())
}

/// A reply of bytes as text, or that they are none.
fn shown_reply(alloc: Global, bytes: &[u8]) -> Result<String, AllocError> {
    match take_reply(alloc, bytes) {
        Ok(reply) => {
            let body = str::from_utf8(reply.body.as_slice()).unwrap_or("?");
            format!(in alloc; "{} {body}", reply.code)
        }
        Err(HttpReplyFault::BadReply) => String::from_str(alloc, "BadReply"),
        Err(HttpReplyFault::Memory) => String::from_str(alloc, "memory"),
    }
}

fn reply_of_case(alloc: Global, case: &str) -> Result<String, AllocError> {
    let bytes = bytes_of(alloc, case)?;
    shown_reply(alloc, bytes.as_slice())
}

#[test]
fn takes_replies(rt: HostRuntime) -> Result<(), Fail> {
    for line in REPLIES.lines() {
        let (case, wanted) = line.split_once(" => ").unwrap_or((line, ""));
        let found = reply_of_case(rt.alloc(), case)?;
        assert_eq!(rt; found.as_str(), wanted, "{line}");
    }
    Ok(())
}

/// The codes that are answered, with the first line of their heads (RFC 9110, 15).
const CODES: [(u16, &str); 8] = [
    (200, "HTTP/1.1 200 OK"),
    (400, "HTTP/1.1 400 Bad Request"),
    (404, "HTTP/1.1 404 Not Found"),
    (405, "HTTP/1.1 405 Method Not Allowed"),
    (411, "HTTP/1.1 411 Length Required"),
    (413, "HTTP/1.1 413 Payload Too Large"),
    (500, "HTTP/1.1 500 Internal Server Error"),
    (503, "HTTP/1.1 503 Service Unavailable"),
];

/// What is written behind that line of a body of three bytes.
const FIELDS: &str = "|Content-Type: application/json|Content-Length: 3|Connection: close||";

/// The head that is written for a code and a body of three bytes.
fn head(alloc: Global, code: u16) -> Result<Vec<u8>, Fail> {
    Ok(match code {
        200 => write_head(alloc, 200, 3)?,
        400 => write_head(alloc, 400, 3)?,
        404 => write_head(alloc, 404, 3)?,
        405 => write_head(alloc, 405, 3)?,
        411 => write_head(alloc, 411, 3)?,
        413 => write_head(alloc, 413, 3)?,
        500 => write_head(alloc, 500, 3)?,
        _ => write_head(alloc, 503, 3)?,
    })
}

/// Whether that head is the line with the fields.
fn is_head(alloc: Global, code: u16, line: &str) -> Result<bool, Fail> {
    let head = head(alloc, code)?;
    let fields = bytes_of(alloc, FIELDS)?;
    let behind = head.as_slice().strip_prefix(line.as_bytes());
    Ok(behind == Some(fields.as_slice()))
}

/// The reply of a head with a body of three bytes.
fn reply_behind_head(alloc: Global, code: u16) -> Result<String, Fail> {
    let mut bytes = head(alloc, code)?;
    bytes.extend_from_slice(b"abc")?;
    Ok(shown_reply(alloc, bytes.as_slice())?)
}

#[test]
fn writes_the_heads_of_replies(rt: HostRuntime) -> Result<(), Fail> {
    for &(code, line) in CODES.as_slice() {
        let found = is_head(rt.alloc(), code, line)?;
        let reply = reply_behind_head(rt.alloc(), code)?;
        let taken = reply
            .as_str()
            .strip_suffix(" abc")
            .map(|code| line.contains(code));
        assert_eq!(rt; (found, taken), (true, Some(true)), "{line}");
    }
    Ok(())
}

/// A request that is written to a path.
fn posted(alloc: Global, path: &str, body: &str) -> Result<Vec<u8>, Fail> {
    Ok(post(alloc, "h.example", 8080, path, body.as_bytes())?)
}

/// What it comes to.
fn posted_taken(alloc: Global, path: &str, body: &str) -> Result<String, Fail> {
    let request = posted(alloc, path, body)?;
    Ok(taken(alloc, request.as_slice(), 9, &[])?)
}

/// Paths and bodies, and what a request that is written for them comes to.
const POSTED: [(&str, &str, &str); 4] = [
    ("/page", "", "taken "),
    ("/page", "{\"query\":\"q\"}", "taken {\"query\":\"q\"}"),
    ("/page", "\r\n\r\n", "taken \r\n\r\n"),
    ("/x", "{}", "404 Path"),
];

#[test]
fn takes_what_is_posted(rt: HostRuntime) -> Result<(), Fail> {
    for &(path, body, wanted) in POSTED.as_slice() {
        let found = posted_taken(rt.alloc(), path, body)?;
        assert_eq!(rt; found.as_str(), wanted, "{path}");
    }
    Ok(())
}

#[test]
fn writes_requests(rt: HostRuntime) -> Result<(), Fail> {
    let wanted = bytes_of(
        rt.alloc(),
        "POST /page HTTP/1.1|Host: h.example:8080|Content-Type: application/json|Content-Length: 2|Connection: close||{}",
    )?;
    let request = posted(rt.alloc(), "/page", "{}")?;
    assert_eq!(rt; request.as_slice(), wanted.as_slice());
    Ok(())
}
