// The heads that are written.
ghost use Rattle.std.specs.Prelude.{◌≡◌, IfOk, string_bytes};
ghost use Rattle.http_core.specs.Written as written;
ghost use Rattle.http_core.specs.Written.{HasReason, reason_of, head_text, post_text};

use std::alloc::{AllocError, Global};
use term_core::Memory;

/// The reason of a code that is answered (RFC 9110, 15); empty for any other.
fn reason(code: u16) -> &'static str
    ensures { result.now ≡ reason_of code }
{
    match code {
        200 => "OK",
        400 => "Bad Request",
        404 => "Not Found",
        405 => "Method Not Allowed",
        411 => "Length Required",
        413 => "Payload Too Large",
        500 => "Internal Server Error",
        503 => "Service Unavailable",
        _ => "",
    }
}

/// The head of a reply with that reason.
fn reply_head(alloc: Global, code: u16, reason: &str, length: usize) -> Result<String, AllocError>
    ensures { IfOk result (λ head. string_bytes head ≡ written.reply_head code reason.now length) }
{
    format!(in alloc;
        "HTTP/1.1 {code} {reason}\r\nContent-Type: application/json\r\nContent-Length: {length}\r\nConnection: close\r\n\r\n"
    )
}

/// The head of a reply of JSON with a body of that length (RFC 9112, 4). The code is one of those
/// that have a reason.
pub fn write_head(alloc: Global, code: u16, length: usize) -> Result<Vec<u8>, Memory>
    requires { HasReason code }
    ensures { IfOk result (λ head. head.items ≡ head_text code length) }
{
    let head = reply_head(alloc, code, reason(code), length)?;
    Ok(head.into_bytes())
}

/// The head of a request that posts a body of that length.
fn post_head(
    alloc: Global,
    host: &str,
    port: u16,
    path: &str,
    length: usize,
) -> Result<String, AllocError>
    ensures { IfOk result (λ head. string_bytes head ≡ written.post_head host.now port path.now length) }
{
    format!(in alloc;
        "POST {path} HTTP/1.1\r\nHost: {host}:{port}\r\nContent-Type: application/json\r\nContent-Length: {length}\r\nConnection: close\r\n\r\n"
    )
}

/// A request that posts the body, which is JSON, to the path at that host and port (RFC 9112, 3).
pub fn post(
    alloc: Global,
    host: &str,
    port: u16,
    path: &str,
    body: &[u8],
) -> Result<Vec<u8>, Memory>
    ensures { IfOk result (λ request. request.items ≡ post_text host.now port path.now body.now) }
{
    let mut request = post_head(alloc, host, port, path, body.len())?.into_bytes();
    request.extend_from_slice(body)?;
    Ok(request)
}
