// Replies of bytes.
ghost use Rattle.std.specs.Prelude.{◌≡◌, ◌≤◌, ◌==◌, ◌&&◌, All, IfOk, Err, length, map, codes};
ghost use Rattle.std.specs.Str.Parse.{digits_value};
ghost use Rattle.httparse.specs.Spans.{IsHeaderWithin, header_bytes};
ghost use Rattle.http_core.specs.Fields.{first_value, is_number};
ghost use Rattle.http_core.specs.Replies as replies;
ghost use Rattle.http_core.specs.Replies.{IsReply};

use crate::fields::{all_are, find_value, has_field};
use crate::lengths::number;
use crate::taking::{FIELD_LIMIT, HEAD_LIMIT};
use httparse::Status;
use httparse::spans::{EMPTY_HEADER_SPAN, HeaderSpan, parse_response};
use std::alloc::Global;
use term_core::Items;

/// A reply, taken apart.
#[derive(Debug, Drop)]
pub struct HttpReply {
    /// Its status (RFC 9110, 15).
    pub code: u16,
    /// What stands behind its head.
    pub body: Items<u8>,
}

/// Why bytes gave no reply.
#[derive(Clone, Copy, Debug, PartialEq, Eq)]
pub enum HttpReplyFault {
    /// The bytes are no reply.
    BadReply,
    /// The allocator had no room.
    Memory,
}

/// Whether the text is the number of bytes of the body.
fn is_length(text: &[u8], body: &[u8]) -> bool
    ensures { result ≡ (is_number text.now && (digits_value 10 text.now == length body.now)) }
{
    match number(text) {
        Some(size) => size == body.len() as u64,
        None => false,
    }
}

fn fits_length(bytes: &[u8], len: usize, fields: &[HeaderSpan], body: &[u8]) -> bool
    requires within { All (IsHeaderWithin len) fields.now }
    requires len { len ≤ length bytes.now }
    ensures { result ≡ replies.fits_length (map (header_bytes bytes.now) fields.now)
        (first_value (codes "content-length") (map (header_bytes bytes.now) fields.now)) (length body.now) }
{
    match find_value(bytes, len, fields, b"content-length") {
        None => true,
        Some(text) => {
            all_are(bytes, len, fields, b"content-length", text) && is_length(text, body)
        }
    }
}

fn is_plain(bytes: &[u8], len: usize, fields: &[HeaderSpan], body: &[u8]) -> bool
    requires within { All (IsHeaderWithin len) fields.now }
    requires len { len ≤ length bytes.now }
    ensures { result ≡ replies.is_plain (map (header_bytes bytes.now) fields.now) (length body.now) }
{
    !has_field(bytes, len, fields, b"transfer-encoding")
        && !has_field(bytes, len, fields, b"content-encoding")
        && fits_length(bytes, len, fields, body)
}

/// The code and the body of the whole reply in these bytes: a head within 16,384 bytes and 64
/// fields that codes no body, and to the end of the bytes a body as long as each length says.
/// `BadReply` comes exactly where the bytes are none.
pub fn take_reply(alloc: Global, bytes: &[u8]) -> Result<HttpReply, HttpReplyFault>
    ensures ok { IfOk result (λ reply. IsReply bytes.now reply) }
    ensures bad { result ≡ Err HttpReplyFault.BadReply → (reply : HttpReply) → ¬ (IsReply bytes.now reply) }
{
    let mut headers = [EMPTY_HEADER_SPAN; FIELD_LIMIT];
    match parse_response(bytes, &mut headers) {
        Ok(Status::Complete(head)) => {
            let body = &bytes[head.len..];
            if head.len > HEAD_LIMIT || !is_plain(bytes, head.len, &headers[..head.headers], body) {
                return Err(HttpReplyFault::BadReply);
            }
            match body.to_vec(alloc) {
                Ok(body) => Ok(HttpReply {
                    code: head.code,
                    body: Items::from_vec(body),
                }),
                Err(_) => Err(HttpReplyFault::Memory),
            }
        }
        _ => Err(HttpReplyFault::BadReply),
    }
}
