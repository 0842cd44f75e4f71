// The checks of a request's head that asks for a page, in their order.
ghost use Rattle.std.specs.Prelude.{◌≡◌, ◌≤◌, ℕ, List, All, length, map, codes};
ghost use Rattle.httparse.specs.Grammar.{RequestHead, ReadsRequest};
ghost use Rattle.httparse.specs.Spans.{IsHeaderWithin, header_bytes};
ghost use Rattle.http_core.specs.Fields.{first_value};
ghost use Rattle.http_core.specs.Heads.{HasHead, field_limit};
ghost use Rattle.http_core.specs.PageRequests as page;
ghost use Rattle.http_core.specs.Views.{verdict_view, IsVerdictOn};

use crate::fields::{all_are, find_value, has_field, has_value};
use crate::lengths::number;
use crate::taking::FIELD_LIMIT;
use httparse::Status;
use httparse::spans::{EMPTY_HEADER_SPAN, HeaderSpan, parse_request};

/// The most bytes of a body.
const BODY_LIMIT: u64 = 2_097_152;

/// What a head leads to.
#[derive(Clone, Copy, Debug)]
pub enum Checked {
    /// A refusal by a status and a name.
    Refused { code: u16, name: &'static str },
    /// A body of so many bytes, before which the interim reply is expected or not.
    Awaits { size: usize, expects: bool },
}

fn by_length(buf: &[u8], len: usize, minor: u8, fields: &[HeaderSpan]) -> Checked
    requires within { All (IsHeaderWithin len) fields.now }
    requires len { len ≤ length buf.now }
    ensures { verdict_view result ≡ page.by_length minor (map (header_bytes buf.now) fields.now)
        (first_value (codes "content-length") (map (header_bytes buf.now) fields.now)) }
{
    let Some(text) = find_value(buf, len, fields, b"content-length") else {
        return Checked::Refused {
            code: 411,
            name: "Length",
        };
    };
    let Some(size) = number(text) else {
        return Checked::Refused {
            code: 400,
            name: "Head",
        };
    };
    if !all_are(buf, len, fields, b"content-length", text) {
        return Checked::Refused {
            code: 400,
            name: "Head",
        };
    }
    if size > BODY_LIMIT {
        return Checked::Refused {
            code: 413,
            name: "TooLarge",
        };
    }
    let expects = minor == 1 && has_value(buf, len, fields, b"expect", b"100-continue");
    Checked::Awaits {
        size: size as usize,
        expects,
    }
}

fn verdict(
    buf: &[u8],
    len: usize,
    method: &[u8],
    target: &[u8],
    minor: u8,
    fields: &[HeaderSpan],
) -> Checked
    requires within { All (IsHeaderWithin len) fields.now }
    requires len { len ≤ length buf.now }
    ensures { verdict_view result
        ≡ page.verdict_on method.now target.now minor (map (header_bytes buf.now) fields.now) }
{
    if target != b"/page".as_slice() {
        return Checked::Refused {
            code: 404,
            name: "Path",
        };
    }
    if method != b"POST".as_slice() {
        return Checked::Refused {
            code: 405,
            name: "Method",
        };
    }
    if has_field(buf, len, fields, b"transfer-encoding") {
        return Checked::Refused {
            code: 411,
            name: "Length",
        };
    }
    by_length(buf, len, minor, fields)
}

/// What the head at the front of the bytes leads to, and its length.
pub fn check_head(buf: &[u8]) -> (Checked, usize)
    requires { HasHead buf.now }
    ensures { (head : RequestHead) (rest : List ℕ) → ReadsRequest buf.now head rest
        → length head.fields ≤ field_limit → IsVerdictOn head result }
{
    let mut headers = [EMPTY_HEADER_SPAN; FIELD_LIMIT];
    match parse_request(buf, &mut headers) {
        Ok(Status::Complete(head)) => {
            let fields = &headers[..head.headers];
            let checked = verdict(
                buf,
                head.len,
                head.method.of(buf),
                head.path.of(buf),
                head.version,
                fields,
            );
            (checked, head.len)
        }
        _ => unreachable!(),
    }
}
