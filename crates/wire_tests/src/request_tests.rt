//! Bodies of requests: a body a line, and behind an arrow what is written of the request that it is read as, or the fault. Without an
//! arrow the body is what is written.

use crate::values::{request, text_of};
use page_json::{PageRequest, RequestFault, read_request, write_request};
use std::alloc::{AllocError, Global};
use std::test::Fail;

/// Requests as they are written.
const WRITTEN: &str = r#"{"query":"SELECT * { }"}
{"query":""}
{"query":"\"\\\n\u0000é😀"}
{"next":"","query":"q"}
{"next":"AA","query":"q"}
{"next":"AA","query":"SELECT * { <http://e/a> <http://e/p> ?o . }"}
{"next":"-_8","query":"q"}
{"next":"Zm9vYmE","query":"q"}"#;

/// Other texts of the same values: an absent plan and null, other members, other orders and spaces, and repeated members.
const OTHERWISE: &str = r#"{"next":null,"query":"q"} => {"query":"q"}
{"query":"q","next":"AA"} => {"next":"AA","query":"q"}
 { "query" : "q" , "next" : null }  => {"query":"q"}
{"qu\u0065ry":"\u0071"} => {"query":"q"}
{"query":"q","error":"x","rows":[{}],"Next":1,"Query":2} => {"query":"q"}
{"query":"q","a":1e400} => Request
{"query":"q","a":1e0,"b":-0,"c":18446744073709551616,"d":1.5,"e":[[],{}],"f":false} => {"query":"q"}
{"query":"a","query":"b"} => {"query":"b"}
{"query":1,"query":"b"} => {"query":"b"}
{"next":"A","next":null,"query":"q"} => {"query":"q"}
{"next":1,"query":"q","next":"AA"} => {"next":"AA","query":"q"}"#;

/// Bodies that ask for no page. The first is empty.
const NO_REQUESTS: &str = r#"
null
[]
{}
"query"
{"query":"SELECT * { }"
{"query":"q"}}
{"query":"q"} x
{"query":"q",}
{"query":"\ud800"}
{"Query":"q"}
{"quer":"q"}
{"query":null}
{"query":1}
{"query":["q"]}
{"query":{"query":"q"}}
{"query":"q","query":1}
{"next":"AA"}
{"next":"A"}
{"next":"A","query":null}
{"next":0,"query":"q"}
{"next":false,"query":"q"}
{"next":[],"query":"q"}
{"next":{},"query":"q"}
{"next":"AA","query":"q","next":1}
{"a":01,"query":"q"}
{"a":\ud800,"query":"q"}
{"a":"\udc00","query":"q"}
[{"query":"q"}]"#;

/// Bodies whose plan is not base64 that is safe in URLs without padding.
const NO_PLANS: &str = r#"{"next":"A","query":"SELECT * { <http://e/a> <http://e/p> ?o . }"}
{"next":"AA==","query":"q"}
{"next":"AA=","query":"q"}
{"next":"AAA=","query":"q"}
{"next":"AAAAA","query":"q"}
{"next":"AB","query":"q"}
{"next":"AP","query":"q"}
{"next":"AAB","query":"q"}
{"next":"+_8","query":"q"}
{"next":"-/8","query":"q"}
{"next":"AA AA","query":"q"}
{"next":"AAAA\n","query":"q"}
{"next":"é","query":"q"}
{"next":null,"next":"A","query":"q"}
{"query":"","a":0,"next":"="}"#;

/// How many arrays are nested in a member that does not matter, and what the body is read as: at most 127 arrays and objects
/// may be open at one place.
const NESTED: [(usize, &str); 5] = [
    (0, r#"{"query":"q"}"#),
    (1, r#"{"query":"q"}"#),
    (126, r#"{"query":"q"}"#),
    (127, "Request"),
    (200, "Request"),
];

/// Requests and what is written of them.
const REQUESTS: [(&str, Option<&[u8]>, &str); 3] = [
    ("SELECT * { }", None, r#"{"query":"SELECT * { }"}"#),
    ("\"", Some(b""), r#"{"next":"","query":"\""}"#),
    ("q", Some(b"\xfb\xff"), r#"{"next":"-_8","query":"q"}"#),
];

/// What is written of a request.
fn written(alloc: Global, request: &PageRequest) -> Result<String, Fail> {
    let text = write_request(alloc, request)?;
    Ok(text_of(alloc, text)?)
}

/// What is written of the request of a body, or its fault.
fn shown(alloc: Global, body: &[u8]) -> Result<String, Fail> {
    match read_request(alloc, body) {
        Ok(request) => written(alloc, &request),
        Err(RequestFault::Request) => Ok(String::from_str(alloc, "Request")?),
        Err(RequestFault::Base64) => Ok(String::from_str(alloc, "Base64")?),
        Err(RequestFault::Memory) => Ok(String::from_str(alloc, "memory")?),
    }
}

/// The first line whose body is read otherwise, with what is written of it; else nothing.
fn first_other(alloc: Global, lines: &str) -> Result<String, Fail> {
    for line in lines.lines() {
        let (body, wanted) = line.split_once(" => ").unwrap_or((line, line));
        let found = shown(alloc, body.as_bytes())?;
        if found.as_str() != wanted {
            return Ok(format!(in alloc; "{line} but {}", found.as_str())?);
        }
    }
    Ok(String::from_str(alloc, "")?)
}

/// The first line that does not have this fault; else nothing.
fn first_without<'a>(alloc: Global, fault: &str, lines: &'a str) -> Result<&'a str, Fail> {
    for line in lines.lines() {
        let found = shown(alloc, line.as_bytes())?;
        if found.as_str() != fault {
            return Ok(line);
        }
    }
    Ok("")
}

fn push_times(out: &mut String, times: usize, piece: char) -> Result<(), AllocError> {
    for _ in 0..times {
        out.push(piece)?;
    }
    Ok(())
}

/// A request with a member of so many nested arrays.
fn nested(alloc: Global, times: usize) -> Result<String, AllocError> {
    let mut body = String::from_str(alloc, r#"{"a":"#)?;
    push_times(&mut body, times, '[')?;
    if times == 0 {
        body.push('0')?;
    }
    push_times(&mut body, times, ']')?;
    body.push_str(r#","query":"q"}"#)?;
    Ok(body)
}

fn shown_nested(alloc: Global, times: usize) -> Result<String, Fail> {
    let body = nested(alloc, times)?;
    shown(alloc, body.as_bytes())
}

#[test]
fn reads_what_is_written(rt: HostRuntime) -> Result<(), Fail> {
    let other = first_other(rt.alloc(), WRITTEN)?;
    assert_eq!(rt; other.as_str(), "");
    Ok(())
}

#[test]
fn reads_other_texts_of_the_same_values(rt: HostRuntime) -> Result<(), Fail> {
    let other = first_other(rt.alloc(), OTHERWISE)?;
    assert_eq!(rt; other.as_str(), "");
    Ok(())
}

#[test]
fn refuses_what_asks_for_no_page(rt: HostRuntime) -> Result<(), Fail> {
    let other = first_without(rt.alloc(), "Request", NO_REQUESTS)?;
    assert_eq!(rt; other, "");
    Ok(())
}

#[test]
fn refuses_what_is_no_plan(rt: HostRuntime) -> Result<(), Fail> {
    let other = first_without(rt.alloc(), "Base64", NO_PLANS)?;
    assert_eq!(rt; other, "");
    Ok(())
}

#[test]
fn reads_nested_members(rt: HostRuntime) -> Result<(), Fail> {
    for &(times, wanted) in NESTED.as_slice() {
        let found = shown_nested(rt.alloc(), times)?;
        assert_eq!(rt; found.as_str(), wanted, "{times}");
    }
    Ok(())
}

#[test]
fn writes_requests(rt: HostRuntime) -> Result<(), Fail> {
    for &(query, next, wanted) in REQUESTS.as_slice() {
        let request = request(rt.alloc(), query, next)?;
        let found = written(rt.alloc(), &request)?;
        assert_eq!(rt; found.as_str(), wanted);
    }
    Ok(())
}
