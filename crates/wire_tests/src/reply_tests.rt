//! Bodies of replies: a body a line, and behind an arrow what is written of the reply that it is read as, or `bad`. Without an
//! arrow the body is what is written.

use crate::values::{Page, reply, text_of};
use page_json::{PageReply, ReplyFault, read_reply, write_reply};
use std::alloc::Global;
use std::test::Fail;
use term_core::{RDF_LANG_STRING, XSD_INTEGER, XSD_STRING};

/// Pages and refusals as they are written.
const WRITTEN: &str = r#"{"next":null,"rows":[{}],"steps":2,"vars":[]}
{"error":"Request"}
{"error":"Head"}
{"error":""}
{"error":"two words, \"\\ / é 😀"}
{"next":null,"rows":[],"steps":1,"vars":[]}
{"next":null,"rows":[],"steps":0,"vars":[]}
{"next":null,"rows":[],"steps":4294967295,"vars":[]}
{"next":"","rows":[],"steps":1,"vars":[]}
{"next":"AA","rows":[],"steps":1,"vars":["o"]}
{"next":"AAA","rows":[],"steps":1,"vars":["o"]}
{"next":"AAAA","rows":[],"steps":1,"vars":["o"]}
{"next":"-_8","rows":[],"steps":1,"vars":["o"]}
{"next":"Zm9vYmE","rows":[],"steps":1,"vars":["o"]}
{"next":null,"rows":[{"o":{"type":"uri","value":"http://e/b"}}],"steps":2,"vars":["o"]}
{"next":null,"rows":[{"o":{"type":"bnode","value":"b0"}}],"steps":2,"vars":["o"]}
{"next":null,"rows":[{"o":{"type":"literal","value":"x"}}],"steps":2,"vars":["o"]}
{"next":null,"rows":[{"o":{"type":"literal","value":"x","xml:lang":"en-gb"}}],"steps":2,"vars":["o"]}
{"next":null,"rows":[{"o":{"datatype":"http://www.w3.org/2001/XMLSchema#integer","type":"literal","value":"7"}}],"steps":2,"vars":["o"]}
{"next":null,"rows":[{"o":{"datatype":"","type":"literal","value":""}}],"steps":2,"vars":["o"]}
{"next":null,"rows":[{"o":{"type":"uri","value":""}},{"o":{"type":"bnode","value":""}}],"steps":2,"vars":["o"]}
{"next":null,"rows":[{"B":{"type":"bnode","value":"1"},"a":{"type":"bnode","value":"2"},"é":{"type":"bnode","value":"3"}}],"steps":2,"vars":["é","a","B"]}
{"next":null,"rows":[{"":{"type":"bnode","value":"1"}}],"steps":2,"vars":["",""]}
{"next":null,"rows":[{"a":{"type":"bnode","value":"1"}},{},{"b":{"type":"bnode","value":"1"}}],"steps":9,"vars":["a","b"]}
{"next":null,"rows":[{"o":{"type":"literal","value":"\"\\\b\f\n\r\t\u0000\u0001\u001f/é😀"}}],"steps":2,"vars":["o"]}
{"next":null,"rows":[{"error":{"type":"bnode","value":"1"},"type":{"type":"bnode","value":"2"}}],"steps":2,"vars":["error","type"]}
{"next":null,"rows":[],"steps":10001,"vars":[]}
{"next":null,"rows":[{},{}],"steps":1,"vars":[]}
{"next":null,"rows":[{"o":{"type":"bnode","value":"1"}}],"steps":1,"vars":[]}"#;

/// Other texts of the same values.
const OTHERWISE: &str =
    r#"  {  "next" : null , "rows" : [ { } ] , "steps" : 2 , "vars" : [ ] }  => {"next":null,"rows":[{}],"steps":2,"vars":[]}
{"vars":[],"steps":2,"rows":[{}],"next":null} => {"next":null,"rows":[{}],"steps":2,"vars":[]}
{"rows":[],"vars":["b","a"],"next":"AA","steps":1} => {"next":"AA","rows":[],"steps":1,"vars":["b","a"]}
{"\u006eext":null,"rows":[],"steps":1,"\u0076ars":[]} => {"next":null,"rows":[],"steps":1,"vars":[]}
{"next":"\u0041\u0041","rows":[],"steps":1,"vars":[]} => {"next":"AA","rows":[],"steps":1,"vars":[]}
{"error":"\u0041\/\u00e9\ud83d\ude00\uD83D\uDE00"} => {"error":"A/é😀😀"}
{"error":"\u001F\u000A\u000d\u0022"} => {"error":"\u001f\n\r\""}
{"error":"a","error":"b"} => {"error":"b"}
{"error":1,"error":"b"} => {"error":"b"}
{"next":"A","rows":[],"steps":1,"vars":[],"next":null} => {"next":null,"rows":[],"steps":1,"vars":[]}
{"next":null,"rows":[{}],"rows":[],"steps":1,"vars":[]} => {"next":null,"rows":[],"steps":1,"vars":[]}
{"next":null,"rows":[],"steps":-1,"steps":2,"vars":[]} => {"next":null,"rows":[],"steps":2,"vars":[]}
{"next":null,"rows":[],"steps":2,"vars":["a"],"vars":["b"]} => {"next":null,"rows":[],"steps":2,"vars":["b"]}
{"next":null,"rows":[{"o":1,"o":{"type":"bnode","value":"1"}}],"steps":2,"vars":["o"]} => {"next":null,"rows":[{"o":{"type":"bnode","value":"1"}}],"steps":2,"vars":["o"]}
{"next":null,"rows":[{"o":{"type":"uri","type":"bnode","value":"1","value":"2"}}],"steps":2,"vars":["o"]} => {"next":null,"rows":[{"o":{"type":"bnode","value":"2"}}],"steps":2,"vars":["o"]}
{"next":null,"rows":[{"o":{"value":"x","type":"literal"}}],"steps":2,"vars":["o"]} => {"next":null,"rows":[{"o":{"type":"literal","value":"x"}}],"steps":2,"vars":["o"]}
{"next":null,"rows":[{"o":{"xml:lang":"en","value":"x","type":"literal"}}],"steps":2,"vars":["o"]} => {"next":null,"rows":[{"o":{"type":"literal","value":"x","xml:lang":"en"}}],"steps":2,"vars":["o"]}
{"next":null,"rows":[{"o":{"xml:lang":"","xml:lang":"EN","value":"x","type":"literal"}}],"steps":2,"vars":["o"]} => {"next":null,"rows":[{"o":{"type":"literal","value":"x","xml:lang":"EN"}}],"steps":2,"vars":["o"]}
{"next":null,"rows":[{"o":{"type":"literal","value":"7","datatype":"http://e/t"}}],"steps":2,"vars":["o"]} => {"next":null,"rows":[{"o":{"datatype":"http://e/t","type":"literal","value":"7"}}],"steps":2,"vars":["o"]}
{"next":null,"rows":[{"b":{"type":"bnode","value":"1"},"a":{"type":"bnode","value":"2"}}],"steps":2,"vars":["b","a"]} => {"next":null,"rows":[{"a":{"type":"bnode","value":"2"},"b":{"type":"bnode","value":"1"}}],"steps":2,"vars":["b","a"]}"#;

/// Texts that are no reply, whatever their numbers and letters: no JSON, another value, or members that are missing, extra or of
/// another type. The first is empty.
const NO_REPLIES: &str = r#"
null
true
1
"error"
[]
{}
[{"error":"x"}]
{"error":null}
{"error":1}
{"error":["x"]}
{"error":{"error":"x"}}
{"Error":"x"}
{"error":"x","code":400}
{"code":400,"error":"x"}
{"error":"x","next":null,"rows":[],"steps":1,"vars":[]}
{"error":"a","error":1}
{'error':'x'}
{error:"x"}
{"error":"x",}
{"error":"x"
{"error":"x"}}
{"error":"x"} x
{"error":"x"}{"error":"x"}
{"error":"x"},
{"error":"\x41"}
{"error":"\u00g0"}
{"error":"\ud800"}
{"error":"\udc00"}
{"error":"\ud800\u0041"}
{"error":"\ude00\ud83d"}
{"error":"\ud83d"}
{"\ud800":1,"error":"x"}
{"rows":[],"steps":1,"vars":[]}
{"next":null,"steps":1,"vars":[]}
{"next":null,"rows":[],"vars":[]}
{"next":null,"rows":[],"steps":1}
{"next":null,"rows":[],"steps":1,"vars":[],"a":null}
{"next":null,"other":1,"rows":[],"steps":1,"vars":[]}
{"next":null,"rows":[],"steps":1,"vars":[],"zeal":1}
{"next":null,"rows":[],"steps":1,"Vars":[]}
{"next":0,"rows":[],"steps":1,"vars":[]}
{"next":false,"rows":[],"steps":1,"vars":[]}
{"next":["AA"],"rows":[],"steps":1,"vars":[]}
{"next":{},"rows":[],"steps":1,"vars":[]}
{"next":null,"rows":null,"steps":1,"vars":[]}
{"next":null,"rows":{},"steps":1,"vars":[]}
{"next":null,"rows":[null],"steps":1,"vars":[]}
{"next":null,"rows":[[]],"steps":1,"vars":[]}
{"next":null,"rows":[{},""],"steps":2,"vars":[]}
{"next":null,"rows":[],"steps":1,"vars":null}
{"next":null,"rows":[],"steps":1,"vars":{}}
{"next":null,"rows":[],"steps":1,"vars":[null]}
{"next":null,"rows":[],"steps":1,"vars":["a",1]}"#;

/// Texts that are no reply by their steps, in place of the tilde.
const NO_STEPS: &str = r#"null
true
"1"
[1]
{}
-1
-0
0.0
1.0
1.5
1e0
1E0
10e-1
4294967296
18446744073709551615
18446744073709551616
340282366920938463463374607431768211456
1e400
01
+1
1.
.1
0x1
1_000
NaN
Infinity"#;

/// Texts that are no suspended plan, in place of the tilde: with padding, of another alphabet, of a length that no bytes have,
/// and with an unused bit that is set.
const NO_PLANS: &str = r#"A
AA==
AA=
AAA=
AAAA=
AAAAA
AB
AP
AAB
AAD
+_8
-/8
+/8
AA AA
AA.
é
AAAA\n
A\u0000"#;

/// Texts that are no term, in place of the tilde.
const NO_TERMS: &str = r#"null
"http://e/b"
[]
{}
{"type":"uri"}
{"value":"x"}
{"type":"uri","value":null}
{"type":"uri","value":1}
{"type":1,"value":"x"}
{"type":["uri"],"value":"x"}
{"type":"URI","value":"x"}
{"type":"iri","value":"x"}
{"type":"","value":"x"}
{"type":"typed-literal","value":"x"}
{"type":"typed-literal","value":"x","datatype":"http://e/t"}
{"type":"uri","value":"x","datatype":"http://e/t"}
{"type":"uri","value":"x","xml:lang":"en"}
{"type":"bnode","value":"x","datatype":"http://e/t"}
{"type":"bnode","value":"x","xml:lang":"en"}
{"type":"uri","value":"x","y":null}
{"type":"uri","value":"x","a":null}
{"type":"literal","value":"x","lang":"en"}
{"type":"literal","value":"x","xml:lang":""}
{"type":"literal","value":"x","xml:lang":null}
{"type":"literal","value":"x","xml:lang":1}
{"type":"literal","value":"x","datatype":null}
{"type":"literal","value":"x","datatype":["http://e/t"]}
{"type":"literal","value":"x","datatype":"http://www.w3.org/2001/XMLSchema#string"}
{"type":"literal","value":"x","datatype":"http://www.w3.org/1999/02/22-rdf-syntax-ns#langString"}
{"type":"literal","value":"x","datatype":"http://www.w3.org/1999/02/22-rdf-syntax-ns#langString","xml:lang":"en"}
{"type":"literal","value":"x","datatype":"http://e/t","xml:lang":"en"}
{"type":"literal","value":"x","datatype":"http://e/t","xml:lang":""}
{"type":"literal","value":"x","datatype":"http://e/t","datatype":null}"#;

/// Bodies with bytes that no line of a text has: ends of lines between pieces, within a string, a byte order mark, and bytes that are no UTF-8.
const BYTES: [(&[u8], &str); 8] = [
    (b"\xef\xbb\xbf{\"error\":\"x\"}", "bad"),
    (b"\r\n{\n\t\"error\"\r:\n\"x\"}\n", r#"{"error":"x"}"#),
    (b"{\"error\":\"a\nb\"}", "bad"),
    (b"{\"error\":\"a\tb\"}", "bad"),
    (b"{\"error\":\"a\0b\"}", "bad"),
    (b"{\"error\":\"\xff\"}", "bad"),
    (b"{\"error\":\"\xed\xa0\x80\"}", "bad"),
    (b"{\"error\":\"x\"}\0", "bad"),
];

/// Replies and what is written of them.
const REPLIES: [(Page, &str); 4] = [
    (
        (&["s", "o"], &[], None, 1),
        r#"{"next":null,"rows":[],"steps":1,"vars":["s","o"]}"#,
    ),
    (
        (&[], &[&[], &[]], Some(b""), 2),
        r#"{"next":"","rows":[{},{}],"steps":2,"vars":[]}"#,
    ),
    (
        (
            &["s", "o"],
            &[
                &[("s", 'i', "http://e/a", "", ""), ("o", 'b', "b", "", "")],
                &[("o", 'l', "x", XSD_STRING, "")],
            ],
            Some(b"\xfb\xff"),
            3,
        ),
        r#"{"next":"-_8","rows":[{"o":{"type":"bnode","value":"b"},"s":{"type":"uri","value":"http://e/a"}},{"o":{"type":"literal","value":"x"}}],"steps":3,"vars":["s","o"]}"#,
    ),
    (
        (
            &["o"],
            &[
                &[("o", 'l', "\"\u{1}é", RDF_LANG_STRING, "en")],
                &[("o", 'l', "7", XSD_INTEGER, "")],
            ],
            Some(b"foobar"),
            4_294_967_295,
        ),
        r#"{"next":"Zm9vYmFy","rows":[{"o":{"type":"literal","value":"\"\u0001é","xml:lang":"en"}},{"o":{"datatype":"http://www.w3.org/2001/XMLSchema#integer","type":"literal","value":"7"}}],"steps":4294967295,"vars":["o"]}"#,
    ),
];

/// What is written of a reply.
fn written(alloc: Global, reply: &PageReply) -> Result<String, Fail> {
    let text = write_reply(alloc, reply)?;
    Ok(text_of(alloc, text)?)
}

/// What is written of the reply of a body, or its fault.
fn shown(alloc: Global, body: &[u8]) -> Result<String, Fail> {
    match read_reply(alloc, body) {
        Ok(reply) => written(alloc, &reply),
        Err(ReplyFault::BadReply) => Ok(String::from_str(alloc, "bad")?),
        Err(ReplyFault::Memory) => Ok(String::from_str(alloc, "memory")?),
    }
}

/// The first line whose body is read otherwise, with what is written of it; else nothing.
fn first_other(alloc: Global, lines: &str) -> Result<String, Fail> {
    for line in lines.lines() {
        let (body, wanted) = line.split_once(" => ").unwrap_or((line, line));
        let found = shown(alloc, body.as_bytes())?;
        if found.as_str() != wanted {
            return Ok(format!(in alloc; "{line} but {}", found.as_str())?);
        }
    }
    Ok(String::from_str(alloc, "")?)
}

/// Whether a line between two texts is no reply.
fn is_bad(alloc: Global, front: &str, line: &str, back: &str) -> Result<bool, Fail> {
    let body = format!(in alloc; "{front}{line}{back}")?;
    let found = shown(alloc, body.as_bytes())?;
    Ok(found.as_str() == "bad")
}

/// The first line that is a reply where it stands between two texts; else nothing.
fn first_read<'a>(alloc: Global, texts: (&str, &str), lines: &'a str) -> Result<&'a str, Fail> {
    let (front, back) = texts;
    for line in lines.lines() {
        if !is_bad(alloc, front, line, back)? {
            return Ok(line);
        }
    }
    Ok("")
}

#[test]
fn reads_what_is_written(rt: HostRuntime) -> Result<(), Fail> {
    let other = first_other(rt.alloc(), WRITTEN)?;
    assert_eq!(rt; other.as_str(), "");
    Ok(())
}

#[test]
fn reads_other_texts_of_the_same_values(rt: HostRuntime) -> Result<(), Fail> {
    let other = first_other(rt.alloc(), OTHERWISE)?;
    assert_eq!(rt; other.as_str(), "");
    Ok(())
}

#[test]
fn refuses_other_texts(rt: HostRuntime) -> Result<(), Fail> {
    let read = first_read(rt.alloc(), ("", ""), NO_REPLIES)?;
    assert_eq!(rt; read, "");
    Ok(())
}

/// What stands around the steps, the plan and the term of a page.
const AROUND: [(&str, &str, &str); 3] = [
    (
        r#"{"next":null,"rows":[],"steps":"#,
        r#","vars":[]}"#,
        NO_STEPS,
    ),
    (
        r#"{"next":""#,
        r#"","rows":[],"steps":1,"vars":[]}"#,
        NO_PLANS,
    ),
    (
        r#"{"next":null,"rows":[{"o":"#,
        r#"}],"steps":2,"vars":["o"]}"#,
        NO_TERMS,
    ),
];

#[test]
fn refuses_other_parts(rt: HostRuntime) -> Result<(), Fail> {
    for &(front, back, lines) in AROUND.as_slice() {
        let read = first_read(rt.alloc(), (front, back), lines)?;
        assert_eq!(rt; read, "");
    }
    Ok(())
}

#[test]
fn reads_bytes(rt: HostRuntime) -> Result<(), Fail> {
    for &(body, wanted) in BYTES.as_slice() {
        let found = shown(rt.alloc(), body)?;
        assert_eq!(rt; found.as_str(), wanted);
    }
    Ok(())
}

#[test]
fn writes_replies(rt: HostRuntime) -> Result<(), Fail> {
    for &(page, wanted) in REPLIES.as_slice() {
        let reply = reply(rt.alloc(), page)?;
        let found = written(rt.alloc(), &reply)?;
        assert_eq!(rt; found.as_str(), wanted);
    }
    Ok(())
}
