//! Texts, and their tokens: a text a line, and behind an arrow its tokens, or the byte where none begins.

use crate::showing::repeated;
use sparql_lex::{LexFault, tokens};
use std::alloc::{AllocError, Global};
use std::test::Fail;
use term_core::{Kind, Token};

/// IRIs and signs.
const IRIS_AND_SIGNS: &str =
    "SELECT ?x{?x<http://e/p>\"a\"} => W0-6 V7-9 +9-10 V10-12 I12-24 S24-27 +27-28
?a<?b => V0-2 +2-3 V3-5
?a <b> => V0-2 I3-6
<a b => +0-1 W1-2 W3-4
<= => +0-2
< => +0-1
<> => I0-2
<=> => I0-3
<= > => +0-2 +3-4
<<a> => +0-1 I1-4
?a<=?b => V0-2 +2-4 V4-6
?a<?b&&?c>?d => V0-2 I2-10 V10-12
<a\\u00e9> => I0-9
<a\\U0001F600> => I0-13
<a\\u0020> => !2
<a\\uD800> => !2
<a\\U00110000> => !2
<\\u0061:b> => I0-10
<\\n> => !1
<a#b> => I0-5
<é>x => I0-4 W4-5
<a^b> => +0-1 W1-2 +2-3 W3-4 +4-5
^^ => +0-2
^ => +0-1
^^^ => +0-2 +2-3
&& => +0-2
& => !0
|| => +0-2
| => +0-1
!= => +0-2
! => +0-1
>= => +0-2
> => +0-1
== => +0-1 +1-2
{}()[].,;=>!+-*/|^?< => +0-1 +1-2 +2-3 +3-4 +4-5 +5-6 +6-7 +7-8 +8-9 +9-10 +10-11 +11-12 +12-13 +13-14 +14-15 +15-16 +16-17 +17-18 +18-19 +19-20
~ => !0
a` => !1
\\ => !0
$ => !0
% => !0";

/// Strings.
const STRINGS: &str = "\"\" => S0-2
'' => S0-2
\"a'b\" => S0-5
'a\"b' => S0-5
\"a => !0
' => !0
\"\\\"\" => S0-4
\"\\u0041\\n\\'\\\\\" => S0-14
\"\\q\" => !0
\"\\uD800\" => !0
\"\\U0010FFFF\" => S0-12
\"\\U00110000\" => !0
\"\\u004\" => !0
\"\"\"abc\"\"\" => S0-9
'''abc''' => S0-9
\"\"\"\"\"\" => S0-6
\"\"\"a\"\"\"\" => !7
\"\"\"a\"\"\"\"\" => S0-7 S7-9
\"\"\"\"a\"\"\" => S0-8
\"\"\"abc\" => S0-2 S2-7
\"\"\"a => !2
\"\"\"a\\\"\"\"\" => S0-9
\"\"\"\\\\\"\"\" => S0-8
'''a\"\"\"b''' => S0-11
\"\"\"'''\"\"\" => S0-9
\"é\"?x => S0-4 V4-6
\"😀\" ~ => !7
\"a#b\"#c => S0-5";

/// Names with prefixes.
const NAMES: &str = "a => W0-1
a1_ => W0-3
a.b => W0-1 +1-2 W2-3
a.b:c => P0-5
a.:c => W0-1 +1-2 P2-4
a-b => W0-1 +1-2 W2-3
a-b: => P0-4
: => P0-1
a: => P0-2
:a => P0-2
a:b.c => P0-5
a:b. => P0-3 +3-4
a:b..c.. => P0-6 +6-7 +7-8
a:.b => P0-2 +2-3 W3-4
a:b:c => P0-5
:1 => P0-2
:-a => P0-1 +1-2 W2-3
:%41b => P0-5
:a%4 => !2
:a%4g => !2
:a.%41 => P0-6
:\\-a => P0-4
:a\\. => P0-4
:a\\_\\~\\% => P0-8
:a\\b => !2
1a:b => i0-1 P1-4
_a:b => !0
__: => !0
é => !0
é:x => P0-4
é.x: => P0-5
﻿a:b => P0-6
﻿ => !0
aé => !1
aé: => P0-4
a.a.a.a ?b => W0-1 +1-2 W2-3 +3-4 W4-5 +5-6 W6-7 V8-10
a.b.c:d a.b => P0-7 W8-9 +9-10 W10-11
a·b:c => P0-6";

/// Labels, variables and tags.
const LABELS: &str = "_:a => B0-3
_:1 => B0-3
_:a.b => B0-5
_:a.b. . => B0-5 +5-6 +7-8
_: => !0
_:a:b => B0-3 P3-5
_:- => !0
_:.a => !0
_:a- => B0-4
_ => !0
?x => V0-2
$x => V0-2
?1 => V0-2
?_a-b => V0-3 +3-4 W4-5
?é· => V0-5
? x => +0-1 W2-3
?x?y => V0-2 V2-4
?· => !1
$‿ => !0
?x. => V0-2 +2-3
@en => L0-3
@en-GB-x => L0-8
@en- => L0-3 +3-4
@ => !0
@1 => !0
@e1 => L0-2 i2-3
@en-1a => L0-6
@en--a => L0-3 +3-4 +4-5 W5-6";

/// Numbers and comments.
const NUMBERS: &str = "1 => i0-1
007 => i0-3
1. => i0-1 +1-2
1.5 => d0-3
.5 => d0-2
1.5e3 => e0-5
1.e3 => e0-4
1e3 => e0-3
.5E-3 => e0-5
1e+3 => e0-4
1e => i0-1 W1-2
1e+ => i0-1 W1-2 +2-3
1.5e => d0-3 W3-4
1.e => i0-1 +1-2 W2-3
1.5.5 => d0-3 d3-5
?o.5 => V0-2 d2-4
. => +0-1
..5 => +0-1 d1-3
-1 => +0-1 i1-2
.e3 => +0-1 W1-3
1.. => i0-1 +1-2 +2-3
?a #<b> => V0-2
a:b#c => P0-3
é:x ~ => !5";

/// Texts of several lines, of spaces alone, and that are no UTF-8.
const OTHERS: [(&[u8], &str); 17] = [
    (b"", ""),
    (b" \t\r\n", ""),
    (b"a\0", "!1"),
    (b"\"a\nb\"", "!0"),
    (b"\"a\rb\"", "!0"),
    (b"\"\"\"a\"b\"\"c\nd\"\"\"", "S0-14"),
    (b"'''a'b''c\rd'''", "S0-14"),
    (b"#", ""),
    (b"# a ~", ""),
    (b"#a\nb", "W3-4"),
    (b"#a\rb", "W3-4"),
    (b"a#b\r\n#c\nd", "W0-1 W8-9"),
    (b"#\xc3\xa9\n~", "!4"),
    (b"\xff", "!0"),
    (b"a \xc3", "!2"),
    (b"~\xc3\x28", "!1"),
    (b"\xc3\xa9\xed\xa0\x80", "!2"),
];

/// Texts of the greatest length of a query, of one piece again and again, and how many tokens they have. A
/// reading that went to the end from each piece would not be done in the time of a test.
const LONG: [(&[u8], u32, &[u8], &str); 9] = [
    (b"", 131_072, b"a.", "262144"),
    (b"", 262_144, b"a", "1"),
    (b"", 262_144, b"<", "262144"),
    (b"", 131_072, b"<=", "131072"),
    (b":a", 131_071, b"..", "262143"),
    (b"", 65_536, b"\"a \"", "65536"),
    (b"\"\"\"", 131_070, b"a ", "!2"),
    (b"\"\"\"", 52_428, b"\\\"\"\"x", "!262141"),
    (b"#", 87_381, b"\"\"\"", "0"),
];

/// A letter for each kind.
fn letter(kind: Kind) -> char {
    match kind {
        Kind::Iri => 'I',
        Kind::PName => 'P',
        Kind::Blank => 'B',
        Kind::Var => 'V',
        Kind::String => 'S',
        Kind::Lang => 'L',
        Kind::Integer => 'i',
        Kind::Decimal => 'd',
        Kind::Double => 'e',
        Kind::Word => 'W',
        Kind::Sign => '+',
    }
}

/// The tokens as `I0-3 ..`.
fn shown_tokens(alloc: Global, found: &[Token]) -> Result<String, AllocError> {
    let mut shown = String::new(alloc);
    for token in found {
        if !shown.is_empty() {
            shown.push(' ')?;
        }
        let part = format!(in alloc; "{}{}-{}", letter(token.kind), token.from, token.to)?;
        shown.push_str(part.as_str())?;
    }
    Ok(shown)
}

fn shown_fault(alloc: Global, fault: LexFault) -> Result<String, AllocError> {
    match fault {
        LexFault::Lex { at } => format!(in alloc; "!{at}"),
        LexFault::Memory => String::from_str(alloc, "memory"),
    }
}

fn shown(alloc: Global, text: &[u8]) -> Result<String, AllocError> {
    match tokens(alloc, text) {
        Ok(found) => shown_tokens(alloc, found.as_slice()),
        Err(fault) => shown_fault(alloc, fault),
    }
}

/// The first line whose text is cut otherwise, with what it is cut into; else nothing.
fn first_other(alloc: Global, lines: &str) -> Result<String, AllocError> {
    for line in lines.lines() {
        let (text, wanted) = line.split_once(" => ").unwrap_or((line, ""));
        let found = shown(alloc, text.as_bytes())?;
        if found.as_str() != wanted {
            return format!(in alloc; "{line} but {}", found.as_str());
        }
    }
    String::from_str(alloc, "")
}

/// How many tokens a text of a piece again and again has.
fn counted(alloc: Global, front: &[u8], times: u32, piece: &[u8]) -> Result<String, AllocError> {
    let text = repeated(alloc, front, times, piece, b"")?;
    match tokens(alloc, text.as_slice()) {
        Ok(found) => {
            let count = found.len();
            format!(in alloc; "{count}")
        }
        Err(fault) => shown_fault(alloc, fault),
    }
}

#[test]
fn cuts_iris_and_signs(rt: HostRuntime) -> Result<(), Fail> {
    let other = first_other(rt.alloc(), IRIS_AND_SIGNS)?;
    assert_eq!(rt; other.as_str(), "");
    Ok(())
}

#[test]
fn cuts_strings(rt: HostRuntime) -> Result<(), Fail> {
    let other = first_other(rt.alloc(), STRINGS)?;
    assert_eq!(rt; other.as_str(), "");
    Ok(())
}

#[test]
fn cuts_names(rt: HostRuntime) -> Result<(), Fail> {
    let other = first_other(rt.alloc(), NAMES)?;
    assert_eq!(rt; other.as_str(), "");
    Ok(())
}

#[test]
fn cuts_labels_variables_and_tags(rt: HostRuntime) -> Result<(), Fail> {
    let other = first_other(rt.alloc(), LABELS)?;
    assert_eq!(rt; other.as_str(), "");
    Ok(())
}

#[test]
fn cuts_numbers_and_comments(rt: HostRuntime) -> Result<(), Fail> {
    let other = first_other(rt.alloc(), NUMBERS)?;
    assert_eq!(rt; other.as_str(), "");
    Ok(())
}

#[test]
fn cuts_other_texts(rt: HostRuntime) -> Result<(), Fail> {
    for &(text, wanted) in OTHERS.as_slice() {
        let found = shown(rt.alloc(), text)?;
        assert_eq!(rt; found.as_str(), wanted, "{text:?}");
    }
    Ok(())
}

#[test]
fn cuts_long_texts(rt: HostRuntime) -> Result<(), Fail> {
    for &(front, times, piece, wanted) in LONG.as_slice() {
        let found = counted(rt.alloc(), front, times, piece)?;
        assert_eq!(rt; found.as_str(), wanted, "{piece:?}");
    }
    Ok(())
}
