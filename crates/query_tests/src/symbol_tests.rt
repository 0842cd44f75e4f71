//! Texts, and what their tokens are to the grammar: a text a line, and behind an arrow its symbols, or why it is refused.

use crate::showing::{repeated, shown_fault};
use sparql_read::symbols;
use sparql_tree::{Shape, Symbol};
use std::alloc::{AllocError, Global};
use std::test::Fail;

/// Words.
const WORDS: &str =
    "sElEcT DiStInCt rEdUcEd wHeRe gRoUp bY hAvInG oRdEr aSc dEsC lImIt oFfSeT => Select Distinct Reduced Where Group By Having Order Asc Desc Limit Offset
oPtIoNaL mInUs fIlTeR bInD aS vAlUeS uNdEf uNiOn nOt iN => Optional Without Filter Bind As Values Undef Union Not In
bOuNd sAmEtErM iSiRi iSuRi iSbLaNk iSlItErAl => Function(Bound) Function(SameTerm) Function(IsIri) Function(IsIri) Function(IsBlank) Function(IsLiteral)
iSnUmErIc iF cOaLeScE sTr lAnG dAtAtYpE => Function(IsNumeric) Function(If) Function(Coalesce) Function(Str) Function(Lang) Function(Datatype)
sTrLeN sTrStArTs sTrEnDs cOnTaInS cOnCaT aBs => Function(StrLen) Function(StrStarts) Function(StrEnds) Function(Contains) Function(Concat) Function(Abs)
cOuNt sUm aVg mIn mAx => Aggregate(Count) Aggregate(Sum) Aggregate(Avg) Aggregate(Min) Aggregate(Max)
true FALSE tRuE => Boolean=true Boolean=false Boolean=true
a A => IsA Other
SELECTx SELECT_ SELEC => Other Other Other
x PREFIX prefix ASC1 => Other Other Other Other
aa aS a1 => Other As Other";

/// Signs.
const SIGNS: &str = "{ } ( ) . , ; ^^ => OpenBrace CloseBrace Open Close Point Comma Semicolon Typed
= != < > <= >= ! => Equal Unequal Less Greater AtMost AtLeast Bang
+ - * / && || => Plus Minus Star Slash And Or
| ^ ? => Other Other Other
SELECT?x{?x<http://e/p>\"a\"} => Select Var=x OpenBrace Var=x Iri=http://e/p Quoted=a CloseBrace
?a<?b&&?c>?d => Var=a Other Var=d
?a<5 &&?b>=-1 => Var=a Less Integer=5 And Var=b AtLeast Minus Integer=1";

/// Strings.
const STRINGS: &str = "\"\" => Quoted
'' => Quoted
\"\"\"\"\"\" => Quoted
'''''' => Quoted
\"a\" => Quoted=a
'a\"b' => Quoted=a\"b
\"a'b\" => Quoted=a'b
\"\\u0041\" => Quoted=A
\"\\U0001F600\" => Quoted=😀
\"x\\u00e9\\u00E9y\" => Quoted=xééy
\"\\U0010FFFF\" => Quoted=􏿿
\"\\u0041B\" => Quoted=AB
\"é😀\" => Quoted=é😀
\"#a\" => Quoted=#a
\"\"\"a\"b\"\"c\"\"\" => Quoted=a\"b\"\"c
'''a'b''c''' => Quoted=a'b''c
\"\"\"a\\\"\"\"\" => Quoted=a\"
\"\"\"\\u0022\"\"\" => Quoted=\"
\"\"\"\"a\"\"\" => Quoted=\"a
\"\"\"'''\"\"\" => Quoted='''
\"\"\"abc\" => Quoted Quoted=abc
'\\'\\\\' => Quoted='\\
\"\\\\u0041\" => Quoted=\\u0041
\"a%41\\u002541\" => Quoted=a%41%41
\"ASK [\" => Quoted=ASK [";

/// Tags, numbers, labels and variables.
const TAGS: &str = "\"a\"@EN => Quoted=a Tag=en
@de-AT-1996 => Tag=de-at-1996
007 => Integer=007
1.50 => Decimal=1.50
.5 => Decimal=.5
7. => Integer=7 Point
-5 => Minus Integer=5
?x $y => Var=x Var=y
?é1 => Var=é1
?o.5 => Var=o Decimal=.5
?ASK => Var=ASK
_:b => Blank=b
_:a.b. => Blank=a.b Point
_:1é => Blank=1é";

/// IRIs.
const IRIS: &str = "<http://e/a> => Iri=http://e/a
<\\u0061:b> => Iri=a:b
<a\\u003Ab> => Iri=a:b
<http://e/\\u00e9> => Iri=http://e/é
<http://e/\\U0001F600> => Iri=http://e/😀
<http://e/%41> => Iri=http://e/%41
<x> => Other
<> => Other
<:a> => Other
<1a:b> => Other
<a/b:c> => Other
<é:b> => Other
<a+b-c.1:> => Iri=a+b-c.1:
<a:é> => Iri=a:é
<a:ASK> => Iri=a:ASK";

/// Names with prefixes.
const NAMES: &str = "p:a => Other
:a => Other
: => Other
p: => Other
PREFIX p:<http://e/> p:a => Iri=http://e/a
PREFIX p:<http://e/> p: => Iri=http://e/
PREFIX p:<http://e/> P:a => Other
PREFIX p:<http://e/> :a => Other
PREFIX p:<http://e/> pp:a q:b => Other Other
PREFIX :<http://e/> :a : p:a => Iri=http://e/a Iri=http://e/ Other
PREFIX p:<http://e/> p:a\\-b => Iri=http://e/a-b
PREFIX p:<http://e/> p:\\~x\\. => Iri=http://e/~x.
PREFIX p:<http://e/> p:a\\%41 => Iri=http://e/a%41
PREFIX p:<http://e/> p:%41 => Iri=http://e/%41
PREFIX p:<http://e/> p:%e9\\_ => Iri=http://e/%e9_
PREFIX p:<http://e/> p:a.b. => Iri=http://e/a.b Point
PREFIX p:<http://e/> p:a:b => Iri=http://e/a:b
PREFIX p:<http://e/> p:1 => Iri=http://e/1
PREFIX p:<http://e/> p:é => Iri=http://e/é
PREFIX p:<http://e/> p:\\@\\\\ => !lex 25
PREFIX p:<http://e/> p:\\@ => Iri=http://e/@
PREFIX é:<http://é/> é:x => Iri=http://é/x
PREFIX a.b:<http://e/> a.b:c => Iri=http://e/c
PREFIX a:<http://e/> a a:b => IsA Iri=http://e/b";

/// Prologues.
const PROLOGUES: &str = "pReFiX p:<http://e/>p:a => Iri=http://e/a
PREFIX p:<http://1/> PREFIX p:<http://2/> p:a => Iri=http://2/a
PREFIX p:<http://1/> PREFIX q:<http://2/> p:a q:b => Iri=http://1/a Iri=http://2/b
PREFIX p:<http://1/> PREFIX q:<http://2/> PREFIX p:<http://3/> q:b p:a => Iri=http://2/b Iri=http://3/a
PREFIX p:<\\u0061:b> p:c => Iri=a:bc
PREFIX p:a <http://e/> => Other Other Iri=http://e/
PREFIX p:q:<http://e/> => Other Other Iri=http://e/
PREFIX p:<x> p:a => Other Other Other Other
PREFIX p:<x> PREFIX q:<http://e/> q:a => Other Other Other Other Other Iri=http://e/ Other
PREFIX q:<http://e/> PREFIX p:<x> q:a => Other Other Other Iri=http://e/a
SELECT PREFIX p:<http://e/> p:a => Select Other Other Iri=http://e/ Other
PREFIX p: PREFIX q:<http://e/> => Other Other Other Other Iri=http://e/
PREFIX => Other
PREFIX p: => Other Other
PREFIX <http://e/> => Other Iri=http://e/
PREFIX p <http://e/> => Other Other Iri=http://e/
PREFIX p:\"http://e/\" => Other Other Quoted=http://e/
PREFIX p:<http://e/> PREFIX => Other
PREFIX p:<http://e/> PREFIX q: => Other Other
PREFIX p:<http://e/> PREFIX q: 1 => Other Other Integer=1
p:<http://e/> PREFIX p:<http://e/> => Other Iri=http://e/ Other Other Iri=http://e/
PREFIX p:<http://e/> SELECT * { p:s a p:O } => Select Star OpenBrace Iri=http://e/s IsA Iri=http://e/O CloseBrace";

/// Words of the language that are not answered.
const NO_WORDS: &str = "aSk => !what aSk
bAsE => !what bAsE
bNoDe => !what bNoDe
cEiL => !what cEiL
cLeAr => !what cLeAr
cOnStRuCt => !what cOnStRuCt
cReAtE => !what cReAtE
dAy => !what dAy
dElEtE => !what dElEtE
dEsCrIbE => !what dEsCrIbE
dRoP => !what dRoP
eNcOdE_FoR_UrI => !what eNcOdE_FoR_UrI
eXiStS => !what eXiStS
fLoOr => !what fLoOr
fRoM => !what fRoM
gRaPh => !what gRaPh
gRoUp_cOnCaT => !what gRoUp_cOnCaT
hOuRs => !what hOuRs
iNsErT => !what iNsErT
iRi => !what iRi
lAnGmAtChEs => !what lAnGmAtChEs
lCaSe => !what lCaSe
lOaD => !what lOaD
mD5 => !what mD5
mInUtEs => !what mInUtEs
mOnTh => !what mOnTh
nAmEd => !what nAmEd
nOw => !what nOw
rAnD => !what rAnD
rEgEx => !what rEgEx
rEpLaCe => !what rEpLaCe
rOuNd => !what rOuNd
sAmPlE => !what sAmPlE
sEcOnDs => !what sEcOnDs
sErViCe => !what sErViCe
sHa1 => !what sHa1
sHa256 => !what sHa256
sHa384 => !what sHa384
sHa512 => !what sHa512
sTrAfTeR => !what sTrAfTeR
sTrBeFoRe => !what sTrBeFoRe
sTrDt => !what sTrDt
sTrLaNg => !what sTrLaNg
sTrUuId => !what sTrUuId
sUbStR => !what sUbStR
tImEzOnE => !what tImEzOnE
tZ => !what tZ
uCaSe => !what uCaSe
uRi => !what uRi
uUiD => !what uUiD
yEaR => !what yEaR";

/// The first token that is not answered.
const FIRSTS: &str = "SELECT ?x { SERVICE <a:b> { ?x GRAPH ?y } } => !what SERVICE
ASK DESCRIBE => !what ASK
[ ASK => !what [
ASK [ => !what ASK
?x ] => !what ]
[] => !what [
1e0 => !what 1e0
.5E-3 => !what .5E-3
1.e5 => !what 1.e5
SELECT * { { SELECT ?x {} } } => !what SELECT
select seLEct => !what seLEct
SELECT => Select
SELECTx SELECT => Other Select
BASE <http://e/> PREFIX p:<http://e/> p:a => !what BASE
PREFIX p:<http://e/> FROM <http://e/> => !what FROM
PREFIX p: [ <http://e/> => !what [
PREFIX 1e0 => !what 1e0
PREFIX ASK:<http://e/> ASK:a => Iri=http://e/a
_:ASK ?ASK => Blank=ASK Var=ASK
EXISTS NOT => !what EXISTS
NOT EXISTS => !what EXISTS
GROUP_CONCAT(?x) => !what GROUP_CONCAT
DAYS ASK_ IRI1 => Other Other Other";

/// Numbers at their bounds.
const NUMBERS: &str =
    "170141183460469231731687303715884105727 => Integer=170141183460469231731687303715884105727
170141183460469231731687303715884105728 => !what 170141183460469231731687303715884105728
-170141183460469231731687303715884105728 => !what 170141183460469231731687303715884105728
170141183460469231731687303715884105727.0 => Decimal=170141183460469231731687303715884105727.0
170141183460469231731687303715884105728.0 => !what 170141183460469231731687303715884105728.0
0.123456789012345678 => Decimal=0.123456789012345678
0.1234567890123456789 => !what 0.1234567890123456789
1.0000000000000000000 => Decimal=1.0000000000000000000
LIMIT 18446744073709551615 => Limit Integer=18446744073709551615
LIMIT 18446744073709551616 => !what 18446744073709551616
offset 18446744073709551615 => Offset Integer=18446744073709551615
offset 18446744073709551616 => !what 18446744073709551616
LIMIT 0018446744073709551615 => Limit Integer=0018446744073709551615
LIMIT(18446744073709551616 => Limit Open Integer=18446744073709551616
LIMIT 1 18446744073709551616 => Limit Integer=1 Integer=18446744073709551616
LIMIT 1 OFFSET 18446744073709551616 => !what 18446744073709551616
LIMITS 18446744073709551616 => Other Integer=18446744073709551616
18446744073709551616 LIMIT => Integer=18446744073709551616 Limit
LIMIT 18446744073709551616.0 => Limit Decimal=18446744073709551616.0";

/// Causes in order.
const ORDER: &str = "ASK ~ => !lex 4
~ => !lex 0
?é ~ => !lex 4
1e0 \"a => !lex 4
SELECT ?x { ?x ?y 'a => !lex 18";

/// Texts of several lines, and those without symbols.
const OTHERS: [(&[u8], &str); 6] = [
    (b"", ""),
    (
        b"\"\\t\\b\\n\\r\\f\\\"\\'\\\\\"",
        "Quoted=\t\u{8}\n\r\u{c}\"'\\",
    ),
    (b"\"\"\"a\nb\"\"\"", "Quoted=a\nb"),
    (b"PREFIX p:<http://e/> ", ""),
    (b"PREFIX p:<http://e/#> # p:b\np:a", "Iri=http://e/#a"),
    (b"# ASK\n?x", "Var=x"),
];

/// Texts of a front, of a piece so often, and of what stands behind, and the start of what is shown.
const REFUSED: [(&[u8], u32, &[u8], &[u8], &str); 19] = [
    (b"", 257, b"{", b"", "!nesting"),
    (b"", 257, b"(", b"", "!nesting"),
    (b"(", 256, b"{", b"", "!nesting"),
    (b"", 257, b"(", b"))))", "!nesting"),
    (b"}", 257, b"(", b"", "!nesting"),
    (b"", 300, b"{", b"ASK", "!what ASK"),
    (b"", 300, b"{", b"~", "!lex 300"),
    (b"ASK", 300, b"{", b"~", "!lex 303"),
    (b"1e0", 300, b"{", b"", "!what 1e0"),
    (b"", 262_144, b" ", b"", ""),
    (b"", 262_145, b" ", b"", "!text"),
    (b"", 262_144, b" ", b"~", "!text"),
    (b"\xff", 262_144, b" ", b"", "!text"),
    (b"ASK", 262_142, b" ", b"", "!text"),
    (b"ASK", 262_141, b" ", b"", "!what ASK"),
    (b"", 0, b"", b"\xff", "!lex 0"),
    (b"", 0, b"", b"ASK \xc3", "!lex 4"),
    (b"", 0, b"", b"~\xff", "!lex 1"),
    (b"", 1000, b"(){}", b"ASK", "!what ASK"),
];

/// The same, and how many symbols they have.
const COUNTED: [(&[u8], u32, &[u8], &[u8], &str); 9] = [
    (b"", 256, b"{", b"", "256"),
    (b"", 128, b"({", b"", "256"),
    (b")", 256, b"(", b"", "257"),
    (b"))))", 256, b"{", b"", "260"),
    (b"", 1000, b"(}", b"", "2000"),
    (b"", 1000, b"{{)}", b"", "4000"),
    (b"", 262_144, b"<", b"", "262144"),
    (b"", 65_536, b"AS? ", b"", "131072"),
    (b"PREFIX p:<a:> ", 65_532, b"p:x ", b"", "65532"),
];

/// The symbols, each as its shape with its value behind `=`, if it has one.
fn shown_symbols(alloc: Global, symbols: &[Symbol]) -> Result<String, AllocError> {
    let mut shown = String::new(alloc);
    for symbol in symbols {
        if !shown.is_empty() {
            shown.push(' ')?;
        }
        let shape: Shape = symbol.shape;
        let part = format!(in alloc; "{shape:?}")?;
        shown.push_str(part.as_str())?;
        if !symbol.value.bytes().is_empty() {
            shown.push('=')?;
            shown.push_str(symbol.value.as_str())?;
        }
    }
    Ok(shown)
}

fn shown(alloc: Global, text: &[u8]) -> Result<String, AllocError> {
    match symbols(alloc, text) {
        Ok(found) => shown_symbols(alloc, found.as_slice()),
        Err(fault) => shown_fault(alloc, fault),
    }
}

/// The first line whose text has other symbols, with those; else nothing.
fn first_other(alloc: Global, lines: &str) -> Result<String, AllocError> {
    for line in lines.lines() {
        let (text, wanted) = line.split_once(" => ").unwrap_or((line, ""));
        let found = shown(alloc, text.as_bytes())?;
        if found.as_str() != wanted {
            return format!(in alloc; "{line} but {}", found.as_str());
        }
    }
    String::from_str(alloc, "")
}

fn counted(alloc: Global, text: &[u8]) -> Result<String, AllocError> {
    match symbols(alloc, text) {
        Ok(found) => {
            let count = found.len();
            format!(in alloc; "{count}")
        }
        Err(fault) => shown_fault(alloc, fault),
    }
}

#[test]
fn reads_words_without_case(rt: HostRuntime) -> Result<(), Fail> {
    let other = first_other(rt.alloc(), WORDS)?;
    assert_eq!(rt; other.as_str(), "");
    Ok(())
}

#[test]
fn reads_signs(rt: HostRuntime) -> Result<(), Fail> {
    let other = first_other(rt.alloc(), SIGNS)?;
    assert_eq!(rt; other.as_str(), "");
    Ok(())
}

#[test]
fn reads_strings(rt: HostRuntime) -> Result<(), Fail> {
    let other = first_other(rt.alloc(), STRINGS)?;
    assert_eq!(rt; other.as_str(), "");
    Ok(())
}

#[test]
fn reads_tags_numbers_names(rt: HostRuntime) -> Result<(), Fail> {
    let other = first_other(rt.alloc(), TAGS)?;
    assert_eq!(rt; other.as_str(), "");
    Ok(())
}

#[test]
fn reads_iris(rt: HostRuntime) -> Result<(), Fail> {
    let other = first_other(rt.alloc(), IRIS)?;
    assert_eq!(rt; other.as_str(), "");
    Ok(())
}

#[test]
fn reads_names(rt: HostRuntime) -> Result<(), Fail> {
    let other = first_other(rt.alloc(), NAMES)?;
    assert_eq!(rt; other.as_str(), "");
    Ok(())
}

#[test]
fn reads_prologues(rt: HostRuntime) -> Result<(), Fail> {
    let other = first_other(rt.alloc(), PROLOGUES)?;
    assert_eq!(rt; other.as_str(), "");
    Ok(())
}

#[test]
fn names_words_that_are_not_answered(rt: HostRuntime) -> Result<(), Fail> {
    let other = first_other(rt.alloc(), NO_WORDS)?;
    assert_eq!(rt; other.as_str(), "");
    Ok(())
}

#[test]
fn names_the_first_that_is_not_answered(rt: HostRuntime) -> Result<(), Fail> {
    let other = first_other(rt.alloc(), FIRSTS)?;
    assert_eq!(rt; other.as_str(), "");
    Ok(())
}

#[test]
fn reads_numbers_within_bounds(rt: HostRuntime) -> Result<(), Fail> {
    let other = first_other(rt.alloc(), NUMBERS)?;
    assert_eq!(rt; other.as_str(), "");
    Ok(())
}

#[test]
fn refuses_in_order(rt: HostRuntime) -> Result<(), Fail> {
    let other = first_other(rt.alloc(), ORDER)?;
    assert_eq!(rt; other.as_str(), "");
    Ok(())
}

#[test]
fn reads_other_texts(rt: HostRuntime) -> Result<(), Fail> {
    for &(text, wanted) in OTHERS.as_slice() {
        let found = shown(rt.alloc(), text)?;
        assert_eq!(rt; found.as_str(), wanted, "{text:?}");
    }
    Ok(())
}

#[test]
fn refuses_at_the_limits(rt: HostRuntime) -> Result<(), Fail> {
    for &(front, times, piece, behind, wanted) in REFUSED.as_slice() {
        let text = repeated(rt.alloc(), front, times, piece, behind)?;
        let found = shown(rt.alloc(), text.as_slice())?;
        assert_eq!(rt; found.as_str(), wanted, "{piece:?}");
    }
    Ok(())
}

#[test]
fn accepts_at_the_limits(rt: HostRuntime) -> Result<(), Fail> {
    for &(front, times, piece, behind, wanted) in COUNTED.as_slice() {
        let text = repeated(rt.alloc(), front, times, piece, behind)?;
        let found = counted(rt.alloc(), text.as_slice())?;
        assert_eq!(rt; found.as_str(), wanted, "{piece:?}");
    }
    Ok(())
}
