//! Each text of `moment_cases.rt` read, and moments as terms: equality, and the order of keys.

use crate::moment_cases::TEXTS;
use crate::terms::term;
use expr_value::{NoValue, equal, order_keys};
use std::alloc::Global;
use std::cmp::Ordering;
use std::test::Fail;
use term_core::{Memory, Term};
use xsd_time::{Moment, cmp, read};

/// A line of the table.
#[derive(Clone, Copy)]
struct Case<'a> {
    datatype: &'a str,
    text: &'a str,
    kind: &'a str,
    number: &'a str,
}

/// The case of a line.
fn case_of(line: &str) -> Case<'_> {
    let mut fields = line.split('|');
    Case {
        datatype: fields.next().unwrap_or(""),
        text: fields.next().unwrap_or(""),
        kind: fields.next().unwrap_or(""),
        number: fields.next().unwrap_or(""),
    }
}

/// The IRI of a datatype of XML Schema.
fn iri(name: &str) -> &'static str {
    match name {
        "date" => "http://www.w3.org/2001/XMLSchema#date",
        "dateTime" => "http://www.w3.org/2001/XMLSchema#dateTime",
        "dateTimeStamp" => "http://www.w3.org/2001/XMLSchema#dateTimeStamp",
        "gYear" => "http://www.w3.org/2001/XMLSchema#gYear",
        "time" => "http://www.w3.org/2001/XMLSchema#time",
        _ => "http://www.w3.org/2001/XMLSchema#string",
    }
}

/// The kind and the number of a moment.
fn kind_and_number(moment: Option<Moment>) -> (&'static str, i128) {
    match moment {
        Some(Moment::Instant { nanos }) => ("I", nanos),
        Some(Moment::Local { nanos }) => ("L", nanos),
        Some(Moment::Day { day }) => ("D", day as i128),
        None => ("-", 0),
    }
}

#[test]
fn each_text_reads_as_its_moment(rt: HostRuntime) -> Result<(), Fail> {
    let mut count = 0u64;
    for line in TEXTS.lines() {
        let case = case_of(line);
        let moment = read(case.text.as_bytes(), iri(case.datatype).as_bytes());
        let wanted = (case.kind, case.number.parse::<i128>().unwrap_or(1));
        assert_eq!(rt; kind_and_number(moment), wanted, "{line}");
        count = count.saturating_add(1);
    }
    assert!(rt; count >= 120);
    Ok(())
}

#[test]
fn moments_of_two_kinds_have_no_order(rt: HostRuntime) -> Result<(), Fail> {
    let (instant, local) = (Moment::Instant { nanos: 1 }, Moment::Local { nanos: 1 });
    assert_eq!(rt;
        (cmp(instant, local), cmp(local, Moment::Day { day: 1 })),
        (None, None)
    );
    assert_eq!(rt;
        cmp(instant, Moment::Instant { nanos: 2 }),
        Some(Ordering::Less)
    );
    Ok(())
}

/// Two literals a line, each its datatype and its text, and whether they are equal: `t`, `f`, or `e`
/// where it is not known.
const PAIRS: &str = "dateTime|2024-03-01T00:00:00Z|dateTime|2024-02-29T23:00:00-01:00|t
dateTime|2024-03-01T00:00:00|dateTime|2024-02-29T23:00:00-01:00|e
dateTime|2024-03-01T00:00:00|dateTime|2024-03-01T00:00:00Z|e
dateTime|2024-03-01T00:00:00|dateTime|2024-03-01T00:00:00.0|t
dateTime|2024-03-01T00:00:00Z|dateTime|2024-03-01T00:00:01Z|f
date|2024-03-01|date|2024-03-01|t
date|2024-03-01|date|2024-03-02|f
date|2024-03-01|dateTime|2024-03-01T00:00:00|e
date|2023-02-29|date|2023-02-29|t
date|2023-02-29|date|2023-03-01|e
date|2024-03-01Z|date|2024-03-01|e
date|2024-03-01|string|2024-03-01|e";

/// The letter of an equality.
fn letter(equal: Result<bool, NoValue>) -> &'static str {
    match equal {
        Ok(true) => "t",
        Ok(false) => "f",
        Err(_) => "e",
    }
}

/// The letter of the equality of the two literals of a line, and the one that it gives.
fn letters(alloc: Global, line: &str) -> Result<(&'static str, &str), Memory> {
    let mut fields = line.split('|');
    let (kind, text) = (fields.next().unwrap_or(""), fields.next().unwrap_or(""));
    let a = term(alloc, kind, text)?;
    let (kind, text) = (fields.next().unwrap_or(""), fields.next().unwrap_or(""));
    let b = term(alloc, kind, text)?;
    Ok((letter(equal(&a, &b)), fields.next().unwrap_or("")))
}

#[test]
fn spellings_of_one_moment_are_equal(rt: HostRuntime) -> Result<(), Fail> {
    for line in PAIRS.lines() {
        let (found, wanted) = letters(rt.alloc(), line)?;
        assert_eq!(rt; found, wanted, "{line}");
    }
    Ok(())
}

/// Literals in the order of keys, a line each: its datatype and its text.
const KEYS: &str = "integer|5
dateTime|2023-12-31T23:59:59Z
dateTime|2023-12-31T20:00:00-05:00
dateTime|2023-06-30T00:00:00
date|2024-01-01
date|2023-02-29";

/// The literal of a line.
fn literal(alloc: Global, line: &str) -> Result<Term, Memory> {
    let (kind, text) = line.split_once('|').unwrap_or(("", ""));
    term(alloc, kind, text)
}

/// The order of the literals of two lines as keys.
fn order_of_lines(alloc: Global, left: &str, right: &str) -> Result<Ordering, Memory> {
    let a = literal(alloc, left)?;
    let b = literal(alloc, right)?;
    Ok(order_keys(Some(&a), Some(&b)))
}

#[test]
fn moments_stand_in_the_order_of_keys(rt: HostRuntime) -> Result<(), Fail> {
    for (i, left) in KEYS.lines().enumerate() {
        for (k, right) in KEYS.lines().enumerate() {
            let found = order_of_lines(rt.alloc(), left, right)?;
            assert_eq!(rt; found, i.cmp(&k), "{left} {right}");
        }
    }
    Ok(())
}
