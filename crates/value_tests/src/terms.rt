//! Each term of `cases.rt` against each: its class, its truth, equality, less and the order of keys.

use crate::cases::CASES;
use expr_value::{
    NoValue, Value, compare_values, equal, equal_terms, less, order_keys, truth, truth_of_value,
    value_of,
};
use std::alloc::Global;
use std::cmp::Ordering;
use std::test::Fail;
use term_core::{Memory, Term, Text};
use xsd_time::Moment;

/// A line of the table.
#[derive(Clone, Copy)]
struct Case<'a> {
    kind: &'a str,
    text: &'a str,
    class: &'a str,
    truth: &'a str,
    relations: &'a str,
}

/// The case of a line.
fn case_of(line: &str) -> Case<'_> {
    let mut fields = line.split('|');
    Case {
        kind: fields.next().unwrap_or(""),
        text: fields.next().unwrap_or(""),
        class: fields.next().unwrap_or(""),
        truth: fields.next().unwrap_or(""),
        relations: fields.next().unwrap_or(""),
    }
}

/// The IRI of a datatype: of one of XML Schema by its name.
fn datatype(alloc: Global, name: &str) -> Result<Text, Memory> {
    if name.starts_with("http:") {
        Text::from_str(alloc, name)
    } else {
        let iri = format!(in alloc; "http://www.w3.org/2001/XMLSchema#{name}")?;
        Ok(Text::from_string(iri))
    }
}

/// A literal with a datatype.
fn typed(alloc: Global, text: &str, name: &str) -> Result<Term, Memory> {
    let datatype = datatype(alloc, name)?;
    let lexical = Text::from_str(alloc, text)?;
    Term::typed(alloc, lexical, datatype)
}

/// A literal with a tag.
fn tagged(alloc: Global, text: &str, tag: &str) -> Result<Term, Memory> {
    let lang = Text::from_str(alloc, tag)?;
    let lexical = Text::from_str(alloc, text)?;
    Term::tagged(alloc, lexical, lang)
}

/// The term of a kind and a text.
pub fn term(alloc: Global, kind: &str, text: &str) -> Result<Term, Memory> {
    match kind {
        "blank" => Ok(Term::Blank(Text::from_str(alloc, text)?)),
        "iri" => Ok(Term::Iri(Text::from_str(alloc, text)?)),
        _ => match kind.strip_prefix('@') {
            Some(tag) => tagged(alloc, text, tag),
            None => typed(alloc, text, kind),
        },
    }
}

/// The letter of a class.
fn class_letter(value: &Value) -> &'static str {
    match value {
        Value::Resource => "R",
        Value::Numeric(_) => "N",
        Value::WideNumber => "W",
        Value::Logical(_) => "L",
        Value::IllFormed => "I",
        Value::Simple(_) => "S",
        Value::Temporal(Moment::Instant { .. }) => "M",
        Value::Temporal(Moment::Local { .. }) => "C",
        Value::Temporal(Moment::Day { .. }) => "D",
        Value::Tagged { .. } => "T",
        Value::Opaque => "O",
    }
}

/// The letter of a truth.
fn truth_letter(truth: Result<bool, NoValue>) -> &'static str {
    match truth {
        Ok(true) => "t",
        Ok(false) => "f",
        Err(_) => "e",
    }
}

/// The class and the truth of a term, and the truth of its value.
fn letters(
    alloc: Global,
    case: Case,
) -> Result<(&'static str, &'static str, &'static str), Memory> {
    let term = term(alloc, case.kind, case.text)?;
    let value = value_of(&term);
    Ok((
        class_letter(&value),
        truth_letter(truth(&term)),
        truth_letter(truth_of_value(&value)),
    ))
}

#[test]
fn each_term_has_its_class_and_truth(rt: HostRuntime) -> Result<(), Fail> {
    let mut count = 0u64;
    for line in CASES.lines() {
        let case = case_of(line);
        let found = letters(rt.alloc(), case)?;
        assert_eq!(rt; found, (case.class, case.truth, case.truth), "{line}");
        count = count.saturating_add(1);
    }
    assert!(rt; count > 90);
    Ok(())
}

/// The sign of what is answered to `a = b`, `a < b` and `b < a`.
fn sign(
    equal: Result<bool, NoValue>,
    less: Result<bool, NoValue>,
    greater: Result<bool, NoValue>,
) -> u8 {
    match (equal, less, greater) {
        (Ok(false), Ok(true), Ok(false)) => b'<',
        (Ok(true), Ok(false), Ok(false)) => b'=',
        (Ok(false), Ok(false), Ok(true)) => b'>',
        (Ok(true), Err(_), Err(_)) => b's',
        (Ok(false), Err(_), Err(_)) => b'x',
        (Err(_), Err(_), Err(_)) => b'e',
        _ => b'?',
    }
}

/// The sign of two terms, from their values.
fn sign_by_values(a: &Term, b: &Term) -> u8 {
    let order = compare_values(&value_of(a), &value_of(b));
    let is_less = order.map(Ordering::is_lt).ok_or(NoValue);
    let is_greater = order.map(Ordering::is_gt).ok_or(NoValue);
    sign(equal_terms(order, a, b), is_less, is_greater)
}

/// The sign of two terms, the same from their values, and their order as keys.
fn signs(alloc: Global, left: Case, right: Case) -> Result<(u8, u8, Ordering), Memory> {
    let a = term(alloc, left.kind, left.text)?;
    let b = term(alloc, right.kind, right.text)?;
    Ok((
        sign(equal(&a, &b), less(&a, &b), less(&b, &a)),
        sign_by_values(&a, &b),
        order_keys(Some(&a), Some(&b)),
    ))
}

/// The sign that a line gives for the term of another.
fn wanted_sign(case: Case, place: usize) -> u8 {
    case.relations
        .as_bytes()
        .get(place)
        .copied()
        .unwrap_or(b'?')
}

/// The order of the keys of two lines: equal terms tie, and else the first line is first.
fn wanted_order(sign: u8, left: usize, right: usize) -> Ordering {
    match sign {
        b'=' | b's' => Ordering::Equal,
        _ => left.cmp(&right),
    }
}

#[test]
fn each_term_against_each(rt: HostRuntime) -> Result<(), Fail> {
    for (i, left) in CASES.lines().enumerate() {
        for (k, right) in CASES.lines().enumerate() {
            let sign = wanted_sign(case_of(left), k);
            let wanted = (sign, sign, wanted_order(sign, i, k));
            let found = signs(rt.alloc(), case_of(left), case_of(right))?;
            assert_eq!(rt; found, wanted, "{left} {right}");
        }
    }
    Ok(())
}

/// The order of an unbound key and a term's, either way.
fn against_unbound(alloc: Global, case: Case) -> Result<(Ordering, Ordering), Memory> {
    let term = term(alloc, case.kind, case.text)?;
    Ok((order_keys(None, Some(&term)), order_keys(Some(&term), None)))
}

#[test]
fn an_unbound_key_is_first(rt: HostRuntime) -> Result<(), Fail> {
    assert_eq!(rt; order_keys(None, None), Ordering::Equal);
    for line in CASES.lines() {
        let found = against_unbound(rt.alloc(), case_of(line))?;
        assert_eq!(rt; found, (Ordering::Less, Ordering::Greater), "{line}");
    }
    Ok(())
}
