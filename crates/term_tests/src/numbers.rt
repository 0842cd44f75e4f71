//! The cases of `number_cases.rt`, whose answers `tests/exact_numbers.py` computes from the rules.

use crate::number_cases::CASES;
use std::alloc::Global;
use std::cmp::Ordering;
use std::test::Fail;
use term_core::{Memory, Term};
use xsd_num::{
    Num, NumFault, NumForm, abs, add, cmp, div, form_of, is_kept, mul, neg, read, sub, write,
};

/// `5e-1` as the decimal of numerator 5 and scale 1, `5` as the integer.
fn number(text: &str) -> Option<Num> {
    match text.split_once("e-") {
        Some((m, s)) => Some(Num::Decimal {
            m: m.parse::<i128>().ok()?,
            s: s.parse::<u8>().ok()?,
        }),
        None => Some(Num::Whole(text.parse::<i128>().ok()?)),
    }
}

/// What an operation is to answer: nothing where the text is no answer.
fn answer(text: &str) -> Option<Result<Num, NumFault>> {
    match text {
        "Range" => Some(Err(NumFault::Range)),
        "Zero" => Some(Err(NumFault::Zero)),
        _ => Some(Ok(number(text)?)),
    }
}

/// What the operation of a name answers.
fn computed(name: &str, a: Num, b: Num) -> Option<Result<Num, NumFault>> {
    if !is_kept(a) || !is_kept(b) {
        return None;
    }
    match name {
        "add" => Some(add(a, b)),
        "sub" => Some(sub(a, b)),
        "mul" => Some(mul(a, b)),
        "div" => Some(div(a, b)),
        "neg" => Some(neg(a)),
        "abs" => Some(abs(a)),
        _ => None,
    }
}

/// The sign of the order of two numbers.
fn compared(a: Num, b: Num) -> &'static str {
    if !is_kept(a) || !is_kept(b) {
        return "not kept";
    }
    match cmp(a, b) {
        Ordering::Less => "<",
        Ordering::Equal => "=",
        Ordering::Greater => ">",
    }
}

/// The IRI of a datatype of XML Schema.
fn iri(alloc: Global, local: &str) -> Result<String, Memory> {
    Ok(format!(in alloc; "http://www.w3.org/2001/XMLSchema#{local}")?)
}

/// The lexical form and the datatype of a number, with a blank between.
fn written(alloc: Global, a: Num) -> Result<String, Memory> {
    if !is_kept(a) {
        return Ok(format!(in alloc; "not kept")?);
    }
    match write(alloc, a)? {
        Term::Literal {
            lexical,
            datatype,
            ..
        } => {
            let lexical = lexical.as_str();
            let datatype = datatype.as_str();
            Ok(format!(in alloc; "{lexical} {datatype}")?)
        }
        _ => Ok(format!(in alloc; "no literal")?),
    }
}

/// The name of what a literal is as a number.
fn form_name(form: NumForm) -> &'static str {
    match form {
        NumForm::Exact(_) => "exact",
        NumForm::Wide => "wide",
        NumForm::Outside => "outside",
        NumForm::Other => "other",
    }
}

/// Whether a lexical form of a type reads as that number.
fn is_read(alloc: Global, local: &str, lexical: &str, wanted: &str) -> Result<bool, Memory> {
    let datatype = iri(alloc, local)?;
    Ok(read(lexical.as_bytes(), datatype.as_str().as_bytes()) == number(wanted))
}

/// Whether a lexical form of a type is such a number.
fn has_form(alloc: Global, local: &str, lexical: &str, wanted: &str) -> Result<bool, Memory> {
    let datatype = iri(alloc, local)?;
    Ok(form_name(form_of(lexical.as_bytes(), datatype.as_str().as_bytes())) == wanted)
}

/// Whether a number is written with that type's IRI.
fn is_written(alloc: Global, first: &str, local: &str, wanted: &str) -> Result<bool, Memory> {
    let datatype = iri(alloc, local)?;
    let datatype = datatype.as_str();
    let whole = format!(in alloc; "{wanted} {datatype}")?;
    match number(first) {
        Some(a) => Ok(written(alloc, a)?.as_str() == whole.as_str()),
        None => Ok(false),
    }
}

/// Whether an operation on one or two numbers has that answer.
fn is_computed(name: &str, first: &str, second: &str, wanted: &str) -> bool {
    match (number(first), number(second)) {
        (Some(a), None) if name == "kept" => is_kept(a) == (wanted == "yes"),
        (Some(a), Some(b)) if name == "cmp" => compared(a, b) == wanted,
        (Some(a), Some(b)) => computed(name, a, b) == answer(wanted),
        (Some(a), None) => computed(name, a, a) == answer(wanted),
        _ => false,
    }
}

/// Whether one case has its answer.
fn is_answered(
    alloc: Global,
    name: &str,
    first: &str,
    second: &str,
    wanted: &str,
) -> Result<bool, Memory> {
    match name {
        "read" => is_read(alloc, first, second, wanted),
        "form" => has_form(alloc, first, second, wanted),
        "write" => is_written(alloc, first, second, wanted),
        _ => Ok(is_computed(name, first, second, wanted)),
    }
}

#[test]
fn every_case_has_its_answer(rt: HostRuntime) -> Result<(), Fail> {
    let mut count = 0u64;
    for line in CASES.lines() {
        let mut fields = line.split('|');
        let name = fields.next().unwrap_or("");
        let first = fields.next().unwrap_or("");
        let second = fields.next().unwrap_or("");
        let wanted = fields.next().unwrap_or("");
        assert!(rt;
            is_answered(rt.alloc(), name, first, second, wanted)?,
            "{line}"
        );
        count = count.saturating_add(1);
    }
    assert!(rt; count > 900);
    Ok(())
}
