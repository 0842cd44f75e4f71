//! Pages of a plan of one pattern over a store file in memory, states, and lines of answers.

use crate::making::{image_of_data, term};
use pattern_page::{
    Counts, Page, PageFault, Part, State, follow_pages, parse_state, push_header, push_line,
    push_state,
};
use sage_outside::{Blocks, NeverBlocks};
use std::alloc::Global;
use std::test::Fail;
use term_core::{IdTriple, Memory, Pattern, Place, Row, Text};
use triple_store::Store;

/// In order the terms are `i:a`, `i:b` and `i:p`. By predicate and object the triple of `i:b` comes first.
const DOCUMENT: &str = "<i:a> <i:p> <i:b> .\n<i:b> <i:p> <i:a> .\n";

fn text(alloc: Global, text: &str) -> Result<Text, Fail> {
    Ok(Text::from_bytes(alloc, text.as_bytes())?)
}

fn open(alloc: Global, file: &[u8]) -> Result<Store<NeverBlocks<'_>>, Fail> {
    match Store::open(alloc, NeverBlocks::new(file)) {
        Ok(store) => Ok(store),
        Err(_) => Err("not a store")?,
    }
}

/// The pattern of the variable `x`, the predicate `i:p` and a variable.
fn pattern(alloc: Global, object: &str) -> Result<Pattern, Fail> {
    let subject = text(alloc, "x")?;
    let predicate = term(alloc, "i:p")?;
    let object = text(alloc, object)?;
    Ok(Pattern {
        subject: Place::Var(subject),
        predicate: Place::Term(predicate),
        object: Place::Var(object),
    })
}

fn names(alloc: Global) -> Result<Vec<Text>, Fail> {
    let mut names = Vec::new(alloc);
    names.push(text(alloc, "x")?)?;
    names.push(text(alloc, "y")?)?;
    Ok(names)
}

/// All pages of one step, with a line for each row.
fn follow<B: Blocks>(
    alloc: Global,
    store: &mut Store<B>,
    pattern: &Pattern,
    names: &[Text],
    out: &mut Vec<u8>,
) -> Result<Counts, PageFault> {
    let part = Part::new(alloc, store, pattern)?;
    follow_pages(alloc, store, &part, names, &[1], out)
}

/// The counts of all pages of one step over a store, where the lines of the answer are these.
fn counts_over<B: Blocks>(
    alloc: Global,
    store: &mut Store<B>,
    pattern: &Pattern,
    names: &[Text],
    wanted: &[u8],
) -> Result<Option<Counts>, Memory> {
    let mut out = Vec::new(alloc);
    push_header(&mut out, names)?;
    match follow(alloc, store, pattern, names, &mut out) {
        Ok(counts) if out.as_slice() == wanted => Ok(Some(counts)),
        _ => Ok(None),
    }
}

/// The same over the file of a store.
fn counts_in(
    alloc: Global,
    file: &[u8],
    pattern: &Pattern,
    names: &[Text],
    wanted: &[u8],
) -> Result<Option<Counts>, Fail> {
    let mut store = open(alloc, file)?;
    Ok(counts_over(alloc, &mut store, pattern, names, wanted)?)
}

/// The same of the pattern of two variables.
fn counts_of_file(alloc: Global, file: &[u8], wanted: &[u8]) -> Result<Option<Counts>, Fail> {
    let pattern = pattern(alloc, "y")?;
    let names = names(alloc)?;
    counts_in(alloc, file, &pattern, names.as_slice(), wanted)
}

/// The same of the document.
fn counts_of(alloc: Global, wanted: &[u8]) -> Result<Option<Counts>, Fail> {
    let file = image_of_data(alloc, DOCUMENT)?;
    counts_of_file(alloc, &file, wanted)
}

/// An empty step, two triples and two ends: five steps.
#[test]
fn follows_pages_of_one_step(rt: HostRuntime) -> Result<(), Fail> {
    let counts = Counts {
        pages: 5,
        steps: 5,
        longest: 84,
    };
    assert!(rt; counts_of(rt.alloc(), b"?x\t?y\n<i:b>\t<i:a>\n<i:a>\t<i:b>\n")? == Some(counts));
    Ok(())
}

/// The page of one step from the bytes, or from the beginning.
fn page_of<B: Blocks>(
    alloc: Global,
    store: &mut Store<B>,
    pattern: &Pattern,
    next: Option<&[u8]>,
) -> Result<Page, PageFault> {
    let part = Part::new(alloc, store, pattern)?;
    part.page(alloc, store, next, 1)
}

/// A page, or none where the bytes are refused.
fn page_or_none(page: Result<Page, PageFault>) -> Result<Option<Page>, Fail> {
    match page {
        Ok(page) => Ok(Some(page)),
        Err(PageFault::Plan) => Ok(None),
        Err(_) => Err("no page")?,
    }
}

/// The page of one step over the file of a store.
fn page_in(
    alloc: Global,
    file: &[u8],
    pattern: &Pattern,
    next: Option<&[u8]>,
) -> Result<Option<Page>, Fail> {
    let mut store = open(alloc, file)?;
    page_or_none(page_of(alloc, &mut store, pattern, next))
}

/// The same of the pattern with this variable for its object.
fn page_of_file(
    alloc: Global,
    file: &[u8],
    object: &str,
    next: Option<&[u8]>,
) -> Result<Option<Page>, Fail> {
    let pattern = pattern(alloc, object)?;
    page_in(alloc, file, &pattern, next)
}

/// The same of the document.
fn page_at(alloc: Global, object: &str, next: Option<&[u8]>) -> Result<Option<Page>, Fail> {
    let file = image_of_data(alloc, DOCUMENT)?;
    page_of_file(alloc, &file, object, next)
}

/// The bytes behind so many pages of one step, or nothing where the plan came to its end.
fn bytes_after(alloc: Global, pages: u32) -> Result<Option<Vec<u8>>, Fail> {
    let mut next = page_at(alloc, "y", None)?.ok_or("refused")?.next;
    for _ in 1..pages {
        next = after(alloc, next)?;
    }
    Ok(next)
}

/// The bytes of the page behind these.
fn after(alloc: Global, bytes: Option<Vec<u8>>) -> Result<Option<Vec<u8>>, Fail> {
    match bytes {
        None => Ok(None),
        Some(bytes) => Ok(
            page_at(alloc, "y", Some(bytes.as_slice()))?
                .ok_or("refused")?
                .next,
        ),
    }
}

/// Numbers of pages, and how many bytes are behind them.
const LENGTHS: [(u32, Option<usize>); 5] = [
    (1, Some(72)),
    (2, Some(84)),
    (3, Some(84)),
    (4, Some(72)),
    (5, None),
];

#[test]
fn bytes_have_these_lengths(rt: HostRuntime) -> Result<(), Fail> {
    for &(pages, length) in LENGTHS.as_slice() {
        assert!(rt; bytes_after(rt.alloc(), pages)?.map(|bytes| bytes.len()) == length);
    }
    Ok(())
}

/// The bytes after the entry of the first triple, which has the numbers 1, 2 and 0.
fn bytes_at_triple(alloc: Global) -> Result<Vec<u8>, Fail> {
    Ok(bytes_after(alloc, 2)?.ok_or("ended")?)
}

fn change(bytes: &mut Vec<u8>, at: usize, byte: u8) {
    if at < bytes.len() {
        bytes[at] = byte;
    }
}

/// How many rows and steps the page has from the bytes with another subject and object, and how many
/// bytes are behind it; none where they are refused.
fn page_from(
    alloc: Global,
    subject: u8,
    object: u8,
) -> Result<Option<(usize, u32, Option<usize>)>, Fail> {
    let mut bytes = bytes_at_triple(alloc)?;
    change(&mut bytes, 75, subject);
    change(&mut bytes, 83, object);
    match page_at(alloc, "y", Some(bytes.as_slice()))? {
        None => Ok(None),
        Some(page) => Ok(Some((
            page.rows.len(),
            page.steps,
            page.next.map(|bytes| bytes.len()),
        ))),
    }
}

/// Subjects and objects, and the page: with the numbers of the second triple, 0, 2 and 1, nothing is left
/// but the two ends; 0, 2 and 0 are no triple.
const FROM: [(u8, u8, Option<(usize, u32, Option<usize>)>); 2] = [
    (0, 1, Some((0, 1, Some(72)))),
    (0, 0, None),
];

#[test]
fn goes_on_after_the_triple_that_the_bytes_name(rt: HostRuntime) -> Result<(), Fail> {
    for &(subject, object, page) in FROM.as_slice() {
        assert!(rt; page_from(rt.alloc(), subject, object)? == page);
    }
    Ok(())
}

/// Variables, and whether the bytes of the plan with `y` are of the plan with this one.
const VARIABLES: [(&str, bool); 2] = [("y", true), ("z", false)];

#[test]
fn refuses_bytes_of_another_text(rt: HostRuntime) -> Result<(), Fail> {
    let bytes = bytes_at_triple(rt.alloc())?;
    for &(object, is_own) in VARIABLES.as_slice() {
        assert!(rt; page_at(rt.alloc(), object, Some(bytes.as_slice()))?.is_some() == is_own);
    }
    Ok(())
}

#[test]
fn refuses_bytes_of_another_length(rt: HostRuntime) -> Result<(), Fail> {
    let mut bytes = bytes_at_triple(rt.alloc())?;
    bytes.push(0)?;
    for length in 0..bytes.len() + 1 {
        let is_own = length + 1 == bytes.len();
        assert!(rt; page_at(rt.alloc(), "y", Some(&bytes[..length]))?.is_some() == is_own);
    }
    Ok(())
}

/// The bytes of a state.
fn state_bytes(alloc: Global, state: State) -> Result<Vec<u8>, Fail> {
    let mut out = Vec::new(alloc);
    push_state(&mut out, &state)?;
    Ok(out)
}

const AT: State = State::At(IdTriple { s: 258, p: 2, o: 3 });

/// Bytes, and the state that they are.
const STATES: [(&[u8], Option<State>); 3] = [
    (
        b"\x02\x01\0\0\0\x01\x02\0\0\x01\x02\0\0\0\x02\0\0\0\x03",
        Some(AT),
    ),
    (b"\x02\x01\0\0\0\0\x01", None),
    (b"\0", None),
];

#[test]
fn spells_states(rt: HostRuntime) -> Result<(), Fail> {
    assert!(rt; parse_state(&state_bytes(rt.alloc(), AT)?) == Some(AT));
    for &(bytes, state) in STATES.as_slice() {
        assert!(rt; parse_state(bytes) == state);
    }
    Ok(())
}

/// The line of a row in which `y` alone is bound, to an IRI with a tab.
fn line_of(alloc: Global) -> Result<Vec<u8>, Fail> {
    let mut row = Row::empty(alloc);
    row.set(text(alloc, "y")?, term(alloc, "a\tb")?)?;
    let names = names(alloc)?;
    let mut out = Vec::new(alloc);
    push_line(&mut out, names.as_slice(), &row)?;
    Ok(out)
}

/// The tab of a term is written with a backslash; the cell of an unbound name is empty.
#[test]
fn writes_a_line(rt: HostRuntime) -> Result<(), Fail> {
    assert!(rt; line_of(rt.alloc())?.as_slice() == b"\t<a\\tb>\n".as_slice());
    Ok(())
}
