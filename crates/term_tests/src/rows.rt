//! Rows, set one by one and built at once.

use crate::spelled::{term, text};
use std::alloc::Global;
use std::test::Fail;
use term_core::{Row, RowBuilder, Term};

/// Names with the labels of blank nodes.
type Entries = &'static [(&'static str, &'static str)];

/// What is set in this order, and what the row has then, by name.
const ROWS: [(Entries, Entries); 3] = [
    (
        &[("b", "1"), ("a", "2"), ("b", "3")],
        &[("a", "2"), ("b", "3")],
    ),
    (
        &[("b", "1"), ("c", "2"), ("a", "3"), ("b", "4")],
        &[("a", "3"), ("b", "4"), ("c", "2")],
    ),
    (&[], &[]),
];

/// Whether the term is the blank node of that label.
fn is_blank(term: &Term, label: &str) -> bool {
    match term {
        Term::Blank(text) => text.as_str() == label,
        _ => false,
    }
}

/// Whether the row has this entry at that place, and finds its term by its name.
fn has_entry(row: &Row, place: usize, name: &str, label: &str) -> bool {
    let is_there = match row.entry(place) {
        Some((text, term)) => text.as_str() == name && is_blank(term, label),
        None => false,
    };
    match row.get(name.as_bytes()) {
        Some(term) => is_there && is_blank(term, label),
        None => false,
    }
}

/// Whether the row has these entries and no other.
fn has_entries(row: &Row, entries: &[(&str, &str)]) -> bool {
    for (place, &(name, label)) in entries.iter().enumerate() {
        if !has_entry(row, place, name, label) {
            return false;
        }
    }
    row.entries().len() == entries.len()
        && row.entry(entries.len()).is_none()
        && row.get(b"other").is_none()
}

/// Sets one entry.
fn set(alloc: Global, row: &mut Row, name: &str, label: &str) -> Result<(), Fail> {
    let name = text(alloc, name)?;
    let value = term(alloc, ('b', label, "", ""))?;
    row.set(name, value)?;
    Ok(())
}

/// A copy of the row of what is set one by one.
fn row_of(alloc: Global, entries: &[(&str, &str)]) -> Result<Row, Fail> {
    let mut row = Row::empty(alloc);
    for &(name, label) in entries {
        set(alloc, &mut row, name, label)?;
    }
    Ok(row.copy(alloc)?)
}

/// Sets one entry of a row to be built.
fn add(alloc: Global, builder: &mut RowBuilder, name: &str, label: &str) -> Result<(), Fail> {
    let name = text(alloc, name)?;
    let value = term(alloc, ('b', label, "", ""))?;
    builder.set(name, value)?;
    Ok(())
}

/// The row that is built.
fn built(alloc: Global, entries: &[(&str, &str)]) -> Result<Row, Fail> {
    let mut builder = RowBuilder::new(alloc);
    for &(name, label) in entries {
        add(alloc, &mut builder, name, label)?;
    }
    Ok(builder.build(alloc)?)
}

#[test]
fn rows_keep_the_last_term_of_a_name(rt: HostRuntime) -> Result<(), Fail> {
    for &(sets, entries) in ROWS.as_slice() {
        let row = row_of(rt.alloc(), sets)?;
        assert!(rt; has_entries(&row, entries));
    }
    Ok(())
}

#[test]
fn builds_rows_in_any_order(rt: HostRuntime) -> Result<(), Fail> {
    for &(sets, entries) in ROWS.as_slice() {
        let row = built(rt.alloc(), sets)?;
        assert!(rt; has_entries(&row, entries));
    }
    Ok(())
}
