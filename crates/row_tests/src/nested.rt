//! The operators as the standard defines them (SPARQL 1.1, section 18.5), by loops in loops.

use crate::tables::is_equal;
use expr_eval::truth_of;
use sparql_tree::Expr;
use std::alloc::Global;
use term_core::{Items, Memory, Row};

fn agree(a: &Row, b: &Row) -> bool {
    for entry in a.entries() {
        match b.get(entry.0.bytes()) {
            Some(term) if *term != entry.1 => return false,
            _ => {}
        }
    }
    true
}

fn meet(a: &Row, b: &Row) -> bool {
    for entry in a.entries() {
        if b.get(entry.0.bytes()).is_some() {
            return true;
        }
    }
    false
}

fn merge(alloc: Global, a: &Row, b: &Row) -> Result<Row, Memory> {
    let mut row = a.copy(alloc)?;
    for entry in b.entries() {
        let name = entry.0.copy(alloc)?;
        let term = entry.1.copy(alloc)?;
        row.set(name, term)?;
    }
    Ok(row)
}

fn push(alloc: Global, out: &mut Items<Row>, row: &Row) -> Result<(), Memory> {
    let row = row.copy(alloc)?;
    out.push(row)
}

fn is_kept(alloc: Global, condition: Option<&Expr>, row: &Row) -> Result<bool, Memory> {
    match condition {
        Some(condition) => truth_of(alloc, condition, row),
        None => Ok(true),
    }
}

/// Adds the merges of a row, and tells whether there were any.
fn match_row(
    alloc: Global,
    out: &mut Items<Row>,
    a: &Row,
    right: &[Row],
    condition: Option<&Expr>,
) -> Result<bool, Memory> {
    let mut any = false;
    for b in right {
        if agree(a, b) {
            let row = merge(alloc, a, b)?;
            if is_kept(alloc, condition, &row)? {
                out.push(row)?;
                any = true;
            }
        }
    }
    Ok(any)
}

/// The join, or the left join where `outer`.
pub fn joined(
    alloc: Global,
    left: &[Row],
    right: &[Row],
    condition: Option<&Expr>,
    outer: bool,
) -> Result<Items<Row>, Memory> {
    let mut out = Items::new(alloc);
    for a in left {
        let any = match_row(alloc, &mut out, a, right, condition)?;
        if outer && !any {
            push(alloc, &mut out, a)?;
        }
    }
    Ok(out)
}

fn is_taken_away(a: &Row, right: &[Row]) -> bool {
    for b in right {
        if agree(a, b) && meet(a, b) {
            return true;
        }
    }
    false
}

pub fn subtracted(alloc: Global, left: &[Row], right: &[Row]) -> Result<Items<Row>, Memory> {
    let mut out = Items::new(alloc);
    for a in left {
        if !is_taken_away(a, right) {
            push(alloc, &mut out, a)?;
        }
    }
    Ok(out)
}

fn is_among(row: &Row, rows: &[Row]) -> bool {
    for other in rows {
        if is_equal(row, other) {
            return true;
        }
    }
    false
}

pub fn firsts(alloc: Global, rows: &[Row]) -> Result<Items<Row>, Memory> {
    let mut out = Items::new(alloc);
    for row in rows {
        if !is_among(row, out.as_slice()) {
            push(alloc, &mut out, row)?;
        }
    }
    Ok(out)
}
