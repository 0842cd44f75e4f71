//! Distinct rows.

ghost use Rattle.std.specs.Prelude.{◌≡◌, ◌++◌, ◌∷◌, [], cond, IfOk, OnOk, map};
ghost use Rattle.std.specs.Option.{option_copied};
ghost use Rattle.term_core.specs.Bags.{distinct as each_once, is_new};
ghost use Rattle.row_bag.specs.Hashes.{rows_at, whole_hash, Indexes};
ghost use Rattle.row_bag.specs.Rows.{same_row};

use crate::hashes::hash_row;
use crate::index::add;
use crate::lists::push_copy;
use crate::pairs::are_same;
use std::alloc::Global;
use std::collections::HashMap;
use term_core::{Items, Memory, Row};

fn is_new_among(row: &Row, rows: &[&Row]) -> bool
    ensures { result ≡ is_new same_row (map (λ r. r.now) rows.now) row.now }
{
    for other in rows {
        if are_same(*other, row) {
            return false;
        }
    }
    true
}

fn is_new_at(row: &Row, rows: Option<&Vec<&Row>>) -> bool
    ensures { result ≡ is_new same_row (rows_at (option_copied rows.entry)) row.now }
{
    match rows {
        Some(rows) => is_new_among(row, rows),
        None => true,
    }
}

// Adds a copy of the row, and the row to the index, where no row so far is equal to it.
fn keep_first<'a>(
    alloc: Global,
    index: &mut HashMap<u64, Vec<&'a Row>>,
    out: &mut Items<Row>,
    row: &'a Row,
) -> Result<(), Memory>
    requires { Indexes whole_hash out.old index.old }
    ensures rows { OnOk result (out.new ≡ out.old ++ cond (is_new same_row out.old row.now) (row.now ∷ []) []) }
    ensures index { OnOk result (Indexes whole_hash out.new index.new) }
{
    let code = hash_row(row);
    if is_new_at(row, index.get(&code)) {
        add(alloc, index, code, row)?;
        push_copy(alloc, out, row)?;
    }
    Ok(())
}

/// The first of equal rows, in their order (SPARQL 1.1, section 18.5, Distinct), copied. The time is
/// that of the input.
pub fn distinct(alloc: Global, rows: &[Row]) -> Result<Items<Row>, Memory>
    ensures { IfOk result (λ firsts. firsts ≡ each_once same_row rows.now) }
{
    let mut index = HashMap::new(alloc);
    let mut out = Items::new(alloc);
    for row in rows {
        keep_first(alloc, &mut index, &mut out, row)?;
    }
    Ok(out)
}
