//! Indexes of rows by a hash.

ghost use Rattle.std.specs.Prelude.{◌≡◌, ℕ, ◌++◌, ◌∷◌, [], cond, ◌==◌, IfOk, OnOk, nat_eq};
ghost use Rattle.std.specs.HashMap.{get};
ghost use Rattle.row_bag.specs.Hashes.{hash_at, rows_at, Indexes};

use crate::hashes::hash_values;
use std::alloc::Global;
use std::collections::HashMap;
use term_core::{Memory, Row, Text};

/// Puts a row at the end of the bucket of its hash.
pub fn add<'a>(
    alloc: Global,
    index: &mut HashMap<u64, Vec<&'a Row>>,
    code: u64,
    row: &'a Row,
) -> Result<(), Memory>
    ensures { OnOk result ((q : ℕ) → rows_at (get nat_eq index.new q)
        ≡ rows_at (get nat_eq index.old q) ++ cond (code == q) (row.now ∷ []) []) }
{
    match index.get_mut(&code) {
        Some(rows) => {
            rows.push(row)?;
        }
        None => {
            let mut rows = Vec::new(alloc);
            rows.push(row)?;
            index.insert(code, rows)?;
        }
    }
    Ok(())
}

/// The rows by the hash of their values at the names.
pub fn index_of<'a>(
    alloc: Global,
    names: &[Text],
    rows: &'a [Row],
) -> Result<HashMap<u64, Vec<&'a Row>>, Memory>
    ensures { IfOk result (λ index. Indexes (hash_at names.now) rows.now index) }
{
    let mut index = HashMap::new(alloc);
    for row in rows {
        add(alloc, &mut index, hash_values(names, row), row)?;
    }
    Ok(index)
}
