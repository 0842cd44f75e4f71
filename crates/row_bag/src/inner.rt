//! The join.

ghost use Rattle.std.specs.Prelude.{◌≡◌, ◌++◌, [], IfOk, OnOk, map};
ghost use Rattle.std.specs.List.{filter_map, cons_option};
ghost use Rattle.std.specs.Option.{option_copied};
ghost use Rattle.term_core.specs.Mappings.{joined as joined_row, joins};
ghost use Rattle.row_bag.specs.Hashes.{rows_at};

use crate::hashes::hash_values;
use crate::index::index_of;
use crate::names::sure_names;
use crate::pairs::joined;
use std::alloc::Global;
use term_core::{Items, Memory, Row};

fn join_pair(alloc: Global, out: &mut Items<Row>, a: &Row, b: &Row) -> Result<(), Memory>
    ensures { OnOk result (out.new ≡ out.old ++ cons_option (joined_row a.now b.now) []) }
{
    match joined(alloc, a, b)? {
        Some(row) => out.push(row),
        None => Ok(()),
    }
}

fn join_each(alloc: Global, out: &mut Items<Row>, a: &Row, rows: &[&Row]) -> Result<(), Memory>
    ensures { OnOk result (out.new ≡ out.old ++ filter_map (joined_row a.now) (map (λ r. r.now) rows.now)) }
{
    for b in rows {
        join_pair(alloc, out, a, *b)?;
    }
    Ok(())
}

fn join_one(
    alloc: Global,
    out: &mut Items<Row>,
    a: &Row,
    rows: Option<&Vec<&Row>>,
) -> Result<(), Memory>
    ensures { OnOk result (out.new ≡ out.old ++ filter_map (joined_row a.now) (rows_at (option_copied rows.entry))) }
{
    match rows {
        Some(rows) => join_each(alloc, out, a, rows),
        None => Ok(()),
    }
}

/// The merge of each compatible pair (SPARQL 1.1, section 18.5, Join): those of the first row on the
/// left first, and with the rows on the right in their order. The time is that of the input and the
/// output where some name is bound in all rows; else each row is compared with each.
pub fn join(alloc: Global, left: &[Row], right: &[Row]) -> Result<Items<Row>, Memory>
    ensures { IfOk result (λ rows. rows ≡ joins left.now right.now) }
{
    let names = sure_names(alloc, left, right)?;
    let index = index_of(alloc, &names, right)?;
    let mut out = Items::new(alloc);
    for a in left {
        join_one(alloc, &mut out, a, index.get(&hash_values(&names, a)))?;
    }
    Ok(out)
}
