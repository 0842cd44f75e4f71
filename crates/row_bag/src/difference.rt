//! The difference.

ghost use Rattle.std.specs.Prelude.{◌≡◌, ◌++◌, ◌∷◌, [], cond, IfOk, OnOk, map, ◌&&◌};
ghost use Rattle.std.specs.List.{list_any};
ghost use Rattle.std.specs.Option.{option_copied};
ghost use Rattle.row_bag.specs.Hashes.{rows_at};
ghost use Rattle.sparql_value.specs.Solutions.{share_name, rules_out, differences};

use crate::hashes::hash_values;
use crate::index::index_of;
use crate::lists::push_copy;
use crate::names::{all_names, sure_names};
use crate::pairs::{are_compatible, do_share_name};
use std::alloc::Global;
use term_core::{Items, Memory, Row};

fn does_any_rule_out(a: &Row, rows: &[&Row]) -> bool
    ensures { result ≡ list_any (rules_out a.now) (map (λ r. r.now) rows.now) }
{
    for b in rows {
        if are_compatible(a, *b) && do_share_name(a, *b) {
            return true;
        }
    }
    false
}

// Whether a row of the bucket rules the row out. None does where the row has no name of the other side.
fn is_ruled_out(a: &Row, bound: &Row, rows: Option<&Vec<&Row>>) -> bool
    ensures { result ≡ share_name a.now bound.now && list_any (rules_out a.now) (rows_at (option_copied rows.entry)) }
{
    if do_share_name(a, bound) {
        match rows {
            Some(rows) => does_any_rule_out(a, rows),
            None => false,
        }
    } else {
        false
    }
}

fn keep(alloc: Global, out: &mut Items<Row>, row: &Row, keeps: bool) -> Result<(), Memory>
    ensures { OnOk result (out.new ≡ out.old ++ cond keeps (row.now ∷ []) []) }
{
    if keeps {
        push_copy(alloc, out, row)
    } else {
        Ok(())
    }
}

/// The rows on the left that no row on the right both is compatible with and shares a name with
/// (SPARQL 1.1, section 18.5, Minus), in their order. The time is that of the input where some name is
/// bound in all rows, or no name on both sides.
pub fn minus(alloc: Global, left: &[Row], right: &[Row]) -> Result<Items<Row>, Memory>
    ensures { IfOk result (λ rows. rows ≡ differences left.now right.now) }
{
    let bound = all_names(alloc, right)?;
    let names = sure_names(alloc, left, right)?;
    let index = index_of(alloc, &names, right)?;
    let mut out = Items::new(alloc);
    for a in left {
        let ruled_out = is_ruled_out(a, &bound, index.get(&hash_values(&names, a)));
        keep(alloc, &mut out, a, !ruled_out)?;
    }
    Ok(out)
}
