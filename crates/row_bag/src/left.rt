//! The left join.

ghost use Rattle.std.specs.Prelude.{◌≡◌, ◌++◌, [], IfOk, OnOk, map, filter, option_map};
ghost use Rattle.std.specs.List.{filter_map, cons_option};
ghost use Rattle.std.specs.Option.{option_copied};
ghost use Rattle.term_core.specs.Mappings.{joined as joined_row};
ghost use Rattle.sparql_tree.specs.ExprTrees.{tree_of};
ghost use Rattle.sparql_value.specs.Solutions.{holds, or_itself, left_joins};
ghost use Rattle.row_bag.specs.Hashes.{rows_at};
ghost use Rattle.row_bag.specs.Rows.{has_row};

use crate::hashes::hash_values;
use crate::index::index_of;
use crate::lists::push_copy;
use crate::names::sure_names;
use crate::pairs::joined;
use expr_eval::truth_of;
use sparql_tree::Expr;
use std::alloc::Global;
use term_core::{Items, Memory, Row};

fn does_hold(alloc: Global, condition: Option<&Expr>, row: &Row) -> Result<bool, Memory>
    ensures { IfOk result (λ b. b ≡ holds (option_map tree_of (option_copied condition.entry)) row.now) }
{
    match condition {
        Some(condition) => truth_of(alloc, condition, row),
        None => Ok(true),
    }
}

// Adds the merge of a pair, if there is one on which the condition is true, and tells whether there was.
fn match_pair(
    alloc: Global,
    out: &mut Items<Row>,
    a: &Row,
    b: &Row,
    condition: Option<&Expr>,
) -> Result<bool, Memory>
    ensures added { OnOk result (out.new ≡ out.old
        ++ filter (holds (option_map tree_of (option_copied condition.entry))) (cons_option (joined_row a.now b.now) [])) }
    ensures any { IfOk result (λ any. any
        ≡ has_row (filter (holds (option_map tree_of (option_copied condition.entry))) (cons_option (joined_row a.now b.now) []))) }
{
    match joined(alloc, a, b)? {
        Some(row) => {
            if does_hold(alloc, condition, &row)? {
                out.push(row)?;
                Ok(true)
            } else {
                Ok(false)
            }
        }
        None => Ok(false),
    }
}

fn match_each(
    alloc: Global,
    out: &mut Items<Row>,
    a: &Row,
    rows: &[&Row],
    condition: Option<&Expr>,
) -> Result<bool, Memory>
    ensures added { OnOk result (out.new ≡ out.old ++ filter (holds (option_map tree_of (option_copied condition.entry)))
        (filter_map (joined_row a.now) (map (λ r. r.now) rows.now))) }
    ensures any { IfOk result (λ any. any ≡ has_row (filter (holds (option_map tree_of (option_copied condition.entry)))
        (filter_map (joined_row a.now) (map (λ r. r.now) rows.now)))) }
{
    let mut any = false;
    for b in rows {
        let found = match_pair(alloc, out, a, *b, condition)?;
        any |= found;
    }
    Ok(any)
}

fn left_one(
    alloc: Global,
    out: &mut Items<Row>,
    a: &Row,
    rows: Option<&Vec<&Row>>,
    condition: Option<&Expr>,
) -> Result<(), Memory>
    ensures { OnOk result (out.new ≡ out.old ++ or_itself a.now (filter (holds (option_map tree_of (option_copied condition.entry)))
        (filter_map (joined_row a.now) (rows_at (option_copied rows.entry))))) }
{
    let any = match rows {
        Some(rows) => match_each(alloc, out, a, rows, condition)?,
        None => false,
    };
    if any {
        Ok(())
    } else {
        push_copy(alloc, out, a)
    }
}

/// For each row on the left, its merges with compatible rows on the right on which the condition is
/// true, or the row itself where there are none (SPARQL 1.1, section 18.5, LeftJoin); in the order of
/// `join`. The condition sees the merge, and without one each merge counts. The time is as in `join`.
pub fn left_join(
    alloc: Global,
    left: &[Row],
    right: &[Row],
    condition: Option<&Expr>,
) -> Result<Items<Row>, Memory>
    ensures { IfOk result (λ rows. rows ≡ left_joins (option_map tree_of (option_copied condition.entry)) left.now right.now) }
{
    let names = sure_names(alloc, left, right)?;
    let index = index_of(alloc, &names, right)?;
    let mut out = Items::new(alloc);
    for a in left {
        left_one(
            alloc,
            &mut out,
            a,
            index.get(&hash_values(&names, a)),
            condition,
        )?;
    }
    Ok(out)
}
