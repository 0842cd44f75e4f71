//! Queries without modifiers.

ghost use Rattle.std.specs.Prelude.{◌≡◌, map};
ghost use Rattle.std.specs.List.{list_all};
ghost use Rattle.sparql_tree.specs.GroupTrees.{item_of, query_of};
ghost use Rattle.sparql_translation.specs.Modifiers.{is_alone, is_plain as is_plain_query};

use sparql_tree::{Query, SelectItem};

/// Whether an item is a variable alone.
#[tactic(auto, unfolding(sparql_tree::specs::GroupTrees::item_of))]
fn is_variable_alone(item: &SelectItem) -> bool
    ensures { result ≡ is_alone (item_of item.now) }
{
    match item.value {
        None => true,
        Some(_) => false,
    }
}

/// Whether each item is a variable alone.
fn are_variables(items: &[SelectItem]) -> bool
    ensures { result ≡ list_all is_alone (map item_of items.now) }
{
    for item in items {
        if !is_variable_alone(item) {
            return false;
        }
    }
    true
}

/// Whether a query has no modifiers: neither a value among its items, nor `DISTINCT`, keys, `HAVING`,
/// `ORDER BY`, `LIMIT` or an `OFFSET` but 0. What it answers is the solutions of its group.
pub fn is_plain(query: &Query) -> bool
    ensures { result ≡ is_plain_query (query_of query.now) }
{
    !query.distinct
        && are_variables(query.items.as_slice())
        && query.keys.len() == 0
        && query.having.len() == 0
        && query.order.len() == 0
        && query.limit.is_none()
        && query.offset == 0
}
