//! What matters in a query around its group for the rules on scope: whether solutions are grouped, and
//! the variables of its parts.

ghost use Rattle.std.specs.Prelude.{◌≡◌, ◌++◌, [], List, map, flat_map, IfOk, OnOk};
ghost use Rattle.std.specs.List.{list_any};
ghost use Rattle.sparql_tree.specs.ExprTrees.{tree_of};
ghost use Rattle.sparql_tree.specs.GroupTrees.{item_of, key_of, order_of, query_of};
ghost use Rattle.sparql_tree.specs.Breaches as spec;
ghost use Rattle.sparql_tree.specs.Breaches.{order_has_aggregate};
ghost use Rattle.sparql_tree.specs.Scopes.{has_aggregate as spec_has_aggregate};

use crate::exprs::{add_outside, has_aggregate, have_aggregate};
use sparql_tree::{Expr, GroupKey, OrderKey, Query, SelectItem};
use std::alloc::Global;
use term_core::{Items, Memory, Text};

/// Whether an aggregate stands in an item.
fn items_have_aggregate(items: &[SelectItem]) -> bool
    ensures { result ≡ list_any spec_has_aggregate (spec.item_values (map item_of items.now)) }
{
    for item in items {
        if let Some(value) = &item.value {
            if has_aggregate(value) {
                return true;
            }
        }
    }
    false
}

/// Whether one stands in a key of the order.
fn orders_have_aggregate(order: &[OrderKey]) -> bool
    ensures { result ≡ list_any order_has_aggregate (map order_of order.now) }
{
    for key in order {
        if has_aggregate(&key.value) {
            return true;
        }
    }
    false
}

/// Whether solutions are grouped: by keys, or since an aggregate stands somewhere (SPARQL 1.1, section
/// 18.2.4.1).
pub fn is_grouped(query: &Query) -> bool
    ensures { result ≡ spec.is_grouped (query_of query.now) }
{
    !query.keys.as_slice().is_empty()
        || items_have_aggregate(query.items.as_slice())
        || have_aggregate(query.having.as_slice())
        || orders_have_aggregate(query.order.as_slice())
}

/// The variables of keys.
pub fn key_names(alloc: Global, keys: &[GroupKey]) -> Result<Items<Text>, Memory>
    ensures { IfOk result (λ found. found ≡ spec.key_names (map key_of keys.now)) }
{
    let mut found = Items::new(alloc);
    for key in keys {
        if let Some(variable) = &key.variable {
            found.push(variable.copy(alloc)?)?;
        }
    }
    Ok(found)
}

/// Whether an expression is this variable alone.
fn is_alone(value: &Expr, name: &Text) -> bool
    ensures { result ≡ spec.is_alone (tree_of value.now) name.now }
{
    match value {
        Expr::Var(other) => other.as_str() == name.as_str(),
        _ => false,
    }
}

/// Adds the variable behind AS of a key, if there is one.
fn add_as_name(alloc: Global, key: &GroupKey, found: &mut Items<Text>) -> Result<(), Memory>
    ensures { OnOk result (found.new ≡ found.old ++ spec.as_name (tree_of key.now.value) key.now.variable) }
{
    match &key.variable {
        Some(variable) => {
            if is_alone(&key.value, variable) {
                return Ok(());
            }
            found.push(variable.copy(alloc)?)
        }
        None => Ok(()),
    }
}

/// The variables behind AS of keys.
pub fn as_names(alloc: Global, keys: &[GroupKey]) -> Result<Items<Text>, Memory>
    ensures { IfOk result (λ found. found ≡ spec.as_names (map key_of keys.now)) }
{
    let mut found = Items::new(alloc);
    for key in keys {
        add_as_name(alloc, key, &mut found)?;
    }
    Ok(found)
}

/// Adds the variables behind AS of items.
pub fn add_item_names(
    alloc: Global,
    items: &[SelectItem],
    found: &mut Items<Text>,
) -> Result<(), Memory>
    ensures { OnOk result (found.new ≡ found.old ++ spec.item_names (map item_of items.now)) }
{
    for item in items {
        if item.value.is_some() {
            found.push(item.variable.copy(alloc)?)?;
        }
    }
    Ok(())
}

/// The variables outside aggregates of an item.
pub fn item_outside(alloc: Global, item: &SelectItem) -> Result<Items<Text>, Memory>
    ensures { IfOk result (λ found. found ≡ spec.item_outside (item_of item.now).variable (item_of item.now).value) }
{
    let mut found = Items::new(alloc);
    match &item.value {
        Some(value) => add_outside(value, alloc, &mut found)?,
        None => found.push(item.variable.copy(alloc)?)?,
    }
    Ok(found)
}

/// The variables outside aggregates of the keys of the order.
pub fn order_outside(alloc: Global, order: &[OrderKey]) -> Result<Items<Text>, Memory>
    ensures { IfOk result (λ found. found ≡ spec.orders_outside (map order_of order.now)) }
{
    let mut found = Items::new(alloc);
    for key in order {
        add_outside(&key.value, alloc, &mut found)?;
    }
    Ok(found)
}
