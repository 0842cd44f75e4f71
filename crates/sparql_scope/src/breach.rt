//! The first breach of a rule on scopes in a query.

ghost use Rattle.std.specs.Prelude.{◌≡◌, ◌++◌, ◌∷◌, [], map, IfOk, OnOk, List};
ghost use Rattle.std.specs.BTreeSet.{contains_text};
ghost use Rattle.term_core.specs.Mappings.{Name};
ghost use Rattle.sparql_tree.specs.Groups as tree;
ghost use Rattle.sparql_tree.specs.GroupTrees.{item_of, key_of, query_of};
ghost use Rattle.sparql_tree.specs.NameSets.{HasNames};
ghost use Rattle.sparql_tree.specs.Breaches as spec;
ghost use Rattle.sparql_tree.specs.Breaches.{first_name};
ghost use Rattle.sparql_scope.specs.Named.{AreNamed, is_taken};
ghost use Rattle.sparql_scope.specs.Places.{AreLast};
ghost use Rattle.sparql_tree.specs.Scopes.{scope_of_group};

use crate::exprs::add_outside_all;
use crate::grouping::{
    add_item_names, as_names, is_grouped, item_outside, key_names, order_outside,
};
use crate::judge::first_mark;
use crate::names::{add, first_inside, first_outside, has, marked, repeated_names, set_of};
use crate::places::{Places, is_from, no_places};
use crate::walks::walk_group;
use sparql_tree::{GroupKey, Query, SelectItem};
use std::alloc::Global;
use std::collections::BTreeSet;
use term_core::{Items, Memory, Text};

/// The variables that are named before an item.
#[derive(Drop)]
pub struct Named {
    /// Those of keys, and those behind AS of earlier items.
    pub allowed: BTreeSet<String>,
    /// Those behind AS of keys.
    pub keys: BTreeSet<String>,
    /// Those of earlier items.
    pub items: BTreeSet<String>,
}

/// What is named before the first item.
fn named_by_keys(alloc: Global, query: &Query) -> Result<Named, Memory>
    ensures { IfOk result (λ named. AreNamed named (query_of query.now) []) }
{
    let names = key_names(alloc, query.keys.as_slice())?;
    let behind_as = as_names(alloc, query.keys.as_slice())?;
    Ok(Named {
        allowed: set_of(alloc, names.as_slice())?,
        keys: set_of(alloc, behind_as.as_slice())?,
        items: BTreeSet::new(alloc),
    })
}

/// Adds the variable behind AS of an item, if there is one.
fn add_named(alloc: Global, item: &SelectItem, allowed: &mut BTreeSet<String>) -> Result<(), Memory>
    ensures { OnOk result ((names : List Name) → HasNames allowed.old names
        → HasNames allowed.new (names ++ spec.named (item_of item.now).variable (item_of item.now).value)) }
{
    match &item.value {
        Some(_) => add(alloc, &item.variable, allowed),
        None => Ok(()),
    }
}

/// Adds what an item names.
fn add_item(alloc: Global, item: &SelectItem, named: &mut Named) -> Result<(), Memory>
    ensures { OnOk result ((q : tree.Query) (before : List tree.SelectItem)
        → AreNamed named.old q before → AreNamed named.new q (before ++ item_of item.now ∷ [])) }
{
    add_named(alloc, item, &mut named.allowed)?;
    add(alloc, &item.variable, &mut named.items)
}

/// Whether a variable behind AS of an item is there already.
fn is_there(scope: &Places, named: &Named, name: &Text) -> bool
    requires last { AreLast scope.now.last scope.now.names }
    ensures { result ≡ is_taken scope.now.names named.now name.now }
{
    is_from(scope, 0, name) || has(&named.keys, name) || has(&named.items, name)
}

/// The first variable outside aggregates that is not allowed, where solutions are grouped.
fn first_loose(
    alloc: Global,
    grouped: bool,
    names: &[Text],
    allowed: &BTreeSet<String>,
) -> Result<Option<Text>, Memory>
    ensures { IfOk result (λ found. found ≡ first_name (spec.loose grouped (contains_text allowed.now) names.now)) }
{
    if grouped {
        return first_outside(alloc, names, allowed);
    }
    Ok(None)
}

/// The first breach at an item.
fn first_at_item(
    alloc: Global,
    grouped: bool,
    item: &SelectItem,
    scope: &Places,
    named: &Named,
) -> Result<Option<Text>, Memory>
    requires last { AreLast scope.now.last scope.now.names }
    ensures { IfOk result (λ found. found ≡ first_name (spec.breaches_at grouped
        (contains_text named.now.allowed) (is_taken scope.now.names named.now) (item_of item.now))) }
{
    let names = item_outside(alloc, item)?;
    if let Some(name) = first_loose(alloc, grouped, names.as_slice(), &named.allowed)? {
        return Ok(Some(name));
    }
    if item.value.is_some() && is_there(scope, named, &item.variable) {
        return Ok(Some(marked(alloc, &item.variable)?));
    }
    Ok(None)
}

/// The first breach at items, where these variables are in scope of the group.
fn first_of_items(
    alloc: Global,
    query: &Query,
    grouped: bool,
    scope: &Places,
) -> Result<Option<Text>, Memory>
    requires last { AreLast scope.now.last scope.now.names }
    requires names { scope.now.names ≡ scope_of_group (query_of query.now).body }
    requires grouped { grouped ≡ spec.is_grouped (query_of query.now) }
    ensures { IfOk result (λ found. found
        ≡ first_name (spec.item_breaches (query_of query.now) [] (query_of query.now).items)) }
{
    let mut named = named_by_keys(alloc, query)?;
    for item in query.items.as_slice() {
        if let Some(name) = first_at_item(alloc, grouped, item, scope, &named)? {
            return Ok(Some(name));
        }
        add_item(alloc, item, &mut named)?;
    }
    Ok(None)
}

/// The first breach at keys.
fn first_of_keys(alloc: Global, keys: &[GroupKey]) -> Result<Option<Text>, Memory>
    ensures { IfOk result (λ found. found ≡ first_name (spec.key_breaches (map key_of keys.now))) }
{
    let names = key_names(alloc, keys)?;
    let again = repeated_names(alloc, names.as_slice())?;
    let twice = set_of(alloc, again.as_slice())?;
    first_inside(alloc, as_names(alloc, keys)?.as_slice(), &twice)
}

/// The first breach in HAVING.
fn first_in_having(alloc: Global, query: &Query, grouped: bool) -> Result<Option<Text>, Memory>
    ensures { IfOk result (λ found. found ≡ first_name (spec.having_breaches grouped (query_of query.now))) }
{
    let names = key_names(alloc, query.keys.as_slice())?;
    let allowed = set_of(alloc, names.as_slice())?;
    let mut outside = Items::new(alloc);
    add_outside_all(query.having.as_slice(), alloc, &mut outside)?;
    first_loose(alloc, grouped, outside.as_slice(), &allowed)
}

/// The first breach in ORDER BY.
fn first_in_order(alloc: Global, query: &Query, grouped: bool) -> Result<Option<Text>, Memory>
    ensures { IfOk result (λ found. found ≡ first_name (spec.order_breaches grouped (query_of query.now))) }
{
    let mut names = key_names(alloc, query.keys.as_slice())?;
    add_item_names(alloc, query.items.as_slice(), &mut names)?;
    let allowed = set_of(alloc, names.as_slice())?;
    let outside = order_outside(alloc, query.order.as_slice())?;
    first_loose(alloc, grouped, outside.as_slice(), &allowed)
}

/// The first breach behind the group.
fn first_behind(alloc: Global, query: &Query, grouped: bool) -> Result<Option<Text>, Memory>
    ensures { IfOk result (λ found. found ≡ first_name (spec.breaches_behind grouped (query_of query.now))) }
{
    if let Some(name) = first_of_keys(alloc, query.keys.as_slice())? {
        return Ok(Some(name));
    }
    if let Some(name) = first_in_having(alloc, query, grouped)? {
        return Ok(Some(name));
    }
    first_in_order(alloc, query, grouped)
}

/// The first breach of a query, in text order: the variable behind `?`, the label behind `_:`, or `*`.
/// The time is linear in the tree, but for look-ups of names in a tree.
pub fn first_breach(alloc: Global, query: &Query) -> Result<Option<Text>, Memory>
    ensures { IfOk result (λ found. found ≡ first_name (spec.breaches (query_of query.now))) }
{
    let grouped = is_grouped(query);
    if query.star && grouped {
        return Ok(Some(Text::from_str(alloc, "*")?));
    }
    let mut scope = no_places(alloc);
    let mut marks = Vec::new(alloc);
    walk_group(&query.body, alloc, &mut scope, &mut marks)?;
    if let Some(name) = first_of_items(alloc, query, grouped, &scope)? {
        return Ok(Some(name));
    }
    if let Some(name) = first_mark(alloc, &marks)? {
        return Ok(Some(name));
    }
    first_behind(alloc, query, grouped)
}
