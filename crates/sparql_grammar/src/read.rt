//! The query that symbols spell.

ghost use Rattle.std.specs.Prelude.{◌≡◌, [], map, IfOk, IfErr, OnOk};
ghost use Rattle.sparql_tree.specs.declared.symbol.Symbol.{Symbol};
ghost use Rattle.sparql_tree.specs.Groups as tree;
ghost use Rattle.sparql_tree.specs.GroupTrees.{item_of, query_of};
ghost use Rattle.sparql_tree.specs.Queries.{IsQuery, variables, with_item, with_items, without_repeats};
ghost use Rattle.sparql_grammar.specs.Refusals.{WhyNoQuery};
ghost use Rattle.sparql_grammar.specs.Written.{written_of};
ghost use Rattle.sparql_tree.specs.NameSets.{HasNames};

use crate::cursor::Cursor;
use crate::fault::Fault;
use crate::queries::{Selection, Written, query};
use sparql_tree::{Query, QueryFault, SelectItem, Symbol};
use std::alloc::Global;
use std::collections::BTreeSet;
use term_core::{Items, Memory};

/// Adds an item, unless it is a variable alone that one of these has. The set has the items' variables.
fn keep(
    alloc: Global,
    item: SelectItem,
    found: &mut Items<SelectItem>,
    seen: &mut BTreeSet<String>,
) -> Result<(), Memory>
    requires { HasNames seen.old (variables (map item_of found.old)) }
    ensures kept { OnOk result (map item_of found.new ≡ with_item (map item_of found.old) (item_of item)) }
    ensures seen { OnOk result (HasNames seen.new (variables (map item_of found.new))) }
{
    let is_new = seen.insert(String::from_str(alloc, item.variable.as_str())?)?;
    if is_new || item.value.is_some() {
        found.push(item)?;
    }
    Ok(())
}

/// The items without the variables that are selected again. The time is that of a look-up in a tree
/// for each.
fn kept_items(alloc: Global, written: Vec<SelectItem>) -> Result<Items<SelectItem>, Memory>
    ensures { IfOk result (λ found. map item_of found ≡ with_items [] (map item_of written.items)) }
{
    let mut found = Items::new(alloc);
    let mut seen = BTreeSet::new(alloc);
    for item in written {
        keep(alloc, item, &mut found, &mut seen)?;
    }
    Ok(found)
}

/// The query without the variables that are selected again.
fn kept_query(alloc: Global, written: Written) -> Result<Query, Memory>
    ensures { IfOk result (λ query. query_of query ≡ without_repeats (written_of written)) }
{
    let Written {
        distinct,
        selection,
        body,
        keys,
        having,
        order,
        slice,
    } = written;
    let Selection { star, items } = selection;
    Ok(Query {
        distinct,
        star,
        items: kept_items(alloc, items)?,
        body,
        keys,
        having,
        order,
        limit: slice.limit,
        offset: slice.offset,
    })
}

/// The query that the symbols spell, all of them (SPARQL 1.1, section 19.8, SelectQuery).
///
/// `NotAQuery` comes exactly where they spell none. No other fault but `Memory` comes from here. The
/// time is linear in the symbols and in the texts that the tree holds, each triple its own subject, but
/// for the look-up of selected variables in a tree.
pub fn read_symbols(alloc: Global, symbols: &[Symbol]) -> Result<Query, QueryFault>
    ensures found { IfOk result (λ query. IsQuery symbols.now (query_of query)) }
    ensures why { IfErr result (WhyNoQuery symbols.now) }
{
    let mut cursor = Cursor::new(symbols);
    match query(alloc, &mut cursor, symbols.len() + 1) {
        Ok(written) => match cursor.peek() {
            None => Ok(kept_query(alloc, written)?),
            Some(_) => Err(QueryFault::NotAQuery),
        },
        Err(Fault::NotAQuery) => Err(QueryFault::NotAQuery),
        Err(Fault::Memory) => Err(QueryFault::Memory),
    }
}
