//! Queries prepared: read, and cut into parts.

ghost use Rattle.std.specs.Prelude.{◌≡◌, map, IfOk, IfErr};
ghost use Rattle.term_core.specs.Bags.{distinct};
ghost use Rattle.term_core.specs.Mappings.{same_name};
ghost use Rattle.sparql_tree.specs.AlgebraTrees.{algebra_of};
ghost use Rattle.sparql_tree.specs.Groups as tree;
ghost use Rattle.sparql_tree.specs.GroupTrees.{item_of, query_of};
ghost use Rattle.sparql_tree.specs.Translation.{translation};
ghost use Rattle.sparql_algebra.specs.Cuts as cuts;
ghost use Rattle.sparql_algebra.specs.Prepared.{IsCutOf, WhyNotCut, Accepted, WhyNotPrepared};
ghost use Rattle.sparql_algebra.specs.SplitTrees.{pure_split};

use crate::Split;
use crate::cutting::cut;
use crate::texts::check_texts;
use sparql_read::read_query;
use sparql_translation::{size_of_query, translate};
use sparql_tree::{Algebra, Query, QueryFault, SelectItem, Size, names_once, variables};
use std::alloc::Global;
use term_core::{Items, Memory, Text};

/// The most levels of the algebra, and of each expression.
const DEPTH_LIMIT: u64 = 100;

/// The most that a query may weigh.
const WEIGHT_LIMIT: u64 = 4_000;

/// The variables of what is selected, in order.
fn selected(alloc: Global, items: &[SelectItem]) -> Result<Items<Text>, Memory>
    ensures { IfOk result (λ names. names ≡ map (λ (item : tree.SelectItem). item.variable) (map item_of items.now)) }
{
    let mut names = Items::new(alloc);
    for item in items {
        names.push(item.variable.copy(alloc)?)?;
    }
    Ok(names)
}

/// The variables of a query's answer.
fn answered(alloc: Global, query: &Query, a: &Algebra) -> Result<Items<Text>, Memory>
    requires { algebra_of a.now ≡ translation (query_of query.now) }
    ensures { IfOk result (λ names. names ≡ cuts.answered (query_of query.now)) }
{
    if query.star {
        return variables(alloc, a);
    }
    let names = selected(alloc, query.items.as_slice())?;
    names_once(alloc, names.as_slice())
}

/// A query cut into parts: an operator that a server evaluates (`is_server`) becomes one part, any other is kept
/// over its operands, and the parts are numbered from 0 from left to right.
///
/// Of the causes of a refusal the first in this order is given: `TooLarge(Size::Depth)` where the operators nest
/// deeper than 100 or an expression by itself does; `TooLarge(Size::Weight)` where all weighs more than 4,000;
/// `TooLarge(Size::Part)` where the text of a part has more than 262,144 bytes, or more than 256 groups are open
/// at one place in it. The first two are decided on the query, before any operator is made.
///
/// The time is linear in the query and in the texts of the parts, but that each operator is looked at once for
/// each of the at most 100 above it.
pub fn split(alloc: Global, query: Query) -> Result<Split, QueryFault>
    ensures found { IfOk result (λ s. IsCutOf (query_of query) (pure_split s)) }
    ensures why { IfErr result (WhyNotCut (query_of query)) }
{
    let size = size_of_query(&query);
    if size.depth > DEPTH_LIMIT {
        return Err(QueryFault::TooLarge(Size::Depth));
    }
    if size.weight > WEIGHT_LIMIT {
        return Err(QueryFault::TooLarge(Size::Weight));
    }
    let algebra = translate(alloc, &query)?;
    let variables = answered(alloc, &query, &algebra)?;
    let mut parts = Items::new(alloc);
    let tree = cut(alloc, algebra, &mut parts)?;
    check_texts(alloc, parts.as_slice())?;
    Ok(Split {
        query,
        parts,
        tree,
        variables,
    })
}

/// The query of a text, cut into parts. Of the causes of a refusal the first in this order is given: those of
/// `sparql_read::read_query`, then those of `split`.
pub fn prepare(alloc: Global, text: &[u8]) -> Result<Split, QueryFault>
    ensures found { IfOk result (λ s. Accepted text.now (pure_split s)) }
    ensures why { IfErr result (WhyNotPrepared text.now) }
{
    let query = read_query(alloc, text)?;
    split(alloc, query)
}
