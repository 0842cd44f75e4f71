//! The query of a text.

ghost use Rattle.std.specs.Prelude.{IfOk, IfErr};
ghost use Rattle.sparql_tree.specs.GroupTrees.{query_of};
ghost use Rattle.sparql_tree.specs.Accepted.{IsAccepted, WhyQueryRefused};

use crate::tree::read_tree;
use sparql_scope::first_breach;
use sparql_tree::{Query, QueryFault};
use std::alloc::Global;

/// The query of a text (SPARQL 1.1, section 19.8), if the scopes of its variables and labels keep the
/// rules of the language (sections 10.2, 11.4, 18.2.1 and 19.6).
///
/// Of the causes of a refusal the first in this order is given: those of `read_tree`, which are
/// `TooLarge(Size::Text)`, `Lex`, `Unsupported`, `TooLarge(Size::Nesting)` and `NotAQuery`; then
/// `Scope`, where a rule is broken, with the name at the first place in the text that breaks one.
///
/// The time is linear in the text and in the texts that the tree holds, each name its whole IRI and each
/// triple its own subject, but for look-ups of prefixes, variables and labels in a tree.
pub fn read_query(alloc: Global, text: &[u8]) -> Result<Query, QueryFault>
    ensures found { IfOk result (λ query. IsAccepted text.now (query_of query)) }
    ensures why { IfErr result (WhyQueryRefused text.now) }
{
    let query = read_tree(alloc, text)?;
    match first_breach(alloc, &query)? {
        None => Ok(query),
        Some(variable) => Err(QueryFault::Scope { variable }),
    }
}
