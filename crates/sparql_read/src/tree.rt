//! The tree of a query's text.

ghost use Rattle.std.specs.Prelude.{IfOk, IfErr};
ghost use Rattle.sparql_tree.specs.GroupTrees.{query_of};
ghost use Rattle.sparql_tree.specs.Trees.{IsTree, WhyNoTree};

use crate::text::symbols;
use sparql_grammar::read_symbols;
use sparql_tree::{Query, QueryFault};
use std::alloc::Global;

/// The tree of a query's text, whatever the scopes of its variables (SPARQL 1.1, section 19.8).
///
/// Of the causes of a refusal the first in this order is given: those of `symbols`, which are
/// `TooLarge(Size::Text)`, `Lex`, `Unsupported` and `TooLarge(Size::Nesting)`; then `NotAQuery`,
/// where the text's symbols spell no query. `Scope` does not come from here.
///
/// The time is linear in the text and in the texts that the tree holds, each name its whole IRI and each
/// triple its own subject, but for look-ups of prefixes and of selected variables in a tree.
pub fn read_tree(alloc: Global, text: &[u8]) -> Result<Query, QueryFault>
    ensures found { IfOk result (λ query. IsTree text.now (query_of query)) }
    ensures why { IfErr result (WhyNoTree text.now) }
{
    let found = symbols(alloc, text)?;
    read_symbols(alloc, found.as_slice())
}
