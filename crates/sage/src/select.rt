// The query that a text is of, as far as queries are answered.
ghost use Rattle.std.specs.Prelude.{◌≡◌, map, IfOk};
ghost use Rattle.std.specs.Option.{option_copied};
ghost use Rattle.sparql_tree.specs.AlgebraTrees.{algebra_of};
ghost use Rattle.sparql_algebra.specs.SplitTrees.{pure_part, pure_split};
ghost use Rattle.sage.specs.Answers.{ReadsQuery, SelectsOf, pattern_alone, only_pattern as pattern_of_parts};

use crate::refusal::{QueryRefusal, Refusal};
use sparql_algebra::{Part, Split, is_plain, prepare};
use sparql_tree::{Algebra, QueryFault};
use std::alloc::Global;
use term_core::{Items, Memory, Pattern, Text};

/// A query that asks for the solutions of one triple pattern.
#[derive(Drop)]
pub(crate) struct Select {
    pub names: Items<Text>,
    pub pattern: Pattern,
}

/// The triple pattern of operators that are one alone.
#[tactic(auto, unfolding(sparql_tree::specs::AlgebraTrees::algebra_of))]
fn pattern_in(a: &Algebra) -> Option<&Pattern>
    ensures { option_copied result ≡ pattern_alone (algebra_of a.now) }
{
    match a {
        Algebra::Bgp(patterns) => match patterns.as_slice() {
            [pattern] => Some(pattern),
            _ => None,
        },
        _ => None,
    }
}

/// The triple pattern of parts that are one of one alone.
fn only_pattern(parts: &[Part]) -> Option<&Pattern>
    ensures { option_copied result ≡ pattern_of_parts (map pure_part parts.now) }
{
    match parts {
        [part] => pattern_in(&part.algebra),
        _ => None,
    }
}

/// A copy of the names and of the pattern.
fn selected(alloc: Global, names: &Items<Text>, pattern: &Pattern) -> Result<Select, Memory>
    ensures { IfOk result (λ select. (select.names ≡ names.now) × (select.pattern ≡ pattern.now)) }
{
    let pattern = pattern.copy(alloc)?;
    Ok(Select {
        names: names.copy(alloc)?,
        pattern,
    })
}

/// The names and the pattern of an accepted query, if it asks for no more.
fn select_of(alloc: Global, split: &Split) -> Result<Select, Refusal>
    ensures { SelectsOf result (pure_split split.now) }
{
    if !is_plain(&split.query) {
        return Err(Refusal::Query {
            cause: QueryRefusal::Form,
        });
    }
    match only_pattern(split.parts.as_slice()) {
        Some(pattern) => match selected(alloc, &split.variables, pattern) {
            Ok(select) => Ok(select),
            Err(_) => Err(Refusal::Memory),
        },
        None => Err(Refusal::Query {
            cause: QueryRefusal::Form,
        }),
    }
}

/// The query of a text. `Form` comes behind each other cause: where the text is accepted, and its query
/// asks for more than one triple pattern.
pub(crate) fn read_select(alloc: Global, query: &[u8]) -> Result<Select, Refusal>
    ensures { ReadsQuery result query.now }
{
    match prepare(alloc, query) {
        Ok(split) => select_of(alloc, &split),
        Err(QueryFault::Memory) => Err(Refusal::Memory),
        Err(fault) => Err(Refusal::Query {
            cause: QueryRefusal::Fault(fault),
        }),
    }
}
