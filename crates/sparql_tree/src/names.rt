//! The variables of the algebra.

ghost use Rattle.std.specs.Prelude.{◌≡◌, ◌++◌, ◌∷◌, [], List, flat_map, IfOk, OnOk};
ghost use Rattle.term_core.specs.Bags.{distinct};
ghost use Rattle.term_core.specs.Mappings.{Name, same_name};
ghost use Rattle.sparql_tree.specs.AlgebraTrees.{algebra_of};
ghost use Rattle.sparql_tree.specs.NameSets.{HasNames, with_new};
ghost use Rattle.sparql_tree.specs.Scopes as scopes;
ghost use Rattle.sparql_tree.specs.Variables as spec;

use crate::Algebra;
use std::alloc::Global;
use std::collections::BTreeSet;
use term_core::{Items, Memory, Pattern, Place, Text};

/// Adds a name that is not among those that stand before. The set has these.
fn add_new(
    alloc: Global,
    name: &Text,
    found: &mut Items<Text>,
    seen: &mut BTreeSet<String>,
) -> Result<(), Memory>
    ensures added { OnOk result ((before : List Name) → HasNames seen.old before → found.new ≡ with_new before name.now found.old) }
    ensures seen { OnOk result ((before : List Name) → HasNames seen.old before → HasNames seen.new (before ++ name.now ∷ [])) }
{
    if seen.insert(String::from_str(alloc, name.as_str())?)? {
        found.push(name.copy(alloc)?)?;
    }
    Ok(())
}

/// The names, each once and at its first place. The time is that of a look-up in a tree for each.
pub fn names_once(alloc: Global, names: &[Text]) -> Result<Items<Text>, Memory>
    ensures { IfOk result (λ found. found ≡ distinct same_name names.now) }
{
    let mut found = Items::new(alloc);
    let mut seen = BTreeSet::new(alloc);
    for name in names {
        add_new(alloc, name, &mut found, &mut seen)?;
    }
    Ok(found)
}

/// Adds the variable at a place of a triple pattern, if one stands there.
fn add_variable(alloc: Global, place: &Place, found: &mut Items<Text>) -> Result<(), Memory>
    ensures { OnOk result (found.new ≡ found.old ++ scopes.variable_in place.now) }
{
    match place {
        Place::Var(name) => found.push(name.copy(alloc)?),
        Place::Blank(_) | Place::Term(_) => Ok(()),
    }
}

/// Adds the variables of a triple pattern.
fn add_pattern(alloc: Global, pattern: &Pattern, found: &mut Items<Text>) -> Result<(), Memory>
    ensures { OnOk result (found.new ≡ found.old ++ scopes.variables_in pattern.now) }
{
    add_variable(alloc, &pattern.subject, found)?;
    add_variable(alloc, &pattern.predicate, found)?;
    add_variable(alloc, &pattern.object, found)
}

/// Adds the variables of triple patterns.
fn add_patterns(alloc: Global, patterns: &[Pattern], found: &mut Items<Text>) -> Result<(), Memory>
    ensures { OnOk result (found.new ≡ found.old ++ flat_map scopes.variables_in patterns.now) }
{
    for pattern in patterns {
        add_pattern(alloc, pattern, found)?;
    }
    Ok(())
}

/// Adds names.
fn add_names(alloc: Global, names: &[Text], found: &mut Items<Text>) -> Result<(), Memory>
    ensures { OnOk result (found.new ≡ found.old ++ names.now) }
{
    for name in names {
        found.push(name.copy(alloc)?)?;
    }
    Ok(())
}

/// Adds the variables that are in scope, each as often as it appears.
#[tactic(auto, unfolding(crate::specs::AlgebraTrees::algebra_of))]
fn add_in_scope(alloc: Global, a: &Algebra, found: &mut Items<Text>) -> Result<(), Memory>
    ensures { OnOk result (found.new ≡ found.old ++ spec.in_scope (algebra_of a.now)) }
{
    match a {
        Algebra::Bgp(patterns) => add_patterns(alloc, patterns.as_slice(), found),
        Algebra::Join(left, right) | Algebra::Union(left, right) => {
            add_in_scope(alloc, left, found)?;
            add_in_scope(alloc, right, found)
        }
        Algebra::LeftJoin { left, right, .. } => {
            add_in_scope(alloc, left, found)?;
            add_in_scope(alloc, right, found)
        }
        Algebra::Minus(left, _) => add_in_scope(alloc, left, found),
        Algebra::Filter { inner, .. } => add_in_scope(alloc, inner, found),
        Algebra::Extend {
            inner,
            variable,
            ..
        } => {
            add_in_scope(alloc, inner, found)?;
            found.push(variable.copy(alloc)?)
        }
        Algebra::Table { variables, .. } => add_names(alloc, variables.as_slice(), found),
    }
}

/// The variables in scope (SPARQL 1.1, section 18.2.1), each once, in the order in which they first
/// appear from left to right; an appearance in an expression or in the group of `MINUS` does not count.
/// The time is that of a look-up in a tree for each appearance.
pub fn variables(alloc: Global, a: &Algebra) -> Result<Items<Text>, Memory>
    ensures { IfOk result (λ found. found ≡ spec.variables (algebra_of a.now)) }
{
    let mut found = Items::new(alloc);
    add_in_scope(alloc, a, &mut found)?;
    names_once(alloc, found.as_slice())
}
