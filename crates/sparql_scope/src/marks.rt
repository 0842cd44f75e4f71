//! What matters in a group for the rules on scope, in text order.

ghost use Rattle.std.specs.Prelude.{◌≡◌, ◌++◌, map, flat_map, OnOk};
ghost use Rattle.sparql_tree.specs.Breaches as spec;
ghost use Rattle.sparql_scope.specs.Places.{AreLast};
ghost use Rattle.sparql_tree.specs.Scopes.{labels_in, label_in, variables_in, variable_in};

use crate::places::{Places, add_place};
use sparql_tree::Mark;
use std::alloc::Global;
use term_core::{Memory, Pattern, Place, Text};

/// Adds the label of a place, if one stands there.
fn mark_place(alloc: Global, place: &Place, marks: &mut Vec<Mark>) -> Result<(), Memory>
    ensures { OnOk result (marks.new.items ≡ marks.old.items ++ map spec.label (label_in place.now)) }
{
    match place {
        Place::Blank(label) => Ok(marks.push(Mark::Label(label.copy(alloc)?))?),
        Place::Var(_) => Ok(()),
        Place::Term(_) => Ok(()),
    }
}

/// Adds the labels of patterns.
pub fn mark_labels(alloc: Global, patterns: &[Pattern], marks: &mut Vec<Mark>) -> Result<(), Memory>
    ensures { OnOk result (marks.new.items ≡ marks.old.items ++ map spec.label (flat_map labels_in patterns.now)) }
{
    for pattern in patterns {
        mark_place(alloc, &pattern.subject, marks)?;
        mark_place(alloc, &pattern.predicate, marks)?;
        mark_place(alloc, &pattern.object, marks)?;
    }
    Ok(())
}

/// Adds the variable of a place, if one stands there.
fn add_at(alloc: Global, place: &Place, places: &mut Places) -> Result<(), Memory>
    requires last { AreLast places.old.last places.old.names }
    ensures names { OnOk result (places.new.names ≡ places.old.names ++ variable_in place.now) }
    ensures last { OnOk result (AreLast places.new.last places.new.names) }
{
    match place {
        Place::Var(name) => add_place(alloc, name, places),
        Place::Blank(_) => Ok(()),
        Place::Term(_) => Ok(()),
    }
}

/// Adds the variables of patterns.
pub fn add_variables(alloc: Global, patterns: &[Pattern], places: &mut Places) -> Result<(), Memory>
    requires last { AreLast places.old.last places.old.names }
    ensures names { OnOk result (places.new.names ≡ places.old.names ++ flat_map variables_in patterns.now) }
    ensures last { OnOk result (AreLast places.new.last places.new.names) }
{
    for pattern in patterns {
        add_at(alloc, &pattern.subject, places)?;
        add_at(alloc, &pattern.predicate, places)?;
        add_at(alloc, &pattern.object, places)?;
    }
    Ok(())
}

/// Adds a variable, if it is there already.
pub fn mark_again(
    alloc: Global,
    there: bool,
    name: &Text,
    marks: &mut Vec<Mark>,
) -> Result<(), Memory>
    ensures { OnOk result (marks.new.items ≡ marks.old.items ++ spec.declared_again (spec.breach_if there name.now)) }
{
    if there {
        marks.push(Mark::Again(name.copy(alloc)?))?;
    }
    Ok(())
}

/// Adds variables that are there already.
pub fn mark_all(alloc: Global, names: &[Text], marks: &mut Vec<Mark>) -> Result<(), Memory>
    ensures { OnOk result (marks.new.items ≡ marks.old.items ++ spec.declared_again names.now) }
{
    for name in names {
        marks.push(Mark::Again(name.copy(alloc)?))?;
    }
    Ok(())
}
