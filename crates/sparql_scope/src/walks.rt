//! Walks over groups: their marks, and the variables that are in scope of them.

ghost use Rattle.std.specs.Prelude.{◌≡◌, ◌≤◌, ◌++◌, ◌∷◌, [], OnOk, drop, length};
ghost use Rattle.sparql_tree.specs.Groups as tree;
ghost use Rattle.sparql_tree.specs.GroupTrees.{element_of, elements_of, group_of, groups_of};
ghost use Rattle.sparql_tree.specs.Breaches as spec;
ghost use Rattle.sparql_scope.specs.Places.{AreLast};
ghost use Rattle.sparql_tree.specs.Scopes.{scope_at, scope_of, scope_of_group, scope_of_groups};

use crate::marks::{add_variables, mark_again, mark_all, mark_labels};
use crate::names::repeated_names;
use crate::places::{Places, add_place, add_places, is_from, no_places};
use sparql_tree::{Element, Group, Mark};
use std::alloc::Global;
use term_core::{Items, Memory, Pattern, Text};

/// Walks over triple patterns.
fn walk_patterns(
    patterns: &Items<Pattern>,
    alloc: Global,
    places: &mut Places,
    marks: &mut Vec<Mark>,
) -> Result<(), Memory>
    requires last { AreLast places.old.last places.old.names }
    ensures names { OnOk result (places.new.names ≡ places.old.names ++ scope_at (tree.Triples patterns.now)) }
    ensures last { OnOk result (AreLast places.new.last places.new.names) }
    ensures marks { OnOk result (marks.new.items ≡ marks.old.items ++ spec.marks_at [] (tree.Triples patterns.now)) }
{
    mark_labels(alloc, patterns.as_slice(), marks)?;
    add_variables(alloc, patterns.as_slice(), places)
}

/// Walks over BIND. The variables from the place `start` on are those of the parts before it.
fn walk_bind(
    variable: &Text,
    alloc: Global,
    start: usize,
    places: &mut Places,
    marks: &mut Vec<Mark>,
) -> Result<(), Memory>
    requires last { AreLast places.old.last places.old.names }
    requires start { start ≤ length places.old.names }
    ensures names { OnOk result (places.new.names ≡ places.old.names ++ variable.now ∷ []) }
    ensures last { OnOk result (AreLast places.new.last places.new.names) }
    ensures marks { OnOk result (marks.new.items ≡ marks.old.items ++ spec.bind_marks (drop start places.old.names) variable.now) }
{
    marks.push(Mark::Edge)?;
    mark_again(alloc, is_from(places, start, variable), variable, marks)?;
    add_place(alloc, variable, places)
}

/// Walks over VALUES.
fn walk_values(
    variables: &Items<Text>,
    alloc: Global,
    places: &mut Places,
    marks: &mut Vec<Mark>,
) -> Result<(), Memory>
    requires last { AreLast places.old.last places.old.names }
    ensures names { OnOk result (places.new.names ≡ places.old.names ++ variables.now) }
    ensures last { OnOk result (AreLast places.new.last places.new.names) }
    ensures marks { OnOk result (marks.new.items ≡ marks.old.items ++ spec.values_marks variables.now) }
{
    marks.push(Mark::Edge)?;
    let again = repeated_names(alloc, variables.as_slice())?;
    mark_all(alloc, again.as_slice(), marks)?;
    add_places(alloc, variables.as_slice(), places)
}

/// Walks over a group. Its variables are added to those that are in scope before it.
#[cycle(walks)]
pub fn walk_group(
    group: &Group,
    alloc: Global,
    places: &mut Places,
    marks: &mut Vec<Mark>,
) -> Result<(), Memory>
    requires last { AreLast places.old.last places.old.names }
    ensures names { OnOk result (places.new.names ≡ places.old.names ++ scope_of_group (group_of group.now)) }
    ensures last { OnOk result (AreLast places.new.last places.new.names) }
    ensures marks { OnOk result (marks.new.items ≡ marks.old.items ++ spec.marks_of_group (group_of group.now)) }
{
    walk_elements(&group.elements, alloc, places.names.len(), places, marks)?;
    marks.push(Mark::Edge)?;
    Ok(())
}

/// Walks over the parts of a group, whose variables stand from the place `start` on.
#[cycle(walks)]
fn walk_elements(
    elements: &[Element],
    alloc: Global,
    start: usize,
    places: &mut Places,
    marks: &mut Vec<Mark>,
) -> Result<(), Memory>
    requires last { AreLast places.old.last places.old.names }
    requires start { start ≤ length places.old.names }
    ensures names { OnOk result (places.new.names ≡ places.old.names ++ scope_of (tree.elements (elements_of elements.now))) }
    ensures last { OnOk result (AreLast places.new.last places.new.names) }
    ensures marks { OnOk result (marks.new.items ≡ marks.old.items
        ++ spec.marks_of (drop start places.old.names) (tree.elements (elements_of elements.now))) }
{
    for element in elements {
        walk_element(element, alloc, start, places, marks)?;
    }
    Ok(())
}

/// Walks over a part. The variables from the place `start` on are those of the parts before it.
#[cycle(walks)]
#[tactic(auto, using(crate::proofs::Elements::views, crate::proofs::Parts::nothing_behind))]
fn walk_element(
    element: &Element,
    alloc: Global,
    start: usize,
    places: &mut Places,
    marks: &mut Vec<Mark>,
) -> Result<(), Memory>
    requires last { AreLast places.old.last places.old.names }
    requires start { start ≤ length places.old.names }
    ensures names { OnOk result (places.new.names ≡ places.old.names ++ scope_at (element_of element.now)) }
    ensures last { OnOk result (AreLast places.new.last places.new.names) }
    ensures marks { OnOk result (marks.new.items ≡ marks.old.items
        ++ spec.marks_at (drop start places.old.names) (element_of element.now)) }
{
    match element {
        Element::Triples(patterns) => walk_patterns(patterns, alloc, places, marks),
        Element::Groups(groups) => walk_groups(groups, alloc, places, marks),
        Element::Optional(group) => walk_behind(group, alloc, places, marks),
        Element::Minus(group) => {
            let mut inner = no_places(alloc);
            walk_behind(group, alloc, &mut inner, marks)
        }
        Element::Filter(_) => Ok(()),
        Element::Bind { value: _, variable } => walk_bind(variable, alloc, start, places, marks),
        Element::Values { variables, rows: _ } => walk_values(variables, alloc, places, marks),
    }
}

/// Walks over a group that ends a basic graph pattern before it.
#[cycle(walks)]
fn walk_behind(
    group: &Group,
    alloc: Global,
    places: &mut Places,
    marks: &mut Vec<Mark>,
) -> Result<(), Memory>
    requires last { AreLast places.old.last places.old.names }
    ensures names { OnOk result (places.new.names ≡ places.old.names ++ scope_of_group (group_of group.now)) }
    ensures last { OnOk result (AreLast places.new.last places.new.names) }
    ensures marks { OnOk result (marks.new.items ≡ marks.old.items ++ spec.behind_edge (spec.marks_of_group (group_of group.now))) }
{
    marks.push(Mark::Edge)?;
    walk_group(group, alloc, places, marks)
}

/// Walks over the groups of a union.
#[cycle(walks)]
fn walk_groups(
    groups: &[Group],
    alloc: Global,
    places: &mut Places,
    marks: &mut Vec<Mark>,
) -> Result<(), Memory>
    requires last { AreLast places.old.last places.old.names }
    ensures names { OnOk result (places.new.names ≡ places.old.names ++ scope_of_groups (tree.groups (groups_of groups.now))) }
    ensures last { OnOk result (AreLast places.new.last places.new.names) }
    ensures marks { OnOk result (marks.new.items ≡ marks.old.items
        ++ spec.behind_edge (spec.marks_of_groups (tree.groups (groups_of groups.now)))) }
{
    marks.push(Mark::Edge)?;
    for group in groups {
        walk_group(group, alloc, places, marks)?;
    }
    Ok(())
}
