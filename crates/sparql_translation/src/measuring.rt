//! The depth and the weight of a query, counted over its groups. No operator is made, so that a query
//! that is too deep is refused before anything is as deep as it.

ghost use Rattle.std.specs.Prelude.{◌≡◌, ◌++◌, ◌∷◌, [], map, List, Option};
ghost use Rattle.term_core.specs.declared.pattern.Pattern.{Pattern};
ghost use Rattle.sparql_tree.specs.Algebra.{Algebra};
ghost use Rattle.sparql_tree.specs.Breaches.{item_values};
ghost use Rattle.sparql_tree.specs.Exprs as exprs;
ghost use Rattle.sparql_tree.specs.ExprTrees.{trees_of};
ghost use Rattle.sparql_tree.specs.Groups as tree;
ghost use Rattle.sparql_tree.specs.GroupTrees.{element_of, elements_of, group_of, groups_of, item_of, key_of, order_of, query_of};
ghost use Rattle.sparql_tree.specs.Sizes.{counted, outside_group, query_depth, query_weight};
ghost use Rattle.sparql_tree.specs.Translation as translation;
ghost use Rattle.sparql_tree.specs.Translation.{unit, conjunction, filters_in};
ghost use Rattle.sparql_translation.specs.Measures.{IsMeasure, IsFront, AreSums, IsCondition, behind_part, open_patterns, IsUnited, union_with, united};

use crate::measure::{
    Condition, Front, Measure, Sums, as_condition, closed, front_of, no_front, no_sums,
    of_extended, of_filtered, of_joined, of_left_join, of_minus, of_table, of_union, of_unit,
    with_expression, with_patterns, with_sums,
};
use sparql_tree::{Element, Expr, Group, GroupKey, OrderKey, Query, SelectItem};

/// The filters that stand directly in a group.
fn sums_of_filters(elements: &[Element]) -> Sums
    ensures { AreSums result (filters_in (tree.elements (elements_of elements.now))) }
{
    let mut sums = no_sums();
    for element in elements {
        sums = with_filter(sums, element);
    }
    sums
}

/// One part more, if it is a filter.
fn with_filter(sums: Sums, element: &Element) -> Sums
    ensures { (es : List exprs.Expr) → AreSums sums es
        → AreSums result (es ++ filters_in (tree.elements (element_of element.now ∷ []))) }
{
    match element {
        Element::Filter(value) => with_expression(sums, value),
        _ => sums,
    }
}

/// The one condition that the filters of a group are.
fn condition_of(elements: &[Element]) -> Condition
    ensures { IsCondition result (conjunction (filters_in (tree.elements (elements_of elements.now)))) }
{
    as_condition(sums_of_filters(elements))
}

/// A group.
#[cycle(measuring)]
pub fn measure_group(group: &Group) -> Measure
    ensures { IsMeasure result (translation.of_group (group_of group.now)) }
{
    of_filtered(
        measure_elements(&group.elements),
        condition_of(&group.elements),
    )
}

/// The parts of a group, without its filters.
#[cycle(measuring)]
fn measure_elements(elements: &[Element]) -> Measure
    ensures { IsMeasure result (translation.of_elements unit [] (tree.elements (elements_of elements.now))) }
{
    let mut front = no_front();
    for element in elements {
        front = measure_behind(front, element);
    }
    closed(front)
}

/// One part more.
#[cycle(measuring)]
fn measure_behind(front: Front, element: &Element) -> Front
    ensures { (a : Algebra) (ps : List Pattern) → IsFront front a ps
        → IsFront result (behind_part a ps (element_of element.now)) (open_patterns ps (element_of element.now)) }
{
    match element {
        Element::Triples(patterns) => with_patterns(front, patterns.len()),
        Element::Filter(_) => front,
        Element::Groups(groups) => front_of(of_joined(closed(front), measure_groups(groups))),
        Element::Optional(group) => front_of(of_left_join(
            closed(front),
            measure_elements(&group.elements),
            condition_of(&group.elements),
        )),
        Element::Minus(group) => front_of(of_minus(closed(front), measure_group(group))),
        Element::Bind { value, variable: _ } => front_of(of_extended(closed(front), value)),
        Element::Values { variables, rows } => {
            front_of(of_joined(closed(front), of_table(variables.len(), rows.len())))
        }
    }
}

/// Groups between UNION.
#[cycle(measuring)]
fn measure_groups(groups: &[Group]) -> Measure
    ensures { IsMeasure result (translation.of_groups (tree.groups (groups_of groups.now))) }
{
    let mut so_far = None;
    for group in groups {
        so_far = Some(also(so_far, measure_group(group)));
    }
    all_of(so_far)
}

/// One group more in the union so far, if there is one.
fn also(so_far: Option<Measure>, next: Measure) -> Measure
    ensures { (before : Option Algebra) (a : Algebra) → IsUnited so_far before → IsMeasure next a
        → IsMeasure result (union_with before a) }
{
    match so_far {
        None => next,
        Some(before) => of_union(before, next),
    }
}

/// The union of all groups, if there is one.
fn all_of(so_far: Option<Measure>) -> Measure
    ensures { (before : Option Algebra) → IsUnited so_far before → IsMeasure result (united before tree.EndOfGroups) }
{
    match so_far {
        None => of_unit(),
        Some(all) => all,
    }
}

/// The values of what is selected.
fn sums_of_items(items: &[SelectItem]) -> Sums
    ensures { AreSums result (item_values (map item_of items.now)) }
{
    let mut sums = no_sums();
    for item in items {
        sums = with_item(sums, item);
    }
    sums
}

fn with_item(sums: Sums, item: &SelectItem) -> Sums
    ensures { (es : List exprs.Expr) → AreSums sums es → AreSums result (es ++ item_values (item_of item.now ∷ [])) }
{
    match &item.value {
        None => sums,
        Some(value) => with_expression(sums, value),
    }
}

/// The values by which solutions are grouped.
fn sums_of_keys(keys: &[GroupKey]) -> Sums
    ensures { AreSums result (map (λ (key : tree.GroupKey). key.value) (map key_of keys.now)) }
{
    let mut sums = no_sums();
    for key in keys {
        sums = with_expression(sums, &key.value);
    }
    sums
}

/// The conditions of HAVING.
fn sums_of_all(values: &[Expr]) -> Sums
    ensures { AreSums result (trees_of values.now) }
{
    let mut sums = no_sums();
    for value in values {
        sums = with_expression(sums, value);
    }
    sums
}

/// The values by which solutions are ordered.
fn sums_of_order(keys: &[OrderKey]) -> Sums
    ensures { AreSums result (map (λ (key : tree.OrderKey). key.value) (map order_of keys.now)) }
{
    let mut sums = no_sums();
    for key in keys {
        sums = with_expression(sums, &key.value);
    }
    sums
}

/// The expressions that stand outside a query's group.
fn sums_outside(query: &Query) -> Sums
    ensures { AreSums result (outside_group (query_of query.now)) }
{
    let having = sums_of_all(query.having.as_slice());
    let behind_keys = with_sums(having, sums_of_order(query.order.as_slice()));
    let behind_items = with_sums(sums_of_keys(query.keys.as_slice()), behind_keys);
    with_sums(sums_of_items(query.items.as_slice()), behind_items)
}

/// The depth and the weight of a query.
#[derive(Clone, Copy, Drop)]
pub struct QuerySize {
    pub depth: u64,
    pub weight: u64,
}

/// The depth and the weight of a query, each up to `2^64 - 1`. The time is linear in the query, and the calls
/// nest as deep as its groups and its expressions do.
pub fn size_of_query(query: &Query) -> QuerySize
    ensures depth { result.depth ≡ counted (query_depth (query_of query.now)) }
    ensures weight { result.weight ≡ counted (query_weight (query_of query.now)) }
{
    let body = measure_group(&query.body);
    let outside = sums_outside(query);
    QuerySize {
        depth: body.depth.max(body.expression.max(outside.depth)),
        weight: body.weight.saturating_add(outside.weight),
    }
}
