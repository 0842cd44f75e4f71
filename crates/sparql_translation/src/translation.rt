//! Groups as operators of the algebra (SPARQL 1.1, section 18.2.2).

ghost use Rattle.std.specs.Prelude.{◌≡◌, ◌++◌, ◌∷◌, [], IfOk, OnOk};
ghost use Rattle.sparql_tree.specs.Algebra as tree;
ghost use Rattle.sparql_tree.specs.AlgebraTrees.{algebra_of};
ghost use Rattle.sparql_tree.specs.ExprTrees.{tree_of, trees_of, tree_within};
ghost use Rattle.sparql_tree.specs.Groups as pure;
ghost use Rattle.sparql_tree.specs.Groups.{elements};
ghost use Rattle.sparql_tree.specs.GroupTrees.{element_of, elements_of, group_of, groups_of, query_of};
ghost use Rattle.sparql_tree.specs.Translation as spec;
ghost use Rattle.sparql_tree.specs.Translation.{translation, unit, filters_in};
ghost use Rattle.sparql_translation.specs.Measures as measures;
ghost use Rattle.sparql_translation.specs.Measures.{behind_part, open_patterns, union_with, united};
ghost use Rattle.sparql_translation.specs.Within.{algebra_within};

use sparql_tree::{Algebra, Element, Expr, Group, Query};
use std::alloc::Global;
use term_core::{Items, Memory, Pattern, Row, Text};

/// The operator so far, and the triple patterns behind it.
#[derive(Drop)]
struct Front {
    operator: Algebra,
    patterns: Items<Pattern>,
}

/// Whether it is the basic graph pattern without a triple pattern.
#[tactic(auto, unfolding(sparql_tree::specs::AlgebraTrees::algebra_of))]
fn is_unit(a: &Algebra) -> bool
    ensures { result ≡ measures.is_unit (algebra_of a.now) }
{
    match a {
        Algebra::Bgp(patterns) => patterns.len() == 0,
        _ => false,
    }
}

/// The basic graph pattern without a triple pattern.
#[tactic(auto, unfolding(sparql_tree::specs::AlgebraTrees::algebra_of))]
fn unit_of(alloc: Global) -> Algebra
    ensures { algebra_of result ≡ unit }
{
    Algebra::Bgp(Items::new(alloc))
}

/// The join of two, of which the unit is dropped.
fn joined(alloc: Global, left: Algebra, right: Algebra) -> Result<Algebra, Memory>
    ensures { IfOk result (λ a. algebra_of a ≡ spec.joined (algebra_of left) (algebra_of right)) }
{
    if is_unit(&left) {
        return Ok(right);
    }
    if is_unit(&right) {
        return Ok(left);
    }
    Algebra::join(alloc, left, right)
}

/// The operator with the triple patterns behind it.
#[tactic(auto, unfolding(sparql_tree::specs::AlgebraTrees::algebra_of))]
fn closed(alloc: Global, front: Front) -> Result<Algebra, Memory>
    ensures { IfOk result (λ a. algebra_of a ≡ spec.joined (algebra_of front.operator) (tree.Bgp front.patterns)) }
{
    let Front { operator, patterns } = front;
    joined(alloc, operator, Algebra::Bgp(patterns))
}

/// The operator so far joined with a table.
#[tactic(auto, unfolding(sparql_tree::specs::AlgebraTrees::algebra_of))]
fn with_table(
    alloc: Global,
    front: Algebra,
    variables: &Items<Text>,
    rows: &Items<Row>,
) -> Result<Algebra, Memory>
    ensures { IfOk result (λ a. algebra_of a ≡ spec.joined (algebra_of front) (tree.Table variables.now rows.now)) }
{
    let variables = variables.copy(alloc)?;
    let rows = rows.copy(alloc)?;
    joined(alloc, front, Algebra::Table { variables, rows })
}

/// An operator with a value under a variable's name.
fn with_value(
    alloc: Global,
    inner: Algebra,
    variable: &Text,
    value: &Expr,
) -> Result<Algebra, Memory>
    ensures { IfOk result (λ a. algebra_of a ≡ tree.Extend (algebra_of inner) variable.now (tree_of value.now)) }
{
    let variable = variable.copy(alloc)?;
    let value = value.copy(alloc)?;
    Algebra::extend(alloc, inner, variable, value)
}

/// An operator without a triple pattern behind it.
fn front_of(alloc: Global, operator: Algebra) -> Front
    ensures operator { result.operator ≡ operator }
    ensures patterns { result.patterns ≡ [] }
{
    Front {
        operator,
        patterns: Items::new(alloc),
    }
}

/// Triple patterns more.
fn with_patterns(alloc: Global, front: Front, more: &[Pattern]) -> Result<Front, Memory>
    ensures { IfOk result (λ f. (f.operator ≡ front.operator) × (f.patterns ≡ front.patterns ++ more.now)) }
{
    let Front {
        operator,
        mut patterns,
    } = front;
    add_patterns(alloc, more, &mut patterns)?;
    Ok(Front { operator, patterns })
}

fn add_patterns(
    alloc: Global,
    more: &[Pattern],
    patterns: &mut Items<Pattern>,
) -> Result<(), Memory>
    ensures { OnOk result (patterns.new ≡ patterns.old ++ more.now) }
{
    for pattern in more {
        patterns.push(pattern.copy(alloc)?)?;
    }
    Ok(())
}

/// The filters that stand directly in a group, in order.
fn filters_of(alloc: Global, parts: &[Element]) -> Result<Vec<Expr>, Memory>
    ensures { IfOk result (λ found. trees_of found.items ≡ filters_in (elements (elements_of parts.now))) }
{
    let mut found = Vec::new(alloc);
    for part in parts {
        add_filter(alloc, part, &mut found)?;
    }
    Ok(found)
}

fn add_filter(alloc: Global, part: &Element, found: &mut Vec<Expr>) -> Result<(), Memory>
    ensures { OnOk result (trees_of found.new.items
        ≡ trees_of found.old.items ++ filters_in (elements (element_of part.now ∷ []))) }
{
    match part {
        Element::Filter(value) => add_copy(alloc, value, found),
        _ => Ok(()),
    }
}

fn add_copy(alloc: Global, value: &Expr, found: &mut Vec<Expr>) -> Result<(), Memory>
    ensures { OnOk result (trees_of found.new.items ≡ trees_of found.old.items ++ tree_of value.now ∷ []) }
{
    let copy = value.copy(alloc)?;
    found.push(copy)?;
    Ok(())
}

/// One condition for all, if there is any.
fn conjunction(mut filters: Vec<Expr>) -> Option<Expr>
    ensures { tree_within result ≡ spec.conjunction (trees_of filters.items) }
{
    if filters.len() > 1 {
        return Some(Expr::and(filters));
    }
    filters.pop()
}

/// The one condition that the filters of a group are.
fn condition_of(alloc: Global, parts: &[Element]) -> Result<Option<Expr>, Memory>
    ensures { IfOk result (λ found. tree_within found ≡ spec.conjunction (filters_in (elements (elements_of parts.now)))) }
{
    let filters = filters_of(alloc, parts)?;
    Ok(conjunction(filters))
}

/// The solutions for which the condition is true, if there is one.
fn filtered(alloc: Global, condition: Option<Expr>, inner: Algebra) -> Result<Algebra, Memory>
    ensures { IfOk result (λ a. algebra_of a ≡ spec.filtered (tree_within condition) (algebra_of inner)) }
{
    match condition {
        None => Ok(inner),
        Some(condition) => Algebra::filter(alloc, condition, inner),
    }
}

/// One group more in the union so far, if there is one.
fn also(alloc: Global, so_far: Option<Algebra>, next: Algebra) -> Result<Algebra, Memory>
    ensures { IfOk result (λ a. algebra_of a ≡ union_with (algebra_within so_far) (algebra_of next)) }
{
    match so_far {
        None => Ok(next),
        Some(before) => Algebra::union(alloc, before, next),
    }
}

/// The union of all groups, if there is one.
fn all_of(alloc: Global, so_far: Option<Algebra>) -> Algebra
    ensures { algebra_of result ≡ united (algebra_within so_far) pure.EndOfGroups }
{
    match so_far {
        None => unit_of(alloc),
        Some(all) => all,
    }
}

/// The operator of a group.
#[cycle(translation)]
fn of_group(alloc: Global, group: &Group) -> Result<Algebra, Memory>
    ensures { IfOk result (λ a. algebra_of a ≡ spec.of_group (group_of group.now)) }
{
    let inner = of_elements(alloc, &group.elements)?;
    let condition = condition_of(alloc, &group.elements)?;
    filtered(alloc, condition, inner)
}

/// The operator of a group's parts, without its filters.
#[cycle(translation)]
#[tactic(auto, using(crate::proofs::Fronts::part_further))]
fn of_elements(alloc: Global, parts: &[Element]) -> Result<Algebra, Memory>
    ensures { IfOk result (λ a. algebra_of a ≡ spec.of_elements unit [] (elements (elements_of parts.now))) }
{
    let mut front = front_of(alloc, unit_of(alloc));
    for part in parts {
        front = behind(alloc, front, part)?;
    }
    closed(alloc, front)
}

/// One part more.
#[cycle(translation)]
#[tactic(auto, using(crate::proofs::Elements::views))]
fn behind(alloc: Global, front: Front, part: &Element) -> Result<Front, Memory>
    ensures operator { IfOk result (λ f. algebra_of f.operator
        ≡ behind_part (algebra_of front.operator) front.patterns (element_of part.now)) }
    ensures patterns { IfOk result (λ f. f.patterns ≡ open_patterns front.patterns (element_of part.now)) }
{
    match part {
        Element::Triples(patterns) => with_patterns(alloc, front, patterns.as_slice()),
        Element::Filter(_) => Ok(front),
        Element::Groups(groups) => behind_groups(alloc, front, groups),
        Element::Optional(group) => behind_optional(alloc, front, group),
        Element::Minus(group) => behind_minus(alloc, front, group),
        Element::Bind { value, variable } => behind_bind(alloc, front, value, variable),
        Element::Values { variables, rows } => behind_values(alloc, front, variables, rows),
    }
}

fn behind_bind(alloc: Global, front: Front, value: &Expr, variable: &Text) -> Result<Front, Memory>
    ensures operator { IfOk result (λ f. algebra_of f.operator
        ≡ tree.Extend (spec.joined (algebra_of front.operator) (tree.Bgp front.patterns)) variable.now (tree_of value.now)) }
    ensures patterns { IfOk result (λ f. f.patterns ≡ []) }
{
    let before = closed(alloc, front)?;
    Ok(front_of(alloc, with_value(alloc, before, variable, value)?))
}

fn behind_values(
    alloc: Global,
    front: Front,
    variables: &Items<Text>,
    rows: &Items<Row>,
) -> Result<Front, Memory>
    ensures operator { IfOk result (λ f. algebra_of f.operator
        ≡ spec.joined (spec.joined (algebra_of front.operator) (tree.Bgp front.patterns)) (tree.Table variables.now rows.now)) }
    ensures patterns { IfOk result (λ f. f.patterns ≡ []) }
{
    let before = closed(alloc, front)?;
    Ok(front_of(alloc, with_table(alloc, before, variables, rows)?))
}

#[cycle(translation)]
fn behind_groups(alloc: Global, front: Front, groups: &[Group]) -> Result<Front, Memory>
    ensures operator { IfOk result (λ f. algebra_of f.operator
        ≡ spec.joined (spec.joined (algebra_of front.operator) (tree.Bgp front.patterns)) (spec.of_groups (pure.groups (groups_of groups.now)))) }
    ensures patterns { IfOk result (λ f. f.patterns ≡ []) }
{
    let before = closed(alloc, front)?;
    let union = of_groups(alloc, groups)?;
    Ok(front_of(alloc, joined(alloc, before, union)?))
}

#[cycle(translation)]
fn behind_optional(alloc: Global, front: Front, group: &Group) -> Result<Front, Memory>
    ensures operator { IfOk result (λ f. algebra_of f.operator
        ≡ tree.LeftJoin (spec.joined (algebra_of front.operator) (tree.Bgp front.patterns))
        (spec.of_elements unit [] (elements (elements_of group.now.elements.items)))
        (spec.conjunction (filters_in (elements (elements_of group.now.elements.items))))) }
    ensures patterns { IfOk result (λ f. f.patterns ≡ []) }
{
    let before = closed(alloc, front)?;
    let inner = of_elements(alloc, &group.elements)?;
    let condition = condition_of(alloc, &group.elements)?;
    Ok(front_of(alloc, Algebra::left_join(alloc, before, inner, condition)?))
}

#[cycle(translation)]
fn behind_minus(alloc: Global, front: Front, group: &Group) -> Result<Front, Memory>
    ensures operator { IfOk result (λ f. algebra_of f.operator
        ≡ tree.Minus (spec.joined (algebra_of front.operator) (tree.Bgp front.patterns)) (spec.of_group (group_of group.now))) }
    ensures patterns { IfOk result (λ f. f.patterns ≡ []) }
{
    let before = closed(alloc, front)?;
    let inner = of_group(alloc, group)?;
    Ok(front_of(alloc, Algebra::minus(alloc, before, inner)?))
}

/// The operator of the groups between UNION.
#[cycle(translation)]
#[tactic(auto, using(crate::proofs::Fronts::group_further))]
fn of_groups(alloc: Global, groups: &[Group]) -> Result<Algebra, Memory>
    ensures { IfOk result (λ a. algebra_of a ≡ spec.of_groups (pure.groups (groups_of groups.now))) }
{
    let mut so_far = None;
    for group in groups {
        let next = of_group(alloc, group)?;
        so_far = Some(also(alloc, so_far, next)?);
    }
    Ok(all_of(alloc, so_far))
}

/// The algebra of a query's group (SPARQL 1.1, sections 18.2.2.5 to 18.2.2.8). Each group is read from left to
/// right: triples with only filters between are one basic graph pattern; the filters of a group stand
/// around the whole of it, several as one `&&`; those of OPTIONAL's own group are its condition; the pattern
/// without a triple is dropped from joins; unions nest to the left. `a` is `rdf:type` in the query's triples already.
///
/// There is no limit: a group of n parts can become n operators in a chain, and the calls that walk or drop it nest
/// as deep. `split` looks at the depth first. Time and room are linear in the query; the calls of this function
/// nest as deep as the groups.
pub fn translate(alloc: Global, query: &Query) -> Result<Algebra, Memory>
    ensures { IfOk result (λ a. algebra_of a ≡ translation (query_of query.now)) }
{
    of_group(alloc, &query.body)
}
