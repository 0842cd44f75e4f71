//! Group graph patterns (SPARQL 1.1, section 19.8, GroupGraphPattern).

ghost use Rattle.std.specs.Prelude.{◌≡◌, ◌∷◌, ◌++◌, [], IfOk};
ghost use Rattle.sparql_tree.specs.ExprTrees.{tree_of};
ghost use Rattle.sparql_tree.specs.GroupTrees.{element_of, elements_of, group_of, groups_of};
ghost use Rattle.sparql_grammar.specs.Elements.{elements_there};
ghost use Rattle.sparql_grammar.specs.ExprReading.{expr};
ghost use Rattle.sparql_grammar.specs.GroupReading as spec;
ghost use Rattle.sparql_grammar.specs.Reads.{Reads, nothing};

use crate::cursor::Cursor;
use crate::exprs::{aggregate, call, expr};
use crate::fault::Fault;
use crate::triples::triples;
use crate::values::values;
use sparql_tree::{Element, Expr, Group, Shape};
use std::alloc::Global;
use term_core::Memory;

/// Goes past a point, if one stands there.
#[tactic(auto, unfolding(crate::specs::GroupReading::point))]
fn point(cursor: &mut Cursor<'_>) -> Result<(), Fault>
    ensures { Reads nothing (spec.point cursor.old) result cursor.new }
{
    match cursor.peek() {
        Some(Shape::Point) => {
            cursor.advance();
            Ok(())
        }
        _ => Ok(()),
    }
}

/// A condition: an expression in parentheses, a call, or an aggregate where one may stand.
#[tactic(auto, unfolding(crate::specs::GroupReading::constraint))]
pub fn constraint(
    alloc: Global,
    cursor: &mut Cursor<'_>,
    room: usize,
    aggregates: bool,
) -> Result<Expr, Fault>
    ensures { Reads tree_of (spec.constraint (expr room) aggregates cursor.old) result cursor.new }
{
    match cursor.peek() {
        Some(Shape::Open) => {
            cursor.advance();
            let inner = expr(alloc, cursor, room, aggregates)?;
            cursor.close()?;
            Ok(inner)
        }
        Some(Shape::Function(function)) => {
            cursor.advance();
            call(alloc, cursor, room, aggregates, function)
        }
        Some(Shape::Aggregate(kind)) => {
            if !aggregates {
                return Err(Fault::NotAQuery);
            }
            cursor.advance();
            aggregate(alloc, cursor, room, aggregates, kind)
        }
        _ => Err(Fault::NotAQuery),
    }
}

/// What follows `BIND`.
#[tactic(auto, unfolding(crate::specs::GroupReading::bound))]
fn bound(alloc: Global, cursor: &mut Cursor<'_>, room: usize) -> Result<Element, Fault>
    ensures { Reads element_of (spec.bound (expr room) cursor.old) result cursor.new }
{
    cursor.open()?;
    let value = expr(alloc, cursor, room, false)?;
    cursor.as_word()?;
    let variable = cursor.name(alloc)?;
    cursor.close()?;
    Ok(Element::bind(value, variable))
}

/// Adds a part to those that were found, if there is one.
fn push_there(found: &mut Vec<Element>, part: Option<Element>) -> Result<(), Memory>
    ensures { IfOk result (λ done. elements_of found.new.items
        ≡ elements_of found.old.items ++ elements_there part) }
{
    match part {
        None => Ok(()),
        Some(part) => Ok(found.push(part)?),
    }
}

/// A group. `NotAQuery` comes exactly where none of the grammar stands there within the room.
#[cycle(group)]
pub fn group(alloc: Global, cursor: &mut Cursor<'_>, room: usize) -> Result<Group, Fault>
    ensures { Reads group_of (spec.group room cursor.old) result cursor.new }
{
    if room == 0 {
        return Err(Fault::NotAQuery);
    }
    braced(alloc, cursor, room - 1)
}

/// What stands in braces.
#[cycle(group)]
#[tactic(auto, unfolding(crate::specs::GroupReading::braced))]
fn braced(alloc: Global, cursor: &mut Cursor<'_>, room: usize) -> Result<Group, Fault>
    ensures { Reads group_of (spec.braced (expr room) (spec.group room) cursor.old) result cursor.new }
{
    cursor.open_brace()?;
    let first = triples(alloc, cursor)?;
    let mut found = Vec::new(alloc);
    push_there(&mut found, first)?;
    body(alloc, cursor, room, &mut found)?;
    cursor.close_brace()?;
    Ok(Group::new(found))
}

/// The parts up to `}`, added to those that were found.
#[cycle(group)]
fn body(
    alloc: Global,
    cursor: &mut Cursor<'_>,
    room: usize,
    found: &mut Vec<Element>,
) -> Result<(), Fault>
    ensures { Reads (λ done. elements_of found.new.items)
        (spec.body (expr room) (spec.group room) (elements_of found.old.items) cursor.old)
        result cursor.new }
{
    for _turn in 0..cursor.left() {
        match cursor.peek() {
            Some(Shape::CloseBrace) => return Ok(()),
            _ => step(alloc, cursor, room, found)?,
        }
    }
    Ok(())
}

/// One part that is no triples, a point or none, and triples or none.
#[cycle(group)]
#[tactic(auto, unfolding(crate::specs::GroupReading::step))]
fn step(
    alloc: Global,
    cursor: &mut Cursor<'_>,
    room: usize,
    found: &mut Vec<Element>,
) -> Result<(), Fault>
    ensures { Reads (λ done. elements_of found.new.items)
        (spec.step (expr room) (spec.group room) (elements_of found.old.items) cursor.old)
        result cursor.new }
{
    let part = element(alloc, cursor, room)?;
    push_there(found, Some(part))?;
    point(cursor)?;
    let behind = triples(alloc, cursor)?;
    Ok(push_there(found, behind)?)
}

/// One part that is no triples.
#[cycle(group)]
#[tactic(auto, unfolding(crate::specs::GroupReading::element))]
fn element(alloc: Global, cursor: &mut Cursor<'_>, room: usize) -> Result<Element, Fault>
    ensures { Reads element_of (spec.element (expr room) (spec.group room) cursor.old) result cursor.new }
{
    match cursor.peek() {
        Some(Shape::Optional) => {
            cursor.advance();
            Ok(Element::optional(group(alloc, cursor, room)?))
        }
        Some(Shape::Without) => {
            cursor.advance();
            Ok(Element::minus(group(alloc, cursor, room)?))
        }
        Some(Shape::Filter) => {
            cursor.advance();
            Ok(Element::filter(constraint(alloc, cursor, room, false)?))
        }
        Some(Shape::Bind) => {
            cursor.advance();
            bound(alloc, cursor, room)
        }
        Some(Shape::Values) => {
            cursor.advance();
            values(alloc, cursor)
        }
        _ => {
            let first = group(alloc, cursor, room)?;
            let all = union_from(alloc, cursor, room, first)?;
            Ok(Element::union(all))
        }
    }
}

/// The first group, and those that follow, each behind `UNION`.
#[cycle(group)]
fn union_from(
    alloc: Global,
    cursor: &mut Cursor<'_>,
    room: usize,
    first: Group,
) -> Result<Vec<Group>, Fault>
    ensures { Reads (λ all. groups_of all.items)
        (spec.union_from (expr room) (spec.group room) (group_of first ∷ []) cursor.old)
        result cursor.new }
{
    let mut found = Vec::new(alloc);
    found.push(first)?;
    for _turn in 0..cursor.left() {
        match cursor.peek() {
            Some(Shape::Union) => {
                cursor.advance();
                found.push(group(alloc, cursor, room)?)?;
            }
            _ => return Ok(found),
        }
    }
    Ok(found)
}
