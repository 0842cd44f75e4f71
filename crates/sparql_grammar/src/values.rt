//! Inline data (SPARQL 1.1, section 19.8, DataBlock).

ghost use Rattle.std.specs.Prelude.{◌≡◌, IfOk};
ghost use Rattle.sparql_tree.specs.GroupTrees.{element_of};
ghost use Rattle.sparql_tree.specs.Values.{with_cell};
ghost use Rattle.sparql_grammar.specs.ValueReading as spec;
ghost use Rattle.sparql_grammar.specs.Reads.{Reads, same};

use crate::cursor::Cursor;
use crate::fault::Fault;
use crate::terms::term;
use sparql_tree::{Element, Shape};
use std::alloc::Global;
use term_core::{Items, Memory, Row, RowBuilder, Term, Text};

/// A term, or none for `UNDEF`.
#[tactic(auto, unfolding(crate::specs::ValueReading::cell))]
fn cell(alloc: Global, cursor: &mut Cursor<'_>) -> Result<Option<Term>, Fault>
    ensures { Reads same (spec.cell cursor.old) result cursor.new }
{
    match cursor.peek() {
        Some(Shape::Undef) => {
            cursor.advance();
            Ok(None)
        }
        _ => Ok(Some(term(alloc, cursor)?)),
    }
}

/// Binds the name to the cell's term, if it has one.
fn set_cell(
    alloc: Global,
    row: &mut RowBuilder,
    name: &Text,
    cell: Option<Term>,
) -> Result<(), Memory>
    ensures { IfOk result (λ done. row.new ≡ with_cell row.old name.now cell) }
{
    match cell {
        None => Ok(()),
        Some(term) => row.set(name.copy(alloc)?, term),
    }
}

/// A cell for each of the variables. The time is that of a look-up in a tree for each.
fn row(alloc: Global, cursor: &mut Cursor<'_>, variables: &[Text]) -> Result<Row, Fault>
    ensures { Reads same (spec.row variables.now cursor.old) result cursor.new }
{
    let mut row = RowBuilder::new(alloc);
    for name in variables {
        let found = cell(alloc, cursor)?;
        set_cell(alloc, &mut row, name, found)?;
    }
    Ok(row.build(alloc)?)
}

/// Rows of one variable, up to `}`.
fn one_rows(alloc: Global, cursor: &mut Cursor<'_>, variables: &[Text]) -> Result<Items<Row>, Fault>
    ensures { Reads same (spec.one_rows variables.now cursor.old) result cursor.new }
{
    let mut found = Items::new(alloc);
    for _turn in 0..cursor.left() {
        match cursor.peek() {
            Some(Shape::CloseBrace) => return Ok(found),
            _ => found.push(row(alloc, cursor, variables)?)?,
        }
    }
    Ok(found)
}

/// Variables, as many as stand there.
fn names(alloc: Global, cursor: &mut Cursor<'_>) -> Result<Items<Text>, Fault>
    ensures { Reads same (spec.names cursor.old) result cursor.new }
{
    let mut found = Items::new(alloc);
    for _turn in 0..cursor.left() {
        match cursor.peek() {
            Some(Shape::Var) => found.push(cursor.take(alloc)?)?,
            _ => return Ok(found),
        }
    }
    Ok(found)
}

/// Rows in parentheses, as many as stand there.
fn full_rows(
    alloc: Global,
    cursor: &mut Cursor<'_>,
    variables: &[Text],
) -> Result<Items<Row>, Fault>
    ensures { Reads same (spec.full_rows variables.now cursor.old) result cursor.new }
{
    let mut found = Items::new(alloc);
    for _turn in 0..cursor.left() {
        match cursor.peek() {
            Some(Shape::Open) => {
                cursor.advance();
                let row = row(alloc, cursor, variables)?;
                cursor.close()?;
                found.push(row)?;
            }
            _ => return Ok(found),
        }
    }
    Ok(found)
}

/// What follows one variable.
#[tactic(auto, unfolding(crate::specs::ValueReading::one))]
fn one(alloc: Global, cursor: &mut Cursor<'_>, name: Text) -> Result<Element, Fault>
    ensures { Reads element_of (spec.one name cursor.old) result cursor.new }
{
    let mut variables = Items::new(alloc);
    variables.push(name)?;
    cursor.open_brace()?;
    let rows = one_rows(alloc, cursor, variables.as_slice())?;
    cursor.close_brace()?;
    Ok(Element::values(variables, rows))
}

/// What follows the parenthesis before the variables.
#[tactic(auto, unfolding(crate::specs::ValueReading::full))]
fn full(alloc: Global, cursor: &mut Cursor<'_>) -> Result<Element, Fault>
    ensures { Reads element_of (spec.full cursor.old) result cursor.new }
{
    let variables = names(alloc, cursor)?;
    cursor.close()?;
    cursor.open_brace()?;
    let rows = full_rows(alloc, cursor, variables.as_slice())?;
    cursor.close_brace()?;
    Ok(Element::values(variables, rows))
}

/// What follows `VALUES`.
#[tactic(auto, unfolding(crate::specs::ValueReading::values))]
pub fn values(alloc: Global, cursor: &mut Cursor<'_>) -> Result<Element, Fault>
    ensures { Reads element_of (spec.values cursor.old) result cursor.new }
{
    match cursor.peek() {
        Some(Shape::Var) => {
            let name = cursor.take(alloc)?;
            one(alloc, cursor, name)
        }
        Some(Shape::Open) => {
            cursor.advance();
            full(alloc, cursor)
        }
        _ => Err(Fault::NotAQuery),
    }
}
