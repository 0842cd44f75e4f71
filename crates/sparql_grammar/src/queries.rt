//! Queries (SPARQL 1.1, section 19.8, SelectQuery).

ghost use Rattle.std.specs.Prelude.{◌≡◌, ◌<◌, ◌^◌, ◌*◌, ◌+◌, ◌-◌, ◌∷◌, [], true, map, IfOk, OnOk};
ghost use Rattle.term_core.specs.Characters.{is_digit};
ghost use Rattle.term_core.specs.Numbers.{are_digits, value_after};
ghost use Rattle.sparql_tree.specs.ExprTrees.{tree_of, trees_of};
ghost use Rattle.sparql_tree.specs.GroupTrees.{group_of, item_of, key_of, order_of};
ghost use Rattle.sparql_tree.specs.Queries as grammar;
ghost use Rattle.sparql_grammar.specs.QueryReading as spec;
ghost use Rattle.sparql_grammar.specs.Counts.{below_64_bits, count_of_digits};
ghost use Rattle.sparql_grammar.specs.Reads.{Reads, same, nothing};
ghost use Rattle.sparql_grammar.specs.Written.{selection_of, slice_of, written_of};

use crate::cursor::Cursor;
use crate::exprs::{call, expr, variable};
use crate::fault::Fault;
use crate::groups::{constraint, group};
use sparql_tree::{Expr, Group, GroupKey, OrderKey, Query, SelectItem, Shape};
use std::alloc::Global;
use std::collections::BTreeSet;
use term_core::{Items, Memory, Text};

/// What is selected, with repeats.
#[derive(Drop)]
pub struct Selection {
    pub star: bool,
    pub items: Vec<SelectItem>,
}

/// Which of the rows are given.
#[derive(Drop)]
pub struct Slice {
    pub limit: Option<u64>,
    pub offset: u64,
}

/// A query as it is written.
#[derive(Drop)]
pub struct Written {
    pub distinct: bool,
    pub selection: Selection,
    pub body: Group,
    pub keys: Items<GroupKey>,
    pub having: Items<Expr>,
    pub order: Items<OrderKey>,
    pub slice: Slice,
}

/// Goes past `SELECT`.
#[tactic(auto, unfolding(crate::specs::QueryReading::select_word))]
fn select_word(cursor: &mut Cursor<'_>) -> Result<(), Fault>
    ensures { Reads nothing (spec.select_word cursor.old) result cursor.new }
{
    match cursor.peek() {
        Some(Shape::Select) => {
            cursor.advance();
            Ok(())
        }
        _ => Err(Fault::NotAQuery),
    }
}

/// Goes past `BY`.
#[tactic(auto, unfolding(crate::specs::QueryReading::by_word))]
fn by_word(cursor: &mut Cursor<'_>) -> Result<(), Fault>
    ensures { Reads nothing (spec.by_word cursor.old) result cursor.new }
{
    match cursor.peek() {
        Some(Shape::By) => {
            cursor.advance();
            Ok(())
        }
        _ => Err(Fault::NotAQuery),
    }
}

/// Goes past `WHERE`, if it stands there.
#[tactic(auto, unfolding(crate::specs::QueryReading::where_word))]
fn where_word(cursor: &mut Cursor<'_>) -> Result<(), Fault>
    ensures { Reads nothing (spec.where_word cursor.old) result cursor.new }
{
    match cursor.peek() {
        Some(Shape::Where) => {
            cursor.advance();
            Ok(())
        }
        _ => Ok(()),
    }
}

/// Whether `DISTINCT` stands there; `REDUCED` keeps all rows.
#[tactic(auto, unfolding(crate::specs::QueryReading::distinctness))]
fn distinctness(cursor: &mut Cursor<'_>) -> Result<bool, Fault>
    ensures { Reads same (spec.distinctness cursor.old) result cursor.new }
{
    match cursor.peek() {
        Some(Shape::Distinct) => {
            cursor.advance();
            Ok(true)
        }
        Some(Shape::Reduced) => {
            cursor.advance();
            Ok(false)
        }
        _ => Ok(false),
    }
}

/// Whether there is nothing but digits.
fn are_digits(text: &[u8]) -> bool
    ensures { result ≡ are_digits text.now }
{
    for c in text {
        if !c.is_ascii_digit() {
            return false;
        }
    }
    true
}

/// The number that a digit writes behind those of `n`, if it is below 2^64.
fn digit_after(n: u64, digit: u8) -> Option<u64>
    requires { is_digit digit ≡ true }
    ensures { result ≡ below_64_bits (n * 10 + (digit - 48)) }
{
    n.checked_mul(10)?.checked_add((digit - b'0') as u64)
}

/// The number that digits write, if it is below 2^64.
fn value(digits: &[u8]) -> Option<u64>
    requires { are_digits digits.now ≡ true }
    ensures { result ≡ below_64_bits (value_after 0 digits.now) }
{
    let mut n = 0;
    for digit in digits {
        n = digit_after(n, *digit)?;
    }
    Some(n)
}

/// The number of a text of digits, if it is below 2^64; none of any other text.
fn counted(text: &[u8]) -> Option<u64>
    ensures { result ≡ count_of_digits text.now }
{
    if are_digits(text) { value(text) } else { None }
}

/// A number behind `LIMIT` or `OFFSET`.
#[tactic(auto, unfolding(crate::specs::QueryReading::count))]
fn count(cursor: &mut Cursor<'_>) -> Result<u64, Fault>
    ensures { Reads same (spec.count cursor.old) result cursor.new }
{
    match cursor.peek() {
        Some(Shape::Integer) => {
            let found = counted(cursor.word());
            cursor.advance();
            match found {
                Some(n) => Ok(n),
                None => Err(Fault::NotAQuery),
            }
        }
        _ => Err(Fault::NotAQuery),
    }
}

/// `OFFSET`, or 0.
#[tactic(auto, unfolding(crate::specs::QueryReading::offset))]
fn offset(cursor: &mut Cursor<'_>) -> Result<u64, Fault>
    ensures { Reads same (spec.offset cursor.old) result cursor.new }
{
    match cursor.peek() {
        Some(Shape::Offset) => {
            cursor.advance();
            count(cursor)
        }
        _ => Ok(0),
    }
}

/// `LIMIT`, or none.
#[tactic(auto, unfolding(crate::specs::QueryReading::limit))]
fn limit(cursor: &mut Cursor<'_>) -> Result<Option<u64>, Fault>
    ensures { Reads same (spec.limit cursor.old) result cursor.new }
{
    match cursor.peek() {
        Some(Shape::Limit) => {
            cursor.advance();
            Ok(Some(count(cursor)?))
        }
        _ => Ok(None),
    }
}

/// `LIMIT` and `OFFSET`, either first.
#[tactic(auto, unfolding(crate::specs::QueryReading::slice))]
fn read_slice(cursor: &mut Cursor<'_>) -> Result<Slice, Fault>
    ensures { Reads slice_of (spec.slice cursor.old) result cursor.new }
{
    match cursor.peek() {
        Some(Shape::Offset) => {
            cursor.advance();
            let offset = count(cursor)?;
            let limit = limit(cursor)?;
            Ok(Slice { limit, offset })
        }
        _ => {
            let limit = limit(cursor)?;
            let offset = offset(cursor)?;
            Ok(Slice { limit, offset })
        }
    }
}

/// A value under a name, behind the parenthesis.
#[tactic(auto, unfolding(crate::specs::QueryReading::item_value))]
fn item_value(alloc: Global, cursor: &mut Cursor<'_>, room: usize) -> Result<SelectItem, Fault>
    ensures { Reads item_of (spec.item_value room cursor.old) result cursor.new }
{
    let value = expr(alloc, cursor, room, true)?;
    cursor.as_word()?;
    let variable = cursor.name(alloc)?;
    cursor.close()?;
    Ok(SelectItem {
        variable,
        value: Some(value),
    })
}

/// A variable, or a value under a name.
#[tactic(auto, unfolding(crate::specs::QueryReading::one_item))]
fn one_item(alloc: Global, cursor: &mut Cursor<'_>, room: usize) -> Result<SelectItem, Fault>
    ensures { Reads item_of (spec.one_item room cursor.old) result cursor.new }
{
    match cursor.peek() {
        Some(Shape::Var) => Ok(SelectItem {
            variable: cursor.take(alloc)?,
            value: None,
        }),
        Some(Shape::Open) => {
            cursor.advance();
            item_value(alloc, cursor, room)
        }
        _ => Err(Fault::NotAQuery),
    }
}

/// The first item, and those that follow.
fn items_from(
    alloc: Global,
    cursor: &mut Cursor<'_>,
    room: usize,
    first: SelectItem,
) -> Result<Vec<SelectItem>, Fault>
    ensures { Reads (λ found. map item_of found.items) (spec.items_from room (item_of first ∷ []) cursor.old) result cursor.new }
{
    let mut found = Vec::new(alloc);
    found.push(first)?;
    for _turn in 0..cursor.left() {
        match cursor.peek() {
            Some(Shape::Var) => found.push(one_item(alloc, cursor, room)?)?,
            Some(Shape::Open) => found.push(one_item(alloc, cursor, room)?)?,
            _ => return Ok(found),
        }
    }
    Ok(found)
}

/// `*`, or one item or more.
#[tactic(auto, unfolding(crate::specs::QueryReading::selection))]
fn read_selection(alloc: Global, cursor: &mut Cursor<'_>, room: usize) -> Result<Selection, Fault>
    ensures { Reads selection_of (spec.selection room cursor.old) result cursor.new }
{
    match cursor.peek() {
        Some(Shape::Star) => {
            cursor.advance();
            Ok(Selection {
                star: true,
                items: Vec::new(alloc),
            })
        }
        _ => {
            let first = one_item(alloc, cursor, room)?;
            let items = items_from(alloc, cursor, room, first)?;
            Ok(Selection { star: false, items })
        }
    }
}

/// A value with a name or none, behind the parenthesis.
#[tactic(auto, unfolding(crate::specs::QueryReading::key_value))]
fn key_value(alloc: Global, cursor: &mut Cursor<'_>, room: usize) -> Result<GroupKey, Fault>
    ensures { Reads key_of (spec.key_value room cursor.old) result cursor.new }
{
    let value = expr(alloc, cursor, room, false)?;
    match cursor.peek() {
        Some(Shape::As) => {
            cursor.advance();
            let name = cursor.name(alloc)?;
            cursor.close()?;
            Ok(GroupKey {
                value,
                variable: Some(name),
            })
        }
        _ => {
            cursor.close()?;
            Ok(GroupKey {
                value,
                variable: None,
            })
        }
    }
}

/// A key that is a variable has that name.
fn variable_key(alloc: Global, name: Text) -> Result<GroupKey, Memory>
    ensures { IfOk result (λ found. key_of found ≡ grammar.variable_key name) }
{
    let copy = name.copy(alloc)?;
    Ok(GroupKey {
        value: variable(copy),
        variable: Some(name),
    })
}

/// A variable, a call, or a value in parentheses.
#[tactic(auto, unfolding(crate::specs::QueryReading::one_key))]
fn one_key(alloc: Global, cursor: &mut Cursor<'_>, room: usize) -> Result<GroupKey, Fault>
    ensures { Reads key_of (spec.one_key room cursor.old) result cursor.new }
{
    match cursor.peek() {
        Some(Shape::Var) => {
            let name = cursor.take(alloc)?;
            Ok(variable_key(alloc, name)?)
        }
        Some(Shape::Open) => {
            cursor.advance();
            key_value(alloc, cursor, room)
        }
        Some(Shape::Function(function)) => {
            cursor.advance();
            let value = call(alloc, cursor, room, false, function)?;
            Ok(GroupKey {
                value,
                variable: None,
            })
        }
        _ => Err(Fault::NotAQuery),
    }
}

/// The first key, and those that follow.
fn keys_from(
    alloc: Global,
    cursor: &mut Cursor<'_>,
    room: usize,
    first: GroupKey,
) -> Result<Items<GroupKey>, Fault>
    ensures { Reads (λ found. map key_of found) (spec.keys_from room (key_of first ∷ []) cursor.old) result cursor.new }
{
    let mut found = Items::new(alloc);
    found.push(first)?;
    for _turn in 0..cursor.left() {
        match cursor.peek() {
            Some(Shape::Var) => found.push(one_key(alloc, cursor, room)?)?,
            Some(Shape::Open) => found.push(one_key(alloc, cursor, room)?)?,
            Some(Shape::Function(_)) => found.push(one_key(alloc, cursor, room)?)?,
            _ => return Ok(found),
        }
    }
    Ok(found)
}

/// `GROUP BY`, or nothing.
#[tactic(auto, unfolding(crate::specs::QueryReading::grouping))]
fn grouping(alloc: Global, cursor: &mut Cursor<'_>, room: usize) -> Result<Items<GroupKey>, Fault>
    ensures { Reads (λ found. map key_of found) (spec.grouping room cursor.old) result cursor.new }
{
    match cursor.peek() {
        Some(Shape::Group) => {
            cursor.advance();
            by_word(cursor)?;
            let first = one_key(alloc, cursor, room)?;
            keys_from(alloc, cursor, room, first)
        }
        _ => Ok(Items::new(alloc)),
    }
}

/// The first condition, and those that follow.
fn having_from(
    alloc: Global,
    cursor: &mut Cursor<'_>,
    room: usize,
    first: Expr,
) -> Result<Items<Expr>, Fault>
    ensures { Reads trees_of (spec.having_from room (tree_of first ∷ []) cursor.old) result cursor.new }
{
    let mut found = Items::new(alloc);
    found.push(first)?;
    for _turn in 0..cursor.left() {
        match cursor.peek() {
            Some(Shape::Open) => found.push(constraint(alloc, cursor, room, true)?)?,
            Some(Shape::Function(_)) => found.push(constraint(alloc, cursor, room, true)?)?,
            Some(Shape::Aggregate(_)) => found.push(constraint(alloc, cursor, room, true)?)?,
            _ => return Ok(found),
        }
    }
    Ok(found)
}

/// `HAVING`, or nothing.
#[tactic(auto, unfolding(crate::specs::QueryReading::having))]
fn having(alloc: Global, cursor: &mut Cursor<'_>, room: usize) -> Result<Items<Expr>, Fault>
    ensures { Reads trees_of (spec.having room cursor.old) result cursor.new }
{
    match cursor.peek() {
        Some(Shape::Having) => {
            cursor.advance();
            let first = constraint(alloc, cursor, room, true)?;
            having_from(alloc, cursor, room, first)
        }
        _ => Ok(Items::new(alloc)),
    }
}

/// What follows `ASC` or `DESC`.
#[tactic(auto, unfolding(crate::specs::QueryReading::directed))]
fn directed(
    alloc: Global,
    cursor: &mut Cursor<'_>,
    room: usize,
    descending: bool,
) -> Result<OrderKey, Fault>
    ensures { Reads order_of (spec.directed room descending cursor.old) result cursor.new }
{
    cursor.open()?;
    let value = expr(alloc, cursor, room, true)?;
    cursor.close()?;
    Ok(OrderKey { value, descending })
}

/// A key of the order.
#[tactic(auto, unfolding(crate::specs::QueryReading::one_order))]
fn one_order(alloc: Global, cursor: &mut Cursor<'_>, room: usize) -> Result<OrderKey, Fault>
    ensures { Reads order_of (spec.one_order room cursor.old) result cursor.new }
{
    match cursor.peek() {
        Some(Shape::Asc) => {
            cursor.advance();
            directed(alloc, cursor, room, false)
        }
        Some(Shape::Desc) => {
            cursor.advance();
            directed(alloc, cursor, room, true)
        }
        Some(Shape::Var) => Ok(OrderKey {
            value: variable(cursor.take(alloc)?),
            descending: false,
        }),
        _ => {
            let value = constraint(alloc, cursor, room, true)?;
            Ok(OrderKey {
                value,
                descending: false,
            })
        }
    }
}

/// The first key of the order, and those that follow.
fn orders_from(
    alloc: Global,
    cursor: &mut Cursor<'_>,
    room: usize,
    first: OrderKey,
) -> Result<Items<OrderKey>, Fault>
    ensures { Reads (λ found. map order_of found) (spec.orders_from room (order_of first ∷ []) cursor.old) result cursor.new }
{
    let mut found = Items::new(alloc);
    found.push(first)?;
    for _turn in 0..cursor.left() {
        match cursor.peek() {
            Some(Shape::Asc) => found.push(one_order(alloc, cursor, room)?)?,
            Some(Shape::Desc) => found.push(one_order(alloc, cursor, room)?)?,
            Some(Shape::Var) => found.push(one_order(alloc, cursor, room)?)?,
            Some(Shape::Open) => found.push(one_order(alloc, cursor, room)?)?,
            Some(Shape::Function(_)) => found.push(one_order(alloc, cursor, room)?)?,
            Some(Shape::Aggregate(_)) => found.push(one_order(alloc, cursor, room)?)?,
            _ => return Ok(found),
        }
    }
    Ok(found)
}

/// `ORDER BY`, or nothing.
#[tactic(auto, unfolding(crate::specs::QueryReading::ordering))]
fn ordering(alloc: Global, cursor: &mut Cursor<'_>, room: usize) -> Result<Items<OrderKey>, Fault>
    ensures { Reads (λ found. map order_of found) (spec.ordering room cursor.old) result cursor.new }
{
    match cursor.peek() {
        Some(Shape::Order) => {
            cursor.advance();
            by_word(cursor)?;
            let first = one_order(alloc, cursor, room)?;
            orders_from(alloc, cursor, room, first)
        }
        _ => Ok(Items::new(alloc)),
    }
}

/// What follows the group.
#[tactic(auto, unfolding(crate::specs::QueryReading::modified))]
fn modified(
    alloc: Global,
    cursor: &mut Cursor<'_>,
    room: usize,
    distinct: bool,
    selection: Selection,
    body: Group,
) -> Result<Written, Fault>
    ensures { Reads written_of
        (spec.modified room distinct (selection_of selection) (group_of body) cursor.old) result cursor.new }
{
    let keys = grouping(alloc, cursor, room)?;
    let having = having(alloc, cursor, room)?;
    let order = ordering(alloc, cursor, room)?;
    let slice = read_slice(cursor)?;
    Ok(Written {
        distinct,
        selection,
        body,
        keys,
        having,
        order,
        slice,
    })
}

/// A query as it is written.
#[tactic(auto, unfolding(crate::specs::QueryReading::query))]
pub fn query(alloc: Global, cursor: &mut Cursor<'_>, room: usize) -> Result<Written, Fault>
    ensures { Reads written_of (spec.query room cursor.old) result cursor.new }
{
    select_word(cursor)?;
    let distinct = distinctness(cursor)?;
    let selection = read_selection(alloc, cursor, room)?;
    where_word(cursor)?;
    let body = group(alloc, cursor, room)?;
    modified(alloc, cursor, room, distinct, selection, body)
}
