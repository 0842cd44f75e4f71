//! Expressions, one function for each level of the grammar (SPARQL 1.1, section 19.8).

ghost use Rattle.std.specs.Prelude.{◌≡◌, ◌∷◌, [], IfOk};
ghost use Rattle.sparql_tree.specs.Exprs as tree;
ghost use Rattle.sparql_tree.specs.ExprTrees.{tree_of, trees_of, signs_of, factors_of};
ghost use Rattle.sparql_tree.specs.Expressions as grammar;
ghost use Rattle.sparql_grammar.specs.ExprReading as spec;
ghost use Rattle.sparql_grammar.specs.Reads.{Reads, same, nothing};

use crate::cursor::Cursor;
use crate::fault::Fault;
use crate::terms::{number, term};
use sparql_tree::{AggregateKind, CompareOp, Expr, Factor, Function, Shape, Signed};
use std::alloc::Global;
use term_core::{Memory, Term, Text};

/// A variable.
#[tactic(auto, using(sparql_tree::proofs::ExprViews::var_view))]
pub fn variable(name: Text) -> Expr
    ensures { tree_of result ≡ tree.Var name }
{
    Expr::Var(name)
}

/// A term.
#[tactic(auto, using(sparql_tree::proofs::ExprViews::const_view))]
fn constant(term: Term) -> Expr
    ensures { tree_of result ≡ tree.Const term }
{
    Expr::Const(term)
}

/// An expression. `NotAQuery` comes exactly where none of the grammar stands there within the room.
#[cycle(expr)]
pub fn expr(
    alloc: Global,
    cursor: &mut Cursor<'_>,
    room: usize,
    aggregates: bool,
) -> Result<Expr, Fault>
    ensures { Reads tree_of (spec.expr room aggregates cursor.old) result cursor.new }
{
    if room == 0 {
        return Err(Fault::NotAQuery);
    }
    or(alloc, cursor, room - 1, aggregates)
}

/// Between `||`.
#[cycle(expr)]
#[tactic(auto, unfolding(crate::specs::ExprReading::or))]
fn or(alloc: Global, cursor: &mut Cursor<'_>, room: usize, aggregates: bool) -> Result<Expr, Fault>
    ensures { Reads tree_of (spec.or (spec.expr room) aggregates cursor.old) result cursor.new }
{
    let first = and(alloc, cursor, room, aggregates)?;
    let parts = or_from(alloc, cursor, room, aggregates, first)?;
    Ok(or_node(parts))
}

/// A chain of one is that one.
fn or_node(mut parts: Vec<Expr>) -> Expr
    ensures { tree_of result ≡ grammar.or_node (trees_of parts.items) }
{
    if parts.len() == 1 {
        if let Some(only) = parts.pop() {
            return only;
        }
    }
    Expr::or(parts)
}

/// The first, and those that follow.
#[cycle(expr)]
fn or_from(
    alloc: Global,
    cursor: &mut Cursor<'_>,
    room: usize,
    aggregates: bool,
    first: Expr,
) -> Result<Vec<Expr>, Fault>
    ensures { Reads (λ parts. trees_of parts.items) (spec.or_from (spec.expr room) aggregates (tree_of first ∷ []) cursor.old) result cursor.new }
{
    let mut found = Vec::new(alloc);
    found.push(first)?;
    for _turn in 0..cursor.left() {
        match cursor.peek() {
            Some(Shape::Or) => {
                cursor.advance();
                found.push(and(alloc, cursor, room, aggregates)?)?;
            }
            _ => return Ok(found),
        }
    }
    Ok(found)
}

/// Between `&&`.
#[cycle(expr)]
#[tactic(auto, unfolding(crate::specs::ExprReading::and))]
fn and(alloc: Global, cursor: &mut Cursor<'_>, room: usize, aggregates: bool) -> Result<Expr, Fault>
    ensures { Reads tree_of (spec.and (spec.expr room) aggregates cursor.old) result cursor.new }
{
    let first = rel(alloc, cursor, room, aggregates)?;
    let parts = and_from(alloc, cursor, room, aggregates, first)?;
    Ok(and_node(parts))
}

/// A chain of one is that one.
fn and_node(mut parts: Vec<Expr>) -> Expr
    ensures { tree_of result ≡ grammar.and_node (trees_of parts.items) }
{
    if parts.len() == 1 {
        if let Some(only) = parts.pop() {
            return only;
        }
    }
    Expr::and(parts)
}

/// The first, and those that follow.
#[cycle(expr)]
fn and_from(
    alloc: Global,
    cursor: &mut Cursor<'_>,
    room: usize,
    aggregates: bool,
    first: Expr,
) -> Result<Vec<Expr>, Fault>
    ensures { Reads (λ parts. trees_of parts.items) (spec.and_from (spec.expr room) aggregates (tree_of first ∷ []) cursor.old) result cursor.new }
{
    let mut found = Vec::new(alloc);
    found.push(first)?;
    for _turn in 0..cursor.left() {
        match cursor.peek() {
            Some(Shape::And) => {
                cursor.advance();
                found.push(rel(alloc, cursor, room, aggregates)?)?;
            }
            _ => return Ok(found),
        }
    }
    Ok(found)
}

/// The comparison that a sign is.
fn compare_op(shape: Option<Shape>) -> Option<CompareOp>
    ensures { result ≡ spec.op_at shape }
{
    match shape {
        Some(Shape::Equal) => Some(CompareOp::Eq),
        Some(Shape::Unequal) => Some(CompareOp::Ne),
        Some(Shape::Less) => Some(CompareOp::Lt),
        Some(Shape::Greater) => Some(CompareOp::Gt),
        Some(Shape::AtMost) => Some(CompareOp::Le),
        Some(Shape::AtLeast) => Some(CompareOp::Ge),
        _ => None,
    }
}

/// Goes past `IN`.
#[tactic(auto, unfolding(crate::specs::ExprReading::in_word))]
fn in_word(cursor: &mut Cursor<'_>) -> Result<(), Fault>
    ensures { Reads nothing (spec.in_word cursor.old) result cursor.new }
{
    match cursor.peek() {
        Some(Shape::In) => {
            cursor.advance();
            Ok(())
        }
        _ => Err(Fault::NotAQuery),
    }
}

/// A comparison, membership in a list, or what is compared.
#[cycle(expr)]
#[tactic(auto, unfolding(crate::specs::ExprReading::rel))]
fn rel(alloc: Global, cursor: &mut Cursor<'_>, room: usize, aggregates: bool) -> Result<Expr, Fault>
    ensures { Reads tree_of (spec.rel (spec.expr room) aggregates cursor.old) result cursor.new }
{
    let left = sum(alloc, cursor, room, aggregates)?;
    match cursor.peek() {
        Some(Shape::In) => {
            cursor.advance();
            let items = list(alloc, cursor, room, aggregates)?;
            Ok(Expr::one_of(alloc, left, items, false)?)
        }
        Some(Shape::Not) => {
            cursor.advance();
            in_word(cursor)?;
            let items = list(alloc, cursor, room, aggregates)?;
            Ok(Expr::one_of(alloc, left, items, true)?)
        }
        next => match compare_op(next) {
            Some(op) => {
                cursor.advance();
                let right = sum(alloc, cursor, room, aggregates)?;
                Ok(Expr::compare(alloc, op, left, right)?)
            }
            None => Ok(left),
        },
    }
}

/// Expressions in parentheses.
#[cycle(expr)]
#[tactic(auto, unfolding(crate::specs::ExprReading::list))]
fn list(
    alloc: Global,
    cursor: &mut Cursor<'_>,
    room: usize,
    aggregates: bool,
) -> Result<Vec<Expr>, Fault>
    ensures { Reads (λ items. trees_of items.items) (spec.list (spec.expr room) aggregates cursor.old) result cursor.new }
{
    cursor.open()?;
    match cursor.peek() {
        Some(Shape::Close) => {
            cursor.advance();
            Ok(Vec::new(alloc))
        }
        _ => {
            let first = expr(alloc, cursor, room, aggregates)?;
            let items = list_from(alloc, cursor, room, aggregates, first)?;
            cursor.close()?;
            Ok(items)
        }
    }
}

/// The first, and those that follow.
#[cycle(expr)]
fn list_from(
    alloc: Global,
    cursor: &mut Cursor<'_>,
    room: usize,
    aggregates: bool,
    first: Expr,
) -> Result<Vec<Expr>, Fault>
    ensures { Reads (λ items. trees_of items.items) (spec.list_from (spec.expr room) aggregates (tree_of first ∷ []) cursor.old) result cursor.new }
{
    let mut found = Vec::new(alloc);
    found.push(first)?;
    for _turn in 0..cursor.left() {
        match cursor.peek() {
            Some(Shape::Comma) => {
                cursor.advance();
                found.push(expr(alloc, cursor, room, aggregates)?)?;
            }
            _ => return Ok(found),
        }
    }
    Ok(found)
}

/// Sums and differences.
#[cycle(expr)]
#[tactic(auto, unfolding(crate::specs::ExprReading::sum))]
fn sum(alloc: Global, cursor: &mut Cursor<'_>, room: usize, aggregates: bool) -> Result<Expr, Fault>
    ensures { Reads tree_of (spec.sum (spec.expr room) aggregates cursor.old) result cursor.new }
{
    let first = product(alloc, cursor, room, aggregates)?;
    let rest = sum_rest(alloc, cursor, room, aggregates)?;
    Ok(sum_node(alloc, first, rest)?)
}

/// A chain of one is that one.
fn sum_node(alloc: Global, first: Expr, rest: Vec<Signed>) -> Result<Expr, Memory>
    ensures { IfOk result (λ e. tree_of e ≡ grammar.sum_node (tree_of first) (signs_of rest.items)) }
{
    if rest.is_empty() {
        return Ok(first);
    }
    Expr::sum(alloc, first, rest)
}

/// What follows the first.
#[cycle(expr)]
fn sum_rest(
    alloc: Global,
    cursor: &mut Cursor<'_>,
    room: usize,
    aggregates: bool,
) -> Result<Vec<Signed>, Fault>
    ensures { Reads (λ rest. signs_of rest.items) (spec.sum_rest (spec.expr room) aggregates cursor.old) result cursor.new }
{
    let mut found = Vec::new(alloc);
    for _turn in 0..cursor.left() {
        match cursor.peek() {
            Some(Shape::Plus) => {
                cursor.advance();
                let value = product(alloc, cursor, room, aggregates)?;
                found.push(Signed {
                    minus: false,
                    value,
                })?;
            }
            Some(Shape::Minus) => {
                cursor.advance();
                let value = product(alloc, cursor, room, aggregates)?;
                found.push(Signed { minus: true, value })?;
            }
            _ => return Ok(found),
        }
    }
    Ok(found)
}

/// Products and quotients.
#[cycle(expr)]
#[tactic(auto, unfolding(crate::specs::ExprReading::product))]
fn product(
    alloc: Global,
    cursor: &mut Cursor<'_>,
    room: usize,
    aggregates: bool,
) -> Result<Expr, Fault>
    ensures { Reads tree_of (spec.product (spec.expr room) aggregates cursor.old) result cursor.new }
{
    let first = unary(alloc, cursor, room, aggregates)?;
    let rest = product_rest(alloc, cursor, room, aggregates)?;
    Ok(product_node(alloc, first, rest)?)
}

/// A chain of one is that one.
fn product_node(alloc: Global, first: Expr, rest: Vec<Factor>) -> Result<Expr, Memory>
    ensures { IfOk result (λ e. tree_of e ≡ grammar.product_node (tree_of first) (factors_of rest.items)) }
{
    if rest.is_empty() {
        return Ok(first);
    }
    Expr::product(alloc, first, rest)
}

/// What follows the first.
#[cycle(expr)]
fn product_rest(
    alloc: Global,
    cursor: &mut Cursor<'_>,
    room: usize,
    aggregates: bool,
) -> Result<Vec<Factor>, Fault>
    ensures { Reads (λ rest. factors_of rest.items) (spec.product_rest (spec.expr room) aggregates cursor.old) result cursor.new }
{
    let mut found = Vec::new(alloc);
    for _turn in 0..cursor.left() {
        match cursor.peek() {
            Some(Shape::Star) => {
                cursor.advance();
                let value = unary(alloc, cursor, room, aggregates)?;
                found.push(Factor {
                    divide: false,
                    value,
                })?;
            }
            Some(Shape::Slash) => {
                cursor.advance();
                let value = unary(alloc, cursor, room, aggregates)?;
                found.push(Factor {
                    divide: true,
                    value,
                })?;
            }
            _ => return Ok(found),
        }
    }
    Ok(found)
}

/// Whether a number stands there.
fn begins_number(shape: Option<Shape>) -> bool
    ensures { result ≡ grammar.begins_number shape }
{
    match shape {
        Some(Shape::Integer) => true,
        Some(Shape::Decimal) => true,
        _ => false,
    }
}

/// An atom behind a sign or none; a sign before a number belongs to it.
#[cycle(expr)]
#[tactic(auto, unfolding(crate::specs::ExprReading::unary))]
fn unary(
    alloc: Global,
    cursor: &mut Cursor<'_>,
    room: usize,
    aggregates: bool,
) -> Result<Expr, Fault>
    ensures { Reads tree_of (spec.unary (spec.expr room) aggregates cursor.old) result cursor.new }
{
    match cursor.peek() {
        Some(Shape::Bang) => {
            cursor.advance();
            let value = atom(alloc, cursor, room, aggregates)?;
            Ok(Expr::not(alloc, value)?)
        }
        Some(Shape::Plus) => {
            cursor.advance();
            if begins_number(cursor.peek()) {
                Ok(constant(number(alloc, cursor, "+")?))
            } else {
                let value = atom(alloc, cursor, room, aggregates)?;
                Ok(Expr::plus(alloc, value)?)
            }
        }
        Some(Shape::Minus) => {
            cursor.advance();
            if begins_number(cursor.peek()) {
                Ok(constant(number(alloc, cursor, "-")?))
            } else {
                let value = atom(alloc, cursor, room, aggregates)?;
                Ok(Expr::minus(alloc, value)?)
            }
        }
        _ => atom(alloc, cursor, room, aggregates),
    }
}

/// A variable, a term, a call, an aggregate where one may stand, or what stands in parentheses.
#[cycle(expr)]
#[tactic(auto, unfolding(crate::specs::ExprReading::atom))]
fn atom(
    alloc: Global,
    cursor: &mut Cursor<'_>,
    room: usize,
    aggregates: bool,
) -> Result<Expr, Fault>
    ensures { Reads tree_of (spec.atom (spec.expr room) aggregates cursor.old) result cursor.new }
{
    match cursor.peek() {
        Some(Shape::Var) => Ok(variable(cursor.take(alloc)?)),
        Some(Shape::Open) => {
            cursor.advance();
            let inner = expr(alloc, cursor, room, aggregates)?;
            cursor.close()?;
            Ok(inner)
        }
        Some(Shape::Function(function)) => {
            cursor.advance();
            call(alloc, cursor, room, aggregates, function)
        }
        Some(Shape::Aggregate(kind)) => {
            if !aggregates {
                return Err(Fault::NotAQuery);
            }
            cursor.advance();
            aggregate(alloc, cursor, room, aggregates, kind)
        }
        _ => Ok(constant(term(alloc, cursor)?)),
    }
}

/// Whether a function takes so many expressions.
fn takes(function: Function, count: usize) -> bool
    ensures { result ≡ grammar.takes function count }
{
    match function {
        Function::Bound => false,
        Function::SameTerm => count == 2,
        Function::If => count == 3,
        Function::Coalesce => true,
        Function::StrStarts => count == 2,
        Function::StrEnds => count == 2,
        Function::Contains => count == 2,
        Function::Concat => true,
        _ => count == 1,
    }
}

/// `BOUND` of a variable, behind the word.
#[tactic(auto, unfolding(crate::specs::ExprReading::bound))]
fn bound(alloc: Global, cursor: &mut Cursor<'_>) -> Result<Expr, Fault>
    ensures { Reads tree_of (spec.bound cursor.old) result cursor.new }
{
    cursor.open()?;
    let name = cursor.name(alloc)?;
    cursor.close()?;
    let mut arguments = Vec::new(alloc);
    arguments.push(variable(name))?;
    Ok(Expr::call(Function::Bound, arguments))
}

/// `DISTINCT` or nothing.
#[tactic(auto, unfolding(crate::specs::ExprReading::distinct_or_all))]
fn distinct(cursor: &mut Cursor<'_>) -> Result<bool, Fault>
    ensures { Reads same (spec.distinct_or_all cursor.old) result cursor.new }
{
    match cursor.peek() {
        Some(Shape::Distinct) => {
            cursor.advance();
            Ok(true)
        }
        _ => Ok(false),
    }
}

/// The arguments of a function, as many as it takes.
#[cycle(expr)]
#[tactic(auto, unfolding(crate::specs::ExprReading::call))]
pub fn call(
    alloc: Global,
    cursor: &mut Cursor<'_>,
    room: usize,
    aggregates: bool,
    function: Function,
) -> Result<Expr, Fault>
    ensures { Reads tree_of (spec.call (spec.expr room) aggregates function cursor.old) result cursor.new }
{
    match function {
        Function::Bound => bound(alloc, cursor),
        _ => {
            let arguments = list(alloc, cursor, room, aggregates)?;
            if takes(function, arguments.len()) {
                Ok(Expr::call(function, arguments))
            } else {
                Err(Fault::NotAQuery)
            }
        }
    }
}

/// The argument of an aggregate.
#[cycle(expr)]
#[tactic(auto, unfolding(crate::specs::ExprReading::aggregate))]
pub fn aggregate(
    alloc: Global,
    cursor: &mut Cursor<'_>,
    room: usize,
    aggregates: bool,
    kind: AggregateKind,
) -> Result<Expr, Fault>
    ensures { Reads tree_of (spec.aggregate (spec.expr room) aggregates kind cursor.old) result cursor.new }
{
    cursor.open()?;
    let once = distinct(cursor)?;
    let found = match cursor.peek() {
        Some(Shape::Star) => match kind {
            AggregateKind::Count => {
                cursor.advance();
                Expr::aggregate_all(kind, once)
            }
            _ => return Err(Fault::NotAQuery),
        },
        _ => {
            let argument = expr(alloc, cursor, room, false)?;
            Expr::aggregate(alloc, kind, once, argument)?
        }
    };
    cursor.close()?;
    Ok(found)
}
