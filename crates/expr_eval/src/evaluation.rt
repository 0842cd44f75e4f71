//! The value of an expression, by recursion on it.

ghost use Rattle.std.specs.Prelude.{◌≡◌, IfOk, IsTrue, option_map};
ghost use Rattle.term_core.specs.Mappings.{value, Row as Solution};
ghost use Rattle.term_core.specs.Numbers.{is_kept};
ghost use Rattle.xsd_num.specs.Values.{number_of};
ghost use Rattle.sparql_tree.specs.Exprs.{exprs, operands};
ghost use Rattle.sparql_tree.specs.ExprTrees.{tree_of, trees_of, signs_of, factors_of};
ghost use Rattle.sparql_value.specs.MadeTerms as made;
ghost use Rattle.sparql_value.specs.Operators as operators;
ghost use Rattle.sparql_value.specs.Functions as functions;
ghost use Rattle.sparql_value.specs.Evaluation.{value_under, values_under, operands_under, is_true_under};
ghost use Rattle.expr_eval.specs.Founds.{term_of, IsKeptFound};
ghost use Rattle.value_table.specs.Values.{equal};
ghost use Rattle.expr_eval.specs.Tagged.{tagging_of, FindsTagged};
ghost use Rattle.expr_eval.specs.Answers.{Evaluates, FindsNumber, FindsTerm};

use crate::ExprError;
use crate::compared::{compare, equal};
use crate::found::{Found, computed, into_term, number_of_found, truth_of_found};
use crate::functions::{of_term, of_terms};
use crate::tagged::{Tagged, joined};
use sparql_tree::{CompareOp, Expr, Factor, Function, Signed};
use std::alloc::Global;
use term_core::{Memory, Row, Term, Text};
use xsd_num::{Num, add, div, mul, neg, sub};

/// The term that a variable is bound to.
fn bound<'a>(row: &'a Row, name: &Text) -> Result<Found<'a>, ExprError>
    ensures { FindsTerm (value row.now name.now) result }
{
    match row.get(name.bytes()) {
        Some(term) => Ok(Found::Held(term)),
        None => Err(ExprError::Error),
    }
}

/// A step of a sum.
fn added(minus: bool, a: Num, b: Num) -> Result<Num, ExprError>
    requires a_kept { IsTrue (is_kept (number_of a)) }
    requires b_kept { IsTrue (is_kept (number_of b)) }
    ensures { FindsNumber (operators.on_numbers (operators.adding minus) (Some (number_of a)) (Some (number_of b))) result }
{
    if minus {
        Ok(sub(a, b)?)
    } else {
        Ok(add(a, b)?)
    }
}

/// A step of a product.
fn multiplied(inverse: bool, a: Num, b: Num) -> Result<Num, ExprError>
    requires a_kept { IsTrue (is_kept (number_of a)) }
    requires b_kept { IsTrue (is_kept (number_of b)) }
    ensures { FindsNumber (operators.on_numbers (operators.multiplying inverse) (Some (number_of a)) (Some (number_of b))) result }
{
    if inverse {
        Ok(div(a, b)?)
    } else {
        Ok(mul(a, b)?)
    }
}

/// `IN` where the left side is an error: it counts only through a `=`, so not where there is no item.
#[tactic(auto, using(crate::proofs::Steps::no_left_some))]
fn no_member<'a>(items: &[Expr], negated: bool) -> Result<Found<'a>, ExprError>
    ensures { (row : Solution) → FindsTerm (option_map made.boolean_term
        (operators.membership negated None (values_under (exprs (trees_of items.now)) row))) result }
{
    match items {
        [] => Ok(Found::Truth(negated)),
        [_, ..] => Err(ExprError::Error),
    }
}

/// The value of an expression.
#[cycle(evaluation)]
#[tactic(auto, using(sparql_tree::proofs::ExprViews::views, crate::proofs::Steps::chain_none))]
fn find<'a>(alloc: Global, e: &'a Expr, row: &'a Row) -> Result<Found<'a>, ExprError>
    ensures { FindsTerm (value_under (tree_of e.now) row.now) result }
{
    match e {
        Expr::Var(name) => bound(row, name),
        Expr::Const(term) => Ok(Found::Held(term)),
        Expr::Or(parts) => Ok(Found::Truth(any_true(alloc, parts, row)?)),
        Expr::And(parts) => Ok(Found::Truth(all_true(alloc, parts, row)?)),
        Expr::Not(operand) => Ok(Found::Truth(!truth_at(alloc, operand, row)?)),
        Expr::Plus(operand) => Ok(computed(number_at(alloc, operand, row)?)),
        Expr::Minus(operand) => {
            let number = number_at(alloc, operand, row)?;
            Ok(computed(neg(number)?))
        }
        Expr::Compare { op, left, right } => {
            let left = find(alloc, left, row)?;
            let right = find(alloc, right, row)?;
            Ok(Found::Truth(compare(alloc, *op, &left, &right)?))
        }
        Expr::OneOf {
            left,
            items,
            negated,
        } => match find(alloc, left, row) {
            Ok(left) => membership(alloc, items, &left, *negated, row),
            Err(ExprError::Error) => no_member(items, *negated),
            Err(ExprError::Memory) => Err(ExprError::Memory),
        },
        Expr::Sum { first, rest } => {
            let first = number_at(alloc, first, row)?;
            Ok(computed(sum(alloc, first, rest, row)?))
        }
        Expr::Product { first, rest } => {
            let first = number_at(alloc, first, row)?;
            Ok(computed(product(alloc, first, rest, row)?))
        }
        Expr::Call {
            function,
            arguments,
        } => call(alloc, *function, arguments, row),
        Expr::Aggregate {
            kind: _,
            distinct: _,
            argument,
        } => match argument {
            None => Err(ExprError::Error),
            Some(_) => Err(ExprError::Error),
        },
    }
}

/// The truth of an expression.
#[cycle(evaluation)]
fn truth_at(alloc: Global, e: &Expr, row: &Row) -> Result<bool, ExprError>
    ensures { Evaluates (operators.as_truth (value_under (tree_of e.now) row.now)) result }
{
    let found = find(alloc, e, row)?;
    truth_of_found(&found)
}

/// The number that an expression is.
#[cycle(evaluation)]
fn number_at(alloc: Global, e: &Expr, row: &Row) -> Result<Num, ExprError>
    ensures { FindsNumber (operators.as_number (value_under (tree_of e.now) row.now)) result }
{
    let found = find(alloc, e, row)?;
    number_of_found(&found)
}

/// `||` between these: the first that is true decides, whatever stands before it.
#[cycle(evaluation)]
#[tactic(auto, using(crate::proofs::Steps::either_true, crate::proofs::Steps::either_error))]
fn any_true(alloc: Global, parts: &[Expr], row: &Row) -> Result<bool, ExprError>
    ensures { Evaluates (operators.any_true (values_under (exprs (trees_of parts.now)) row.now)) result }
{
    let mut unknown = false;
    for part in parts {
        match truth_at(alloc, part, row) {
            Ok(true) => return Ok(true),
            Ok(false) => {}
            Err(ExprError::Error) => unknown = true,
            Err(ExprError::Memory) => return Err(ExprError::Memory),
        }
    }
    if unknown {
        Err(ExprError::Error)
    } else {
        Ok(false)
    }
}

/// `&&` between these: the first that is false decides, whatever stands before it.
#[cycle(evaluation)]
#[tactic(auto, using(crate::proofs::Steps::both_false, crate::proofs::Steps::both_error))]
fn all_true(alloc: Global, parts: &[Expr], row: &Row) -> Result<bool, ExprError>
    ensures { Evaluates (operators.all_true (values_under (exprs (trees_of parts.now)) row.now)) result }
{
    let mut unknown = false;
    for part in parts {
        match truth_at(alloc, part, row) {
            Ok(true) => {}
            Ok(false) => return Ok(false),
            Err(ExprError::Error) => unknown = true,
            Err(ExprError::Memory) => return Err(ExprError::Memory),
        }
    }
    if unknown {
        Err(ExprError::Error)
    } else {
        Ok(true)
    }
}

/// Whether a term equals one of these, or none of them where it is negated.
#[cycle(evaluation)]
#[tactic(auto, using(crate::proofs::Steps::either_true, crate::proofs::Steps::either_error))]
fn membership<'a>(
    alloc: Global,
    items: &[Expr],
    left: &Found,
    negated: bool,
    row: &Row,
) -> Result<Found<'a>, ExprError>
    requires { IsKeptFound left.now }
    ensures { FindsTerm (option_map made.boolean_term
        (operators.membership negated (Some (term_of left.now)) (values_under (exprs (trees_of items.now)) row.now))) result }
{
    let mut unknown = false;
    for item in items {
        match equal_at(alloc, item, left, row) {
            Ok(true) => return Ok(Found::Truth(!negated)),
            Ok(false) => {}
            Err(ExprError::Error) => unknown = true,
            Err(ExprError::Memory) => return Err(ExprError::Memory),
        }
    }
    if unknown {
        Err(ExprError::Error)
    } else {
        Ok(Found::Truth(negated))
    }
}

/// Whether a term equals an expression.
#[cycle(evaluation)]
fn equal_at(alloc: Global, item: &Expr, left: &Found, row: &Row) -> Result<bool, ExprError>
    requires { IsKeptFound left.now }
    ensures { Evaluates (operators.on_both equal (Some (term_of left.now)) (value_under (tree_of item.now) row.now)) result }
{
    let item = find(alloc, item, row)?;
    equal(alloc, left, &item)
}

/// A step of a sum.
#[cycle(evaluation)]
fn added_at(alloc: Global, signed: &Signed, total: Num, row: &Row) -> Result<Num, ExprError>
    requires { IsTrue (is_kept (number_of total)) }
    ensures { FindsNumber (operators.on_numbers (operators.adding signed.now.minus) (Some (number_of total))
        (operators.as_number (value_under (tree_of signed.now.value) row.now))) result }
{
    let next = number_at(alloc, &signed.value, row)?;
    added(signed.minus, total, next)
}

/// A step of a product.
#[cycle(evaluation)]
fn multiplied_at(alloc: Global, factor: &Factor, total: Num, row: &Row) -> Result<Num, ExprError>
    requires { IsTrue (is_kept (number_of total)) }
    ensures { FindsNumber (operators.on_numbers (operators.multiplying factor.now.divide) (Some (number_of total))
        (operators.as_number (value_under (tree_of factor.now.value) row.now))) result }
{
    let next = number_at(alloc, &factor.value, row)?;
    multiplied(factor.divide, total, next)
}

/// A number and what is added to it or taken from it, from the left.
#[cycle(evaluation)]
#[tactic(auto, using(crate::proofs::Steps::chain_none))]
fn sum(alloc: Global, first: Num, rest: &[Signed], row: &Row) -> Result<Num, ExprError>
    requires { IsTrue (is_kept (number_of first)) }
    ensures { FindsNumber (operators.chain operators.adding (Some (number_of first))
        (operands_under (operands (signs_of rest.now)) row.now)) result }
{
    let mut total = first;
    for signed in rest {
        match added_at(alloc, signed, total, row) {
            Ok(next) => total = next,
            Err(ExprError::Error) => return Err(ExprError::Error),
            Err(ExprError::Memory) => return Err(ExprError::Memory),
        }
    }
    Ok(total)
}

/// A number and what it is multiplied or divided by, from the left.
#[cycle(evaluation)]
#[tactic(auto, using(crate::proofs::Steps::chain_none))]
fn product(alloc: Global, first: Num, rest: &[Factor], row: &Row) -> Result<Num, ExprError>
    requires { IsTrue (is_kept (number_of first)) }
    ensures { FindsNumber (operators.chain operators.multiplying (Some (number_of first))
        (operands_under (operands (factors_of rest.now)) row.now)) result }
{
    let mut total = first;
    for factor in rest {
        match multiplied_at(alloc, factor, total, row) {
            Ok(next) => total = next,
            Err(ExprError::Error) => return Err(ExprError::Error),
            Err(ExprError::Memory) => return Err(ExprError::Memory),
        }
    }
    Ok(total)
}

/// A function of its arguments.
#[cycle(evaluation)]
fn call<'a>(
    alloc: Global,
    function: Function,
    arguments: &'a [Expr],
    row: &'a Row,
) -> Result<Found<'a>, ExprError>
    ensures { FindsTerm (functions.called function (values_under (exprs (trees_of arguments.now)) row.now)) result }
{
    match function {
        Function::Bound => is_bound(alloc, arguments, row),
        Function::If => chosen(alloc, arguments, row),
        Function::Coalesce => first_valued(alloc, arguments, row),
        Function::Concat => {
            let string = concat(alloc, arguments, row)?;
            Ok(Found::Made(string.into_term(alloc)?))
        }
        Function::SameTerm | Function::StrStarts | Function::StrEnds | Function::Contains => {
            let a = argument(alloc, arguments, 0, row)?;
            let b = argument(alloc, arguments, 1, row)?;
            Ok(Found::Truth(of_terms(alloc, function, &a, &b)?))
        }
        _ => {
            let a = argument(alloc, arguments, 0, row)?;
            of_term(alloc, function, a)
        }
    }
}

/// An argument, counted from 0; one that is not there is an error.
#[cycle(evaluation)]
fn argument<'a>(
    alloc: Global,
    arguments: &'a [Expr],
    place: usize,
    row: &'a Row,
) -> Result<Found<'a>, ExprError>
    ensures { FindsTerm (functions.argument place (values_under (exprs (trees_of arguments.now)) row.now)) result }
{
    match arguments.get(place) {
        Some(e) => find(alloc, e, row),
        None => Err(ExprError::Error),
    }
}

/// BOUND
#[cycle(evaluation)]
fn is_bound<'a>(alloc: Global, arguments: &[Expr], row: &Row) -> Result<Found<'a>, ExprError>
    ensures { FindsTerm (functions.called Function.Bound (values_under (exprs (trees_of arguments.now)) row.now)) result }
{
    match argument(alloc, arguments, 0, row) {
        Ok(_) => Ok(Found::Truth(true)),
        Err(ExprError::Error) => Ok(Found::Truth(false)),
        Err(ExprError::Memory) => Err(ExprError::Memory),
    }
}

/// IF: the argument that is not chosen is not looked at.
#[cycle(evaluation)]
fn chosen<'a>(alloc: Global, arguments: &'a [Expr], row: &'a Row) -> Result<Found<'a>, ExprError>
    ensures { FindsTerm (functions.called Function.If (values_under (exprs (trees_of arguments.now)) row.now)) result }
{
    let condition = argument(alloc, arguments, 0, row)?;
    if truth_of_found(&condition)? {
        argument(alloc, arguments, 1, row)
    } else {
        argument(alloc, arguments, 2, row)
    }
}

/// COALESCE
#[cycle(evaluation)]
fn first_valued<'a>(
    alloc: Global,
    arguments: &'a [Expr],
    row: &'a Row,
) -> Result<Found<'a>, ExprError>
    ensures { FindsTerm (functions.first_valued (values_under (exprs (trees_of arguments.now)) row.now)) result }
{
    for e in arguments {
        match find(alloc, e, row) {
            Ok(found) => return Ok(found),
            Err(ExprError::Error) => {}
            Err(ExprError::Memory) => return Err(ExprError::Memory),
        }
    }
    Err(ExprError::Error)
}

/// CONCAT
#[cycle(evaluation)]
fn concat(alloc: Global, arguments: &[Expr], row: &Row) -> Result<Tagged, ExprError>
    ensures { FindsTagged (functions.concat_behind None (values_under (exprs (trees_of arguments.now)) row.now)) result }
{
    let mut string = None;
    for e in arguments {
        let next = find(alloc, e, row)?;
        string = Some(joined(alloc, string, &next)?);
    }
    Ok(string.unwrap_or(Tagged::empty(alloc)))
}

/// The value of an expression on a solution (SPARQL 1.1, section 17), with room of its own. `Error`
/// comes exactly where there is none, as at an unbound variable or an aggregate.
pub fn eval(alloc: Global, e: &Expr, row: &Row) -> Result<Term, ExprError>
    ensures { Evaluates (value_under (tree_of e.now) row.now) result }
{
    let found = find(alloc, e, row)?;
    Ok(into_term(alloc, found)?)
}

/// Whether an expression is true on a solution: it has a value, whose truth is true (SPARQL 1.1,
/// sections 17.2.2 and 18.5, Filter). No constant and no bound term is copied, and a comparison of
/// numbers takes no memory.
pub fn truth_of(alloc: Global, e: &Expr, row: &Row) -> Result<bool, Memory>
    ensures { IfOk result (λ truth. truth ≡ is_true_under (tree_of e.now) row.now) }
{
    match truth_at(alloc, e, row) {
        Ok(truth) => Ok(truth),
        Err(ExprError::Error) => Ok(false),
        Err(ExprError::Memory) => Err(Memory),
    }
}
