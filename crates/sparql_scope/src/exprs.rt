//! What stands in an expression: aggregates, and variables outside of them.

ghost use Rattle.std.specs.Prelude.{◌≡◌, ◌++◌, OnOk, flat_map, List};
ghost use Rattle.std.specs.List.{list_any};
ghost use Rattle.sparql_tree.specs.ExprTrees.{tree_of, trees_of, signs_of, factors_of};
ghost use Rattle.sparql_tree.specs.Scopes as spec;
ghost use Rattle.sparql_scope.specs.Parts.{outside_operand, operand_has_aggregate};

use sparql_tree::{Expr, Factor, Signed};
use std::alloc::Global;
use term_core::{Items, Memory, Text};

/// Whether an aggregate stands in an expression.
#[cycle(aggregates)]
#[tactic(auto, using(sparql_tree::proofs::ExprViews::views, crate::proofs::Parts::aggregates))]
pub fn has_aggregate(value: &Expr) -> bool
    ensures { result ≡ spec.has_aggregate (tree_of value.now) }
{
    match value {
        Expr::Var(_) => false,
        Expr::Const(_) => false,
        Expr::Or(parts) => have_aggregate(parts),
        Expr::And(parts) => have_aggregate(parts),
        Expr::Not(value) => has_aggregate(value),
        Expr::Plus(value) => has_aggregate(value),
        Expr::Minus(value) => has_aggregate(value),
        Expr::Compare { op: _, left, right } => has_aggregate(left) || has_aggregate(right),
        Expr::OneOf {
            left,
            items,
            negated: _,
        } => has_aggregate(left) || have_aggregate(items),
        Expr::Sum { first, rest } => has_aggregate(first) || signed_have_aggregate(rest),
        Expr::Product { first, rest } => has_aggregate(first) || factors_have_aggregate(rest),
        Expr::Call {
            function: _,
            arguments,
        } => have_aggregate(arguments),
        Expr::Aggregate {
            kind: _,
            distinct: _,
            argument,
        } => match argument {
            None => true,
            Some(_) => true,
        },
    }
}

/// Whether one stands in one of these.
#[cycle(aggregates)]
pub fn have_aggregate(values: &[Expr]) -> bool
    ensures { result ≡ list_any spec.has_aggregate (trees_of values.now) }
{
    for value in values {
        if has_aggregate(value) {
            return true;
        }
    }
    false
}

#[cycle(aggregates)]
fn signed_have_aggregate(values: &[Signed]) -> bool
    ensures { result ≡ list_any operand_has_aggregate (signs_of values.now) }
{
    for signed in values {
        if has_aggregate(&signed.value) {
            return true;
        }
    }
    false
}

#[cycle(aggregates)]
fn factors_have_aggregate(values: &[Factor]) -> bool
    ensures { result ≡ list_any operand_has_aggregate (factors_of values.now) }
{
    for factor in values {
        if has_aggregate(&factor.value) {
            return true;
        }
    }
    false
}

/// Adds the variables that stand outside aggregates, in order.
#[cycle(outside)]
#[tactic(auto, using(sparql_tree::proofs::ExprViews::views, crate::proofs::Parts::variables))]
pub fn add_outside(value: &Expr, alloc: Global, found: &mut Items<Text>) -> Result<(), Memory>
    ensures { OnOk result (found.new ≡ found.old ++ spec.outside (tree_of value.now)) }
{
    match value {
        Expr::Var(name) => found.push(name.copy(alloc)?),
        Expr::Const(_) => Ok(()),
        Expr::Or(parts) => add_outside_all(parts, alloc, found),
        Expr::And(parts) => add_outside_all(parts, alloc, found),
        Expr::Not(value) => add_outside(value, alloc, found),
        Expr::Plus(value) => add_outside(value, alloc, found),
        Expr::Minus(value) => add_outside(value, alloc, found),
        Expr::Compare { op: _, left, right } => {
            add_outside(left, alloc, found)?;
            add_outside(right, alloc, found)
        }
        Expr::OneOf {
            left,
            items,
            negated: _,
        } => {
            add_outside(left, alloc, found)?;
            add_outside_all(items, alloc, found)
        }
        Expr::Sum { first, rest } => {
            add_outside(first, alloc, found)?;
            add_outside_signs(rest, alloc, found)
        }
        Expr::Product { first, rest } => {
            add_outside(first, alloc, found)?;
            add_outside_factors(rest, alloc, found)
        }
        Expr::Call {
            function: _,
            arguments,
        } => add_outside_all(arguments, alloc, found),
        Expr::Aggregate {
            kind: _,
            distinct: _,
            argument,
        } => match argument {
            None => Ok(()),
            Some(_) => Ok(()),
        },
    }
}

/// Adds those of each, in order.
#[cycle(outside)]
#[tactic(auto, using(crate::proofs::Parts::variables))]
pub fn add_outside_all(
    values: &[Expr],
    alloc: Global,
    found: &mut Items<Text>,
) -> Result<(), Memory>
    ensures { OnOk result (found.new ≡ found.old ++ flat_map spec.outside (trees_of values.now)) }
{
    for value in values {
        add_outside(value, alloc, found)?;
    }
    Ok(())
}

#[cycle(outside)]
#[tactic(auto, using(crate::proofs::Parts::variables))]
fn add_outside_signs(
    values: &[Signed],
    alloc: Global,
    found: &mut Items<Text>,
) -> Result<(), Memory>
    ensures { OnOk result (found.new ≡ found.old ++ flat_map outside_operand (signs_of values.now)) }
{
    for signed in values {
        add_outside(&signed.value, alloc, found)?;
    }
    Ok(())
}

#[cycle(outside)]
#[tactic(auto, using(crate::proofs::Parts::variables))]
fn add_outside_factors(
    values: &[Factor],
    alloc: Global,
    found: &mut Items<Text>,
) -> Result<(), Memory>
    ensures { OnOk result (found.new ≡ found.old ++ flat_map outside_operand (factors_of values.now)) }
{
    for factor in values {
        add_outside(&factor.value, alloc, found)?;
    }
    Ok(())
}
