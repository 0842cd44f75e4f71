//! The depth and the weight of expressions.

ghost use Rattle.std.specs.Prelude.{◌≡◌};
ghost use Rattle.sparql_tree.specs.Exprs.{exprs, operands};
ghost use Rattle.sparql_tree.specs.ExprTrees.{tree_of, trees_of, signs_of, factors_of};
ghost use Rattle.sparql_tree.specs.Sizes as sizes;
ghost use Rattle.sparql_tree.specs.Sizes.{counted};

use crate::{Expr, Factor, Signed};

/// The nodes of an expression from the root to the deepest leaf. It stops at `2^64 - 1`.
#[cycle(depth)]
#[tactic(auto, using(crate::proofs::ExprViews::views))]
pub fn expr_depth(value: &Expr) -> u64
    ensures { result ≡ counted (sizes.expr_depth (tree_of value.now)) }
{
    match value {
        Expr::Var(_) => 1,
        Expr::Const(_) => 1,
        Expr::Or(parts) => deepest(parts).saturating_add(1),
        Expr::And(parts) => deepest(parts).saturating_add(1),
        Expr::Not(value) => expr_depth(value).saturating_add(1),
        Expr::Plus(value) => expr_depth(value).saturating_add(1),
        Expr::Minus(value) => expr_depth(value).saturating_add(1),
        Expr::Compare { op: _, left, right } => {
            expr_depth(left).max(expr_depth(right)).saturating_add(1)
        }
        Expr::OneOf {
            left,
            items,
            negated: _,
        } => expr_depth(left).max(deepest(items)).saturating_add(1),
        Expr::Sum { first, rest } => expr_depth(first).max(deepest_sign(rest)).saturating_add(1),
        Expr::Product { first, rest } => {
            expr_depth(first)
                .max(deepest_factor(rest))
                .saturating_add(1)
        }
        Expr::Call {
            function: _,
            arguments,
        } => deepest(arguments).saturating_add(1),
        Expr::Aggregate {
            kind: _,
            distinct: _,
            argument,
        } => match argument {
            None => 1,
            Some(argument) => expr_depth(argument).saturating_add(1),
        },
    }
}

/// The nodes of an expression. It stops at `2^64 - 1`.
#[cycle(weight)]
#[tactic(auto, using(crate::proofs::ExprViews::views))]
pub fn expr_weight(value: &Expr) -> u64
    ensures { result ≡ counted (sizes.expr_weight (tree_of value.now)) }
{
    match value {
        Expr::Var(_) => 1,
        Expr::Const(_) => 1,
        Expr::Or(parts) => weigh(parts).saturating_add(1),
        Expr::And(parts) => weigh(parts).saturating_add(1),
        Expr::Not(value) => expr_weight(value).saturating_add(1),
        Expr::Plus(value) => expr_weight(value).saturating_add(1),
        Expr::Minus(value) => expr_weight(value).saturating_add(1),
        Expr::Compare { op: _, left, right } => {
            expr_weight(left)
                .saturating_add(expr_weight(right))
                .saturating_add(1)
        }
        Expr::OneOf {
            left,
            items,
            negated: _,
        } => expr_weight(left)
            .saturating_add(weigh(items))
            .saturating_add(1),
        Expr::Sum { first, rest } => {
            expr_weight(first)
                .saturating_add(weigh_signs(rest))
                .saturating_add(1)
        }
        Expr::Product { first, rest } => {
            expr_weight(first)
                .saturating_add(weigh_factors(rest))
                .saturating_add(1)
        }
        Expr::Call {
            function: _,
            arguments,
        } => weigh(arguments).saturating_add(1),
        Expr::Aggregate {
            kind: _,
            distinct: _,
            argument,
        } => match argument {
            None => 1,
            Some(argument) => expr_weight(argument).saturating_add(1),
        },
    }
}

/// The depth of the deepest of these, 0 where there is none.
#[cycle(depth)]
fn deepest(values: &[Expr]) -> u64
    ensures { result ≡ counted (sizes.deepest_of (exprs (trees_of values.now))) }
{
    let mut depth: u64 = 0;
    for value in values {
        depth = depth.max(expr_depth(value));
    }
    depth
}

#[cycle(depth)]
fn deepest_sign(values: &[Signed]) -> u64
    ensures { result ≡ counted (sizes.deepest_operand (operands (signs_of values.now))) }
{
    let mut depth: u64 = 0;
    for signed in values {
        depth = depth.max(expr_depth(&signed.value));
    }
    depth
}

#[cycle(depth)]
fn deepest_factor(values: &[Factor]) -> u64
    ensures { result ≡ counted (sizes.deepest_operand (operands (factors_of values.now))) }
{
    let mut depth: u64 = 0;
    for factor in values {
        depth = depth.max(expr_depth(&factor.value));
    }
    depth
}

/// What these weigh together.
#[cycle(weight)]
fn weigh(values: &[Expr]) -> u64
    ensures { result ≡ counted (sizes.weight_of (exprs (trees_of values.now))) }
{
    let mut weight: u64 = 0;
    for value in values {
        weight = weight.saturating_add(expr_weight(value));
    }
    weight
}

#[cycle(weight)]
fn weigh_signs(values: &[Signed]) -> u64
    ensures { result ≡ counted (sizes.operand_weight (operands (signs_of values.now))) }
{
    let mut weight: u64 = 0;
    for signed in values {
        weight = weight.saturating_add(expr_weight(&signed.value));
    }
    weight
}

#[cycle(weight)]
fn weigh_factors(values: &[Factor]) -> u64
    ensures { result ≡ counted (sizes.operand_weight (operands (factors_of values.now))) }
{
    let mut weight: u64 = 0;
    for factor in values {
        weight = weight.saturating_add(expr_weight(&factor.value));
    }
    weight
}
