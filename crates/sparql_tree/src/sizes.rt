//! The depth and the weight of the algebra.

ghost use Rattle.std.specs.Prelude.{◌≡◌, ◌+◌, ℕ};
ghost use Rattle.sparql_tree.specs.AlgebraTrees.{algebra_of};
ghost use Rattle.sparql_tree.specs.ExprTrees.{tree_within, tree_of};
ghost use Rattle.sparql_tree.specs.Sizes as sizes;
ghost use Rattle.sparql_tree.specs.Sizes.{counted};

use crate::expr_sizes::expr_weight;
use crate::{Algebra, Expr};

/// The depth of the operators, where an expression counts nothing: a basic graph pattern has one more
/// than its patterns, a join the sum of its sides, any other operator one more than its deepest side,
/// and a table 1. It stops at `2^64 - 1`.
#[tactic(auto, unfolding(crate::specs::AlgebraTrees::algebra_of))]
pub fn depth(a: &Algebra) -> u64
    ensures { result ≡ counted (sizes.depth (algebra_of a.now)) }
{
    match a {
        Algebra::Bgp(patterns) => (patterns.len() as u64).saturating_add(1),
        Algebra::Join(left, right) => depth(left).saturating_add(depth(right)),
        Algebra::LeftJoin { left, right, .. } => depth(left).max(depth(right)).saturating_add(1),
        Algebra::Minus(left, right) | Algebra::Union(left, right) => {
            depth(left).max(depth(right)).saturating_add(1)
        }
        Algebra::Filter { inner, .. } | Algebra::Extend { inner, .. } => {
            depth(inner).saturating_add(1)
        }
        Algebra::Table { .. } => 1,
    }
}

/// What a condition weighs, 0 where there is none.
fn condition_weight(condition: &Option<Expr>) -> u64
    ensures { result ≡ counted (sizes.condition_weight (tree_within condition.now)) }
{
    match condition {
        None => 0,
        Some(condition) => expr_weight(condition),
    }
}

/// What a table of so many columns and rows weighs.
fn table_weight(columns: u64, rows: u64) -> u64
    ensures { result ≡ counted (sizes.table_weight columns rows) }
{
    columns
        .saturating_add(1)
        .saturating_mul(rows)
        .saturating_add(1)
}

/// What the operators weigh, with their expressions: 4 for each triple pattern and nothing more for a
/// basic graph pattern; 1 for each other operator, for each table, row and cell, also an empty one, and
/// for each node of an expression. It stops at `2^64 - 1`.
#[tactic(auto, unfolding(crate::specs::AlgebraTrees::algebra_of))]
pub fn weight(a: &Algebra) -> u64
    ensures { result ≡ counted (sizes.weight (algebra_of a.now)) }
{
    match a {
        Algebra::Bgp(patterns) => (patterns.len() as u64).saturating_mul(4),
        Algebra::LeftJoin {
            left,
            right,
            condition,
        } => weight(left)
            .saturating_add(weight(right))
            .saturating_add(condition_weight(condition))
            .saturating_add(1),
        Algebra::Join(left, right) | Algebra::Minus(left, right) | Algebra::Union(left, right) => {
            weight(left).saturating_add(weight(right)).saturating_add(1)
        }
        Algebra::Filter { condition, inner } => {
            weight(inner)
                .saturating_add(expr_weight(condition))
                .saturating_add(1)
        }
        Algebra::Extend { inner, value, .. } => {
            weight(inner)
                .saturating_add(expr_weight(value))
                .saturating_add(1)
        }
        Algebra::Table { variables, rows } => {
            table_weight(variables.len() as u64, rows.len() as u64)
        }
    }
}
