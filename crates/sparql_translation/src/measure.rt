//! What operators measure: their depth, their deepest expression and their weight, each up to 2^64 - 1.

ghost use Rattle.std.specs.Prelude.{◌≡◌, ◌+◌, ◌++◌, ◌∷◌, [], false, max, List, Option, length};
ghost use Rattle.term_core.specs.declared.pattern.Pattern.{Pattern};
ghost use Rattle.term_core.specs.Mappings.{Name, Row};
ghost use Rattle.sparql_tree.specs.Algebra as algebra;
ghost use Rattle.sparql_tree.specs.Algebra.{Algebra};
ghost use Rattle.sparql_tree.specs.Exprs as exprs;
ghost use Rattle.sparql_tree.specs.ExprTrees.{tree_of};
ghost use Rattle.sparql_tree.specs.Sizes.{counted};
ghost use Rattle.sparql_tree.specs.Translation.{unit, joined, conjunction, filtered};
ghost use Rattle.sparql_translation.specs.Measures.{IsMeasure, IsFront, AreSums, IsCondition};

use sparql_tree::{Expr, expr_depth, expr_weight};

/// What an operator measures.
#[derive(Clone, Copy, Drop)]
pub struct Measure {
    /// Whether it is the basic graph pattern without a triple pattern.
    pub unit: bool,
    pub depth: u64,
    /// The depth of the deepest expression.
    pub expression: u64,
    pub weight: u64,
}

/// What the operator so far measures, and the number of triple patterns behind it.
#[derive(Clone, Copy, Drop)]
pub struct Front {
    pub operator: Measure,
    pub patterns: u64,
}

/// How many expressions there are, the depth of the deepest, and what all weigh.
#[derive(Clone, Copy, Drop)]
pub struct Sums {
    pub number: u64,
    pub depth: u64,
    pub weight: u64,
}

/// What a condition measures, if there is one.
#[derive(Clone, Copy, Drop)]
pub struct Condition {
    pub there: bool,
    pub depth: u64,
    pub weight: u64,
}

/// No expression.
pub fn no_sums() -> Sums
    ensures { AreSums result [] }
{
    Sums {
        number: 0,
        depth: 0,
        weight: 0,
    }
}

/// One expression more.

pub fn with_expression(sums: Sums, value: &Expr) -> Sums
    ensures { (es : List exprs.Expr) → AreSums sums es → AreSums result (es ++ tree_of value.now ∷ []) }
{
    Sums {
        number: sums.number.saturating_add(1),
        depth: sums.depth.max(expr_depth(value)),
        weight: sums.weight.saturating_add(expr_weight(value)),
    }
}

/// The expressions of two lists.
pub fn with_sums(sums: Sums, more: Sums) -> Sums
    ensures { (es fs : List exprs.Expr) → AreSums sums es → AreSums more fs → AreSums result (es ++ fs) }
{
    Sums {
        number: sums.number.saturating_add(more.number),
        depth: sums.depth.max(more.depth),
        weight: sums.weight.saturating_add(more.weight),
    }
}

/// The one condition that several filters are.
#[tactic(auto, using(crate::proofs::Conditions::conditions))]
pub fn as_condition(sums: Sums) -> Condition
    ensures { (es : List exprs.Expr) → AreSums sums es → IsCondition result (conjunction es) }
{
    let node = (sums.number > 1) as u64;
    Condition {
        there: sums.number > 0,
        depth: sums.depth.saturating_add(node),
        weight: sums.weight.saturating_add(node),
    }
}

/// The basic graph pattern without a triple pattern.
pub fn of_unit() -> Measure
    ensures { IsMeasure result unit }
{
    Measure {
        unit: true,
        depth: 1,
        expression: 0,
        weight: 0,
    }
}

/// A basic graph pattern of so many triple patterns.
pub fn of_patterns(patterns: u64) -> Measure
    ensures { (ps : List Pattern) → patterns ≡ counted (length ps) → IsMeasure result (algebra.Bgp ps) }
{
    Measure {
        unit: patterns == 0,
        depth: patterns.saturating_add(1),
        expression: 0,
        weight: patterns.saturating_mul(4),
    }
}

/// A table.
pub fn of_table(variables: usize, rows: usize) -> Measure
    ensures { (names : List Name) (all : List Row) → variables ≡ length names → rows ≡ length all
        → IsMeasure result (algebra.Table names all) }
{
    let row = (variables as u64).saturating_add(1);
    Measure {
        unit: false,
        depth: 1,
        expression: 0,
        weight: (rows as u64).saturating_mul(row).saturating_add(1),
    }
}

/// The join of two, of which the unit is dropped.
#[tactic(auto, using(crate::proofs::Joins::joins))]
pub fn of_joined(left: Measure, right: Measure) -> Measure
    ensures { (a b : Algebra) → IsMeasure left a → IsMeasure right b → IsMeasure result (joined a b) }
{
    if left.unit {
        return right;
    }
    if right.unit {
        return left;
    }
    Measure {
        unit: false,
        depth: left.depth.saturating_add(right.depth),
        expression: left.expression.max(right.expression),
        weight: left.weight.saturating_add(right.weight).saturating_add(1),
    }
}

/// What two that stand beside one another measure under a node.
fn beside(left: Measure, right: Measure) -> Measure
    ensures unit { result.unit ≡ false }
    ensures depth { result.depth ≡ counted (1 + max left.depth right.depth) }
    ensures expression { result.expression ≡ max left.expression right.expression }
    ensures weight { result.weight ≡ counted (1 + counted (left.weight + right.weight)) }
{
    Measure {
        unit: false,
        depth: left.depth.max(right.depth).saturating_add(1),
        expression: left.expression.max(right.expression),
        weight: left.weight.saturating_add(right.weight).saturating_add(1),
    }
}

/// The solutions on the left that none on the right rules out.
pub fn of_minus(left: Measure, right: Measure) -> Measure
    ensures { (a b : Algebra) → IsMeasure left a → IsMeasure right b → IsMeasure result (algebra.Minus a b) }
{
    beside(left, right)
}

/// The union of two.
pub fn of_union(left: Measure, right: Measure) -> Measure
    ensures { (a b : Algebra) → IsMeasure left a → IsMeasure right b → IsMeasure result (algebra.Union a b) }
{
    beside(left, right)
}

/// `OPTIONAL`
pub fn of_left_join(left: Measure, right: Measure, condition: Condition) -> Measure
    ensures { (a b : Algebra) (c : Option exprs.Expr) → IsMeasure left a → IsMeasure right b → IsCondition condition c
        → IsMeasure result (algebra.LeftJoin a b c) }
{
    let both = beside(left, right);
    Measure {
        unit: false,
        depth: both.depth,
        expression: both.expression.max(condition.depth),
        weight: both.weight.saturating_add(condition.weight),
    }
}

/// A filter, where there is a condition.
pub fn of_filtered(inner: Measure, condition: Condition) -> Measure
    ensures { (a : Algebra) (c : Option exprs.Expr) → IsMeasure inner a → IsCondition condition c
        → IsMeasure result (filtered c a) }
{
    if !condition.there {
        return inner;
    }
    Measure {
        unit: false,
        depth: inner.depth.saturating_add(1),
        expression: inner.expression.max(condition.depth),
        weight: inner
            .weight
            .saturating_add(condition.weight)
            .saturating_add(1),
    }
}

/// `BIND`
pub fn of_extended(inner: Measure, value: &Expr) -> Measure
    ensures { (a : Algebra) (name : Name) → IsMeasure inner a
        → IsMeasure result (algebra.Extend a name (tree_of value.now)) }
{
    Measure {
        unit: false,
        depth: inner.depth.saturating_add(1),
        expression: inner.expression.max(expr_depth(value)),
        weight: inner
            .weight
            .saturating_add(expr_weight(value))
            .saturating_add(1),
    }
}

/// No triple pattern behind an operator.
pub fn front_of(operator: Measure) -> Front
    ensures { (a : Algebra) → IsMeasure operator a → IsFront result a [] }
{
    Front {
        operator,
        patterns: 0,
    }
}

/// Nothing yet.
pub fn no_front() -> Front
    ensures { IsFront result unit [] }
{
    front_of(of_unit())
}

/// So many triple patterns more.
pub fn with_patterns(front: Front, more: usize) -> Front
    ensures { (a : Algebra) (ps qs : List Pattern) → IsFront front a ps → more ≡ length qs → IsFront result a (ps ++ qs) }
{
    Front {
        operator: front.operator,
        patterns: front.patterns.saturating_add(more as u64),
    }
}

/// The operator with the triple patterns behind it.
pub fn closed(front: Front) -> Measure
    ensures { (a : Algebra) (ps : List Pattern) → IsFront front a ps → IsMeasure result (joined a (algebra.Bgp ps)) }
{
    of_joined(front.operator, of_patterns(front.patterns))
}
