//! Operators of the SPARQL algebra (SPARQL 1.1, sections 18.2 and 18.5).

ghost use Rattle.std.specs.Prelude.{◌≡◌, IfOk, Option, Some, None};
ghost use Rattle.sparql_tree.specs.AlgebraTrees.{algebra_of};
ghost use Rattle.sparql_tree.specs.ExprTrees.{tree_of, tree_within};
ghost use Rattle.sparql_tree.specs.Algebra as tree;

use crate::Expr;
use std::alloc::Global;
use term_core::{Items, Memory, Pattern, Row, Text};

/// What a query's graph pattern means: an operator over the solutions of others.
#[derive(Drop)]
pub enum Algebra {
    /// A basic graph pattern; without a triple pattern it has one solution, which is empty.
    Bgp(Items<Pattern>),
    Join(Box<Algebra>, Box<Algebra>),
    /// `OPTIONAL`; no condition is one that is always true.
    LeftJoin {
        left: Box<Algebra>,
        right: Box<Algebra>,
        condition: Option<Expr>,
    },
    Minus(Box<Algebra>, Box<Algebra>),
    Union(Box<Algebra>, Box<Algebra>),
    Filter {
        condition: Expr,
        inner: Box<Algebra>,
    },
    /// `BIND`
    Extend {
        inner: Box<Algebra>,
        variable: Text,
        value: Expr,
    },
    /// `VALUES`: the rows bind no other variables than these, and where `UNDEF` stands none.
    Table {
        variables: Items<Text>,
        rows: Items<Row>,
    },
}

/// Both operands in boxes of their own.
fn boxed(
    alloc: Global,
    left: Algebra,
    right: Algebra,
) -> Result<(Box<Algebra>, Box<Algebra>), Memory>
    ensures left { IfOk result (λ p. p.0.value ≡ left) }
    ensures right { IfOk result (λ p. p.1.value ≡ right) }
{
    let left = Box::new(alloc, left)?;
    let right = Box::new(alloc, right)?;
    Ok((left, right))
}

impl Algebra {
    /// The solutions of both that are compatible, merged.
    #[tactic(auto, unfolding(crate::specs::AlgebraTrees::algebra_of))]
    pub fn join(alloc: Global, left: Algebra, right: Algebra) -> Result<Algebra, Memory>
        ensures { IfOk result (λ a. algebra_of a ≡ tree.Join (algebra_of left) (algebra_of right)) }
    {
        let (left, right) = boxed(alloc, left, right)?;
        Ok(Algebra::Join(left, right))
    }

    /// Each solution on the left, merged with what fits it on the right where the condition holds.
    #[tactic(auto, unfolding(crate::specs::AlgebraTrees::algebra_of))]
    pub fn left_join(
        alloc: Global,
        left: Algebra,
        right: Algebra,
        condition: Option<Expr>,
    ) -> Result<Algebra, Memory>
        ensures { IfOk result (λ a. algebra_of a
            ≡ tree.LeftJoin (algebra_of left) (algebra_of right) (tree_within condition)) }
    {
        let (left, right) = boxed(alloc, left, right)?;
        Ok(Algebra::LeftJoin {
            left,
            right,
            condition,
        })
    }

    /// The solutions on the left that no solution on the right rules out.
    #[tactic(auto, unfolding(crate::specs::AlgebraTrees::algebra_of))]
    pub fn minus(alloc: Global, left: Algebra, right: Algebra) -> Result<Algebra, Memory>
        ensures { IfOk result (λ a. algebra_of a ≡ tree.Minus (algebra_of left) (algebra_of right)) }
    {
        let (left, right) = boxed(alloc, left, right)?;
        Ok(Algebra::Minus(left, right))
    }

    /// The solutions of both.
    #[tactic(auto, unfolding(crate::specs::AlgebraTrees::algebra_of))]
    pub fn union(alloc: Global, left: Algebra, right: Algebra) -> Result<Algebra, Memory>
        ensures { IfOk result (λ a. algebra_of a ≡ tree.Union (algebra_of left) (algebra_of right)) }
    {
        let (left, right) = boxed(alloc, left, right)?;
        Ok(Algebra::Union(left, right))
    }

    /// The solutions for which the condition is true.
    #[tactic(auto, unfolding(crate::specs::AlgebraTrees::algebra_of))]
    pub fn filter(alloc: Global, condition: Expr, inner: Algebra) -> Result<Algebra, Memory>
        ensures { IfOk result (λ a. algebra_of a ≡ tree.Filter (tree_of condition) (algebra_of inner)) }
    {
        Ok(Algebra::Filter {
            condition,
            inner: Box::new(alloc, inner)?,
        })
    }

    /// The solutions with a value under a variable's name.
    #[tactic(auto, unfolding(crate::specs::AlgebraTrees::algebra_of))]
    pub fn extend(
        alloc: Global,
        inner: Algebra,
        variable: Text,
        value: Expr,
    ) -> Result<Algebra, Memory>
        ensures { IfOk result (λ a. algebra_of a
            ≡ tree.Extend (algebra_of inner) variable (tree_of value)) }
    {
        Ok(Algebra::Extend {
            inner: Box::new(alloc, inner)?,
            variable,
            value,
        })
    }
}
