//! The operators that the client computes, over the parts that servers answer.

ghost use Rattle.std.specs.Prelude.{◌≡◌, IfOk};
ghost use Rattle.sparql_tree.specs.ExprTrees.{tree_of, tree_within};
ghost use Rattle.sparql_translation.specs.Splits as pure;
ghost use Rattle.sparql_algebra.specs.SplitTrees.{pure_tree};

use sparql_tree::Expr;
use std::alloc::Global;
use term_core::{Memory, Text};

/// Operators over parts.
#[derive(Drop)]
pub enum Tree {
    /// The part of this number, counted from 0.
    Part(u32),
    Join(Box<Tree>, Box<Tree>),
    /// `OPTIONAL`; no condition is one that is always true.
    LeftJoin {
        left: Box<Tree>,
        right: Box<Tree>,
        condition: Option<Expr>,
    },
    Minus(Box<Tree>, Box<Tree>),
    Union(Box<Tree>, Box<Tree>),
    Filter {
        condition: Expr,
        inner: Box<Tree>,
    },
    /// `BIND`
    Extend {
        inner: Box<Tree>,
        variable: Text,
        value: Expr,
    },
}

/// Both operands in boxes of their own.
fn boxed(alloc: Global, left: Tree, right: Tree) -> Result<(Box<Tree>, Box<Tree>), Memory>
    ensures left { IfOk result (λ p. p.0.value ≡ left) }
    ensures right { IfOk result (λ p. p.1.value ≡ right) }
{
    let left = Box::new(alloc, left)?;
    let right = Box::new(alloc, right)?;
    Ok((left, right))
}

impl Tree {
    /// The part of a number.
    #[tactic(auto, unfolding(crate::specs::SplitTrees::pure_tree))]
    pub(crate) fn part(number: u32) -> Tree
        ensures { pure_tree result ≡ pure.Part number }
    {
        Tree::Part(number)
    }

    /// The solutions of both that are compatible, merged.
    #[tactic(auto, unfolding(crate::specs::SplitTrees::pure_tree))]
    pub(crate) fn join(alloc: Global, left: Tree, right: Tree) -> Result<Tree, Memory>
        ensures { IfOk result (λ t. pure_tree t ≡ pure.Join (pure_tree left) (pure_tree right)) }
    {
        let (left, right) = boxed(alloc, left, right)?;
        Ok(Tree::Join(left, right))
    }

    /// Each solution on the left, merged with what fits it on the right where the condition holds.
    #[tactic(auto, unfolding(crate::specs::SplitTrees::pure_tree))]
    pub(crate) fn left_join(
        alloc: Global,
        left: Tree,
        right: Tree,
        condition: Option<Expr>,
    ) -> Result<Tree, Memory>
        ensures { IfOk result (λ t. pure_tree t
            ≡ pure.LeftJoin (pure_tree left) (pure_tree right) (tree_within condition)) }
    {
        let (left, right) = boxed(alloc, left, right)?;
        Ok(Tree::LeftJoin {
            left,
            right,
            condition,
        })
    }

    /// The solutions on the left that no solution on the right rules out.
    #[tactic(auto, unfolding(crate::specs::SplitTrees::pure_tree))]
    pub(crate) fn minus(alloc: Global, left: Tree, right: Tree) -> Result<Tree, Memory>
        ensures { IfOk result (λ t. pure_tree t ≡ pure.Minus (pure_tree left) (pure_tree right)) }
    {
        let (left, right) = boxed(alloc, left, right)?;
        Ok(Tree::Minus(left, right))
    }

    /// The solutions of both.
    #[tactic(auto, unfolding(crate::specs::SplitTrees::pure_tree))]
    pub(crate) fn union(alloc: Global, left: Tree, right: Tree) -> Result<Tree, Memory>
        ensures { IfOk result (λ t. pure_tree t ≡ pure.Union (pure_tree left) (pure_tree right)) }
    {
        let (left, right) = boxed(alloc, left, right)?;
        Ok(Tree::Union(left, right))
    }

    /// The solutions for which the condition is true.
    #[tactic(auto, unfolding(crate::specs::SplitTrees::pure_tree))]
    pub(crate) fn filter(alloc: Global, condition: Expr, inner: Tree) -> Result<Tree, Memory>
        ensures { IfOk result (λ t. pure_tree t ≡ pure.Filter (tree_of condition) (pure_tree inner)) }
    {
        Ok(Tree::Filter {
            condition,
            inner: Box::new(alloc, inner)?,
        })
    }

    /// The solutions with a value under a variable's name.
    #[tactic(auto, unfolding(crate::specs::SplitTrees::pure_tree))]
    pub(crate) fn extend(
        alloc: Global,
        inner: Tree,
        variable: Text,
        value: Expr,
    ) -> Result<Tree, Memory>
        ensures { IfOk result (λ t. pure_tree t
            ≡ pure.Extend (pure_tree inner) variable (tree_of value)) }
    {
        Ok(Tree::Extend {
            inner: Box::new(alloc, inner)?,
            variable,
            value,
        })
    }
}
