//! Plans of queries.

ghost use Rattle.std.specs.Prelude.{◌≡◌, IfOk};
ghost use Rattle.term_core.specs.Patterns.{pattern_of};
ghost use Rattle.sparql_tree.specs.ExprTrees.{tree_of};
ghost use Rattle.sparql_tree.specs.Sizes.{counted};
ghost use Rattle.plan_tree.specs.Spelling as spelling;
ghost use Rattle.plan_tree.specs.Trace as tree;
ghost use Rattle.plan_tree.specs.Trees.{plan_in};

use sparql_tree::Expr;
use std::alloc::Global;
use term_core::{Items, Memory, Pattern, Row, Text};

/// How a server gives the rows of an operator of the algebra, one step after the other.
#[derive(Drop)]
pub enum Plan {
    /// Its rows in their order. They bind no other variables than these.
    Table {
        variables: Items<Text>,
        rows: Items<Row>,
    },
    /// Each row of the left side with what the triples that agree with the pattern bind besides.
    Join {
        left: Box<Plan>,
        pattern: Pattern,
    },
    /// The rows of the first, and then those of the second.
    Union(Box<Plan>, Box<Plan>),
    /// The rows on which the condition is true.
    Filter {
        inner: Box<Plan>,
        condition: Expr,
    },
    /// The rows with the value under the variable; where the value is an error, as they are.
    Bind {
        inner: Box<Plan>,
        variable: Text,
        value: Expr,
    },
    /// The rows restricted to the variables.
    Project {
        inner: Box<Plan>,
        variables: Items<Text>,
    },
}

impl Plan {
    /// The plan's rows joined with a pattern.
    #[tactic(auto, unfolding(crate::specs::Trees::plan_in))]
    pub fn join(alloc: Global, left: Plan, pattern: Pattern) -> Result<Plan, Memory>
        ensures { IfOk result (λ p. plan_in p ≡ tree.join_plan (plan_in left) (pattern_of pattern)) }
    {
        Ok(Plan::Join {
            left: Box::new(alloc, left)?,
            pattern,
        })
    }

    /// The rows of two plans.
    #[tactic(auto, unfolding(crate::specs::Trees::plan_in))]
    pub fn union(alloc: Global, first: Plan, second: Plan) -> Result<Plan, Memory>
        ensures { IfOk result (λ p. plan_in p ≡ tree.union_plan (plan_in first) (plan_in second)) }
    {
        let first = Box::new(alloc, first)?;
        let second = Box::new(alloc, second)?;
        Ok(Plan::Union(first, second))
    }

    /// The plan's rows on which the condition is true.
    #[tactic(auto, unfolding(crate::specs::Trees::plan_in))]
    pub fn filter(alloc: Global, inner: Plan, condition: Expr) -> Result<Plan, Memory>
        ensures { IfOk result (λ p. plan_in p ≡ tree.filter_plan (plan_in inner) (tree_of condition)) }
    {
        Ok(Plan::Filter {
            inner: Box::new(alloc, inner)?,
            condition,
        })
    }

    /// The plan's rows with a value under a variable.
    #[tactic(auto, unfolding(crate::specs::Trees::plan_in))]
    pub fn bind(alloc: Global, inner: Plan, variable: Text, value: Expr) -> Result<Plan, Memory>
        ensures { IfOk result (λ p. plan_in p ≡ tree.bind_plan (plan_in inner) variable (tree_of value)) }
    {
        Ok(Plan::Bind {
            inner: Box::new(alloc, inner)?,
            variable,
            value,
        })
    }

    /// The plan's rows restricted to the variables.
    #[tactic(auto, unfolding(crate::specs::Trees::plan_in))]
    pub fn project(alloc: Global, inner: Plan, variables: Items<Text>) -> Result<Plan, Memory>
        ensures { IfOk result (λ p. plan_in p ≡ tree.project_plan (plan_in inner) variables) }
    {
        Ok(Plan::Project {
            inner: Box::new(alloc, inner)?,
            variables,
        })
    }
}

/// How many parts a plan has. It stops at `2^64 - 1`. The calls nest as deep as the plan does.
#[tactic(auto, unfolding(crate::specs::Trees::plan_in))]
pub fn nodes(p: &Plan) -> u64
    ensures { result ≡ counted (spelling.nodes (plan_in p.now)) }
{
    match p {
        Plan::Table { .. } => 1,
        Plan::Join { left, .. } => nodes(left).saturating_add(1),
        Plan::Union(first, second) => nodes(first).saturating_add(nodes(second)).saturating_add(1),
        Plan::Filter { inner, .. } | Plan::Bind { inner, .. } | Plan::Project { inner, .. } => {
            nodes(inner).saturating_add(1)
        }
    }
}
