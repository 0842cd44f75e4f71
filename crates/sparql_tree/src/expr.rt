//! Expressions of the query language (SPARQL 1.1, sections 17 and 19.8).

ghost use Rattle.std.specs.Prelude.{◌≡◌, IfOk};
ghost use Rattle.sparql_tree.specs.Exprs as tree;
ghost use Rattle.sparql_tree.specs.ExprTrees.{tree_of, trees_of, signs_of, factors_of};

use crate::{AggregateKind, CompareOp, Function};
use std::alloc::Global;
use term_core::{Memory, Term, Text};

/// An expression. A chain of operators of one level is one node; what stands in parentheses of its
/// own keeps a node of its own.
#[cycle(expr)]
#[derive(Drop)]
pub enum Expr {
    /// A variable, by its name without its mark.
    Var(Text),
    /// A term.
    Const(Term),
    /// `||`, between two or more.
    Or(Vec<Expr>),
    /// `&&`, between two or more.
    And(Vec<Expr>),
    /// `!`
    Not(Box<Expr>),
    /// The sign `+` before anything but a number.
    Plus(Box<Expr>),
    /// The sign `-` before anything but a number.
    Minus(Box<Expr>),
    /// A comparison.
    Compare {
        op: CompareOp,
        left: Box<Expr>,
        right: Box<Expr>,
    },
    /// `IN`, or `NOT IN` where it is negated.
    OneOf {
        left: Box<Expr>,
        items: Vec<Expr>,
        negated: bool,
    },
    /// Sums and differences, from the left.
    Sum {
        first: Box<Expr>,
        rest: Vec<Signed>,
    },
    /// Products and quotients, from the left.
    Product {
        first: Box<Expr>,
        rest: Vec<Factor>,
    },
    /// A function of its arguments.
    Call {
        function: Function,
        arguments: Vec<Expr>,
    },
    /// An aggregate; without an argument it is of whole solutions, as `COUNT(*)`.
    Aggregate {
        kind: AggregateKind,
        distinct: bool,
        argument: Option<Box<Expr>>,
    },
}

/// What is added to a sum, or taken from it where `minus`.
#[cycle(expr)]
#[derive(Drop)]
pub struct Signed {
    pub minus: bool,
    pub value: Expr,
}

/// What a product is multiplied by, or divided by where `divide`.
#[cycle(expr)]
#[derive(Drop)]
pub struct Factor {
    pub divide: bool,
    pub value: Expr,
}

impl Expr {
    /// `||` between these.
    #[tactic(auto, using(crate::proofs::ExprViews::or_view))]
    pub fn or(parts: Vec<Expr>) -> Expr
        ensures { tree_of result ≡ tree.Or (tree.exprs (trees_of parts.items)) }
    {
        Expr::Or(parts)
    }

    /// `&&` between these.
    #[tactic(auto, using(crate::proofs::ExprViews::and_view))]
    pub fn and(parts: Vec<Expr>) -> Expr
        ensures { tree_of result ≡ tree.And (tree.exprs (trees_of parts.items)) }
    {
        Expr::And(parts)
    }

    /// `!` before a value.
    #[tactic(auto, using(crate::proofs::ExprViews::not_view))]
    pub fn not(alloc: Global, value: Expr) -> Result<Expr, Memory>
        ensures { IfOk result (λ e. tree_of e ≡ tree.Not (tree_of value)) }
    {
        Ok(Expr::Not(Box::new(alloc, value)?))
    }

    /// `+` before a value.
    #[tactic(auto, using(crate::proofs::ExprViews::plus_view))]
    pub fn plus(alloc: Global, value: Expr) -> Result<Expr, Memory>
        ensures { IfOk result (λ e. tree_of e ≡ tree.Plus (tree_of value)) }
    {
        Ok(Expr::Plus(Box::new(alloc, value)?))
    }

    /// `-` before a value.
    #[tactic(auto, using(crate::proofs::ExprViews::minus_view))]
    pub fn minus(alloc: Global, value: Expr) -> Result<Expr, Memory>
        ensures { IfOk result (λ e. tree_of e ≡ tree.Minus (tree_of value)) }
    {
        Ok(Expr::Minus(Box::new(alloc, value)?))
    }

    /// A comparison.
    #[tactic(auto, using(crate::proofs::ExprViews::compare_view))]
    pub fn compare(alloc: Global, op: CompareOp, left: Expr, right: Expr) -> Result<Expr, Memory>
        ensures { IfOk result (λ e. tree_of e ≡ tree.Compare op (tree_of left) (tree_of right)) }
    {
        Ok(Expr::Compare {
            op,
            left: Box::new(alloc, left)?,
            right: Box::new(alloc, right)?,
        })
    }

    /// `IN`, or `NOT IN`.
    #[tactic(auto, using(crate::proofs::ExprViews::one_of_view))]
    pub fn one_of(
        alloc: Global,
        left: Expr,
        items: Vec<Expr>,
        negated: bool,
    ) -> Result<Expr, Memory>
        ensures { IfOk result (λ e. tree_of e
            ≡ tree.OneOf (tree_of left) (tree.exprs (trees_of items.items)) negated) }
    {
        Ok(Expr::OneOf {
            left: Box::new(alloc, left)?,
            items,
            negated,
        })
    }

    /// Sums and differences, from the left.
    #[tactic(auto, using(crate::proofs::ExprViews::sum_view))]
    pub fn sum(alloc: Global, first: Expr, rest: Vec<Signed>) -> Result<Expr, Memory>
        ensures { IfOk result (λ e. tree_of e
            ≡ tree.Sum (tree_of first) (tree.operands (signs_of rest.items))) }
    {
        Ok(Expr::Sum {
            first: Box::new(alloc, first)?,
            rest,
        })
    }

    /// Products and quotients, from the left.
    #[tactic(auto, using(crate::proofs::ExprViews::product_view))]
    pub fn product(alloc: Global, first: Expr, rest: Vec<Factor>) -> Result<Expr, Memory>
        ensures { IfOk result (λ e. tree_of e
            ≡ tree.Product (tree_of first) (tree.operands (factors_of rest.items))) }
    {
        Ok(Expr::Product {
            first: Box::new(alloc, first)?,
            rest,
        })
    }

    /// A function of these arguments, whose number is not looked at.
    #[tactic(auto, using(crate::proofs::ExprViews::call_view))]
    pub fn call(function: Function, arguments: Vec<Expr>) -> Expr
        ensures { tree_of result ≡ tree.Call function (tree.exprs (trees_of arguments.items)) }
    {
        Expr::Call {
            function,
            arguments,
        }
    }

    /// An aggregate of a value.
    #[tactic(auto, using(crate::proofs::ExprViews::aggregate_view))]
    pub fn aggregate(
        alloc: Global,
        kind: AggregateKind,
        distinct: bool,
        argument: Expr,
    ) -> Result<Expr, Memory>
        ensures { IfOk result (λ e. tree_of e ≡ tree.Aggregate kind distinct (tree_of argument)) }
    {
        Ok(Expr::Aggregate {
            kind,
            distinct,
            argument: Some(Box::new(alloc, argument)?),
        })
    }

    /// An aggregate of whole solutions, as `COUNT(*)`.
    #[tactic(auto, using(crate::proofs::ExprViews::aggregate_all_view))]
    pub fn aggregate_all(kind: AggregateKind, distinct: bool) -> Expr
        ensures { tree_of result ≡ tree.AggregateAll kind distinct }
    {
        Expr::Aggregate {
            kind,
            distinct,
            argument: None,
        }
    }

    /// An equal expression with room of its own.
    #[cycle(copy)]
    #[tactic(auto, using(crate::proofs::ExprViews::views))]
    pub fn copy(&self, alloc: Global) -> Result<Expr, Memory>
        ensures { IfOk result (λ e. tree_of e ≡ tree_of self.now) }
    {
        match self {
            Expr::Var(name) => Ok(Expr::Var(name.copy(alloc)?)),
            Expr::Const(term) => Ok(Expr::Const(term.copy(alloc)?)),
            Expr::Or(parts) => Ok(Expr::or(copy_all(parts, alloc)?)),
            Expr::And(parts) => Ok(Expr::and(copy_all(parts, alloc)?)),
            Expr::Not(value) => Expr::not(alloc, value.copy(alloc)?),
            Expr::Plus(value) => Expr::plus(alloc, value.copy(alloc)?),
            Expr::Minus(value) => Expr::minus(alloc, value.copy(alloc)?),
            Expr::Compare { op, left, right } => {
                let left = left.copy(alloc)?;
                let right = right.copy(alloc)?;
                Expr::compare(alloc, *op, left, right)
            }
            Expr::OneOf {
                left,
                items,
                negated,
            } => {
                let left = left.copy(alloc)?;
                let items = copy_all(items, alloc)?;
                Expr::one_of(alloc, left, items, *negated)
            }
            Expr::Sum { first, rest } => {
                let first = first.copy(alloc)?;
                let rest = copy_signs(rest, alloc)?;
                Expr::sum(alloc, first, rest)
            }
            Expr::Product { first, rest } => {
                let first = first.copy(alloc)?;
                let rest = copy_factors(rest, alloc)?;
                Expr::product(alloc, first, rest)
            }
            Expr::Call {
                function,
                arguments,
            } => Ok(Expr::call(*function, copy_all(arguments, alloc)?)),
            Expr::Aggregate {
                kind,
                distinct,
                argument,
            } => match argument {
                None => Ok(Expr::aggregate_all(*kind, *distinct)),
                Some(argument) => {
                    let argument = argument.copy(alloc)?;
                    Expr::aggregate(alloc, *kind, *distinct, argument)
                }
            },
        }
    }
}

#[cycle(copy)]
fn copy_all(values: &[Expr], alloc: Global) -> Result<Vec<Expr>, Memory>
    ensures { IfOk result (λ copy. trees_of copy.items ≡ trees_of values.now) }
{
    let mut copy = Vec::new(alloc);
    for value in values {
        copy.push(value.copy(alloc)?)?;
    }
    Ok(copy)
}

#[cycle(copy)]
fn copy_signs(values: &[Signed], alloc: Global) -> Result<Vec<Signed>, Memory>
    ensures { IfOk result (λ copy. signs_of copy.items ≡ signs_of values.now) }
{
    let mut copy = Vec::new(alloc);
    for signed in values {
        let value = signed.value.copy(alloc)?;
        copy.push(Signed {
            minus: signed.minus,
            value,
        })?;
    }
    Ok(copy)
}

#[cycle(copy)]
fn copy_factors(values: &[Factor], alloc: Global) -> Result<Vec<Factor>, Memory>
    ensures { IfOk result (λ copy. factors_of copy.items ≡ factors_of values.now) }
{
    let mut copy = Vec::new(alloc);
    for factor in values {
        let value = factor.value.copy(alloc)?;
        copy.push(Factor {
            divide: factor.divide,
            value,
        })?;
    }
    Ok(copy)
}
