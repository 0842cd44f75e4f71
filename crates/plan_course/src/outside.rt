//! The variables that an expression reads.

ghost use Rattle.std.specs.Prelude.{◌≡◌, ◌++◌, IfOk, OnOk, flat_map, List};
ghost use Rattle.sparql_tree.specs.ExprTrees.{tree_of, trees_of, signs_of, factors_of};
ghost use Rattle.sparql_tree.specs.Scopes as spec;
ghost use Rattle.plan_course.specs.Meanings.{Tells, Grown, AreNamed};
ghost use Rattle.plan_course.specs.Parts.{outside_operand};

use crate::numbering::Numbering;
use sparql_tree::{Expr, Factor, Signed};
use std::alloc::Global;
use term_core::{Items, Memory, Text};

/// The numbers of the variables that stand in an expression outside aggregates.
pub fn reads_of(
    alloc: Global,
    value: &Expr,
    numbering: &mut Numbering,
) -> Result<Items<usize>, Memory>
    requires tells { Tells numbering.old }
    ensures grown { OnOk result (Grown numbering.old numbering.new) }
    ensures named { IfOk result (λ reads. AreNamed numbering.new.names reads (spec.outside (tree_of value.now))) }
{
    let mut found = Items::new(alloc);
    add_outside(value, alloc, &mut found)?;
    numbering.slots_of(alloc, found.as_slice())
}

/// Adds the variables that stand outside aggregates, in order.
#[cycle(outside)]
#[tactic(auto, using(sparql_tree::proofs::ExprViews::views, crate::proofs::Parts::variables))]
fn add_outside(value: &Expr, alloc: Global, found: &mut Items<Text>) -> Result<(), Memory>
    ensures { OnOk result (found.new ≡ found.old ++ spec.outside (tree_of value.now)) }
{
    match value {
        Expr::Var(name) => found.push(name.copy(alloc)?),
        Expr::Const(_) => Ok(()),
        Expr::Or(parts) => add_outside_all(parts, alloc, found),
        Expr::And(parts) => add_outside_all(parts, alloc, found),
        Expr::Not(value) => add_outside(value, alloc, found),
        Expr::Plus(value) => add_outside(value, alloc, found),
        Expr::Minus(value) => add_outside(value, alloc, found),
        Expr::Compare { op: _, left, right } => {
            add_outside(left, alloc, found)?;
            add_outside(right, alloc, found)
        }
        Expr::OneOf {
            left,
            items,
            negated: _,
        } => {
            add_outside(left, alloc, found)?;
            add_outside_all(items, alloc, found)
        }
        Expr::Sum { first, rest } => {
            add_outside(first, alloc, found)?;
            add_outside_signs(rest, alloc, found)
        }
        Expr::Product { first, rest } => {
            add_outside(first, alloc, found)?;
            add_outside_factors(rest, alloc, found)
        }
        Expr::Call {
            function: _,
            arguments,
        } => add_outside_all(arguments, alloc, found),
        Expr::Aggregate {
            kind: _,
            distinct: _,
            argument,
        } => match argument {
            None => Ok(()),
            Some(_) => Ok(()),
        },
    }
}

/// Adds those of each, in order.
#[cycle(outside)]
#[tactic(auto, using(crate::proofs::Parts::variables))]
fn add_outside_all(values: &[Expr], alloc: Global, found: &mut Items<Text>) -> Result<(), Memory>
    ensures { OnOk result (found.new ≡ found.old ++ flat_map spec.outside (trees_of values.now)) }
{
    for value in values {
        add_outside(value, alloc, found)?;
    }
    Ok(())
}

#[cycle(outside)]
#[tactic(auto, using(crate::proofs::Parts::variables))]
fn add_outside_signs(
    values: &[Signed],
    alloc: Global,
    found: &mut Items<Text>,
) -> Result<(), Memory>
    ensures { OnOk result (found.new ≡ found.old ++ flat_map outside_operand (signs_of values.now)) }
{
    for signed in values {
        add_outside(&signed.value, alloc, found)?;
    }
    Ok(())
}

#[cycle(outside)]
#[tactic(auto, using(crate::proofs::Parts::variables))]
fn add_outside_factors(
    values: &[Factor],
    alloc: Global,
    found: &mut Items<Text>,
) -> Result<(), Memory>
    ensures { OnOk result (found.new ≡ found.old ++ flat_map outside_operand (factors_of values.now)) }
{
    for factor in values {
        add_outside(&factor.value, alloc, found)?;
    }
    Ok(())
}
