//! The algebra cut into parts, and the tree over them.

ghost use Rattle.std.specs.Prelude.{◌≡◌, ◌++◌, ◌∷◌, [], true, false, length, map, IfOk, OnOk};
ghost use Rattle.sparql_tree.specs.Algebra as algebra;
ghost use Rattle.sparql_tree.specs.AlgebraTrees.{algebra_of};
ghost use Rattle.sparql_translation.specs.Splits as pure;
ghost use Rattle.sparql_translation.specs.Splits.{behind, parts_of, tree_from};
ghost use Rattle.sparql_algebra.specs.Cuts.{part_of};
ghost use Rattle.sparql_algebra.specs.SplitTrees.{pure_part, pure_tree};

use crate::{Part, Tree};
use sparql_print::print_part;
use sparql_translation::is_server;
use sparql_tree::{Algebra, variables};
use std::alloc::Global;
use term_core::{Items, Memory};

/// The part of what a server evaluates.
fn part(alloc: Global, a: Algebra) -> Result<Part, Memory>
    requires { algebra.is_server (algebra_of a) ≡ true }
    ensures { IfOk result (λ part. pure_part part ≡ part_of (algebra_of a)) }
{
    let text = print_part(alloc, &a)?;
    let variables = variables(alloc, &a)?;
    Ok(Part {
        algebra: a,
        text,
        variables,
    })
}

/// Puts a part behind the others, and gives its tree. There are never as many parts as 2^32.
fn push_part(alloc: Global, a: Algebra, parts: &mut Items<Part>) -> Result<Tree, Memory>
    requires { algebra.is_server (algebra_of a) ≡ true }
    ensures tree { IfOk result (λ tree. pure_tree tree ≡ pure.Part (length parts.old)) }
    ensures parts { OnOk result (map pure_part parts.new ≡ map pure_part parts.old ++ part_of (algebra_of a) ∷ []) }
{
    match u32::try_from(parts.len()) {
        Ok(number) => {
            parts.push(part(alloc, a)?)?;
            Ok(Tree::part(number))
        }
        Err(_) => Err(Memory),
    }
}

/// Cuts both operands, the left before the right.
#[cycle(cutting)]
fn cut_both(
    alloc: Global,
    left: Box<Algebra>,
    right: Box<Algebra>,
    parts: &mut Items<Part>,
) -> Result<(Tree, Tree), Memory>
    ensures left { IfOk result (λ trees. pure_tree trees.0 ≡ tree_from (length parts.old) (algebra_of left.value)) }
    ensures right { IfOk result (λ trees. pure_tree trees.1
        ≡ tree_from (behind (length parts.old) (algebra_of left.value)) (algebra_of right.value)) }
    ensures parts { OnOk result (map pure_part parts.new ≡ map pure_part parts.old
        ++ map part_of (parts_of (algebra_of left.value) ++ parts_of (algebra_of right.value))) }
{
    let left = cut(alloc, Box::into_inner(left), parts)?;
    let right = cut(alloc, Box::into_inner(right), parts)?;
    Ok((left, right))
}

/// Cuts the operands of an operator that no server evaluates.
#[cycle(cutting)]
#[tactic(auto, unfolding(sparql_tree::specs::AlgebraTrees::algebra_of))]
fn cut_below(alloc: Global, a: Algebra, parts: &mut Items<Part>) -> Result<Tree, Memory>
    requires { algebra.is_server (algebra_of a) ≡ false }
    ensures tree { IfOk result (λ tree. pure_tree tree ≡ tree_from (length parts.old) (algebra_of a)) }
    ensures parts { OnOk result (map pure_part parts.new ≡ map pure_part parts.old ++ map part_of (parts_of (algebra_of a))) }
{
    match a {
        Algebra::Join(left, right) => {
            let (left, right) = cut_both(alloc, left, right, parts)?;
            Tree::join(alloc, left, right)
        }
        Algebra::LeftJoin {
            left,
            right,
            condition,
        } => {
            let (left, right) = cut_both(alloc, left, right, parts)?;
            Tree::left_join(alloc, left, right, condition)
        }
        Algebra::Minus(left, right) => {
            let (left, right) = cut_both(alloc, left, right, parts)?;
            Tree::minus(alloc, left, right)
        }
        Algebra::Union(left, right) => {
            let (left, right) = cut_both(alloc, left, right, parts)?;
            Tree::union(alloc, left, right)
        }
        Algebra::Filter { condition, inner } => {
            let inner = cut(alloc, Box::into_inner(inner), parts)?;
            Tree::filter(alloc, condition, inner)
        }
        Algebra::Extend {
            inner,
            variable,
            value,
        } => {
            let inner = cut(alloc, Box::into_inner(inner), parts)?;
            Tree::extend(alloc, inner, variable, value)
        }
        Algebra::Bgp(_) | Algebra::Table { .. } => unreachable!(),
    }
}

/// Cuts operators into parts, which are put behind those that are there, and gives the tree over them.
#[cycle(cutting)]
pub fn cut(alloc: Global, a: Algebra, parts: &mut Items<Part>) -> Result<Tree, Memory>
    ensures tree { IfOk result (λ tree. pure_tree tree ≡ tree_from (length parts.old) (algebra_of a)) }
    ensures parts { OnOk result (map pure_part parts.new ≡ map pure_part parts.old ++ map part_of (parts_of (algebra_of a))) }
{
    if is_server(&a) {
        return push_part(alloc, a, parts);
    }
    cut_below(alloc, a, parts)
}
