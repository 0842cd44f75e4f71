//! A condition together with what tests it.

ghost use Rattle.std.specs.Prelude.{◌≡◌, IfOk, Bool, Result, Ok};
ghost use Rattle.term_core.specs.Mappings.{Row as Mapping};
ghost use Rattle.term_core.specs.declared.text.Memory.{Memory as NoMemory};
ghost use Rattle.sparql_tree.specs.ExprTrees.{tree_of};
ghost use Rattle.sparql_value.specs.Evaluation.{is_true_under};

use expr_eval::truth_of;
use sparql_tree::Expr;
use std::alloc::Global;
use term_core::{Memory, Row};

/// What tests rows.
pub trait TestsRows {
    /// The answers that it may give to a row.
    ghost gives: { Self → Mapping → Result Bool NoMemory → Type 0 };

    /// An answer that it may give.
    fn test(&self, row: &Row) -> Result<bool, Memory>
        ensures { gives self.now row.now result };
}

/// Tests whether a condition is true, or answers Memory.
#[derive(Drop)]
pub struct ConditionTest<'a> {
    /// What a value that has to be made on the way takes its memory from.
    pub alloc: Global,
    pub condition: &'a Expr,
}

impl<'a> TestsRows for ConditionTest<'a> {
    ghost gives = { λ test row answer. IfOk answer (λ b. b ≡ is_true_under (tree_of test.condition.now) row) };

    fn test(&self, row: &Row) -> Result<bool, Memory> {
        truth_of(self.alloc, self.condition, row)
    }
}

/// A condition with a predicate that tells of each row, if it finds memory, whether the condition is
/// true on it (SPARQL 1.1, section 18.5, Filter). That it does is kept with them.
#[derive(Drop)]
pub struct Sieve<'a, P: TestsRows> {
    condition: &'a Expr,
    predicate: P,
    ghost answers: { (row : Mapping) (b : Bool) → P.gives predicate row (Ok b) → b ≡ is_true_under (tree_of condition.now) row },
}

impl<'a, P: TestsRows> Sieve<'a, P> {
    /// The sieve of a condition and a predicate that tests it. It takes no memory.
    pub fn new(condition: &'a Expr, predicate: P) -> Sieve<'a, P>
        requires answers { (row : Mapping) (b : Bool) → P.gives predicate row (Ok b)
            → b ≡ is_true_under (tree_of condition.now) row }
        ensures { result.condition.now ≡ condition.now }
    {
        Sieve {
            condition,
            predicate,
        }
    }

    /// Whether the condition is true on the row; an error in it is not true.
    pub fn pass(&self, row: &Row) -> Result<bool, Memory>
        ensures { IfOk result (λ b. b ≡ is_true_under (tree_of self.now.condition.now) row.now) }
    {
        self.predicate.test(row)
    }
}
