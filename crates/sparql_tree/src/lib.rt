//! Trees of queries and of the algebra of SPARQL 1.1, and what solutions in a data set are:
//! definitions, and laws over them. Which texts are queries, of which tree, and why others are
//! refused is defined here too: `Accepted` and, below it, `Symbols`, `Queries`, `Refusals` and
//! `Breaches` in `specs/`.
#![tactic(auto)]

mod algebra;
mod expr;
mod expr_sizes;
mod fault;
mod group;
mod law;
mod mark;
mod names;
mod query;
mod sizes;
mod symbol;
mod words;

pub use algebra::Algebra;
pub use expr::{Expr, Factor, Signed};
pub use expr_sizes::{expr_depth, expr_weight};
pub use fault::{QueryFault, Size};
pub use group::{Element, Group};
pub use law::{any_order, data_as_set, names_are_apart, one_pattern, solutions_are_exact};
pub use mark::Mark;
pub use names::{names_once, variables};
pub use query::{GroupKey, OrderKey, Query, SelectItem};
pub use sizes::{depth, weight};
pub use symbol::{Shape, Symbol};
pub use words::{AggregateKind, CompareOp, Function};
