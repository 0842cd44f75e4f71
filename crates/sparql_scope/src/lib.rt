//! The first breach of a rule on the scope of variables and labels in the tree of a query.
#![tactic(auto)]

mod breach;
mod exprs;
mod grouping;
mod judge;
pub mod law;
mod marks;
mod names;
mod places;
mod walks;

pub use breach::first_breach;
