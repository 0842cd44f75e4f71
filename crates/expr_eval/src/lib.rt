//! The value of an expression on a solution (SPARQL 1.1, section 17).
#![tactic(auto)]

mod compared;
mod error;
mod evaluation;
mod found;
mod functions;
mod tagged;

pub use error::ExprError;
pub use evaluation::{eval, truth_of};
