//! The value of an expression on a solution, as definitions (SPARQL 1.1, section 17): a term, or the one error. And laws over them.
#![tactic(auto)]

mod law;

pub use law::{names_decide, sides_decide};
