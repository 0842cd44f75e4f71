//! Expressions and parts of queries as text that reads back (SPARQL 1.1, sections 17 and 19.8).
#![tactic(auto)]

pub mod law;
mod part;
mod printing;

pub use part::print_part;
pub use printing::print_expr;
