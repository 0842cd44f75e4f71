//! The tokens of a query text (SPARQL 1.1, section 19.8).
#![tactic(auto)]

mod classes;
mod fault;
pub mod law;
mod lexing;
mod names;
mod scan;
mod state;
mod steps;

pub use fault::LexFault;
pub use lexing::tokens;
pub use term_core::{Kind, Token};
