//! The reader of the grammar of queries: the tree that symbols spell.
#![tactic(auto)]

mod cursor;
mod exprs;
mod fault;
mod groups;
pub mod law;
mod queries;
mod read;
mod terms;
mod triples;
mod values;

pub use read::read_symbols;
