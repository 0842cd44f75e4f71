//! What the tokens of a query text are to the grammar: keywords, signs, and values with their escapes undone.
#![tactic(auto)]

mod excess;
pub mod law;
mod parts;
mod prefixes;
mod prologue;
mod query_symbols;
mod reading;
mod undoing;
mod unsupported;
mod words;

pub use query_symbols::symbols_of;
