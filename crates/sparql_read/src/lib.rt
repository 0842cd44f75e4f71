//! The reader of queries: tokens, symbols, trees and scopes, joined.
#![tactic(auto)]

pub mod law;
mod query;
mod text;
mod tree;

pub use query::read_query;
pub use text::symbols;
pub use tree::read_tree;
