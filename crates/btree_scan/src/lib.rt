//! Reads trees of numbered triples from blocks: an entry by its place, and the places of a key or of all keys
//! with a prefix.
#![tactic(auto)]

mod block;
mod extent;
pub mod law;
mod level;
mod prefix;
mod scan;
mod search;
mod tree;

pub use prefix::Prefix;
pub use scan::{entry, lower_bound, range};
pub use tree::Tree;
