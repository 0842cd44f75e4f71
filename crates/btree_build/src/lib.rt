//! Writes trees of numbered triples into blocks: the sorted list, and levels above it.
#![tactic(auto)]

mod level;
mod tree;

pub use tree::{image, push_tree};
