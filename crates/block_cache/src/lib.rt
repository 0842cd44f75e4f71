//! Blocks with a cache over them, which keeps those used last in memory, each in a box of its own.
#![tactic(auto)]

mod cache;
mod fetch;
mod kept;
mod store;

pub use cache::{BlockCache, Uncached};
