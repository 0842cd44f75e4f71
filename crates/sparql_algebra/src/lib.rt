//! A query's text prepared for servers and the client: read, translated, and cut into parts that servers
//! answer page by page and the tree that the client computes from their solutions (SPARQL 1.1, sections
//! 18.2 and 18.6).
#![tactic(auto)]

mod cutting;
pub mod law;
mod preparing;
mod splitting;
mod texts;
mod tree;

pub use preparing::{prepare, split};
pub use sparql_translation::{is_plain, is_server, translate};
pub use splitting::{Part, Split};
pub use tree::Tree;
