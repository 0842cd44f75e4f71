//! Queries cut into parts.

use crate::Tree;
use sparql_tree::{Algebra, Query};
use term_core::{Items, Text};

/// What servers answer page by page.
#[derive(Drop)]
pub struct Part {
    pub algebra: Algebra,
    /// The query for all its variables, as a server reads it.
    pub text: Text,
    /// The variables of its solutions, in the order in which they first appear.
    pub variables: Items<Text>,
}

/// A query cut into parts.
#[derive(Drop)]
pub struct Split {
    pub query: Query,
    /// From left to right.
    pub parts: Items<Part>,
    /// What the client computes from the solutions of the parts.
    pub tree: Tree,
    /// The variables of the answer: those of the items, each once, or for `*` those in scope.
    pub variables: Items<Text>,
}
