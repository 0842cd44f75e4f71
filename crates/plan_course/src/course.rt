//! Plans whose names and terms are numbered.

use row_cells::PatternSlots;
use sparql_tree::Expr;
use term_core::{Items, Text};

/// A term of a row of VALUES.
#[derive(Clone, Copy, Debug, PartialEq, Eq)]
pub struct Placed {
    /// The number of its name.
    pub slot: usize,
    /// Its own number among the terms of the plan.
    pub term: u32,
}

/// A plan as it runs: its names and terms are numbers.
#[derive(Drop)]
pub enum Course {
    Table {
        variables: Items<Text>,
        rows: Items<Items<Placed>>,
    },
    Join {
        left: Box<Course>,
        pattern: PatternSlots,
    },
    Union(Box<Course>, Box<Course>),
    Filter {
        inner: Box<Course>,
        /// The names that the condition reads.
        reads: Items<usize>,
        condition: Expr,
    },
    Bind {
        inner: Box<Course>,
        slot: usize,
        /// The number of what it gives.
        place: u32,
        /// The names that the value reads.
        reads: Items<usize>,
        value: Expr,
    },
    Project {
        inner: Box<Course>,
        variables: Items<Text>,
        /// For each name whether it is one of the variables.
        kept: Items<bool>,
    },
}
