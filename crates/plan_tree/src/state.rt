//! What is kept of a plan that was stopped.

use term_core::IdTriple;

/// How far a join has come with the last entry of its left side.
#[derive(Clone, Copy, Debug)]
pub enum Inner {
    /// That entry has no row, or its triples are all given.
    Idle,
    /// Its row was taken, and no triple given yet.
    Opened,
    /// Its triples are given up to this one.
    At(IdTriple),
}

/// Where a plan stands, by cases of the plan: places and triples, never rows.
#[derive(Drop)]
pub enum State {
    /// Nothing more comes.
    Done,
    /// So many rows are given.
    Table { place: u32 },
    Join { left: Box<State>, inner: Inner },
    /// The side that gives rows, 0 or 1, and where it stands.
    Union { side: u8, active: Box<State> },
}
