//! Scans of a store: the triples of a front of keys in one of the three orders, one read each, from
//! the first or behind a given one.
#![tactic(auto)]

mod scan;

pub use scan::{Found, Scan};
