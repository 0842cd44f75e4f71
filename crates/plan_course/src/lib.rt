//! Plans as they run: their names and terms are numbers, so that rows are cells of numbers.
#![tactic(auto)]

mod course;
mod kept;
mod numbering;
mod numbers;
mod outside;
mod pattern;
mod plans;
mod table;

pub use course::{Course, Placed};
pub use numbers::{Numbered, number};
