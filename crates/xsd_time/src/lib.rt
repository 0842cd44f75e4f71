//! Dates and moments of XML Schema: read from lexical forms, and compared by value.
#![tactic(auto)]

mod calendar;
mod fields;
mod moment;
mod reading;

pub use moment::{Moment, cmp};
pub use reading::read;
