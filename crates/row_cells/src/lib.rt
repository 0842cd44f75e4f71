//! Rows inside the engine: a cell for each name that holds the rank of a term of the data or the
//! number of a term that the plan brings; what a pattern asks for under such a row, and what a triple
//! makes of it.
#![tactic(auto)]

mod cell;
mod extend;
mod law;
mod own;

pub use cell::{Cell, PatternSlots, Position};
pub use extend::extend_into;
pub use law::{cells_are_rows, others_make_no_odds, stays_told};
pub use own::{OwnTerms, asked};
