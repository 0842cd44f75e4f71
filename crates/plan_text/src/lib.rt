//! Plans as text, in which they are shown to people.
#![tactic(auto)]

mod printing;

pub use printing::print_plan;
