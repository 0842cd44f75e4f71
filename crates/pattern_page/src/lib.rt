//! Pages of a plan of one pattern: each begins where the bytes of the page before say, and gives the bytes of the next.
#![tactic(auto)]

mod counts;
mod follow;
mod page;
mod state;
mod tsv;

pub use counts::counts_text;
pub use follow::{Counts, follow_pages};
pub use page::{Page, PageFault, Part};
pub use state::{State, parse_state, push_state, states_are_read};
pub use tsv::{push_header, push_line};
