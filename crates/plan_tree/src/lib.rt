//! Plans of queries and the entries that they give step by step: definitions, and laws over them.
#![tactic(auto)]

mod law;
mod plan;
mod state;
mod states;

pub use law::{
    bag_is_kept, entries_extend, plans_are_one, rows_are_the_answer, rows_of_pattern, traces_end,
    traces_of_sets,
};
pub use plan::{Plan, nodes};
pub use state::{Inner, State};
pub use states::{
    bytes_of_shapes, bytes_of_states, one_run, one_state, pages_join, pages_take_steps, parts_join,
    pattern_rows, pattern_states, quanta_go_round, reached_states, states_of_sets,
};
