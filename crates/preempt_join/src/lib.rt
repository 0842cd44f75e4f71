//! Plans that run one step at a time, over the blocks of a store. A node holds cursors and no place in
//! a list of entries, so a step costs a few reads whatever came before.
#![tactic(auto)]

mod cursor;
mod node;
mod pick;
mod states;
mod step;

pub use node::{Node, StateFault, StepFault, Turn};
pub use states::states_stand;
