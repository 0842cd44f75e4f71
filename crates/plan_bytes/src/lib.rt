//! Suspended plans as bytes: written, looked at and read back.
#![tactic(auto)]

mod head;
mod law;
mod length;
mod reading;
mod writing;

pub use head::{HeadFault, check_head};
pub use law::saved_are_read;
pub use length::length_bound;
pub use reading::{PlanFault, parse};
pub use writing::save;
