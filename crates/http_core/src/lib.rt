//! Requests and replies of HTTP, to and from bytes: heads, lengths and bodies.
#![tactic(auto)]

mod checks;
mod fields;
pub mod law;
mod lengths;
mod reply;
mod request;
mod taking;
mod writing;

pub use reply::{HttpReply, HttpReplyFault, take_reply};
pub use request::{HttpRefusal, HttpRequest, take_request};
pub use writing::{post, write_head};
