//! Requests for pages and replies to them as JSON (RFC 8259), with suspended plans as base64 (RFC 4648).
#![tactic(auto)]

mod members;
mod plan_text;
mod reply;
mod reply_reading;
mod reply_writing;
mod request;
mod request_reading;
mod request_writing;
mod term_reading;
mod term_writing;

pub use reply::{PageReply, ReplyFault};
pub use reply_reading::read_reply;
pub use reply_writing::write_reply;
pub use request::{PageRequest, RequestFault};
pub use request_reading::read_request;
pub use request_writing::write_request;
