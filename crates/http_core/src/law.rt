//! Laws of the definitions. Each is the contract of a function that does nothing.

ghost use Rattle.std.specs.Prelude.{◌≡◌, ◌++◌, ◌<◌, ◌^◌, ℕ, List, length};
ghost use Rattle.http_core.specs.Replies.{IsReply};
ghost use Rattle.http_core.specs.Written.{HasReason, head_text};

use crate::HttpReply;

/// A head that is written, with a body of its length behind it, is the reply with that code and
/// that body, and no other. So `take_reply` gives both back.
pub fn written_replies_are_taken()
    ensures taken { (code : ℕ) (reply : HttpReply) → HasReason code → reply.code ≡ code
        → length reply.body < 2 ^ 64 → IsReply (head_text code (length reply.body) ++ reply.body) reply }
    ensures one { (bytes : List ℕ) (a b : HttpReply) → IsReply bytes a → IsReply bytes b → a ≡ b }
{}
