//! What a server answers to a request for a page.

use term_core::{Items, Memory, Row, Text};

/// A page of rows, or the name of the refusal that stands in its place.
#[derive(Debug, Drop)]
pub enum PageReply {
    /// A page: the names of its columns in order, its rows, the suspended plan from which the next page
    /// goes on, or none after the last page, and the number of plan steps that it took.
    Rows {
        variables: Items<Text>,
        rows: Items<Row>,
        next: Option<Items<u8>>,
        steps: u32,
    },
    /// A refusal, by its name.
    Refused {
        name: Text,
    },
}

/// Why bytes were not read as a reply.
#[derive(Clone, Copy, Debug, PartialEq, Eq)]
pub enum ReplyFault {
    /// The bytes are no reply.
    BadReply,
    /// The allocator had no room.
    Memory,
}

impl From<Memory> for ReplyFault {
    ghost use Rattle.std.specs.Prelude.{◌≡◌};
    ghost use Rattle.page_json.specs.declared.reply.ReplyFault.{ReplyFault};

    ghost from_gives = { λ _ r. r ≡ ReplyFault.Memory };

    fn from(_: Memory) -> Self {
        ReplyFault::Memory
    }
}
