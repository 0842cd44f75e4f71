//! What a client asks of a server of pages.

use term_core::{Items, Memory, Text};

/// A request for the page that follows a suspended plan, or for the first page where there is none.
#[derive(Debug, Drop)]
pub struct PageRequest {
    /// The text of the query.
    pub query: Text,
    /// The suspended plan.
    pub next: Option<Items<u8>>,
}

/// Why bytes were not read as a request.
#[derive(Clone, Copy, Debug, PartialEq, Eq)]
pub enum RequestFault {
    /// The bytes ask for no page.
    Request,
    /// The bytes ask for a page, but the text of the suspended plan is not base64.
    Base64,
    /// The allocator had no room.
    Memory,
}

impl From<Memory> for RequestFault {
    ghost use Rattle.std.specs.Prelude.{◌≡◌};
    ghost use Rattle.page_json.specs.declared.request.RequestFault.{RequestFault};

    ghost from_gives = { λ _ r. r ≡ RequestFault.Memory };

    fn from(_: Memory) -> Self {
        RequestFault::Memory
    }
}
