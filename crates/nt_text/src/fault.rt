//! Why a text is not read.

use std::alloc::AllocError;
use term_core::Memory;

/// Why a document is refused: the first cause in the order of these variants but for the lines, of
/// which the first that is refused decides, by the first of its causes. Lines are counted from 1.
#[derive(Clone, Copy, Debug, PartialEq, Eq)]
pub enum DataFault {
    /// The document has more than `DOCUMENT_LIMIT` bytes.
    TooLong,
    /// The bytes are not UTF-8 (RFC 3629, section 4). The longest front that is has `at` bytes.
    NotUtf8 { at: usize },
    /// The line is not of the grammar.
    BadLine { line: u64 },
    /// A term of the line has a `size` of more than `TERM_LIMIT` bytes.
    TermTooLong { line: u64 },
    /// The line has the triple that is one more than `TRIPLE_LIMIT`, repeats counted.
    TooMany { line: u64 },
    /// The allocator had no room. No other answer depends on the memory at hand.
    Memory,
}

/// Why a part of a line is not read.
#[derive(Clone, Copy, Debug, PartialEq, Eq)]
pub enum Unread {
    /// The text does not begin with one.
    Form,
    /// The allocator had no room.
    Memory,
}

impl From<Memory> for Unread {
    ghost use Rattle.std.specs.Prelude.{◌≡◌};
    ghost use Rattle.nt_text.specs.declared.fault.Unread.TheVariants as unreads;

    ghost from_gives = { λ _ e. e ≡ unreads.Memory };

    fn from(_: Memory) -> Self {
        Unread::Memory
    }
}

impl From<AllocError> for Unread {
    ghost use Rattle.std.specs.Prelude.{◌≡◌};
    ghost use Rattle.nt_text.specs.declared.fault.Unread.TheVariants as unreads;

    ghost from_gives = { λ _ e. e ≡ unreads.Memory };

    fn from(_: AllocError) -> Self {
        Unread::Memory
    }
}
