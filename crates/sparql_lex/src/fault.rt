//! Why a text has no tokens.

use std::alloc::AllocError;

/// Why a text has no tokens.
#[derive(Clone, Copy, Debug, PartialEq, Eq)]
pub enum LexFault {
    /// Where the text is not UTF-8, its longest prefix that is has `at` bytes. Else no space, comment
    /// or token begins at the byte `at`, which is the first such.
    Lex { at: usize },
    /// The allocator had no room. No other answer depends on the memory at hand.
    Memory,
}

impl From<AllocError> for LexFault {
    ghost use Rattle.std.specs.Prelude.{◌≡◌};
    ghost use Rattle.sparql_lex.specs.declared.fault.LexFault.TheVariants.{Memory};

    ghost from_gives = { λ _ fault. fault ≡ Memory };

    fn from(_error: AllocError) -> LexFault {
        LexFault::Memory
    }
}

impl From<term_core::Memory> for LexFault {
    ghost use Rattle.std.specs.Prelude.{◌≡◌};
    ghost use Rattle.sparql_lex.specs.declared.fault.LexFault.TheVariants.{Memory};

    ghost from_gives = { λ _ fault. fault ≡ Memory };

    fn from(_error: term_core::Memory) -> LexFault {
        LexFault::Memory
    }
}
