//! Why a text is no query that is accepted.

use std::alloc::AllocError;
use term_core::Text;

/// Which limit is passed.
#[derive(Clone, Copy, Debug, PartialEq, Eq)]
pub enum Size {
    /// 262,144 bytes of a query's text.
    Text,
    /// 256 of `(` and `{` that are open at one place.
    Nesting,
    /// 100 levels of the algebra or of an expression.
    Depth,
    /// 4,000 in all, over the algebra and its expressions.
    Weight,
    /// The limit of bytes or of nesting, of the printed text of a part.
    Part,
}

/// Why a text is no query that is accepted. Of several causes the first in this order is given, but
/// that the depth, the weight and the parts are looked at last.
#[derive(Debug, Drop)]
pub enum QueryFault {
    /// A limit is passed.
    TooLarge(Size),
    /// No space, comment or token begins at the byte `at`, the first such; or the bytes are not UTF-8
    /// behind a front of `at` bytes.
    Lex { at: usize },
    /// The first token of the language that is not answered here, as it is written.
    Unsupported { what: Text },
    /// The tokens are of no query.
    NotAQuery,
    /// The first breach of a rule on scopes, at `?name`, `_:label` or `*`.
    Scope { variable: Text },
    /// The allocator had no room; or what the text abbreviates (prefixes, and subjects, verbs and variables that are
    /// written once and held again) would take more than 2^30 bytes past those of the text, which is not tried.
    /// No other answer depends on the memory at hand.
    Memory,
}

impl From<AllocError> for QueryFault {
    ghost use Rattle.std.specs.Prelude.{◌≡◌};
    ghost use Rattle.sparql_tree.specs.declared.fault.QueryFault.TheVariants.{Memory};

    ghost from_gives = { λ _ fault. fault ≡ Memory };

    fn from(_error: AllocError) -> QueryFault {
        QueryFault::Memory
    }
}

impl From<term_core::Memory> for QueryFault {
    ghost use Rattle.std.specs.Prelude.{◌≡◌};
    ghost use Rattle.sparql_tree.specs.declared.fault.QueryFault.TheVariants.{Memory};

    ghost from_gives = { λ _ fault. fault ≡ Memory };

    fn from(_error: term_core::Memory) -> QueryFault {
        QueryFault::Memory
    }
}
