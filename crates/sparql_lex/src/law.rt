//! Laws of the tokens of a text. Each is the contract of a function that does nothing.

ghost use Rattle.std.specs.Prelude.{◌≡◌, ◌⊎◌, ℕ, List, Some};
ghost use Rattle.term_core.specs.declared.token.Kind.{Kind};
ghost use Rattle.term_core.specs.declared.token.Token.{Token};
ghost use Rattle.term_core.specs.Terminals.{IsToken};
ghost use Rattle.term_core.specs.Tokens.{Tokens, FaultAt};

/// A text has at most one list of tokens, and at most one first place where none begins.
pub fn one_reading()
    ensures tokens { (text : List ℕ) (a b : List Token) → Tokens text a → Tokens text b → a ≡ b }
    ensures fault { (text : List ℕ) (a b : ℕ) → FaultAt text a → FaultAt text b → a ≡ b }
{}

/// A text never has tokens and a place where none begins, and has always one of both.
pub fn tokens_or_fault()
    ensures not_both { (text : List ℕ) (ts : List Token) (at : ℕ) → Tokens text ts → FaultAt text at → ⊥ }
    ensures always { (text : List ℕ) → ((ts : List Token) × Tokens text ts) ⊎ ((at : ℕ) × FaultAt text at) }
{}

/// No text is a token of two kinds.
pub fn one_kind()
    ensures { (text : List ℕ) (a b : Kind) → IsToken a text → IsToken b text → a ≡ b }
{}
