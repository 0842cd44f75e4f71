//! Laws of accepted texts. Each is the contract of a function that does nothing.

ghost use Rattle.std.specs.Prelude.{◌≡◌, ◌⊎◌, ℕ, List};
ghost use Rattle.sparql_tree.specs.declared.fault.QueryFault.{QueryFault};
ghost use Rattle.sparql_algebra.specs.Cuts.{Split};
ghost use Rattle.sparql_algebra.specs.Prepared.{Accepted, IsNotPrepared};

/// A text is accepted as at most one split.
pub fn one_split()
    ensures { (text : List ℕ) (a b : Split) → Accepted text a → Accepted text b → a ≡ b }
{}

/// A text has at most one first cause of a refusal.
pub fn one_refusal()
    ensures { (text : List ℕ) (a b : QueryFault) → IsNotPrepared text a → IsNotPrepared text b → a ≡ b }
{}

/// A text is never accepted and refused, and is always one of both.
pub fn prepared_or_refused()
    ensures not_both { (text : List ℕ) (split : Split) (fault : QueryFault) → Accepted text split → IsNotPrepared text fault → ⊥ }
    ensures always { (text : List ℕ) → ((split : Split) × Accepted text split) ⊎ ((fault : QueryFault) × IsNotPrepared text fault) }
{}
