//! Laws of the reader. Each is the contract of a function that does nothing.

ghost use Rattle.std.specs.Prelude.{◌≡◌, ◌⊎◌, ℕ, List};
ghost use Rattle.sparql_tree.specs.Accepted.{IsAccepted, IsRefused};
ghost use Rattle.sparql_tree.specs.Groups.{Query};
ghost use Rattle.sparql_tree.specs.Refusals as front;
ghost use Rattle.sparql_tree.specs.Refusals.{AreSymbols};
ghost use Rattle.sparql_tree.specs.Trees.{IsTree, HasNoTree};
ghost use Rattle.sparql_tree.specs.declared.fault.QueryFault.{QueryFault};
ghost use Rattle.sparql_tree.specs.declared.symbol.Symbol.{Symbol};

/// A text has at most one list of symbols.
pub fn one_list_of_symbols()
    ensures { (text : List ℕ) (a b : List Symbol) → AreSymbols text a → AreSymbols text b → a ≡ b }
{}

/// A text has at most one first cause that it has no symbols.
pub fn one_cause_of_no_symbols()
    ensures { (text : List ℕ) (a b : QueryFault) → front.HasNoSymbols text a → front.HasNoSymbols text b → a ≡ b }
{}

/// A text never has symbols and a cause of a refusal, and has always one of both.
pub fn symbols_or_refusal()
    ensures not_both { (text : List ℕ) (symbols : List Symbol) (fault : QueryFault) → AreSymbols text symbols → front.HasNoSymbols text fault → ⊥ }
    ensures always { (text : List ℕ) → ((symbols : List Symbol) × AreSymbols text symbols) ⊎ ((fault : QueryFault) × front.HasNoSymbols text fault) }
{}

/// A text has at most one tree.
pub fn one_tree()
    ensures { (text : List ℕ) (a b : Query) → IsTree text a → IsTree text b → a ≡ b }
{}

/// A text has at most one first cause that it has no tree.
pub fn one_cause_of_no_tree()
    ensures { (text : List ℕ) (a b : QueryFault) → HasNoTree text a → HasNoTree text b → a ≡ b }
{}

/// A text never has a tree and a cause of a refusal, and has always one of both.
pub fn tree_or_refusal()
    ensures not_both { (text : List ℕ) (query : Query) (fault : QueryFault) → IsTree text query → HasNoTree text fault → ⊥ }
    ensures always { (text : List ℕ) → ((query : Query) × IsTree text query) ⊎ ((fault : QueryFault) × HasNoTree text fault) }
{}

/// A text is of at most one accepted query.
pub fn one_query()
    ensures { (text : List ℕ) (a b : Query) → IsAccepted text a → IsAccepted text b → a ≡ b }
{}

/// A text has at most one first cause of a refusal.
pub fn one_cause()
    ensures { (text : List ℕ) (a b : QueryFault) → IsRefused text a → IsRefused text b → a ≡ b }
{}

/// A text is never accepted and refused, and is always one of both.
pub fn accepted_or_refused()
    ensures not_both { (text : List ℕ) (query : Query) (fault : QueryFault) → IsAccepted text query → IsRefused text fault → ⊥ }
    ensures always { (text : List ℕ) → ((query : Query) × IsAccepted text query) ⊎ ((fault : QueryFault) × IsRefused text fault) }
{}
