//! Laws of the grammar. Each is the contract of a function that does nothing.

ghost use Rattle.std.specs.Prelude.{◌≡◌, ◌≢◌, ◌≤◌, ◌⊎◌, List, [], ◌∷◌, ℕ, length, flat_map, All, IfOk, IfErr, Result, Ok, Err};
ghost use Rattle.term_core.specs.declared.term.Triple.{Triple};
ghost use Rattle.term_core.specs.Order.{IsAllowed};
ghost use Rattle.term_core.specs.Spelling.{AreSpelled};
ghost use Rattle.term_core.specs.Texts.{triple_text};
ghost use Rattle.nt_text.specs.declared.fault.DataFault.{DataFault as Faults};
ghost use Rattle.nt_text.specs.declared.fault.DataFault.TheVariants as faults;
ghost use Rattle.nt_text.specs.Grammar.{IsDocument};
ghost use Rattle.nt_text.specs.Limits.{AreWithinLimits, IsWithinLimits};
ghost use Rattle.nt_text.specs.Faults.{WhyRefused};

/// Bytes have one list of triples within the limits or one cause of a refusal, always one of the
/// two and never both.
pub fn documents_have_one_answer()
    ensures triples { (bytes : List ℕ) (triples others : List Triple) →
        IsDocument bytes triples → IsDocument bytes others → triples ≡ others }
    ensures cause { (bytes : List ℕ) (fault other : Faults) → fault ≢ faults.Memory → other ≢ faults.Memory →
        WhyRefused bytes fault → WhyRefused bytes other → fault ≡ other }
    ensures either { (bytes : List ℕ) (triples : List Triple) (fault : Faults) → fault ≢ faults.Memory →
        IsDocument bytes triples → IsWithinLimits bytes triples → WhyRefused bytes fault → ⊥ }
    ensures always { (bytes : List ℕ) →
        ((triples : List Triple) × IsDocument bytes triples × IsWithinLimits bytes triples)
        ⊎ ((fault : Faults) × (fault ≢ faults.Memory) × WhyRefused bytes fault) }
{}

/// The line of a triple of RDF whose terms N-Triples can spell is a document with that triple alone.
/// The lines of a list of them are a document with exactly that list, and within the limits
/// `read_document`, of which `found` and `why` are the clauses, answers it unless memory runs out.
pub fn written_triples_read_back()
    ensures one { (t : Triple) → IsAllowed t → AreSpelled t → IsDocument (triple_text t) (t ∷ []) }
    ensures lines { (triples : List Triple) → All IsAllowed triples → All AreSpelled triples →
        IsDocument (flat_map triple_text triples) triples }
    ensures read { (triples : List Triple) → All IsAllowed triples → All AreSpelled triples →
        AreWithinLimits triples → length (flat_map triple_text triples) ≤ 268435456 →
        (answer : Result (List Triple) Faults) →
        IfOk answer (λ found. IsDocument (flat_map triple_text triples) found) →
        IfErr answer (λ fault. WhyRefused (flat_map triple_text triples) fault) →
        (answer ≡ Ok triples) ⊎ (answer ≡ Err faults.Memory) }
{}
