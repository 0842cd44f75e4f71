//! Laws of the tables. Each function does nothing when it runs: its contract is the law.

ghost use Rattle.std.specs.Prelude.{◌≡◌, ◌⊎◌, ◌↔◌, Option, Some, None, IsSome, true, false};
ghost use Rattle.std.specs.Cmp.{IsTotalOrder};
ghost use Rattle.std.specs.declared.cmp.Ordering.TheVariants.{Less, Equal};
ghost use Rattle.term_core.specs.declared.term.Term.{Term};
ghost use Rattle.value_table.specs.Values.{equal, less};
ghost use Rattle.value_table.specs.Comparisons.{unequal, greater, at_most, at_least, IsOneOfThree};
ghost use Rattle.value_table.specs.Keys.{order_keys};

/// Equality is an equivalence: each term equals itself, `a = b` and `b = a` answer the same, and
/// equal terms answer the same to any other, be it true, false or the error. So it is transitive,
/// among numbers, among truth values, among strings and altogether.
pub fn equality_is_an_equivalence()
    ensures itself { (t : Term) → equal t t ≡ Some true }
    ensures turned { (a b : Term) → equal a b ≡ equal b a }
    ensures alike { (a b c : Term) → equal a b ≡ Some true → equal a c ≡ equal b c }
    ensures chained { (a b c : Term) → equal a b ≡ Some true → equal b c ≡ Some true → equal a c ≡ Some true }
{}

/// Less is an order of the terms of a class that has one, and equality goes with it: exactly one of
/// `a < b`, `a = b` and `b < a` is true wherever one `<` of them is told, and none of them is then
/// the error.
pub fn less_is_an_order()
    ensures one { (a b : Term) → IsSome (less a b) → IsOneOfThree a b }
    ensures turned { (a b : Term) → (less a b ≡ None) ↔ (less b a ≡ None) }
    ensures chained { (a b c : Term) → less a b ≡ Some true → less b c ≡ Some true → less a c ≡ Some true }
    ensures alike { (a b c : Term) → equal a b ≡ Some true → less a c ≡ less b c }
    ensures alike_right { (a b c : Term) → equal a b ≡ Some true → less c a ≡ less c b }
{}

/// The other comparisons (SPARQL 1.1, section 17.3): `<=` is true where `<` or `=` is, and `>=`
/// where `>` or `=` is, if the terms have an order; each is the error exactly where `<` is, and
/// `!=` exactly where `=` is.
pub fn comparisons_follow()
    ensures at_most { (a b : Term) → IsSome (less a b)
        → (at_most a b ≡ Some true) ↔ ((less a b ≡ Some true) ⊎ (equal a b ≡ Some true)) }
    ensures at_least { (a b : Term) → IsSome (less a b)
        → (at_least a b ≡ Some true) ↔ ((greater a b ≡ Some true) ⊎ (equal a b ≡ Some true)) }
    ensures no_at_most { (a b : Term) → (at_most a b ≡ None) ↔ (less a b ≡ None) }
    ensures no_at_least { (a b : Term) → (at_least a b ≡ None) ↔ (less a b ≡ None) }
    ensures no_greater { (a b : Term) → (greater a b ≡ None) ↔ (less a b ≡ None) }
    ensures unequal { (a b : Term) → (unequal a b ≡ Some true) ↔ (equal a b ≡ Some false) }
    ensures no_unequal { (a b : Term) → (unequal a b ≡ None) ↔ (equal a b ≡ None) }
{}

/// The order of the keys of ORDER BY is total, the keys that tie are the equal terms, and a term
/// that is less has the lower key (SPARQL 1.1, section 15.1).
pub fn keys_are_in_order()
    ensures total { IsTotalOrder order_keys }
    ensures ties { (a b : Term) → (order_keys (Some a) (Some b) ≡ Equal) ↔ (equal a b ≡ Some true) }
    ensures by_less { (a b : Term) → less a b ≡ Some true → order_keys (Some a) (Some b) ≡ Less }
{}
