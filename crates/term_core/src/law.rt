//! Laws of the definitions that the other contracts cite. Each is the contract of a function that does nothing.

ghost use Rattle.std.specs.Prelude.{◌≡◌, ◌∷◌, ◌++◌, ◌↔◌, filter, [], List, Option, Some, None, ℕ, true};
ghost use Rattle.std.specs.Cmp.{IsTotalOrder};
ghost use Rattle.std.specs.List.Sorted.{IsPermutation};
ghost use Rattle.std.specs.declared.cmp.Ordering.TheVariants.{Equal};
ghost use Rattle.std.specs.FinMap as map;
ghost use Rattle.term_core.specs.Order.{bytes_cmp};
ghost use Rattle.term_core.specs.Ids.{id_cmp};
ghost use Rattle.term_core.specs.declared.pattern.IdTriple.{IdTriple};
ghost use Rattle.term_core.specs.Bags.{In, SameBag, AreDistinct, distinct, is_new};
ghost use Rattle.term_core.specs.Mappings.{Name, Row, value, same_name, same_term};
ghost use Rattle.term_core.specs.Mappings.{are_compatible, joined, joins, restricted, IsJoin, IsAmongJoins};
ghost use Rattle.term_core.specs.declared.term.Term.{Term};

use crate::IdTriple;

/// The order on bytes is total, and equal bytes alone tie.
pub fn bytes_order_is_total()
    ensures total { IsTotalOrder bytes_cmp }
    ensures exact { (a b : List ℕ) → bytes_cmp a b ≡ Equal → a ≡ b }
{}

/// The order on triples of numbers is total, equal triples alone tie, and it is the one of `IdTriple`.
pub fn id_order_is_total()
    ensures total { IsTotalOrder id_cmp }
    ensures exact { (a b : IdTriple) → id_cmp a b ≡ Equal → a ≡ b }
    ensures derived { (a b : IdTriple) → ⟦<IdTriple as Ord>⟧.cmp a b ≡ id_cmp a b }
{}

/// The tests of equality hold exactly of equal names and of equal terms, and rows are equal where
/// they give each name the same value.
pub fn equality_is_exact()
    ensures names { (a b : Name) → (same_name a b ≡ true) ↔ (a ≡ b) }
    ensures terms { (a b : Term) → (same_term a b ≡ true) ↔ (a ≡ b) }
    ensures rows { (a b : Row) → ((name : Name) → value a name ≡ value b name) → a ≡ b }
{}

/// Two rows are compatible exactly where they agree on the names that both bind, and their merge is
/// then their union (SPARQL 1.1, section 18.3).
pub fn merge_is_union()
    ensures compatible { (a b : Row) → (are_compatible a b ≡ true)
        ↔ ((name : Name) (s t : Term) → value a name ≡ Some s → value b name ≡ Some t → s ≡ t) }
    ensures joined { (a b k : Row) → (joined a b ≡ Some k) ↔ IsJoin a b k }
{}

/// The join of two lists of rows as a bag (SPARQL 1.1, section 18.5): what is in it, that bags give
/// bags, that it commutes and associates, and that the empty row is its unit.
pub fn joins_are_bags()
    ensures members { (xs ys : List Row) (k : Row) → In (joins xs ys) k ↔ IsAmongJoins xs ys k }
    ensures kept { (us vs xs ys : List Row) → SameBag us xs → SameBag vs ys
        → SameBag (joins us vs) (joins xs ys) }
    ensures turned { (xs ys : List Row) → SameBag (joins xs ys) (joins ys xs) }
    ensures moved { (xs ys zs : List Row) → SameBag (joins (joins xs ys) zs) (joins xs (joins ys zs)) }
    ensures unit { (xs : List Row) → joins xs (map.empty ∷ []) ≡ xs }
{}

/// A restricted row has its values at the names that are kept, and binds no other (SPARQL 1.1,
/// section 18.5, Project).
pub fn restriction_keeps_values()
    ensures kept { (names : List Name) (row : Row) (name : Name) → In names name
        → value (restricted names row) name ≡ value row name }
    ensures dropped { (names : List Name) (row : Row) (name : Name) → (In names name → ⊥)
        → value (restricted names row) name ≡ None }
{}

/// Two lists of rows are the same bag exactly where one is the other in some order, and two lists
/// without repeats and with the same members are the same bag.
pub fn bags_are_rearrangements()
    ensures rows { (xs ys : List Row) → SameBag xs ys ↔ IsPermutation xs ys }
    ensures members { (xs ys : List Row) → AreDistinct xs → AreDistinct ys
        → ((x : Row) → In xs x ↔ In ys x) → SameBag xs ys }
{}

/// `distinct` keeps each name and each term of a list exactly once, at its first place: what stands
/// behind adds what does not stand in front.
pub fn distinct_keeps_each_once()
    ensures names { (xs : List Name) → AreDistinct (distinct same_name xs) }
    ensures same_names { (xs : List Name) (x : Name) → In (distinct same_name xs) x ↔ In xs x }
    ensures first_names { (xs ys : List Name) → distinct same_name (xs ++ ys)
        ≡ distinct same_name xs ++ filter (is_new same_name xs) (distinct same_name ys) }
    ensures terms { (xs : List Term) → AreDistinct (distinct same_term xs) }
    ensures same_terms { (xs : List Term) (x : Term) → In (distinct same_term xs) x ↔ In xs x }
    ensures first_terms { (xs ys : List Term) → distinct same_term (xs ++ ys)
        ≡ distinct same_term xs ++ filter (is_new same_term xs) (distinct same_term ys) }
{}
