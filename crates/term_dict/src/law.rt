// What holds of dictionaries and their images.
ghost use Rattle.std.specs.Prelude.{◌≡◌, ◌≤◌, ◌↔◌, ℕ, List, Some, Contains, slice_get};
ghost use Rattle.std.specs.List.Sorted.{IsStrictlySortedBy};
ghost use Rattle.term_core.specs.declared.term.Term.{Term};
ghost use Rattle.term_core.specs.Order.{term_cmp};
ghost use Rattle.term_dict.specs.declared.dict.Dict.{Dict};
ghost use Rattle.term_dict.specs.Records.{record_of, term_in};
ghost use Rattle.term_dict.specs.Layout.{longest_record};
ghost use Rattle.term_dict.specs.Ranks.{rank_among, HoldsTerms};
ghost use Rattle.term_dict.specs.Built.{longest_of, IsText, IsLaidOut};

/// A record is read as the term that it spells.
pub fn records_are_read()
    ensures { (t : Term) → IsText t → term_in (record_of t) ≡ Some t }
{}

/// In a list of terms that rise strictly, a term's place is its rank, and no other term is there.
pub fn places_are_ranks()
    ensures { (ts : List Term) (t : Term) (k : ℕ) → IsStrictlySortedBy term_cmp ts
        → (slice_get ts k ≡ Some t) ↔ (Contains ts t × (k ≡ rank_among ts t)) }
{}

/// An image that has the places and records of a list of terms holds them, and its longest record
/// is theirs.
pub fn laid_out_images_hold()
    ensures holds { (d : Dict) (ts : List Term) (image : List ℕ) → IsLaidOut d ts image → HoldsTerms d ts image }
    ensures longest { (d : Dict) (ts : List Term) (image : List ℕ) → IsLaidOut d ts image → longest_record d image ≡ longest_of ts }
{}
