//! Laws of the equality of rows. Each is the contract of a function that does nothing.

ghost use Rattle.std.specs.Prelude.{◌≡◌, ◌++◌, ◌↔◌, filter, List, true};
ghost use Rattle.term_core.specs.Bags.{In, AreDistinct, distinct, is_new};
ghost use Rattle.term_core.specs.Mappings.{Row};
ghost use Rattle.row_bag.specs.Rows.{same_row};

/// The test of equality holds exactly of equal rows.
pub fn row_equality_is_exact()
    ensures { (a b : Row) → (same_row a b ≡ true) ↔ (a ≡ b) }
{}

/// `distinct` keeps each row of a list exactly once, at its first place: what stands behind adds what
/// does not stand in front.
pub fn distinct_keeps_each_row_once()
    ensures rows { (xs : List Row) → AreDistinct (distinct same_row xs) }
    ensures same_rows { (xs : List Row) (x : Row) → In (distinct same_row xs) x ↔ In xs x }
    ensures first_rows { (xs ys : List Row) → distinct same_row (xs ++ ys)
        ≡ distinct same_row xs ++ filter (is_new same_row xs) (distinct same_row ys) }
{}
