//! Laws of the definitions. Each is the contract of a function that does nothing.

ghost use Rattle.std.specs.Prelude.{◌≡◌, ◌↔◌, ◌≤◌, ◌^◌, ◌+◌, ◌+ℤ◌, ◌-ℤ◌, ◌*ℤ◌, pos, max, int_div, Bool, true, List, ℕ, Some, Ok};
ghost use Rattle.std.specs.Cmp.{IsTotalOrder};
ghost use Rattle.std.specs.Ordering.{int_cmp};
ghost use Rattle.std.specs.declared.cmp.Ordering.TheVariants.{Equal};
ghost use Rattle.term_core.specs.Numbers.{Number, numerator, scale, at_scale, is_kept, is_held};
ghost use Rattle.term_core.specs.Numbers.{compared, signed, least_decimal, sum, difference, product, quotient};
ghost use Rattle.term_core.specs.Numbers.{read, lexical, datatype, is_integer, is_decimal, IsIntegerForm, IsDecimalForm};

/// The order of numbers is total, it is that of their values, and those alone tie whose values are
/// equal: `m * 10^-s` and `n * 10^-t` are in the order of `m * 10^t` and `n * 10^s`.
pub fn numbers_are_in_order()
    ensures total { IsTotalOrder compared }
    ensures by_value { (a b : Number) → scale a ≤ 18 → scale b ≤ 18 → compared a b
        ≡ int_cmp (numerator a *ℤ pos (10 ^ scale b)) (numerator b *ℤ pos (10 ^ scale a)) }
    ensures ties { (a b : Number) → scale a ≤ 18 → scale b ≤ 18 → (compared a b ≡ Equal)
        ↔ (numerator a *ℤ pos (10 ^ scale b) ≡ numerator b *ℤ pos (10 ^ scale a)) }
{}

/// A number that is kept is read back from its literal.
pub fn literals_are_read_back()
    ensures { (a : Number) → is_held (numerator a) ≡ true → is_kept a ≡ true
        → read (lexical a) (datatype a) ≡ Some a }
{}

/// The tests of lexical forms hold exactly of the texts of the grammar (XSD 1.1 part 2, sections
/// 3.3.3.1 and 3.4.13.1).
pub fn forms_are_of_the_grammar()
    ensures integers { (text : List ℕ) → (is_integer text ≡ true) ↔ IsIntegerForm text }
    ensures decimals { (text : List ℕ) → (is_decimal text ≡ true) ↔ IsDecimalForm text }
{}

/// A decimal at its least scale has the value of the numerator and scale that it is made of.
pub fn least_decimals_keep_values()
    ensures { (minus : Bool) (n s : ℕ) (a : Number) → least_decimal minus n s ≡ Some a
        → numerator a *ℤ pos (10 ^ s) ≡ signed minus n *ℤ pos (10 ^ scale a) }
{}

/// A sum, a difference and a product have exactly the value that they name, and a quotient has it
/// cut toward zero at 18 places. Two values `m * 10^-s` and `n * 10^-t` are equal where
/// `m * 10^t` and `n * 10^s` are.
pub fn answers_are_exact()
    ensures sums { (a b c : Number) → sum a b ≡ Ok c
        → numerator c *ℤ pos (10 ^ max (scale a) (scale b))
        ≡ (at_scale (max (scale a) (scale b)) a +ℤ at_scale (max (scale a) (scale b)) b) *ℤ pos (10 ^ scale c) }
    ensures differences { (a b c : Number) → difference a b ≡ Ok c
        → numerator c *ℤ pos (10 ^ max (scale a) (scale b))
        ≡ (at_scale (max (scale a) (scale b)) a -ℤ at_scale (max (scale a) (scale b)) b) *ℤ pos (10 ^ scale c) }
    ensures products { (a b c : Number) → product a b ≡ Ok c
        → numerator c *ℤ pos (10 ^ (scale a + scale b)) ≡ numerator a *ℤ numerator b *ℤ pos (10 ^ scale c) }
    ensures quotients { (a b c : Number) → quotient a b ≡ Ok c
        → numerator c *ℤ pos (10 ^ 18)
        ≡ int_div (at_scale (max (scale a) (scale b)) a *ℤ pos (10 ^ 18)) (at_scale (max (scale a) (scale b)) b)
        *ℤ pos (10 ^ scale c) }
{}
