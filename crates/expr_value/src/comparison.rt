//! Equality and less.

ghost use Rattle.std.specs.Prelude.{◌≡◌, IsTrue};
ghost use Rattle.std.specs.Result.{result_ok};
ghost use Rattle.term_core.specs.Numbers.{is_kept, compared};
ghost use Rattle.value_table.specs.Values as values;
ghost use Rattle.xsd_num.specs.Values.{number_of};
ghost use Rattle.expr_value.specs.Views.{value_in, IsKeptValue};

use crate::value::{NoValue, Value, value_of};
use std::cmp::Ordering;
use term_core::{Term, compare};
use xsd_num::law::numbers_are_in_order;
use xsd_num::{Num, cmp};
use xsd_time::cmp as compare_moments;

/// The order of two numbers by value. Two integers, which are most of what is compared, are so as
/// they stand.
fn compare_numbers(a: &Num, b: &Num) -> Ordering
    requires a_kept { IsTrue (is_kept (number_of a.now)) }
    requires b_kept { IsTrue (is_kept (number_of b.now)) }
    ensures { result ≡ compared (number_of a.now) (number_of b.now) }
{
    match (a, b) {
        (Num::Whole(a), Num::Whole(b)) => {
            numbers_are_in_order();
            a.cmp(b)
        }
        _ => cmp(*a, *b),
    }
}

/// The order of two values: numbers by value, truth values with false first, strings without a tag
/// by code points, and moments with a zone, those without one and days each by the number (SPARQL
/// 1.1, section 17.3). None exactly where they are not both of one of these classes.
pub fn compare_values(a: &Value, b: &Value) -> Option<Ordering>
    requires a_kept { IsKeptValue a.now }
    requires b_kept { IsKeptValue b.now }
    ensures { result ≡ values.value_cmp (value_in a.now) (value_in b.now) }
{
    match (a, b) {
        (Value::Numeric(a), Value::Numeric(b)) => Some(compare_numbers(a, b)),
        (Value::Logical(a), Value::Logical(b)) => Some(a.cmp(b)),
        (Value::Simple(a), Value::Simple(b)) => Some(a.cmp(b)),
        (Value::Temporal(a), Value::Temporal(b)) => compare_moments(*a, *b),
        _ => None,
    }
}

/// Whether a term is a literal.
fn is_literal(t: &Term) -> bool
    ensures { result ≡ values.is_literal t.now }
{
    matches!(t, Term::Literal { .. })
}

/// Equality where the values have no order.
fn same_or_unknown(a: &Term, b: &Term) -> Result<bool, NoValue>
    ensures { result_ok result ≡ values.same_or_unknown a.now b.now }
{
    if compare(a, b).is_eq() {
        Ok(true)
    } else if is_literal(a) && is_literal(b) {
        Err(NoValue)
    } else {
        Ok(false)
    }
}

/// Whether two terms are equal whose values have this order, as `compare_values` gives it. The
/// terms are looked at only where it gives none: then one term is equal to itself, `NoValue` comes
/// exactly at two literals that are not one, and all else is not equal.
pub fn equal_terms(order: Option<Ordering>, a: &Term, b: &Term) -> Result<bool, NoValue>
    ensures { result_ok result ≡ values.equal_by order a.now b.now }
{
    match order {
        Some(order) => Ok(order.is_eq()),
        None => same_or_unknown(a, b),
    }
}

/// `a = b` (SPARQL 1.1, sections 17.3 and 17.4.1.7). `NoValue` comes exactly at two literals that
/// are not the same term and whose values have no order, as two with different tags.
pub fn equal(a: &Term, b: &Term) -> Result<bool, NoValue>
    ensures { result_ok result ≡ values.equal a.now b.now }
{
    equal_terms(compare_values(&value_of(a), &value_of(b)), a, b)
}

/// `a < b` (SPARQL 1.1, section 17.3). `NoValue` comes exactly where the values have no order.
pub fn less(a: &Term, b: &Term) -> Result<bool, NoValue>
    ensures { result_ok result ≡ values.less a.now b.now }
{
    match compare_values(&value_of(a), &value_of(b)) {
        Some(order) => Ok(order.is_lt()),
        None => Err(NoValue),
    }
}
