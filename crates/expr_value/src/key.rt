//! The order of the keys of ORDER BY.

ghost use Rattle.std.specs.Prelude.{◌≡◌};
ghost use Rattle.std.specs.Option.{option_copied};
ghost use Rattle.std.specs.Ordering.{nat_cmp, ordering_then};
ghost use Rattle.value_table.specs.Values as values;
ghost use Rattle.value_table.specs.Keys as keys;
ghost use Rattle.expr_value.specs.Views.{value_in};

use crate::comparison::compare_values;
use crate::value::{Value, value_of};
use std::cmp::Ordering;
use term_core::{Term, compare};
use xsd_time::Moment;

/// Where a literal's class stands among the literals: numbers, truth values, strings without a tag,
/// moments with a zone, moments without one, days, and all others.
fn class_rank(value: &Value) -> u8
    ensures { result ≡ keys.class_rank (value_in value.now) }
{
    match value {
        Value::Numeric(_) => 0,
        Value::Logical(_) => 1,
        Value::Simple(_) => 2,
        Value::Temporal(Moment::Instant { .. }) => 3,
        Value::Temporal(Moment::Local { .. }) => 4,
        Value::Temporal(Moment::Day { .. }) => 5,
        _ => 6,
    }
}

/// Two terms of one kind: literals by their classes first, then by their values where these have an
/// order, and else by the order of terms.
fn order_alike(a: &Term, b: &Term) -> Ordering
    ensures { result
        ≡ ordering_then (nat_cmp (keys.class_rank (values.value_of a.now)) (keys.class_rank (values.value_of b.now)))
        (keys.value_or_term (values.value_cmp (values.value_of a.now) (values.value_of b.now)) a.now b.now) }
{
    let (left, right) = (value_of(a), value_of(b));
    match class_rank(&left).cmp(&class_rank(&right)) {
        Ordering::Equal => match compare_values(&left, &right) {
            Some(order) => order,
            None => compare(a, b),
        },
        Ordering::Less => Ordering::Less,
        Ordering::Greater => Ordering::Greater,
    }
}

/// The order of two terms as keys.
fn order_terms(a: &Term, b: &Term) -> Ordering
    ensures { result ≡ keys.order_keys (Some a.now) (Some b.now) }
{
    match a.kind().cmp(&b.kind()) {
        Ordering::Equal => order_alike(a, b),
        Ordering::Less => Ordering::Less,
        Ordering::Greater => Ordering::Greater,
    }
}

/// The order of two keys of ORDER BY (SPARQL 1.1, section 15.1): a key that is unbound or an error,
/// then blank nodes, IRIs and literals. Blank nodes and IRIs are in the order of terms; literals are
/// numbers by value, then truth values with false first, then strings without a tag by code points,
/// then moments with a zone, then those without one, then days, each by the number, then all others
/// in the order of terms.
pub fn order_keys(a: Option<&Term>, b: Option<&Term>) -> Ordering
    ensures { result ≡ keys.order_keys (option_copied a.entry) (option_copied b.entry) }
{
    match (a, b) {
        (Some(a), Some(b)) => order_terms(a, b),
        _ => a.is_some().cmp(&b.is_some()),
    }
}
