// Fronts of keys.
ghost use Rattle.std.specs.Prelude.{◌≡◌};
ghost use Rattle.btree_scan.specs.Cuts.{stands_before, prefix_cmp};

use std::cmp::Ordering;
use term_core::IdTriple;

/// The first `len` ids of a key, at most three: `a`, then `b`, then `c`. Those past `len` are not
/// looked at.
#[derive(Clone, Copy, Debug, PartialEq, Eq)]
pub struct Prefix {
    pub len: u8,
    pub a: u32,
    pub b: u32,
    pub c: u32,
}

/// How the front of the key stands to the prefix.
#[tactic(auto, unfolding(crate::specs::Cuts::front_cmp))]
fn front_order(prefix: &Prefix, key: &IdTriple) -> Ordering
    ensures { result ≡ prefix_cmp prefix.now key.now }
{
    let first = key.s.cmp(&prefix.a);
    let second = key.p.cmp(&prefix.b);
    let third = key.o.cmp(&prefix.c);
    if prefix.len == 0 {
        Ordering::Equal
    } else if prefix.len == 1 {
        first
    } else if prefix.len == 2 {
        first.then(second)
    } else {
        first.then(second.then(third))
    }
}

/// Whether the key stands before the keys with the prefix, or `through` and is one of them.
pub(crate) fn is_before(through: bool, prefix: &Prefix, key: &IdTriple) -> bool
    ensures { result ≡ stands_before through prefix.now key.now }
{
    let order = front_order(prefix, key);
    if through {
        order.is_le()
    } else {
        order.is_lt()
    }
}
