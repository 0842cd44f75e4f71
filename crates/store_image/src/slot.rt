//! The terms of a document with their places, to be put in order.

ghost use Rattle.std.specs.Prelude.{◌≡◌};
ghost use Rattle.term_core.specs.Order.{rank_of, text_of, term_cmp};

use std::cmp::Ordering;
use term_core::{Term, compare};

/// A term of the document, and its place: how many subjects, predicates and objects come before it.
/// Slots are ordered by their terms alone, so that those of one term tie. What mostly decides the
/// order of two terms, their kinds and texts, is kept at hand.
#[derive(Clone, Copy, Debug)]
pub struct Slot<'a> {
    kind: u8,
    text: &'a str,
    pub term: &'a Term,
    pub place: u32,
    ghost fits: { (kind ≡ rank_of term.now) × (text.now ≡ text_of term.now) },
}

impl<'a> Slot<'a> {
    /// The slot of a term at a place.
    pub fn of(term: &'a Term, place: u32) -> Slot<'a>
        ensures term { result.term.now ≡ term.now }
        ensures place { result.place ≡ place }
    {
        Slot {
            kind: term.kind(),
            text: term.text(),
            term,
            place,
        }
    }
}

/// The kind of literals, whose texts alone do not make them.
const LITERAL: u8 = 2;

/// How the terms of two slots compare.
#[tactic(auto, using(crate::proofs::SlotTies::ties))]
fn order(a: &Slot, b: &Slot) -> Ordering
    ensures { result ≡ term_cmp a.now.term.now b.now.term.now }
{
    match a.kind.cmp(&b.kind) {
        Ordering::Equal => match a.text.cmp(b.text) {
            Ordering::Equal => {
                if a.kind == LITERAL {
                    compare(a.term, b.term)
                } else {
                    Ordering::Equal
                }
            }
            Ordering::Less => Ordering::Less,
            Ordering::Greater => Ordering::Greater,
        },
        Ordering::Less => Ordering::Less,
        Ordering::Greater => Ordering::Greater,
    }
}

impl<'a> PartialEq for Slot<'a> {
    ghost use Rattle.std.specs.Ordering.{eq_by_cmp};
    ghost use Rattle.std.specs.Cmp.{partial_equiv_from_equiv, eq_by_cmp_equiv};
    ghost use Rattle.store_image.specs.Slots.{slot_cmp, slots_total};

    ghost eq = { eq_by_cmp slot_cmp };

    ghost laws = { partial_equiv_from_equiv (eq_by_cmp_equiv slots_total) };

    fn eq(&self, other: &Slot<'a>) -> bool {
        order(self, other).is_eq()
    }
}

impl<'a> Eq for Slot<'a> {
    ghost use Rattle.std.specs.Cmp.{eq_by_cmp_equiv};
    ghost use Rattle.store_image.specs.Slots.{slots_total};

    ghost laws = { eq_by_cmp_equiv slots_total };
}

impl<'a> PartialOrd for Slot<'a> {
    ghost use Rattle.std.specs.Ordering.{as_partial_cmp};
    ghost use Rattle.std.specs.Cmp.{partial_order_from_total};
    ghost use Rattle.store_image.specs.Slots.{slot_cmp, slots_total};

    ghost partial_cmp = { as_partial_cmp slot_cmp };

    ghost laws = { partial_order_from_total slots_total };

    fn partial_cmp(&self, other: &Slot<'a>) -> Option<Ordering> {
        Some(order(self, other))
    }
}

impl<'a> Ord for Slot<'a> {
    ghost use Rattle.std.specs.Prelude.{refl};
    ghost use Rattle.store_image.specs.Slots.{slot_cmp, slots_total};

    ghost cmp = { slot_cmp };

    ghost total = { slots_total };

    ghost matches_partial_cmp = { λ x y. refl };

    ghost matches_eq = { λ x y. refl };

    fn cmp(&self, other: &Slot<'a>) -> Ordering {
        order(self, other)
    }
}
