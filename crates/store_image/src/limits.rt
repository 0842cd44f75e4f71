//! Which triples a store file takes.
ghost use Rattle.std.specs.Prelude.{◌≤◌, ◌↔◌, IsTrue, flat_map};
ghost use Rattle.term_core.specs.Order.{size_of};
ghost use Rattle.term_core.specs.Bags.{In};
ghost use Rattle.term_core.specs.declared.term.Term.{Term as Terms};
ghost use Rattle.term_core.specs.Data.{parts};

use term_core::{Triple, size};

/// The most bytes of a term, as `size` counts them.
const LONGEST: usize = 262144;

fn has_short_terms(triple: &Triple) -> bool
    ensures { IsTrue result ↔ ((t : Terms) → In (parts triple.now) t → size_of t ≤ 262144) }
{
    size(&triple.subject) <= LONGEST
        && size(&triple.predicate) <= LONGEST
        && size(&triple.object) <= LONGEST
}

/// Whether each term of the triples has at most the 262,144 bytes that a store file can hold.
pub fn have_short_terms(triples: &[Triple]) -> bool
    ensures { IsTrue result ↔ ((t : Terms) → In (flat_map parts triples.now) t → size_of t ≤ 262144) }
{
    for triple in triples {
        if !has_short_terms(triple) {
            return false;
        }
    }
    true
}
