// How the front of a record stands to a term, where it decides.
ghost use Rattle.std.specs.Prelude.{◌≡◌, ℕ, List, IfSome, take, length};
ghost use Rattle.term_core.specs.Order.{rank_of, text_of};
ghost use Rattle.term_dict.specs.Records.{Decodes};
ghost use Rattle.term_dict.specs.Fronts.{lexical_at, front_at, IsDecided};

use crate::comparison::parts_of;
use crate::record::{RecordFault, cut, number_of};
use std::cmp::Ordering;
use term_core::Term;

/// The beginning of a literal's lexical form, where its two lengths and its other texts are there.
#[tactic(auto, unfolding(crate::specs::Fronts::lexical_at))]
fn lexical_of(bytes: &[u8]) -> Result<&[u8], RecordFault>
    ensures { Decodes (λ x. x.now) result (lexical_at bytes.now) }
{
    let (datatype_length, rest) = number_of(bytes)?;
    let (lang_length, rest) = number_of(rest)?;
    let (_, rest) = cut(datatype_length, rest)?;
    let (_, rest) = cut(lang_length, rest)?;
    Ok(rest)
}

/// The kind of a record, and the beginning of its text.
fn beginning_of(front: &[u8]) -> Result<(u8, &[u8]), RecordFault>
    ensures { Decodes (λ x. (x.0, x.1.now)) result (front_at front.now) }
{
    match front {
        [] => Err(RecordFault::Form),
        [kind, rest @ ..] => {
            if *kind == 0 {
                Ok((0, rest))
            } else if *kind == 1 {
                Ok((1, rest))
            } else if *kind == 2 {
                let lexical = lexical_of(rest)?;
                Ok((2, lexical))
            } else {
                Err(RecordFault::Form)
            }
        }
    }
}

/// At most so many bytes from the start on.
fn at_most(bytes: &[u8], count: usize) -> &[u8]
    ensures { result.now ≡ take count bytes.now }
{
    if count < bytes.len() {
        &bytes[..count]
    } else {
        bytes
    }
}

/// How a record with that front stands to the term, whatever is behind the front; `None` where the
/// front does not decide it.
pub fn order_of_front(front: &[u8], t: &Term) -> Option<Ordering>
    ensures { (rest : List ℕ) → IfSome result (λ order. IsDecided front.now rest t.now order) }
{
    match beginning_of(front) {
        Err(_) => None,
        Ok((kind, beginning)) => {
            let (kind_of_term, text) = parts_of(t);
            let first = kind.cmp(&kind_of_term);
            match first.then(beginning.cmp(at_most(text, beginning.len()))) {
                Ordering::Less => Some(Ordering::Less),
                Ordering::Equal => None,
                Ordering::Greater => Some(Ordering::Greater),
            }
        }
    }
}
