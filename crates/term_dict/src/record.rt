// A record's bytes as a term.
ghost use Rattle.std.specs.Prelude.{◌≡◌, ℕ, List, Err};
ghost use Rattle.term_dict.specs.Records.{Decodes, text_in, number_front, cut_at, literal_in, term_in};

use std::alloc::Global;
use term_core::{Term, Text, TextFault};

/// Why bytes became no term.
#[derive(Clone, Copy, Debug, PartialEq, Eq)]
pub enum RecordFault {
    /// They spell none.
    Form,
    /// The allocator had no room.
    Memory,
}

#[tactic(auto, using(crate::proofs::Texts::text_utf8, crate::proofs::Texts::text_other))]
fn text_of(alloc: Global, bytes: &[u8]) -> Result<Text, RecordFault>
    ensures { Decodes (λ t. t) result (text_in bytes.now) }
{
    match Text::from_bytes(alloc, bytes) {
        Ok(text) => Ok(text),
        Err(TextFault::NotUtf8 { .. }) => Err(RecordFault::Form),
        Err(TextFault::Memory) => Err(RecordFault::Memory),
    }
}

/// A number of four bytes, and what is behind it.
#[tactic(auto, unfolding(crate::specs::Records::number_front))]
pub fn number_of(bytes: &[u8]) -> Result<(u32, &[u8]), RecordFault>
    ensures read { Decodes (λ x. (x.0, x.1.now)) result (number_front bytes.now) }
    ensures own { result ≡ Err RecordFault.Memory → ⊥ }
{
    match bytes {
        [a, b, c, d, rest @ ..] => Ok((u32::from_be_bytes([*a, *b, *c, *d]), rest)),
        [] => Err(RecordFault::Form),
        [_] => Err(RecordFault::Form),
        [_, _] => Err(RecordFault::Form),
        [_, _, _] => Err(RecordFault::Form),
    }
}

/// So many bytes, and what is behind them.
#[tactic(auto, unfolding(crate::specs::Records::cut_at))]
pub fn cut(count: u32, bytes: &[u8]) -> Result<(&[u8], &[u8]), RecordFault>
    ensures read { Decodes (λ x. (x.0.now, x.1.now)) result (cut_at count bytes.now) }
    ensures own { result ≡ Err RecordFault.Memory → ⊥ }
{
    if bytes.len() < count as usize {
        Err(RecordFault::Form)
    } else {
        Ok(bytes.split_at(count as usize))
    }
}

#[tactic(auto, unfolding(crate::specs::Records::literal_in))]
fn literal_of(alloc: Global, bytes: &[u8]) -> Result<Term, RecordFault>
    ensures { Decodes (λ t. t) result (literal_in bytes.now) }
{
    let (datatype_length, rest) = number_of(bytes)?;
    let (lang_length, rest) = number_of(rest)?;
    let (front, rest) = cut(datatype_length, rest)?;
    let datatype = text_of(alloc, front)?;
    let (middle, rest) = cut(lang_length, rest)?;
    let lang = text_of(alloc, middle)?;
    let lexical = text_of(alloc, rest)?;
    Ok(Term::Literal {
        lexical,
        datatype,
        lang,
    })
}

/// The term that a record spells.
pub fn term_of(alloc: Global, bytes: &[u8]) -> Result<Term, RecordFault>
    ensures { Decodes (λ t. t) result (term_in bytes.now) }
{
    match bytes {
        [] => Err(RecordFault::Form),
        [kind, rest @ ..] => {
            if *kind == 0 {
                let label = text_of(alloc, rest)?;
                Ok(Term::Blank(label))
            } else if *kind == 1 {
                let iri = text_of(alloc, rest)?;
                Ok(Term::Iri(iri))
            } else if *kind == 2 {
                literal_of(alloc, rest)
            } else {
                Err(RecordFault::Form)
            }
        }
    }
}
