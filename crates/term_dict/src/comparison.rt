// How the texts that a record spells stand to a term, with nothing decoded.
ghost use Rattle.std.specs.Prelude.{◌≡◌, ℕ, List, Some, Err, IsUtf8};
ghost use Rattle.std.specs.Ordering.{nat_cmp, ordering_then};
ghost use Rattle.term_core.specs.declared.term.Term.TheVariants.{Literal};
ghost use Rattle.term_core.specs.Order.{rank_of, text_of, datatype_of, lang_of, bytes_cmp};
ghost use Rattle.term_dict.specs.Records.{Decodes, raw_literal_at, raw_in, raw_order, term_in};

use crate::record::{RecordFault, cut, number_of};
use std::cmp::Ordering;
use term_core::Term;

/// A literal's lexical form, datatype and language tag, as they stand.
#[tactic(auto, unfolding(crate::specs::Records::raw_literal_at))]
fn raw_literal(bytes: &[u8]) -> Result<(&[u8], &[u8], &[u8]), RecordFault>
    ensures read { Decodes (λ x. Literal x.0.now x.1.now x.2.now) result (raw_literal_at bytes.now) }
    ensures own { result ≡ Err RecordFault.Memory → ⊥ }
{
    let (datatype_length, rest) = number_of(bytes)?;
    let (lang_length, rest) = number_of(rest)?;
    let (datatype, rest) = cut(datatype_length, rest)?;
    let (lang, lexical) = cut(lang_length, rest)?;
    Ok((lexical, datatype, lang))
}

/// The kind of a term's record, and its text.
pub(crate) fn parts_of(t: &Term) -> (u8, &[u8])
    ensures kind { result.0 ≡ rank_of t.now }
    ensures text { result.1.now ≡ text_of t.now }
    ensures utf8 { IsUtf8 (text_of t.now) }
{
    match t {
        Term::Blank(label) => (0, label.bytes()),
        Term::Iri(iri) => (1, iri.bytes()),
        Term::Literal { lexical, .. } => (2, lexical.bytes()),
    }
}

/// The datatype and the language tag of a literal, and of another term nothing.
fn literal_parts_of(t: &Term) -> (&[u8], &[u8])
    ensures datatype { result.0.now ≡ datatype_of t.now }
    ensures lang { result.1.now ≡ lang_of t.now }
    ensures datatype_utf8 { IsUtf8 (datatype_of t.now) }
    ensures lang_utf8 { IsUtf8 (lang_of t.now) }
{
    match t {
        Term::Blank(_) => (&[], &[]),
        Term::Iri(_) => (&[], &[]),
        Term::Literal { datatype, lang, .. } => (datatype.bytes(), lang.bytes()),
    }
}

/// How a kind and three texts stand to a term.
fn order_of_texts(kind: u8, text: &[u8], datatype: &[u8], lang: &[u8], t: &Term) -> Ordering
    ensures { result ≡ ordering_then (nat_cmp kind (rank_of t.now)) (ordering_then (bytes_cmp text.now (text_of t.now))
        (ordering_then (bytes_cmp datatype.now (datatype_of t.now)) (bytes_cmp lang.now (lang_of t.now)))) }
{
    let (kind_of_term, text_of_term) = parts_of(t);
    let (datatype_of_term, lang_of_term) = literal_parts_of(t);
    let last = datatype.cmp(datatype_of_term).then(lang.cmp(lang_of_term));
    kind.cmp(&kind_of_term)
        .then(text.cmp(text_of_term).then(last))
}

/// How the texts that the bytes of a record spell stand to the term; `None` where they spell none.
fn order_of_bytes(bytes: &[u8], t: &Term) -> Option<Ordering>
    ensures { result ≡ raw_order t.now (raw_in bytes.now) }
{
    match bytes {
        [] => None,
        [kind, rest @ ..] => {
            if *kind == 0 {
                Some(order_of_texts(0, rest, &[], &[], t))
            } else if *kind == 1 {
                Some(order_of_texts(1, rest, &[], &[], t))
            } else if *kind == 2 {
                match raw_literal(rest) {
                    Err(_) => None,
                    Ok((lexical, datatype, lang)) => {
                        Some(order_of_texts(2, lexical, datatype, lang, t))
                    }
                }
            } else {
                None
            }
        }
    }
}

/// The same, and that a tie is the term's own record.
pub(crate) fn order_of_record(bytes: &[u8], t: &Term) -> Option<Ordering>
    ensures order { result ≡ raw_order t.now (raw_in bytes.now) }
    ensures tie { result ≡ Some Ordering.Equal → term_in bytes.now ≡ Some t.now }
{
    let _ = parts_of(t);
    let _ = literal_parts_of(t);
    order_of_bytes(bytes, t)
}
