// The places and records of a list of terms.
ghost use Rattle.std.specs.Prelude.{◌≡◌, ◌≤◌, ◌↔◌, ◌++◌, [], ◌∷◌, OnOk, IfOk, IsTrue, length, map, flat_map, IsUtf8};
ghost use Rattle.std.specs.Int.{w32, w64, to_be_bytes};
ghost use Rattle.term_core.specs.Order.{size_of};
ghost use Rattle.term_dict.specs.Records.{record_of};
ghost use Rattle.term_dict.specs.Built.{records_of, places_from, longest_of, IsText, AreTexts, AreShort};

use std::alloc::Global;
use term_core::{Items, Memory, Term, Text, size};

/// The two areas of a dictionary, before they are put into blocks.
#[derive(Debug, Drop)]
pub struct DictImage {
    /// Where each record begins among the bytes of the records, and where the last ends.
    pub places: Items<u64>,
    /// The bytes of the records, one record after the other.
    pub records: Vec<u8>,
    /// The bytes of the longest record.
    pub longest: u32,
}

fn push_text(out: &mut Vec<u8>, text: &Text) -> Result<(), Memory>
    ensures put { OnOk result (out.new.items ≡ out.old.items ++ text.now) }
    ensures utf8 { IsUtf8 text.now }
{
    out.extend_from_slice(text.bytes())?;
    Ok(())
}

/// The length of a text in four bytes, the highest first.
fn push_length(out: &mut Vec<u8>, text: &Text) -> Result<(), Memory>
    requires { length text.now ≤ u32.MAX }
    ensures { OnOk result (out.new.items ≡ out.old.items ++ to_be_bytes w32 (length text.now)) }
{
    out.extend_from_slice(&(text.bytes().len() as u32).to_be_bytes())?;
    Ok(())
}

fn push_kind(out: &mut Vec<u8>, kind: u8) -> Result<(), Memory>
    ensures { OnOk result (out.new.items ≡ out.old.items ++ kind ∷ []) }
{
    out.push(kind)?;
    Ok(())
}

/// Adds the term's record.
fn push_record(out: &mut Vec<u8>, t: &Term) -> Result<(), Memory>
    requires { size_of t.now ≤ 262144 }
    ensures put { OnOk result (out.new.items ≡ out.old.items ++ record_of t.now) }
    ensures text { OnOk result (IsText t.now) }
{
    match t {
        Term::Blank(label) => {
            push_kind(out, 0)?;
            push_text(out, label)
        }
        Term::Iri(iri) => {
            push_kind(out, 1)?;
            push_text(out, iri)
        }
        Term::Literal {
            lexical,
            datatype,
            lang,
        } => {
            push_kind(out, 2)?;
            push_length(out, datatype)?;
            push_length(out, lang)?;
            push_text(out, datatype)?;
            push_text(out, lang)?;
            push_text(out, lexical)
        }
    }
}

/// The bytes of the term's record: a kind and the text, or of a literal a kind, two lengths and
/// three texts.
fn record_length(t: &Term) -> u32
    requires { size_of t.now ≤ 262144 }
    ensures { result ≡ length (record_of t.now) }
{
    let beside = match t {
        Term::Blank(_) => 1,
        Term::Iri(_) => 1,
        Term::Literal { .. } => 9,
    };
    size(t) as u32 + beside
}

/// The bytes that the records of terms take.
#[derive(Clone, Copy, Debug, PartialEq, Eq)]
pub struct Extent {
    /// Those of all records.
    pub bytes: u64,
    /// Those of the longest record; 0 where there is none.
    pub longest: u32,
}

/// How many bytes the records of the terms take. Nothing is written.
pub fn extent_of(terms: &[&Term]) -> Extent
    requires few { length terms.now ≤ 12582909 }
    requires short { AreShort (map (λ t. t.now) terms.now) }
    ensures bytes { result.bytes ≡ length (records_of (map (λ t. t.now) terms.now)) }
    ensures longest { result.longest ≡ longest_of (map (λ t. t.now) terms.now) }
{
    let mut bytes = 0u64;
    let mut longest = 0u32;
    for t in terms {
        let length = record_length(t);
        bytes += length as u64;
        longest = longest.max(length);
    }
    Extent { bytes, longest }
}

fn push_place(out: &mut Vec<u8>, place: u64) -> Result<(), Memory>
    ensures { OnOk result (out.new.items ≡ out.old.items ++ to_be_bytes w64 place) }
{
    out.extend_from_slice(&place.to_be_bytes())?;
    Ok(())
}

/// Appends where each record begins among the bytes of the records, and where the last ends, in
/// eight bytes each, the highest first.
pub fn push_places(out: &mut Vec<u8>, terms: &[&Term]) -> Result<(), Memory>
    requires few { length terms.now ≤ 12582909 }
    requires short { AreShort (map (λ t. t.now) terms.now) }
    ensures { OnOk result (out.new.items ≡ out.old.items ++ flat_map (to_be_bytes w64) (places_from 0 (map (λ t. t.now) terms.now))) }
{
    let mut from = 0u64;
    for t in terms {
        push_place(out, from)?;
        from += record_length(t) as u64;
    }
    push_place(out, from)
}

/// Appends the records of the terms, one after the other, in the order in which the terms stand.
pub fn push_records(out: &mut Vec<u8>, terms: &[&Term]) -> Result<(), Memory>
    requires short { AreShort (map (λ t. t.now) terms.now) }
    ensures records { OnOk result (out.new.items ≡ out.old.items ++ records_of (map (λ t. t.now) terms.now)) }
    ensures texts { OnOk result (AreTexts (map (λ t. t.now) terms.now)) }
{
    for t in terms {
        push_record(out, t)?;
    }
    Ok(())
}

/// Whether each of the terms is within the limit of 262,144 bytes that `size` counts.
pub fn are_short(terms: &[Term]) -> bool
    ensures { IsTrue result ↔ AreShort terms.now }
{
    for t in terms {
        if size(t) > 262144 {
            return false;
        }
    }
    true
}

/// The same of terms that are lent.
pub fn lent_are_short(terms: &[&Term]) -> bool
    ensures { IsTrue result ↔ AreShort (map (λ t. t.now) terms.now) }
{
    for t in terms {
        if size(t) > 262144 {
            return false;
        }
    }
    true
}

/// The places and records of the terms, in the order in which they stand. Where that is the order
/// of terms, each has its rank. The time is linear in the bytes of the terms.
pub fn build(alloc: Global, terms: Items<Term>) -> Result<DictImage, Memory>
    requires few { length terms ≤ 12582909 }
    requires short { AreShort terms }
    ensures places { IfOk result (λ d. d.places ≡ places_from 0 terms) }
    ensures records { IfOk result (λ d. d.records.items ≡ records_of terms) }
    ensures longest { IfOk result (λ d. d.longest ≡ longest_of terms) }
    ensures texts { OnOk result (AreTexts terms) }
{
    image_of(alloc, terms.as_slice())
}

fn image_of(alloc: Global, terms: &[Term]) -> Result<DictImage, Memory>
    requires few { length terms.now ≤ 12582909 }
    requires short { AreShort terms.now }
    ensures places { IfOk result (λ d. d.places ≡ places_from 0 terms.now) }
    ensures records { IfOk result (λ d. d.records.items ≡ records_of terms.now) }
    ensures longest { IfOk result (λ d. d.longest ≡ longest_of terms.now) }
    ensures texts { OnOk result (AreTexts terms.now) }
{
    let mut places = Items::new(alloc);
    let mut records = Vec::new(alloc);
    let mut longest = 0u32;
    for t in terms {
        let from = records.len();
        places.push(from as u64)?;
        push_record(&mut records, t)?;
        longest = longest.max((records.len() - from) as u32);
    }
    places.push(records.len() as u64)?;
    Ok(DictImage {
        places,
        records,
        longest,
    })
}
