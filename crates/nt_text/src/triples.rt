//! Readers of a literal, of the terms of a triple, and of a triple.

ghost use Rattle.std.specs.Prelude.{◌≡◌};
ghost use Rattle.std.specs.Str.{chars};
ghost use Rattle.term_core.specs.Characters.{after};
ghost use Rattle.nt_text.specs.Characters.{is_blank};
ghost use Rattle.nt_text.specs.Reading.{Gives, datatype_at, literal_by, literal_at, subject_at, object_at, triple_at};

use crate::classes::{skip_blanks, split_first};
use crate::fault::Unread;
use crate::terminals::{expect, read_iri, read_label, read_lang, read_string};
use std::alloc::Global;
use term_core::{RDF_LANG_STRING, Term, Text, Triple};

/// The datatype behind `^^`, and what is behind it. `Form` comes exactly where none stands there, or
/// that of strings with a tag, which no literal without one has.
#[tactic(auto, unfolding(crate::specs::Reading::datatype_at))]
fn read_datatype(alloc: Global, text: &str) -> Result<(Text, &str), Unread>
    ensures { Gives (λ found. (found.0, chars found.1.now)) result (datatype_at (chars text.now)) }
{
    let sign = expect('^', text)?;
    let behind = expect('^', sign)?;
    let (datatype, rest) = read_iri(alloc, skip_blanks(behind))?;
    if datatype.bytes() == RDF_LANG_STRING.as_bytes() {
        Err(Unread::Form)
    } else {
        Ok((datatype, rest))
    }
}

/// The literal of a string that the text goes on from, and what is behind it.
fn read_literal_from(alloc: Global, lexical: Text, text: &str) -> Result<(Term, &str), Unread>
    ensures { Gives (λ found. (found.0, chars found.1.now)) result (literal_by lexical (chars text.now) (after is_blank (chars text.now))) }
{
    let behind = skip_blanks(text);
    match split_first(behind) {
        Some(('@', _)) => {
            let (lang, rest) = read_lang(alloc, behind)?;
            Ok((Term::tagged(alloc, lexical, lang)?, rest))
        }
        Some(('^', _)) => {
            let (datatype, rest) = read_datatype(alloc, behind)?;
            Ok((Term::typed(alloc, lexical, datatype)?, rest))
        }
        _ => Ok((Term::plain(alloc, lexical)?, text)),
    }
}

/// The literal at the front of a text, and what is behind it.
#[tactic(auto, unfolding(crate::specs::Reading::literal_at))]
fn read_literal(alloc: Global, text: &str) -> Result<(Term, &str), Unread>
    ensures { Gives (λ found. (found.0, chars found.1.now)) result (literal_at (chars text.now)) }
{
    let (lexical, rest) = read_string(alloc, text)?;
    read_literal_from(alloc, lexical, rest)
}

/// The IRI or blank node at the front of a text, and what is behind it.
fn read_subject(alloc: Global, text: &str) -> Result<(Term, &str), Unread>
    ensures { Gives (λ found. (found.0, chars found.1.now)) result (subject_at (chars text.now)) }
{
    match split_first(text) {
        None => Err(Unread::Form),
        Some(('_', _)) => {
            let (label, rest) = read_label(alloc, text)?;
            Ok((Term::Blank(label), rest))
        }
        Some(_) => {
            let (iri, rest) = read_iri(alloc, text)?;
            Ok((Term::Iri(iri), rest))
        }
    }
}

/// The object at the front of a text, and what is behind it.
fn read_object(alloc: Global, text: &str) -> Result<(Term, &str), Unread>
    ensures { Gives (λ found. (found.0, chars found.1.now)) result (object_at (chars text.now)) }
{
    match split_first(text) {
        None => Err(Unread::Form),
        Some(('"', _)) => read_literal(alloc, text),
        Some(_) => read_subject(alloc, text),
    }
}

/// The triple at the front of a text, with its dot, and what is behind it (RDF 1.1 N-Triples,
/// section 2.1).
#[tactic(auto, unfolding(crate::specs::Reading::triple_at))]
pub fn read_triple(alloc: Global, text: &str) -> Result<(Triple, &str), Unread>
    ensures { Gives (λ found. (found.0, chars found.1.now)) result (triple_at (chars text.now)) }
{
    let (subject, rest) = read_subject(alloc, text)?;
    let (predicate, rest) = read_iri(alloc, skip_blanks(rest))?;
    let (object, rest) = read_object(alloc, skip_blanks(rest))?;
    let rest = expect('.', skip_blanks(rest))?;
    let triple = Triple {
        subject,
        predicate: Term::Iri(predicate),
        object,
    };
    Ok((triple, rest))
}
