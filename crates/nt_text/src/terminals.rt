//! Readers of the terminals: an IRI, a string, a label and a tag.

ghost use Rattle.std.specs.Prelude.{◌≡◌, ◌≢◌, ◌==◌, IfOk, map, true};
ghost use Rattle.std.specs.Char.{to_ascii_lowercase};
ghost use Rattle.std.specs.Str.{chars};
ghost use Rattle.term_core.specs.Names.{is_label_first, is_label_part, is_alphanumeric};
ghost use Rattle.nt_text.specs.Reading.{Gives, expect, iri_at, string_at, past_name, name_at, label_at, past_subtags, past_tag, lang_at};

use crate::classes::{Class, before, span, split_first};
use crate::escapes::{Quoted, read_spelled};
use crate::fault::Unread;
use std::alloc::Global;
use term_core::{Memory, Text, has_scheme, is_pn, is_pn_u};

/// What is behind a character that the text has to begin with. `Form` comes exactly where it begins
/// otherwise; `Memory` never does.
pub fn expect(character: char, text: &str) -> Result<&str, Unread>
    ensures read { Gives (λ rest. chars rest.now) result (expect character (chars text.now)) }
    ensures no_memory { result ≢ Err Unread.Memory }
{
    match split_first(text) {
        Some((first, rest)) if first == character => Ok(rest),
        _ => Err(Unread::Form),
    }
}

/// The IRI between `<` and `>` at the front of a text, and what is behind it (RDF 1.1 N-Triples,
/// section 7, IRIREF). `Form` comes exactly where no IRI with a scheme stands there.
#[tactic(auto, unfolding(crate::specs::Reading::iri_at))]
pub fn read_iri(alloc: Global, text: &str) -> Result<(Text, &str), Unread>
    ensures { Gives (λ found. (found.0, chars found.1.now)) result (iri_at (chars text.now)) }
{
    let body = expect('<', text)?;
    let (iri, behind) = read_spelled(alloc, Quoted::Iri, body)?;
    let rest = expect('>', behind)?;
    if has_scheme(iri.bytes()) {
        Ok((iri, rest))
    } else {
        Err(Unread::Form)
    }
}

/// The characters of the string between quotes at the front of a text, and what is behind it (RDF
/// 1.1 N-Triples, section 7, STRING_LITERAL_QUOTE). `Form` comes exactly where no string stands
/// there.
#[tactic(auto, unfolding(crate::specs::Reading::string_at))]
pub fn read_string(alloc: Global, text: &str) -> Result<(Text, &str), Unread>
    ensures { Gives (λ found. (found.0, chars found.1.now)) result (string_at (chars text.now)) }
{
    let body = expect('"', text)?;
    let (lexical, behind) = read_spelled(alloc, Quoted::String, body)?;
    let rest = expect('"', behind)?;
    Ok((lexical, rest))
}

/// Whether a label may begin with the character.
fn is_label_first(c: char) -> bool
    ensures { result ≡ is_label_first c }
{
    is_pn_u(c) || c == ':' || c.is_ascii_digit()
}

/// Whether the character may stand in a label behind the first, and at its end.
fn is_label_part(c: char) -> bool
    ensures { result ≡ is_label_part c }
{
    is_pn(c) || c == ':'
}

/// What is behind the characters and dots with which a label goes on; its last is no dot.
fn skip_name(text: &str) -> &str
    ensures rest { chars result.now ≡ past_name (chars text.now) (chars text.now) }
{
    let mut end = text;
    let mut left = text;
    'characters: while let Some((c, rest)) = split_first(left) {
        if is_label_part(c) {
            end = rest;
        } else if c != '.' {
            break;
        }
        left = rest;
    }
    end
}

/// The label at the front of a text, read behind its `_:`, and what is behind it.
#[tactic(auto, unfolding(crate::specs::Reading::name_at))]
fn read_name(alloc: Global, text: &str) -> Result<(Text, &str), Unread>
    ensures { Gives (λ found. (found.0, chars found.1.now)) result (name_at (chars text.now)) }
{
    match split_first(text) {
        Some((first, more)) if is_label_first(first) => {
            let rest = skip_name(more);
            let label = Text::from_str(alloc, before(text, rest))?;
            Ok((label, rest))
        }
        _ => Err(Unread::Form),
    }
}

/// The label of the blank node at the front of a text, without its `_:`, and what is behind it (RDF
/// 1.1 N-Triples, section 7, BLANK_NODE_LABEL). `Form` comes exactly where none stands there.
#[tactic(auto, unfolding(crate::specs::Reading::label_at))]
pub fn read_label(alloc: Global, text: &str) -> Result<(Text, &str), Unread>
    ensures { Gives (λ found. (found.0, chars found.1.now)) result (label_at (chars text.now)) }
{
    let mark = expect('_', text)?;
    let name = expect(':', mark)?;
    read_name(alloc, name)
}

/// What is behind the subtags of a tag, read behind a hyphen; `end` is what is behind the tag
/// where none follows.
fn skip_subtags<'a>(end: &'a str, text: &'a str) -> &'a str
    ensures { chars result.now ≡ past_subtags (chars end.now) true (chars text.now) }
{
    let mut end = end;
    let mut hyphen = true;
    let mut left = text;
    'characters: while let Some((c, rest)) = split_first(left) {
        if c.is_ascii_alphanumeric() {
            end = rest;
            hyphen = false;
        } else if !hyphen && c == '-' {
            hyphen = true;
        } else {
            break;
        }
        left = rest;
    }
    end
}

/// What is behind a tag, from behind its first letters.
fn skip_tag(text: &str) -> &str
    ensures { chars result.now ≡ past_tag (chars text.now) }
{
    match split_first(text) {
        Some(('-', rest)) => skip_subtags(text, rest),
        _ => text,
    }
}

/// A copy of the text in lower case.
fn lower(alloc: Global, text: &str) -> Result<Text, Memory>
    ensures { IfOk result (λ lower. lower ≡ map to_ascii_lowercase text.now) }
{
    Ok(Text::from_string(text.to_ascii_lowercase(alloc)?))
}

/// The language tag at the front of a text in lower case, without its `@`, and what is behind it (RDF
/// 1.1 N-Triples, section 7, LANGTAG). `Form` comes exactly where none stands there.
#[tactic(auto, unfolding(crate::specs::Reading::lang_at))]
pub fn read_lang(alloc: Global, text: &str) -> Result<(Text, &str), Unread>
    ensures { Gives (λ found. (found.0, chars found.1.now)) result (lang_at (chars text.now)) }
{
    let body = expect('@', text)?;
    match split_first(body) {
        Some((first, _)) if first.is_ascii_alphabetic() => {
            let (_, behind) = span(Class::Letter, body);
            let rest = skip_tag(behind);
            let tag = lower(alloc, before(body, rest))?;
            Ok((tag, rest))
        }
        _ => Err(Unread::Form),
    }
}
