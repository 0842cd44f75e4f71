//! Lines: cutting a document into them, and reading one.

ghost use Rattle.std.specs.Prelude.{◌≡◌, ◌<◌, [], ◌∷◌, Some, length, option_map, IfSome};
ghost use Rattle.std.specs.Option.{option_to_list};
ghost use Rattle.std.specs.Str.{chars};
ghost use Rattle.term_core.specs.Characters.{front, after};
ghost use Rattle.nt_text.specs.Characters.{is_line};
ghost use Rattle.nt_text.specs.Reading.{Gives, Becomes, behind_end, ends, line_at, has_short_terms, with_line};

use crate::classes::{Class, skip_blanks, span, split_first};
use crate::fault::{DataFault, Unread};
use crate::triples::read_triple;
use std::alloc::Global;
use term_core::{Items, Triple, size};

/// The greatest `size` of a term in a document, in bytes.
pub const TERM_LIMIT: usize = 262_144;

/// The greatest number of triples in a document, repeats counted.
pub const TRIPLE_LIMIT: usize = 4_194_303;

/// What is behind the line end at the front of a text; None where the text is empty.
fn skip_end(text: &str) -> Option<&str>
    ensures behind { option_map (λ rest. chars rest.now) result ≡ behind_end (chars text.now) }
    ensures shorter { IfSome result (λ rest. length rest.now < length text.now) }
{
    let (first, rest) = split_first(text)?;
    match split_first(rest) {
        Some(('\n', behind)) if first == '\r' => Some(behind),
        _ => Some(rest),
    }
}

/// The first line, and what is behind its end; None where the line has no end and so is the last
/// (RDF 1.1 N-Triples, section 7, EOL).
pub fn cut_line(text: &str) -> (&str, Option<&str>)
    ensures line { chars result.0.now ≡ front is_line (chars text.now) }
    ensures behind { option_map (λ rest. chars rest.now) result.1 ≡ behind_end (after is_line (chars text.now)) }
    ensures shorter { IfSome result.1 (λ rest. length rest.now < length text.now) }
{
    let (line, rest) = span(Class::Line, text);
    (line, skip_end(rest))
}

/// Whether a line goes on with nothing but a comment.
fn is_at_end(text: &str) -> bool
    ensures { result ≡ ends (chars text.now) }
{
    match split_first(text) {
        None => true,
        Some((first, _)) => first == '#',
    }
}

/// The triple of a line, None where the line has no triple.
#[tactic(auto, unfolding(crate::specs::Reading::line_at))]
fn read_line(alloc: Global, line: &str) -> Result<Option<Triple>, Unread>
    ensures { Gives option_to_list result (line_at (chars line.now)) }
{
    let text = skip_blanks(line);
    if is_at_end(text) {
        return Ok(None);
    }
    let (triple, rest) = read_triple(alloc, text)?;
    if is_at_end(skip_blanks(rest)) {
        Ok(Some(triple))
    } else {
        Err(Unread::Form)
    }
}

/// Whether each term is at most `TERM_LIMIT` bytes.
fn has_short_terms(triple: &Triple) -> bool
    ensures { result ≡ has_short_terms triple.now }
{
    size(&triple.subject) <= TERM_LIMIT
        && size(&triple.predicate) <= TERM_LIMIT
        && size(&triple.object) <= TERM_LIMIT
}

/// Adds a triple, which stands in the line of that number, if the limits allow it.
fn add_triple(triple: Triple, number: u64, triples: &mut Items<Triple>) -> Result<(), DataFault>
    ensures { Becomes result triples.new (with_line number triples.old (Some (triple ∷ []))) }
{
    if !has_short_terms(&triple) {
        return Err(DataFault::TermTooLong { line: number });
    }
    if triples.len() >= TRIPLE_LIMIT {
        return Err(DataFault::TooMany { line: number });
    }
    match triples.push(triple) {
        Ok(()) => Ok(()),
        Err(_) => Err(DataFault::Memory),
    }
}

/// Reads the line of that number, and adds its triple if it has one and the limits allow it.
pub fn add_line(
    alloc: Global,
    line: &str,
    number: u64,
    triples: &mut Items<Triple>,
) -> Result<(), DataFault>
    ensures { Becomes result triples.new (with_line number triples.old (line_at (chars line.now))) }
{
    match read_line(alloc, line) {
        Ok(None) => Ok(()),
        Ok(Some(triple)) => add_triple(triple, number, triples),
        Err(Unread::Form) => Err(DataFault::BadLine { line: number }),
        Err(Unread::Memory) => Err(DataFault::Memory),
    }
}
