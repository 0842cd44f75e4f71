//! The tokens of a whole text.

ghost use Rattle.std.specs.Prelude.{◌≡◌, ◌≤◌, ◌<◌, ◌^◌, ◌+◌, ℕ, length, take, drop, IfOk};
ghost use Rattle.std.specs.Str.{chars};
ghost use Rattle.term_core.specs.Tokens.{Tokens, FaultAt, Lexes, IsStuck, width};
ghost use Rattle.sparql_lex.specs.Names.{NoPrefix};
ghost use Rattle.sparql_lex.specs.Fronts.{FrontIs, IsCut, StopsIn};

use crate::LexFault;
use crate::classes::is_space;
use crate::names::token_at;
use crate::scan::line_run;
use std::alloc::{AllocError, Global};
use term_core::{Items, Kind, Token};

/// What stands at a place. Numbers are of characters.
#[derive(Clone, Copy, Debug, PartialEq, Eq)]
pub enum Front {
    /// So many characters of a space or a comment.
    Skip(usize),
    /// A token of so many characters.
    Next(Kind, usize),
    /// Neither.
    Nothing,
}

/// What stands at the place `index`. From there up to `known` no prefix begins.
fn front_at(text: &[char], index: usize, known: &mut usize) -> Front
    requires within { index < length text.now }
    requires sound { NoPrefix text.now index known.old }
    ensures found { FrontIs (drop index text.now) result }
    ensures sound { NoPrefix text.now index known.new }
{
    let (_, rest) = text.split_at(index);
    let first = rest[0];
    if is_space(first) {
        return Front::Skip(1);
    }
    if first == '#' {
        return Front::Skip(line_run(rest));
    }
    match token_at(text, index, known) {
        Some((kind, n)) => Front::Next(kind, n),
        None => Front::Nothing,
    }
}

/// How many bytes the characters have in UTF-8.
fn width_of(text: &[char]) -> usize
    requires { width text.now < 2 ^ 64 }
    ensures { result ≡ width text.now }
{
    let mut bytes = 0;
    for c in text {
        bytes += c.len_utf8();
    }
    bytes
}

/// How many bytes the `n` characters from the place `index` on have.
fn width_at(text: &[char], index: usize, n: usize) -> usize
    requires within { index + n ≤ length text.now }
    requires small { width text.now < 2 ^ 64 }
    ensures { result ≡ width (take n (drop index text.now)) }
{
    let (_, rest) = text.split_at(index);
    let (front, _) = rest.split_at(n);
    width_of(front)
}

/// The tokens of the characters.
///
/// Each character is looked at a bounded number of times, whatever the text. Those of a space, a
/// comment or a token are read once for it. Behind the end of a token more is read only where a longer
/// one might stand:
/// - behind the sign `<` up to the next `<`, which no IRI holds;
/// - behind `""` or `''`, where three quotes open no long string, up to the text's end or to a wrong
///   escape. No more than one such opening begins in between, two characters on: three quotes in a row
///   would close the string unless a backslash stands before them, and no token ends in a backslash;
/// - behind a word up to the end of a run of names and dots, once for all of its words (`token_at`);
/// - behind a name up to the end of the dots that follow it;
/// - one or two characters behind a number, a tag, `%` and a backslash.
///
/// Any other string that is not closed ends the reading.
fn lex(alloc: Global, text: &[char]) -> Result<Items<Token>, LexFault>
    requires { width text.now < 2 ^ 64 }
    ensures found { IfOk result (IsCut text.now) }
    ensures fault { (at : ℕ) → result ≡ Err (LexFault.Lex at) → StopsIn text.now at }
{
    let mut found = Items::new(alloc);
    let mut index = 0;
    let mut at = 0;
    let mut known = 0;
    'fronts: while index < text.len() {
        match front_at(text, index, &mut known) {
            Front::Skip(n) => {
                at += width_at(text, index, n);
                index += n;
            }
            Front::Next(kind, n) => {
                let to = at + width_at(text, index, n);
                found.push(Token { kind, from: at, to })?;
                at = to;
                index += n;
            }
            Front::Nothing => return Err(LexFault::Lex { at }),
        }
    }
    Ok(found)
}

fn characters(alloc: Global, text: &str) -> Result<Vec<char>, AllocError>
    ensures { IfOk result (λ found. found.items ≡ chars text.now) }
{
    text.chars().collect(alloc)
}

/// The tokens of a query text (SPARQL 1.1, section 19.8), in order, each the longest at its place;
/// spaces, and comments from `#` to the end of the line, stand between them. Places count bytes.
/// `Lex { at }` comes exactly where the text has no tokens: where it is not UTF-8, `at` is the length of
/// its longest prefix that is, and nothing else is looked at; else `at` is the first byte where no
/// token, space or comment begins. The time is linear in the number of bytes.
pub fn tokens(alloc: Global, text: &[u8]) -> Result<Items<Token>, LexFault>
    ensures found { IfOk result (Tokens text.now) }
    ensures fault { (at : ℕ) → result ≡ Err (LexFault.Lex at) → FaultAt text.now at }
{
    match str::from_utf8(text) {
        Ok(text) => {
            let text = characters(alloc, text)?;
            lex(alloc, text.as_slice())
        }
        Err(fault) => Err(LexFault::Lex {
            at: fault.valid_up_to(),
        }),
    }
}
