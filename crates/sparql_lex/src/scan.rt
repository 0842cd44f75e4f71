//! The longest token at the front of a text.

ghost use Rattle.std.specs.Prelude.{◌≡◌, ◌≤◌, length};
ghost use Rattle.sparql_lex.specs.Scan as spec;
ghost use Rattle.sparql_lex.specs.Scan.{run};
ghost use Rattle.term_core.specs.Terminals as terminals;
ghost use Rattle.term_core.specs.Tokens as cuts;

use crate::classes::{is_in_line, is_word_part};
use crate::state::{State, kind_of};
use crate::steps::step;
use term_core::Kind;

/// The kind and the number of characters of the longest token at the front. Characters are read as
/// long as some token may go on by them.
pub fn longest(text: &[char]) -> Option<(Kind, usize)>
    ensures { result ≡ spec.longest text.now }
{
    let mut state = State::Start;
    let mut found = None;
    for (i, c) in text.iter().enumerate() {
        match step(state, *c) {
            Some(next) => {
                found = or_found(kind_of(next), i + 1, found);
                state = next;
            }
            None => return found,
        }
    }
    found
}

fn or_found(kind: Option<Kind>, n: usize, found: Option<(Kind, usize)>) -> Option<(Kind, usize)>
    ensures { result ≡ spec.or_found kind n found }
{
    match kind {
        Some(kind) => Some((kind, n)),
        None => found,
    }
}

/// How many letters, digits and `_` stand at the front.
pub fn word_run(text: &[char]) -> usize
    ensures value { result ≡ run terminals.is_word_part text.now }
    ensures bound { result ≤ length text.now }
{
    for (i, c) in text.iter().enumerate() {
        if !is_word_part(*c) {
            return i;
        }
    }
    text.len()
}

/// How many characters stand before the end of the line.
pub fn line_run(text: &[char]) -> usize
    ensures value { result ≡ run cuts.is_in_line text.now }
    ensures bound { result ≤ length text.now }
{
    for (i, c) in text.iter().enumerate() {
        if !is_in_line(*c) {
            return i;
        }
    }
    text.len()
}
