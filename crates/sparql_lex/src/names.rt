//! Words, and names with a prefix.

ghost use Rattle.std.specs.Prelude.{◌≡◌, ◌≤◌, ◌<◌, length, drop, false};
ghost use Rattle.sparql_lex.specs.Names.{NoPrefix, ends_prefix, is_name_part};
ghost use Rattle.sparql_lex.specs.Scan as spec;
ghost use Rattle.sparql_lex.specs.Scan.{run};

use crate::classes::is_letter;
use crate::scan::{longest, word_run};
use term_core::{Kind, is_pn};

/// How many characters of names and dots stand at the front, and whether a colon behind them ends a
/// prefix.
fn name_run(text: &[char]) -> (usize, bool)
    ensures length { result.0 ≡ run is_name_part text.now }
    ensures bound { result.0 ≤ length text.now }
    ensures colon { result.1 ≡ ends_prefix text.now false }
{
    let mut behind_name = false;
    for (i, c) in text.iter().enumerate() {
        if is_pn(*c) {
            behind_name = true;
        } else if *c == '.' {
            behind_name = false;
        } else {
            return (i, behind_name && *c == ':');
        }
    }
    (text.len(), false)
}

/// The kind and the number of characters of the longest token at the place `index`. From there up to
/// `known` no prefix begins, which is found out once for all words of a run of names and dots:
/// `a.a.a.a` without a colon is read twice in all, and not to its end from each `a`.
pub fn token_at(text: &[char], index: usize, known: &mut usize) -> Option<(Kind, usize)>
    requires within { index < length text.now }
    requires sound { NoPrefix text.now index known.old }
    ensures found { result ≡ spec.longest (drop index text.now) }
    ensures sound { NoPrefix text.now index known.new }
{
    let (_, rest) = text.split_at(index);
    if !is_letter(rest[0]) {
        return longest(rest);
    }
    if *known <= index {
        let (length, colon) = name_run(rest);
        if colon {
            return longest(rest);
        }
        *known = index + length;
    }
    Some((Kind::Word, word_run(rest)))
}
