//! Tokens of the language that are not answered, and how deep a query nests.

ghost use Rattle.std.specs.Prelude.{◌≡◌, ◌≤◌, ◌<◌, All, option_map, nat_lt};
ghost use Rattle.xsd_num.specs.Values.{number_of, found};
ghost use Rattle.sparql_symbol.specs.Reading.{StandsIn};
ghost use Rattle.sparql_tree.specs.Symbols.{lexemes};
ghost use Rattle.sparql_tree.specs.Unsupported as spec;
ghost use Rattle.sparql_tree.specs.Unsupported.{first_unsupported, deepest};

use crate::parts::spelling;
use crate::words::{is_unsupported_word, is_word};
use term_core::{Kind, Token};
use xsd_num::{Num, read};

/// The most groups that may be open at one place.
const NESTING_LIMIT: usize = 256;

/// What has come before a token.
#[derive(Clone, Copy, Debug, PartialEq, Eq)]
struct Before {
    /// A SELECT, anywhere.
    select: bool,
    /// LIMIT or OFFSET, directly.
    count: bool,
}

/// Whether a number is past 2^64 - 1.
fn is_past_64_bits(number: Num) -> bool
    ensures { result ≡ spec.is_past_64_bits (number_of number) }
{
    match number {
        Num::Whole(m) => m > 0xffff_ffff_ffff_ffff,
        Num::Decimal { .. } => false,
    }
}

fn is_unsupported_number(count: bool, number: Option<Num>) -> bool
    ensures { result ≡ spec.is_unsupported_number count (found number) }
{
    match number {
        Some(number) => count && is_past_64_bits(number),
        None => true,
    }
}

/// Whether an integer is not read, or is past 2^64 - 1 where a number of rows stands.
fn is_unsupported_integer(count: bool, text: &[u8]) -> bool
    ensures { result ≡ spec.is_unsupported_integer count text.now }
{
    let number = read(text, b"http://www.w3.org/2001/XMLSchema#integer".as_slice());
    is_unsupported_number(count, number)
}

/// Whether a decimal is not read.
fn is_unsupported_decimal(text: &[u8]) -> bool
    ensures { result ≡ spec.is_unsupported_decimal text.now }
{
    read(text, b"http://www.w3.org/2001/XMLSchema#decimal".as_slice()).is_none()
}

/// Whether a word is not answered, or is a second SELECT.
fn is_unsupported_in(select: bool, text: &[u8]) -> bool
    ensures { result ≡ spec.is_unsupported_in select text.now }
{
    is_unsupported_word(text) || (select && is_word(text, b"SELECT"))
}

fn is_bracket(text: &[u8]) -> bool
    ensures { result ≡ spec.is_bracket text.now }
{
    text == b"[".as_slice() || text == b"]".as_slice()
}

fn is_unsupported(before: Before, kind: Kind, text: &[u8]) -> bool
    ensures { result ≡ spec.is_unsupported_of (spec.before before.select before.count) kind text.now }
{
    match kind {
        Kind::Double => true,
        Kind::Integer => is_unsupported_integer(before.count, text),
        Kind::Decimal => is_unsupported_decimal(text),
        Kind::Word => is_unsupported_in(before.select, text),
        Kind::Sign => is_bracket(text),
        _ => false,
    }
}

fn is_count_word(text: &[u8]) -> bool
    ensures { result ≡ spec.is_count_word text.now }
{
    is_word(text, b"LIMIT") || is_word(text, b"OFFSET")
}

/// What has come before the token behind this one.
fn before_next(before: Before, kind: Kind, text: &[u8]) -> Before
    ensures { spec.before result.select result.count ≡ spec.before_next (spec.before before.select before.count) kind text.now }
{
    match kind {
        Kind::Word => Before {
            select: before.select || is_word(text, b"SELECT"),
            count: is_count_word(text),
        },
        _ => Before {
            select: before.select,
            count: false,
        },
    }
}

/// The first token that is not answered, as it is written.
pub fn first_unsupported<'a>(text: &'a str, tokens: &[Token]) -> Option<&'a str>
    requires { All (StandsIn text.now) tokens.now }
    ensures { option_map (λ what. what.now) result ≡ first_unsupported (lexemes text.now tokens.now) }
{
    let mut before = Before {
        select: false,
        count: false,
    };
    for token in tokens {
        let written = spelling(text, *token);
        if is_unsupported(before, token.kind, written.as_bytes()) {
            return Some(written);
        }
        before = before_next(before, token.kind, written.as_bytes());
    }
    None
}

fn does_open(text: &[u8]) -> bool
    ensures { result ≡ spec.does_open text.now }
{
    text == b"(".as_slice() || text == b"{".as_slice()
}

fn does_close(text: &[u8]) -> bool
    ensures { result ≡ spec.does_close text.now }
{
    text == b")".as_slice() || text == b"}".as_slice()
}

/// How many groups are open behind a token.
fn open_behind(groups: usize, kind: Kind, text: &[u8]) -> usize
    requires { groups ≤ 256 }
    ensures { result ≡ spec.open_behind groups kind text.now }
{
    match kind {
        Kind::Sign => {
            if does_open(text) {
                groups + 1
            } else if does_close(text) {
                groups.saturating_sub(1)
            } else {
                groups
            }
        }
        _ => groups,
    }
}

/// Whether more groups are open at one place than may be.
pub fn is_too_deep(text: &str, tokens: &[Token]) -> bool
    requires { All (StandsIn text.now) tokens.now }
    ensures { result ≡ nat_lt 256 (deepest (lexemes text.now tokens.now)) }
{
    let mut groups = 0;
    for token in tokens {
        groups = open_behind(groups, token.kind, spelling(text, *token).as_bytes());
        if groups > NESTING_LIMIT {
            return true;
        }
    }
    false
}
