//! The prologue of a query: declarations of prefixes (SPARQL 1.1, section 4.1.1).

ghost use Rattle.std.specs.Prelude.{◌≡◌, ◌≤◌, ℕ, List, All, IfOk, IfSome, length, drop, option_map};
ghost use Rattle.std.specs.Str.{chars};
ghost use Rattle.term_core.specs.Terminals.{IsToken};
ghost use Rattle.sparql_symbol.specs.Names.{iri_of};
ghost use Rattle.sparql_tree.specs.Prologue.{prefixes_over};
ghost use Rattle.sparql_symbol.specs.Reading as spec;
ghost use Rattle.sparql_symbol.specs.Reading.{StandsIn, Declares, declaration_at, read_prologue};
ghost use Rattle.sparql_tree.specs.Symbols.{lexeme, lexemes};

use crate::parts::{spelling, split_colon};
use crate::prefixes::{Prefixes, declare};
use crate::reading::read_iri;
use crate::words::is_word;
use std::alloc::Global;
use term_core::{Kind, Memory, Text, Token, has_scheme};

fn is_prefix_word(kind: Kind, text: &str) -> bool
    ensures { result ≡ spec.is_prefix_word kind text.now }
{
    match kind {
        Kind::Word => is_word(text.as_bytes(), b"PREFIX"),
        _ => false,
    }
}

/// The prefix of a name that has no local name.
fn prefix_at(kind: Kind, text: &str) -> Option<&str>
    ensures { option_map (λ prefix. prefix.now) result ≡ spec.prefix_at kind text.now }
{
    match kind {
        Kind::PName => {
            let (prefix, local) = split_colon(text);
            match local.as_bytes() {
                [] => Some(prefix),
                _ => None,
            }
        }
        _ => None,
    }
}

/// The prefix that two tokens declare for the IRI behind them.
fn declared_prefix<'a>(text: &'a str, word: Token, name: Token) -> Option<&'a str>
    requires word { StandsIn text.now word }
    requires name { StandsIn text.now name }
    ensures { option_map (λ prefix. prefix.now) result ≡ spec.declared_prefix (lexeme text.now word) (lexeme text.now name) }
{
    if is_prefix_word(word.kind, spelling(text, word)) {
        prefix_at(name.kind, spelling(text, name))
    } else {
        None
    }
}

/// The IRI of a token, where it has a scheme.
fn absolute_iri(alloc: Global, kind: Kind, text: &str) -> Result<Option<Text>, Memory>
    requires { IsToken kind (chars text.now) }
    ensures { IfOk result (λ iri. iri ≡ spec.absolute_iri kind text.now) }
{
    match kind {
        Kind::Iri => {
            let iri = read_iri(alloc, text)?;
            if has_scheme(iri.bytes()) {
                Ok(Some(iri))
            } else {
                Ok(None)
            }
        }
        _ => Ok(None),
    }
}

/// Declares what three tokens declare. The answer is whether they do.
fn declare_by<'a>(
    alloc: Global,
    text: &'a str,
    word: Token,
    name: Token,
    iri: Token,
    prefixes: &mut Prefixes<'a>,
) -> Result<bool, Memory>
    requires word { StandsIn text.now word }
    requires name { StandsIn text.now name }
    requires iri { StandsIn text.now iri }
    ensures { IfOk result (λ found. Declares (declaration_at (lexeme text.now word) (lexeme text.now name) (lexeme text.now iri)) found
        (iri_of prefixes.old) (iri_of prefixes.new)) }
{
    match declared_prefix(text, word, name) {
        Some(prefix) => match absolute_iri(alloc, iri.kind, spelling(text, iri))? {
            Some(iri) => {
                declare(prefixes, prefix, iri)?;
                Ok(true)
            }
            None => Ok(false),
        },
        None => Ok(false),
    }
}

/// Declares the prefixes of the prologue, over those before it. The answer is how many tokens it has.
pub fn read_prologue<'a>(
    alloc: Global,
    text: &'a str,
    tokens: &[Token],
    prefixes: &mut Prefixes<'a>,
) -> Result<usize, Memory>
    requires { All (StandsIn text.now) tokens.now }
    ensures within { IfOk result (λ n. n ≤ length tokens.now) }
    ensures rest { IfOk result (λ n. lexemes text.now (drop n tokens.now) ≡ (read_prologue (lexemes text.now tokens.now)).1) }
    ensures declared { IfOk result (λ n. (prefix : List ℕ) → iri_of prefixes.new prefix
        ≡ prefixes_over (iri_of prefixes.old) (read_prologue (lexemes text.now tokens.now)).0 prefix) }
{
    let mut at = 0;
    'declarations: while tokens.len() - at > 2 {
        if !declare_by(
            alloc,
            text,
            tokens[at],
            tokens[at + 1],
            tokens[at + 2],
            prefixes,
        )? {
            return Ok(at);
        }
        at += 3;
    }
    Ok(at)
}
