//! The symbols of a text's tokens.

ghost use Rattle.std.specs.Prelude.{◌≡◌, ◌≤◌, All, IfOk, IfErr, OnErr, length};
ghost use Rattle.term_core.specs.Tokens.{Tokens};
ghost use Rattle.sparql_symbol.specs.Names.{iri_of};
ghost use Rattle.sparql_symbol.specs.Reading as spec;
ghost use Rattle.sparql_symbol.specs.Reading.{StandsIn, AreOfLexemes};
ghost use Rattle.sparql_tree.specs.Refusals.{AreSymbols, WhyNoSymbols};
ghost use Rattle.sparql_tree.specs.Symbols.{lexemes};

use crate::excess::is_excessive;
use crate::parts::spelling;
use crate::prefixes::Prefixes;
use crate::prologue::read_prologue;
use crate::reading::read_symbol;
use crate::unsupported::{first_unsupported, is_too_deep};
use sparql_tree::{QueryFault, Size, Symbol};
use std::alloc::Global;
use term_core::{Items, Memory, Text, Token};

/// The symbols of all tokens, where the prefixes stand for these IRIs.
fn read_symbols(
    alloc: Global,
    text: &str,
    tokens: &[Token],
    prefixes: &Prefixes<'_>,
) -> Result<Items<Symbol>, Memory>
    requires { All (StandsIn text.now) tokens.now }
    ensures { IfOk result (λ symbols. symbols ≡ spec.read_symbols (iri_of prefixes.now) (lexemes text.now tokens.now)) }
{
    let mut symbols = Items::new(alloc);
    for token in tokens {
        symbols.push(read_symbol(alloc, prefixes, token.kind, spelling(text, *token))?)?;
    }
    Ok(symbols)
}

/// The symbols behind the prologue. What holds too much past its text is want of memory before anything
/// is written out.
fn behind_prologue(alloc: Global, text: &str, tokens: &[Token]) -> Result<Items<Symbol>, Memory>
    requires { All (StandsIn text.now) tokens.now }
    ensures { IfOk result (AreOfLexemes (lexemes text.now tokens.now)) }
{
    let mut prefixes = Prefixes::new(alloc);
    let at = read_prologue(alloc, text, tokens, &mut prefixes)?;
    let (_, rest) = tokens.split_at(at);
    if is_excessive(text, rest, &prefixes) {
        return Err(Memory);
    }
    read_symbols(alloc, text, rest, &prefixes)
}

/// What the tokens of a query text are to the grammar, in order, behind the prologue.
///
/// The prologue is as many declarations `PREFIX p: <iri>` as stand in front, each with an IRI that has a
/// scheme; the last of a prefix holds (SPARQL 1.1, section 4.1.1). Of the causes of a refusal the first
/// in this order is given: `Unsupported` with the first token of the language that is not answered,
/// wherever it stands; `TooLarge(Size::Nesting)` where more than 256 of `(` and `{` are open at one
/// place. No other fault but `Memory` comes from here.
///
/// `Memory` comes also of a text that abbreviates more than 2^30 bytes: of a name with a prefix the
/// prefix's IRI, at `,` the subject and verb in force, at `;` the subject, of a term of a table the name of
/// its variable. They are counted before anything is written out.
///
/// The time is linear in the bytes that are read and written out, but for the look-up of prefixes in a map.
pub fn symbols_of(alloc: Global, text: &str, tokens: &[Token]) -> Result<Items<Symbol>, QueryFault>
    requires small { length text.now ≤ 262144 }
    requires tokens { Tokens text.now tokens.now }
    ensures found { IfOk result (AreSymbols text.now) }
    ensures why { IfErr result (WhyNoSymbols text.now) }
{
    if let Some(what) = first_unsupported(text, tokens) {
        return Err(QueryFault::Unsupported {
            what: Text::from_str(alloc, what)?,
        });
    }
    if is_too_deep(text, tokens) {
        return Err(QueryFault::TooLarge(Size::Nesting));
    }
    Ok(behind_prologue(alloc, text, tokens)?)
}
