//! The symbols of a query's text.

ghost use Rattle.std.specs.Prelude.{IfOk, IfErr};
ghost use Rattle.sparql_tree.specs.Refusals.{AreSymbols, WhyNoSymbols};

use sparql_lex::{LexFault, tokens};
use sparql_symbol::symbols_of;
use sparql_tree::{QueryFault, Size, Symbol};
use std::alloc::Global;
use term_core::Items;

/// The most bytes that a query's text may have.
const TEXT_LIMIT: usize = 262_144;

/// What the tokens of a query text are to the grammar, in order, behind the prologue.
///
/// Of the causes of a refusal the first in this order is given: `TooLarge(Size::Text)` where the text has
/// more than 262,144 bytes; `Lex` as `sparql_lex::tokens` says; `Unsupported` and `TooLarge(Size::Nesting)`
/// as `sparql_symbol::symbols_of` says. `NotAQuery` and `Scope` do not come from here.
///
/// The time is linear in the bytes that are read and written out, but for the look-up of prefixes in a map.
pub fn symbols(alloc: Global, text: &[u8]) -> Result<Items<Symbol>, QueryFault>
    ensures found { IfOk result (AreSymbols text.now) }
    ensures why { IfErr result (WhyNoSymbols text.now) }
{
    if text.len() > TEXT_LIMIT {
        return Err(QueryFault::TooLarge(Size::Text));
    }
    let written = match str::from_utf8(text) {
        Ok(written) => written,
        Err(fault) => {
            return Err(QueryFault::Lex {
                at: fault.valid_up_to(),
            });
        }
    };
    match tokens(alloc, text) {
        Ok(tokens) => symbols_of(alloc, written, tokens.as_slice()),
        Err(LexFault::Lex { at }) => Err(QueryFault::Lex { at }),
        Err(LexFault::Memory) => Err(QueryFault::Memory),
    }
}
