//! The symbol of a token.

ghost use Rattle.std.specs.Prelude.{◌≡◌, ◌++◌, IfOk, None};
ghost use Rattle.std.specs.Char.{to_ascii_lowercase};
ghost use Rattle.std.specs.Str.{chars};
ghost use Rattle.term_core.specs.Terminals.{IsToken};
ghost use Rattle.term_core.specs.declared.token.Kind.TheVariants as kinds;
ghost use Rattle.sparql_symbol.specs.Reading as spec;
ghost use Rattle.sparql_symbol.specs.Reading.{iri_inside, read_symbol};
ghost use Rattle.sparql_tree.specs.Symbols as symbols;
ghost use Rattle.sparql_symbol.specs.Names.{iri_of};
ghost use Rattle.sparql_tree.specs.declared.symbol.Shape.TheVariants as Shape;

use crate::parts::{quotes_of, split_colon, within};
use crate::prefixes::Prefixes;
use crate::undoing::{Place, undo};
use crate::words::{is_word, sign_shape, word_shape};
use sparql_tree::{Shape, Symbol};
use std::alloc::Global;
use term_core::{Kind, Memory, Text, has_scheme};

/// The symbol of a shape that has no value.
fn bare(alloc: Global, shape: Shape) -> Symbol
    ensures { result ≡ symbols.bare shape }
{
    Symbol {
        shape,
        value: Text::from_string(String::new(alloc)),
    }
}

/// The symbol of a shape and a copy of a text.
fn copied(alloc: Global, shape: Shape, text: &str) -> Result<Symbol, Memory>
    ensures { IfOk result (λ s. s ≡ symbols.symbol shape text.now) }
{
    Ok(Symbol {
        shape,
        value: Text::from_str(alloc, text)?,
    })
}

/// The IRI of a token, behind its escapes.
pub fn read_iri(alloc: Global, text: &str) -> Result<Text, Memory>
    requires { IsToken kinds.Iri (chars text.now) }
    ensures { IfOk result (λ iri. iri ≡ iri_inside text.now) }
{
    let body = within(text, 1, 1);
    Ok(Text::from_string(undo(String::new(alloc), Place::Plain, body)?))
}

fn iri_symbol(alloc: Global, text: &str) -> Result<Symbol, Memory>
    requires { IsToken kinds.Iri (chars text.now) }
    ensures { IfOk result (λ s. s ≡ symbols.iri_symbol (iri_inside text.now)) }
{
    let iri = read_iri(alloc, text)?;
    if has_scheme(iri.bytes()) {
        Ok(Symbol {
            shape: Shape::Iri,
            value: iri,
        })
    } else {
        Ok(bare(alloc, Shape::Other))
    }
}

/// The IRI of a prefix, with the local name behind it.
fn joined(alloc: Global, iri: &Text, local: &str) -> Result<Symbol, Memory>
    ensures { IfOk result (λ s. s ≡ symbols.symbol Shape.Iri (iri.now ++ spec.local_at local.now)) }
{
    let front = String::from_str(alloc, iri.as_str())?;
    let value = undo(front, Place::Name, local)?;
    Ok(Symbol {
        shape: Shape::Iri,
        value: Text::from_string(value),
    })
}

fn name_symbol(alloc: Global, prefixes: &Prefixes<'_>, text: &str) -> Result<Symbol, Memory>
    ensures { IfOk result (λ s. s ≡ read_symbol (iri_of prefixes.now) kinds.PName text.now) }
{
    let (prefix, local) = split_colon(text);
    match prefixes.get(prefix) {
        Some(iri) => joined(alloc, iri, local),
        None => Ok(bare(alloc, Shape::Other)),
    }
}

fn string_symbol(alloc: Global, text: &str) -> Result<Symbol, Memory>
    requires { IsToken kinds.String (chars text.now) }
    ensures { IfOk result (λ s. s ≡ symbols.symbol Shape.Quoted (spec.string_inside text.now)) }
{
    let quotes = quotes_of(text.as_bytes());
    let body = within(text, quotes, quotes);
    let value = undo(String::new(alloc), Place::Plain, body)?;
    Ok(Symbol {
        shape: Shape::Quoted,
        value: Text::from_string(value),
    })
}

fn tag_symbol(alloc: Global, text: &str) -> Result<Symbol, Memory>
    requires { IsToken kinds.Lang (chars text.now) }
    ensures { IfOk result (λ s. s ≡ read_symbol (λ prefix. None) kinds.Lang text.now) }
{
    let tag = within(text, 1, 0);
    Ok(Symbol {
        shape: Shape::Tag,
        value: Text::from_string(tag.to_ascii_lowercase(alloc)?),
    })
}

fn word_symbol(alloc: Global, text: &str) -> Result<Symbol, Memory>
    ensures { IfOk result (λ s. s ≡ symbols.word_symbol text.now) }
{
    let word = text.as_bytes();
    if is_word(word, b"true") {
        copied(alloc, Shape::Boolean, "true")
    } else if is_word(word, b"false") {
        copied(alloc, Shape::Boolean, "false")
    } else {
        Ok(bare(alloc, word_shape(word)))
    }
}

/// The symbol of a token of this kind and text, where the prefixes stand for these IRIs. The token's
/// text is copied once.
pub fn read_symbol(
    alloc: Global,
    prefixes: &Prefixes<'_>,
    kind: Kind,
    text: &str,
) -> Result<Symbol, Memory>
    requires { IsToken kind (chars text.now) }
    ensures { IfOk result (λ s. s ≡ read_symbol (iri_of prefixes.now) kind text.now) }
{
    match kind {
        Kind::Iri => iri_symbol(alloc, text),
        Kind::PName => name_symbol(alloc, prefixes, text),
        Kind::Blank => copied(alloc, Shape::Blank, within(text, 2, 0)),
        Kind::Var => copied(alloc, Shape::Var, within(text, 1, 0)),
        Kind::String => string_symbol(alloc, text),
        Kind::Lang => tag_symbol(alloc, text),
        Kind::Integer => copied(alloc, Shape::Integer, text),
        Kind::Decimal => copied(alloc, Shape::Decimal, text),
        Kind::Double => Ok(bare(alloc, Shape::Other)),
        Kind::Word => word_symbol(alloc, text),
        Kind::Sign => Ok(bare(alloc, sign_shape(text.as_bytes()))),
    }
}
