//! How many bytes a query holds past those of its text.
//!
//! A name with a prefix holds the prefix's IRI (SPARQL 1.1, section 4.1.1). Each triple holds its own
//! subject and verb, though before `;` and `,` they are written once (section 4.2). Each term of a table
//! holds the name of its variable (section 10.2).

ghost use Rattle.std.specs.Prelude.{◌≡◌, All, length};
ghost use Rattle.sparql_symbol.specs.Excess as spec;
ghost use Rattle.sparql_symbol.specs.Names.{iri_of};
ghost use Rattle.sparql_symbol.specs.Reading.{StandsIn, before_colon};

use crate::parts::{spelling, split_colon};
use crate::prefixes::Prefixes;
use crate::words::{is_word, sign_shape, word_shape};
use sparql_tree::Shape;
use term_core::{Kind, Token};

/// The most bytes that a query may hold past those of its text: 2^30.
const EXCESS_LIMIT: usize = 1_073_741_824;

/// The subject and the verb in force, as far as they have come.
#[derive(Clone, Copy)]
struct Triples {
    /// How many terms have come since triples could last begin.
    terms: usize,
    /// The bytes of the first of them.
    subject: usize,
    /// The bytes of the second.
    verb: usize,
}

/// A table that is being read.
#[derive(Clone, Copy)]
struct Table {
    /// The place of its first variable among the tokens.
    first: usize,
    /// Whether its variables stand in parentheses, and so does each row.
    wide: bool,
    /// Whether its rows have begun.
    rows: bool,
    /// The column of the next term.
    column: usize,
}

/// What has come before a token, as far as it is held again.
#[derive(Clone, Copy)]
struct Passed {
    /// The parentheses that are open.
    parentheses: usize,
    triples: Triples,
    table: Option<Table>,
}

/// What a token is to the grammar, whatever its prefix stands for.
fn shape_of(kind: Kind, text: &[u8]) -> Shape
    ensures { result ≡ spec.shape_of_token kind text.now }
{
    match kind {
        Kind::Iri | Kind::PName => Shape::Iri,
        Kind::Blank => Shape::Blank,
        Kind::Var => Shape::Var,
        Kind::String => Shape::Quoted,
        Kind::Lang => Shape::Tag,
        Kind::Integer => Shape::Integer,
        Kind::Decimal => Shape::Decimal,
        Kind::Double => Shape::Other,
        Kind::Word => {
            if is_word(text, b"true") || is_word(text, b"false") {
                Shape::Boolean
            } else {
                word_shape(text)
            }
        }
        Kind::Sign => sign_shape(text),
    }
}

fn is_term(shape: Shape) -> bool
    ensures { result ≡ spec.is_held_term shape }
{
    matches!(
        shape,
        Shape::Iri
            | Shape::Blank
            | Shape::Var
            | Shape::Quoted
            | Shape::Integer
            | Shape::Decimal
            | Shape::Boolean
            | Shape::IsA
    )
}

/// The bytes of the IRI that the prefix of a name stands for.
fn named_bytes(prefixes: &Prefixes<'_>, text: &str) -> usize
    ensures { result ≡ spec.bytes_of (iri_of prefixes.now (before_colon text.now)) }
{
    let (prefix, _) = split_colon(text);
    match prefixes.get(prefix) {
        Some(iri) => iri.bytes().len(),
        None => 0,
    }
}

/// The bytes of the IRI that stands for a token's prefix.
fn prefix_bytes(prefixes: &Prefixes<'_>, kind: Kind, text: &str) -> usize
    ensures { result ≡ spec.prefix_bytes (iri_of prefixes.now) kind text.now }
{
    match kind {
        Kind::PName => named_bytes(prefixes, text),
        _ => 0,
    }
}

fn parentheses_behind(parentheses: usize, shape: Shape) -> usize
    ensures { result ≡ spec.parentheses_behind parentheses shape }
{
    match shape {
        Shape::Open => parentheses.saturating_add(1),
        Shape::Close => parentheses.saturating_sub(1),
        _ => parentheses,
    }
}

fn no_triples() -> Triples
    ensures { result ≡ spec.no_triples }
{
    Triples {
        terms: 0,
        subject: 0,
        verb: 0,
    }
}

fn with_term(triples: Triples, bytes: usize) -> Triples
    ensures { result ≡ spec.with_term triples bytes }
{
    match triples.terms {
        0 => Triples {
            terms: 1,
            subject: bytes,
            verb: 0,
        },
        1 => Triples {
            terms: 2,
            subject: triples.subject,
            verb: bytes,
        },
        _ => triples,
    }
}

fn triples_behind(triples: Triples, shape: Shape, bytes: usize) -> Triples
    ensures { result ≡ spec.triples_behind triples shape bytes }
{
    match shape {
        Shape::OpenBrace | Shape::CloseBrace | Shape::Point | Shape::Close => no_triples(),
        Shape::Semicolon => Triples {
            terms: 1,
            subject: triples.subject,
            verb: 0,
        },
        _ => {
            if is_term(shape) {
                with_term(triples, bytes)
            } else {
                triples
            }
        }
    }
}

/// The table at another column.
fn at_column(table: Table, column: usize) -> Table
    ensures { result ≡ spec.at_column table column }
{
    Table {
        first: table.first,
        wide: table.wide,
        rows: table.rows,
        column,
    }
}

/// Whether a token fills a column of the table: a term or `UNDEF`, in rows that have columns.
fn fills_column(table: Table, shape: Shape) -> bool
    ensures { result ≡ spec.fills_column table shape }
{
    match shape {
        Shape::Undef => table.rows && table.wide,
        _ => table.rows && table.wide && is_term(shape),
    }
}

/// A table behind a token at this place. A datatype stands in the column of its literal.
fn within_table(table: Table, at: usize, shape: Shape) -> Table
    ensures { result ≡ spec.within_table table at shape }
{
    match shape {
        Shape::Open => Table {
            first: if table.rows {
                table.first
            } else {
                at.saturating_add(1)
            },
            wide: true,
            rows: table.rows,
            column: 0,
        },
        Shape::OpenBrace => Table {
            first: table.first,
            wide: table.wide,
            rows: true,
            column: 0,
        },
        Shape::Typed => at_column(table, table.column.saturating_sub(1)),
        _ => {
            if fills_column(table, shape) {
                at_column(table, table.column.saturating_add(1))
            } else {
                table
            }
        }
    }
}

fn table_behind(table: Option<Table>, at: usize, shape: Shape) -> Option<Table>
    ensures { result ≡ spec.table_behind table at shape }
{
    match shape {
        Shape::Values => Some(Table {
            first: at.saturating_add(1),
            wide: false,
            rows: false,
            column: 0,
        }),
        Shape::CloseBrace => None,
        _ => match table {
            Some(table) => Some(within_table(table, at, shape)),
            None => None,
        },
    }
}

fn behind(before: Passed, at: usize, shape: Shape, bytes: usize) -> Passed
    ensures { result ≡ spec.behind before at shape bytes }
{
    Passed {
        parentheses: parentheses_behind(before.parentheses, shape),
        triples: triples_behind(before.triples, shape, bytes),
        table: table_behind(before.table, at, shape),
    }
}

fn nothing_passed() -> Passed
    ensures { result ≡ spec.nothing_passed }
{
    Passed {
        parentheses: 0,
        triples: no_triples(),
        table: None,
    }
}

/// The bytes of the variable that a term of a table is of.
fn variable_bytes(tokens: &[Token], table: Table, shape: Shape) -> usize
    ensures { result ≡ spec.variable_bytes tokens.now table shape }
{
    if !(table.rows && is_term(shape)) {
        return 0;
    }
    match tokens.get(table.first.saturating_add(table.column)) {
        Some(token) => token.to.saturating_sub(token.from),
        None => 0,
    }
}

/// The bytes of the subject and the verb in force, as far as they are held again at a token.
fn held_by_triples(triples: Triples, shape: Shape) -> usize
    ensures { result ≡ spec.held_by_triples triples shape }
{
    match shape {
        Shape::Comma => triples.subject.saturating_add(triples.verb),
        Shape::Semicolon => triples.subject,
        _ => 0,
    }
}

/// The bytes of what has come before, as far as they are held again at a token.
fn held_again(tokens: &[Token], before: Passed, shape: Shape) -> usize
    ensures { result ≡ spec.held_again tokens.now before shape }
{
    match before.table {
        Some(table) => variable_bytes(tokens, table, shape),
        None => {
            if before.parentheses > 0 {
                0
            } else {
                held_by_triples(before.triples, shape)
            }
        }
    }
}

/// Whether the tokens behind a prologue hold too many bytes past those of the text. The time is linear in
/// the text, but for the look-up of prefixes in a map, and nothing is allocated.
pub fn is_excessive(text: &str, tokens: &[Token], prefixes: &Prefixes<'_>) -> bool
    requires { All (StandsIn text.now) tokens.now }
    ensures { result ≡ spec.is_excessive (iri_of prefixes.now) text.now tokens.now }
{
    let mut before = nothing_passed();
    let mut excess: usize = 0;
    let mut at: usize = 0;
    for token in tokens {
        let written = spelling(text, *token);
        let shape = shape_of(token.kind, written.as_bytes());
        let more = prefix_bytes(prefixes, token.kind, written);
        let held = held_again(tokens, before, shape);
        excess = excess.saturating_add(more).saturating_add(held);
        before = behind(before, at, shape, written.len().saturating_add(more));
        at = at.saturating_add(1);
    }
    excess > EXCESS_LIMIT
}
