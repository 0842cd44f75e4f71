//! Values of the tests, as constants spell them.

use page_json::{PageReply, PageRequest};
use std::alloc::{AllocError, Global};
use term_core::{Items, Memory, Row, Term, Text};

/// A name with its term: a kind (`i` an IRI, `b` a blank node, `l` a literal) with its text, and of a literal with its datatype and
/// its language tag.
pub type Cell = (&'static str, char, &'static str, &'static str, &'static str);

/// The names, the rows, the suspended plan and the steps of a page.
pub type Page = (
    &'static [&'static str],
    &'static [&'static [Cell]],
    Option<&'static [u8]>,
    u32,
);

/// A text of bytes that are UTF-8.
pub fn text_of(alloc: Global, bytes: Vec<u8>) -> Result<String, AllocError> {
    match String::from_utf8(bytes) {
        Ok(text) => Ok(text),
        Err(_) => String::from_str(alloc, "not UTF-8"),
    }
}

fn literal(alloc: Global, lexical: &str, datatype: &str, lang: &str) -> Result<Term, Memory> {
    let lexical = Text::from_str(alloc, lexical)?;
    let datatype = Text::from_str(alloc, datatype)?;
    let lang = Text::from_str(alloc, lang)?;
    Ok(Term::Literal {
        lexical,
        datatype,
        lang,
    })
}

fn term(alloc: Global, cell: Cell) -> Result<Term, Memory> {
    let (_, kind, text, datatype, lang) = cell;
    match kind {
        'i' => Ok(Term::Iri(Text::from_str(alloc, text)?)),
        'b' => Ok(Term::Blank(Text::from_str(alloc, text)?)),
        _ => literal(alloc, text, datatype, lang),
    }
}

fn set(alloc: Global, row: &mut Row, cell: Cell) -> Result<(), Memory> {
    let name = Text::from_str(alloc, cell.0)?;
    let term = term(alloc, cell)?;
    row.set(name, term)
}

fn row(alloc: Global, cells: &[Cell]) -> Result<Row, Memory> {
    let mut row = Row::empty(alloc);
    for &cell in cells {
        set(alloc, &mut row, cell)?;
    }
    Ok(row)
}

fn rows(alloc: Global, cells: &[&[Cell]]) -> Result<Items<Row>, Memory> {
    let mut rows = Items::new(alloc);
    for &cells in cells {
        let row = row(alloc, cells)?;
        rows.push(row)?;
    }
    Ok(rows)
}

fn texts(alloc: Global, names: &[&str]) -> Result<Items<Text>, Memory> {
    let mut texts = Items::new(alloc);
    for &name in names {
        let text = Text::from_str(alloc, name)?;
        texts.push(text)?;
    }
    Ok(texts)
}

fn plan(alloc: Global, bytes: Option<&[u8]>) -> Result<Option<Items<u8>>, Memory> {
    match bytes {
        None => Ok(None),
        Some(bytes) => Ok(Some(Items::from_vec(Vec::from_slice(alloc, bytes)?))),
    }
}

/// A page as a reply.
pub fn reply(alloc: Global, page: Page) -> Result<PageReply, Memory> {
    let next = plan(alloc, page.2)?;
    let rows = rows(alloc, page.1)?;
    let variables = texts(alloc, page.0)?;
    Ok(PageReply::Rows {
        variables,
        rows,
        next,
        steps: page.3,
    })
}

/// A request.
pub fn request(alloc: Global, query: &str, next: Option<&[u8]>) -> Result<PageRequest, Memory> {
    let next = plan(alloc, next)?;
    let query = Text::from_str(alloc, query)?;
    Ok(PageRequest { query, next })
}
