//! Terms of the tests, as constants spell them.

use std::alloc::Global;
use term_core::{Term, Text, TextFault};

/// A kind (`i` an IRI, `b` a blank node, `l` a literal) with its text, and of a literal with its
/// datatype and its language tag.
pub type Spelled = (char, &'static str, &'static str, &'static str);

/// The datatype of plain strings.
pub const STRING: &str = "http://www.w3.org/2001/XMLSchema#string";

/// A text.
pub fn text(alloc: Global, text: &str) -> Result<Text, TextFault> {
    Text::from_bytes(alloc, text.as_bytes())
}

/// A literal.
fn literal(alloc: Global, lexical: &str, datatype: &str, lang: &str) -> Result<Term, TextFault> {
    let lexical = text(alloc, lexical)?;
    let datatype = text(alloc, datatype)?;
    let lang = text(alloc, lang)?;
    Ok(Term::Literal {
        lexical,
        datatype,
        lang,
    })
}

/// The term of such a constant.
pub fn term(alloc: Global, spelled: (char, &str, &str, &str)) -> Result<Term, TextFault> {
    let (kind, name, datatype, lang) = spelled;
    match kind {
        'i' => Ok(Term::Iri(text(alloc, name)?)),
        'b' => Ok(Term::Blank(text(alloc, name)?)),
        _ => literal(alloc, name, datatype, lang),
    }
}
