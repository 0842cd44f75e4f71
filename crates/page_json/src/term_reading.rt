//! From JSON values to terms and rows.

ghost use Rattle.std.specs.Prelude.{◌≡◌, ◌++◌, ◌∷◌, [], Some, None, Err, IfOk, OnOk, option_map};
ghost use Rattle.std.specs.FinMap.{entries};
ghost use Rattle.serde_json.specs.View.{view, members_view, items_view};
ghost use Rattle.term_core.specs.Rows.{AreSorted};
ghost use Rattle.page_json.specs.Reading.{found_term, plain_term, typed_term, tagged_term, kinded_term, found_entries, found_row};
ghost use Rattle.page_json.specs.Reading.{found_rows};
ghost use Rattle.page_json.specs.Views.{rows_entries};

use crate::ReplyFault;
use crate::members::{Object, into_object, into_text, is_done, take_first, take_text};
use serde_json::Value;
use std::alloc::Global;
use term_core::{Items, Memory, RDF_LANG_STRING, Row, Term, Text, XSD_STRING};

fn plain(alloc: Global, kind: &str, text: Text) -> Result<Term, ReplyFault>
    ensures ok { IfOk result (λ t. plain_term kind.now text ≡ Some t) }
    ensures bad { result ≡ Err ReplyFault.BadReply → plain_term kind.now text ≡ None }
{
    match kind {
        "uri" => Ok(Term::Iri(text)),
        "bnode" => Ok(Term::Blank(text)),
        "literal" => Ok(Term::Literal {
            lexical: text,
            datatype: Text::from_str(alloc, XSD_STRING)?,
            lang: Text::from_str(alloc, "")?,
        }),
        _ => Err(ReplyFault::BadReply),
    }
}

fn typed(alloc: Global, kind: &str, text: Text, datatype: Text) -> Result<Term, ReplyFault>
    ensures ok { IfOk result (λ t. typed_term kind.now text datatype ≡ Some t) }
    ensures bad { result ≡ Err ReplyFault.BadReply → typed_term kind.now text datatype ≡ None }
{
    if kind != "literal" {
        return Err(ReplyFault::BadReply);
    }
    if datatype.as_str() == XSD_STRING {
        return Err(ReplyFault::BadReply);
    }
    if datatype.as_str() == RDF_LANG_STRING {
        return Err(ReplyFault::BadReply);
    }
    Ok(Term::Literal {
        lexical: text,
        datatype,
        lang: Text::from_str(alloc, "")?,
    })
}

fn tagged(alloc: Global, kind: &str, text: Text, tag: Text) -> Result<Term, ReplyFault>
    ensures ok { IfOk result (λ t. tagged_term kind.now text tag ≡ Some t) }
    ensures bad { result ≡ Err ReplyFault.BadReply → tagged_term kind.now text tag ≡ None }
{
    if kind != "literal" {
        return Err(ReplyFault::BadReply);
    }
    if tag.as_str().is_empty() {
        return Err(ReplyFault::BadReply);
    }
    Ok(Term::Literal {
        lexical: text,
        datatype: Text::from_str(alloc, RDF_LANG_STRING)?,
        lang: tag,
    })
}

fn kinded(
    alloc: Global,
    kind: &str,
    text: Text,
    datatype: Option<Value>,
    tag: Option<Value>,
) -> Result<Term, ReplyFault>
    ensures ok { IfOk result (λ t. kinded_term kind.now text (option_map view datatype) (option_map view tag) ≡ Some t) }
    ensures bad { result ≡ Err ReplyFault.BadReply
        → kinded_term kind.now text (option_map view datatype) (option_map view tag) ≡ None }
{
    match (datatype, tag) {
        (None, None) => plain(alloc, kind, text),
        (Some(datatype), None) => match into_text(datatype) {
            Some(datatype) => typed(alloc, kind, text, datatype),
            None => Err(ReplyFault::BadReply),
        },
        (None, Some(tag)) => match into_text(tag) {
            Some(tag) => tagged(alloc, kind, text, tag),
            None => Err(ReplyFault::BadReply),
        },
        (Some(_), Some(_)) => Err(ReplyFault::BadReply),
    }
}

fn read_term(alloc: Global, value: Value) -> Result<Term, ReplyFault>
    ensures ok { IfOk result (λ t. found_term (view value) ≡ Some t) }
    ensures bad { result ≡ Err ReplyFault.BadReply → found_term (view value) ≡ None }
{
    let Some(mut object) = into_object(value) else {
        return Err(ReplyFault::BadReply);
    };
    let datatype = take_first(&mut object, "datatype");
    let Some(kind) = take_text(&mut object, "type") else {
        return Err(ReplyFault::BadReply);
    };
    let Some(text) = take_text(&mut object, "value") else {
        return Err(ReplyFault::BadReply);
    };
    let tag = take_first(&mut object, "xml:lang");
    if !is_done(&object) {
        return Err(ReplyFault::BadReply);
    }
    kinded(alloc, kind.as_str(), text, datatype, tag)
}

fn push_entry(entries: &mut Vec<(Text, Term)>, name: Text, term: Term) -> Result<(), Memory>
    ensures { OnOk result (entries.new.items ≡ entries.old.items ++ (name, term) ∷ []) }
{
    entries.push((name, term))?;
    Ok(())
}

#[tactic(auto, using(crate::proofs::Fronts::entries_step))]
fn read_entries(alloc: Global, object: Object) -> Result<Vec<(Text, Term)>, ReplyFault>
    ensures ok { IfOk result (λ es. found_entries (members_view object.entries) ≡ Some es.items) }
    ensures sorted { IfOk result (λ es. AreSorted es.items) }
    ensures bad { result ≡ Err ReplyFault.BadReply → found_entries (members_view object.entries) ≡ None }
{
    let mut entries = Vec::new(alloc);
    for (name, value) in object {
        let term = read_term(alloc, value)?;
        push_entry(&mut entries, Text::from_string(name), term)?;
    }
    Ok(entries)
}

#[tactic(auto, using(crate::proofs::Fronts::row_done))]
fn read_row(alloc: Global, value: Value) -> Result<Row, ReplyFault>
    ensures ok { IfOk result (λ row. found_row (view value) ≡ Some (entries row)) }
    ensures bad { result ≡ Err ReplyFault.BadReply → found_row (view value) ≡ None }
{
    match into_object(value) {
        Some(object) => Ok(Row::of_sorted(read_entries(alloc, object)?)),
        None => Err(ReplyFault::BadReply),
    }
}

/// The rows of an array, each an object of its bound variables.
pub(crate) fn read_rows(alloc: Global, values: Vec<Value>) -> Result<Items<Row>, ReplyFault>
    ensures ok { IfOk result (λ rows. found_rows (items_view values.items) ≡ Some (rows_entries rows)) }
    ensures bad { result ≡ Err ReplyFault.BadReply → found_rows (items_view values.items) ≡ None }
{
    let mut rows = Items::new(alloc);
    for value in values {
        let row = read_row(alloc, value)?;
        rows.push(row)?;
    }
    Ok(rows)
}
