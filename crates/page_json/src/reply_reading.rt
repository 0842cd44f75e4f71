//! From JSON to replies.

ghost use Rattle.std.specs.Prelude.{◌≡◌, Some, None, Err, IfOk, option_map};
ghost use Rattle.serde_json.specs.View.{view, items_view, members_view};
ghost use Rattle.page_json.specs.Reading.{page_members, found_page, found_refusal, found_next, found_texts, found_reply};
ghost use Rattle.page_json.specs.Replies.{IsReplyText};
ghost use Rattle.page_json.specs.Views.{parts_view, reply_shape};

use crate::members::{
    Object, begins_with, into_object, into_text, is_done, take_array, take_first, take_steps,
    take_text,
};
use crate::plan_text::{PlanTextFault, plan_of_text};
use crate::term_reading::read_rows;
use crate::{PageReply, ReplyFault};
use serde_json::Value;
use std::alloc::Global;
use term_core::{Items, Text};

/// The reply that a body holds. `BadReply` comes exactly where the body is not the JSON of a reply: any text whose value is that of a
/// page or of a refusal, with exactly its members. Spaces and the order of members do not matter; of members of one name the last
/// counts (RFC 8259, section 4). A literal with the datatype xsd:string, one with the datatype rdf:langString and no tag, and an
/// empty tag are of no page. Whether a page is one of the query that was asked is not looked at: its columns, its number of rows
/// and its steps may be any. The time is linear in the body but for the look-ups in an object, which are logarithmic in its members.
pub fn read_reply(alloc: Global, body: &[u8]) -> Result<PageReply, ReplyFault>
    ensures ok { IfOk result (λ reply. IsReplyText body.now reply) }
    ensures only { IfOk result (λ reply. (other : PageReply) → IsReplyText body.now other → reply ≡ other) }
    ensures bad { result ≡ Err ReplyFault.BadReply → (reply : PageReply) → ¬ (IsReplyText body.now reply) }
{
    match Value::from_slice(alloc, body) {
        Ok(value) => read_value(alloc, value),
        Err(error) => {
            if error.is_memory() {
                Err(ReplyFault::Memory)
            } else {
                Err(ReplyFault::BadReply)
            }
        }
    }
}

fn read_value(alloc: Global, value: Value) -> Result<PageReply, ReplyFault>
    ensures ok { IfOk result (λ reply. found_reply (view value) ≡ Some (reply_shape reply)) }
    ensures bad { result ≡ Err ReplyFault.BadReply → found_reply (view value) ≡ None }
{
    let Some(object) = into_object(value) else {
        return Err(ReplyFault::BadReply);
    };
    if begins_with(&object, "error") {
        return match refusal(object) {
            Some(refusal) => Ok(refusal),
            None => Err(ReplyFault::BadReply),
        };
    }
    match parts(object) {
        Some(parts) => read_page(alloc, parts),
        None => Err(ReplyFault::BadReply),
    }
}

fn refusal(object: Object) -> Option<PageReply>
    ensures { option_map reply_shape result ≡ found_refusal (members_view object.entries) }
{
    let mut object = object;
    let name = take_text(&mut object, "error")?;
    if is_done(&object) {
        Some(PageReply::Refused { name })
    } else {
        None
    }
}

/// The members of a page, of which the steps are read.
#[derive(Drop)]
pub struct PageParts {
    pub next: Value,
    pub rows: Vec<Value>,
    pub steps: u32,
    pub variables: Vec<Value>,
}

fn parts(object: Object) -> Option<PageParts>
    ensures { option_map parts_view result ≡ page_members (members_view object.entries) }
{
    let mut object = object;
    let next = take_first(&mut object, "next")?;
    let rows = take_array(&mut object, "rows")?;
    let steps = take_steps(&mut object, "steps")?;
    let variables = take_array(&mut object, "vars")?;
    if is_done(&object) {
        Some(PageParts {
            next,
            rows,
            steps,
            variables,
        })
    } else {
        None
    }
}

fn read_page(alloc: Global, parts: PageParts) -> Result<PageReply, ReplyFault>
    ensures ok { IfOk result (λ reply. found_page (parts_view parts) ≡ Some (reply_shape reply)) }
    ensures bad { result ≡ Err ReplyFault.BadReply → found_page (parts_view parts) ≡ None }
{
    let PageParts {
        next,
        rows,
        steps,
        variables,
    } = parts;
    let next = read_next(alloc, next)?;
    let rows = read_rows(alloc, rows)?;
    let variables = read_texts(alloc, variables)?;
    Ok(PageReply::Rows {
        variables,
        rows,
        next,
        steps,
    })
}

fn read_next(alloc: Global, value: Value) -> Result<Option<Items<u8>>, ReplyFault>
    ensures ok { IfOk result (λ next. found_next (view value) ≡ Some next) }
    ensures bad { result ≡ Err ReplyFault.BadReply → found_next (view value) ≡ None }
{
    match value {
        Value::Null => Ok(None),
        Value::String(text) => match plan_of_text(alloc, text.as_bytes()) {
            Ok(plan) => Ok(Some(plan)),
            Err(PlanTextFault::Memory) => Err(ReplyFault::Memory),
            Err(PlanTextFault::NotBase64) => Err(ReplyFault::BadReply),
        },
        _ => Err(ReplyFault::BadReply),
    }
}

fn read_texts(alloc: Global, values: Vec<Value>) -> Result<Items<Text>, ReplyFault>
    ensures ok { IfOk result (λ texts. found_texts (items_view values.items) ≡ Some texts) }
    ensures bad { result ≡ Err ReplyFault.BadReply → found_texts (items_view values.items) ≡ None }
{
    let mut texts = Items::new(alloc);
    for value in values {
        let Some(text) = into_text(value) else {
            return Err(ReplyFault::BadReply);
        };
        texts.push(text)?;
    }
    Ok(texts)
}
