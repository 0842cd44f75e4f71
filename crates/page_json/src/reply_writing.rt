//! From replies to JSON. The text is written straight, and no tree of JSON values is built.

ghost use Rattle.std.specs.Prelude.{◌≡◌, ◌++◌, IfOk, OnOk, IsUtf8};
ghost use Rattle.json.specs.Tree.{json_tokens, members_tokens};
ghost use Rattle.serde_json.specs.Data.{array};
ghost use Rattle.serde_json.specs.Written.{outline, members_outline, compact_text};
ghost use Rattle.page_json.specs.Replies.{text_items, next_json, vars_member, steps_and_vars, rows_to_vars, reply_json, HasPlanText};
ghost use Rattle.page_json.specs.Replies.{IsInRange};
ghost use Rattle.page_json.specs.Replies.{LiteralsAreTagged, IsReplyText};

use crate::PageReply;
use crate::plan_text::plan_text;
use crate::term_writing::{write_member, write_rows};
use json::Writer;
use std::alloc::Global;
use term_core::{Items, Memory, Row, Text};

fn write_texts(out: &mut Writer, texts: &[Text]) -> Result<(), Memory>
    ensures ok { OnOk result (out.new.tokens ≡ out.old.tokens ++ json_tokens (outline (array (text_items texts.now)))) }
    ensures before { out.new.before ≡ out.old.before }
{
    out.begin_array()?;
    for text in texts {
        out.string(text.as_str())?;
    }
    out.end_array()?;
    Ok(())
}

fn write_next(alloc: Global, out: &mut Writer, next: &Option<Items<u8>>) -> Result<(), Memory>
    ensures ok { OnOk result (out.new.tokens ≡ out.old.tokens ++ json_tokens (outline (next_json next.now))) }
    ensures plan { OnOk result (HasPlanText next.now) }
    ensures before { out.new.before ≡ out.old.before }
{
    match next {
        None => out.null()?,
        Some(plan) => {
            let text = plan_text(alloc, plan.as_slice())?;
            out.string(text.as_str())?;
        }
    }
    Ok(())
}

/// The member "vars" and the end of the page's object.
fn write_vars(out: &mut Writer, variables: &[Text]) -> Result<(), Memory>
    ensures ok { OnOk result (out.new.tokens ≡ out.old.tokens ++ members_tokens (members_outline (vars_member variables.now))) }
    ensures before { out.new.before ≡ out.old.before }
{
    out.key("vars")?;
    write_texts(out, variables)?;
    out.end_object()?;
    Ok(())
}

/// The members of a page from "steps" on.
fn write_from_steps(out: &mut Writer, steps: u32, variables: &[Text]) -> Result<(), Memory>
    ensures ok { OnOk result (out.new.tokens
        ≡ out.old.tokens ++ members_tokens (members_outline (steps_and_vars steps variables.now))) }
    ensures before { out.new.before ≡ out.old.before }
{
    out.key("steps")?;
    out.u64(u64::from(steps))?;
    write_vars(out, variables)
}

/// The members of a page from "rows" on.
fn write_from_rows(
    out: &mut Writer,
    rows: &[Row],
    steps: u32,
    variables: &[Text],
) -> Result<(), Memory>
    ensures ok { OnOk result (out.new.tokens
        ≡ out.old.tokens ++ members_tokens (members_outline (rows_to_vars rows.now steps variables.now))) }
    ensures before { out.new.before ≡ out.old.before }
{
    out.key("rows")?;
    write_rows(out, rows)?;
    write_from_steps(out, steps, variables)
}

fn write_page(
    alloc: Global,
    out: &mut Writer,
    variables: &[Text],
    rows: &[Row],
    next: &Option<Items<u8>>,
    steps: u32,
) -> Result<(), Memory>
    ensures ok { OnOk result (out.new.tokens
        ≡ out.old.tokens ++ json_tokens (outline (reply_json (PageReply.Rows variables.now rows.now next.now steps)))) }
    ensures plan { OnOk result (HasPlanText next.now) }
    ensures before { out.new.before ≡ out.old.before }
{
    out.begin_object()?;
    out.key("next")?;
    write_next(alloc, out, next)?;
    write_from_rows(out, rows, steps, variables)
}

fn write_refusal(out: &mut Writer, name: &Text) -> Result<(), Memory>
    ensures ok { OnOk result (out.new.tokens
        ≡ out.old.tokens ++ json_tokens (outline (reply_json (PageReply.Refused name.now)))) }
    ensures before { out.new.before ≡ out.old.before }
{
    out.begin_object()?;
    write_member(out, "error", name.as_str())?;
    out.end_object()?;
    Ok(())
}

fn write_value(alloc: Global, out: &mut Writer, reply: &PageReply) -> Result<(), Memory>
    ensures ok { OnOk result (out.new.tokens ≡ out.old.tokens ++ json_tokens (outline (reply_json reply.now))) }
    ensures range { OnOk result (IsInRange reply.now) }
    ensures before { out.new.before ≡ out.old.before }
{
    match reply {
        PageReply::Rows {
            variables,
            rows,
            next,
            steps,
        } => write_page(
            alloc,
            out,
            variables.as_slice(),
            rows.as_slice(),
            next,
            *steps,
        ),
        PageReply::Refused { name } => write_refusal(out, name),
    }
}

/// The text of a reply: its JSON (RFC 8259) without spaces, with the members of each object in the byte order of their names. It is
/// read back as this reply where each literal has the datatype rdf:langString exactly where it has a tag. The time is linear
/// in the text.
pub fn write_reply(alloc: Global, reply: &PageReply) -> Result<Vec<u8>, Memory>
    ensures form { IfOk result (λ text. text.items ≡ compact_text (reply_json reply.now)) }
    ensures utf8 { IfOk result (λ text. IsUtf8 text.items) }
    ensures reads_back { LiteralsAreTagged reply.now → IfOk result (λ text. IsReplyText text.items reply.now) }
{
    let mut out = Writer::new(Vec::new(alloc));
    write_value(alloc, &mut out, reply)?;
    Ok(out.into_inner())
}
