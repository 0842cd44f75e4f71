//! From requests to JSON.

ghost use Rattle.std.specs.Prelude.{◌≡◌, ◌++◌, None, Some, IfOk, OnOk};
ghost use Rattle.json.specs.Tree.{json_tokens, members_tokens};
ghost use Rattle.serde_json.specs.Written.{outline, members_outline, compact_text};
ghost use Rattle.page_json.specs.Replies.{HasPlanText};
ghost use Rattle.page_json.specs.Requests.{request_members, request_json, IsRequestText};

use crate::PageRequest;
use crate::plan_text::plan_text;
use crate::term_writing::write_member;
use json::Writer;
use std::alloc::Global;
use term_core::{Items, Memory, Text};

/// The member "query" and the end of the object.
fn write_query(out: &mut Writer, query: &Text) -> Result<(), Memory>
    ensures ok { OnOk result (out.new.tokens ≡ out.old.tokens ++ members_tokens (members_outline (request_members query.now None))) }
    ensures before { out.new.before ≡ out.old.before }
{
    write_member(out, "query", query.as_str())?;
    out.end_object()?;
    Ok(())
}

/// The members "next" and "query" and the end of the object.
fn write_planned(
    alloc: Global,
    out: &mut Writer,
    query: &Text,
    plan: &Items<u8>,
) -> Result<(), Memory>
    ensures ok { OnOk result (out.new.tokens
        ≡ out.old.tokens ++ members_tokens (members_outline (request_members query.now (Some plan.now)))) }
    ensures plan { OnOk result (HasPlanText (Some plan.now)) }
    ensures before { out.new.before ≡ out.old.before }
{
    let text = plan_text(alloc, plan.as_slice())?;
    write_member(out, "next", text.as_str())?;
    write_query(out, query)
}

fn write_value(alloc: Global, out: &mut Writer, request: &PageRequest) -> Result<(), Memory>
    ensures ok { OnOk result (out.new.tokens ≡ out.old.tokens ++ json_tokens (outline (request_json request.now))) }
    ensures plan { OnOk result (HasPlanText request.now.next) }
    ensures before { out.new.before ≡ out.old.before }
{
    out.begin_object()?;
    match &request.next {
        None => write_query(out, &request.query),
        Some(plan) => write_planned(alloc, out, &request.query, plan),
    }
}

/// The text of a request: its JSON (RFC 8259) without spaces, with the members in the byte order of their names. The member `next` is
/// left out where there is no plan. It is read back as this request.
pub fn write_request(alloc: Global, request: &PageRequest) -> Result<Vec<u8>, Memory>
    ensures form { IfOk result (λ text. text.items ≡ compact_text (request_json request.now)) }
    ensures reads_back { IfOk result (λ text. IsRequestText text.items request.now) }
{
    let mut out = Writer::new(Vec::new(alloc));
    write_value(alloc, &mut out, request)?;
    Ok(out.into_inner())
}
