//! From JSON to requests.

ghost use Rattle.std.specs.Prelude.{◌≡◌, Some, None, Err, IfOk, option_map, option_and_then, codes, ℕ, List, Option};
ghost use Rattle.serde_json.specs.Find.{get, as_str};
ghost use Rattle.serde_json.specs.View.{view};
ghost use Rattle.page_json.specs.Reading.{found_next_plan, HasNoPlan};
ghost use Rattle.page_json.specs.Requests.{text_of_next, asked_by, IsRequestText, AsksNothing, HasBadPlan};

use crate::plan_text::{PlanTextFault, plan_of_text};
use crate::{PageRequest, RequestFault};
use serde_json::Value;
use std::alloc::Global;
use term_core::{Items, Text};

fn query_of(value: &Value) -> Option<&str>
    ensures { option_map (λ s. s.now) result ≡ option_and_then as_str (get (codes "query") (view value.now)) }
{
    value.get("query").and_then(Value::as_str)
}

fn plan_text_of(next: Option<&Value>) -> Option<Option<&str>>
    ensures { option_map (λ text. option_map (λ s. s.now) text) result ≡ text_of_next (option_map (λ v. view v.now) next.entry) }
{
    match next {
        None => Some(None),
        Some(Value::Null) => Some(None),
        Some(Value::String(text)) => Some(Some(text.as_str())),
        Some(_) => None,
    }
}

fn read_plan(alloc: Global, text: Option<&str>) -> Result<Option<Items<u8>>, RequestFault>
    ensures ok { IfOk result (λ next. found_next_plan (option_map (λ s. s.now) text.entry) ≡ Some next) }
    ensures bad { result ≡ Err RequestFault.Base64 → found_next_plan (option_map (λ s. s.now) text.entry) ≡ None }
    ensures never { result ≡ Err RequestFault.Request → ⊥ }
{
    match text {
        None => Ok(None),
        Some(text) => match plan_of_text(alloc, text.as_bytes()) {
            Ok(plan) => Ok(Some(plan)),
            Err(PlanTextFault::Memory) => Err(RequestFault::Memory),
            Err(PlanTextFault::NotBase64) => Err(RequestFault::Base64),
        },
    }
}

fn read_value(alloc: Global, value: &Value) -> Result<PageRequest, RequestFault>
    ensures ok { IfOk result (λ request. (text : Option (List ℕ)) × (asked_by (view value.now) ≡ Some (request.query, text))
        × (found_next_plan text ≡ Some request.next)) }
    ensures request { result ≡ Err RequestFault.Request → asked_by (view value.now) ≡ None }
    ensures base64 { result ≡ Err RequestFault.Base64 → HasNoPlan (asked_by (view value.now)) }
{
    let Some(query) = query_of(value) else {
        return Err(RequestFault::Request);
    };
    let Some(text) = plan_text_of(value.get("next")) else {
        return Err(RequestFault::Request);
    };
    let next = read_plan(alloc, text)?;
    Ok(PageRequest {
        query: Text::from_str(alloc, query)?,
        next,
    })
}

/// The request that a body holds. `Request` comes exactly where the body is not JSON, or no object in which `query` is a string
/// and `next` is absent, null or a string; else `Base64` exactly where `next` is the text of no plan: in another alphabet, with
/// padding, of a length that no bytes have, or with an unused last bit that is set (RFC 4648, sections 3.5 and 5). Other members are
/// ignored, spaces and the order of members do not matter, and of members of one name the last counts (RFC 8259, section 4). JSON is
/// what `serde_json` reads: at most 127 arrays and objects are open at one place.
pub fn read_request(alloc: Global, body: &[u8]) -> Result<PageRequest, RequestFault>
    ensures ok { IfOk result (λ request. IsRequestText body.now request) }
    ensures only { IfOk result (λ request. (other : PageRequest) → IsRequestText body.now other → request ≡ other) }
    ensures request { result ≡ Err RequestFault.Request → AsksNothing body.now }
    ensures base64 { result ≡ Err RequestFault.Base64 → HasBadPlan body.now }
{
    match Value::from_slice(alloc, body) {
        Ok(value) => read_value(alloc, &value),
        Err(error) => {
            if error.is_memory() {
                Err(RequestFault::Memory)
            } else {
                Err(RequestFault::Request)
            }
        }
    }
}
