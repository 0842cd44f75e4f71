//! Suspended plans as text: base64 that is safe in URLs, without padding (RFC 4648, section 5).

ghost use Rattle.std.specs.Prelude.{◌≡◌, Some, None, IfOk, Err, string_bytes};
ghost use Rattle.base64.specs.Engines.{url_safe_no_pad};
ghost use Rattle.base64.specs.GeneralPurpose.{encode_of};
ghost use Rattle.page_json.specs.PlanTexts.{IsPlanText};
ghost use Rattle.page_json.specs.Reading.{found_plan};

use base64::DecodeAllocError;
use base64::engine::general_purpose::URL_SAFE_NO_PAD;
use std::alloc::Global;
use term_core::{Items, Memory};

/// Why a text was not read as a plan.
#[derive(Clone, Copy)]
pub enum PlanTextFault {
    /// The text is no base64 of that kind: another character or a padding, a length that no bytes have, or an unused last
    /// bit that is set.
    NotBase64,
    /// The allocator had no room.
    Memory,
}

/// The text of a plan.
pub(crate) fn plan_text(alloc: Global, plan: &[u8]) -> Result<String, Memory>
    ensures text { IfOk result (λ text. string_bytes text ≡ encode_of url_safe_no_pad plan.now) }
    ensures reads { IfOk result (λ text. IsPlanText (encode_of url_safe_no_pad plan.now) plan.now) }
{
    Ok(URL_SAFE_NO_PAD.encode(alloc, plan)?)
}

/// The plan of a text.
pub(crate) fn plan_of_text(alloc: Global, text: &[u8]) -> Result<Items<u8>, PlanTextFault>
    ensures ok { IfOk result (λ plan. found_plan text.now ≡ Some plan) }
    ensures bad { result ≡ Err PlanTextFault.NotBase64 → found_plan text.now ≡ None }
{
    match URL_SAFE_NO_PAD.decode(alloc, text) {
        Ok(plan) => Ok(Items::from_vec(plan)),
        Err(DecodeAllocError::OutOfMemory) => Err(PlanTextFault::Memory),
        Err(DecodeAllocError::DecodeError(_)) => Err(PlanTextFault::NotBase64),
    }
}
