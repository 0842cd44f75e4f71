// The two formats of a store file.
ghost use Rattle.std.specs.Prelude.{◌≡◌, IfSome, IfNone, ℕ, take};
ghost use Rattle.sage_outside.specs.Parts.{IsPayload, is_sound};
ghost use Rattle.store_image.specs.Format.{IsFormat, payload_of, mark_of};

use sage_outside::tag_agrees;

/// The mark of a store file of format 1.
const FIRST_MARK: [u8; 8] = *b"SAGESTO1";

/// The mark of a store file of format 2.
const SECOND_MARK: [u8; 8] = *b"SAGESTO2";

/// The bytes of a block that hold data.
#[tactic(auto, unfolding(crate::specs::Format::payload_of))]
pub(crate) fn payload_of(format: u8) -> u32
    ensures is { result ≡ payload_of format }
    ensures whole { IsPayload result }
{
    if format == 1 { 4096 } else { 4080 }
}

/// The mark of a format.
#[tactic(auto, unfolding(crate::specs::Format::mark_of))]
pub(crate) fn mark_of(format: u8) -> [u8; 8]
    ensures { result ≡ mark_of format }
{
    if format == 1 { FIRST_MARK } else { SECOND_MARK }
}

/// The format whose mark a block begins with.
pub(crate) fn format_of(block: &[u8; 4096]) -> Option<u8>
    ensures some { IfSome result IsFormat }
    ensures mark { IfSome result (λ format. take 8 block.now ≡ mark_of format) }
    ensures none { IfNone result ((format : ℕ) → IsFormat format → take 8 block.now ≡ mark_of format → ⊥) }
{
    if block[..8] == mark_of(1)[..] {
        return Some(1);
    }
    if block[..8] == mark_of(2)[..] {
        return Some(2);
    }
    None
}

/// Whether the first block of a file has its tag, where the format has tags.
#[tactic(auto, unfolding(crate::specs::Format::payload_of))]
pub(crate) fn has_tag(format: u8, block: &[u8; 4096]) -> bool
    ensures { result ≡ is_sound (payload_of format) 0 block.now }
{
    if format == 1 {
        return true;
    }
    tag_agrees(0, block)
}
