// The tags of blocks, which tell that a block is whole and stands in its place.
ghost use Rattle.std.specs.Prelude.{◌≡◌, ◌+◌, ◌≤◌, ◌++◌, length, Err};
ghost use Rattle.std.specs.Int.{w32, to_be_bytes};
ghost use Rattle.sha2.specs.Sha256.{sha256};
ghost use Rattle.sage_outside.specs.Parts.{agrees, tag_of, IsPayload, Reads, part_in};

use crate::ReadFault;
use sha2::{Digest, Sha256};

/// SHA-256 over the number of a block, in big-endian order, and its payload.
fn digest(number: u32, payload: &[u8]) -> [u8; 32]
    ensures { result ≡ sha256 (to_be_bytes w32 number ++ payload.now) }
{
    let mut hasher = Sha256::new();
    hasher.update(&number.to_be_bytes());
    hasher.update(payload);
    hasher.finalize()
}

/// The tag of the block of that number with that payload.
#[tactic(auto, unfolding(crate::specs::Parts::tag_of))]
pub fn tag(number: u32, payload: &[u8]) -> [u8; 16]
    ensures { result ≡ tag_of number payload.now }
{
    let digest = digest(number, payload);
    let mut tag = [0; 16];
    tag.copy_from_slice(&digest[..16]);
    tag
}

/// Whether the last 16 bytes are the tag of the block of that number.
#[tactic(auto, unfolding(crate::specs::Parts::agrees))]
pub fn tag_agrees(number: u32, block: &[u8; 4096]) -> bool
    ensures { result ≡ agrees number block.now }
{
    let tag = tag(number, &block[..4080]);
    let held = &block[4080..4096];
    let right = &tag[..16];
    *held == *right
}

/// Fills the piece with the bytes of a block in memory from the place `from` on. `Damaged` comes
/// exactly where the payload leaves room for a tag, and the tag does not agree.
pub fn part_of_block(
    number: u32,
    payload: u32,
    from: usize,
    block: &[u8; 4096],
    piece: &mut [u8],
) -> Result<(), ReadFault>
    requires payload { IsPayload payload }
    requires within { from + length piece.old ≤ payload }
    ensures own { result ≡ Err ReadFault.Blocks → ⊥ }
    ensures part { Reads (λ _. piece.new) result (part_in payload number from (length piece.new) block.now) }
{
    if payload != 4096 && !tag_agrees(number, block) {
        return Err(ReadFault::Damaged { block: number });
    }
    piece.copy_from_slice(&block[from..from + piece.len()]);
    Ok(())
}
