// A block that is kept.
ghost use Rattle.std.specs.Prelude.{◌≡◌, ◌+◌, ◌≤◌, ℕ, List, length, Err, IfSome, Contains, true, nat_eq, is_some};
ghost use Rattle.std.specs.Map.{lookup};
ghost use Rattle.sage_outside.specs.Parts.{agrees, IsPayload, Reads, part_in, piece_at};

use lru::LruCache;
use sage_outside::{ReadFault, part_of_block};

/// A block, and whether its tag was seen to agree.
#[derive(Drop)]
pub struct Kept {
    pub block: Box<[u8; 4096]>,
    pub agreed: bool,
}

/// Fills the piece with the bytes of a kept block from the place `from` on. The tag is looked at only
/// where it was not yet seen to agree.
pub(crate) fn part_of_kept(
    n: u32,
    payload: u32,
    from: usize,
    kept: &Kept,
    piece: &mut [u8],
) -> Result<(), ReadFault>
    requires payload { IsPayload payload }
    requires within { from + length piece.old ≤ payload }
    ensures own { result ≡ Err ReadFault.Blocks → ⊥ }
    ensures part { (kept.now.agreed ≡ true → agrees n kept.now.block.value ≡ true)
        → Reads (λ _. piece.new) result (part_in payload n from (length piece.new) kept.now.block.value) }
{
    if kept.agreed {
        piece.copy_from_slice(&kept.block[from..from + piece.len()]);
        return Ok(());
    }
    part_of_block(n, payload, from, &kept.block, piece)
}
