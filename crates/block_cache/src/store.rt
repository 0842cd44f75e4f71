// Blocks that are looked up among those kept, and kept.
ghost use Rattle.std.specs.Prelude.{◌≡◌, ◌+◌, ◌≤◌, ℕ, List, length, Err, IfSome, IfNone, Contains, true, nat_eq, is_some};
ghost use Rattle.std.specs.Map.{lookup};
ghost use Rattle.sage_outside.specs.Blocks.{block_at};
ghost use Rattle.sage_outside.specs.Parts.{IsPayload, Reads, piece_at};
ghost use Rattle.block_cache.specs.Kept.{IsBlockOf, AreBlocksOf};

use crate::kept::{Kept, part_of_kept};
use lru::LruCache;
use sage_outside::ReadFault;

/// Fills the piece from block `n`, where it is kept; it is then the one used last.
pub(crate) fn part_if_kept(
    kept: &mut LruCache<u32, Kept>,
    n: u32,
    payload: u32,
    from: usize,
    piece: &mut [u8],
) -> Option<Result<(), ReadFault>>
    requires payload { IsPayload payload }
    requires within { from + length piece.old ≤ payload }
    ensures own { IfSome result (λ r. r ≡ Err ReadFault.Blocks → ⊥) }
    ensures hit { is_some result ≡ is_some (lookup (nat_eq n) kept.old.entries) }
    ensures long { length piece.new ≡ length piece.old }
    ensures kept { (image : List ℕ) → AreBlocksOf image kept.old.entries → AreBlocksOf image kept.new.entries }
    ensures part { (image : List ℕ) → AreBlocksOf image kept.old.entries
        → IfSome result (λ r. Reads (λ _. piece.new) r (piece_at payload n from (length piece.new) image)) }
{
    let found = kept.get(&n)?;
    Some(part_of_kept(n, payload, from, found, piece))
}

/// Keeps a block, where there is memory.
pub(crate) fn keep(kept: &mut LruCache<u32, Kept>, n: u32, block: Kept)
    ensures kept { (image : List ℕ) → IsBlockOf image n block → AreBlocksOf image kept.old.entries
        → AreBlocksOf image kept.new.entries }
{
    match kept.put(n, block) {
        Ok(_) => (),
        Err(_) => (),
    }
}

/// Fills the buffer with block `n`, where it is kept; it is then the one used last.
pub(crate) fn copy_if_kept(kept: &mut LruCache<u32, Kept>, n: u32, block: &mut [u8; 4096]) -> bool
    ensures hit { result ≡ is_some (lookup (nat_eq n) kept.old.entries) }
    ensures kept { (image : List ℕ) → AreBlocksOf image kept.old.entries → AreBlocksOf image kept.new.entries }
    ensures found { (image : List ℕ) → AreBlocksOf image kept.old.entries → result ≡ true → block.new ≡ block_at n image }
{
    match kept.get(&n) {
        Some(found) => {
            *block = *found.block;
            true
        }
        None => false,
    }
}
