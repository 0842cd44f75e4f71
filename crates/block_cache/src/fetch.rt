// What comes from the blocks below.
ghost use Rattle.std.specs.Prelude.{◌≡◌, ◌<◌, ◌+◌, ◌≤◌, ℕ, List, length, Err, OnErr};
ghost use Rattle.sage_outside.specs.Causes.{Rose};
ghost use Rattle.sage_outside.specs.Blocks.{HasRead, HasBlock, Tells};
ghost use Rattle.sage_outside.specs.Parts.{IsPayload, Reads, piece_at};
ghost use Rattle.block_cache.specs.Kept.{AreKeptOf};

use crate::kept::Kept;
use crate::store::keep;
use lru::LruCache;
use sage_outside::{Blocks, Failed, ReadFault, part_of_block};
use std::alloc::Global;

/// Fills the piece from the blocks below, and keeps the block where there is memory.
pub(crate) fn fetch_part<B: Blocks>(
    alloc: Global,
    blocks: &mut B,
    kept: &mut LruCache<u32, Kept>,
    n: u32,
    payload: u32,
    from: usize,
    piece: &mut [u8],
) -> Result<(), ReadFault>
    requires block { n < (B.device blocks.old).count }
    requires payload { IsPayload payload }
    requires within { from + length piece.old ≤ payload }
    ensures read { HasRead (B.device blocks.old) (B.device blocks.new) 1 }
    ensures failed { result ≡ Err ReadFault.Blocks → Rose (B.device blocks.old).faults (B.device blocks.new).faults }
    ensures found { (image : List ℕ) → Tells (B.device blocks.old).image image
        → Reads (λ _. piece.new) result (piece_at payload n from (length piece.new) image) }
    ensures kept { AreKeptOf (B.device blocks.old).image kept.old.entries → AreKeptOf (B.device blocks.new).image kept.new.entries }
{
    let mut block = match Box::new(alloc, [0; 4096]) {
        Ok(block) => block,
        Err(_) => return blocks.read_part(n, payload, from, piece),
    };
    blocks.read_block(n, &mut block)?;
    let answer = part_of_block(n, payload, from, &block, piece);
    let agreed = payload != 4096 && answer.is_ok();
    keep(kept, n, Kept { block, agreed });
    answer
}

/// Fills the buffer from the blocks below, and keeps a copy where there is memory.
pub(crate) fn fetch_block<B: Blocks>(
    alloc: Global,
    blocks: &mut B,
    kept: &mut LruCache<u32, Kept>,
    n: u32,
    block: &mut [u8; 4096],
) -> Result<(), Failed>
    requires { n < (B.device blocks.old).count }
    ensures read { HasRead (B.device blocks.old) (B.device blocks.new) 1 }
    ensures failed { OnErr result (Rose (B.device blocks.old).faults (B.device blocks.new).faults) }
    ensures found { HasBlock (B.device blocks.old).image n block.new result }
    ensures kept { AreKeptOf (B.device blocks.old).image kept.old.entries → AreKeptOf (B.device blocks.new).image kept.new.entries }
{
    blocks.read_block(n, block)?;
    if let Ok(copy) = Box::new(alloc, *block) {
        let agreed = false;
        keep(
            kept,
            n,
            Kept {
                block: copy,
                agreed,
            },
        );
    }
    Ok(())
}
