// The cache, and its form of blocks.
ghost use Rattle.std.specs.Prelude.{◌≡◌, ◌<◌, ◌+◌, ◌≤◌, ◌*◌, ℕ, List, length, Err, OnErr, IfOk, IfErr, nat_eq, is_some, true, []};
ghost use Rattle.std.specs.Map.{keys_of};
ghost use Rattle.sage_outside.specs.Causes.{Rose};
ghost use Rattle.sage_outside.specs.Blocks.{HasRead, HasBlock, Tells};
ghost use Rattle.sage_outside.specs.Parts.{IsPayload, Reads, piece_at};

use crate::fetch::{fetch_block, fetch_part};
use crate::kept::Kept;
use crate::store::{copy_if_kept, part_if_kept};
use lru::LruCache;
use sage_outside::{Blocks, Failed, ReadFault};
use std::alloc::Global;
use std::marker::Model;
use std::num::NonZeroUsize;

/// The blocks, given back where a cache found no memory.
#[derive(Drop)]
pub struct Uncached<B> {
    pub blocks: B,
}

/// Blocks, of which those used last are kept in memory. The tag of a block is looked at when it comes
/// from below, and not again while it is kept. A read that failed is not kept, and a block whose tag
/// does not agree is refused at each look. A block that finds no memory is not kept, and the answer
/// is the same.
#[derive(Drop)]
pub struct BlockCache<B: Blocks> {
    blocks: B,
    kept: LruCache<u32, Kept>,
    alloc: Global,
}

impl<B: Blocks> Model for BlockCache<B> {
    ghost use Rattle.std.specs.Prelude.{ℕ, List};
    ghost use Rattle.std.specs.Map.{keys_of};
    ghost use Rattle.block_cache.specs.Kept.{AreKeptOf};

    ghost Value = { B × List ℕ };

    ghost view = { λ c. (c.blocks, keys_of c.kept.entries) };

    ghost invariant = { λ c. AreKeptOf (B.device c.blocks).image c.kept.entries };
}

impl<B: Blocks> BlockCache<B> {
    /// A cache that keeps at most so many blocks, and none yet. Memory is taken for the places of all.
    /// A server that begins anew closes its cache, and makes another over the blocks that it gets back.
    pub fn new(alloc: Global, blocks: B, capacity: u32) -> Result<BlockCache<B>, Uncached<B>>
        requires { 0 < capacity }
        ensures made { IfOk result (λ c. c ≡ (blocks, [])) }
        ensures back { IfErr result (λ e. e.blocks ≡ blocks) }
    {
        let capacity = match NonZeroUsize::new(capacity as usize) {
            Some(capacity) => capacity,
            None => unreachable!(),
        };
        match LruCache::new(alloc, capacity) {
            Ok(kept) => Ok(BlockCache {
                blocks,
                kept,
                alloc,
            }),
            Err(_) => Err(Uncached { blocks }),
        }
    }

    /// The blocks below, with their counts as they stand. What was kept is let go.
    pub fn close(self) -> B
        ensures { result ≡ self.0 }
    {
        self.blocks
    }
}

impl<B: Blocks> Blocks for BlockCache<B> {
    ghost use Rattle.std.specs.Prelude.{◌≡◌, ◌<◌, ◌+◌, ◌≤◌, ℕ, List, length, Err, OnErr, true};
    ghost use Rattle.sage_outside.specs.Causes.{Rose};
    ghost use Rattle.sage_outside.specs.Blocks.{HasRead, HasBlock, Tells};
    ghost use Rattle.sage_outside.specs.Parts.{IsPayload, Reads, piece_at};
    ghost use Rattle.block_cache.specs.Kept.{is_held};

    ghost device = { λ c. B.device c.0 };

    fn blocks(&self) -> u32 {
        self.blocks.blocks()
    }

    fn read_block(&mut self, n: u32, block: &mut [u8; 4096]) -> Result<(), Failed>
        requires { n < (B.device self.old.0).count }
        ensures read { HasRead (B.device self.old.0) (B.device self.new.0) 1 }
        ensures failed { OnErr result (Rose (B.device self.old.0).faults (B.device self.new.0).faults) }
        ensures found { HasBlock (B.device self.old.0).image n block.new result }
        ensures held { is_held n self.old.1 ≡ true → self.new.0 ≡ self.old.0 }
    {
        if copy_if_kept(&mut self.kept, n, block) {
            return Ok(());
        }
        fetch_block(self.alloc, &mut self.blocks, &mut self.kept, n, block)
    }

    fn read_part(
        &mut self,
        n: u32,
        payload: u32,
        from: usize,
        piece: &mut [u8],
    ) -> Result<(), ReadFault>
        requires block { n < (B.device self.old.0).count }
        requires payload { IsPayload payload }
        requires within { from + length piece.old ≤ payload }
        ensures read { HasRead (B.device self.old.0) (B.device self.new.0) 1 }
        ensures failed { result ≡ Err ReadFault.Blocks → Rose (B.device self.old.0).faults (B.device self.new.0).faults }
        ensures found { (image : List ℕ) → Tells (B.device self.old.0).image image
            → Reads (λ _. piece.new) result (piece_at payload n from (length piece.new) image) }
        ensures held { is_held n self.old.1 ≡ true → self.new.0 ≡ self.old.0 }
    {
        if let Some(answer) = part_if_kept(&mut self.kept, n, payload, from, piece) {
            return answer;
        }
        fetch_part(
            self.alloc,
            &mut self.blocks,
            &mut self.kept,
            n,
            payload,
            from,
            piece,
        )
    }

    ghost whole = { λ c bytes tells. B.whole c.0 bytes tells };

    ghost few = { λ c. B.few c.0 };
}
