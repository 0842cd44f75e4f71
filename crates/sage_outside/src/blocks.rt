// Files that are read by blocks.
ghost use Rattle.std.specs.Prelude.{◌≡◌, ◌<◌, ◌≤◌, ◌+◌, ◌*◌, ◌^◌, ℕ, List, OnErr, Err, length};
ghost use Rattle.sage_outside.specs.Causes.{Rose};
ghost use Rattle.sage_outside.specs.Blocks.{Device, HasRead, HasBlock, Tells};
ghost use Rattle.sage_outside.specs.Parts.{IsPayload, Reads, piece_at};

use crate::tags::part_of_block;
use crate::{Failed, ReadFault};

/// Blocks of 4,096 bytes, numbered from 0.
pub trait Blocks {
    /// The bytes, where they are told, and the number of blocks, neither of which a call changes;
    /// how often a call has failed, and how many reads were counted. Both counts never fall, and
    /// stand still at 2^64 - 1.
    ghost device: { Self → Device };

    /// The number of blocks.
    fn blocks(&self) -> u32
        ensures { result ≡ (device self.now).count };

    /// Fills the buffer with block `n`, and counts at most one read. `Failed` comes only where a
    /// fault was counted; then nothing is said of the buffer.
    fn read_block(&mut self, n: u32, block: &mut [u8; 4096]) -> Result<(), Failed>
        requires { n < (device self.old).count }
        ensures read { HasRead (device self.old) (device self.new) 1 }
        ensures failed { OnErr result (Rose (device self.old).faults (device self.new).faults) }
        ensures found { HasBlock (device self.old).image n block.new result };

    /// Fills the piece with the bytes of block `n` from the place `from` on, and counts at most one
    /// read. A payload of 4080 leaves 16 bytes to the block's tag, which is looked at; `Damaged`
    /// comes exactly where it does not agree.
    fn read_part(
        &mut self,
        n: u32,
        payload: u32,
        from: usize,
        piece: &mut [u8],
    ) -> Result<(), ReadFault>
        requires block { n < (device self.old).count }
        requires payload { IsPayload payload }
        requires within { from + length piece.old ≤ payload }
        ensures read { HasRead (device self.old) (device self.new) 1 }
        ensures failed { result ≡ Err ReadFault.Blocks → Rose (device self.old).faults (device self.new).faults }
        ensures found { (image : List ℕ) → Tells (device self.old).image image
            → Reads (λ _. piece.new) result (piece_at payload n from (length piece.new) image) }
    {
        let mut block = [0; 4096];
        self.read_block(n, &mut block)?;
        part_of_block(n, payload, from, &block, piece)
    }

    /// Told bytes fill the blocks.
    ghost whole: { (b : Self) (bytes : List ℕ) → Tells (device b).image bytes
        → length bytes ≡ 4096 * (device b).count };

    /// A number of 32 bits counts the blocks.
    ghost few: { (b : Self) → (device b).count < 2 ^ 32 };
}
