// The bytes of an area, read block by block.
ghost use Rattle.std.specs.Prelude.{◌≡◌, ◌<◌, ◌≤◌, ◌+◌, ◌*◌, ◌/◌, ◌%◌, ℕ, List, Err, length};
ghost use Rattle.sage_outside.specs.Causes.{Rose};
ghost use Rattle.sage_outside.specs.Blocks.{HasRead, Tells};
ghost use Rattle.sage_outside.specs.Parts.{Reads};
ghost use Rattle.sage_outside.specs.Areas.{Fits, part_at, block_of, touched};

use crate::{Blocks, ReadFault};

/// An area that begins with the block `first`. Each block keeps `payload` bytes of it.
#[derive(Clone, Copy, Debug, PartialEq, Eq)]
pub struct Area {
    pub first: u32,
    pub payload: u32,
}

/// The block in which the byte at that place stands.
pub fn block_of(area: &Area, at: u64) -> u32
    requires some { 0 < area.now.payload }
    requires fits { block_of area.now at ≤ u32.MAX }
    ensures { result ≡ block_of area.now at }
{
    area.first + (at / area.payload as u64) as u32
}

/// Fills the piece with the area's bytes from the place `at` on, which stand in one block.
fn read_within<B: Blocks>(
    blocks: &mut B,
    area: &Area,
    at: u64,
    piece: &mut [u8],
) -> Result<(), ReadFault>
    requires fits { Fits area.now at (length piece.old) (B.device blocks.old).count }
    requires within { at % area.now.payload + length piece.old ≤ area.now.payload }
    requires some { 0 < length piece.old }
    ensures read { HasRead (B.device blocks.old) (B.device blocks.new) 1 }
    ensures failed { result ≡ Err ReadFault.Blocks → Rose (B.device blocks.old).faults (B.device blocks.new).faults }
    ensures found { (image : List ℕ) → Tells (B.device blocks.old).image image
        → Reads (λ _. piece.new) result (part_at area.now at (length piece.new) image) }
{
    let block = area.first + (at / area.payload as u64) as u32;
    let from = (at % area.payload as u64) as usize;
    blocks.read_part(block, area.payload, from, piece)
}

/// Fills the buffer with the area's bytes from the place `at` on. Each block is read once, and none
/// for no bytes. `Damaged` comes exactly where the tag of one of these blocks does not agree, and
/// names the first such block.
pub fn read_area<B: Blocks>(
    blocks: &mut B,
    area: &Area,
    at: u64,
    buf: &mut [u8],
) -> Result<(), ReadFault>
    requires { Fits area.now at (length buf.old) (B.device blocks.old).count }
    ensures read { HasRead (B.device blocks.old) (B.device blocks.new) (touched area.now.payload at (length buf.old)) }
    ensures failed { result ≡ Err ReadFault.Blocks → Rose (B.device blocks.old).faults (B.device blocks.new).faults }
    ensures found { (image : List ℕ) → Tells (B.device blocks.old).image image
        → Reads (λ _. buf.new) result (part_at area.now at (length buf.new) image) }
{
    let payload = area.payload as u64;
    let mut done = 0usize;
    'pieces: while done < buf.len() {
        let place = at + done as u64;
        let left = (payload - place % payload) as usize;
        let count = left.min(buf.len() - done);
        read_within(blocks, area, place, &mut buf[done..done + count])?;
        done += count;
    }
    Ok(())
}
