// A search in one level.
ghost use Rattle.std.specs.Prelude.{◌≡◌, ◌<◌, ◌≤◌, ◌+◌, ◌*◌, ◌/◌, ◌-◌, min, ℕ, List, Err, IfOk, IfSome, false};
ghost use Rattle.sage_outside.specs.Causes.{Rose};
ghost use Rattle.sage_outside.specs.Blocks.{HasRead, Tells, block_at};
ghost use Rattle.sage_outside.specs.Parts.{IsPayload, is_sound};
ghost use Rattle.btree_scan.specs.Entries.{IsEdgeOf};
ghost use Rattle.btree_scan.specs.Levels.{key_from, passes, place_of};
ghost use Rattle.btree_scan.specs.Cuts.{stands_before};

use crate::block::cut_in_block;
use crate::prefix::Prefix;
use sage_outside::{Blocks, ReadFault};

/// A level of a tree: its first block, the number of its entries, and the bytes that a block keeps.
#[derive(Clone, Copy)]
pub(crate) struct Level {
    pub(crate) first: u32,
    pub(crate) size: u32,
    pub(crate) payload: u32,
}

/// The cut in one block of a level: a place in front of which the key is before it, and at which it is
/// not. By one read.
pub(crate) fn cut_in_level<B: Blocks>(
    level: Level,
    blocks: &mut B,
    block: u32,
    through: bool,
    prefix: &Prefix,
) -> Result<u32, ReadFault>
    requires payload { IsPayload level.payload }
    requires there { level.first + block < (B.device blocks.old).count }
    requires counted { (B.device blocks.old).count ≤ u32.MAX }
    requires some { block * (level.payload / 12) < level.size }
    requires few { level.size ≤ 4194303 }
    ensures read { HasRead (B.device blocks.old) (B.device blocks.new) 1 }
    ensures failed { result ≡ Err ReadFault.Blocks → Rose (B.device blocks.old).faults (B.device blocks.new).faults }
    ensures within { IfOk result (λ place. (block * (level.payload / 12) ≤ place) × (place ≤ min ((block + 1) * (level.payload / 12)) level.size)) }
    ensures damaged { (image : List ℕ) (n : ℕ) → Tells (B.device blocks.old).image image
        → result ≡ Err (ReadFault.Damaged n) → is_sound level.payload n (block_at n image) ≡ false }
    ensures inside { (image : List ℕ) (n : ℕ) → Tells (B.device blocks.old).image image
        → result ≡ Err (ReadFault.Damaged n) → n < (B.device blocks.old).count }
    ensures edge { (image : List ℕ) → Tells (B.device blocks.old).image image
        → IfOk result (IsEdgeOf (λ k. passes (stands_before through prefix.now) (key_from level.payload level.first k image))
        (block * (level.payload / 12)) (min ((block + 1) * (level.payload / 12)) level.size)) }
{
    let per = level.payload / 12;
    let start = block * per;
    let count = per.min(level.size - start);
    let place = cut_in_block(
        blocks,
        level.payload,
        level.first + block,
        count,
        through,
        prefix,
    )?;
    Ok(start + place)
}

/// The block of the level below to which the last entry before the cut leads; `None` where no entry
/// is before it.
pub(crate) fn block_in_level<B: Blocks>(
    level: Level,
    blocks: &mut B,
    block: u32,
    through: bool,
    prefix: &Prefix,
) -> Result<Option<u32>, ReadFault>
    requires payload { IsPayload level.payload }
    requires there { level.first + block < (B.device blocks.old).count }
    requires counted { (B.device blocks.old).count ≤ u32.MAX }
    requires some { block * (level.payload / 12) < level.size }
    requires few { level.size ≤ 4194303 }
    ensures read { HasRead (B.device blocks.old) (B.device blocks.new) 1 }
    ensures failed { result ≡ Err ReadFault.Blocks → Rose (B.device blocks.old).faults (B.device blocks.new).faults }
    ensures within { IfOk result (λ o. place_of o ≤ level.size) }
    ensures damaged { (image : List ℕ) (n : ℕ) → Tells (B.device blocks.old).image image
        → result ≡ Err (ReadFault.Damaged n) → is_sound level.payload n (block_at n image) ≡ false }
    ensures inside { (image : List ℕ) (n : ℕ) → Tells (B.device blocks.old).image image
        → result ≡ Err (ReadFault.Damaged n) → n < (B.device blocks.old).count }
    ensures edge { (image : List ℕ) → Tells (B.device blocks.old).image image
        → IfOk result (λ o. IsEdgeOf (λ k. passes (stands_before through prefix.now) (key_from level.payload level.first k image))
        (block * (level.payload / 12)) (min ((block + 1) * (level.payload / 12)) level.size) (place_of o)) }
{
    let place = cut_in_level(level, blocks, block, through, prefix)?;
    Ok(behind(place))
}

/// The block in front of a place.
fn behind(place: u32) -> Option<u32>
    ensures { place_of result ≡ place }
{
    if place == 0 { None } else { Some(place - 1) }
}
