// Searches from the top level down.
ghost use Rattle.std.specs.Prelude.{◌≡◌, ◌<◌, ◌≤◌, ◌+◌, ◌*◌, ◌/◌, ◌-◌, ◌^◌, min, ℕ, List, Err, IfOk, IfSome, false, count_by};
ghost use Rattle.sage_outside.specs.Causes.{Rose};
ghost use Rattle.sage_outside.specs.Blocks.{HasRead, Tells, block_at};
ghost use Rattle.sage_outside.specs.Parts.{IsPayload, is_sound};
ghost use Rattle.btree_build.specs.Trees.{blocks_for};
ghost use Rattle.btree_scan.specs.Levels.{AreLevels, Leads, Lies, IsEdgeAt, key_at, passes, place_of, size_at};
ghost use Rattle.btree_scan.specs.Cuts.{stands_before};

use crate::level::{Level, block_in_level, cut_in_level};
use crate::prefix::Prefix;
use crate::tree::Tree;
use sage_outside::{Blocks, ReadFault};

/// The blocks for `n` entries.
#[tactic(auto, unfolding(btree_build::specs::Trees::blocks_for))]
pub(crate) fn blocks_for(payload: u32, n: u32) -> u32
    requires payload { IsPayload payload }
    requires few { n ≤ 4194303 }
    ensures is { result ≡ blocks_for (payload / 12) n }
    ensures few { result ≤ n }
{
    let per = payload / 12;
    (n + (per - 1)) / per
}

/// The block of level 1 in which the cut is, by the level above it; `None` where nothing is before
/// the cut. At most one read.
fn top_block<B: Blocks>(
    tree: &Tree,
    blocks: &mut B,
    through: bool,
    prefix: &Prefix,
) -> Result<Option<u32>, ReadFault>
    requires lies { Lies tree.now (B.device blocks.old).count }
    requires some { 1 < size_at tree.now 1 }
    ensures read { HasRead (B.device blocks.old) (B.device blocks.new) 1 }
    ensures failed { result ≡ Err ReadFault.Blocks → Rose (B.device blocks.old).faults (B.device blocks.new).faults }
    ensures within { IfOk result (λ o. IfSome o (λ b. b < size_at tree.now 2)) }
    ensures damaged { (image : List ℕ) (n : ℕ) → Tells (B.device blocks.old).image image
        → result ≡ Err (ReadFault.Damaged n) → is_sound tree.now.payload n (block_at n image) ≡ false }
    ensures inside { (image : List ℕ) (n : ℕ) → Tells (B.device blocks.old).image image
        → result ≡ Err (ReadFault.Damaged n) → n < (B.device blocks.old).count }
    ensures leads { (image : List ℕ) → Tells (B.device blocks.old).image image → AreLevels tree.now image
        → Leads (λ k. passes (stands_before through prefix.now) (key_at tree.now 1 k image)) (tree.now.payload / 12) (size_at tree.now 1) result }
{
    let payload = tree.payload;
    let middle = blocks_for(payload, tree.entries);
    let top = blocks_for(payload, middle);
    if top <= 1 {
        return Ok(Some(0));
    }
    let level = Level {
        first: tree.first + middle + top,
        size: top,
        payload,
    };
    block_in_level(level, blocks, 0, through, prefix)
}

/// The block of level 0 in which the cut is, by the levels above it; `None` where nothing is before
/// the cut. At most two reads.
fn leaf_block<B: Blocks>(
    tree: &Tree,
    blocks: &mut B,
    through: bool,
    prefix: &Prefix,
) -> Result<Option<u32>, ReadFault>
    requires lies { Lies tree.now (B.device blocks.old).count }
    requires some { 0 < tree.now.entries }
    ensures read { HasRead (B.device blocks.old) (B.device blocks.new) 2 }
    ensures failed { result ≡ Err ReadFault.Blocks → Rose (B.device blocks.old).faults (B.device blocks.new).faults }
    ensures within { IfOk result (λ o. IfSome o (λ b. b < size_at tree.now 1)) }
    ensures damaged { (image : List ℕ) (n : ℕ) → Tells (B.device blocks.old).image image
        → result ≡ Err (ReadFault.Damaged n) → is_sound tree.now.payload n (block_at n image) ≡ false }
    ensures inside { (image : List ℕ) (n : ℕ) → Tells (B.device blocks.old).image image
        → result ≡ Err (ReadFault.Damaged n) → n < (B.device blocks.old).count }
    ensures leads { (image : List ℕ) → Tells (B.device blocks.old).image image → AreLevels tree.now image
        → Leads (λ k. passes (stands_before through prefix.now) (key_at tree.now 0 k image)) (tree.now.payload / 12) (size_at tree.now 0) result }
{
    let payload = tree.payload;
    let middle = blocks_for(payload, tree.entries);
    if middle <= 1 {
        return Ok(Some(0));
    }
    match top_block(tree, blocks, through, prefix)? {
        None => Ok(None),
        Some(block) => {
            let level = Level {
                first: tree.first + middle,
                size: middle,
                payload,
            };
            block_in_level(level, blocks, block, through, prefix)
        }
    }
}

/// The number of entries before the keys with the prefix, or, `through` these, before what follows.
/// At most three reads.
pub(crate) fn cut_place<B: Blocks>(
    tree: &Tree,
    blocks: &mut B,
    through: bool,
    prefix: &Prefix,
) -> Result<u32, ReadFault>
    requires lies { Lies tree.now (B.device blocks.old).count }
    ensures read { HasRead (B.device blocks.old) (B.device blocks.new) 3 }
    ensures failed { result ≡ Err ReadFault.Blocks → Rose (B.device blocks.old).faults (B.device blocks.new).faults }
    ensures within { IfOk result (λ place. place ≤ tree.now.entries) }
    ensures damaged { (image : List ℕ) (n : ℕ) → Tells (B.device blocks.old).image image
        → result ≡ Err (ReadFault.Damaged n) → is_sound tree.now.payload n (block_at n image) ≡ false }
    ensures inside { (image : List ℕ) (n : ℕ) → Tells (B.device blocks.old).image image
        → result ≡ Err (ReadFault.Damaged n) → n < (B.device blocks.old).count }
    ensures edge { (image : List ℕ) → Tells (B.device blocks.old).image image → AreLevels tree.now image
        → IfOk result (IsEdgeAt tree.now 0 (stands_before through prefix.now) image) }
{
    if tree.entries == 0 {
        return Ok(0);
    }
    match leaf_block(tree, blocks, through, prefix)? {
        None => Ok(0),
        Some(block) => {
            let level = Level {
                first: tree.first,
                size: tree.entries,
                payload: tree.payload,
            };
            cut_in_level(level, blocks, block, through, prefix)
        }
    }
}
