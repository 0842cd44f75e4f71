// Entries by their places and by their keys.
ghost use Rattle.std.specs.Prelude.{◌≡◌, ◌<◌, ◌≤◌, ◌+◌, ◌*◌, ◌/◌, ◌%◌, ℕ, List, Err, IfOk, count_by, length, false};
ghost use Rattle.std.specs.Ordering.{is_lt};
ghost use Rattle.sage_outside.specs.Causes.{Rose};
ghost use Rattle.sage_outside.specs.Blocks.{HasRead, Tells, block_at};
ghost use Rattle.sage_outside.specs.Parts.{IsPayload, Reads, is_sound};
ghost use Rattle.term_core.specs.declared.pattern.IdTriple.{IdTriple};
ghost use Rattle.term_core.specs.Ids.{id_cmp};
ghost use Rattle.btree_scan.specs.Levels.{AreLevels, Lies, IsEdgeAt, Lists, key_at, key_in};
ghost use Rattle.btree_scan.specs.Cuts.{stands_before, IsKeyRange};

use crate::block::entry_in_memory;
use crate::prefix::Prefix;
use crate::search::cut_place;
use crate::tree::Tree;
use sage_outside::{Blocks, ReadFault};
use term_core::IdTriple;

/// The entry of a block at a place in it, which is read into the room.
fn entry_in_room<B: Blocks>(
    blocks: &mut B,
    payload: u32,
    n: u32,
    place: u32,
    room: &mut [u8],
) -> Result<IdTriple, ReadFault>
    requires block { n < (B.device blocks.old).count }
    requires payload { IsPayload payload }
    requires within { 12 * place + 12 ≤ payload }
    requires room { length room.old ≡ 12 }
    ensures read { HasRead (B.device blocks.old) (B.device blocks.new) 1 }
    ensures failed { result ≡ Err ReadFault.Blocks → Rose (B.device blocks.old).faults (B.device blocks.new).faults }
    ensures found { (image : List ℕ) → Tells (B.device blocks.old).image image → Reads (λ e. e) result (key_in payload n place image) }
{
    blocks.read_part(n, payload, 12 * place as usize, room)?;
    Ok(entry_in_memory(room, 0))
}

/// The entry at that place, its ids in the key order of the tree. One block is read.
///
/// `Blocks` comes only where a read failed, and `Damaged` exactly where the tag of its block does not
/// agree.
#[tactic(auto, unfolding(crate::specs::Levels::key_at))]
pub fn entry<B: Blocks>(tree: &Tree, blocks: &mut B, place: u32) -> Result<IdTriple, ReadFault>
    requires lies { Lies tree.now (B.device blocks.old).count }
    requires within { place < tree.now.entries }
    ensures read { HasRead (B.device blocks.old) (B.device blocks.new) 1 }
    ensures failed { result ≡ Err ReadFault.Blocks → Rose (B.device blocks.old).faults (B.device blocks.new).faults }
    ensures found { (image : List ℕ) → Tells (B.device blocks.old).image image → Reads (λ e. e) result (key_at tree.now 0 place image) }
{
    let per = tree.payload / 12;
    let mut bytes = [0; 12];
    entry_in_room(
        blocks,
        tree.payload,
        tree.first + place / per,
        place % per,
        &mut bytes,
    )
}

/// The number of entries below the key, in a tree of keys that rise strictly. In any other, a place
/// among the entries; where the levels agree, the entry in front of it is below the key, and the one
/// there is not.
///
/// At most three blocks are read, one of each level. `Blocks` comes only where a read failed, and
/// `Damaged` only where the tag of that block does not agree.
pub fn lower_bound<B: Blocks>(tree: &Tree, blocks: &mut B, key: &IdTriple) -> Result<u32, ReadFault>
    requires lies { Lies tree.now (B.device blocks.old).count }
    ensures read { HasRead (B.device blocks.old) (B.device blocks.new) 3 }
    ensures failed { result ≡ Err ReadFault.Blocks → Rose (B.device blocks.old).faults (B.device blocks.new).faults }
    ensures damaged { (image : List ℕ) (n : ℕ) → Tells (B.device blocks.old).image image
        → result ≡ Err (ReadFault.Damaged n) → is_sound tree.now.payload n (block_at n image) ≡ false }
    ensures inside { (image : List ℕ) (n : ℕ) → Tells (B.device blocks.old).image image
        → result ≡ Err (ReadFault.Damaged n) → n < (B.device blocks.old).count }
    ensures within { IfOk result (λ n. n ≤ tree.now.entries) }
    ensures edge { (image : List ℕ) → Tells (B.device blocks.old).image image → AreLevels tree.now image
        → IfOk result (IsEdgeAt tree.now 0 (λ e. is_lt (id_cmp e key.now)) image) }
    ensures found { (es : List IdTriple) (image : List ℕ) → Tells (B.device blocks.old).image image
        → Lists tree.now es image → IfOk result (λ n. n ≡ count_by (λ e. is_lt (id_cmp e key.now)) es) }
{
    let prefix = Prefix {
        len: 3,
        a: key.s,
        b: key.p,
        c: key.o,
    };
    cut_place(tree, blocks, false, &prefix)
}

/// The first place of the entries with that prefix, and the place behind the last of them, in a tree
/// of keys that rise strictly. Both are the same where there are none: the place at which they would
/// stand. The second is no less than the first, whatever the blocks hold.
///
/// At most six blocks are read. `Blocks` comes only where a read failed, and `Damaged` only where the
/// tag of that block does not agree.
pub fn range<B: Blocks>(
    tree: &Tree,
    blocks: &mut B,
    prefix: &Prefix,
) -> Result<(u32, u32), ReadFault>
    requires lies { Lies tree.now (B.device blocks.old).count }
    requires len { prefix.now.len ≤ 3 }
    ensures read { HasRead (B.device blocks.old) (B.device blocks.new) 6 }
    ensures failed { result ≡ Err ReadFault.Blocks → Rose (B.device blocks.old).faults (B.device blocks.new).faults }
    ensures damaged { (image : List ℕ) (n : ℕ) → Tells (B.device blocks.old).image image
        → result ≡ Err (ReadFault.Damaged n) → is_sound tree.now.payload n (block_at n image) ≡ false }
    ensures inside { (image : List ℕ) (n : ℕ) → Tells (B.device blocks.old).image image
        → result ≡ Err (ReadFault.Damaged n) → n < (B.device blocks.old).count }
    ensures within { IfOk result (λ x. (x.0 ≤ x.1) × (x.1 ≤ tree.now.entries)) }
    ensures found { (es : List IdTriple) (image : List ℕ) → Tells (B.device blocks.old).image image
        → Lists tree.now es image → IfOk result (λ x. IsKeyRange prefix.now es x.0 x.1) }
{
    let first = cut_place(tree, blocks, false, prefix)?;
    let end = cut_place(tree, blocks, true, prefix)?;
    Ok((first, end.max(first)))
}
