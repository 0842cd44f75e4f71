// The levels of a tree, one after the other.
ghost use Rattle.std.specs.Prelude.{◌≡◌, ◌≤◌, ◌/◌, ◌⊎◌, ◌++◌, length, IfOk, OnOk};
ghost use Rattle.btree_build.specs.Trees.{tree_bytes};

use crate::level::push_level;
use std::alloc::Global;
use term_core::{IdTriple, Items, Memory};

/// Appends the blocks of a tree of the entries, level 0 first: as `image`, behind what is there.
pub fn push_tree(
    alloc: Global,
    out: &mut Vec<u8>,
    entries: &[IdTriple],
    payload: u32,
) -> Result<(), Memory>
    requires few { length entries.now ≤ 4194303 }
    requires payload { (payload ≡ 4096) ⊎ (payload ≡ 4080) }
    ensures { OnOk result (out.new.items ≡ out.old.items ++ tree_bytes (payload / 12) 3 entries.now) }
{
    let per = payload as usize / 12;
    let middle = push_level(alloc, out, entries, per)?;
    if middle.len() <= 1 {
        return Ok(());
    }
    let top = push_level(alloc, out, middle.as_slice(), per)?;
    if top.len() <= 1 {
        return Ok(());
    }
    let _ = push_level(alloc, out, top.as_slice(), per)?;
    Ok(())
}

/// The blocks of a tree of the entries. Each block of 4,096 bytes keeps `payload` div 12 entries of
/// 12 bytes, and has zeros behind them. Level 0 has all entries; each next level has the first entry
/// of each block below, until a level has one block. An empty tree has no block, and three levels
/// are enough for any.
///
/// The fields of an entry are its ids in the key order of the tree. Readers search by this order,
/// so that the entries must rise strictly to be found; the layout is the same for any. The time and
/// the room are linear in the number of entries.
pub fn image(alloc: Global, entries: &[IdTriple], payload: u32) -> Result<Items<u8>, Memory>
    requires few { length entries.now ≤ 4194303 }
    requires payload { (payload ≡ 4096) ⊎ (payload ≡ 4080) }
    ensures { IfOk result (λ image. image ≡ tree_bytes (payload / 12) 3 entries.now) }
{
    let mut out = Vec::new(alloc);
    push_tree(alloc, &mut out, entries, payload)?;
    Ok(Items::from_vec(out))
}
