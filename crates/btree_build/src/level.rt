// The blocks of one level.
ghost use Rattle.std.specs.Prelude.{◌≡◌, ◌≤◌, ◌++◌, ◌∷◌, [], length, replicate, IfOk, OnOk};
ghost use Rattle.std.specs.Int.{w32, to_be_bytes};
ghost use Rattle.btree_build.specs.Trees.{entry_bytes, list_bytes, block_bytes, level_of, above, IsPer};

use std::alloc::Global;
use term_core::{IdTriple, Memory};

fn push_zero(out: &mut Vec<u8>) -> Result<(), Memory>
    ensures { OnOk result (out.new.items ≡ out.old.items ++ 0 ∷ []) }
{
    out.extend_from_slice(&[0])?;
    Ok(())
}

fn put_zeros(out: &mut Vec<u8>, count: usize) -> Result<(), Memory>
    ensures { OnOk result (out.new.items ≡ out.old.items ++ replicate count 0) }
{
    for place in 0..count {
        push_zero(out)?;
    }
    Ok(())
}

/// An id in four bytes, the highest first.
fn push_id(out: &mut Vec<u8>, id: u32) -> Result<(), Memory>
    ensures { OnOk result (out.new.items ≡ out.old.items ++ to_be_bytes w32 id) }
{
    out.extend_from_slice(&id.to_be_bytes())?;
    Ok(())
}

fn push_entry(out: &mut Vec<u8>, entry: &IdTriple) -> Result<(), Memory>
    ensures { OnOk result (out.new.items ≡ out.old.items ++ entry_bytes entry.now) }
{
    push_id(out, entry.s)?;
    push_id(out, entry.p)?;
    push_id(out, entry.o)
}

/// Appends the bytes of the entries, 12 for each, one behind the other.
fn push_entries(out: &mut Vec<u8>, entries: &[IdTriple]) -> Result<(), Memory>
    ensures { OnOk result (out.new.items ≡ out.old.items ++ list_bytes entries.now) }
{
    for entry in entries {
        push_entry(out, entry)?;
    }
    Ok(())
}

/// Appends a block of the entries, with zeros behind them.
#[tactic(auto, unfolding(crate::specs::Trees::block_bytes))]
fn push_block(out: &mut Vec<u8>, entries: &[IdTriple]) -> Result<(), Memory>
    requires { length entries.now ≤ 341 }
    ensures { OnOk result (out.new.items ≡ out.old.items ++ block_bytes entries.now) }
{
    push_entries(out, entries)?;
    put_zeros(out, 4096 - 12 * entries.len())
}

fn push_first(out: &mut Vec<IdTriple>, entry: IdTriple) -> Result<(), Memory>
    ensures { OnOk result (out.new.items ≡ out.old.items ++ entry ∷ []) }
{
    match out.push(entry) {
        Ok(_) => Ok(()),
        Err(_) => Err(Memory),
    }
}

/// Appends the blocks of one level, and collects the first entry of each.
pub(crate) fn push_level(
    alloc: Global,
    out: &mut Vec<u8>,
    entries: &[IdTriple],
    per: usize,
) -> Result<Vec<IdTriple>, Memory>
    requires per { IsPer per }
    ensures bytes { OnOk result (out.new.items ≡ out.old.items ++ level_of per entries.now) }
    ensures above { IfOk result (λ up. up.items ≡ above per entries.now) }
{
    let mut up = Vec::new(alloc);
    let mut rest = entries;
    'filling: while rest.len() > 0 {
        let count = per.min(rest.len());
        let (front, back) = rest.split_at(count);
        push_block(out, front)?;
        push_first(&mut up, front[0])?;
        rest = back;
    }
    Ok(up)
}
