// A search in one block.
ghost use Rattle.std.specs.Prelude.{◌≡◌, ◌<◌, ◌≤◌, ◌+◌, ◌*◌, ℕ, List, Err, IfOk, length, take, drop};
ghost use Rattle.sage_outside.specs.Causes.{Rose};
ghost use Rattle.sage_outside.specs.Blocks.{HasRead, Tells};
ghost use Rattle.sage_outside.specs.Parts.{IsPayload};
ghost use Rattle.btree_scan.specs.Entries.{entry_in, entry_of, IsEdgeOf, Searched};
ghost use Rattle.btree_scan.specs.Cuts.{stands_before};

use crate::prefix::{Prefix, is_before};
use sage_outside::{Blocks, ReadFault};
use term_core::IdTriple;

/// The entry that twelve bytes spell.
#[tactic(auto, unfolding(crate::specs::Entries::entry_in))]
fn entry_of(bytes: &[u8; 12]) -> IdTriple
    ensures { result ≡ entry_in bytes.now }
{
    IdTriple {
        s: u32::from_be_bytes([bytes[0], bytes[1], bytes[2], bytes[3]]),
        p: u32::from_be_bytes([bytes[4], bytes[5], bytes[6], bytes[7]]),
        o: u32::from_be_bytes([bytes[8], bytes[9], bytes[10], bytes[11]]),
    }
}

/// The entry at a place of bytes in memory.
pub(crate) fn entry_in_memory(bytes: &[u8], place: u32) -> IdTriple
    requires { 12 * place + 12 ≤ length bytes.now }
    ensures { result ≡ entry_of bytes.now place }
{
    let at = 12 * place as usize;
    let mut entry = [0; 12];
    entry.copy_from_slice(&bytes[at..at + 12]);
    entry_of(&entry)
}

/// A place among the first entries of bytes in memory: the key in front of it is before the cut, and
/// the one there is not.
fn cut_in_memory(bytes: &[u8], count: u32, through: bool, prefix: &Prefix) -> u32
    requires { 12 * count ≤ length bytes.now }
    ensures { IsEdgeOf (λ k. stands_before through prefix.now (entry_of bytes.now k)) 0 count result }
{
    let mut low = 0;
    let mut high = count;
    'halves: while low < high {
        let middle = low + (high - low) / 2;
        let key = entry_in_memory(bytes, middle);
        if is_before(through, prefix, &key) {
            low = middle + 1;
        } else {
            high = middle;
        }
    }
    low
}

/// The same in the first entries of block `n`, which are read into the room.
fn cut_in_room<B: Blocks>(
    blocks: &mut B,
    payload: u32,
    n: u32,
    count: u32,
    room: &mut [u8],
    through: bool,
    prefix: &Prefix,
) -> Result<u32, ReadFault>
    requires block { n < (B.device blocks.old).count }
    requires payload { IsPayload payload }
    requires count { 12 * count ≤ payload }
    requires room { length room.old ≡ 12 * count }
    ensures read { HasRead (B.device blocks.old) (B.device blocks.new) 1 }
    ensures failed { result ≡ Err ReadFault.Blocks → Rose (B.device blocks.old).faults (B.device blocks.new).faults }
    ensures within { IfOk result (λ place. place ≤ count) }
    ensures found { (image : List ℕ) → Tells (B.device blocks.old).image image
        → Searched payload n (stands_before through prefix.now) count image result }
{
    blocks.read_part(n, payload, 0, room)?;
    Ok(cut_in_memory(room, count, through, prefix))
}

/// The same in the first entries of block `n`, by one read.
pub(crate) fn cut_in_block<B: Blocks>(
    blocks: &mut B,
    payload: u32,
    n: u32,
    count: u32,
    through: bool,
    prefix: &Prefix,
) -> Result<u32, ReadFault>
    requires block { n < (B.device blocks.old).count }
    requires payload { IsPayload payload }
    requires count { 12 * count ≤ payload }
    ensures read { HasRead (B.device blocks.old) (B.device blocks.new) 1 }
    ensures failed { result ≡ Err ReadFault.Blocks → Rose (B.device blocks.old).faults (B.device blocks.new).faults }
    ensures within { IfOk result (λ place. place ≤ count) }
    ensures found { (image : List ℕ) → Tells (B.device blocks.old).image image
        → Searched payload n (stands_before through prefix.now) count image result }
{
    let mut bytes = [0; 4096];
    let room = &mut bytes[..12 * count as usize];
    cut_in_room(blocks, payload, n, count, room, through, prefix)
}
