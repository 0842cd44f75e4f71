// Bytes in the payloads of blocks, and the tags behind these.
ghost use Rattle.std.specs.Prelude.{◌≡◌, ◌≤◌, ◌<◌, ◌+◌, ◌*◌, ◌/◌, ◌%◌, ◌-◌, ◌^◌, ◌++◌, length, take, drop, replicate, OnOk};
ghost use Rattle.sage_outside.specs.Parts.{IsPayload};
ghost use Rattle.sage_outside.specs.Blocks.{block_at};
ghost use Rattle.btree_build.specs.Trees.{blocks_for};
ghost use Rattle.store_image.specs.Format.{padded, spread, tagged, all_tagged};

use sage_outside::tag;
use term_core::Memory;

/// How many zeros fill so many bytes up to the end of a payload.
fn gap(payload: usize, size: usize) -> usize
    requires payload { IsPayload payload }
    requires fits { size < 2 ^ 63 }
    ensures is { result ≡ payload * blocks_for payload size - size }
    ensures few { result < 4096 }
{
    if payload == 4096 {
        4096 * ((size + 4095) / 4096) - size
    } else {
        4080 * ((size + 4079) / 4080) - size
    }
}

/// Appends zeros up to the end of a payload.
#[tactic(auto, unfolding(crate::specs::Format::padded))]
pub(crate) fn pad(out: &mut Vec<u8>, payload: usize) -> Result<(), Memory>
    requires { IsPayload payload }
    ensures { OnOk result (out.new.items ≡ padded payload out.old.items) }
{
    let size = out.len() + gap(payload, out.len());
    out.resize(size, 0)?;
    Ok(())
}

/// A block of that payload, with zeros where its tag is to stand.
fn block_of(payload: &[u8]) -> [u8; 4096]
    requires { length payload.now ≡ 4080 }
    ensures { result ≡ payload.now ++ replicate 16 0 }
{
    let mut block = [0; 4096];
    let (front, back) = block.split_at_mut(payload.len());
    front.copy_from_slice(payload);
    back.fill(0);
    block
}

/// Moves payload `number` of a file of format 2 to its block. What is behind that payload has been
/// moved before.
fn move_payload(bytes: &mut [u8], number: usize)
    requires { 4096 * (number + 1) ≤ length bytes.old }
    ensures { bytes.new ≡ take (4096 * number) bytes.old
        ++ ((take 4080 (drop (4080 * number) bytes.old) ++ replicate 16 0) ++ drop (4096 * (number + 1)) bytes.old) }
{
    let from = 4080 * number;
    let to = 4096 * number;
    let block = block_of(&bytes[from..from + 4080]);
    bytes[to..to + 4096].copy_from_slice(&block);
}

/// Moves the payloads of a file of format 2 apart, the last first.
fn move_payloads(bytes: &mut [u8], count: usize)
    requires { length bytes.old ≡ 4096 * count }
    ensures { bytes.new ≡ spread 4080 count bytes.old }
{
    let mut left = count;
    while left > 0 {
        left -= 1;
        move_payload(bytes, left);
    }
}

/// Appends zeros up to that size.
fn fill(out: &mut Vec<u8>, size: usize) -> Result<(), Memory>
    requires { length out.old.items ≤ size }
    ensures { OnOk result (out.new.items ≡ out.old.items ++ replicate (size - length out.old.items) 0) }
{
    out.resize(size, 0)?;
    Ok(())
}

/// Puts whole payloads into blocks, where they stand: no byte is held twice.
pub(crate) fn spread(out: &mut Vec<u8>, payload: usize) -> Result<(), Memory>
    requires payload { IsPayload payload }
    requires whole { length out.old.items % payload ≡ 0 }
    ensures { OnOk result (out.new.items ≡ spread payload (length out.old.items / payload) out.old.items) }
{
    if payload == 4096 {
        return Ok(());
    }
    let count = out.len() / 4080;
    fill(out, 4096 * count)?;
    move_payloads(out.as_mut_slice(), count);
    Ok(())
}

/// Puts the tag of block `number` behind its payload.
fn put_tag(bytes: &mut [u8], number: u32)
    requires { 4096 * (number + 1) ≤ length bytes.old }
    ensures { bytes.new ≡ take (4096 * number) bytes.old
        ++ (tagged 4080 number (block_at number bytes.old) ++ drop (4096 * (number + 1)) bytes.old) }
{
    let at = 4096 * number as usize;
    let tag = tag(number, &bytes[at..at + 4080]);
    bytes[at + 4080..at + 4096].copy_from_slice(&tag);
}

/// Puts the tags of the blocks behind their payloads, where the format has tags.
pub(crate) fn put_tags(bytes: &mut [u8], payload: u32, count: u32)
    requires payload { IsPayload payload }
    requires whole { length bytes.old ≡ 4096 * count }
    ensures { bytes.new ≡ all_tagged payload 0 count bytes.old }
{
    if payload == 4096 {
        return;
    }
    for number in 0..count {
        put_tag(bytes, number);
    }
}
