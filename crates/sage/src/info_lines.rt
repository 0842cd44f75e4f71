// The lines that tell what the header of a store file has.
ghost use Rattle.std.specs.Prelude.{◌≡◌, ◌<◌, ◌++◌, ℕ, List, Err, flat_map, string_bytes, IfOk, OnOk};
ghost use Rattle.sage_outside.specs.Causes.{Rose};
ghost use Rattle.sage_outside.specs.Blocks.{HasRead, Tells as TellsBytes, block_at};
ghost use Rattle.store_image.specs.Header.{IsBroken};
ghost use Rattle.triple_store.specs.Stores.{IsNoStore};
ghost use Rattle.sage.specs.InfoLines.{hex_digit, hex_byte, hex_of, number_lines, header_lines};
ghost use Rattle.sage.specs.StoreFiles.{TellHeader};

use sage_outside::Blocks;
use std::alloc::Global;
use term_core::Memory;
use triple_store::{Info, OpenFault, Store};

/// Why there are no lines of a header.
#[derive(Clone, Copy, Debug, PartialEq, Eq)]
pub enum HeaderFault {
    /// Memory ran out.
    Memory,
    /// The first block is no header of so many blocks.
    NotAStore,
    /// The first block has the mark of format 2 and not its tag.
    Damaged,
    /// The file is not there, or could not be opened, or its first block could not be read.
    Unread,
}

fn hex_digit(n: u8) -> u8
    requires { n < 16 }
    ensures { result ≡ hex_digit n }
{
    if n < 10 { b'0' + n } else { 87 + n }
}

/// Appends the two digits of a byte.
fn push_hex_byte(out: &mut Vec<u8>, byte: u8) -> Result<(), Memory>
    ensures { OnOk result (out.new.items ≡ out.old.items ++ hex_byte byte) }
{
    out.push(hex_digit(byte / 16))?;
    out.push(hex_digit(byte % 16))?;
    Ok(())
}

/// Appends the bytes in hexadecimal digits.
fn push_hex(out: &mut Vec<u8>, bytes: &[u8]) -> Result<(), Memory>
    ensures { OnOk result (out.new.items ≡ out.old.items ++ hex_of bytes.now) }
{
    for byte in bytes {
        push_hex_byte(out, *byte)?;
    }
    Ok(())
}

/// The lines of the format and the numbers.
fn number_lines<B: Blocks>(alloc: Global, store: &Store<B>) -> Result<String, Memory>
    ensures { IfOk result (λ lines. string_bytes lines ≡ number_lines store.now.header) }
{
    let Info {
        format,
        terms,
        triples,
        longest,
        blocks,
    } = store.info();
    Ok(format!(in alloc;
        "format {format}\nterms {terms}\ntriples {triples}\nlongest {longest}\nblocks {blocks}\n"
    )?)
}

/// The six lines that tell what the header of a store has. Nothing is read.
#[tactic(auto, unfolding(crate::specs::InfoLines::header_lines))]
fn store_lines<B: Blocks>(alloc: Global, store: &Store<B>) -> Result<Vec<u8>, Memory>
    ensures { IfOk result (λ lines. lines.items ≡ header_lines store.now.header) }
{
    let numbers = number_lines(alloc, store)?;
    let mut lines = Vec::from_slice(alloc, numbers.as_bytes())?;
    lines.extend_from_slice(b"data ")?;
    push_hex(&mut lines, store.data_id())?;
    lines.push(b'\n')?;
    Ok(lines)
}

/// The lines of the header of blocks, of which the first alone is read, and the blocks, which are
/// given back whatever came.
pub(crate) fn header_lines<B: Blocks>(alloc: Global, blocks: B) -> (Result<Vec<u8>, HeaderFault>, B)
    ensures read { HasRead (B.device blocks) (B.device result.1) 1 }
    ensures told { (image : List ℕ) → TellsBytes (B.device blocks).image image
        → IfOk result.0 (λ lines. TellHeader (block_at 0 image) (B.device blocks).count lines.items) }
    ensures not_a_store { (image : List ℕ) → TellsBytes (B.device blocks).image image
        → result.0 ≡ Err HeaderFault.NotAStore → IsNoStore (block_at 0 image) (B.device blocks).count }
    ensures damaged { (image : List ℕ) → TellsBytes (B.device blocks).image image
        → result.0 ≡ Err HeaderFault.Damaged → IsBroken (block_at 0 image) }
    ensures failed { result.0 ≡ Err HeaderFault.Unread → Rose (B.device blocks).faults (B.device result.1).faults }
{
    match Store::open(alloc, blocks) {
        Ok(store) => match store_lines(alloc, &store) {
            Ok(lines) => (Ok(lines), store.close()),
            Err(_) => (Err(HeaderFault::Memory), store.close()),
        },
        Err(unopened) => match unopened.fault {
            OpenFault::NotAStore => (Err(HeaderFault::NotAStore), unopened.blocks),
            OpenFault::Blocks => (Err(HeaderFault::Unread), unopened.blocks),
            OpenFault::Damaged { .. } => (Err(HeaderFault::Damaged), unopened.blocks),
            OpenFault::Memory => (Err(HeaderFault::Memory), unopened.blocks),
        },
    }
}
