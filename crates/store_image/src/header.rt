//! The first block of a store file.
ghost use Rattle.std.specs.Prelude.{◌≡◌, ◌↔◌, ◌+◌, ◌*◌, ◌/◌, ◌^◌, ◌<◌, ◌≤◌, ◌++◌, IsTrue, OnOk, take, drop};
ghost use Rattle.std.specs.Int.{w32, to_be_bytes};
ghost use Rattle.sage_outside.specs.Parts.{IsPayload};
ghost use Rattle.btree_build.specs.Trees.{blocks_for};
ghost use Rattle.store_image.specs.declared.header.Header.{Header};
ghost use Rattle.store_image.specs.Format.{payload_of, mark_of};
ghost use Rattle.store_image.specs.Header.{place_blocks, tree_blocks, fixed_blocks, dict_of, tree_of, header_number, AreWithinFile, TellsHeader, header_bytes};

use crate::format::{format_of, has_tag, mark_of, payload_of};
use btree_scan::Tree;
use term_core::Memory;
use term_dict::Dict;

/// What the first block of a store file tells, and where the areas stand that follow it.
#[derive(Clone, Copy, Debug, PartialEq, Eq)]
pub struct Header {
    /// The format: 1, or 2, in which each block ends with a tag.
    pub format: u8,
    /// The number of blocks of the file, of 4,096 bytes each.
    pub blocks: u32,
    /// The number of terms.
    pub terms: u32,
    /// The number of triples.
    pub triples: u32,
    /// The bytes of the longest record.
    pub longest: u32,
    /// The name of the data.
    pub data_id: [u8; 32],
}

/// Why a block is not read as a header.
#[derive(Clone, Copy, Debug, PartialEq, Eq)]
pub enum HeaderFault {
    /// It begins with no mark, or its numbers break their limits, or the file lacks room for its areas.
    NotAStore,
    /// It has the mark of format 2, and not its tag.
    Damaged,
}

/// The payloads that so many things begin, of which each keeps `per`.
#[tactic(auto, unfolding(btree_build::specs::Trees::blocks_for))]
pub(crate) fn blocks_for(per: u64, count: u64) -> u64
    requires some { 0 < per }
    requires few { per ≤ 4096 }
    requires fits { count < 2 ^ 63 }
    ensures { result ≡ blocks_for per count }
{
    (count + (per - 1)) / per
}

/// The blocks of a level of so many entries.
fn level_blocks(payload: u32, entries: u64) -> u64
    requires payload { IsPayload payload }
    requires fits { entries < 2 ^ 32 }
    ensures is { result ≡ blocks_for (payload / 12) entries }
    ensures few { result ≤ entries }
{
    blocks_for(payload as u64 / 12, entries)
}

/// The blocks of a tree of so many entries, of at most three levels.
#[tactic(auto, unfolding(crate::specs::Header::tree_blocks))]
pub(crate) fn tree_blocks(payload: u32, entries: u32) -> u64
    requires { IsPayload payload }
    ensures is { result ≡ tree_blocks (payload / 12) 3 entries }
    ensures few { result ≤ 3 * entries }
{
    let low = level_blocks(payload, entries as u64);
    if low <= 1 {
        return low;
    }
    let middle = level_blocks(payload, low);
    if middle <= 1 {
        return low + middle;
    }
    low + middle + level_blocks(payload, middle)
}

/// The number of four bytes at a place, the highest first.
#[tactic(auto, unfolding(crate::specs::Header::header_number))]
fn number_at(block: &[u8; 4096], place: usize) -> u32
    requires { place + 4 ≤ 4096 }
    ensures { result ≡ header_number place block.now }
{
    let mut bytes = [0; 4];
    bytes.copy_from_slice(&block[place..place + 4]);
    u32::from_be_bytes(bytes)
}

/// The name of the data, behind the mark and the four numbers.
fn name_at(block: &[u8; 4096]) -> [u8; 32]
    ensures { result ≡ take 32 (drop 24 block.now) }
{
    let mut name = [0; 32];
    name.copy_from_slice(&block[24..56]);
    name
}

/// Appends the mark of a format.
fn push_mark(out: &mut Vec<u8>, format: u8) -> Result<(), Memory>
    ensures { OnOk result (out.new.items ≡ out.old.items ++ mark_of format) }
{
    out.extend_from_slice(&mark_of(format))?;
    Ok(())
}

/// Appends a number in four bytes, the highest first.
fn push_number(out: &mut Vec<u8>, number: u32) -> Result<(), Memory>
    ensures { OnOk result (out.new.items ≡ out.old.items ++ to_be_bytes w32 number) }
{
    out.extend_from_slice(&number.to_be_bytes())?;
    Ok(())
}

/// What a block tells behind the mark of a format.
fn told(format: u8, block: &[u8; 4096]) -> Header
    ensures format { result.format ≡ format }
    ensures blocks { result.blocks ≡ header_number 8 block.now }
    ensures terms { result.terms ≡ header_number 12 block.now }
    ensures triples { result.triples ≡ header_number 16 block.now }
    ensures longest { result.longest ≡ header_number 20 block.now }
    ensures name { result.data_id ≡ take 32 (drop 24 block.now) }
{
    Header {
        format,
        blocks: number_at(block, 8),
        terms: number_at(block, 12),
        triples: number_at(block, 16),
        longest: number_at(block, 20),
        data_id: name_at(block),
    }
}

impl Header {
    /// The header of a file of `count` blocks that its first block tells.
    ///
    /// The mark is looked at first, then, in format 2, the tag, and then the numbers. So `Damaged`
    /// comes exactly where the block has the mark of format 2 and not its tag, and `NotAStore`
    /// where else it is no header: the mark is another, or the numbers break their limits, or the
    /// file lacks room for its areas.
    pub fn read(block: &[u8; 4096], count: u32) -> Result<Header, HeaderFault>
        ensures { TellsHeader block.now count result }
    {
        let format = match format_of(block) {
            Some(format) => format,
            None => return Err(HeaderFault::NotAStore),
        };
        if !has_tag(format, block) {
            return Err(HeaderFault::Damaged);
        }
        let header = told(format, block);
        if header.is_within(count) {
            Ok(header)
        } else {
            Err(HeaderFault::NotAStore)
        }
    }

    /// Appends the header's bytes, without the zeros behind them: mark, four numbers, name.
    #[tactic(auto, unfolding(crate::specs::Header::header_bytes))]
    pub fn push(&self, out: &mut Vec<u8>) -> Result<(), Memory>
        ensures { OnOk result (out.new.items ≡ out.old.items ++ header_bytes self.now) }
    {
        push_mark(out, self.format)?;
        push_number(out, self.blocks)?;
        push_number(out, self.terms)?;
        push_number(out, self.triples)?;
        push_number(out, self.longest)?;
        out.extend_from_slice(&self.data_id)?;
        Ok(())
    }

    /// The bytes of a block that hold data: 4096 in format 1, and in format 2 the 4080 before the
    /// tag.
    pub fn payload(&self) -> u32
        ensures is { result ≡ payload_of self.now.format }
        ensures whole { IsPayload result }
    {
        payload_of(self.format)
    }

    /// The blocks of the numbers that tell where records begin.
    fn place_blocks(&self) -> u64
        ensures is { result ≡ place_blocks (payload_of self.now.format) self.now.terms }
        ensures few { result < 2 ^ 24 }
    {
        blocks_for(self.payload() as u64, 8 * (self.terms as u64 + 1))
    }

    /// The blocks of the header, the places and the three trees.
    fn fixed_blocks(&self) -> u64
        ensures is { result ≡ fixed_blocks (payload_of self.now.format) self.now.terms self.now.triples }
    {
        1 + self.place_blocks() + 3 * tree_blocks(self.payload(), self.triples)
    }

    /// Whether the numbers are within their limits, and a file of `count` blocks has room for all
    /// areas.
    fn is_within(&self, count: u32) -> bool
        ensures { IsTrue result ↔ AreWithinFile self.now count }
    {
        if self.blocks != count || self.triples > 4194303 {
            return false;
        }
        self.terms <= 3 * self.triples
            && self.longest <= 262153
            && self.fixed_blocks() <= self.blocks as u64
    }

    /// The dictionary: the numbers that tell where records begin follow the header, and the records
    /// follow them up to the trees.
    pub fn dict(&self) -> Dict
        ensures { result ≡ dict_of self.now }
    {
        Dict {
            places: 1,
            records: 1 + self.place_blocks() as u32,
            terms: self.terms,
            bytes: self.payload() as u64 * (self.blocks as u64).saturating_sub(self.fixed_blocks()),
            payload: self.payload(),
        }
    }

    /// The tree of an order: 0 is by subject, predicate and object, 1 by predicate, object and
    /// subject, 2 by object, subject and predicate. The three trees end where the file ends.
    pub fn tree(&self, order: u8) -> Tree
        ensures { result ≡ tree_of self.now order }
    {
        let behind = 3u8.saturating_sub(order) as u64 * tree_blocks(self.payload(), self.triples);
        Tree {
            first: (self.blocks as u64).saturating_sub(behind) as u32,
            entries: self.triples,
            payload: self.payload(),
        }
    }
}
