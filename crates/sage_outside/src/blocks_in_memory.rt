// Blocks of bytes in memory.
ghost use Rattle.std.specs.Prelude.{◌≡◌, ◌≤◌, ◌<◌, ◌-◌, ◌*◌, ◌++◌, length, take, drop, replicate, nat_lt, IfOk, IsOk, OnErr, MatchResult};
ghost use Rattle.sage_outside.specs.Causes.{Rose};
ghost use Rattle.sage_outside.specs.Blocks.{Device, HasRead, HasBlock, block_at, image_of};

use crate::calls::Calls;
use crate::{Blocks, Failed};
use std::alloc::{AllocError, Global};

/// The blocks that so many bytes begin, at most 4,294,967,295.
pub fn block_count(size: u64) -> u32
    ensures { result ≡ Rattle.sage_outside.specs.Blocks.block_count size }
{
    let part = if size % 4096 == 0 { 0 } else { 1 };
    (size / 4096 + part).min(4294967295) as u32
}

/// The piece, with zeros behind it.
fn put_front(piece: &[u8], block: &mut [u8; 4096])
    requires { length piece.now ≤ 4096 }
    ensures { block.new ≡ piece.now ++ replicate (4096 - length piece.now) 0 }
{
    let (front, back) = block.split_at_mut(piece.len());
    front.copy_from_slice(piece);
    back.fill(0);
}

/// What stands behind so many bytes.
fn skip(bytes: &[u8], count: usize) -> &[u8]
    ensures { result.now ≡ drop count bytes.now }
{
    if count < bytes.len() {
        &bytes[count..]
    } else {
        &[]
    }
}

/// At most so many bytes from the start on.
fn front(bytes: &[u8], count: usize) -> &[u8]
    ensures front { result.now ≡ take count bytes.now }
    ensures short { length result.now ≤ count }
{
    if count < bytes.len() {
        &bytes[..count]
    } else {
        bytes
    }
}

/// Fills the buffer with block `n` of the bytes, with zeros behind them.
#[tactic(auto, using(crate::proofs::Zeros::block_in_image))]
fn fill(bytes: &[u8], n: u32, block: &mut [u8; 4096])
    requires { n < Rattle.sage_outside.specs.Blocks.block_count (length bytes.now) }
    ensures { block.new ≡ block_at n (image_of bytes.now) }
{
    let rest = skip(bytes, 4096 * n as usize);
    put_front(front(rest, 4096), block);
}

/// Blocks of bytes in memory. A read of them fails exactly where its number is in a list.
#[derive(Debug, Drop)]
pub struct MemBlocks<'a> {
    calls: Calls,
    bytes: &'a [u8],
    reads: u64,
}

impl<'a> MemBlocks<'a> {
    ghost use Rattle.std.specs.Prelude.{Some};
    ghost use Rattle.sage_outside.specs.Calls.{calls_with};
    ghost use Rattle.sage_outside.specs.Held.{blocks_calls};
    ghost use Rattle.sage_outside.specs.Blocks.{IsFreshDevice};

    /// The bytes with zeros behind them to the end of a block. The reads with the numbers of
    /// `fails`, counted from 0, are to fail.
    pub fn new(image: &'a [u8], fails: Vec<u64>) -> MemBlocks<'a>
        ensures image { (⟦<MemBlocks<'a> as Blocks>⟧.device result).image ≡ Some (image_of image.now) }
        ensures unread { IsFreshDevice (⟦<MemBlocks<'a> as Blocks>⟧.device result) }
        ensures calls { blocks_calls result ≡ calls_with fails }
    {
        MemBlocks {
            calls: Calls::new(fails),
            bytes: image,
            reads: 0,
        }
    }

    /// How many reads were counted: each call of `read_block`, also one that failed.
    pub fn reads(&self) -> u64
        ensures { result ≡ (⟦<MemBlocks<'a> as Blocks>⟧.device self.now).reads }
    {
        self.reads
    }

    /// How many calls found no room. They are among the faults, and no read needs any.
    pub fn cramped(&self) -> u64
        ensures told { result ≡ (blocks_calls self.now).cramped }
        ensures part { result ≤ (⟦<MemBlocks<'a> as Blocks>⟧.device self.now).faults }
    {
        self.calls.cramped()
    }
}

impl<'a> Blocks for MemBlocks<'a> {
    ghost use Rattle.sage_outside.specs.Calls.{Passes, FailsListed};
    ghost use Rattle.sage_outside.specs.Causes.{counted};
    ghost use Rattle.sage_outside.specs.Held.{mem_device, blocks_calls};
    ghost use Rattle.sage_outside.specs.BlockLaws.{whole_image, few_blocks};

    ghost device = { λ b. mem_device b };

    fn blocks(&self) -> u32 {
        block_count(self.bytes.len() as u64)
    }

    fn read_block(&mut self, n: u32, block: &mut [u8; 4096]) -> Result<(), Failed>
        requires { n < (mem_device self.old).count }
        ensures read { HasRead (mem_device self.old) (mem_device self.new) 1 }
        ensures failed { OnErr result (Rose (mem_device self.old).faults (mem_device self.new).faults) }
        ensures found { HasBlock (mem_device self.old).image n block.new result }
        ensures by_list { MatchResult result (λ _. Passes (blocks_calls self.old) (blocks_calls self.new))
            (λ _. FailsListed (blocks_calls self.old) (blocks_calls self.new)) }
        ensures counts { (mem_device self.new).reads ≡ counted (mem_device self.old).reads }
    {
        self.reads = self.reads.saturating_add(1);
        if self.calls.begin() {
            self.calls.refuse();
            return Err(Failed);
        }
        fill(self.bytes, n, block);
        Ok(())
    }

    ghost whole = { λ b bytes tells. whole_image b.bytes.now bytes tells };

    ghost few = { λ b. few_blocks (length b.bytes.now) };
}

/// Blocks of bytes in memory that never fail.
#[derive(Debug, Drop)]
pub struct NeverBlocks<'a> {
    bytes: &'a [u8],
    reads: u64,
}

impl<'a> NeverBlocks<'a> {
    ghost use Rattle.std.specs.Prelude.{Some};
    ghost use Rattle.sage_outside.specs.Blocks.{IsFreshDevice};

    /// The bytes with zeros behind them to the end of a block.
    pub fn new(image: &'a [u8]) -> NeverBlocks<'a>
        ensures image { (⟦<NeverBlocks<'a> as Blocks>⟧.device result).image ≡ Some (image_of image.now) }
        ensures unread { IsFreshDevice (⟦<NeverBlocks<'a> as Blocks>⟧.device result) }
    {
        NeverBlocks {
            bytes: image,
            reads: 0,
        }
    }
}

impl<'a> Blocks for NeverBlocks<'a> {
    ghost use Rattle.sage_outside.specs.Causes.{counted};
    ghost use Rattle.sage_outside.specs.Held.{never_device};
    ghost use Rattle.sage_outside.specs.BlockLaws.{whole_image, few_blocks};

    ghost device = { λ b. never_device b };

    fn blocks(&self) -> u32 {
        block_count(self.bytes.len() as u64)
    }

    fn read_block(&mut self, n: u32, block: &mut [u8; 4096]) -> Result<(), Failed>
        requires { n < (never_device self.old).count }
        ensures read { HasRead (never_device self.old) (never_device self.new) 1 }
        ensures failed { OnErr result (Rose (never_device self.old).faults (never_device self.new).faults) }
        ensures found { HasBlock (never_device self.old).image n block.new result }
        ensures never_fails { IsOk result }
        ensures counts { (never_device self.new).reads ≡ counted (never_device self.old).reads }
    {
        self.reads = self.reads.saturating_add(1);
        fill(self.bytes, n, block);
        Ok(())
    }

    ghost whole = { λ b bytes tells. whole_image b.bytes.now bytes tells };

    ghost few = { λ b. few_blocks (length b.bytes.now) };
}

/// An opened file of a shelf in memory, with a copy of its bytes. Its reads are numbered on from
/// the calls of the shelf, and one fails exactly where its number is in the shelf's list.
#[derive(Debug, Drop)]
pub struct MemStored {
    calls: Calls,
    bytes: Vec<u8>,
    reads: u64,
}

impl MemStored {
    ghost use Rattle.std.specs.Prelude.{Some};
    ghost use Rattle.sage_outside.specs.Calls.{IsNumberedOn};
    ghost use Rattle.sage_outside.specs.Held.{stored_calls};
    ghost use Rattle.sage_outside.specs.Blocks.{IsFreshDevice};

    /// A copy of the bytes, whose calls are numbered on from these.
    pub(crate) fn copy_of(
        alloc: Global,
        calls: &Calls,
        bytes: &[u8],
    ) -> Result<MemStored, AllocError>
        ensures image { IfOk result (λ file. (⟦<MemStored as Blocks>⟧.device file).image ≡ Some (image_of bytes.now)) }
        ensures unread { IfOk result (λ file. IsFreshDevice (⟦<MemStored as Blocks>⟧.device file)) }
        ensures calls { IfOk result (λ file. IsNumberedOn calls.now (stored_calls file)) }
    {
        Ok(MemStored {
            calls: calls.numbered_on(alloc)?,
            bytes: Vec::from_slice(alloc, bytes)?,
            reads: 0,
        })
    }

    /// How many calls found no room. They are among the faults, and no read needs any.
    pub fn cramped(&self) -> u64
        ensures told { result ≡ (stored_calls self.now).cramped }
        ensures part { result ≤ (⟦<MemStored as Blocks>⟧.device self.now).faults }
    {
        self.calls.cramped()
    }

    /// Whether a read of it failed.
    pub(crate) fn has_failed(&self) -> bool
        ensures { result ≡ nat_lt 0 (⟦<MemStored as Blocks>⟧.device self.now).faults }
    {
        self.calls.has_failed()
    }
}

impl Blocks for MemStored {
    ghost use Rattle.sage_outside.specs.Calls.{Passes, FailsListed};
    ghost use Rattle.sage_outside.specs.Causes.{counted};
    ghost use Rattle.sage_outside.specs.Held.{stored_device, stored_calls};
    ghost use Rattle.sage_outside.specs.BlockLaws.{whole_image, few_blocks};

    ghost device = { λ b. stored_device b };

    fn blocks(&self) -> u32 {
        block_count(self.bytes.len() as u64)
    }

    fn read_block(&mut self, n: u32, block: &mut [u8; 4096]) -> Result<(), Failed>
        requires { n < (stored_device self.old).count }
        ensures read { HasRead (stored_device self.old) (stored_device self.new) 1 }
        ensures failed { OnErr result (Rose (stored_device self.old).faults (stored_device self.new).faults) }
        ensures found { HasBlock (stored_device self.old).image n block.new result }
        ensures by_list { MatchResult result (λ _. Passes (stored_calls self.old) (stored_calls self.new))
            (λ _. FailsListed (stored_calls self.old) (stored_calls self.new)) }
        ensures counts { (stored_device self.new).reads ≡ counted (stored_device self.old).reads }
    {
        self.reads = self.reads.saturating_add(1);
        if self.calls.begin() {
            self.calls.refuse();
            return Err(Failed);
        }
        fill(&self.bytes, n, block);
        Ok(())
    }

    ghost whole = { λ b bytes tells. whole_image b.bytes.items bytes tells };

    ghost few = { λ b. few_blocks (length b.bytes.items) };
}
