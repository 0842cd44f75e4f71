// The adapter over an open file of std, read by blocks. It tells nothing of content.
ghost use Rattle.std.specs.Prelude.{◌≡◌, ◌<◌, ◌*◌, OnErr, nat_lt, length};
ghost use Rattle.sage_outside.specs.Causes.{Rose, counted};
ghost use Rattle.sage_outside.specs.Blocks.{IsFreshDevice, HasRead, HasBlock, block_count};

use crate::blocks_in_memory::block_count;
use crate::{Blocks, Failed};
use std::io;
use std::io::{Read, Seek, SeekFrom};

/// An open file as the blocks that it had when it was opened. Bytes that it no longer has are read
/// as zeros.
#[derive(Drop)]
pub struct FileBlocks<F> {
    file: F,
    size: u64,
    faults: u64,
    reads: u64,
}

impl<F: Read + Seek> FileBlocks<F> {
    /// The file, which has that size in bytes.
    pub(crate) fn new(file: F, size: u64) -> FileBlocks<F>
        ensures unread { IsFreshDevice (⟦<FileBlocks<F> as Blocks>⟧.device result) }
        ensures count { (⟦<FileBlocks<F> as Blocks>⟧.device result).count ≡ block_count size }
    {
        FileBlocks {
            file,
            size,
            faults: 0,
            reads: 0,
        }
    }

    /// Whether a read of it failed.
    pub(crate) fn has_failed(&self) -> bool
        ensures { result ≡ nat_lt 0 (⟦<FileBlocks<F> as Blocks>⟧.device self.now).faults }
    {
        self.faults > 0
    }
}

/// Fills the block with the file's bytes from that place on, and with zeros past the file's end.
fn fill_from<F: Read + Seek>(file: &mut F, at: u64, block: &mut [u8; 4096]) -> io::Result<()> {
    file.seek(SeekFrom::Start(at))?;
    let mut done = 0;
    'pieces: while done < block.len() {
        let count = file.read(&mut block[done..])?;
        if count == 0 {
            break;
        }
        done += count;
    }
    block[done..].fill(0);
    Ok(())
}

impl<F: Read + Seek> Blocks for FileBlocks<F> {
    ghost use Rattle.sage_outside.specs.BlockLaws.{untold, few_blocks};
    ghost use Rattle.sage_outside.specs.Held.{file_device};

    ghost device = { λ b. file_device b };

    fn blocks(&self) -> u32 {
        block_count(self.size)
    }

    fn read_block(&mut self, n: u32, block: &mut [u8; 4096]) -> Result<(), Failed>
        requires { n < (file_device self.old).count }
        ensures read { HasRead (file_device self.old) (file_device self.new) 1 }
        ensures failed { OnErr result (Rose (file_device self.old).faults (file_device self.new).faults) }
        ensures found { HasBlock (file_device self.old).image n block.new result }
        ensures counts { (file_device self.new).reads ≡ counted (file_device self.old).reads }
    {
        self.reads = self.reads.saturating_add(1);
        match fill_from(&mut self.file, 4096 * n as u64, block) {
            Ok(()) => Ok(()),
            Err(_) => {
                self.faults = self.faults.saturating_add(1);
                Err(Failed)
            }
        }
    }

    ghost whole = { λ b bytes tells. untold bytes (block_count b.size) tells };

    ghost few = { λ b. few_blocks b.size };
}
