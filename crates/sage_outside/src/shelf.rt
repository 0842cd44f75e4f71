// Named files.
ghost use Rattle.std.specs.Prelude.{◌≡◌, ◌<◌, ◌≤◌, ℕ, Option, Some, IfOk, length};
ghost use Rattle.std.specs.Io.{ReadsAtMost};
ghost use Rattle.sage_outside.specs.Causes.{Rose};
ghost use Rattle.sage_outside.specs.Blocks.{IsFreshDevice, image_of};
ghost use Rattle.sage_outside.specs.Shelf.{Files, HasCause, FindsIn, FillsFrom, Started, Grown};

use crate::Blocks;

/// Why a call of a shelf has no answer.
#[derive(Clone, Copy, Debug, PartialEq, Eq)]
pub enum ShelfFault {
    /// The shelf has no file of that name.
    Missing,
    /// The call failed, and the shelf counted it.
    Failed,
}

/// Named files, as a folder of a file system has them. A name is its bytes, compared one by one;
/// places and lengths are in bytes.
pub trait Shelf {
    /// An opened file, which owns what it needs.
    type File: Blocks;

    /// The bytes of each name, where the shelf tells. Only `start` and `append` change them.
    ghost files: { Self → Option Files };

    /// How often a call has failed. It never falls, and stands still at 2^64 - 1.
    ghost faults: { Self → ℕ };

    /// The length of the file, in bytes.
    ///
    /// `Missing` comes exactly where the told files lack the name, and over files that are not
    /// told only where a fault was counted; `Failed` comes only where a fault was counted.
    fn size(&mut self, name: &str) -> Result<u64, ShelfFault>
        ensures cause { HasCause (files self.old) name.now (faults self.old) (faults self.new) result }
        ensures found { FindsIn (λ bytes n. n ≡ length bytes) (files self.old) name.now result }
        ensures same { files self.new ≡ files self.old };

    /// Fills a front of the buffer with the file's bytes from place `at`, and answers how many.
    /// 0 means that the place is at or past the end. Large buffers make few calls.
    ///
    /// `Missing` and `Failed` come as in `size`; then nothing is said of the buffer.
    fn read_at(&mut self, name: &str, at: u64, buf: &mut [u8]) -> Result<usize, ShelfFault>
        requires { 0 < length buf.old }
        ensures cause { HasCause (files self.old) name.now (faults self.old) (faults self.new) result }
        ensures bound { ReadsAtMost result buf.new }
        ensures found { FindsIn (FillsFrom at buf.old buf.new) (files self.old) name.now result }
        ensures same { files self.new ≡ files self.old };

    /// Makes the file empty, whether it was there or not. After `Failed` it is as it was or empty.
    fn start(&mut self, name: &str) -> Result<(), ShelfFault>
        ensures cause { HasCause (files self.old) name.now (faults self.old) (faults self.new) result }
        ensures never_missing { result ≡ Err ShelfFault.Missing → ⊥ }
        ensures started { Started (files self.old) (files self.new) name.now result };

    /// Adds the piece at the end of the file. After `Failed` a front of the piece was added;
    /// `Missing` comes as in `size`, and changes nothing.
    fn append(&mut self, name: &str, piece: &[u8]) -> Result<(), ShelfFault>
        ensures cause { HasCause (files self.old) name.now (faults self.old) (faults self.new) result }
        ensures found { FindsIn (λ _ _. Unit {0}) (files self.old) name.now result }
        ensures grown { Grown (files self.old) (files self.new) name.now piece.now result };

    /// The file as blocks, with zeros behind its bytes to the end of the last block. It has no
    /// more than 4,294,967,295 blocks; what stands behind them is left out. No call of it failed
    /// yet, and no read was counted. `Missing` and `Failed` come as in `size`.
    fn open(&mut self, name: &str) -> Result<Self::File, ShelfFault>
        ensures cause { HasCause (files self.old) name.now (faults self.old) (faults self.new) result }
        ensures unread { IfOk result (λ file. IsFreshDevice (Self.File.device file)) }
        ensures found { FindsIn (λ bytes file. (Self.File.device file).image ≡ Some (image_of bytes))
            (files self.old) name.now result }
        ensures same { files self.new ≡ files self.old };

    /// Takes back an opened file. A fault is counted here exactly where a read of it failed.
    fn close(&mut self, file: Self::File)
        ensures later { faults self.old ≤ faults self.new }
        ensures failed { 0 < (Self.File.device file).faults → Rose (faults self.old) (faults self.new) }
        ensures kept { (Self.File.device file).faults ≡ 0 → faults self.new ≡ faults self.old }
        ensures same { files self.new ≡ files self.old };
}
