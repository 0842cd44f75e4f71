// Forms in memory, which fail at the calls of a list.
ghost use Rattle.std.specs.Prelude.{◌≡◌, ◌≤◌, ◌<◌, ◌++◌, ◌⊎◌, [], ℕ, List, length, MatchResult, IfSome, IfNone, IfOk, OnOk, OnErr, slice_get};
ghost use Rattle.std.specs.FinMap as map;
ghost use Rattle.std.specs.Io.{ReadsAtMost};
ghost use Rattle.sage_outside.specs.Shelf.{HasCause, FindsIn, FillsFrom, Started, Grown};
ghost use Rattle.sage_outside.specs.Sink.{Puts, HasSinkCause};

use crate::calls::Calls;
use crate::files_in_memory::{clear, extend, fill, find, place};
use crate::{Failed, MemStored, Shelf, ShelfFault, Sink};
use std::alloc::Global;

/// A sink in memory. A call of it fails exactly where its number is in a list or it finds no room.
#[derive(Debug, Drop)]
pub struct MemSink {
    calls: Calls,
    bytes: Vec<u8>,
}

impl MemSink {
    ghost use Rattle.sage_outside.specs.Calls.{calls_with};
    ghost use Rattle.sage_outside.specs.Held.{sink_calls};

    /// An empty sink whose calls with these numbers, counted from 0, are to fail.
    pub fn new(alloc: Global, fails: Vec<u64>) -> MemSink
        ensures written { ⟦<MemSink as Sink>⟧.written result ≡ Some [] }
        ensures faults { ⟦<MemSink as Sink>⟧.faults result ≡ 0 }
        ensures calls { sink_calls result ≡ calls_with fails }
    {
        MemSink {
            calls: Calls::new(fails),
            bytes: Vec::new(alloc),
        }
    }

    /// The bytes written.
    pub fn bytes(&self) -> &[u8]
        ensures { ⟦<MemSink as Sink>⟧.written self.now ≡ Some result.now }
    {
        &self.bytes
    }

    /// How many calls found no room. They are among the faults.
    pub fn cramped(&self) -> u64
        ensures told { result ≡ (sink_calls self.now).cramped }
        ensures part { result ≤ ⟦<MemSink as Sink>⟧.faults self.now }
    {
        self.calls.cramped()
    }
}

impl Sink for MemSink {
    ghost use Rattle.std.specs.Prelude.{Some};
    ghost use Rattle.sage_outside.specs.Calls.{Passes, FailsListed, FailsCramped};
    ghost use Rattle.sage_outside.specs.Held.{sink_bytes, sink_calls, sink_faults};

    ghost written = { λ sink. Some (sink_bytes sink) };

    ghost faults = { λ sink. sink_faults sink };

    fn put(&mut self, piece: &[u8]) -> Result<(), Failed>
        ensures cause { HasSinkCause (sink_faults self.old) (sink_faults self.new) result }
        ensures puts { Puts (Some (sink_bytes self.old)) (Some (sink_bytes self.new)) piece.now result }
        ensures by_list { MatchResult result (λ _. Passes (sink_calls self.old) (sink_calls self.new))
            (λ _. FailsListed (sink_calls self.old) (sink_calls self.new)
            ⊎ FailsCramped (sink_calls self.old) (sink_calls self.new)) }
    {
        if self.calls.begin() {
            self.calls.refuse();
            return Err(Failed);
        }
        match self.bytes.extend_from_slice(piece) {
            Ok(()) => Ok(()),
            Err(_) => {
                self.calls.cramp();
                Err(Failed)
            }
        }
    }
}

/// A file of a shelf in memory.
#[derive(Debug, Drop)]
pub struct MemFile {
    /// Its name.
    pub name: String,
    /// Its content.
    pub bytes: Vec<u8>,
}

/// Files in memory. A call that does not answer `Missing` fails exactly where its number is in a
/// list or, in `start`, `append` and `open`, it finds no room. `close` cannot fail and has no
/// number, and the reads of an opened file are numbered apart.
#[derive(Debug, Drop)]
pub struct MemShelf {
    alloc: Global,
    calls: Calls,
    files: Vec<MemFile>,
}

impl MemShelf {
    ghost use Rattle.sage_outside.specs.Calls.{calls_with};
    ghost use Rattle.sage_outside.specs.Held.{shelf_calls};
    ghost use Rattle.sage_outside.specs.Memory.{files_of};

    /// A shelf with these files, of which the first of each name counts. Its calls with the
    /// numbers of `fails`, counted from 0 over all of them, are to fail.
    pub fn new(alloc: Global, files: Vec<MemFile>, fails: Vec<u64>) -> MemShelf
        ensures files { ⟦<MemShelf as Shelf>⟧.files result ≡ Some (files_of files.items) }
        ensures faults { ⟦<MemShelf as Shelf>⟧.faults result ≡ 0 }
        ensures calls { shelf_calls result ≡ calls_with fails }
    {
        MemShelf {
            alloc,
            calls: Calls::new(fails),
            files,
        }
    }

    /// How many calls found no room. They are among the faults.
    pub fn cramped(&self) -> u64
        ensures told { result ≡ (shelf_calls self.now).cramped }
        ensures part { result ≤ ⟦<MemShelf as Shelf>⟧.faults self.now }
    {
        self.calls.cramped()
    }
}

impl Shelf for MemShelf {
    ghost use Rattle.std.specs.Prelude.{Some};
    ghost use Rattle.sage_outside.specs.Causes.{Rose};
    ghost use Rattle.sage_outside.specs.Blocks.{IsFreshDevice, image_of};
    ghost use Rattle.sage_outside.specs.Calls.{FailsByList, FailsByListOrRoom, IsNumberedOn, ClosesAfter};
    ghost use Rattle.sage_outside.specs.Held.{shelf_files, shelf_calls, shelf_faults, stored_device, stored_calls};

    type File = MemStored;

    ghost files = { λ shelf. Some (shelf_files shelf) };

    ghost faults = { λ shelf. shelf_faults shelf };

    fn size(&mut self, name: &str) -> Result<u64, ShelfFault>
        ensures cause { HasCause (Some (shelf_files self.old)) name.now
            (shelf_faults self.old) (shelf_faults self.new) result }
        ensures found { FindsIn (λ bytes n. n ≡ length bytes) (Some (shelf_files self.old)) name.now result }
        ensures same { shelf_files self.new ≡ shelf_files self.old }
        ensures by_list { FailsByList (shelf_calls self.old) (shelf_calls self.new) result }
    {
        let fails = self.calls.begin();
        let bytes = find(&self.files, name).ok_or(ShelfFault::Missing)?;
        if fails {
            self.calls.refuse();
            return Err(ShelfFault::Failed);
        }
        Ok(bytes.len() as u64)
    }

    fn read_at(&mut self, name: &str, at: u64, buf: &mut [u8]) -> Result<usize, ShelfFault>
        requires { 0 < length buf.old }
        ensures cause { HasCause (Some (shelf_files self.old)) name.now
            (shelf_faults self.old) (shelf_faults self.new) result }
        ensures bound { ReadsAtMost result buf.new }
        ensures found { FindsIn (FillsFrom at buf.old buf.new)
            (Some (shelf_files self.old)) name.now result }
        ensures same { shelf_files self.new ≡ shelf_files self.old }
        ensures by_list { FailsByList (shelf_calls self.old) (shelf_calls self.new) result }
    {
        let fails = self.calls.begin();
        let bytes = find(&self.files, name).ok_or(ShelfFault::Missing)?;
        if fails {
            self.calls.refuse();
            return Err(ShelfFault::Failed);
        }
        Ok(fill(buf, bytes, at))
    }

    fn start(&mut self, name: &str) -> Result<(), ShelfFault>
        ensures cause { HasCause (Some (shelf_files self.old)) name.now
            (shelf_faults self.old) (shelf_faults self.new) result }
        ensures never_missing { result ≡ Err ShelfFault.Missing → ⊥ }
        ensures started { Started (Some (shelf_files self.old)) (Some (shelf_files self.new))
            name.now result }
        ensures by_list { FailsByListOrRoom (shelf_calls self.old) (shelf_calls self.new) result }
    {
        if self.calls.begin() {
            self.calls.refuse();
            return Err(ShelfFault::Failed);
        }
        match clear(self.alloc, &mut self.files, name) {
            Ok(()) => Ok(()),
            Err(_) => {
                self.calls.cramp();
                Err(ShelfFault::Failed)
            }
        }
    }

    #[tactic(auto, using(crate::proofs::Places::fails_there, crate::proofs::Places::done_there))]
    fn append(&mut self, name: &str, piece: &[u8]) -> Result<(), ShelfFault>
        ensures cause { HasCause (Some (shelf_files self.old)) name.now
            (shelf_faults self.old) (shelf_faults self.new) result }
        ensures found { FindsIn (λ _ _. Unit {0}) (Some (shelf_files self.old)) name.now result }
        ensures grown { Grown (Some (shelf_files self.old)) (Some (shelf_files self.new))
            name.now piece.now result }
        ensures by_list { FailsByListOrRoom (shelf_calls self.old) (shelf_calls self.new) result }
    {
        let fails = self.calls.begin();
        let Some(at) = place(&self.files, name) else {
            return Err(ShelfFault::Missing);
        };
        if fails {
            self.calls.refuse();
            return Err(ShelfFault::Failed);
        }
        match extend(&mut self.files, at, name, piece) {
            Ok(()) => Ok(()),
            Err(_) => {
                self.calls.cramp();
                Err(ShelfFault::Failed)
            }
        }
    }

    fn open(&mut self, name: &str) -> Result<MemStored, ShelfFault>
        ensures cause { HasCause (Some (shelf_files self.old)) name.now
            (shelf_faults self.old) (shelf_faults self.new) result }
        ensures unread { IfOk result (λ file. IsFreshDevice (stored_device file)) }
        ensures found { FindsIn (λ bytes file. (stored_device file).image ≡ Some (image_of bytes))
            (Some (shelf_files self.old)) name.now result }
        ensures same { shelf_files self.new ≡ shelf_files self.old }
        ensures by_list { FailsByListOrRoom (shelf_calls self.old) (shelf_calls self.new) result }
        ensures numbered { IfOk result (λ file. IsNumberedOn (shelf_calls self.new) (stored_calls file)) }
    {
        let fails = self.calls.begin();
        let bytes = find(&self.files, name).ok_or(ShelfFault::Missing)?;
        if fails {
            self.calls.refuse();
            return Err(ShelfFault::Failed);
        }
        match MemStored::copy_of(self.alloc, &self.calls, bytes) {
            Ok(file) => Ok(file),
            Err(_) => {
                self.calls.cramp();
                Err(ShelfFault::Failed)
            }
        }
    }

    fn close(&mut self, file: MemStored)
        ensures later { shelf_faults self.old ≤ shelf_faults self.new }
        ensures failed { 0 < (stored_device file).faults → Rose (shelf_faults self.old) (shelf_faults self.new) }
        ensures kept { (stored_device file).faults ≡ 0 → shelf_faults self.new ≡ shelf_faults self.old }
        ensures same { shelf_files self.new ≡ shelf_files self.old }
        ensures counts { ClosesAfter (stored_device file).faults (shelf_calls self.old) (shelf_calls self.new) }
    {
        if file.has_failed() {
            self.calls.refuse();
        }
    }
}
