// Adapters over std's files and writers. They tell nothing of content.
ghost use Rattle.std.specs.Prelude.{◌≡◌, ◌≤◌, None, IsErr, IfOk};
ghost use Rattle.std.specs.Io.{ReadsAtMost};
ghost use Rattle.sage_outside.specs.Causes.{Rose};
ghost use Rattle.sage_outside.specs.Blocks.{IsFreshDevice};

use crate::{Blocks, Failed, FileBlocks, Shelf, ShelfFault, Sink};
use std::alloc::Global;
use std::fs::{OpenFile, OpenOptions};
use std::io::{ErrorKind, Read, Seek, SeekFrom, Write};
use std::rt::Files;
use std::{fs, io};

/// An open file with the name that it was opened by, unless no memory was found for the name, and
/// the place at which it stands.
#[derive(Drop)]
struct Opened<F> {
    name: Option<String>,
    place: u64,
    file: F,
}

/// The files of the system, by their paths. The file that was read last is kept open, so that a
/// file that is read piece by piece is opened once, and a pipe can be read from its start on.
#[derive(Drop)]
pub struct FileShelf<R: Files> {
    alloc: Global,
    rt: R,
    kept: Option<Opened<R::File>>,
    faults: u64,
}

impl<R: Files + Drop> FileShelf<R> {
    /// The files that this runtime reaches. Memory is taken for the name of the file that is kept
    /// open, and where none is found the file is opened anew.
    pub fn new(alloc: Global, rt: R) -> FileShelf<R>
        ensures { ⟦<FileShelf<R> as Shelf>⟧.faults result ≡ 0 }
    {
        FileShelf {
            alloc,
            rt,
            kept: None,
            faults: 0,
        }
    }

    fn fail(&mut self)
        ensures later { self.old.faults ≤ self.new.faults }
        ensures rose { Rose self.old.faults self.new.faults }
    {
        self.faults = self.faults.saturating_add(1);
    }

    /// The fault of a call that ended with this error, which it counts.
    fn refuse(&mut self, error: &io::Error) -> ShelfFault
        ensures later { self.old.faults ≤ self.new.faults }
        ensures rose { Rose self.old.faults self.new.faults }
    {
        self.fail();
        match error.kind() {
            ErrorKind::NotFound => ShelfFault::Missing,
            _ => ShelfFault::Failed,
        }
    }

    /// The file of that name: the one that is kept, or else opened now.
    fn opened(&mut self, name: &str) -> io::Result<Opened<R::File>>
        ensures same { self.new.faults ≡ self.old.faults }
    {
        if let Some(opened) = self.kept.take() {
            if opened.name.as_deref() == Some(name) {
                return Ok(opened);
            }
        }
        let file = fs::open(&self.rt, name)?;
        let name = String::from_str(self.alloc, name).ok();
        Ok(Opened {
            name,
            place: 0,
            file,
        })
    }

    fn size_of(&mut self, name: &str) -> io::Result<u64>
        ensures same { self.new.faults ≡ self.old.faults }
    {
        let opened = self.opened(name)?;
        let size = opened.file.metadata()?.len();
        self.kept = Some(opened);
        Ok(size)
    }

    fn blocks_of(&self, name: &str) -> io::Result<FileBlocks<R::File>>
        ensures unread { IfOk result (λ file. IsFreshDevice (⟦<FileBlocks<R::File> as Blocks>⟧.device file)) }
    {
        let file = fs::open(&self.rt, name)?;
        let size = file.metadata()?.len();
        Ok(FileBlocks::new(file, size))
    }

    fn read_from(&mut self, name: &str, at: u64, buf: &mut [u8]) -> io::Result<usize>
        ensures bound { ReadsAtMost result buf.new }
        ensures same { self.new.faults ≡ self.old.faults }
    {
        let mut opened = self.opened(name)?;
        if opened.place != at {
            opened.file.seek(SeekFrom::Start(at))?;
        }
        let count = opened.file.read(buf)?;
        opened.place = at.saturating_add(count as u64);
        self.kept = Some(opened);
        Ok(count)
    }
}

impl<R: Files + Drop> Shelf for FileShelf<R> {
    type File = FileBlocks<R::File>;

    ghost files = { λ _. None };

    ghost faults = { λ shelf. shelf.faults };

    fn size(&mut self, name: &str) -> Result<u64, ShelfFault> {
        match self.size_of(name) {
            Ok(size) => Ok(size),
            Err(error) => Err(self.refuse(&error)),
        }
    }

    fn read_at(&mut self, name: &str, at: u64, buf: &mut [u8]) -> Result<usize, ShelfFault> {
        match self.read_from(name, at, buf) {
            Ok(count) => Ok(count),
            Err(error) => Err(self.refuse(&error)),
        }
    }

    fn start(&mut self, name: &str) -> Result<(), ShelfFault> {
        self.kept = None;
        match fs::create(&self.rt, name) {
            Ok(_) => Ok(()),
            Err(_) => {
                self.fail();
                Err(ShelfFault::Failed)
            }
        }
    }

    fn append(&mut self, name: &str, piece: &[u8]) -> Result<(), ShelfFault> {
        self.kept = None;
        match append_to(&self.rt, name, piece) {
            Ok(()) => Ok(()),
            Err(error) => Err(self.refuse(&error)),
        }
    }

    fn open(&mut self, name: &str) -> Result<FileBlocks<R::File>, ShelfFault> {
        match self.blocks_of(name) {
            Ok(file) => Ok(file),
            Err(error) => Err(self.refuse(&error)),
        }
    }

    fn close(&mut self, file: FileBlocks<R::File>) {
        if file.has_failed() {
            self.fail();
        }
    }
}

fn append_to<R: Files>(rt: &R, name: &str, piece: &[u8]) -> io::Result<()> {
    let mut file = OpenOptions::new().append(true).open(rt, name)?;
    file.write_all(piece)
}

/// A sink over a writer, as standard output.
#[derive(Drop)]
pub struct WriteSink<W> {
    writer: W,
    faults: u64,
}

impl<W: Write + Drop> WriteSink<W> {
    /// A sink whose pieces go to that writer.
    pub fn new(writer: W) -> WriteSink<W>
        ensures { ⟦<WriteSink<W> as Sink>⟧.faults result ≡ 0 }
    {
        WriteSink { writer, faults: 0 }
    }
}

impl<W: Write + Drop> Sink for WriteSink<W> {
    ghost written = { λ _. None };

    ghost faults = { λ sink. sink.faults };

    fn put(&mut self, piece: &[u8]) -> Result<(), Failed> {
        match write_through(&mut self.writer, piece) {
            Ok(()) => Ok(()),
            Err(_) => {
                self.faults = self.faults.saturating_add(1);
                Err(Failed)
            }
        }
    }
}

/// Writes the piece, and whatever the writer keeps back.
fn write_through<W: Write>(writer: &mut W, piece: &[u8]) -> io::Result<()> {
    writer.write_all(piece)?;
    writer.flush()
}
