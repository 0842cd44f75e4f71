//! Runs over files in memory, and what they answer and write.

use sage::run;
use sage_outside::{MemFile, MemShelf, MemSink, NoDoor, NoLink, Shelf};
use std::alloc::{AllocError, Global};
use std::test::Fail;
use term_core::{Items, Text};

/// The most bytes of a file that are looked at.
const ROOM: usize = 1 << 16;

/// What the call answered and wrote, and the file `s.sage` afterwards.
#[derive(Debug, Drop)]
pub struct Outcome {
    pub status: u8,
    pub out: MemSink,
    pub err: MemSink,
    pub store: Vec<u8>,
}

impl Outcome {
    /// Whether this is the status, and the output has this.
    pub fn has_out(&self, status: u8, out: &str) -> bool {
        self.status == status && self.out.bytes() == out.as_bytes()
    }

    /// Whether this is the status, and output and standard error have this.
    pub fn is(&self, status: u8, out: &str, err: &str) -> bool {
        self.has_out(status, out) && self.err.bytes() == err.as_bytes()
    }

    /// Whether this is the status, output and standard error have this, and `s.sage` that.
    pub fn leaves(&self, status: u8, out: &str, err: &str, store: &[u8]) -> bool {
        self.is(status, out, err) && self.store.as_slice() == store
    }

    /// Whether the query was answered, with so many rows.
    pub fn has_rows(&self, rows: usize) -> bool {
        let lines = self.out.bytes().iter().filter(|b| **b == b'\n').count();
        self.status == 0 && lines == rows.saturating_add(1)
    }
}

/// The words of a line, between which `|` stands. An empty line has none.
fn words_of(alloc: Global, line: &str) -> Result<Items<Text>, Fail> {
    let mut words = Items::new(alloc);
    if line.is_empty() {
        return Ok(words);
    }
    for word in line.split('|') {
        words.push(Text::from_str(alloc, word)?)?;
    }
    Ok(words)
}

fn push_file(
    alloc: Global,
    files: &mut Vec<MemFile>,
    name: &str,
    bytes: &[u8],
) -> Result<(), AllocError> {
    let name = String::from_str(alloc, name)?;
    let bytes = Vec::from_slice(alloc, bytes)?;
    files.push(MemFile { name, bytes })?;
    Ok(())
}

/// A shelf with two files, each a name and its bytes. Its calls whose numbers are among `fails` fail.
pub fn shelf_of(
    alloc: Global,
    first: (&str, &[u8]),
    second: (&str, &[u8]),
    fails: &[u64],
) -> Result<MemShelf, AllocError> {
    let mut files = Vec::new(alloc);
    push_file(alloc, &mut files, first.0, first.1)?;
    push_file(alloc, &mut files, second.0, second.1)?;
    let fails = Vec::from_slice(alloc, fails)?;
    Ok(MemShelf::new(alloc, files, fails))
}

/// The bytes of the file `s.sage`, or none where there is no such file.
fn store_of(alloc: Global, shelf: &mut MemShelf) -> Result<Vec<u8>, AllocError> {
    let mut bytes = vec![in alloc; 0; ROOM]?;
    match shelf.read_at("s.sage", 0, &mut bytes) {
        Ok(count) => bytes.truncate(count),
        Err(_) => bytes.clear(),
    }
    Ok(bytes)
}

/// Runs the words over a shelf. The calls of the output whose numbers are among `fails` fail.
pub fn run_on(
    alloc: Global,
    shelf: &mut MemShelf,
    words: &str,
    fails: &[u64],
) -> Result<Outcome, Fail> {
    let words = words_of(alloc, words)?;
    let mut out = MemSink::new(alloc, Vec::from_slice(alloc, fails)?);
    let mut err = MemSink::new(alloc, Vec::new(alloc));
    let status = run(
        alloc,
        words.as_slice(),
        shelf,
        &mut NoLink::new(),
        &mut NoDoor::new(),
        &mut out,
        &mut err,
    );
    let store = store_of(alloc, shelf)?;
    Ok(Outcome {
        status,
        out,
        err,
        store,
    })
}

/// Runs the words over a shelf with the files `d.nt` and `q.rq`.
pub fn run_over(
    alloc: Global,
    document: &[u8],
    query: &[u8],
    words: &str,
) -> Result<Outcome, Fail> {
    let mut shelf = shelf_of(alloc, ("d.nt", document), ("q.rq", query), &[])?;
    run_on(alloc, &mut shelf, words, &[])
}

/// Runs the words over a shelf with the files `d.nt` and `s.sage`.
pub fn run_with_store(
    alloc: Global,
    document: &[u8],
    store: &[u8],
    words: &str,
) -> Result<Outcome, Fail> {
    let mut shelf = shelf_of(alloc, ("d.nt", document), ("s.sage", store), &[])?;
    run_on(alloc, &mut shelf, words, &[])
}
