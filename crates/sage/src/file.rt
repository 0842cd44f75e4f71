// Reading a file, up to a limit.
ghost use Rattle.std.specs.Prelude.{◌≡◌, ◌≤◌, ◌<◌, ◌+◌, ◌^◌, ℕ, List, length, take, OnOk, IfErr, IfOk};
ghost use Rattle.sage_outside.specs.Shelf.{Lacks};
ghost use Rattle.sage.specs.Told.{TellsFile, IsPrefixOf};
ghost use Rattle.sage.specs.Files.{WhyUnread, WhyNotRead};

use crate::refusal::{Refusal, file_refusal};
use sage_outside::Shelf;
use std::alloc::{AllocError, Global};
use term_core::Text;

/// How many bytes are asked of a file at a time.
const PIECE: usize = 1 << 20;

/// Why a file was not read.
#[derive(Clone, Copy, Debug, PartialEq, Eq)]
pub enum FileFault {
    /// The file is not there, or a call of the shelf failed.
    File,
    /// There was no memory for the bytes.
    Memory,
}

impl From<AllocError> for FileFault {
    ghost use Rattle.std.specs.Prelude.{◌≡◌};
    ghost use Rattle.sage.specs.declared.file.FileFault.TheVariants as faults;

    ghost from_gives = { λ _ e. e ≡ faults.Memory };

    fn from(_: AllocError) -> Self {
        FileFault::Memory
    }
}

/// Reads a piece into the buffer and adds it to the bytes that are there. Answers its length.
fn read_piece<S: Shelf>(
    shelf: &mut S,
    name: &str,
    buffer: &mut [u8],
    bytes: &mut Vec<u8>,
) -> Result<usize, FileFault>
    requires { 0 < length buffer.old }
    ensures same { S.files shelf.new ≡ S.files shelf.old }
    ensures later { S.faults shelf.old ≤ S.faults shelf.new }
    ensures longer { IfOk result (λ n. length bytes.new.items ≡ length bytes.old.items + n) }
    ensures room { IfOk result (λ n. n ≤ length buffer.old) }
    ensures prefix { (file : List ℕ) → TellsFile (S.files shelf.old) name.now file → bytes.old.items ≡ take (length bytes.old.items) file
        → OnOk result (bytes.new.items ≡ take (length bytes.new.items) file) }
    ensures end { (file : List ℕ) → TellsFile (S.files shelf.old) name.now file → result ≡ Ok 0 → length file ≤ length bytes.old.items }
    ensures why { IfErr result (λ e. WhyUnread e (S.files shelf.old) name.now (S.faults shelf.old) (S.faults shelf.new)) }
{
    match shelf.read_at(name, bytes.len() as u64, buffer) {
        Ok(n) => match bytes.extend_from_slice(&buffer[..n]) {
            Ok(()) => Ok(n),
            Err(_) => Err(FileFault::Memory),
        },
        Err(_) => Err(FileFault::File),
    }
}

/// Reads on until there are so many bytes, or the file ends.
fn read_rest<S: Shelf>(
    shelf: &mut S,
    name: &str,
    wanted: usize,
    buffer: &mut [u8],
    bytes: &mut Vec<u8>,
) -> Result<(), FileFault>
    requires room { 0 < length buffer.old }
    requires fits { length bytes.old.items ≤ wanted }
    ensures same { S.files shelf.new ≡ S.files shelf.old }
    ensures later { S.faults shelf.old ≤ S.faults shelf.new }
    ensures whole { (file : List ℕ) → TellsFile (S.files shelf.old) name.now file → bytes.old.items ≡ take (length bytes.old.items) file
        → OnOk result (bytes.new.items ≡ take wanted file) }
    ensures most { OnOk result (length bytes.new.items ≤ wanted) }
    ensures why { IfErr result (λ e. WhyUnread e (S.files shelf.old) name.now (S.faults shelf.old) (S.faults shelf.new)) }
{
    'pieces: while bytes.len() < wanted {
        let room = (wanted - bytes.len()).min(buffer.len());
        if read_piece(shelf, name, &mut buffer[..room], bytes)? == 0 {
            break;
        }
    }
    Ok(())
}

fn make_buffer(alloc: Global) -> Result<Vec<u8>, FileFault>
    ensures room { IfOk result (λ buffer. 0 < length buffer.items) }
    ensures memory { IfErr result (λ e. e ≡ FileFault.Memory) }
{
    Ok(vec![in alloc; 0; PIECE]?)
}

/// Reads a file to its end, or `wanted` bytes of it. Room for so many as `room` is made at once.
fn read_prefix<S: Shelf>(
    alloc: Global,
    shelf: &mut S,
    name: &str,
    room: usize,
    wanted: usize,
) -> Result<Vec<u8>, FileFault>
    ensures same { S.files shelf.new ≡ S.files shelf.old }
    ensures later { S.faults shelf.old ≤ S.faults shelf.new }
    ensures whole { (file : List ℕ) → TellsFile (S.files shelf.old) name.now file → IfOk result (λ bytes. bytes.items ≡ take wanted file) }
    ensures most { IfOk result (λ bytes. length bytes.items ≤ wanted) }
    ensures why { IfErr result (λ e. WhyUnread e (S.files shelf.old) name.now (S.faults shelf.old) (S.faults shelf.new)) }
{
    let mut bytes = Vec::with_capacity(alloc, room)?;
    let mut buffer = make_buffer(alloc)?;
    read_rest(shelf, name, wanted, &mut buffer, &mut bytes)?;
    Ok(bytes)
}

/// Reads a file to its end, or one byte past the limit. The length that the shelf
/// answers serves to make room and nothing else, since a pipe has none.
fn read_file<S: Shelf>(
    alloc: Global,
    shelf: &mut S,
    name: &str,
    limit: u64,
) -> Result<Vec<u8>, FileFault>
    requires { limit < 2 ^ 62 }
    ensures same { S.files shelf.new ≡ S.files shelf.old }
    ensures later { S.faults shelf.old ≤ S.faults shelf.new }
    ensures whole { (file : List ℕ) → TellsFile (S.files shelf.old) name.now file → IfOk result (λ bytes. bytes.items ≡ take (limit + 1) file) }
    ensures most { IfOk result (λ bytes. length bytes.items ≤ limit + 1) }
    ensures there { Lacks (S.files shelf.old) name.now → IfOk result (λ bytes. ⊥) }
    ensures why { IfErr result (λ e. WhyUnread e (S.files shelf.old) name.now (S.faults shelf.old) (S.faults shelf.new)) }
{
    match shelf.size(name) {
        Ok(size) => {
            let most = limit + 1;
            let room = size.min(most) as usize;
            match read_prefix(alloc, shelf, name, room, most as usize) {
                Ok(bytes) => Ok(bytes),
                Err(fault) => Err(fault),
            }
        }
        Err(_) => Err(FileFault::File),
    }
}

/// Reads a file that the words name, to its end or one byte past the limit.
pub(crate) fn read_named<S: Shelf>(
    alloc: Global,
    shelf: &mut S,
    name: &Text,
    limit: u64,
) -> Result<Vec<u8>, Refusal>
    requires { limit < 2 ^ 62 }
    ensures same { S.files shelf.new ≡ S.files shelf.old }
    ensures later { S.faults shelf.old ≤ S.faults shelf.new }
    ensures prefix { IfOk result (λ bytes. IsPrefixOf (S.files shelf.old) name.now (limit + 1) bytes.items) }
    ensures why { IfErr result (λ e. WhyNotRead e name.now (S.files shelf.old) (S.faults shelf.old) (S.faults shelf.new)) }
{
    match read_file(alloc, shelf, name.as_str(), limit) {
        Ok(bytes) => Ok(bytes),
        Err(FileFault::Memory) => Err(Refusal::Memory),
        Err(FileFault::File) => Err(file_refusal(alloc, name)),
    }
}
