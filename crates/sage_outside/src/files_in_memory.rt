// Lists of files in memory, of which the first of each name counts.
ghost use Rattle.std.specs.Prelude.{◌≡◌, ◌<◌, ◌++◌, [], List, ℕ, length, MatchOption, MatchResult, IfSome, IfNone, OnOk, OnErr, slice_get};
ghost use Rattle.std.specs.List.{position};
ghost use Rattle.std.specs.Option.{option_copied};
ghost use Rattle.std.specs.FinMap as map;
ghost use Rattle.sage_outside.specs.Memory.{files_of, is_named, IsPlace};
ghost use Rattle.sage_outside.specs.Shelf.{FillsFrom};

use crate::MemFile;
use std::alloc::{AllocError, Global};

/// The place of the first file of that name, by the names' bytes.
fn position_of(files: &[MemFile], name: &str) -> Option<usize>
    ensures { result ≡ position (is_named name.now) files.now }
{
    files.iter().position(|file| name == file.name.as_str())
}

/// The place of the first file of that name.
pub fn place(files: &[MemFile], name: &str) -> Option<usize>
    ensures missing { IfNone result (map.get (files_of files.now) name.now ≡ None) }
    ensures found { IfSome result (λ i. IsPlace files.now name.now i) }
{
    position_of(files, name)
}

/// The bytes of the first file of that name.
pub fn find<'a>(files: &'a [MemFile], name: &str) -> Option<&'a [u8]>
    ensures { option_copied result ≡ map.get (files_of files.now) name.now }
{
    match place(files, name) {
        None => None,
        Some(at) => Some(&files[at].bytes),
    }
}

/// Makes the first file of that name empty, or puts an empty one in front where there is none.
pub fn clear(alloc: Global, files: &mut Vec<MemFile>, name: &str) -> Result<(), AllocError>
    ensures ok { OnOk result
        (files_of files.new.items ≡ map.insert (files_of files.old.items) name.now []) }
    ensures err { OnErr result (files.new.items ≡ files.old.items) }
{
    match place(files, name) {
        Some(at) => {
            files[at].bytes.clear();
            Ok(())
        }
        None => {
            let name = String::from_str(alloc, name)?;
            files.insert(
                0,
                MemFile {
                    name,
                    bytes: Vec::new(alloc),
                },
            )?;
            Ok(())
        }
    }
}

/// Adds the piece at the end of the file at that place, which is the first of that name.
pub fn extend(
    files: &mut Vec<MemFile>,
    at: usize,
    name: &str,
    piece: &[u8],
) -> Result<(), AllocError>
    requires { IsPlace files.old.items name.now at }
    ensures ok { OnOk result (IfSome (map.get (files_of files.old.items) name.now) (λ bytes.
        files_of files.new.items ≡ map.insert (files_of files.old.items) name.now (bytes ++ piece.now))) }
    ensures err { OnErr result (files_of files.new.items ≡ files_of files.old.items) }
{
    files[at].bytes.extend_from_slice(piece)
}

/// Fills a front of the buffer with the bytes from that place, and answers how many.
pub fn fill(buf: &mut [u8], bytes: &[u8], at: u64) -> usize
    requires { 0 < length buf.old }
    ensures { FillsFrom at buf.old buf.new bytes.now result }
{
    if at >= bytes.len() as u64 {
        return 0;
    }
    let rest = &bytes[at as usize..];
    let count = rest.len().min(buf.len());
    buf[..count].copy_from_slice(&rest[..count]);
    count
}
