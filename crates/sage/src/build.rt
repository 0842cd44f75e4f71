// The command `build DATA STORE`.
ghost use Rattle.std.specs.Prelude.{◌≡◌, ◌≤◌, ◌<◌, List, Option, length, take, All, IfOk, IfErr, OnOk, OnErr, Err};
ghost use Rattle.term_core.specs.declared.term.Triple.{Triple as Triples};
ghost use Rattle.term_core.specs.Order.{IsAllowed};
ghost use Rattle.term_core.specs.Spelling.{AreSpelled};
ghost use Rattle.nt_text.specs.Limits.{AreWithinLimits};
ghost use Rattle.sage_outside.specs.Causes.{Rose};
ghost use Rattle.sage_outside.specs.Shelf.{Files};
ghost use Rattle.store_image.specs.Holds.{Holds};
ghost use Rattle.sage.specs.World.{io};
ghost use Rattle.sage.specs.Data.{ReadsData};
ghost use Rattle.sage.specs.InfoLines.{header_lines};
ghost use Rattle.sage.specs.StoreFiles.{IsWritten, IsWrittenInPart, IsStoreFile, IsMade};
ghost use Rattle.sage.specs.Build.{IsMadeOf, WhyUnmade, Builds};

use crate::document::{image_of, read_data};
use crate::ending::nothing;
use crate::file::read_named;
use crate::info_lines::{HeaderFault, header_lines};
use crate::refusal::{Refusal, file_refusal};
use nt_text::DOCUMENT_LIMIT;
use sage_outside::{NeverBlocks, Shelf, ShelfFault, Sink};
use std::alloc::Global;
use term_core::{Items, Memory, Text, Triple};

/// How many bytes are added to a file at a time.
const PIECE: usize = 1 << 20;

/// A store file in memory, and the lines that tell its header.
#[derive(Debug, Drop)]
struct Made {
    image: Vec<u8>,
    lines: Vec<u8>,
}

/// The one fault that a store file in memory has.
fn want_of(fault: HeaderFault) -> Memory
    requires { fault ≡ HeaderFault.Memory }
{
    match fault {
        HeaderFault::Memory => Memory,
        _ => unreachable!(),
    }
}

/// The lines of the header of a store file in memory.
fn image_lines(alloc: Global, image: &[u8]) -> Result<Vec<u8>, Memory>
    requires held { (L : List Triples) × Holds L 2 image.now }
    ensures { (L : List Triples) (holds : Holds L 2 image.now) → IfOk result (λ lines. lines.items ≡ header_lines holds.header) }
{
    let (lines, _blocks) = header_lines(alloc, NeverBlocks::new(image));
    match lines {
        Ok(lines) => Ok(lines),
        Err(fault) => Err(want_of(fault)),
    }
}

/// The store file of triples, which are let go, and its lines.
fn make(alloc: Global, triples: Items<Triple>) -> Result<Made, Memory>
    requires limits { AreWithinLimits triples }
    requires allowed { All IsAllowed triples }
    requires spelled { All AreSpelled triples }
    ensures { IfOk result (λ made. IsStoreFile triples made.image.items made.lines.items) }
{
    let image = image_of(alloc, triples)?;
    let lines = image_lines(alloc, &image)?;
    Ok(Made { image, lines })
}

/// The store file of a document, whose bytes are let go, and its lines.
fn make_of(alloc: Global, document: Vec<u8>) -> Result<Made, Refusal>
    ensures made { IfOk result (λ made. IsMade document.items made.image.items made.lines.items) }
    ensures why { IfErr result (λ e. ReadsData (Err e) document.items) }
{
    match read_data(alloc, document) {
        Ok(triples) => match make(alloc, triples) {
            Ok(made) => Ok(made),
            Err(_) => Err(Refusal::Memory),
        },
        Err(refusal) => Err(refusal),
    }
}

/// Reads a document and makes its store file, in memory, with its lines.
fn read_and_make<S: Shelf>(alloc: Global, shelf: &mut S, document: &Text) -> Result<Made, Refusal>
    ensures same { S.files shelf.new ≡ S.files shelf.old }
    ensures later { S.faults shelf.old ≤ S.faults shelf.new }
    ensures made { IfOk result (λ made. IsMadeOf (S.files shelf.old) document.now made.image.items made.lines.items) }
    ensures why { IfErr result (λ e. WhyUnmade e document.now (S.files shelf.old) (S.faults shelf.old) (S.faults shelf.new)) }
{
    match read_named(alloc, shelf, document, DOCUMENT_LIMIT as u64) {
        Ok(bytes) => match make_of(alloc, bytes) {
            Ok(made) => Ok(made),
            Err(refusal) => Err(refusal),
        },
        Err(refusal) => Err(refusal),
    }
}

/// Adds a piece of the bytes to a file that has those before that place. Answers the piece's end.
fn append_piece<S: Shelf>(
    shelf: &mut S,
    name: &str,
    bytes: &[u8],
    done: usize,
) -> Result<usize, ShelfFault>
    requires { done < length bytes.now }
    ensures later { S.faults shelf.old ≤ S.faults shelf.new }
    ensures on { IfOk result (λ end. (done < end) × (end ≤ length bytes.now)) }
    ensures written { (base : Option Files) → IsWritten base (S.files shelf.old) name.now (take done bytes.now)
        → IfOk result (λ end. IsWritten base (S.files shelf.new) name.now (take end bytes.now)) }
    ensures in_part { (base : Option Files) → IsWritten base (S.files shelf.old) name.now (take done bytes.now)
        → OnErr result (Rose (S.faults shelf.old) (S.faults shelf.new) × IsWrittenInPart base (S.files shelf.new) name.now bytes.now) }
{
    let end = bytes.len().min(done + PIECE);
    match shelf.append(name, &bytes[done..end]) {
        Ok(()) => Ok(end),
        Err(fault) => Err(fault),
    }
}

/// Adds the bytes to a file that is empty.
fn append_all<S: Shelf>(shelf: &mut S, name: &str, bytes: &[u8]) -> Result<(), ShelfFault>
    ensures later { S.faults shelf.old ≤ S.faults shelf.new }
    ensures written { (base : Option Files) → IsWritten base (S.files shelf.old) name.now (take 0 bytes.now)
        → OnOk result (IsWritten base (S.files shelf.new) name.now bytes.now) }
    ensures in_part { (base : Option Files) → IsWritten base (S.files shelf.old) name.now (take 0 bytes.now)
        → OnErr result (Rose (S.faults shelf.old) (S.faults shelf.new) × IsWrittenInPart base (S.files shelf.new) name.now bytes.now) }
{
    let mut done = 0;
    'pieces: while done < bytes.len() {
        match append_piece(shelf, name, bytes, done) {
            Ok(end) => done = end,
            Err(fault) => return Err(fault),
        }
    }
    Ok(())
}

/// Makes the file anew with these bytes.
fn write_file<S: Shelf>(shelf: &mut S, name: &str, bytes: &[u8]) -> Result<(), ShelfFault>
    ensures later { S.faults shelf.old ≤ S.faults shelf.new }
    ensures written { OnOk result (IsWritten (S.files shelf.old) (S.files shelf.new) name.now bytes.now) }
    ensures in_part { OnErr result (Rose (S.faults shelf.old) (S.faults shelf.new) × IsWrittenInPart (S.files shelf.old) (S.files shelf.new) name.now bytes.now) }
{
    match shelf.start(name) {
        Ok(()) => match append_all(shelf, name, bytes) {
            Ok(()) => Ok(()),
            Err(fault) => Err(fault),
        },
        Err(fault) => Err(fault),
    }
}

/// Makes the store file of the file DATA in memory, writes it to STORE, and puts the lines of its
/// header out. Nothing is done to STORE before DATA is judged. There is nothing to tell besides.
#[tactic(auto, using(crate::proofs::Builds::builds_refused, crate::proofs::Builds::builds_unwritten))]
pub(crate) fn build_store<S: Shelf, O: Sink>(
    alloc: Global,
    shelf: &mut S,
    out: &mut O,
    document: &Text,
    store: &Text,
) -> Result<Text, Refusal>
    ensures { Builds document.now store.now (io S.files S.faults shelf.old O.written O.faults out.old)
        (io S.files S.faults shelf.new O.written O.faults out.new) result }
{
    match read_and_make(alloc, shelf, document) {
        Ok(made) => match write_file(shelf, store.as_str(), &made.image) {
            Ok(()) => match out.put(&made.lines) {
                Ok(()) => Ok(nothing(alloc)),
                Err(_) => Err(Refusal::Output),
            },
            Err(_) => Err(file_refusal(alloc, store)),
        },
        Err(refusal) => Err(refusal),
    }
}
