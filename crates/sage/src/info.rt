// The command `info STORE`.
ghost use Rattle.std.specs.Prelude.{◌≡◌, ◌≤◌, ◌⊎◌, ℕ, List, Err, length, IfOk, IfErr};
ghost use Rattle.sage_outside.specs.Causes.{Rose};
ghost use Rattle.sage_outside.specs.Shelf.{Lacks};
ghost use Rattle.sage.specs.Told.{TellsFile};
ghost use Rattle.sage.specs.World.{io};
ghost use Rattle.sage.specs.Info.{OverFile, AreHeaderLines, NoStore, HasDamagedHeader, IsHeaderRefusal, WhyNoLines, Informs};

use crate::ending::nothing;
use crate::info_lines::{HeaderFault, header_lines};
use crate::refusal::{Refusal, file_refusal};
use sage_outside::{Shelf, Sink};
use std::alloc::Global;
use term_core::Text;

/// Why the lines of a named file are not there.
fn header_refusal(alloc: Global, fault: HeaderFault, name: &Text) -> Refusal
    ensures { IsHeaderRefusal fault name.now result }
{
    match fault {
        HeaderFault::Memory => Refusal::Memory,
        HeaderFault::NotAStore => Refusal::NotAStore,
        HeaderFault::Damaged => Refusal::DamagedStore { block: 0 },
        HeaderFault::Unread => file_refusal(alloc, name),
    }
}

/// The lines of the header of a store file. The file is closed whatever came.
fn opened_lines<S: Shelf>(alloc: Global, shelf: &mut S, name: &str) -> Result<Vec<u8>, HeaderFault>
    ensures same { S.files shelf.new ≡ S.files shelf.old }
    ensures told { (file : List ℕ) → TellsFile (S.files shelf.old) name.now file
        → IfOk result (λ lines. AreHeaderLines lines.items file) }
    ensures not_a_store { (file : List ℕ) → TellsFile (S.files shelf.old) name.now file
        → result ≡ Err HeaderFault.NotAStore → NoStore file }
    ensures damaged { (file : List ℕ) → TellsFile (S.files shelf.old) name.now file
        → result ≡ Err HeaderFault.Damaged → HasDamagedHeader 0 file }
    ensures failed { result ≡ Err HeaderFault.Unread → Lacks (S.files shelf.old) name.now ⊎ Rose (S.faults shelf.old) (S.faults shelf.new) }
    ensures there { Lacks (S.files shelf.old) name.now → result ≡ Err HeaderFault.Unread }
{
    match shelf.open(name) {
        Ok(file) => {
            let (lines, file) = header_lines(alloc, file);
            shelf.close(file);
            lines
        }
        Err(_) => Err(HeaderFault::Unread),
    }
}

/// The lines of the header of the file STORE.
fn file_lines<S: Shelf>(alloc: Global, shelf: &mut S, store: &Text) -> Result<Vec<u8>, Refusal>
    ensures same { S.files shelf.new ≡ S.files shelf.old }
    ensures lines { IfOk result (λ lines. OverFile (S.files shelf.old) store.now (AreHeaderLines lines.items)) }
    ensures why { IfErr result (λ e. WhyNoLines e store.now (S.files shelf.old) (S.faults shelf.old) (S.faults shelf.new)) }
{
    match opened_lines(alloc, shelf, store.as_str()) {
        Ok(lines) => Ok(lines),
        Err(fault) => Err(header_refusal(alloc, fault, store)),
    }
}

/// Puts the lines of the header of the file STORE out. There is nothing to tell besides.
#[tactic(auto, using(crate::proofs::Informs::informs_refused))]
pub(crate) fn tell_store<S: Shelf, O: Sink>(
    alloc: Global,
    shelf: &mut S,
    out: &mut O,
    store: &Text,
) -> Result<Text, Refusal>
    ensures { Informs store.now (io S.files S.faults shelf.old O.written O.faults out.old)
        (io S.files S.faults shelf.new O.written O.faults out.new) result }
{
    match file_lines(alloc, shelf, store) {
        Ok(lines) => match out.put(&lines) {
            Ok(()) => Ok(nothing(alloc)),
            Err(_) => Err(Refusal::Output),
        },
        Err(refusal) => Err(refusal),
    }
}
