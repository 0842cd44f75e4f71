// The top call.
ghost use Rattle.std.specs.Prelude.{◌≡◌, ◌↔◌, None};
ghost use Rattle.sage.specs.Words.{command_of};
ghost use Rattle.sage.specs.World.{io, sink_state, world};
ghost use Rattle.sage.specs.Runs.{Does, Must, Runs};

use crate::build::build_store;
use crate::ending::end;
use crate::info::tell_store;
use crate::refusal::Refusal;
use crate::try_query::try_query;
use crate::words::{Command, WordsFault, read_words};
use sage_outside::{Door, Link, Shelf, Sink};
use std::alloc::Global;
use term_core::Text;

/// Does what the words spell.
fn run_words<S: Shelf, O: Sink>(
    alloc: Global,
    words: &[Text],
    shelf: &mut S,
    out: &mut O,
) -> Result<Text, Refusal>
    ensures { Does (command_of words.now) (io S.files S.faults shelf.old O.written O.faults out.old)
        (io S.files S.faults shelf.new O.written O.faults out.new) result }
{
    match read_words(alloc, words) {
        Ok(
            Command::Try {
                document,
                query,
                quanta,
            },
        ) => try_query(alloc, shelf, out, &document, &query, quanta.as_slice()),
        Ok(Command::Build { document, store }) => {
            build_store(alloc, shelf, out, &document, &store)
        }
        Ok(Command::Info { store }) => tell_store(alloc, shelf, out, &store),
        Err(WordsFault::Words) => Err(Refusal::Words),
        Err(WordsFault::Memory) => Err(Refusal::Memory),
    }
}

/// Runs the command that the words spell, and answers its status: 0 where it did all its work, and
/// else 1 for want of memory, 2 where the words spell no command, 3 for a file that was not read or
/// written, 4 for a document and 6 for a query that is refused, 5 for a file that is no store, 9 for a
/// failed output.
///
/// The words are those after the program's name. The work of `try` goes in this order: the words, both
/// files (the document first), the document, the query, the output; that of `build`: the words, the
/// document, its data, the store file, the output; that of `info`: the words, the store file, the
/// output. With a status other than 0 standard error gets one line that says why; with 0 it gets the
/// counts of pages, steps and bytes of `try`, and nothing of the others.
pub fn run<S: Shelf, L: Link, D: Door, O: Sink, E: Sink>(
    alloc: Global,
    words: &[Text],
    shelf: &mut S,
    link: &mut L,
    door: &mut D,
    out: &mut O,
    err: &mut E,
) -> u8
    ensures words { (result ≡ 2) ↔ (command_of words.now ≡ None) }
    ensures runs { Runs words.now
        (world (io S.files S.faults shelf.old O.written O.faults out.old) (sink_state E.written E.faults err.old))
        (world (io S.files S.faults shelf.new O.written O.faults out.new) (sink_state E.written E.faults err.new)) result }
    ensures must { Must (command_of words.now) (io S.files S.faults shelf.old O.written O.faults out.old)
        (io S.files S.faults shelf.new O.written O.faults out.new) result }
    ensures outside { (link.new ≡ link.old) × (door.new ≡ door.old) }
{
    let ended = run_words(alloc, words, shelf, out);
    end(alloc, err, ended)
}
