// Why a command does not do its work.
ghost use Rattle.sage.specs.Ending.{NamesFile};

use nt_text::DataFault;
use sparql_tree::QueryFault;
use std::alloc::Global;
use term_core::Text;

/// Why a query is not answered.
#[derive(Debug, Drop)]
pub enum QueryRefusal {
    /// Its text is not accepted: the first cause.
    Fault(QueryFault),
    /// It asks for more than is answered yet.
    Form,
}

/// Why a command does not do its work: one type for all commands, since each status but 0 is that of
/// one of these.
#[derive(Debug, Drop)]
pub enum Refusal {
    /// Memory ran out.
    Memory,
    /// The words spell no command.
    Words,
    /// The named file is not there, or could not be read or written.
    File { name: Text },
    /// The document is not of the grammar or passes a limit: the first cause.
    Data { fault: DataFault },
    /// The file begins with no header of a store file of so many blocks.
    NotAStore,
    /// That block of the store file is not well formed.
    DamagedStore { block: u32 },
    /// The query is not answered.
    Query { cause: QueryRefusal },
    /// The output failed.
    Output,
}

/// The refusal that names a file, or want of memory for its name.
pub(crate) fn file_refusal(alloc: Global, name: &Text) -> Refusal
    ensures { NamesFile name.now result }
{
    match name.copy(alloc) {
        Ok(name) => Refusal::File { name },
        Err(_) => Refusal::Memory,
    }
}
