// How a command ends: its message and its status.
ghost use Rattle.std.specs.Prelude.{◌≡◌, [], string_bytes, IfOk};
ghost use Rattle.sage.specs.World.{sink_state};
ghost use Rattle.sage.specs.Data.{data_message as message_of_data};
ghost use Rattle.sage.specs.QueryMessages.{size_word as word_of_size, query_message as message_of_query};
ghost use Rattle.sage.specs.Ending.{Ends, IsTold, file_message as message_of_file, block_message as message_of_block};

use crate::refusal::{QueryRefusal, Refusal};
use nt_text::DataFault;
use sage_outside::Sink;
use sparql_tree::{QueryFault, Size};
use std::alloc::Global;
use term_core::{Memory, Text};

/// The text of no bytes, for a command that has nothing to tell. It takes no memory.
pub(crate) fn nothing(alloc: Global) -> Text
    ensures { result ≡ [] }
{
    Text::from_string(String::new(alloc))
}

/// The message that names a file.
fn file_message(alloc: Global, name: &Text) -> Result<Vec<u8>, Memory>
    ensures { IfOk result (λ message. message.items ≡ message_of_file name.now) }
{
    let mut message = Vec::from_slice(alloc, b"sage: file ")?;
    message.extend_from_slice(name.bytes())?;
    message.push(b'\n')?;
    Ok(message)
}

/// The message of a document's refusal.
fn data_message(alloc: Global, fault: DataFault) -> Result<String, Memory>
    ensures { IfOk result (λ message. string_bytes message ≡ message_of_data fault) }
{
    let message = match fault {
        DataFault::TooLong => format!(in alloc; "sage: data too long\n"),
        DataFault::NotUtf8 { at } => format!(in alloc; "sage: data not utf-8 at {at}\n"),
        DataFault::BadLine { line } => format!(in alloc; "sage: data line {line}\n"),
        DataFault::TermTooLong { line } => format!(in alloc; "sage: data line {line} term\n"),
        DataFault::TooMany { line } => format!(in alloc; "sage: data line {line} too many\n"),
        DataFault::Memory => format!(in alloc; "sage: memory\n"),
    };
    Ok(message?)
}

/// The word of a limit that is passed.
fn size_word(size: Size) -> &'static str
    ensures { result.now ≡ word_of_size size }
{
    match size {
        Size::Text => "text",
        Size::Nesting => "nesting",
        Size::Depth => "depth",
        Size::Weight => "weight",
        Size::Part => "part",
    }
}

/// The message of a query that is not answered.
fn query_message(alloc: Global, cause: QueryRefusal) -> Result<String, Memory>
    ensures { IfOk result (λ message. string_bytes message ≡ message_of_query cause) }
{
    let message = match cause {
        QueryRefusal::Fault(QueryFault::TooLarge(size)) => {
            format!(in alloc; "sage: query too large {}\n", size_word(size))
        }
        QueryRefusal::Fault(QueryFault::Lex { at }) => format!(in alloc; "sage: query lex {at}\n"),
        QueryRefusal::Fault(QueryFault::Unsupported { what }) => {
            format!(in alloc; "sage: query unsupported {}\n", what.as_str())
        }
        QueryRefusal::Fault(QueryFault::NotAQuery) => format!(in alloc; "sage: query\n"),
        QueryRefusal::Fault(QueryFault::Scope { variable }) => {
            format!(in alloc; "sage: query scope {}\n", variable.as_str())
        }
        QueryRefusal::Fault(QueryFault::Memory) => format!(in alloc; "sage: memory\n"),
        QueryRefusal::Form => format!(in alloc; "sage: query form\n"),
    };
    Ok(message?)
}

/// The message for a block of a store file that is not well formed.
fn block_message(alloc: Global, block: u32) -> Result<String, Memory>
    ensures { IfOk result (λ message. string_bytes message ≡ message_of_block block) }
{
    Ok(format!(in alloc; "sage: store block {block}\n")?)
}

/// Tells standard error a message, and answers the status. A failure of standard error changes
/// nothing else.
#[tactic(auto, using(crate::proofs::Sinks::put_told))]
fn tell<E: Sink>(err: &mut E, message: &[u8], status: u8) -> u8
    ensures status { result ≡ status }
    ensures told { IsTold (sink_state E.written E.faults err.old) (sink_state E.written E.faults err.new) message.now }
{
    let _ = err.put(message);
    status
}

/// Tells standard error how a command ended, and answers its status.
pub(crate) fn end<E: Sink>(alloc: Global, err: &mut E, ended: Result<Text, Refusal>) -> u8
    ensures { Ends ended (sink_state E.written E.faults err.old) (sink_state E.written E.faults err.new) result }
{
    match ended {
        Ok(told) => tell(err, told.bytes(), 0),
        Err(Refusal::Memory) => tell(err, b"sage: memory\n", 1),
        Err(Refusal::Words) => tell(err, b"sage: words\n", 2),
        Err(Refusal::File { name }) => match file_message(alloc, &name) {
            Ok(message) => tell(err, &message, 3),
            Err(_) => tell(err, b"sage: memory\n", 1),
        },
        Err(Refusal::Data { fault }) => match data_message(alloc, fault) {
            Ok(message) => tell(err, message.as_bytes(), 4),
            Err(_) => tell(err, b"sage: memory\n", 1),
        },
        Err(Refusal::NotAStore) => tell(err, b"sage: not a store\n", 5),
        Err(Refusal::DamagedStore { block }) => match block_message(alloc, block) {
            Ok(message) => tell(err, message.as_bytes(), 5),
            Err(_) => tell(err, b"sage: memory\n", 1),
        },
        Err(Refusal::Query { cause }) => match query_message(alloc, cause) {
            Ok(message) => tell(err, message.as_bytes(), 6),
            Err(_) => tell(err, b"sage: memory\n", 1),
        },
        Err(Refusal::Output) => tell(err, b"sage: output\n", 9),
    }
}
