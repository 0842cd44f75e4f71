// The command `try DATA QUERY`.
ghost use Rattle.std.specs.Prelude.{◌≡◌, string_bytes, IfErr, IfOk};
ghost use Rattle.plan_tree.specs.Pages.{AreQuanta};
ghost use Rattle.sage.specs.World.{io};
ghost use Rattle.sage.specs.Try.{ArePrefixes, IsAnswerOf, WhyOneUnread, WhyUnanswered, Tries};

use crate::answer::{Answer, answer_query};
use crate::file::read_named;
use crate::refusal::Refusal;
use nt_text::DOCUMENT_LIMIT;
use sage_outside::{Shelf, Sink};
use std::alloc::Global;
use term_core::Text;

/// The most bytes of a query that are read.
const QUERY_LIMIT: u64 = 262_144;

/// The bytes of both files, each to its end or one byte past its limit.
#[derive(Debug, Drop)]
struct Inputs {
    document: Vec<u8>,
    query: Vec<u8>,
}

/// Reads both files, the document first.
#[tactic(auto, using(crate::proofs::Tries::first_unread, crate::proofs::Tries::second_unread))]
fn read_both<S: Shelf>(
    alloc: Global,
    shelf: &mut S,
    document: &Text,
    query: &Text,
) -> Result<Inputs, Refusal>
    ensures same { S.files shelf.new ≡ S.files shelf.old }
    ensures read { IfOk result (λ inputs. ArePrefixes (S.files shelf.old) document.now query.now inputs.document.items inputs.query.items) }
    ensures why { IfErr result (λ e. WhyOneUnread e document.now query.now (S.files shelf.old) (S.faults shelf.old) (S.faults shelf.new)) }
{
    match read_named(alloc, shelf, document, DOCUMENT_LIMIT as u64) {
        Ok(document) => match read_named(alloc, shelf, query, QUERY_LIMIT) {
            Ok(query) => Ok(Inputs { document, query }),
            Err(refusal) => Err(refusal),
        },
        Err(refusal) => Err(refusal),
    }
}

/// Reads both files, and answers the query over the document.
#[tactic(auto, using(crate::proofs::Tries::answer_of, crate::proofs::Tries::unanswered, crate::proofs::Tries::unread_unanswered))]
fn read_and_answer<S: Shelf>(
    alloc: Global,
    shelf: &mut S,
    document: &Text,
    query: &Text,
    quanta: &[u32],
) -> Result<Answer, Refusal>
    requires { AreQuanta quanta.now }
    ensures same { S.files shelf.new ≡ S.files shelf.old }
    ensures answer { IfOk result (λ answer. IsAnswerOf (S.files shelf.old) document.now query.now quanta.now answer.text.items (string_bytes answer.counts)) }
    ensures why { IfErr result (λ e. WhyUnanswered e document.now query.now (S.files shelf.old) (S.faults shelf.old) (S.faults shelf.new)) }
{
    match read_both(alloc, shelf, document, query) {
        Ok(inputs) => match answer_query(alloc, inputs.document, inputs.query, quanta) {
            Ok(answer) => Ok(answer),
            Err(refusal) => Err(refusal),
        },
        Err(refusal) => Err(refusal),
    }
}

/// Reads both files, the document first, answers the query over the document, and puts the answer out
/// in one piece. Gives the line of counts.
#[tactic(auto, using(crate::proofs::Tries::tries_refused))]
pub(crate) fn try_query<S: Shelf, O: Sink>(
    alloc: Global,
    shelf: &mut S,
    out: &mut O,
    document: &Text,
    query: &Text,
    quanta: &[u32],
) -> Result<Text, Refusal>
    requires { AreQuanta quanta.now }
    ensures { Tries document.now query.now quanta.now (io S.files S.faults shelf.old O.written O.faults out.old)
        (io S.files S.faults shelf.new O.written O.faults out.new) result }
{
    match read_and_answer(alloc, shelf, document, query, quanta) {
        Ok(answer) => match out.put(&answer.text) {
            Ok(()) => Ok(Text::from_string(answer.counts)),
            Err(_) => Err(Refusal::Output),
        },
        Err(refusal) => Err(refusal),
    }
}
