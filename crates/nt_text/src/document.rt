//! Reading a document.

ghost use Rattle.std.specs.Prelude.{◌≡◌, ◌≤◌, ◌<◌, [], length, All, IfOk, IfErr};
ghost use Rattle.std.specs.Str.{chars};
ghost use Rattle.term_core.specs.Order.{IsAllowed};
ghost use Rattle.term_core.specs.Spelling.{AreSpelled};
ghost use Rattle.nt_text.specs.Grammar.{IsDocument};
ghost use Rattle.nt_text.specs.Limits.{IsWithinLimits};
ghost use Rattle.nt_text.specs.Faults.{WhyRefused};
ghost use Rattle.nt_text.specs.Reading.{IsOutcome, lines_of, judged, document_of};

use crate::fault::DataFault;
use crate::lines::{add_line, cut_line};
use std::alloc::Global;
use term_core::{Items, Triple};

/// The greatest length of a document, in bytes.
pub const DOCUMENT_LIMIT: usize = 268_435_456;

/// The triples of the lines of a text.
fn read_lines(alloc: Global, text: &str) -> Result<Items<Triple>, DataFault>
    requires { length text.now ≤ 268435456 }
    ensures { IsOutcome result (judged 1 [] (lines_of (chars text.now))) }
{
    let mut triples = Items::new(alloc);
    let mut number = 1;
    let mut left = Some(text);
    'lines: while let Some(rest) = left {
        let (line, behind) = cut_line(rest);
        match add_line(alloc, line, number, &mut triples) {
            Ok(()) => {}
            Err(fault) => return Err(fault),
        }
        number += 1;
        left = behind;
    }
    Ok(triples)
}

/// The triples of a document, or why it is refused.
#[tactic(auto, unfolding(crate::specs::Reading::document_of))]
fn read_within(alloc: Global, bytes: &[u8]) -> Result<Items<Triple>, DataFault>
    ensures { IsOutcome result (document_of bytes.now) }
{
    if bytes.len() > DOCUMENT_LIMIT {
        return Err(DataFault::TooLong);
    }
    match str::from_utf8(bytes) {
        Ok(text) => read_lines(alloc, text),
        Err(e) => Err(DataFault::NotUtf8 {
            at: e.valid_up_to(),
        }),
    }
}

/// The triples of an N-Triples document (RDF 1.1 N-Triples, section 2), in the order of their lines
/// and as often as they stand there. Escapes are resolved, language tags are put in lower case, a
/// literal without datatype and tag has xsd:string, one with a tag rdf:langString, and blank nodes
/// keep their labels. A line ends with CR LF, LF or CR, and the last needs no end.
///
/// `TooLong` comes exactly where the bytes are more than `DOCUMENT_LIMIT`, and else `NotUtf8` exactly
/// where they are not UTF-8. Else the first line decides that is not of the grammar (`BadLine`; also
/// relative IRIs, and the datatype rdf:langString without a tag), has a term of more than
/// `TERM_LIMIT` bytes (`TermTooLong`) or the triple that is one more than `TRIPLE_LIMIT` (`TooMany`),
/// in this order within one line. Lines are counted from 1. The time is linear in the number of
/// bytes, and each term is copied once.
pub fn read_document(alloc: Global, bytes: &[u8]) -> Result<Items<Triple>, DataFault>
    ensures found { IfOk result (λ triples. IsDocument bytes.now triples) }
    ensures limits { IfOk result (λ triples. IsWithinLimits bytes.now triples) }
    ensures allowed { IfOk result (All IsAllowed) }
    ensures spelled { IfOk result (All AreSpelled) }
    ensures why { IfErr result (λ fault. WhyRefused bytes.now fault) }
{
    read_within(alloc, bytes)
}
