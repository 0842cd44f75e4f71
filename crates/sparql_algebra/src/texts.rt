//! The texts of parts, within the limits of texts that are read.

ghost use Rattle.std.specs.Prelude.{◌≡◌, IfOk, IfErr, map};
ghost use Rattle.std.specs.Result.{result_ok};
ghost use Rattle.sparql_algebra.specs.Prepared.{PartsFit, WhyNoPart, TellsLarge, is_size};
ghost use Rattle.sparql_algebra.specs.SplitTrees.{pure_part};

use crate::Part;
use sparql_read::symbols;
use sparql_tree::{QueryFault, Size};
use std::alloc::Global;
use term_core::{Memory, Text};

/// Whether a refusal is of a size; none where memory was wanting.
fn is_of_size(fault: QueryFault) -> Result<bool, Memory>
    ensures { result_ok result ≡ is_size fault }
{
    match fault {
        QueryFault::TooLarge(_) => Ok(true),
        QueryFault::Memory => Err(Memory),
        _ => Ok(false),
    }
}

/// Whether no server reads the text: it has more than 262,144 bytes, or more than 256 groups are open at
/// one place in it.
fn is_too_large(alloc: Global, text: &Text) -> Result<bool, Memory>
    ensures { IfOk result (TellsLarge text.now) }
{
    match symbols(alloc, text.bytes()) {
        Ok(_) => Ok(false),
        Err(fault) => is_of_size(fault),
    }
}

/// Refuses the first part whose text is too large. The time is linear in the texts.
pub fn check_texts(alloc: Global, parts: &[Part]) -> Result<(), QueryFault>
    ensures fit { IfOk result (λ _. PartsFit (map pure_part parts.now)) }
    ensures why { IfErr result (WhyNoPart (map pure_part parts.now)) }
{
    for part in parts {
        if is_too_large(alloc, &part.text)? {
            return Err(QueryFault::TooLarge(Size::Part));
        }
    }
    Ok(())
}
