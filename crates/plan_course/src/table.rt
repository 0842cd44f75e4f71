//! Rows of VALUES with numbers.

ghost use Rattle.std.specs.Prelude.{◌≡◌, Some, slice_get, IfOk, OnOk};
ghost use Rattle.std.specs.FinMap as finmap;
ghost use Rattle.plan_course.specs.Meanings.{Tells, Grown, AreEntries, AreRows};

use crate::course::Placed;
use crate::numbering::Numbering;
use std::alloc::Global;
use term_core::{Items, Memory, Row, Term, Text};

/// An entry of a row with its numbers.
fn number_entry(
    alloc: Global,
    name: &Text,
    term: &Term,
    numbering: &mut Numbering,
) -> Result<Placed, Memory>
    requires tells { Tells numbering.old }
    ensures grown { OnOk result (Grown numbering.old numbering.new) }
    ensures slot { IfOk result (λ placed. slice_get numbering.new.names placed.slot ≡ Some name.now) }
    ensures term { IfOk result (λ placed. slice_get numbering.new.given placed.term ≡ Some term.now) }
{
    let slot = numbering.slot_of(alloc, name)?;
    let term = numbering.number_term(alloc, term)?;
    Ok(Placed { slot, term })
}

/// A row with its numbers.
fn number_row(alloc: Global, row: &Row, numbering: &mut Numbering) -> Result<Items<Placed>, Memory>
    requires tells { Tells numbering.old }
    ensures grown { OnOk result (Grown numbering.old numbering.new) }
    ensures entries { IfOk result (λ placed. AreEntries numbering.new placed (finmap.entries row.now)) }
{
    let mut placed = Items::new(alloc);
    for entry in row.entries() {
        placed.push(number_entry(alloc, &entry.0, &entry.1, numbering)?)?;
    }
    Ok(placed)
}

/// Rows with their numbers.
pub fn number_rows(
    alloc: Global,
    rows: &[Row],
    numbering: &mut Numbering,
) -> Result<Items<Items<Placed>>, Memory>
    requires tells { Tells numbering.old }
    ensures grown { OnOk result (Grown numbering.old numbering.new) }
    ensures rows { IfOk result (λ placed. AreRows numbering.new placed rows.now) }
{
    let mut placed = Items::new(alloc);
    for row in rows {
        placed.push(number_row(alloc, row, numbering)?)?;
    }
    Ok(placed)
}
