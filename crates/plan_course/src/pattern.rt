//! Patterns with numbers.

ghost use Rattle.std.specs.Prelude.{◌≡◌, IfOk, OnOk};
ghost use Rattle.term_core.specs.Patterns.{position_of, pattern_of};
ghost use Rattle.plan_course.specs.Meanings.{Tells, Grown, IsPosition, IsPattern};

use crate::numbering::Numbering;
use row_cells::{PatternSlots, Position};
use std::alloc::Global;
use term_core::{Memory, Pattern, Place};

/// A place of a pattern with its number.
fn number_place(alloc: Global, place: &Place, numbering: &mut Numbering) -> Result<Position, Memory>
    requires tells { Tells numbering.old }
    ensures grown { OnOk result (Grown numbering.old numbering.new) }
    ensures position { IfOk result (λ position. IsPosition numbering.new position (position_of place.now)) }
{
    match place {
        Place::Var(name) => Ok(Position::Slot(numbering.slot_of(alloc, name)?)),
        Place::Blank(label) => Ok(Position::Slot(numbering.slot_of_label(alloc, label)?)),
        Place::Term(term) => Ok(Position::Known(numbering.number_term(alloc, term)?)),
    }
}

/// A pattern with its numbers.
pub fn number_pattern(
    alloc: Global,
    pattern: &Pattern,
    numbering: &mut Numbering,
) -> Result<PatternSlots, Memory>
    requires tells { Tells numbering.old }
    ensures grown { OnOk result (Grown numbering.old numbering.new) }
    ensures pattern { IfOk result (λ slots. IsPattern numbering.new slots (pattern_of pattern.now)) }
{
    let subject = number_place(alloc, &pattern.subject, numbering)?;
    let predicate = number_place(alloc, &pattern.predicate, numbering)?;
    let object = number_place(alloc, &pattern.object, numbering)?;
    Ok(PatternSlots {
        subject,
        predicate,
        object,
    })
}
