//! A row of cells with a pattern's names bound.

ghost use Rattle.std.specs.Prelude.{◌≡◌, ◌<◌, length, ℕ, Some, None, true, false};
ghost use Rattle.store_image.specs.Table.{IsBelow};
ghost use Rattle.row_cells.specs.Cells.{AreCellsIn, IsSlot, AreSlots, bind_slot, extended};

use crate::cell::{Cell, PatternSlots, Position};
use term_core::IdTriple;

/// Binds the name at a position to a rank, unless the row has another there; false where it has.
#[tactic(auto, using(crate::proofs::Set::set_within))]
fn bind_in(cells: &mut [Cell], position: Position, id: u32) -> bool
    requires { IsSlot (length cells.old) position }
    ensures bound { result ≡ true → bind_slot position id (Some cells.old) ≡ Some cells.new }
    ensures other { result ≡ false → bind_slot position id (Some cells.old) ≡ None }
    ensures count { length cells.new ≡ length cells.old }
    ensures within { (terms given made : ℕ) → AreCellsIn terms given made cells.old → id < terms → AreCellsIn terms given made cells.new }
{
    match position {
        Position::Known(_) => true,
        Position::Slot(slot) => match cells[slot] {
            Cell::Free => {
                cells[slot] = Cell::Id(id);
                true
            }
            Cell::Id(other) => other == id,
            Cell::Given(_) => true,
            Cell::Made(_) => true,
        },
    }
}

/// Writes to `out` the row with the pattern's names bound to a triple's ranks; false where one name
/// would get two. The triple agrees with the pattern under the row.
pub fn extend_into(cells: &[Cell], pattern: &PatternSlots, ids: &IdTriple, out: &mut [Cell]) -> bool
    requires slots { AreSlots (length cells.now) pattern.now }
    requires width { length out.old ≡ length cells.now }
    ensures bound { result ≡ true → extended pattern.now cells.now ids.now ≡ Some out.new }
    ensures other { result ≡ false → extended pattern.now cells.now ids.now ≡ None }
    ensures width { length out.new ≡ length out.old }
    ensures within { (terms given made : ℕ) → AreCellsIn terms given made cells.now → IsBelow terms ids.now → AreCellsIn terms given made out.new }
{
    out.copy_from_slice(cells);
    bind_in(out, pattern.subject, ids.s)
        && (bind_in(out, pattern.predicate, ids.p) && bind_in(out, pattern.object, ids.o))
}
