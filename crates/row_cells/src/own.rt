//! Terms that a plan brings, and what a pattern asks for under a row of cells.

ghost use Rattle.std.specs.Prelude.{◌≡◌, ◌<◌, ◌≤◌, ◌+◌, ◌*◌, ℕ, List, length, Some, Err, IfOk};
ghost use Rattle.sage_outside.specs.Blocks.{Tells};
ghost use Rattle.sage_outside.specs.Causes.{Rose};
ghost use Rattle.store_image.specs.Table.{term_numbered};
ghost use Rattle.triple_store.specs.Stores.{IsKept};
ghost use Rattle.triple_store.specs.Entries.{IsDamaged};
ghost use Rattle.row_cells.specs.Cells.{AreCellsIn, AreKnown, AreSlots, IsCellIn, IsSlot, cell_term, position_cell};
ghost use Rattle.row_cells.specs.Data.{Data, ShowsData, record_reads};
ghost use Rattle.row_cells.specs.Owns.{Wants, words_of, HasRoom, AreSought, IsSameOwn, AsksFor};

use crate::cell::{Cell, PatternSlots, Position};
use sage_outside::{Blocks, StoreFault};
use std::alloc::Global;
use term_core::{Items, Term};
use triple_store::{Asked, Store, Wanted};

/// Terms that a plan brings, each by a number.
#[derive(Drop)]
pub struct OwnTerms {
    /// The terms of its patterns and of VALUES.
    pub given: Items<Term>,
    /// For each of them what it asks for by its rank, once that was looked up.
    pub ranks: Vec<Option<Wanted>>,
    /// For each BIND the term that it gave last; an IRI without a byte before it gave one.
    pub made: Vec<Term>,
}

/// What a term asks for by its rank.
fn wanted_of<B: Blocks>(
    alloc: Global,
    store: &mut Store<B>,
    term: &Term,
) -> Result<Wanted, StoreFault>
    ensures kept { IsKept store.old store.new }
    ensures failed { result ≡ Err StoreFault.Blocks → Rose store.old.device.faults store.new.device.faults }
    ensures damaged { (image : List ℕ) (block : ℕ) → Tells store.old.device.image image
        → result ≡ Err (StoreFault.Damaged block) → IsDamaged store.old.header image block }
    ensures reads { (image : List ℕ) → Tells store.old.device.image image
        → store.new.device.reads ≤ store.old.device.reads + 25 * record_reads store.old.header image }
    ensures wanted { (D : Data) → ShowsData store.old.header store.old.device.image D → IfOk result (Wants D.terms (Some term.now)) }
{
    match store.id_of(alloc, term) {
        Err(fault) => Err(fault),
        Ok(rank) => Ok(Wanted::of(rank)),
    }
}

/// What a term of the plan asks for. It is looked up once.
fn wanted_of_given<B: Blocks>(
    alloc: Global,
    store: &mut Store<B>,
    own: &mut OwnTerms,
    number: u32,
) -> Result<Wanted, StoreFault>
    requires number { number < length own.old.given }
    requires room { HasRoom own.old }
    ensures kept { IsKept store.old store.new }
    ensures failed { result ≡ Err StoreFault.Blocks → Rose store.old.device.faults store.new.device.faults }
    ensures damaged { (image : List ℕ) (block : ℕ) → Tells store.old.device.image image
        → result ≡ Err (StoreFault.Damaged block) → IsDamaged store.old.header image block }
    ensures reads { (image : List ℕ) → Tells store.old.device.image image
        → store.new.device.reads ≤ store.old.device.reads + 25 * record_reads store.old.header image }
    ensures own { IsSameOwn own.old own.new }
    ensures sought { (D : Data) → ShowsData store.old.header store.old.device.image D → AreSought D.terms own.old → AreSought D.terms own.new }
    ensures wanted { (D : Data) → ShowsData store.old.header store.old.device.image D → AreSought D.terms own.old
        → IfOk result (Wants D.terms (Some (term_numbered own.old.given number))) }
{
    match own.ranks[number as usize] {
        Some(wanted) => Ok(wanted),
        None => match wanted_of(alloc, store, &own.given.as_slice()[number as usize]) {
            Err(fault) => Err(fault),
            Ok(wanted) => {
                own.ranks[number as usize] = Some(wanted);
                Ok(wanted)
            }
        },
    }
}

/// What a cell asks for.
fn wanted_by<B: Blocks>(
    alloc: Global,
    store: &mut Store<B>,
    own: &mut OwnTerms,
    cell: Cell,
) -> Result<Wanted, StoreFault>
    requires room { HasRoom own.old }
    requires within { IsCellIn store.old.header.terms (length own.old.given) (length own.old.made.items) cell }
    ensures kept { IsKept store.old store.new }
    ensures failed { result ≡ Err StoreFault.Blocks → Rose store.old.device.faults store.new.device.faults }
    ensures damaged { (image : List ℕ) (block : ℕ) → Tells store.old.device.image image
        → result ≡ Err (StoreFault.Damaged block) → IsDamaged store.old.header image block }
    ensures reads { (image : List ℕ) → Tells store.old.device.image image
        → store.new.device.reads ≤ store.old.device.reads + 25 * record_reads store.old.header image }
    ensures own { IsSameOwn own.old own.new }
    ensures sought { (D : Data) → ShowsData store.old.header store.old.device.image D → AreSought D.terms own.old → AreSought D.terms own.new }
    ensures wanted { (D : Data) → ShowsData store.old.header store.old.device.image D → AreSought D.terms own.old
        → IfOk result (Wants D.terms (cell_term (words_of D.terms own.old) cell)) }
{
    match cell {
        Cell::Free => Ok(Wanted::Any),
        Cell::Id(id) => Ok(Wanted::Only(id)),
        Cell::Given(number) => wanted_of_given(alloc, store, own, number),
        Cell::Made(number) => wanted_of(alloc, store, &own.made[number as usize]),
    }
}

/// The cell that stands at a position.
fn cell_of(row: &[Cell], position: Position) -> Cell
    requires { IsSlot (length row.now) position }
    ensures { result ≡ position_cell row.now position }
{
    match position {
        Position::Known(number) => Cell::Given(number),
        Position::Slot(slot) => row[slot],
    }
}

/// What a pattern asks for under a row. No name that stands twice is looked at here. Memory is taken
/// while the ranks of terms that are not the data's are looked for; at most 75 times as many blocks
/// are read as for a term.
#[tactic(auto, using(crate::proofs::Set::position_within))]
pub fn asked<B: Blocks>(
    alloc: Global,
    store: &mut Store<B>,
    own: &mut OwnTerms,
    pattern: &PatternSlots,
    row: &[Cell],
) -> Result<Asked, StoreFault>
    requires room { HasRoom own.old }
    requires slots { AreSlots (length row.now) pattern.now }
    requires known { AreKnown (length own.old.given) pattern.now }
    requires within { AreCellsIn store.old.header.terms (length own.old.given) (length own.old.made.items) row.now }
    ensures kept { IsKept store.old store.new }
    ensures failed { result ≡ Err StoreFault.Blocks → Rose store.old.device.faults store.new.device.faults }
    ensures damaged { (image : List ℕ) (block : ℕ) → Tells store.old.device.image image
        → result ≡ Err (StoreFault.Damaged block) → IsDamaged store.old.header image block }
    ensures reads { (image : List ℕ) → Tells store.old.device.image image
        → store.new.device.reads ≤ store.old.device.reads + 75 * record_reads store.old.header image }
    ensures own { IsSameOwn own.old own.new }
    ensures sought { (D : Data) → ShowsData store.old.header store.old.device.image D → AreSought D.terms own.old → AreSought D.terms own.new }
    ensures asked { (D : Data) → ShowsData store.old.header store.old.device.image D → AreSought D.terms own.old
        → IfOk result (AsksFor D.terms (words_of D.terms own.old) pattern.now row.now) }
{
    match wanted_by(alloc, store, own, cell_of(row, pattern.subject)) {
        Err(fault) => Err(fault),
        Ok(s) => match wanted_by(alloc, store, own, cell_of(row, pattern.predicate)) {
            Err(fault) => Err(fault),
            Ok(p) => match wanted_by(alloc, store, own, cell_of(row, pattern.object)) {
                Err(fault) => Err(fault),
                Ok(o) => Ok(Asked { s, p, o }),
            },
        },
    }
}
