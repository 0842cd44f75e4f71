//! Small rows: the names that a condition or value reads, with their terms.

ghost use Rattle.std.specs.Prelude.{◌≡◌, ◌<◌, ◌≤◌, ◌+◌, ◌*◌, ℕ, List, length, Some, Err, IfOk};
ghost use Rattle.std.specs.FinMap as finmap;
ghost use Rattle.sage_outside.specs.Blocks.{Tells};
ghost use Rattle.sage_outside.specs.Causes.{Rose};
ghost use Rattle.sparql_value.specs.Solutions.{with_value};
ghost use Rattle.triple_store.specs.Stores.{IsKept};
ghost use Rattle.triple_store.specs.Entries.{IsDamaged};
ghost use Rattle.row_cells.specs.Cells.{AreCellsIn, IsCellIn, cell_at, cell_term, name_at, row_of};
ghost use Rattle.row_cells.specs.Data.{Data, ShowsData, record_reads};
ghost use Rattle.row_cells.specs.Owns.{words_of};
ghost use Rattle.plan_course.specs.Courses.{AreRead};
ghost use Rattle.preempt_join.specs.Steps.{picked};

use row_cells::{Cell, OwnTerms};
use sage_outside::{Blocks, StoreFault};
use std::alloc::Global;
use term_core::{Row, RowBuilder, Term, Text};
use triple_store::Store;

/// Sets a name to a term.
fn put(name: &Text, term: Term, alloc: Global, row: &mut RowBuilder) -> Result<(), StoreFault>
    ensures put { IfOk result (λ u. row.new ≡ finmap.insert row.old name.now term) }
    ensures blocks { result ≡ Err StoreFault.Blocks → ⊥ }
    ensures damaged { (block : ℕ) → result ≡ Err (StoreFault.Damaged block) → ⊥ }
{
    match name.copy(alloc) {
        Err(_) => Err(StoreFault::Memory),
        Ok(name) => match row.set(name, term) {
            Err(_) => Err(StoreFault::Memory),
            Ok(()) => Ok(()),
        },
    }
}

/// Sets a name to a copy of a term.
fn put_copy(name: &Text, term: &Term, alloc: Global, row: &mut RowBuilder) -> Result<(), StoreFault>
    ensures put { IfOk result (λ u. row.new ≡ finmap.insert row.old name.now term.now) }
    ensures blocks { result ≡ Err StoreFault.Blocks → ⊥ }
    ensures damaged { (block : ℕ) → result ≡ Err (StoreFault.Damaged block) → ⊥ }
{
    match term.copy(alloc) {
        Err(_) => Err(StoreFault::Memory),
        Ok(term) => put(name, term, alloc, row),
    }
}

/// Sets a name to the term of a cell, if it has one.
fn pick_one<B: Blocks>(
    alloc: Global,
    store: &mut Store<B>,
    own: &OwnTerms,
    name: &Text,
    cell: Cell,
    row: &mut RowBuilder,
) -> Result<(), StoreFault>
    requires within { IsCellIn store.old.header.terms (length own.now.given) (length own.now.made.items) cell }
    ensures kept { IsKept store.old store.new }
    ensures failed { result ≡ Err StoreFault.Blocks → Rose store.old.device.faults store.new.device.faults }
    ensures damaged { (image : List ℕ) (block : ℕ) → Tells store.old.device.image image
        → result ≡ Err (StoreFault.Damaged block) → IsDamaged store.old.header image block }
    ensures reads { (image : List ℕ) → Tells store.old.device.image image
        → store.new.device.reads ≤ store.old.device.reads + record_reads store.old.header image }
    ensures picked { (D : Data) → ShowsData store.old.header store.old.device.image D
        → IfOk result (λ u. row.new ≡ with_value name.now (cell_term (words_of D.terms own.now) cell) row.old) }
{
    match cell {
        Cell::Free => Ok(()),
        Cell::Given(number) => put_copy(name, &own.given.as_slice()[number as usize], alloc, row),
        Cell::Made(number) => put_copy(name, &own.made[number as usize], alloc, row),
        Cell::Id(id) => match store.term(alloc, id) {
            Err(fault) => Err(fault),
            Ok(term) => put(name, term, alloc, row),
        },
    }
}

/// Sets the names at the slots to the terms of their cells.
#[tactic(auto, using(row_cells::proofs::Set::within_at))]
fn pick_into<B: Blocks>(
    alloc: Global,
    store: &mut Store<B>,
    own: &OwnTerms,
    names: &[Text],
    reads: &[usize],
    cells: &[Cell],
    row: &mut RowBuilder,
) -> Result<(), StoreFault>
    requires names { length names.now ≡ length cells.now }
    requires read { AreRead (length cells.now) reads.now }
    requires within { AreCellsIn store.old.header.terms (length own.now.given) (length own.now.made.items) cells.now }
    ensures kept { IsKept store.old store.new }
    ensures failed { result ≡ Err StoreFault.Blocks → Rose store.old.device.faults store.new.device.faults }
    ensures damaged { (image : List ℕ) (block : ℕ) → Tells store.old.device.image image
        → result ≡ Err (StoreFault.Damaged block) → IsDamaged store.old.header image block }
    ensures reads { (image : List ℕ) → Tells store.old.device.image image
        → store.new.device.reads ≤ store.old.device.reads + length reads.now * record_reads store.old.header image }
    ensures picked { (D : Data) → ShowsData store.old.header store.old.device.image D
        → IfOk result (λ u. row.new ≡ picked names.now (words_of D.terms own.now) cells.now reads.now row.old) }
{
    match reads.split_first() {
        None => Ok(()),
        Some((slot, rest)) => {
            match pick_one(alloc, store, own, &names[*slot], cells[*slot], row) {
                Err(fault) => Err(fault),
                Ok(()) => pick_into(alloc, store, own, names, rest, cells, row),
            }
        }
    }
}

/// The row of the names at the slots, each with the term of its cell; those of free cells have none.
pub fn picked_row<B: Blocks>(
    alloc: Global,
    store: &mut Store<B>,
    own: &OwnTerms,
    names: &[Text],
    reads: &[usize],
    cells: &[Cell],
) -> Result<Row, StoreFault>
    requires names { length names.now ≡ length cells.now }
    requires read { AreRead (length cells.now) reads.now }
    requires within { AreCellsIn store.old.header.terms (length own.now.given) (length own.now.made.items) cells.now }
    ensures kept { IsKept store.old store.new }
    ensures failed { result ≡ Err StoreFault.Blocks → Rose store.old.device.faults store.new.device.faults }
    ensures damaged { (image : List ℕ) (block : ℕ) → Tells store.old.device.image image
        → result ≡ Err (StoreFault.Damaged block) → IsDamaged store.old.header image block }
    ensures reads { (image : List ℕ) → Tells store.old.device.image image
        → store.new.device.reads ≤ store.old.device.reads + length reads.now * record_reads store.old.header image }
    ensures picked { (D : Data) → ShowsData store.old.header store.old.device.image D
        → IfOk result (λ row. row ≡ picked names.now (words_of D.terms own.now) cells.now reads.now finmap.empty) }
{
    let mut row = RowBuilder::new(alloc);
    match pick_into(alloc, store, own, names, reads, cells, &mut row) {
        Err(fault) => Err(fault),
        Ok(()) => match row.build(alloc) {
            Err(_) => Err(StoreFault::Memory),
            Ok(row) => Ok(row),
        },
    }
}

/// Sets each name to the term of its cell, if that has one; the last name first.
fn whole_into<B: Blocks>(
    alloc: Global,
    store: &mut Store<B>,
    own: &OwnTerms,
    names: &[Text],
    cells: &[Cell],
    row: &mut RowBuilder,
) -> Result<(), StoreFault>
    requires empty { row.old ≡ finmap.empty }
    requires within { AreCellsIn store.old.header.terms (length own.now.given) (length own.now.made.items) cells.now }
    ensures kept { IsKept store.old store.new }
    ensures failed { result ≡ Err StoreFault.Blocks → Rose store.old.device.faults store.new.device.faults }
    ensures damaged { (image : List ℕ) (block : ℕ) → Tells store.old.device.image image
        → result ≡ Err (StoreFault.Damaged block) → IsDamaged store.old.header image block }
    ensures reads { (image : List ℕ) → Tells store.old.device.image image
        → store.new.device.reads ≤ store.old.device.reads + length names.now * record_reads store.old.header image }
    ensures whole { (D : Data) → ShowsData store.old.header store.old.device.image D
        → IfOk result (λ u. row.new ≡ row_of names.now (words_of D.terms own.now) cells.now) }
{
    match names.split_first() {
        None => Ok(()),
        Some((name, rest)) => match cells.split_first() {
            None => Ok(()),
            Some((cell, others)) => match whole_into(alloc, store, own, rest, others, row) {
                Err(fault) => Err(fault),
                Ok(()) => pick_one(alloc, store, own, name, *cell, row),
            },
        },
    }
}

/// The row that cells mean, one for each name; names of free cells have no term in it.
pub fn whole_row<B: Blocks>(
    alloc: Global,
    store: &mut Store<B>,
    own: &OwnTerms,
    names: &[Text],
    cells: &[Cell],
) -> Result<Row, StoreFault>
    requires within { AreCellsIn store.old.header.terms (length own.now.given) (length own.now.made.items) cells.now }
    ensures kept { IsKept store.old store.new }
    ensures failed { result ≡ Err StoreFault.Blocks → Rose store.old.device.faults store.new.device.faults }
    ensures damaged { (image : List ℕ) (block : ℕ) → Tells store.old.device.image image
        → result ≡ Err (StoreFault.Damaged block) → IsDamaged store.old.header image block }
    ensures reads { (image : List ℕ) → Tells store.old.device.image image
        → store.new.device.reads ≤ store.old.device.reads + length names.now * record_reads store.old.header image }
    ensures whole { (D : Data) → ShowsData store.old.header store.old.device.image D
        → IfOk result (λ row. row ≡ row_of names.now (words_of D.terms own.now) cells.now) }
{
    let mut row = RowBuilder::new(alloc);
    match whole_into(alloc, store, own, names, cells, &mut row) {
        Err(fault) => Err(fault),
        Ok(()) => match row.build(alloc) {
            Err(_) => Err(StoreFault::Memory),
            Ok(row) => Ok(row),
        },
    }
}
