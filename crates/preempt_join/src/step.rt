//! One step of a plan under way.

ghost use Rattle.std.specs.Prelude.{◌≡◌, ◌<◌, ◌≤◌, ◌+◌, ◌*◌, ◌^◌, ℕ, List, length, replicate, slice_get, IfOk, IsSome, Some, Err};
ghost use Rattle.std.specs.FinMap as finmap;
ghost use Rattle.term_core.specs.declared.term.Term.{Term as Terms};
ghost use Rattle.term_core.specs.declared.pattern.IdTriple.{IdTriple as Ids};
ghost use Rattle.sage_outside.specs.Blocks.{Tells};
ghost use Rattle.sage_outside.specs.Causes.{Rose};
ghost use Rattle.sparql_tree.specs.ExprTrees.{tree_of};
ghost use Rattle.sparql_value.specs.Evaluation.{value_under, is_true_under};
ghost use Rattle.triple_store.specs.Stores.{IsKept};
ghost use Rattle.triple_store.specs.Entries.{IsDamaged};
ghost use Rattle.preempt_scan.specs.Scans.{HasGiven};
ghost use Rattle.row_cells.specs.declared.cell.Cell.{Cell as Cells};
ghost use Rattle.row_cells.specs.declared.cell.Cell.TheVariants.{Free};
ghost use Rattle.row_cells.specs.Cells.{AreCellsIn, AreSlots, AreKnown};
ghost use Rattle.row_cells.specs.Data.{Data, ShowsData, record_reads};
ghost use Rattle.row_cells.specs.Laws.{IsOnce};
ghost use Rattle.row_cells.specs.Owns.{words_of, HasRoom, AreSought, IsSameOwn};
ghost use Rattle.plan_course.specs.Courses.{course_of, cells_of, ArePlaced, AllPlaced, AreRead, IsWide, IsNumbered, makes, cost};
ghost use Rattle.preempt_join.specs.Cursors.{HasShape, IsOpenIn, IsHeldIn, is_over};
ghost use Rattle.preempt_join.specs.Steps.{Advances, IsGivenIn, KeepsOwn, TableGives, quiet, Opens, GoesOn, sifted, picked, Assigns, freed};

use crate::cursor::{Cursor, Open, Signal, fresh};
use crate::pick::picked_row;
use expr_eval::{ExprError, eval, truth_of};
use plan_course::{Course, Placed};
use preempt_scan::{Found, Scan};
use row_cells::{Cell, OwnTerms, PatternSlots, asked, extend_into};
use sage_outside::{Blocks, ReadFault, StoreFault};
use sparql_tree::Expr;
use std::alloc::Global;
use term_core::{Items, Text};
use triple_store::Store;

/// The fault of a call that takes no memory as one of a call that does.
fn store_fault(fault: ReadFault) -> StoreFault
    ensures blocks { result ≡ StoreFault.Blocks → fault ≡ ReadFault.Blocks }
    ensures damaged { (block : ℕ) → result ≡ StoreFault.Damaged block → fault ≡ ReadFault.Damaged block }
{
    match fault {
        ReadFault::Blocks => StoreFault::Blocks,
        ReadFault::Damaged { block } => StoreFault::Damaged { block },
    }
}

/// Frees all cells.
fn free_all(row: &mut [Cell])
    ensures freed { row.new ≡ replicate (length row.old) Free }
{
    if let Some((cell, rest)) = row.split_first_mut() {
        *cell = Cell::Free;
        free_all(rest);
    }
}

/// Sets cells to the terms of a row of VALUES; of two for one cell the first counts.
fn set_placed(entries: &[Placed], row: &mut [Cell])
    requires free { row.old ≡ replicate (length row.old) Free }
    ensures set { row.new ≡ cells_of (length row.old) entries.now }
    ensures width { length row.new ≡ length row.old }
{
    if let Some((entry, rest)) = entries.split_first() {
        set_placed(rest, row);
        if entry.slot < row.len() {
            row[entry.slot] = Cell::Given(entry.term);
        }
    }
}

/// The next row of a table.
fn next_row(rows: &[Items<Placed>], place: &mut u32, ended: &mut bool, out: &mut [Cell]) -> Signal
    requires bounded { length rows.now < 2 ^ 32 }
    requires within { place.old ≤ length rows.now }
    ensures within { place.new ≤ length rows.now }
    ensures width { length out.new ≡ length out.old }
    ensures turn { TableGives rows.now place.old ended.old result out.new place.new ended.new }
{
    if *ended {
        return Signal::End;
    }
    match rows.get(*place as usize) {
        None => {
            *ended = true;
            Signal::NotYet
        }
        Some(row) => {
            free_all(out);
            set_placed(row.as_slice(), out);
            *place += 1;
            Signal::Row
        }
    }
}

/// Opens the scan of a row.
fn open_scan<B: Blocks>(
    alloc: Global,
    store: &mut Store<B>,
    own: &mut OwnTerms,
    pattern: &PatternSlots,
    row: &[Cell],
) -> Result<Open, StoreFault>
    requires room { HasRoom own.old }
    requires slots { AreSlots (length row.now) pattern.now }
    requires known { AreKnown (length own.old.given) pattern.now }
    requires within { AreCellsIn store.old.header.terms (length own.old.given) (length own.old.made.items) row.now }
    ensures kept { IsKept store.old store.new }
    ensures failed { result ≡ Err StoreFault.Blocks → Rose store.old.device.faults store.new.device.faults }
    ensures damaged { (image : List ℕ) (block : ℕ) → Tells store.old.device.image image
        → result ≡ Err (StoreFault.Damaged block) → IsDamaged store.old.header image block }
    ensures reads { (image : List ℕ) → Tells store.old.device.image image
        → store.new.device.reads ≤ store.old.device.reads + (6 + 75 * record_reads store.old.header image) }
    ensures own { IsSameOwn own.old own.new }
    ensures sought { (D : Data) → ShowsData store.old.header store.old.device.image D → AreSought D.terms own.old → AreSought D.terms own.new }
    ensures within { IfOk result (λ held. IsOpenIn store.old.header.triples (Some held)) }
    ensures opened { (names : List (List ℕ)) (D : Data) → ShowsData store.old.header store.old.device.image D → AreSought D.terms own.old
        → IsOnce names → length names ≡ length row.now
        → IfOk result (λ held. Opens names D (words_of D.terms own.old) pattern.now Signal.Row row.now (Some held)) }
{
    match asked(alloc, store, own, pattern, row) {
        Err(fault) => Err(fault),
        Ok(asked) => match Scan::of(store, &asked) {
            Err(fault) => Err(store_fault(fault)),
            Ok(scan) => Ok(Open { scan, last: None }),
        },
    }
}

/// Takes an entry of the left side of a join.
fn begin<B: Blocks>(
    alloc: Global,
    store: &mut Store<B>,
    own: &mut OwnTerms,
    pattern: &PatternSlots,
    turn: Signal,
    row: &[Cell],
    held: &mut Option<Open>,
) -> Result<Signal, StoreFault>
    requires room { HasRoom own.old }
    requires slots { AreSlots (length row.now) pattern.now }
    requires known { AreKnown (length own.old.given) pattern.now }
    requires within { IsGivenIn turn store.old.header.terms (length own.old.given) (length own.old.made.items) row.now }
    ensures kept { IsKept store.old store.new }
    ensures failed { result ≡ Err StoreFault.Blocks → Rose store.old.device.faults store.new.device.faults }
    ensures damaged { (image : List ℕ) (block : ℕ) → Tells store.old.device.image image
        → result ≡ Err (StoreFault.Damaged block) → IsDamaged store.old.header image block }
    ensures reads { (image : List ℕ) → Tells store.old.device.image image
        → store.new.device.reads ≤ store.old.device.reads + (6 + 75 * record_reads store.old.header image) }
    ensures own { IsSameOwn own.old own.new }
    ensures sought { (D : Data) → ShowsData store.old.header store.old.device.image D → AreSought D.terms own.old → AreSought D.terms own.new }
    ensures within { IsOpenIn store.old.header.triples held.new }
    ensures held { (terms given made : ℕ) → IsGivenIn turn terms given made row.now → IsHeldIn held.new terms given made row.now }
    ensures turn { IfOk result (λ shown. shown ≡ quiet turn) }
    ensures opens { (names : List (List ℕ)) (D : Data) → ShowsData store.old.header store.old.device.image D → AreSought D.terms own.old
        → IsOnce names → length names ≡ length row.now
        → IfOk result (λ shown. Opens names D (words_of D.terms own.old) pattern.now turn row.now held.new) }
{
    *held = None;
    match turn {
        Signal::Row => match open_scan(alloc, store, own, pattern, row) {
            Err(fault) => Err(fault),
            Ok(opened) => {
                *held = Some(opened);
                Ok(Signal::NotYet)
            }
        },
        Signal::NotYet => Ok(Signal::NotYet),
        Signal::End => Ok(Signal::End),
    }
}

/// Goes on with the scan of a row.
fn go_on<B: Blocks>(
    store: &mut Store<B>,
    pattern: &PatternSlots,
    row: &[Cell],
    held: &mut Option<Open>,
    out: &mut [Cell],
) -> Result<Signal, StoreFault>
    requires slots { AreSlots (length row.now) pattern.now }
    requires width { length out.old ≡ length row.now }
    requires held { IsSome held.old }
    requires within { IsOpenIn store.old.header.triples held.old }
    ensures kept { IsKept store.old store.new }
    ensures failed { result ≡ Err StoreFault.Blocks → Rose store.old.device.faults store.new.device.faults }
    ensures damaged { (image : List ℕ) (block : ℕ) → Tells store.old.device.image image
        → result ≡ Err (StoreFault.Damaged block) → IsDamaged store.old.header image block }
    ensures reads { (image : List ℕ) → Tells store.old.device.image image
        → store.new.device.reads ≤ store.old.device.reads + 1 }
    ensures width { length out.new ≡ length out.old }
    ensures within { IsOpenIn store.old.header.triples held.new }
    ensures held { (terms given made : ℕ) → AreCellsIn terms given made row.now → IsHeldIn held.new terms given made row.now }
    ensures cells { (given made : ℕ) → AreCellsIn store.old.header.terms given made row.now
        → IfOk result (λ turn. IsGivenIn turn store.old.header.terms given made out.new) }
    ensures turn { (D : Data) (k : ℕ) → ShowsData store.old.header store.old.device.image D → (before : Open) → held.old ≡ Some before → HasGiven D.ids before.scan k
        → IfOk result (λ turn. GoesOn D.ids pattern.now row.now held.old k turn out.new held.new) }
{
    match held {
        None => Ok(Signal::End),
        Some(opened) => match opened.scan.probe(store) {
            Err(fault) => Err(store_fault(fault)),
            Ok(Found::End) => {
                *held = None;
                Ok(Signal::NotYet)
            }
            Ok(Found::Triple(ids)) => {
                opened.last = Some(ids);
                if extend_into(row, pattern, &ids, out) {
                    Ok(Signal::Row)
                } else {
                    Ok(Signal::NotYet)
                }
            }
        },
    }
}

/// Keeps a row where a condition is true.
fn filtered<B: Blocks>(
    alloc: Global,
    store: &mut Store<B>,
    own: &OwnTerms,
    names: &[Text],
    turn: Signal,
    reads: &[usize],
    condition: &Expr,
    row: &[Cell],
) -> Result<Signal, StoreFault>
    requires names { length names.now ≡ length row.now }
    requires read { AreRead (length row.now) reads.now }
    requires within { IsGivenIn turn store.old.header.terms (length own.now.given) (length own.now.made.items) row.now }
    ensures kept { IsKept store.old store.new }
    ensures failed { result ≡ Err StoreFault.Blocks → Rose store.old.device.faults store.new.device.faults }
    ensures damaged { (image : List ℕ) (block : ℕ) → Tells store.old.device.image image
        → result ≡ Err (StoreFault.Damaged block) → IsDamaged store.old.header image block }
    ensures reads { (image : List ℕ) → Tells store.old.device.image image
        → store.new.device.reads ≤ store.old.device.reads + length reads.now * record_reads store.old.header image }
    ensures within { (terms given made : ℕ) → IsGivenIn turn terms given made row.now → IfOk result (λ shown. IsGivenIn shown terms given made row.now) }
    ensures turn { (D : Data) → ShowsData store.old.header store.old.device.image D
        → IfOk result (λ shown. shown ≡ sifted (is_true_under (tree_of condition.now) (picked names.now (words_of D.terms own.now) row.now reads.now finmap.empty)) turn) }
{
    match turn {
        Signal::Row => match picked_row(alloc, store, own, names, reads, row) {
            Err(fault) => Err(fault),
            Ok(small) => match truth_of(alloc, condition, &small) {
                Err(_) => Err(StoreFault::Memory),
                Ok(true) => Ok(Signal::Row),
                Ok(false) => Ok(Signal::NotYet),
            },
        },
        Signal::NotYet => Ok(Signal::NotYet),
        Signal::End => Ok(Signal::End),
    }
}

/// Gives a row a value; where that is the error the row stays as it is.
#[tactic(auto, using(row_cells::proofs::Set::set_within))]
fn bound<B: Blocks>(
    alloc: Global,
    store: &mut Store<B>,
    own: &mut OwnTerms,
    names: &[Text],
    turn: Signal,
    slot: usize,
    place: u32,
    reads: &[usize],
    value: &Expr,
    row: &mut [Cell],
) -> Result<Signal, StoreFault>
    requires names { length names.now ≡ length row.old }
    requires read { AreRead (length row.old) reads.now }
    requires within { IsGivenIn turn store.old.header.terms (length own.old.given) (length own.old.made.items) row.old }
    requires slot { slot < length row.old }
    requires place { place < length own.old.made.items }
    ensures kept { IsKept store.old store.new }
    ensures failed { result ≡ Err StoreFault.Blocks → Rose store.old.device.faults store.new.device.faults }
    ensures damaged { (image : List ℕ) (block : ℕ) → Tells store.old.device.image image
        → result ≡ Err (StoreFault.Damaged block) → IsDamaged store.old.header image block }
    ensures reads { (image : List ℕ) → Tells store.old.device.image image
        → store.new.device.reads ≤ store.old.device.reads + length reads.now * record_reads store.old.header image }
    ensures width { length row.new ≡ length row.old }
    ensures own { KeepsOwn own.old own.new }
    ensures ranks { own.new.ranks ≡ own.old.ranks }
    ensures within { (terms given made : ℕ) → place < made → IsGivenIn turn terms given made row.old → IsGivenIn turn terms given made row.new }
    ensures same { IfOk result (λ shown. shown ≡ turn) }
    ensures value { (D : Data) → ShowsData store.old.header store.old.device.image D
        → IfOk result (λ shown. Assigns (value_under (tree_of value.now) (picked names.now (words_of D.terms own.old) row.old reads.now finmap.empty))
        slot place turn row.old row.new own.old.made.items own.new.made.items) }
{
    match turn {
        Signal::Row => match picked_row(alloc, store, own, names, reads, row) {
            Err(fault) => Err(fault),
            Ok(small) => match eval(alloc, value, &small) {
                Err(ExprError::Memory) => Err(StoreFault::Memory),
                Err(ExprError::Error) => Ok(Signal::Row),
                Ok(term) => {
                    own.made[place as usize] = term;
                    row[slot] = Cell::Made(place);
                    Ok(Signal::Row)
                }
            },
        },
        Signal::NotYet => Ok(Signal::NotYet),
        Signal::End => Ok(Signal::End),
    }
}

/// Lets go the cells that are not kept.
fn free_others(kept: &[bool], row: &mut [Cell])
    ensures freed { row.new ≡ freed kept.now row.old }
{
    if let Some((cell, cells)) = row.split_first_mut() {
        match kept.split_first() {
            None => {
                *cell = Cell::Free;
                free_others(kept, cells);
            }
            Some((keep, rest)) => {
                if !*keep {
                    *cell = Cell::Free;
                }
                free_others(rest, cells);
            }
        }
    }
}

/// One step. Where it gives a row, this stands in `out`. The calls nest as deep as the plan does.
pub fn advance<B: Blocks>(
    plan: &Course,
    at: &mut Cursor,
    out: &mut [Cell],
    names: &[Text],
    own: &mut OwnTerms,
    alloc: Global,
    store: &mut Store<B>,
) -> Result<Signal, StoreFault>
    requires room { HasRoom own.old }
    requires names { length names.now ≡ length out.old }
    requires wide { IsWide (length out.old) (length own.old.given) (length own.old.made.items) (course_of plan.now) }
    requires shape { HasShape store.old.header.triples store.old.header.terms (length out.old) (length own.old.given) (course_of plan.now) at.old }
    ensures kept { IsKept store.old store.new }
    ensures failed { result ≡ Err StoreFault.Blocks → Rose store.old.device.faults store.new.device.faults }
    ensures damaged { (image : List ℕ) (block : ℕ) → Tells store.old.device.image image
        → result ≡ Err (StoreFault.Damaged block) → IsDamaged store.old.header image block }
    ensures reads { (image : List ℕ) → Tells store.old.device.image image
        → store.new.device.reads ≤ store.old.device.reads + cost (record_reads store.old.header image) (course_of plan.now) }
    ensures width { length out.new ≡ length out.old }
    ensures own { KeepsOwn own.old own.new }
    ensures room { HasRoom own.new }
    ensures within { IfOk result (λ turn. IsGivenIn turn store.old.header.terms (length own.old.given) (makes (course_of plan.now)) out.new) }
    ensures shape { HasShape store.old.header.triples store.old.header.terms (length out.old) (length own.old.given) (course_of plan.now) at.new }
    ensures sought { (D : Data) → ShowsData store.old.header store.old.device.image D → AreSought D.terms own.old → AreSought D.terms own.new }
    ensures turn { (D : Data) → ShowsData store.old.header store.old.device.image D → AreSought D.terms own.old → IsOnce names.now → IsNumbered names.now (course_of plan.now)
        → IfOk result (λ turn. Advances names.now D own.old.given (course_of plan.now) own.old.made.items own.new.made.items at.old at.new turn out.new) }
{
    match plan {
        Course::Table { rows, .. } => match at {
            Cursor::Table { place, ended } => Ok(next_row(rows.as_slice(), place, ended, out)),
            _ => unreachable!(),
        },
        Course::Join { left, pattern } => match at {
            Cursor::Join {
                left: below,
                row,
                held,
            } => {
                if held.is_some() {
                    go_on(store, pattern, row.as_slice(), held, out)
                } else {
                    match advance(left, below, row.as_mut_slice(), names, own, alloc, store) {
                        Err(fault) => Err(fault),
                        Ok(turn) => begin(alloc, store, own, pattern, turn, row.as_slice(), held),
                    }
                }
            }
            _ => unreachable!(),
        },
        Course::Union(first, second) => match at {
            Cursor::Union { active, on_second } => {
                if *on_second {
                    advance(second, active, out, names, own, alloc, store)
                } else {
                    match advance(first, active, out, names, own, alloc, store) {
                        Err(fault) => Err(fault),
                        Ok(turn) => {
                            if active.is_over() {
                                match fresh(alloc, second, out.len()) {
                                    Err(_) => Err(StoreFault::Memory),
                                    Ok(next) => {
                                        **active = next;
                                        *on_second = true;
                                        Ok(turn)
                                    }
                                }
                            } else {
                                Ok(turn)
                            }
                        }
                    }
                }
            }
            _ => unreachable!(),
        },
        Course::Filter {
            inner,
            reads,
            condition,
        } => match advance(inner, at, out, names, own, alloc, store) {
            Err(fault) => Err(fault),
            Ok(turn) => filtered(
                alloc,
                store,
                own,
                names,
                turn,
                reads.as_slice(),
                condition,
                out,
            ),
        },
        Course::Bind {
            inner,
            slot,
            place,
            reads,
            value,
        } => match advance(inner, at, out, names, own, alloc, store) {
            Err(fault) => Err(fault),
            Ok(turn) => bound(
                alloc,
                store,
                own,
                names,
                turn,
                *slot,
                *place,
                reads.as_slice(),
                value,
                out,
            ),
        },
        Course::Project { inner, kept, .. } => match advance(
            inner, at, out, names, own, alloc, store,
        ) {
            Err(fault) => Err(fault),
            Ok(turn) => {
                free_others(kept.as_slice(), out);
                Ok(turn)
            }
        },
    }
}
