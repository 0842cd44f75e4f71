//! A plan under way, with its row and whether a step of it was refused.

ghost use Rattle.std.specs.Prelude.{◌≡◌, ◌<◌, ◌≤◌, ◌+◌, ◌*◌, ◌↔◌, ℕ, List, length, replicate, slice_get, Some, None, Err, true, false, IfOk, IfErr};
ghost use Rattle.std.specs.FinMap as finmap;
ghost use Rattle.sage_outside.specs.Blocks.{Tells};
ghost use Rattle.sage_outside.specs.Causes.{Rose};
ghost use Rattle.store_image.specs.declared.header.Header.{Header as Headers};
ghost use Rattle.plan_tree.specs.Spelling.{nodes};
ghost use Rattle.plan_tree.specs.Trace.{trace};
ghost use Rattle.plan_tree.specs.Trees.{plan_in, state_in};
ghost use Rattle.triple_store.specs.Stores.{IsKept};
ghost use Rattle.triple_store.specs.Entries.{IsDamaged};
ghost use Rattle.row_cells.specs.Cells.{AreCellsIn, row_of};
ghost use Rattle.row_cells.specs.Data.{Data, ShowsData, record_reads};
ghost use Rattle.row_cells.specs.Owns.{words_of};
ghost use Rattle.plan_course.specs.Courses.{course_of};
ghost use Rattle.preempt_join.specs.Nodes.{Fits, NodeAt, Gives, behind, plan_under, step_reads, IsStateAfter, HasFewNames};

use crate::cursor::{Cursor, Signal, free_row, fresh};
use crate::pick::whole_row;
use crate::states::state;
use crate::step::advance;
use plan_course::{Course, Numbered, number};
use plan_tree::{Plan, State};
use row_cells::{Cell, OwnTerms};
use sage_outside::{Blocks, StoreFault};
use std::alloc::{AllocError, Global};
use term_core::{Items, Memory, Row, Term, Text};
use triple_store::{Store, Wanted};

/// What a step gives.
#[derive(Drop)]
pub enum Turn {
    /// The entry of the trace is this row.
    Row(Row),
    /// The entry of the trace has no row.
    NotYet,
    /// All entries were given.
    End,
}

/// Why a step gave nothing.
#[derive(Clone, Copy, Debug, PartialEq, Eq)]
pub enum StepFault {
    /// An earlier step of this node was refused.
    Spent,
    /// A block could not be read.
    Blocks,
    /// What begins in that block is not well formed.
    Damaged { block: u32 },
    /// The allocator had no room.
    Memory,
}

/// Why a node has no state to tell.
#[derive(Clone, Copy, Debug, PartialEq, Eq)]
pub enum StateFault {
    /// A step of this node was refused.
    Spent,
    /// The allocator had no room.
    Memory,
}

/// A plan under way. It holds the plan with its names and terms numbered, a cursor for each table, join
/// and union, and one row of cells for each join; no place in the list of entries.
#[derive(Drop)]
pub struct Node {
    names: Items<Text>,
    course: Course,
    own: OwnTerms,
    at: Cursor,
    row: Vec<Cell>,
    spent: bool,
}

/// The fault of a store as one of a step.
fn step_fault(fault: StoreFault) -> StepFault
    ensures spent { result ≡ StepFault.Spent → ⊥ }
    ensures blocks { result ≡ StepFault.Blocks → fault ≡ StoreFault.Blocks }
    ensures damaged { (block : ℕ) → result ≡ StepFault.Damaged block → fault ≡ StoreFault.Damaged block }
{
    match fault {
        StoreFault::Blocks => StepFault::Blocks,
        StoreFault::Damaged { block } => StepFault::Damaged { block },
        StoreFault::Memory => StepFault::Memory,
    }
}

/// The ranks of so many terms, none of which was looked up.
fn no_ranks(alloc: Global, count: usize) -> Result<Vec<Option<Wanted>>, AllocError>
    ensures { IfOk result (λ ranks. ranks.items ≡ replicate count None) }
{
    vec![in alloc; None; count]
}

/// A term that stands where none was given yet.
fn no_term(alloc: Global) -> Result<Term, Memory> {
    Ok(Term::Iri(Text::from_str(alloc, "")?))
}

/// So many terms, for those that BINDs give.
fn no_terms(alloc: Global, count: u32) -> Result<Vec<Term>, Memory>
    ensures { IfOk result (λ terms. length terms.items ≡ count) }
{
    let mut terms = Vec::new(alloc);
    'terms: for _ in 0..count {
        terms.push(no_term(alloc)?)?;
    }
    Ok(terms)
}

impl Node {
    /// A plan that has given nothing yet. Its names and terms are numbered here, once. The calls nest
    /// as deep as the plan does.
    pub fn fresh(alloc: Global, plan: &Plan) -> Result<Node, Memory>
        ensures plan { IfOk result (λ node. plan_under node ≡ plan_in plan.now) }
        ensures fits { IfOk result (λ node. (header : Headers) → Fits header node) }
        ensures start { IfOk result (λ node. (D : Data) → NodeAt D node 0) }
    {
        let numbered = number(alloc, plan)?;
        let width = numbered.names.len();
        let ranks = no_ranks(alloc, numbered.given.len())?;
        let made = no_terms(alloc, numbered.made)?;
        let at = fresh(alloc, &numbered.course, width)?;
        let row = free_row(alloc, width)?;
        Ok(Node {
            names: numbered.names,
            course: numbered.course,
            own: OwnTerms {
                given: numbered.given,
                ranks,
                made,
            },
            at,
            row,
            spent: false,
        })
    }

    /// One step. A node that stands behind n entries of its plan's trace answers the next of them,
    /// and stands behind it; behind the last it answers `End` and stays. The store is the same at
    /// each step: one that holds the same data.
    ///
    /// `Spent` comes exactly where an earlier step of this node was refused, for whatever reason.
    /// `Blocks` comes only where a read failed, and `Damaged` only where the block is not well formed
    /// or, in format 2, its tag does not agree. Memory is taken for the terms that are read, and once
    /// where a union goes over to its second side.
    ///
    /// With R blocks at most for a term (4 + L / 4080, with L the bytes of the longest record), a step
    /// reads at most 6 + 75 R blocks for each join of the plan, and R for each name that a condition
    /// or value reads and for each name of the plan; so at most 6 + 80 R for each part of a plan
    /// that has few names for its joins.
    pub fn step<B: Blocks>(
        &mut self,
        alloc: Global,
        store: &mut Store<B>,
    ) -> Result<Turn, StepFault>
        requires fits { Fits store.old.header self.old }
        ensures kept { IsKept store.old store.new }
        ensures fits { Fits store.new.header self.new }
        ensures plan { plan_under self.new ≡ plan_under self.old }
        ensures failed { result ≡ Err StepFault.Blocks → Rose store.old.device.faults store.new.device.faults }
        ensures damaged { (image : List ℕ) (block : ℕ) → Tells store.old.device.image image
            → result ≡ Err (StepFault.Damaged block) → IsDamaged store.old.header image block }
        ensures whole { (D : Data) (block : ℕ) → ShowsData store.old.header store.old.device.image D → result ≡ Err (StepFault.Damaged block) → ⊥ }
        ensures reads { (image : List ℕ) → Tells store.old.device.image image
            → store.new.device.reads ≤ store.old.device.reads + step_reads (record_reads store.old.header image) self.old }
        ensures few { (image : List ℕ) → Tells store.old.device.image image → HasFewNames self.old
            → store.new.device.reads ≤ store.old.device.reads + nodes (plan_under self.old) * (6 + 80 * record_reads store.old.header image) }
        ensures spent { (result ≡ Err StepFault.Spent) ↔ (self.old.spent ≡ true) }
        ensures refused { IfErr result (λ fault. self.new.spent ≡ true) }
        ensures gives { (D : Data) (n : ℕ) → ShowsData store.old.header store.old.device.image D → NodeAt D self.old n
            → IfOk result (λ turn. Gives turn (slice_get (trace D.triples (plan_under self.old)) n) × NodeAt D self.new (behind turn n)) }
    {
        if self.spent {
            return Err(StepFault::Spent);
        }
        self.spent = true;
        match advance(
            &self.course,
            &mut self.at,
            self.row.as_mut_slice(),
            self.names.as_slice(),
            &mut self.own,
            alloc,
            store,
        ) {
            Err(fault) => Err(step_fault(fault)),
            Ok(Signal::End) => {
                self.spent = false;
                Ok(Turn::End)
            }
            Ok(Signal::NotYet) => {
                self.spent = false;
                Ok(Turn::NotYet)
            }
            Ok(Signal::Row) => {
                match whole_row(
                    alloc,
                    store,
                    &self.own,
                    self.names.as_slice(),
                    self.row.as_slice(),
                ) {
                    Err(fault) => Err(step_fault(fault)),
                    Ok(row) => {
                        self.spent = false;
                        Ok(Turn::Row(row))
                    }
                }
            }
        }
    }

    /// Where the node stands: the state at that place of its plan's trace, and `Done` behind the last
    /// entry. `Spent` comes exactly where a step of the node was refused. The calls nest as deep as
    /// the plan does.
    pub fn state(&self, alloc: Global) -> Result<State, StateFault>
        ensures spent { (result ≡ Err StateFault.Spent) ↔ (self.now.spent ≡ true) }
        ensures stands { (D : Data) (n : ℕ) → NodeAt D self.now n → IfOk result (λ s. IsStateAfter D (plan_under self.now) n (state_in s)) }
    {
        if self.spent {
            return Err(StateFault::Spent);
        }
        match state(alloc, &self.at) {
            Err(_) => Err(StateFault::Memory),
            Ok(state) => Ok(state),
        }
    }
}
