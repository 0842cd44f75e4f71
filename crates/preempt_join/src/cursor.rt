//! Where a plan stands while it runs.

ghost use Rattle.std.specs.Prelude.{◌≡◌, ℕ, List, IfOk, length};
ghost use Rattle.term_core.specs.declared.term.Term.{Term as Terms};
ghost use Rattle.term_core.specs.Mappings.{Name};
ghost use Rattle.row_cells.specs.Data.{Data};
ghost use Rattle.plan_course.specs.Courses.{course_of};
ghost use Rattle.preempt_join.specs.Cursors.{HasShape, CursorAt, is_over};

use plan_course::Course;
use preempt_scan::Scan;
use row_cells::Cell;
use std::alloc::{AllocError, Global};
use term_core::IdTriple;

/// What a step gives; a row stands in the cells that the caller handed in.
#[derive(Clone, Copy, Debug, PartialEq, Eq)]
pub enum Signal {
    Row,
    NotYet,
    End,
}

/// A scan of the triples of a join's row.
#[derive(Clone, Copy, Debug, PartialEq, Eq)]
pub struct Open {
    pub scan: Scan,
    /// The triple that was given last.
    pub last: Option<IdTriple>,
}

/// Where a plan stands. A filter, a BIND and a projection stand where the plan below them does.
#[derive(Drop)]
pub enum Cursor {
    Table {
        /// How many rows were given.
        place: u32,
        /// Whether the entry behind the rows was given too.
        ended: bool,
    },
    Join {
        left: Box<Cursor>,
        /// The row of the left side that was given last, while its scan is open.
        row: Vec<Cell>,
        held: Option<Open>,
    },
    /// The side that is under way.
    Union {
        active: Box<Cursor>,
        on_second: bool,
    },
}

impl Cursor {
    /// Whether all entries were given.
    pub fn is_over(&self) -> bool
        ensures { result ≡ is_over self.now }
    {
        match self {
            Cursor::Table { ended, .. } => *ended,
            Cursor::Join { left, held, .. } => held.is_none() && left.is_over(),
            Cursor::Union { active, on_second } => *on_second && active.is_over(),
        }
    }
}

/// A row of no terms.
pub fn free_row(alloc: Global, width: usize) -> Result<Vec<Cell>, AllocError>
    ensures { IfOk result (λ row. length row.items ≡ width) }
{
    vec![in alloc; Cell::Free; width]
}

/// The cursor of a plan that has given nothing yet.
#[tactic(auto, using(plan_tree::proofs::Traces::some_steps))]
pub fn fresh(alloc: Global, plan: &Course, width: usize) -> Result<Cursor, AllocError>
    ensures shape { IfOk result (λ at. (triples terms given : ℕ) → HasShape triples terms width given (course_of plan.now) at) }
    ensures at { IfOk result (λ at. (names : List Name) (D : Data) (given made : List Terms) → CursorAt names D given made (course_of plan.now) at 0) }
{
    match plan {
        Course::Table { .. } => Ok(Cursor::Table {
            place: 0,
            ended: false,
        }),
        Course::Join { left, .. } => {
            let below = fresh(alloc, left, width)?;
            Ok(Cursor::Join {
                left: Box::new(alloc, below)?,
                row: free_row(alloc, width)?,
                held: None,
            })
        }
        Course::Union(first, _) => {
            let below = fresh(alloc, first, width)?;
            Ok(Cursor::Union {
                active: Box::new(alloc, below)?,
                on_second: false,
            })
        }
        Course::Filter { inner, .. } => fresh(alloc, inner, width),
        Course::Bind { inner, .. } => fresh(alloc, inner, width),
        Course::Project { inner, .. } => fresh(alloc, inner, width),
    }
}
