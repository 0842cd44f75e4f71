//! Numbers for the names and terms of a plan.

ghost use Rattle.std.specs.Prelude.{◌≡◌, length, IfOk};
ghost use Rattle.plan_tree.specs.Trees.{plan_in};
ghost use Rattle.row_cells.specs.Laws.{IsOnce};
ghost use Rattle.plan_course.specs.Courses.{course_of, plan_of, IsWide, IsNumbered};

use crate::course::Course;
use crate::numbering::Numbering;
use crate::plans::number_plan;
use plan_tree::Plan;
use std::alloc::Global;
use term_core::{Items, Memory, Term, Text};

/// A plan whose names and terms are numbered.
#[derive(Drop)]
pub struct Numbered {
    pub names: Items<Text>,
    pub given: Items<Term>,
    pub made: u32,
    pub course: Course,
}

/// Numbers the names, the terms and the BINDs of a plan. A plan with more than `2^32` terms, BINDs or
/// rows of one table is refused as want of memory.
pub fn number(alloc: Global, plan: &Plan) -> Result<Numbered, Memory>
    ensures plan { IfOk result (λ n. plan_of n.names n.given (course_of n.course) ≡ plan_in plan.now) }
    ensures once { IfOk result (λ n. IsOnce n.names) }
    ensures wide { IfOk result (λ n. IsWide (length n.names) (length n.given) n.made (course_of n.course)) }
    ensures numbered { IfOk result (λ n. IsNumbered n.names (course_of n.course)) }
{
    let mut numbering = Numbering::new(alloc);
    let course = number_plan(alloc, plan, &mut numbering)?;
    let Numbering {
        names,
        given,
        made,
        ..
    } = numbering;
    Ok(Numbered {
        names,
        given,
        made,
        course,
    })
}
