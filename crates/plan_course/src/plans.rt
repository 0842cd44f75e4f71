//! Plans with numbers, by their operators.

ghost use Rattle.std.specs.Prelude.{◌≡◌, IfOk, OnOk};
ghost use Rattle.term_core.specs.Mappings.{Name, Row};
ghost use Rattle.term_core.specs.Patterns.{pattern_of};
ghost use Rattle.sparql_tree.specs.ExprTrees.{tree_of};
ghost use Rattle.plan_tree.specs.Trace as tree;
ghost use Rattle.plan_tree.specs.Trees.{plan_in};
ghost use Rattle.plan_course.specs.Courses.{course_of};
ghost use Rattle.plan_course.specs.Courses as courses;
ghost use Rattle.plan_course.specs.Meanings.{Tells, Grown, Means};

use crate::course::Course;
use crate::kept::marks_of;
use crate::numbering::Numbering;
use crate::outside::reads_of;
use crate::pattern::number_pattern;
use crate::table::number_rows;
use plan_tree::Plan;
use sparql_tree::Expr;
use std::alloc::Global;
use term_core::{Items, Memory, Pattern, Row, Text};

/// A plan with its numbers. The calls nest as deep as the plan does.
#[tactic(auto, unfolding(plan_tree::specs::Trees::plan_in))]
pub fn number_plan(alloc: Global, plan: &Plan, numbering: &mut Numbering) -> Result<Course, Memory>
    requires tells { Tells numbering.old }
    ensures grown { OnOk result (Grown numbering.old numbering.new) }
    ensures means { IfOk result (λ course. Means numbering.new (course_of course) (plan_in plan.now)) }
{
    match plan {
        Plan::Table { variables, rows } => table(alloc, variables, rows.as_slice(), numbering),
        Plan::Join { left, pattern } => {
            let left = number_plan(alloc, left, numbering)?;
            join(alloc, left, pattern, numbering)
        }
        Plan::Union(first, second) => {
            let first = number_plan(alloc, first, numbering)?;
            let second = number_plan(alloc, second, numbering)?;
            union(alloc, first, second)
        }
        Plan::Filter { inner, condition } => {
            let inner = number_plan(alloc, inner, numbering)?;
            filter(alloc, inner, condition, numbering)
        }
        Plan::Bind {
            inner,
            variable,
            value,
        } => {
            let inner = number_plan(alloc, inner, numbering)?;
            bind(alloc, inner, variable, value, numbering)
        }
        Plan::Project { inner, variables } => {
            let inner = number_plan(alloc, inner, numbering)?;
            project(alloc, inner, variables, numbering)
        }
    }
}

/// Rows of VALUES. A table of `2^32` rows or more is refused as want of memory.
fn table(
    alloc: Global,
    variables: &Items<Text>,
    rows: &[Row],
    numbering: &mut Numbering,
) -> Result<Course, Memory>
    requires tells { Tells numbering.old }
    ensures grown { OnOk result (Grown numbering.old numbering.new) }
    ensures means { IfOk result (λ course. Means numbering.new (course_of course) (tree.rows_plan variables.now rows.now)) }
{
    if rows.len() > u32::MAX as usize {
        return Err(Memory);
    }
    let rows = number_rows(alloc, rows, numbering)?;
    Ok(Course::Table {
        variables: variables.copy(alloc)?,
        rows,
    })
}

/// A plan's rows joined with a pattern.
fn join(
    alloc: Global,
    left: Course,
    pattern: &Pattern,
    numbering: &mut Numbering,
) -> Result<Course, Memory>
    requires tells { Tells numbering.old }
    ensures grown { OnOk result (Grown numbering.old numbering.new) }
    ensures means { (plan : tree.Plan) → Means numbering.old (course_of left) plan
        → IfOk result (λ course. Means numbering.new (course_of course) (tree.join_plan plan (pattern_of pattern.now))) }
{
    let pattern = number_pattern(alloc, pattern, numbering)?;
    Ok(Course::Join {
        left: Box::new(alloc, left)?,
        pattern,
    })
}

/// The rows of two plans.
fn union(alloc: Global, first: Course, second: Course) -> Result<Course, Memory>
    ensures { IfOk result (λ course. course_of course ≡ courses.union_course (course_of first) (course_of second)) }
{
    let first = Box::new(alloc, first)?;
    let second = Box::new(alloc, second)?;
    Ok(Course::Union(first, second))
}

/// A plan's rows on which a condition is true.
fn filter(
    alloc: Global,
    inner: Course,
    condition: &Expr,
    numbering: &mut Numbering,
) -> Result<Course, Memory>
    requires tells { Tells numbering.old }
    ensures grown { OnOk result (Grown numbering.old numbering.new) }
    ensures means { (plan : tree.Plan) → Means numbering.old (course_of inner) plan
        → IfOk result (λ course. Means numbering.new (course_of course) (tree.filter_plan plan (tree_of condition.now))) }
{
    let reads = reads_of(alloc, condition, numbering)?;
    let condition = condition.copy(alloc)?;
    Ok(Course::Filter {
        inner: Box::new(alloc, inner)?,
        reads,
        condition,
    })
}

/// A plan's rows with a value under a variable. What it gives has a number above those of the plan.
fn bind(
    alloc: Global,
    inner: Course,
    variable: &Text,
    value: &Expr,
    numbering: &mut Numbering,
) -> Result<Course, Memory>
    requires tells { Tells numbering.old }
    ensures grown { OnOk result (Grown numbering.old numbering.new) }
    ensures means { (plan : tree.Plan) → Means numbering.old (course_of inner) plan
        → IfOk result (λ course. Means numbering.new (course_of course) (tree.bind_plan plan variable.now (tree_of value.now))) }
{
    let slot = numbering.slot_of(alloc, variable)?;
    let reads = reads_of(alloc, value, numbering)?;
    let place = numbering.next_place()?;
    let value = value.copy(alloc)?;
    Ok(Course::Bind {
        inner: Box::new(alloc, inner)?,
        slot,
        place,
        reads,
        value,
    })
}

/// A plan's rows restricted to variables.
fn project(
    alloc: Global,
    inner: Course,
    variables: &Items<Text>,
    numbering: &mut Numbering,
) -> Result<Course, Memory>
    requires tells { Tells numbering.old }
    ensures grown { OnOk result (Grown numbering.old numbering.new) }
    ensures means { (plan : tree.Plan) → Means numbering.old (course_of inner) plan
        → IfOk result (λ course. Means numbering.new (course_of course) (tree.project_plan plan variables.now)) }
{
    let slots = numbering.slots_of(alloc, variables.as_slice())?;
    let kept = marks_of(alloc, numbering.names.len(), slots.as_slice())?;
    let variables = variables.copy(alloc)?;
    Ok(Course::Project {
        inner: Box::new(alloc, inner)?,
        variables,
        kept,
    })
}
