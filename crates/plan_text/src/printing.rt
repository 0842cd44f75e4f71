//! Plans as text.

ghost use Rattle.std.specs.Prelude.{◌≡◌, ◌++◌, ◌∷◌, flat_map, codes, OnOk, IfOk, string_bytes};
ghost use Rattle.std.specs.Fmt.{decimal};
ghost use Rattle.term_core.specs.Texts.{term_text};
ghost use Rattle.sparql_tree.specs.ExprTrees.{tree_of};
ghost use Rattle.sparql_print.specs.ExprText.{expr_text};
ghost use Rattle.sparql_print.specs.PartText.{place_text};
ghost use Rattle.plan_text.specs.PlanText.{triple_text, variable_behind, variables_behind, plan_text};

use nt_text::write_term;
use plan_tree::Plan;
use sparql_print::print_expr;
use sparql_tree::Expr;
use std::alloc::Global;
use term_core::{Memory, Pattern, Place, Term, Text};

fn push(out: &mut String, text: &str) -> Result<(), Memory>
    ensures { OnOk result (string_bytes out.new ≡ string_bytes out.old ++ text.now) }
{
    out.push_str(text)?;
    Ok(())
}

/// A mark and what stands behind it.
fn push_marked(out: &mut String, mark: &str, name: &Text) -> Result<(), Memory>
    ensures { OnOk result (string_bytes out.new ≡ string_bytes out.old ++ (mark.now ++ name.now)) }
{
    push(out, mark)?;
    push(out, name.as_str())
}

fn push_term(out: &mut String, alloc: Global, term: &Term) -> Result<(), Memory>
    ensures { OnOk result (string_bytes out.new ≡ string_bytes out.old ++ term_text term.now) }
{
    push(out, write_term(alloc, term)?.as_str())
}

fn push_expr(out: &mut String, alloc: Global, e: &Expr) -> Result<(), Memory>
    ensures { OnOk result (string_bytes out.new ≡ string_bytes out.old ++ expr_text (tree_of e.now)) }
{
    push(out, print_expr(alloc, e)?.as_str())
}

fn push_count(out: &mut String, alloc: Global, count: usize) -> Result<(), Memory>
    ensures { OnOk result (string_bytes out.new ≡ string_bytes out.old ++ decimal count) }
{
    let digits = format!(in alloc; "{count}")?;
    push(out, digits.as_str())
}

/// A place of a triple pattern.
fn push_place(out: &mut String, alloc: Global, place: &Place) -> Result<(), Memory>
    ensures { OnOk result (string_bytes out.new ≡ string_bytes out.old ++ place_text place.now) }
{
    match place {
        Place::Var(name) => push_marked(out, "?", name),
        Place::Blank(label) => push_marked(out, "_:", label),
        Place::Term(term) => push_term(out, alloc, term),
    }
}

/// A triple pattern without its point.
fn push_triple(out: &mut String, alloc: Global, pattern: &Pattern) -> Result<(), Memory>
    ensures { OnOk result (string_bytes out.new ≡ string_bytes out.old ++ triple_text pattern.now) }
{
    push_place(out, alloc, &pattern.subject)?;
    push(out, " ")?;
    push_place(out, alloc, &pattern.predicate)?;
    push(out, " ")?;
    push_place(out, alloc, &pattern.object)
}

/// Variables, each behind a space.
fn push_variables(out: &mut String, variables: &[Text]) -> Result<(), Memory>
    ensures { OnOk result (string_bytes out.new ≡ string_bytes out.old ++ flat_map variable_behind variables.now) }
{
    for variable in variables {
        push_marked(out, " ?", variable)?;
    }
    Ok(())
}

/// The variables of a projection behind its plan, if there are any.
fn push_selected(out: &mut String, variables: &[Text]) -> Result<(), Memory>
    ensures { OnOk result (string_bytes out.new ≡ string_bytes out.old ++ variables_behind variables.now) }
{
    match variables {
        [] => Ok(()),
        [first, rest @ ..] => {
            push_marked(out, ", ?", first)?;
            push_variables(out, rest)
        }
    }
}

/// Appends the text of a plan. After an `Err` a part of it may stand at the end of `out`.
#[tactic(auto, unfolding(crate::specs::PlanText::plan_text))]
fn push_plan(out: &mut String, alloc: Global, plan: &Plan) -> Result<(), Memory>
    ensures { OnOk result (string_bytes out.new ≡ string_bytes out.old ++ plan_text plan.now) }
{
    match plan {
        Plan::Table { rows, .. } => {
            push(out, "table(")?;
            push_count(out, alloc, rows.len())?;
        }
        Plan::Join { left, pattern } => {
            push(out, "join(")?;
            push_plan(out, alloc, left)?;
            push(out, ", ")?;
            push_triple(out, alloc, pattern)?;
        }
        Plan::Union(first, second) => {
            push(out, "union(")?;
            push_plan(out, alloc, first)?;
            push(out, ", ")?;
            push_plan(out, alloc, second)?;
        }
        Plan::Filter { inner, condition } => {
            push(out, "filter(")?;
            push_plan(out, alloc, inner)?;
            push(out, ", ")?;
            push_expr(out, alloc, condition)?;
        }
        Plan::Bind {
            inner,
            variable,
            value,
        } => {
            push(out, "bind(")?;
            push_plan(out, alloc, inner)?;
            push(out, ", ")?;
            push_expr(out, alloc, value)?;
            push_marked(out, ", ?", variable)?;
        }
        Plan::Project { inner, variables } => {
            push(out, "project(")?;
            push_plan(out, alloc, inner)?;
            push_selected(out, variables.as_slice())?;
        }
    }
    push(out, ")")
}

/// The text of a plan: `table(R)` with R rows, `join(P, s p o)`, `union(P, P)`, `filter(P, E)`, `bind(P, E, ?v)`, and
/// `project(P, ?a ?b)`, or `project(P)` without variables. Expressions are written as by
/// `sparql_print::print_expr`, terms as by `nt_text::write_term`, blank nodes of the query as `_:label`.
///
/// The text is for people and is never read. Room and time are linear in it. The calls nest as deep as
/// the plan and its expressions do.
pub fn print_plan(alloc: Global, plan: &Plan) -> Result<Text, Memory>
    ensures { IfOk result (λ text. text ≡ plan_text plan.now) }
{
    let mut out = String::new(alloc);
    push_plan(&mut out, alloc, plan)?;
    Ok(Text::from_string(out))
}
