//! Parts of a query as text.

ghost use Rattle.std.specs.Prelude.{◌≡◌, ◌++◌, ◌∷◌, [], true, flat_map, codes, OnOk, IfOk, string_bytes};
ghost use Rattle.term_core.specs.Texts.{term_text};
ghost use Rattle.sparql_tree.specs.Algebra as tree;
ghost use Rattle.sparql_tree.specs.Algebra.{is_server};
ghost use Rattle.sparql_tree.specs.AlgebraTrees.{algebra_of};
ghost use Rattle.sparql_tree.specs.ExprTrees.{tree_of};
ghost use Rattle.sparql_print.specs.ExprText.{expr_text};
ghost use Rattle.sparql_print.specs.PartText as spec;
ghost use Rattle.sparql_print.specs.PartText.{group_text, part_text};

use crate::printing::print_expr;
use nt_text::write_term;
use sparql_tree::{Algebra, Expr};
use std::alloc::Global;
use term_core::{Memory, Pattern, Place, Row, Term, Text};

fn push(out: &mut String, text: &str) -> Result<(), Memory>
    ensures { OnOk result (string_bytes out.new ≡ string_bytes out.old ++ text.now) }
{
    out.push_str(text)?;
    Ok(())
}

/// A mark and what stands behind it.
fn push_marked(out: &mut String, mark: &str, name: &Text) -> Result<(), Memory>
    ensures { OnOk result (string_bytes out.new ≡ string_bytes out.old ++ (mark.now ++ name.now)) }
{
    push(out, mark)?;
    push(out, name.as_str())
}

fn push_term(out: &mut String, alloc: Global, term: &Term) -> Result<(), Memory>
    ensures { OnOk result (string_bytes out.new ≡ string_bytes out.old ++ term_text term.now) }
{
    push(out, write_term(alloc, term)?.as_str())
}

/// A space and a place of a triple pattern.
fn push_place(out: &mut String, alloc: Global, place: &Place) -> Result<(), Memory>
    ensures { OnOk result (string_bytes out.new ≡ string_bytes out.old ++ 32 ∷ spec.place_text place.now) }
{
    push(out, " ")?;
    match place {
        Place::Var(name) => push_marked(out, "?", name),
        Place::Blank(label) => push_marked(out, "_:", label),
        Place::Term(term) => push_term(out, alloc, term),
    }
}

fn push_pattern(out: &mut String, alloc: Global, pattern: &Pattern) -> Result<(), Memory>
    ensures { OnOk result (string_bytes out.new ≡ string_bytes out.old ++ spec.pattern_text pattern.now) }
{
    push_place(out, alloc, &pattern.subject)?;
    push_place(out, alloc, &pattern.predicate)?;
    push_place(out, alloc, &pattern.object)?;
    push(out, " .")
}

fn push_patterns(out: &mut String, alloc: Global, patterns: &[Pattern]) -> Result<(), Memory>
    ensures { OnOk result (string_bytes out.new ≡ string_bytes out.old ++ flat_map spec.pattern_text patterns.now) }
{
    for pattern in patterns {
        push_pattern(out, alloc, pattern)?;
    }
    Ok(())
}

/// Triple patterns in braces.
#[tactic(auto, unfolding(crate::specs::PartText::group_text))]
fn push_bgp(out: &mut String, alloc: Global, patterns: &[Pattern]) -> Result<(), Memory>
    ensures { OnOk result (string_bytes out.new ≡ string_bytes out.old ++ group_text (tree.Bgp patterns.now)) }
{
    push(out, "{")?;
    push_patterns(out, alloc, patterns)?;
    push(out, " }")
}

/// Variables, each followed by a space.
fn push_variables(out: &mut String, variables: &[Text]) -> Result<(), Memory>
    ensures { OnOk result (string_bytes out.new ≡ string_bytes out.old ++ flat_map spec.variable_before variables.now) }
{
    for variable in variables {
        push_marked(out, "?", variable)?;
        push(out, " ")?;
    }
    Ok(())
}

/// What a row has for a variable, followed by a space.
fn push_value(out: &mut String, alloc: Global, row: &Row, variable: &Text) -> Result<(), Memory>
    ensures { OnOk result (string_bytes out.new ≡ string_bytes out.old ++ spec.value_before row.now variable.now) }
{
    match row.get(variable.bytes()) {
        Some(term) => {
            push_term(out, alloc, term)?;
            push(out, " ")
        }
        None => push(out, "UNDEF "),
    }
}

/// What a row has for each variable, each followed by a space.
fn push_values(out: &mut String, alloc: Global, row: &Row, variables: &[Text]) -> Result<(), Memory>
    ensures { OnOk result (string_bytes out.new ≡ string_bytes out.old
        ++ flat_map (spec.value_before row.now) variables.now) }
{
    for variable in variables {
        push_value(out, alloc, row, variable)?;
    }
    Ok(())
}

/// A row in parentheses, followed by a space.
fn push_row(out: &mut String, alloc: Global, variables: &[Text], row: &Row) -> Result<(), Memory>
    ensures { OnOk result (string_bytes out.new ≡ string_bytes out.old ++ spec.row_before variables.now row.now) }
{
    push(out, "( ")?;
    push_values(out, alloc, row, variables)?;
    push(out, ") ")
}

/// Rows, each followed by a space.
fn push_rows(
    out: &mut String,
    alloc: Global,
    variables: &[Text],
    rows: &[Row],
) -> Result<(), Memory>
    ensures { OnOk result (string_bytes out.new ≡ string_bytes out.old
        ++ flat_map (spec.row_before variables.now) rows.now) }
{
    for row in rows {
        push_row(out, alloc, variables, row)?;
    }
    Ok(())
}

/// A table in braces.
#[tactic(auto, unfolding(crate::specs::PartText::group_text))]
fn push_table(
    out: &mut String,
    alloc: Global,
    variables: &[Text],
    rows: &[Row],
) -> Result<(), Memory>
    ensures { OnOk result (string_bytes out.new ≡ string_bytes out.old
        ++ group_text (tree.Table variables.now rows.now)) }
{
    push(out, "{ VALUES ( ")?;
    push_variables(out, variables)?;
    push(out, ") { ")?;
    push_rows(out, alloc, variables, rows)?;
    push(out, "} }")
}

/// A condition behind its group, and the closing brace.
fn push_condition(out: &mut String, alloc: Global, condition: &Expr) -> Result<(), Memory>
    ensures { OnOk result (string_bytes out.new ≡ string_bytes out.old
        ++ (codes " FILTER ( " ++ (expr_text (tree_of condition.now) ++ codes " ) }"))) }
{
    push(out, " FILTER ( ")?;
    push(out, print_expr(alloc, condition)?.as_str())?;
    push(out, " ) }")
}

/// A value under a variable's name behind its group, and the closing brace.
fn push_bound(out: &mut String, alloc: Global, value: &Expr, variable: &Text) -> Result<(), Memory>
    ensures { OnOk result (string_bytes out.new ≡ string_bytes out.old
        ++ (codes " BIND ( " ++ (expr_text (tree_of value.now) ++ (codes " AS ?" ++ (variable.now ++ codes " ) }"))))) }
{
    push(out, " BIND ( ")?;
    push(out, print_expr(alloc, value)?.as_str())?;
    push_marked(out, " AS ?", variable)?;
    push(out, " ) }")
}

/// Appends the text of an operator as one group. After an `Err` a part of it may stand at the end of `out`.
#[cycle(group)]
#[tactic(auto, unfolding(sparql_tree::specs::AlgebraTrees::algebra_of, crate::specs::PartText::group_text))]
fn push_group(out: &mut String, alloc: Global, a: &Algebra) -> Result<(), Memory>
    requires { is_server (algebra_of a.now) ≡ true }
    ensures { OnOk result (string_bytes out.new ≡ string_bytes out.old ++ group_text (algebra_of a.now)) }
{
    match a {
        Algebra::Bgp(patterns) => push_bgp(out, alloc, patterns.as_slice()),
        Algebra::Join(left, right) => {
            push_behind(out, alloc, "{ ", left)?;
            push_behind(out, alloc, " ", right)?;
            push(out, " }")
        }
        Algebra::Union(left, right) => {
            push_behind(out, alloc, "{ ", left)?;
            push_behind(out, alloc, " UNION ", right)?;
            push(out, " }")
        }
        Algebra::Filter { condition, inner } => {
            push_behind(out, alloc, "{ ", inner)?;
            push_condition(out, alloc, condition)
        }
        Algebra::Extend {
            inner,
            variable,
            value,
        } => {
            push_behind(out, alloc, "{ ", inner)?;
            push_bound(out, alloc, value, variable)
        }
        Algebra::Table { variables, rows } => {
            push_table(out, alloc, variables.as_slice(), rows.as_slice())
        }
        Algebra::LeftJoin { .. } | Algebra::Minus(_, _) => unreachable!(),
    }
}

/// A group behind this.
#[cycle(group)]
fn push_behind(out: &mut String, alloc: Global, before: &str, inner: &Algebra) -> Result<(), Memory>
    requires { is_server (algebra_of inner.now) ≡ true }
    ensures { OnOk result (string_bytes out.new ≡ string_bytes out.old
        ++ (before.now ++ group_text (algebra_of inner.now))) }
{
    push(out, before)?;
    push_group(out, alloc, inner)
}

/// The text in which a part of a query travels to a server: a query that selects all variables of one
/// group, with one space between its pieces (SPARQL 1.1, sections 18.2 and 19.8). Each operator is one
/// group: `{ ?a ?b ?c . }` with its triple patterns, `{ G G }` a join, `{ G UNION G }`, `{ G FILTER ( E ) }`,
/// `{ G BIND ( E AS ?v ) }`, and `{ VALUES ( ?a ?b ) { ( T UNDEF ) } }` with a row for each of the table's.
/// Expressions are written as by `print_expr`, terms as by `nt_text::write_term`.
///
/// The text reads back as the part: `part_texts` proves it of each part of an accepted query. Room is linear
/// in the text, and so is time, but that a value is found in its row in the logarithm of the row's names.
/// The calls nest as deep as the operators and their expressions do.
pub fn print_part(alloc: Global, a: &Algebra) -> Result<Text, Memory>
    requires { is_server (algebra_of a.now) ≡ true }
    ensures { IfOk result (λ text. text ≡ part_text (algebra_of a.now)) }
{
    let mut out = String::new(alloc);
    push(&mut out, "SELECT * ")?;
    push_group(&mut out, alloc, a)?;
    Ok(Text::from_string(out))
}
