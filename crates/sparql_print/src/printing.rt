//! Expressions as text.

ghost use Rattle.std.specs.Prelude.{◌≡◌, ◌++◌, ◌∷◌, [], flat_map, codes, OnOk, IfOk, string_bytes};
ghost use Rattle.term_core.specs.Texts.{term_text};
ghost use Rattle.sparql_tree.specs.Exprs as tree;
ghost use Rattle.sparql_tree.specs.ExprTrees.{tree_of, trees_of, signs_of, factors_of};
ghost use Rattle.sparql_print.specs.ExprText as spec;
ghost use Rattle.sparql_print.specs.ExprText.{expr_text, expr_texts, operands_text};
ghost use Rattle.sparql_print.specs.Pieces.{between};

use nt_text::write_term;
use sparql_tree::{AggregateKind, CompareOp, Expr, Factor, Function, Signed};
use std::alloc::Global;
use term_core::{Memory, Term, Text};

/// The sign of a comparison.
fn op_text(op: CompareOp) -> &'static str
    ensures { result.now ≡ spec.op_text op }
{
    match op {
        CompareOp::Eq => "=",
        CompareOp::Ne => "!=",
        CompareOp::Lt => "<",
        CompareOp::Gt => ">",
        CompareOp::Le => "<=",
        CompareOp::Ge => ">=",
    }
}

/// The name of a function.
fn function_text(function: Function) -> &'static str
    ensures { result.now ≡ spec.function_text function }
{
    match function {
        Function::Bound => "BOUND",
        Function::SameTerm => "SAMETERM",
        Function::IsIri => "ISIRI",
        Function::IsBlank => "ISBLANK",
        Function::IsLiteral => "ISLITERAL",
        Function::IsNumeric => "ISNUMERIC",
        Function::If => "IF",
        Function::Coalesce => "COALESCE",
        Function::Str => "STR",
        Function::Lang => "LANG",
        Function::Datatype => "DATATYPE",
        Function::StrLen => "STRLEN",
        Function::StrStarts => "STRSTARTS",
        Function::StrEnds => "STRENDS",
        Function::Contains => "CONTAINS",
        Function::Concat => "CONCAT",
        Function::Abs => "ABS",
    }
}

/// The name of an aggregate.
fn aggregate_text(kind: AggregateKind) -> &'static str
    ensures { result.now ≡ spec.aggregate_text kind }
{
    match kind {
        AggregateKind::Count => "COUNT",
        AggregateKind::Sum => "SUM",
        AggregateKind::Avg => "AVG",
        AggregateKind::Min => "MIN",
        AggregateKind::Max => "MAX",
    }
}

/// The sign of a further summand.
fn sum_sign(minus: bool) -> &'static str
    ensures { result.now ≡ spec.sum_sign minus }
{
    if minus { "-" } else { "+" }
}

/// The sign of a further factor.
fn product_sign(divide: bool) -> &'static str
    ensures { result.now ≡ spec.product_sign divide }
{
    if divide { "/" } else { "*" }
}

/// The word of a membership.
fn in_text(negated: bool) -> &'static str
    ensures { result.now ≡ spec.in_text negated }
{
    if negated { "NOT IN" } else { "IN" }
}

fn push(out: &mut String, text: &str) -> Result<(), Memory>
    ensures { OnOk result (string_bytes out.new ≡ string_bytes out.old ++ text.now) }
{
    out.push_str(text)?;
    Ok(())
}

/// A sign, with a space on each side.
fn push_sign(out: &mut String, sign: &str) -> Result<(), Memory>
    ensures { OnOk result (string_bytes out.new ≡ string_bytes out.old ++ 32 ∷ (sign.now ++ 32 ∷ [])) }
{
    push(out, " ")?;
    push(out, sign)?;
    push(out, " ")
}

/// What stands before the part of this number, counted from 0: a sign, but not before the first.
fn push_between(out: &mut String, i: usize, sign: &str) -> Result<(), Memory>
    ensures { OnOk result (string_bytes out.new ≡ string_bytes out.old ++ between i sign.now) }
{
    if i == 0 {
        return Ok(());
    }
    push_sign(out, sign)
}

fn push_variable(out: &mut String, name: &Text) -> Result<(), Memory>
    ensures { OnOk result (string_bytes out.new ≡ string_bytes out.old ++ 63 ∷ name.now) }
{
    push(out, "?")?;
    push(out, name.as_str())
}

fn push_constant(out: &mut String, alloc: Global, term: &Term) -> Result<(), Memory>
    ensures { OnOk result (string_bytes out.new ≡ string_bytes out.old ++ term_text term.now) }
{
    push(out, write_term(alloc, term)?.as_str())
}

/// Appends the text of an expression. After an `Err` a part of it may stand at the end of `out`.
#[cycle(print)]
#[tactic(auto, using(sparql_tree::proofs::ExprViews::views), unfolding(crate::specs::ExprText::expr_text))]
fn push_expr(out: &mut String, alloc: Global, e: &Expr) -> Result<(), Memory>
    ensures { OnOk result (string_bytes out.new ≡ string_bytes out.old ++ expr_text (tree_of e.now)) }
{
    match e {
        Expr::Var(name) => push_variable(out, name),
        Expr::Const(term) => push_constant(out, alloc, term),
        Expr::Or(parts) => push_chain(out, alloc, "||", parts),
        Expr::And(parts) => push_chain(out, alloc, "&&", parts),
        Expr::Not(value) => push_unary(out, alloc, "!", value),
        Expr::Plus(value) => push_unary(out, alloc, "+", value),
        Expr::Minus(value) => push_unary(out, alloc, "-", value),
        Expr::Compare { op, left, right } => {
            push_opened(out, alloc, left)?;
            push_right(out, alloc, op_text(*op), right)
        }
        Expr::OneOf {
            left,
            items,
            negated,
        } => {
            push_opened(out, alloc, left)?;
            push_items(out, alloc, in_text(*negated), items)
        }
        Expr::Sum { first, rest } => {
            push_opened(out, alloc, first)?;
            push_signed(out, alloc, rest)
        }
        Expr::Product { first, rest } => {
            push_opened(out, alloc, first)?;
            push_factors(out, alloc, rest)
        }
        Expr::Call {
            function,
            arguments,
        } => push_call(out, alloc, *function, arguments),
        Expr::Aggregate {
            kind,
            distinct,
            argument,
        } => match argument {
            None => push_all(out, *kind, *distinct),
            Some(argument) => push_aggregate(out, alloc, *kind, *distinct, argument),
        },
    }
}

/// Parts with a sign between, in parentheses.
#[cycle(print)]
fn push_chain(out: &mut String, alloc: Global, sign: &str, parts: &[Expr]) -> Result<(), Memory>
    ensures { OnOk result (string_bytes out.new ≡ string_bytes out.old
        ++ spec.in_parens (spec.separated sign.now (expr_texts (tree.exprs (trees_of parts.now))))) }
{
    push(out, "( ")?;
    push_joined(out, alloc, sign, parts)?;
    push(out, " )")
}

/// Parts with a sign between.
#[cycle(print)]
#[tactic(auto, using(crate::proofs::Texts::texts_are))]
fn push_joined(out: &mut String, alloc: Global, sign: &str, parts: &[Expr]) -> Result<(), Memory>
    ensures { OnOk result (string_bytes out.new ≡ string_bytes out.old
        ++ spec.separated sign.now (expr_texts (tree.exprs (trees_of parts.now)))) }
{
    for (i, part) in parts.iter().enumerate() {
        push_between(out, i, sign)?;
        push_expr(out, alloc, part)?;
    }
    Ok(())
}

/// A list in parentheses, with commas between.
#[cycle(print)]
#[tactic(auto, using(crate::proofs::Texts::list_cases))]
fn push_list(out: &mut String, alloc: Global, items: &[Expr]) -> Result<(), Memory>
    ensures { OnOk result (string_bytes out.new ≡ string_bytes out.old
        ++ spec.list_text (expr_texts (tree.exprs (trees_of items.now)))) }
{
    if items.is_empty() {
        return push(out, "( )");
    }
    push_chain(out, alloc, ",", items)
}

/// A sign before a value, in parentheses.
#[cycle(print)]
#[tactic(auto, unfolding(crate::specs::ExprText::expr_text))]
fn push_unary(out: &mut String, alloc: Global, sign: &str, value: &Expr) -> Result<(), Memory>
    ensures { OnOk result (string_bytes out.new ≡ string_bytes out.old
        ++ spec.in_parens (spec.spaced sign.now (expr_text (tree_of value.now)))) }
{
    push(out, "( ")?;
    push(out, sign)?;
    push(out, " ")?;
    push_expr(out, alloc, value)?;
    push(out, " )")
}

/// An opening parenthesis and what stands behind it.
#[cycle(print)]
fn push_opened(out: &mut String, alloc: Global, first: &Expr) -> Result<(), Memory>
    ensures { OnOk result (string_bytes out.new ≡ string_bytes out.old
        ++ spec.spaced (codes "(") (expr_text (tree_of first.now))) }
{
    push(out, "( ")?;
    push_expr(out, alloc, first)
}

/// A sign, what stands behind it, and the closing parenthesis.
#[cycle(print)]
fn push_right(out: &mut String, alloc: Global, sign: &str, right: &Expr) -> Result<(), Memory>
    ensures { OnOk result (string_bytes out.new ≡ string_bytes out.old
        ++ 32 ∷ spec.spaced sign.now (spec.spaced (expr_text (tree_of right.now)) (codes ")"))) }
{
    push_sign(out, sign)?;
    push_expr(out, alloc, right)?;
    push(out, " )")
}

/// A word, a list, and the closing parenthesis.
#[cycle(print)]
fn push_items(out: &mut String, alloc: Global, word: &str, items: &[Expr]) -> Result<(), Memory>
    ensures { OnOk result (string_bytes out.new ≡ string_bytes out.old
        ++ 32 ∷ spec.spaced word.now
        (spec.spaced (spec.list_text (expr_texts (tree.exprs (trees_of items.now)))) (codes ")"))) }
{
    push_sign(out, word)?;
    push_list(out, alloc, items)?;
    push(out, " )")
}

/// Further summands, each behind its sign, and the closing parenthesis.
#[cycle(print)]
#[tactic(auto, using(crate::proofs::Texts::signed_are))]
fn push_signed(out: &mut String, alloc: Global, rest: &[Signed]) -> Result<(), Memory>
    ensures { OnOk result (string_bytes out.new ≡ string_bytes out.old
        ++ spec.spaced (operands_text spec.sum_sign (tree.operands (signs_of rest.now))) (codes ")")) }
{
    for signed in rest {
        push_sign(out, sum_sign(signed.minus))?;
        push_expr(out, alloc, &signed.value)?;
    }
    push(out, " )")
}

/// Further factors, each behind its sign, and the closing parenthesis.
#[cycle(print)]
#[tactic(auto, using(crate::proofs::Texts::factors_are))]
fn push_factors(out: &mut String, alloc: Global, rest: &[Factor]) -> Result<(), Memory>
    ensures { OnOk result (string_bytes out.new ≡ string_bytes out.old
        ++ spec.spaced (operands_text spec.product_sign (tree.operands (factors_of rest.now))) (codes ")")) }
{
    for factor in rest {
        push_sign(out, product_sign(factor.divide))?;
        push_expr(out, alloc, &factor.value)?;
    }
    push(out, " )")
}

#[cycle(print)]
#[tactic(auto, unfolding(crate::specs::ExprText::expr_text))]
fn push_call(
    out: &mut String,
    alloc: Global,
    function: Function,
    arguments: &[Expr],
) -> Result<(), Memory>
    ensures { OnOk result (string_bytes out.new ≡ string_bytes out.old
        ++ expr_text (tree.Call function (tree.exprs (trees_of arguments.now)))) }
{
    push(out, function_text(function))?;
    push(out, " ")?;
    push_list(out, alloc, arguments)
}

/// An aggregate's name and what stands before its argument.
fn push_kind(out: &mut String, kind: AggregateKind, distinct: bool) -> Result<(), Memory>
    ensures { OnOk result (string_bytes out.new ≡ string_bytes out.old
        ++ (spec.aggregate_text kind ++ (codes " ( " ++ spec.distinct_text distinct))) }
{
    push(out, aggregate_text(kind))?;
    push(out, " ( ")?;
    if distinct {
        return push(out, "DISTINCT ");
    }
    Ok(())
}

#[cycle(print)]
#[tactic(auto, unfolding(crate::specs::ExprText::expr_text))]
fn push_aggregate(
    out: &mut String,
    alloc: Global,
    kind: AggregateKind,
    distinct: bool,
    argument: &Expr,
) -> Result<(), Memory>
    ensures { OnOk result (string_bytes out.new ≡ string_bytes out.old
        ++ expr_text (tree.Aggregate kind distinct (tree_of argument.now))) }
{
    push_kind(out, kind, distinct)?;
    push_expr(out, alloc, argument)?;
    push(out, " )")
}

#[tactic(auto, unfolding(crate::specs::ExprText::expr_text))]
fn push_all(out: &mut String, kind: AggregateKind, distinct: bool) -> Result<(), Memory>
    ensures { OnOk result (string_bytes out.new ≡ string_bytes out.old ++ expr_text (tree.AggregateAll kind distinct)) }
{
    push_kind(out, kind, distinct)?;
    push(out, "* )")
}

/// The text of an expression, with one space between its pieces: `?v`, a constant as
/// `nt_text::write_term` writes it, each operation in parentheses of its own, as `( ?a + ?b - ?c )`,
/// and the names of functions in upper case, as `STR ( ?a )` (SPARQL 1.1, section 19.8, rules 110 to
/// 127). A number is written as a literal with its datatype. Time and room are linear in the text; the
/// calls nest as deep as the expression does.
pub fn print_expr(alloc: Global, e: &Expr) -> Result<Text, Memory>
    ensures { IfOk result (λ text. text ≡ expr_text (tree_of e.now)) }
{
    let mut out = String::new(alloc);
    push_expr(&mut out, alloc, e)?;
    Ok(Text::from_string(out))
}
