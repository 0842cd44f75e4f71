//! Laws of printed expressions, and of the names of variables. Each is the contract of a function that does nothing.

ghost use Rattle.std.specs.Prelude.{◌≡◌, ◌≤◌, ℕ, Bool, true, List, length};
ghost use Rattle.term_core.specs.Bags.{In};
ghost use Rattle.term_core.specs.Mappings.{Name};
ghost use Rattle.sparql_tree.specs.Bgp.{is_variable};
ghost use Rattle.sparql_tree.specs.Exprs.{Expr};
ghost use Rattle.sparql_tree.specs.Groups.{Group, Query};
ghost use Rattle.sparql_tree.specs.Queries.{variables};
ghost use Rattle.sparql_tree.specs.Scopes.{scope_of_group};
ghost use Rattle.sparql_tree.specs.Translation.{of_group};
ghost use Rattle.sparql_tree.specs.Variables.{in_scope};
ghost use Rattle.sparql_tree.specs.declared.symbol.Symbol.{Symbol};
ghost use Rattle.sparql_tree.specs.Refusals.{AreSymbols};
ghost use Rattle.sparql_tree.specs.Symbols.{lexemes};
ghost use Rattle.sparql_tree.specs.Unsupported.{deepest};
ghost use Rattle.sparql_tree.specs.Expressions.{IsExpr};
ghost use Rattle.sparql_tree.specs.Trees as grammar;
ghost use Rattle.sparql_print.specs.Constraints.{SpellsConstraint, ReadsBack};
ghost use Rattle.sparql_print.specs.OfTrees.{IsOfTree};
ghost use Rattle.sparql_print.specs.QueryExpressions.{EachExpression};
ghost use Rattle.sparql_print.specs.Spelled.{AreSpelledIn, IsSpelledName};
ghost use Rattle.sparql_print.specs.SpelledSymbols.{AreSpelledSymbols};

/// The text of an expression of a tree, whose names and terms can be written, spells in parentheses
/// that expression (SPARQL 1.1, 19.8, Constraint).
pub fn text_reads_back()
    ensures { (aggregates : Bool) (a : Expr) → IsOfTree aggregates a → AreSpelledIn a
        → ReadsBack aggregates a }
{}

/// A text spells at most one expression as a constraint.
pub fn one_constraint()
    ensures { (aggregates : Bool) (text : List ℕ) (a b : Expr)
        → SpellsConstraint aggregates text a → SpellsConstraint aggregates text b → a ≡ b }
{}

/// A text that spells a constraint is not refused, unless for its size or its nesting, and its symbols are
/// those of the constraint.
pub fn constraints_have_symbols()
    ensures { (aggregates : Bool) (text : List ℕ) (a : Expr) → (h : SpellsConstraint aggregates text a)
        → length text ≤ 262144 → deepest (lexemes text h.ts) ≤ 256
        → AreSymbols text h.symbols }
{}

/// The names and terms of an expression that is read of a text can be written: the symbols of a text have
/// values that can be written, and so has what they spell and what stands behind it.
pub fn read_expressions_are_spelled()
    ensures symbols { (text : List ℕ) (symbols : List Symbol) → AreSymbols text symbols → AreSpelledSymbols symbols }
    ensures expressions { (aggregates : Bool) (symbols rest : List Symbol) (a : Expr) → AreSpelledSymbols symbols
        → IsExpr aggregates symbols a rest → AreSpelledIn a × AreSpelledSymbols rest }
{}

/// Each expression of a query that is read of a text, printed in parentheses, spells that expression.
pub fn read_queries_read_back()
    ensures { (text : List ℕ) (query : Query) → grammar.IsTree text query → EachExpression ReadsBack query }
{}

/// The variables that a query of a text selects, and those in scope of its group, have names that can be written
/// (SPARQL 1.1, 18.2.1 and 19.8, VARNAME).
pub fn read_names_are_spelled()
    ensures items { (text : List ℕ) (query : Query) → grammar.IsTree text query
        → (name : Name) → In (variables query.items) name → IsSpelledName name }
    ensures scope { (text : List ℕ) (query : Query) → grammar.IsTree text query
        → (name : Name) → In (scope_of_group query.body) name → IsSpelledName name }
{}

/// The algebra that a group means has the group's variables in scope, in the same order: no join, filter or MINUS adds
/// or loses one (SPARQL 1.1, 18.2.1 and 18.2.2).
pub fn translation_keeps_scope()
    ensures { (group : Group) → in_scope (of_group group) ≡ scope_of_group group }
{}

/// A name that can be written is a variable's and no blank node's: it has no colon (SPARQL 1.1, 19.8, VARNAME).
pub fn spelled_names_are_variables()
    ensures { (name : Name) → IsSpelledName name → is_variable name ≡ true }
{}
