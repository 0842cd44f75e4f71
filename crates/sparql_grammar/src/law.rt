//! Laws of the grammar. Each is the contract of a function that does nothing.

ghost use Rattle.std.specs.Prelude.{◌≡◌, Bool, List, []};
ghost use Rattle.sparql_tree.specs.declared.symbol.Symbol.{Symbol};
ghost use Rattle.sparql_tree.specs.Exprs.{Expr};
ghost use Rattle.sparql_tree.specs.Groups.{Query};
ghost use Rattle.sparql_tree.specs.Expressions.{IsExpr};
ghost use Rattle.sparql_tree.specs.Queries.{IsQuery};

/// Symbols spell at most one query.
pub fn one_query()
    ensures { (symbols : List Symbol) (a b : Query) → IsQuery symbols a → IsQuery symbols b → a ≡ b }
{}

/// Symbols spell at most one expression.
pub fn one_expression()
    ensures { (aggregates : Bool) (symbols : List Symbol) (a b : Expr)
        → IsExpr aggregates symbols a [] → IsExpr aggregates symbols b [] → a ≡ b }
{}
