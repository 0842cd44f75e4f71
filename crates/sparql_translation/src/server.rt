//! Which operators servers evaluate.

ghost use Rattle.std.specs.Prelude.{◌≡◌};
ghost use Rattle.sparql_tree.specs.Algebra as spec;
ghost use Rattle.sparql_tree.specs.AlgebraTrees.{algebra_of};

use sparql_tree::Algebra;

#[tactic(auto, unfolding(sparql_tree::specs::AlgebraTrees::algebra_of))]
fn is_bgp(a: &Algebra) -> bool
    ensures { result ≡ spec.is_bgp (algebra_of a.now) }
{
    match a {
        Algebra::Bgp(_) => true,
        Algebra::Table { .. } => false,
        Algebra::Join(_, _) | Algebra::Union(_, _) | Algebra::Minus(_, _) => false,
        Algebra::LeftJoin { .. } => false,
        Algebra::Filter { .. } | Algebra::Extend { .. } => false,
    }
}

/// Whether a server evaluates it page by page: a basic graph pattern or a table; a join of two such, of
/// which one is a basic graph pattern; a union of two; a filter or `BIND` over one; nothing else. The
/// calls nest as deep as the operators do.
#[tactic(auto, unfolding(sparql_tree::specs::AlgebraTrees::algebra_of))]
pub fn is_server(a: &Algebra) -> bool
    ensures { result ≡ spec.is_server (algebra_of a.now) }
{
    match a {
        Algebra::Bgp(_) | Algebra::Table { .. } => true,
        Algebra::Join(left, right) => {
            is_server(left) && is_server(right) && (is_bgp(left) || is_bgp(right))
        }
        Algebra::Union(left, right) => is_server(left) && is_server(right),
        Algebra::Filter { inner, .. } | Algebra::Extend { inner, .. } => is_server(inner),
        Algebra::LeftJoin { .. } | Algebra::Minus(_, _) => false,
    }
}
