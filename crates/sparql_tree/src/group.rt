//! Group graph patterns of the query language (SPARQL 1.1, sections 5 to 10).

ghost use Rattle.std.specs.Prelude.{◌≡◌};
ghost use Rattle.sparql_tree.specs.ExprTrees.{tree_of};
ghost use Rattle.sparql_tree.specs.Groups as tree;
ghost use Rattle.sparql_tree.specs.GroupTrees.{group_of, groups_of, element_of, elements_of};

use crate::Expr;
use term_core::{Items, Pattern, Row, Text};

/// What stands between braces, in order.
#[cycle(group)]
#[derive(Drop)]
pub struct Group {
    pub elements: Vec<Element>,
}

/// A part of a group.
#[cycle(group)]
#[derive(Drop)]
pub enum Element {
    /// Triple patterns, of one or more.
    Triples(Items<Pattern>),
    /// A group, or the union of two or more.
    Groups(Vec<Group>),
    /// `OPTIONAL`
    Optional(Group),
    /// `MINUS`
    Minus(Group),
    /// `FILTER`
    Filter(Expr),
    /// `BIND`
    Bind {
        value: Expr,
        variable: Text,
    },
    /// `VALUES`: the rows bind no other variables than these, and where `UNDEF` stands none.
    Values {
        variables: Items<Text>,
        rows: Items<Row>,
    },
}

impl Group {
    /// The group of these parts.
    pub fn new(elements: Vec<Element>) -> Group
        ensures { group_of result ≡ tree.GroupOf (tree.elements (elements_of elements.items)) }
    {
        Group { elements }
    }
}

impl Element {
    /// Triple patterns.
    #[tactic(auto, unfolding(crate::specs::GroupTrees::element_of))]
    pub fn triples(patterns: Items<Pattern>) -> Element
        ensures { element_of result ≡ tree.Triples patterns }
    {
        Element::Triples(patterns)
    }

    /// A group, or the union of two or more.
    #[tactic(auto, using(crate::proofs::GroupViews::union_view))]
    pub fn union(groups: Vec<Group>) -> Element
        ensures { element_of result ≡ tree.Union (tree.groups (groups_of groups.items)) }
    {
        Element::Groups(groups)
    }

    /// `OPTIONAL`
    #[tactic(auto, using(crate::proofs::GroupViews::optional_view))]
    pub fn optional(group: Group) -> Element
        ensures { element_of result ≡ tree.Optional (group_of group) }
    {
        Element::Optional(group)
    }

    /// `MINUS`
    #[tactic(auto, using(crate::proofs::GroupViews::minus_view))]
    pub fn minus(group: Group) -> Element
        ensures { element_of result ≡ tree.Minus (group_of group) }
    {
        Element::Minus(group)
    }

    /// `FILTER`
    #[tactic(auto, unfolding(crate::specs::GroupTrees::element_of))]
    pub fn filter(value: Expr) -> Element
        ensures { element_of result ≡ tree.Filter (tree_of value) }
    {
        Element::Filter(value)
    }

    /// `BIND`
    #[tactic(auto, unfolding(crate::specs::GroupTrees::element_of))]
    pub fn bind(value: Expr, variable: Text) -> Element
        ensures { element_of result ≡ tree.Bind (tree_of value) variable }
    {
        Element::Bind { value, variable }
    }

    /// `VALUES`
    #[tactic(auto, unfolding(crate::specs::GroupTrees::element_of))]
    pub fn values(variables: Items<Text>, rows: Items<Row>) -> Element
        ensures { element_of result ≡ tree.Values variables rows }
    {
        Element::Values { variables, rows }
    }
}
