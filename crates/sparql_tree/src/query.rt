//! Queries (SPARQL 1.1, sections 11, 15 and 19.8).

use crate::{Expr, Group};
use term_core::{Items, Text};

/// What is selected: a variable, or a value under a variable's name.
#[derive(Drop)]
pub struct SelectItem {
    pub variable: Text,
    pub value: Option<Expr>,
}

/// By what solutions are grouped. A key that is a variable alone has that variable's name, and
/// one in parentheses without `AS` has none.
#[derive(Drop)]
pub struct GroupKey {
    pub value: Expr,
    pub variable: Option<Text>,
}

/// By what solutions are ordered.
#[derive(Drop)]
pub struct OrderKey {
    pub value: Expr,
    pub descending: bool,
}

/// A query that selects.
#[derive(Drop)]
pub struct Query {
    /// `DISTINCT`; `REDUCED` keeps all rows.
    pub distinct: bool,
    /// `*` in the place of items.
    pub star: bool,
    pub items: Items<SelectItem>,
    pub body: Group,
    pub keys: Items<GroupKey>,
    pub having: Items<Expr>,
    pub order: Items<OrderKey>,
    pub limit: Option<u64>,
    /// 0 where none is written.
    pub offset: u64,
}
