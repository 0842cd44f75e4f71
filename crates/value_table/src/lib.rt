//! The tables of values, as definitions: what a term is to the operators of SPARQL, and the order of the keys of ORDER BY; and laws
//! over them.
#![tactic(auto)]

mod law;

pub use law::{
    comparisons_follow, equality_is_an_equivalence, keys_are_in_order, less_is_an_order,
};
