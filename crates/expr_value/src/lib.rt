//! What terms are to the operators of SPARQL: their values, truth, equality, order, and the order of the keys of ORDER BY.
#![tactic(auto)]

mod comparison;
mod key;
mod value;

pub use comparison::{compare_values, equal, equal_terms, less};
pub use key::order_keys;
pub use value::{NoValue, Value, truth, truth_of_value, value_of};
