//! Lists of solutions joined, left-joined, subtracted, united, made distinct, projected and filtered (SPARQL 1.1, section 18.5).
#![tactic(auto)]

mod difference;
mod distinct_rows;
mod hashes;
mod index;
mod inner;
mod law;
mod left;
mod lists;
mod names;
mod pairs;
mod sieve;

pub use difference::minus;
pub use distinct_rows::distinct;
pub use inner::join;
pub use law::{distinct_keeps_each_row_once, row_equality_is_exact};
pub use left::left_join;
pub use lists::{project, union};
pub use sieve::{ConditionTest, Sieve, TestsRows};
