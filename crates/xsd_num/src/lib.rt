//! Exact numbers of XML Schema: integers and decimals within 128 bits, read, computed with, ordered and written.
#![tactic(auto)]

mod arithmetic;
mod division;
mod exact;
pub mod law;
mod lexical;
mod num;
mod order;
mod writing;

pub use arithmetic::{abs, add, div, mul, neg, sub};
pub use lexical::{form_of, read};
pub use num::{Num, NumFault, NumForm, is_kept};
pub use order::cmp;
pub use writing::write;
