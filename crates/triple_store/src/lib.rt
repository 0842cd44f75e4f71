//! The set of triples behind a store file: terms by their ranks, and triples in three orders.
#![tactic(auto)]

mod asked;
mod law;
mod list;
mod range;
mod store;

pub use asked::{Asked, Wanted};
pub use law::stores_stay;
pub use list::triple_of;
pub use range::Range;
pub use store::{Info, OpenFault, Store, Unopened};
