//! A query's group as algebra, what a query measures before any operator is made, whether it has modifiers,
//! and which operators servers evaluate (SPARQL 1.1, sections 18.2 and 18.6).
#![tactic(auto)]

pub mod law;
mod measure;
mod measuring;
mod modifiers;
mod server;
mod translation;

pub use measuring::{QuerySize, size_of_query};
pub use modifiers::is_plain;
pub use server::is_server;
pub use translation::translate;
