//! N-Triples text (RDF 1.1 N-Triples): its grammar, a reader of documents, and a writer of triples.
#![tactic(auto)]

mod classes;
mod document;
mod escapes;
mod fault;
pub mod law;
mod lines;
mod terminals;
mod triples;
mod writing;

pub use document::{DOCUMENT_LIMIT, read_document};
pub use fault::DataFault;
pub use lines::{TERM_LIMIT, TRIPLE_LIMIT};
pub use writing::{push_line, push_term, push_triple, write_term, write_triple};
