//! The top layer: the command line, its files, the answer of a query, and the call `run` that the program makes.
#![tactic(auto)]

mod answer;
mod build;
mod document;
mod ending;
mod file;
mod info;
mod info_lines;
mod refusal;
mod select;
mod top;
mod trial;
mod try_query;
mod words;

pub use top::run;
pub use trial::trial_triples;
pub use words::{Command, WordsFault, read_words};
