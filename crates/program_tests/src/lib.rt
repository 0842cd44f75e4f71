//! Runs of the top call over files in memory. It has tests alone.
#![tactic(auto)]

#[cfg(test)]
mod document_tests;
#[cfg(test)]
mod query_tests;
#[cfg(test)]
mod running;
#[cfg(test)]
mod store_tests;
#[cfg(test)]
mod trial_tests;
#[cfg(test)]
mod try_tests;
#[cfg(test)]
mod words_tests;
