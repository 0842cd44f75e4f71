//! Store files made of documents, what is read from them, and pages over them. It has tests alone.
#![tactic(auto)]

#[cfg(test)]
mod bound_tests;
#[cfg(test)]
mod byte_tests;
#[cfg(test)]
mod cache_tests;
#[cfg(test)]
mod calls;
#[cfg(test)]
mod dictionary_tests;
#[cfg(test)]
mod failure_tests;
#[cfg(test)]
mod header_tests;
#[cfg(test)]
mod image_tests;
#[cfg(test)]
mod level_tests;
#[cfg(test)]
mod making;
#[cfg(test)]
mod opening_tests;
#[cfg(test)]
mod page_tests;
#[cfg(test)]
mod range_tests;
#[cfg(test)]
mod reading_tests;
#[cfg(test)]
mod table_tests;
#[cfg(test)]
mod tree_image_tests;
#[cfg(test)]
mod tree_tests;
