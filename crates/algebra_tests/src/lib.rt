//! Queries as algebra and as parts. It has tests alone.
#![tactic(auto)]

#[cfg(test)]
mod algebra_tests;
#[cfg(test)]
mod part_tests;
#[cfg(test)]
mod showing;
#[cfg(test)]
mod split_tests;
