//! Query texts, and what comes of them: tokens, symbols, trees, scopes and printed texts. It has tests alone.
#![tactic(auto)]

#[cfg(test)]
mod building_tests;
#[cfg(test)]
mod expression_print_tests;
#[cfg(test)]
mod expression_tests;
#[cfg(test)]
mod group_tests;
#[cfg(test)]
mod limit_tests;
#[cfg(test)]
mod part_tests;
#[cfg(test)]
mod scope_tests;
#[cfg(test)]
mod showing;
#[cfg(test)]
mod symbol_tests;
#[cfg(test)]
mod token_tests;
#[cfg(test)]
mod tree_tests;
