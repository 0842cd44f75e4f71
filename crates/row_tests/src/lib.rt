//! Lists of solutions joined, subtracted and made distinct, each run. It has tests alone.
#![tactic(auto)]

#[cfg(test)]
mod nested;
#[cfg(test)]
mod operators;
#[cfg(test)]
mod random;
#[cfg(test)]
mod tables;
