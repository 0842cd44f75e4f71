//! Terms, documents, numbers and what is outside, each run. It has tests alone.
#![tactic(auto)]

#[cfg(test)]
mod blocks;
#[cfg(test)]
mod files;
#[cfg(test)]
mod memory;
#[cfg(test)]
mod number_cases;
#[cfg(test)]
mod numbers;
#[cfg(test)]
mod peers;
#[cfg(test)]
mod reading;
#[cfg(test)]
mod rows;
#[cfg(test)]
mod spelled;
#[cfg(test)]
mod terms;
#[cfg(test)]
mod writing;
