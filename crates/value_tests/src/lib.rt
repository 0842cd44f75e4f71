//! Values of terms, each run. It has tests alone.
#![tactic(auto)]

#[cfg(test)]
mod cases;
#[cfg(test)]
mod expression_cases;
#[cfg(test)]
mod expressions;
#[cfg(test)]
mod moment_cases;
#[cfg(test)]
mod moments;
#[cfg(test)]
mod terms;
