//! Workloads of `make`: the lines are drawn one after another from the words of SplitMix64.
#![tactic(auto)]

mod drawing;
mod words;
mod workload;

pub use words::{draw_bytes, draw_word};
pub use workload::make;

#[cfg(test)]
mod tests;
