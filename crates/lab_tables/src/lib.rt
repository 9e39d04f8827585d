//! What a laboratory counts of its lines and of its die, and the tables that tell it, in lines of numbers with commas. It knows
//! replies and counts, and no device.
#![tactic(auto)]

mod answers;
mod csv;
mod tables;

pub use answers::{Answers, Met};
pub use csv::{CsvLine, csv_line};
pub use tables::{RUN_HEAD, give_blocks, give_kinds, run_row};

#[cfg(test)]
mod tests;
