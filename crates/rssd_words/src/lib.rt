//! The words of the command line: each command has one spelling, and None comes where the words are no command's.
#![tactic(auto)]

mod command;
mod head;
mod numbers;
mod reading;

pub use command::Command;
pub use head::read_head;
pub use numbers::{read_number, read_small};
pub use reading::read_words;

#[cfg(test)]
mod tests;
