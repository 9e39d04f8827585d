//! The words of a laboratory's command line: each order has one spelling, and None comes where the words are none.
#![tactic(auto)]

mod asked;
mod reading;

pub use asked::{Asked, AskedDie, DieFrom, DieKind, LinesFrom, Voice};
pub use reading::read_words;

#[cfg(test)]
mod tests;
