//! Where the lines of a laboratory come from: drawn from a seed, or read as a stream, a line at a time. No list of them is held.
#![tactic(auto)]

mod drawn;
mod kind;
mod law;
mod lines;
mod zipf;

pub use drawn::{Drawn, Plan};
pub use kind::Kind;
pub use law::drawn_lines_are_those_of_their_seed;
pub use lines::{Lines, LinesEnd};

#[cfg(test)]
mod tests;
