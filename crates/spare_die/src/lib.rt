//! A die that replaces bad blocks: where an erase goes bad, a reserve block stands in for the block from then on, and the
//! table, which is the inner block 0, says so. Knows no page's meaning.
#![tactic(auto)]

mod book;
pub mod entry;
mod error;
mod opening;
mod spare;
mod tally;
#[cfg(test)]
mod tests;

pub use error::OpenError;
pub use spare::{OpenRefused, SpareDie, open};
