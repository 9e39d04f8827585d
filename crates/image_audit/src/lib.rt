//! An audit of an image: a verdict on the soundness of its cells, and the sectors that they hold. It reads each slot once, and
//! knows header words, slots and records, and neither dies nor tables of blocks.
#![tactic(auto)]

mod blocks;
mod geometry;
mod header_cells;
mod held;
mod high;
mod judge;
mod live;
mod mark;
mod repeat;
mod row;
mod verdict;

pub use header_cells::header_cells_lie_below_valid_words_by_their_ones;
pub use judge::audit;
pub use row::{Held, RowBytes};
pub use verdict::Verdict;

/// Want of memory.
pub type OutOfMemory = std::alloc::AllocError;

#[cfg(test)]
mod tests;
