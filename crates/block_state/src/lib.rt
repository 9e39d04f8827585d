//! The book of a device's blocks: each block's state and live count, and the closed blocks in the order of their last change.
//! It knows blocks and counts, and nothing of sectors, records or the die.
#![tactic(auto)]

mod block_set;
pub mod book;
mod kinds;
mod relist;
pub mod state;

pub use book::{Book, OutOfMemory};
pub use state::State;
