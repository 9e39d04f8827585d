//! The die in memory, with power cuts and read failures that a caller arms. Cells of a page are bytes: cell `c` is bit
//! `c % 8` of byte `c / 8`.
#![tactic(auto)]

mod blend;
mod mem;
mod rows;
mod supply;
mod worn;

pub use mem::{DieRefusal, MemDie};
pub use worn::{OutOfMemory, WornMem};
