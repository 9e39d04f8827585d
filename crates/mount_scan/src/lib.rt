//! A mount: one read of each page of a die, in order, gives the map, the book and the next seq.
//! It knows what slots of pages say and which record of a sector is the newest, and nothing of how pages carry bytes.
#![tactic(auto)]

mod block;
mod found;
mod note;
mod page;
mod scan;
mod settle;
mod sight;
mod slot;
mod spare;
mod tables;

pub use scan::{ScanRefusal, scan_all};
pub use tables::{OutOfMemory, Tables};

#[cfg(test)]
mod tests;
