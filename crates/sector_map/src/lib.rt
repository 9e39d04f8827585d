//! The map from sectors to the places of their live records. It knows sectors and slots of pages, and nothing of what stands there.
#![tactic(auto)]

pub mod entry;
pub mod map;

pub use entry::{Entry, Place2};
pub use map::{OutOfMemory, SectorMap};
