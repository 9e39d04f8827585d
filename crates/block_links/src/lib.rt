//! Doubly linked lists by index: a fixed number of lists over a fixed number of nodes, each node in one list at most.
//! It knows the numbers of nodes and lists, and nothing of what they stand for.
#![tactic(auto)]

pub mod links;

pub use links::{Links, OutOfMemory};
