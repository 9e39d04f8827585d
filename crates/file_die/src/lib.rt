//! A die whose cells stand in memory and beside it in a file: each change call puts the cells of its page or block into the file,
//! and an error of the file is a fault of the die. Knows no sector, no scheme and no head of an image.
#![tactic(auto)]

mod die;
mod file;
mod mirror;
#[cfg(test)]
mod tests;

pub use die::FileDie;
pub use file::{FileMirror, OpenFault};
pub use mirror::{MemMirror, Mirror, PutFault};
