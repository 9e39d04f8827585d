//! A sector in chunks, each kept by a code in a row of cells that is spread over the pages of a unit.
#![tactic(auto)]

mod bytes;
mod chunks;
mod groups;
mod laws;
mod rows;
mod scheme;
mod stripes;

pub use laws::{a_first_write_gives_each_chunk, a_later_write_gives_each_chunk};
pub use scheme::Scheme;
pub use stripes::{OutOfMemory, Striped};

#[cfg(test)]
mod tests;
