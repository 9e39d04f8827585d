//! Images of a die: the bytes of a head and of the cells, page after page, and the names of the schemes.
#![tactic(auto)]

mod decoding;
mod error;
mod head;
mod laws;
mod pads;
mod reader;
mod reading;
mod scheme;
mod writing;

pub use decoding::{decode, decode_old};
pub use error::ImageError;
pub use head::{ImageHead, within_limits};
pub use laws::{
    read_cells_fit_their_head, what_is_wanted_is_within_reach, what_wants_no_more_is_refused,
};
pub use reader::ImageReader;
pub use scheme::SchemeName;
pub use writing::{encode, encode_head};

/// No memory was left.
pub type OutOfMemory = std::alloc::AllocError;

#[cfg(test)]
mod tests;
