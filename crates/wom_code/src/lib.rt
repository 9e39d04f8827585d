//! Codes for write-once memories: a message is kept in cells that are only ever charged.
#![tactic(auto)]

mod code;
mod flip;
mod front;
mod groups;
mod laws;
mod plain;
mod turned;
mod words;

pub use code::{Carry, FromBlank, PackedCode, WomCode};
pub use flip::Flip;
pub use laws::{
    all_rows_are_tried, carrying_rows_decode, flip_gives_the_fewest, plain_gives_the_message,
    rows_above_keep_each_charge, same_rows_are_one,
};
pub use plain::Plain;
pub use words::{charge, is_charged, pack, unpack};

#[cfg(test)]
mod tests;
