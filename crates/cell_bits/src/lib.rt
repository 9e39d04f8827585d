//! Rows of cells, eight to a byte: cell `i` of a row is bit `i % 8` of byte `i / 8`.
//! A bit of 0 is an erased cell, a bit of 1 a charged one. This layer knows rows alone, and no page.
#![tactic(auto)]

mod bits;
mod rows;
mod words;

pub use bits::{bit, put_bits, set_bit, take_bits};
pub use rows::{charged, is_above, is_blank};

#[cfg(test)]
mod tests;
