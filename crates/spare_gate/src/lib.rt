//! The slots of a page's spare area: 16 bytes each, for the record of one write.
//! A record's gate is charged last, so a slot whose gate is not charged says nothing yet. This layer
//! knows the bytes of one spare area, and neither dies nor which records are live.
#![tactic(auto)]

mod place;
mod slot;

pub use place::{gate_cell, seal_cell};
pub use slot::{gate_charged, header_at, put_header, seal_charged, slot_blank};

#[cfg(test)]
mod tests;
