//! The die: pages of cells that are programmed one page at a time and erased one block at a time. Knows no sector.
#![tactic(auto)]

mod die;
mod power;
mod shape;
mod worn;

pub use die::Die;
pub use power::PowerDie;
pub use shape::{DieFault, Shape, Torn};
pub use worn::{Erased, WornDie};
