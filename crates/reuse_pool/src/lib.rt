//! Which units of used blocks take the next writes, and which blocks offer theirs. It knows the book alone, and makes no call of a die.
#![tactic(auto)]

pub mod recycling;
pub mod unit;

pub use recycling::recycle_due;
pub use unit::{ReuseUnit, offer, pass};
