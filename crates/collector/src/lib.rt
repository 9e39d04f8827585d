//! Live records are moved: those of a victim all at once into the Spare, and single ones in idle time to the Active block.
//! Copies of a collection count from one cell on, the seal of their block, so a cut leaves all of them or none.
//! It knows the rules of collections and of idle moves, and nothing of offers or of whole commands.
#![tactic(auto)]

mod again;
mod blank;
mod collection;
mod copy;
mod desk;
mod effect;
mod idle;
mod live;
mod moves;
mod scan;
mod seal;
mod settle;

pub use collection::collect;
pub use effect::record_effect;
pub use idle::move_one;
pub use moves::Moves;
