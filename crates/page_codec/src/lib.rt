//! Records put on a die and got from it. A record counts from its gate on: a put programs its pages first and charges the
//! gate of its slot last, so that up to then every sector is as it was, and from then on all of the put stands.
//! This layer knows pages, units and slots, and nothing of blocks' states or of which record is live.
#![tactic(auto)]

mod decode;
mod fault;
mod first;
mod gate;
mod place;
mod read;
mod second;
mod seen;
mod work;
mod zeros;

pub use decode::get;
pub use fault::PutFault;
pub use first::put_first;
pub use place::Place;
pub use second::put_second;
pub use seen::{Seen, SeenSlot, scan};
pub use work::{OutOfMemory, Work};
pub use zeros::put_zeros;
