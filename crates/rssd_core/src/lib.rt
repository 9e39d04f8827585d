//! The device: numbered sectors on a die, through failed reads and power cuts. It knows offers, clean pages and idle moves, and
//! nothing of scripts.
#![tactic(auto)]

mod at_hand;
mod clean_page;
pub mod device;
mod idle;
pub mod mounting;
mod over;
mod placing;
mod row;
mod store;
pub mod whole;
pub mod worst;

pub use device::{Counts, Device, FtlError, MountError, Placed, Plan, PowerDevice, Refused};
pub use mounting::mount;
pub use whole::Ftl;
