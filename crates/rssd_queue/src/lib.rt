//! A queue of tagged commands before a device. Up to 32 wait, and reads overtake writes of other sectors, but never a command of
//! their own sector. It knows commands and the contract of a device, and nothing of scripts.
#![tactic(auto)]

pub mod ask;
pub mod laws;
mod order;
mod pick;
pub mod queue;
pub mod serve;
#[cfg(test)]
mod tests;

pub use ask::{Ask, AskBytes, Tagged};
pub use queue::{PutRefusal, Queue};
pub use serve::{Answer, Answered};
