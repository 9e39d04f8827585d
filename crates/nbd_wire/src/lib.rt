//! The messages of the NBD protocol, as types and as bytes: fixed newstyle, with simple replies. Numbers stand in them the highest
//! byte first. Knows no device, no source and no sink.
#![tactic(auto)]

mod answer;
mod command;
mod numbers;
mod option;
mod reply;
mod request;

pub use answer::{Answer, AnswerHead, Export, greeting};
pub use command::Command;
pub use option::{OptionHead, OptionKind, is_choice};
pub use reply::{Errno, ReplyHead};
pub use request::Request;

#[cfg(test)]
mod tests;
