//! Which page the next first write goes to. It knows the book alone, and makes no call of a die.
#![tactic(auto)]

pub mod next_page;

pub use next_page::{NextPage, next};
