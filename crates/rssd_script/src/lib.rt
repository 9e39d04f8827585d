//! Lines of a script and their replies: the grammar read, kept in pieces, and printed.
#![tactic(auto)]

mod byte_lists;
mod error;
mod grammar;
mod hex_text;
mod lines;
mod numbers;
mod pieces;
mod print;
mod reader;
mod replies;
mod script;

pub use byte_lists::{ReplyBytes, ReplyText, SectorBytes};
pub use error::{OutOfMemory, ScriptError};
pub use lines::{Line, TornWord};
pub use print::{print_line, print_reply, print_sector, print_tagged};
pub use reader::ScriptReader;
pub use replies::Reply;
pub use script::{parse, printed_lines_are_read};

#[cfg(test)]
mod tests;
