//! Lines of a laboratory that are read from a source, a line at a time. No list of them is held.
#![tactic(auto)]

mod law;
mod stream;

pub use law::lines_of_a_stream_are_spelled;
pub use stream::Stream;
