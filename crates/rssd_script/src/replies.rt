//! What a session answers a line. `print_reply` gives the text.

use crate::ReplyBytes;

/// What a line is answered.
#[derive(Drop)]
pub enum Reply {
    First,
    Second,
    Declined,
    Bytes(ReplyBytes),
    Done,
    Moves(u32),
    Stat {
        first: u64,
        second: u64,
        declined: u64,
        moved: u64,
        erased: u64,
    },
    Range,
    Long,
    Off,
    Fault,
    Spent,
    NoSpare,
    NoMemory,
}
