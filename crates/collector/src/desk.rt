//! What a record is copied or put again with: the die, the scheme and the room of the codec, with the book and the next seq.

use block_state::Book;
use page_codec::Work;

/// The references that travel together through copies and moves.
#[derive(Drop)]
pub(crate) struct Desk<'a, D, C> {
    pub(crate) die: &'a mut D,
    pub(crate) scheme: &'a mut C,
    pub(crate) work: &'a mut Work,
    pub(crate) book: &'a mut Book,
    pub(crate) seq: &'a mut u64,
}
