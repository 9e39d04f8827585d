//! The Spare of a mount is the highest-numbered block without a live record, so that the lower ones are written first.
ghost use Rattle.std.specs.Prelude.{length};
ghost use Rattle.mount_scan.specs.Settled.{IsLastFree};

use block_state::Book;

/// The highest-numbered block without a live record, if there is one.
pub(crate) fn highest_free(book: &Book) -> Option<u32>
    ensures { IsLastFree book.now (length book.now.states) result }
{
    let mut free = None;
    for block in 0..book.blocks() {
        if book.live(block) == 0 {
            free = Some(block);
        }
    }
    free
}
