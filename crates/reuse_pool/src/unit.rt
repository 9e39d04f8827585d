//! The offer is the next unit of the lowest Recycled block. Written or declined, it is passed, and the block after its last unit
//! waits for its next level or is spent.
ghost use Rattle.std.specs.Prelude.{◌≡◌, length, IfSome, IfNone};
ghost use Rattle.block_state.specs.Book.{with_state};
ghost use Rattle.reuse_pool.specs.Offer.{IsOffer, NoneRecycledBelow, passed};

use block_state::{Book, State};

/// A unit, and the slot for its next write.
#[derive(Clone, Copy, Debug, PartialEq, Eq)]
pub struct ReuseUnit {
    /// The block's number.
    pub block: u32,
    /// The unit's number within the block.
    pub number: u32,
    /// The slot, from 1 on.
    pub slot: u32,
}

/// The next unit of the lowest Recycled block, if a block is Recycled.
pub fn offer(book: &Book) -> Option<ReuseUnit>
    ensures found { IfSome result (IsOffer book.now) }
    ensures none { IfNone result (NoneRecycledBelow book.now (length book.now.states)) }
{
    let block = book.lowest_recycled()?;
    let State::Recycled { level, next } = book.state_of(block) else {
        unreachable!();
    };
    Some(ReuseUnit {
        block,
        number: next,
        slot: level,
    })
}

/// Goes on to the next unit of the offer's block. After the last one the block is Reused in its last slot, and else Used.
pub fn pass(book: &mut Book, unit: ReuseUnit)
    requires { IsOffer book.old unit }
    ensures { book.new ≡ with_state book.old unit.block (passed book.old unit) }
{
    let units = book.units();
    let State::Recycled { level, next } = book.state_of(unit.block) else {
        unreachable!();
    };
    let state = if next + 1 < units {
        State::Recycled {
            level,
            next: next + 1,
        }
    } else if level + 1 < book.generations() {
        State::Used { level }
    } else {
        State::Reused
    };
    book.set_state(unit.block, state);
}
