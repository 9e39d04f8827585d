//! The page after the last one written, else the lowest Clean block, else the victim: erased where nothing lives in it, and else
//! collected into the Spare.
ghost use Rattle.std.specs.Prelude.{◌≤◌, length};
ghost use Rattle.block_state.specs.Book.{HasOneSpare};
ghost use Rattle.page_alloc.specs.CleanPage.{IsNext};

use block_state::{Book, State};

/// What gives the next record a page. Pages and blocks go by their numbers on the die.
#[derive(Clone, Copy, Debug, PartialEq, Eq)]
pub enum NextPage {
    /// This page of the Active block is the next one.
    Page(u32),
    /// This Clean block becomes Active.
    Take(u32),
    /// This closed block, which has no live records, is erased and becomes Active.
    Wipe(u32),
    /// The live records of the victim are copied to the Spare, which becomes Active.
    Collect { victim: u32, spare: u32 },
}

/// What gives the next record a page, by the clean page rule.
pub fn next(book: &Book) -> NextPage
    requires spare { HasOneSpare book.now }
    requires two_blocks { 2 ≤ length book.now.states }
    ensures { IsNext book.now result }
{
    if let Some(block) = book.active() {
        let State::Active { fill } = book.state_of(block) else {
            unreachable!()
        };
        return NextPage::Page(block * book.pages() + fill);
    }
    if let Some(block) = book.lowest_clean() {
        return NextPage::Take(block);
    }
    let Some(victim) = book.victim() else {
        unreachable!()
    };
    if book.live(victim) == 0 {
        NextPage::Wipe(victim)
    } else {
        NextPage::Collect {
            victim,
            spare: book.spare(),
        }
    }
}

#[cfg(test)]
mod tests;
