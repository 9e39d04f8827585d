//! Each branch of the rule, in its order.
ghost use Rattle.std.specs.Prelude.{◌≡◌, ◌<◌, length, IsTrue};
ghost use Rattle.block_state.specs.State.{is_spare};
ghost use Rattle.block_state.specs.Book.{HasOneSpare, state_at};

use super::*;
use std::test::Fail;

/// Whether a block is Spare.
fn is_spare_at(book: &Book, block: u32) -> bool
    requires { block < length book.now.states }
    ensures { result ≡ is_spare (state_at book.now block) }
{
    matches!(book.state_of(block), State::Spare { .. })
}

/// Whether there are three blocks, of which the last is the one Spare.
fn is_last_spare(book: &Book) -> bool
    ensures spare { IsTrue result → HasOneSpare book.now }
    ensures blocks { IsTrue result → length book.now.states ≡ 3 }
{
    let blocks = book.blocks();
    if blocks != 3 {
        return false;
    }
    let first = is_spare_at(book, 0);
    if first {
        return false;
    }
    let second = is_spare_at(book, 1);
    if second {
        return false;
    }
    is_spare_at(book, 2)
}

#[test]
fn the_first_branch_that_applies_answers(rt: HostRuntime) -> Result<(), Fail> {
    let mut book = Book::new(rt.alloc(), 3, 4, 2, 2)?;
    book.add_live(0);
    book.add_live(1);
    book.add_live(0);
    book.set_state(2, State::Spare { blank: true });
    assert!(rt; is_last_spare(&book));
    assert_eq!(rt; next(&book), NextPage::Take(0));
    book.set_state(0, State::Used { level: 0 });
    assert!(rt; is_last_spare(&book));
    assert_eq!(rt; next(&book), NextPage::Take(1));
    book.set_state(1, State::Active { fill: 3 });
    assert!(rt; is_last_spare(&book));
    assert_eq!(rt; next(&book), NextPage::Page(7));
    book.close(1);
    assert!(rt; is_last_spare(&book));
    assert_eq!(rt;
        next(&book),
        NextPage::Collect {
            victim: 1,
            spare: 2
        }
    );
    book.zero_live(0);
    assert!(rt; is_last_spare(&book));
    assert_eq!(rt; next(&book), NextPage::Wipe(0));
    Ok(())
}
