//! A Used block without live records may offer its units in the next slot. The lowest such blocks do, while few enough blocks do.
ghost use Rattle.std.specs.Prelude.{◌≡◌, ◌<◌, ◌≤◌, ◌↔◌, ℕ, false, length, IsTrue};
ghost use Rattle.block_state.specs.Book.{state_at, with_state};
ghost use Rattle.reuse_pool.specs.Recycling.{IsDue, Recycles, recycled, recycled_count};

use block_state::{Book, State};

/// Lets a due block offer its units in the next slot.
fn recycle(book: &mut Book, block: u32)
    requires block { block < length book.old.states }
    requires due { IsDue book.old block }
    ensures { book.new ≡ with_state book.old block (recycled (state_at book.old block)) }
{
    let _generations = book.generations();
    let State::Used { level } = book.state_of(block) else {
        unreachable!();
    };
    book.set_state(
        block,
        State::Recycled {
            level: level + 1,
            next: 0,
        },
    );
}

/// Lets due blocks offer their units, the lowest block first, while fewer than `reuse_max` blocks do.
pub fn recycle_due(book: &mut Book, reuse_max: u32)
    ensures recycles { Recycles reuse_max book.old book.new }
    ensures settled { (b : ℕ) → IsDue book.new b → reuse_max ≤ recycled_count book.new }
{
    if book.units() == 0 {
        return;
    }
    for _ in book.recycled_count()..reuse_max {
        let Some(block) = book.lowest_empty_used() else {
            return;
        };
        recycle(book, block);
    }
}

#[cfg(test)]
mod tests;
