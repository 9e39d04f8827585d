//! When all pages are read the blocks get their states, in ascending number: one is the Spare, and the others are what their
//! cells make them.
ghost use Rattle.std.specs.Prelude.{◌≡◌, ◌<◌, ◌≤◌, ℕ, length};
ghost use Rattle.mount_scan.specs.Noted.{IsReading};
ghost use Rattle.mount_scan.specs.Settled.{AllFound, Settles, settled};

use crate::tables::Tables;
use block_state::State;

/// The state of a block that its cells make this, if it is the Spare or not.
fn settled_state(found: State, is_spare: bool) -> State
    ensures { result ≡ settled found is_spare }
{
    if is_spare {
        State::Spare {
            blank: matches!(found, State::Clean),
        }
    } else {
        found
    }
}

/// Gives each block its state.
pub(crate) fn settle(tables: &mut Tables, spare: u32)
    requires reading { IsReading tables.old }
    requires found { AllFound tables.old.book.generations tables.old.found.items }
    ensures { Settles spare tables.old tables.new }
{
    for block in 0..tables.book.blocks() {
        let found = tables.found[block as usize];
        tables
            .book
            .set_state(block, settled_state(found, block == spare));
    }
}
