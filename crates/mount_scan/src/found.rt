//! What its cells make a block: Clean where none is charged, Reused where a last slot is written, and else Used.
ghost use Rattle.std.specs.Prelude.{◌≡◌, ◌<◌, ◌≤◌, ℕ, List};
ghost use Rattle.page_codec.specs.Geometry.{Geometry};
ghost use Rattle.page_codec.specs.TrueBook.{is_block_blank};
ghost use Rattle.mount_scan.specs.Mounted.{IsFound, IsLevel};
ghost use Rattle.mount_scan.specs.Settled.{page_level};

use block_state::State;
use page_codec::Seen;

/// The highest slot from 1 on that is not blank on a page, and 0 where there is none.
pub(crate) fn level_of(seen: &Seen) -> u32
    ensures { result ≡ page_level seen.now }
{
    if !seen.third.blank {
        2
    } else if !seen.second.blank {
        1
    } else {
        0
    }
}

/// The state of a block of this level, which is blank or not.
pub(crate) fn found_state(blank: bool, level: u32, generations: u32) -> State
    requires { level < generations }
    ensures { (g : Geometry) (cells : List (List ℕ)) (block : ℕ) → g.generations ≡ generations → is_block_blank g cells block ≡ blank
        → IsLevel g cells block level → IsFound g cells block result }
{
    if blank {
        State::Clean
    } else if level + 1 == generations {
        State::Reused
    } else {
        State::Used { level }
    }
}
