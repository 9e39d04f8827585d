//! The first header whose seq is not bounded.
ghost use Rattle.std.specs.Prelude.{◌≡◌};
ghost use Rattle.image_audit.specs.Marks.{first_high as first_high_of};

use crate::mark::Mark;

/// The seqs of sound cells are below this bound: no number from 2^62 on is drawn for a new command, and one command draws few.
const BOUND: u64 = (1 << 62) + (1 << 20);

/// The first mark whose seq is not bounded.
pub(crate) fn first_high(marks: &[Mark]) -> Option<Mark>
    ensures { result ≡ first_high_of marks.now }
{
    for mark in marks {
        if mark.header.seq >= BOUND {
            return Some(*mark);
        }
    }
    None
}
