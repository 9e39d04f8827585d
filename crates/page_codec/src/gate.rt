//! A put ends with two change calls: the program of the page that has the record's slot, and the charge of its gate.
//! Where either fails the gate stays uncharged, or all that the put leaves is there.

ghost use Rattle.std.specs.Prelude.{◌≡◌, ◌⊎◌, ◌<◌, ◌*◌, ◌≤◌, OnOk, OnErr};
ghost use Rattle.cell_die.specs.Cells.{IsAbove, charge};
ghost use Rattle.cell_die.specs.DieState.{page_count, page_bytes, page_of};
ghost use Rattle.cell_die.specs.Changes.{OnlyPage, IsBetween};
ghost use Rattle.cell_die.specs.Calls.{Kept, Passed, ChangeFailed};

use cell_die::{Die, DieFault};

/// Programs a page, and then charges one cell of it.
pub fn program_and_charge<D: Die>(
    die: &mut D,
    page: u32,
    target: &[u8],
    cell: u32,
) -> Result<(), DieFault>
    requires page { page < page_count (D.state die.old).shape }
    requires above { IsAbove target.now (page_of (D.state die.old) page) }
    requires cell { cell < 8 * page_bytes (D.state die.old).shape }
    ensures done { OnOk result (page_of (D.state die.new) page ≡ charge target.now cell) }
    ensures in_part { OnErr result (IsBetween (page_of (D.state die.old) page) (page_of (D.state die.new) page) target.now
        ⊎ (page_of (D.state die.new) page ≡ charge target.now cell)) }
    ensures only_page { OnlyPage page (D.state die.old) (D.state die.new) }
    ensures kept { Kept (D.state die.old) (D.state die.new) }
    ensures passed { OnOk result (Passed 2 0 (D.state die.old) (D.state die.new)) }
    ensures failed { OnErr result (ChangeFailed 2 0 (D.state die.old) (D.state die.new)) }
{
    die.program(page, target)?;
    die.charge(page, cell)
}
