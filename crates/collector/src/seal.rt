//! The seal of a block stands on its first page. From it on the block's copies count, all at once.
ghost use Rattle.std.specs.Prelude.{◌≡◌, ◌⊎◌, ◌*◌, ◌<◌, ◌≤◌, OnOk, OnErr};
ghost use Rattle.cell_die.specs.Cells.{charge};
ghost use Rattle.cell_die.specs.DieState.{page_of, page_count, page_bytes};
ghost use Rattle.cell_die.specs.Changes.{OnlyPage};
ghost use Rattle.cell_die.specs.Calls.{Kept, Passed, ChangeFailed};
ghost use Rattle.spare_gate.specs.Slots.{seal_cell_of};

use cell_die::{Die, DieFault};
use spare_gate::seal_cell;

/// Charges the seal of the block that begins at a page.
pub(crate) fn charge_seal<D: Die>(die: &mut D, page: u32) -> Result<(), DieFault>
    requires page { page < page_count (D.state die.old).shape }
    requires few_bytes { (D.state die.old).shape.main_bytes ≤ 1200 }
    requires two_slots { 32 ≤ (D.state die.old).shape.spare_bytes }
    ensures charged { OnOk result (page_of (D.state die.new) page ≡ charge (page_of (D.state die.old) page) (seal_cell_of (D.state die.old).shape.main_bytes)) }
    ensures charged_or_not { OnErr result ((page_of (D.state die.new) page ≡ page_of (D.state die.old) page)
        ⊎ (page_of (D.state die.new) page ≡ charge (page_of (D.state die.old) page) (seal_cell_of (D.state die.old).shape.main_bytes))) }
    ensures only_page { OnlyPage page (D.state die.old) (D.state die.new) }
    ensures kept { Kept (D.state die.old) (D.state die.new) }
    ensures passed { OnOk result (Passed 1 0 (D.state die.old) (D.state die.new)) }
    ensures failed { OnErr result (ChangeFailed 1 0 (D.state die.old) (D.state die.new)) }
{
    let cell = seal_cell(die.shape().main_bytes);
    die.charge(page, cell)
}
