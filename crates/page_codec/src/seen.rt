//! What one read of a page tells of its slots. A slot that a cut left torn is not blank, though it may hold no valid header.

ghost use Rattle.std.specs.Prelude.{◌≡◌, ◌<◌, ◌≤◌, ◌+◌, ◌*◌, length, OnErr, IfOk, OnOk, if◌then◌else◌, ◌==◌};
ghost use Rattle.cell_die.specs.DieState.{page_count, page_of};
ghost use Rattle.cell_die.specs.Changes.{SameCells};
ghost use Rattle.cell_die.specs.Calls.{Kept, Passed, ReadFailed};
ghost use Rattle.page_codec.specs.Sizes.{Serves};
ghost use Rattle.page_codec.specs.Seen.{no_slot, seen_slot, seen_page};

use crate::work::Work;
use cell_bits::is_blank;
use cell_die::{Die, DieFault};
use spare_gate::{gate_charged, header_at, seal_charged, slot_blank};
use zero_count::Header;

/// What stands in a slot.
#[derive(Clone, Copy, Debug, PartialEq, Eq)]
pub struct SeenSlot {
    /// No cell of the slot's gate byte and header word is charged.
    pub blank: bool,
    /// The gate is charged.
    pub gate: bool,
    /// The header, where the slot's word is valid.
    pub header: Option<Header>,
}

/// What stands on a page.
#[derive(Clone, Copy, Debug, PartialEq, Eq)]
pub struct Seen {
    /// No cell of the page is charged.
    pub blank: bool,
    /// The seal cell is charged; it counts on the first page of a block alone.
    pub seal: bool,
    pub first: SeenSlot,
    pub second: SeenSlot,
    /// The third slot; where pages have two it is blank, without gate and header.
    pub third: SeenSlot,
}

/// What stands in a slot of a spare area.
fn see_slot(spare: &[u8], slot: u32) -> SeenSlot
    requires slots { slot < 3 }
    requires within { 16 * slot + 16 ≤ length spare.now }
    ensures { result ≡ seen_slot spare.now slot }
{
    SeenSlot {
        blank: slot_blank(spare, slot),
        gate: gate_charged(spare, slot),
        header: header_at(spare, slot),
    }
}

/// What stands in the third slot of a spare area that has a slot for each generation.
fn see_third(spare: &[u8], generations: u32) -> SeenSlot
    requires { 16 * generations ≤ length spare.now }
    ensures { result ≡ (if generations == 3 then seen_slot spare.now 2 else no_slot) }
{
    if generations == 3 {
        see_slot(spare, 2)
    } else {
        SeenSlot {
            blank: true,
            gate: false,
            header: None,
        }
    }
}

/// What stands on a page.
fn see_page(page: &[u8], main_bytes: usize, generations: u32) -> Seen
    requires slots { 2 ≤ generations }
    requires within { main_bytes + 16 * generations ≤ length page.now }
    ensures { result ≡ seen_page main_bytes generations page.now }
{
    let spare = &page[main_bytes..];
    Seen {
        blank: is_blank(page),
        seal: seal_charged(spare),
        first: see_slot(spare, 0),
        second: see_slot(spare, 1),
        third: see_third(spare, generations),
    }
}

/// Reads a page, and says what stands in its slots. It makes one read.
pub fn scan<D: Die>(die: &mut D, work: &mut Work, page: u32) -> Result<Seen, DieFault>
    requires die { Serves work.old (D.state die.old).shape }
    requires page { page < page_count (D.state die.old).shape }
    ensures seen { IfOk result (λ seen. seen ≡ seen_page work.old.page_bytes work.old.generations (page_of (D.state die.old) page)) }
    ensures same_cells { SameCells (D.state die.old) (D.state die.new) }
    ensures kept { Kept (D.state die.old) (D.state die.new) }
    ensures passed { OnOk result (Passed 0 1 (D.state die.old) (D.state die.new)) }
    ensures failed { OnErr result (ReadFailed 0 1 (D.state die.old) (D.state die.new)) }
    ensures same_work { work.new ≡ work.old }
{
    die.read(page, &mut work.page)?;
    Ok(see_page(&work.page, work.page_bytes as usize, work.generations))
}
