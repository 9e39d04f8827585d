//! The first write of a page: the sector by the scheme's first code, and its record in slot 0.

ghost use Rattle.std.specs.Prelude.{◌≡◌, ◌<◌, ◌≤◌, ◌+◌, ◌-◌, ◌*◌, true, take, drop, length, replicate, OnOk, OnErr};
ghost use Rattle.cell_die.specs.Cells.{is_blank};
ghost use Rattle.cell_die.specs.DieState.{page_count, page_of};
ghost use Rattle.cell_die.specs.Calls.{Kept, Passed, ChangeFailed};
ghost use Rattle.spare_gate.specs.Slots.{with_header};
ghost use Rattle.page_codec.specs.Sizes.{Serves, ServesScheme};
ghost use Rattle.page_codec.specs.Promises.{KeepsRecords};
ghost use Rattle.page_codec.specs.Puts.{Puts, FirstGives, first_slot, is_gated};

use crate::gate::program_and_charge;
use crate::work::Work;
use cell_die::{Die, DieFault};
use spare_gate::{gate_cell, put_header};
use striped::Scheme;
use zero_count::Header;

/// The first write of a sector with its header, over a blank page.
fn write_first<C: Scheme>(
    scheme: &mut C,
    page: &mut [u8],
    main_bytes: usize,
    header: &Header,
    sector: &[u8],
)
    requires main { main_bytes ≡ (C.meaning scheme.old).page_bytes }
    requires page { main_bytes + 32 ≤ length page.old }
    requires sector { length sector.now ≡ (C.meaning scheme.old).sector_bytes }
    requires least_kind { 1 ≤ header.now.kind }
    requires greatest_kind { header.now.kind ≤ 4 }
    ensures long { length page.new ≡ length page.old }
    ensures gives { (C.meaning scheme.old).decoding.first_gives (take main_bytes page.new) sector.now ≡ true }
    ensures spare { drop main_bytes page.new ≡ with_header (replicate (length page.old - main_bytes) 0) 0 header.now }
    ensures same { C.meaning scheme.new ≡ C.meaning scheme.old }
{
    let (main, spare) = page.split_at_mut(main_bytes);
    scheme.first(sector, main);
    spare.fill(0);
    put_header(spare, 0, header);
}

/// Programs the first write of a sector over a blank page, with a header of kind 1 or 2 in slot 0, and then charges the
/// gate of slot 0. It makes two change calls and no read.
///
/// After a `DieFault` the gate is not charged and the page has some of the cells of the write, or all of it stands.
pub fn put_first<D: Die, C: Scheme>(
    die: &mut D,
    scheme: &mut C,
    work: &mut Work,
    page: u32,
    header: &Header,
    sector: &[u8],
) -> Result<(), DieFault>
    requires die { Serves work.old (D.state die.old).shape }
    requires scheme { ServesScheme work.old (C.meaning scheme.old) }
    requires page { page < page_count (D.state die.old).shape }
    requires blank { is_blank (page_of (D.state die.old) page) ≡ true }
    requires least_kind { 1 ≤ header.now.kind }
    requires greatest_kind { header.now.kind ≤ 2 }
    requires sector { length sector.now ≡ (C.meaning scheme.old).sector_bytes }
    ensures put { Puts (FirstGives (C.meaning scheme.old) page sector.now) 1 (first_slot page) header.now (D.state die.old) (D.state die.new) }
    ensures gated { OnOk result (is_gated (D.state die.new) (first_slot page) ≡ true) }
    ensures records { KeepsRecords (first_slot page) header.now (D.state die.old) (D.state die.new) }
    ensures kept { Kept (D.state die.old) (D.state die.new) }
    ensures passed { OnOk result (Passed 2 0 (D.state die.old) (D.state die.new)) }
    ensures failed { OnErr result (ChangeFailed 2 0 (D.state die.old) (D.state die.new)) }
    ensures same_scheme { C.meaning scheme.new ≡ C.meaning scheme.old }
    ensures same_work { work.new ≡ work.old }
{
    write_first(
        scheme,
        &mut work.page,
        work.page_bytes as usize,
        header,
        sector,
    );
    program_and_charge(die, page, &work.page, gate_cell(work.page_bytes, 0))
}
