//! A later write of a unit: it reads the unit, charges more of its cells so that they carry the sector, and puts the record
//! into a further slot of the unit's first page. The first page is programmed last, since it has the gate.

ghost use Rattle.std.specs.Prelude.{◌≡◌, ◌⊎◌, ◌<◌, ◌≤◌, ◌+◌, ◌-◌, ◌*◌, ◌^◌, ◌++◌, true, drop, length, OnOk, OnErr, IfErr};
ghost use Rattle.cell_die.specs.Cells.{IsAbove, charge};
ghost use Rattle.cell_die.specs.DieState.{page_count, page_bytes, page_of};
ghost use Rattle.cell_die.specs.Changes.{OnlyPage, IsBetween};
ghost use Rattle.cell_die.specs.Calls.{Kept, Passed, ChangeFailed};
ghost use Rattle.spare_gate.specs.Slots.{with_header, is_slot_blank, gate_cell_of};
ghost use Rattle.page_codec.specs.Sizes.{Serves, ServesScheme};
ghost use Rattle.page_codec.specs.Promises.{KeepsRecords};
ghost use Rattle.page_codec.specs.Puts.{Puts, spare_of, is_gated};
ghost use Rattle.page_codec.specs.Units.{main_of, unit_main, place_of, with_write, HasMain, SecondEnds};

use crate::fault::PutFault;
use crate::gate::program_and_charge;
use crate::read::read_unit;
use crate::work::Work;
use cell_die::{Die, DieFault};
use spare_gate::{gate_cell, put_header};
use striped::Scheme;
use wom_code::Carry;
use zero_count::Header;

/// Replaces the main bytes of a page.
fn write_main(whole: &mut [u8], main: &[u8])
    requires { length main.now ≤ length whole.old }
    ensures { whole.new ≡ main.now ++ drop (length main.now) whole.old }
{
    let (front, _) = whole.split_at_mut(main.len());
    front.copy_from_slice(main);
}

/// Replaces the main bytes of a page, and puts a header into a slot of it.
fn write_record(whole: &mut [u8], main: &[u8], slot: u32, header: &Header)
    requires slots { slot < 3 }
    requires room { length main.now + (16 * slot + 16) ≤ length whole.old }
    requires blank { is_slot_blank (drop (length main.now) whole.old) slot ≡ true }
    requires kind { header.now.kind ≡ 1 }
    ensures { whole.new ≡ main.now ++ with_header (drop (length main.now) whole.old) slot header.now }
{
    let (front, spare) = whole.split_at_mut(main.len());
    front.copy_from_slice(main);
    put_header(spare, slot, header);
}

/// Programs the first page of a unit with other main bytes and a header in a slot, and then charges the slot's gate.
fn put_page<D: Die>(
    die: &mut D,
    page: u32,
    slot: u32,
    header: &Header,
    whole: &mut [u8],
    main: &[u8],
) -> Result<(), DieFault>
    requires page { page < page_count (D.state die.old).shape }
    requires whole { whole.old ≡ page_of (D.state die.old) page }
    requires main { length main.now ≡ (D.state die.old).shape.main_bytes }
    requires few_bytes { (D.state die.old).shape.main_bytes ≤ 1200 }
    requires above { IsAbove main.now (main_of (D.state die.old) page) }
    requires slots { slot < 3 }
    requires within { 16 * slot + 16 ≤ (D.state die.old).shape.spare_bytes }
    requires blank { is_slot_blank (spare_of (D.state die.old) page) slot ≡ true }
    requires kind { header.now.kind ≡ 1 }
    ensures done { OnOk result (page_of (D.state die.new) page
        ≡ charge (with_write (D.state die.old) (place_of page slot) header.now main.now) (gate_cell_of (D.state die.old).shape.main_bytes slot)) }
    ensures in_part { OnErr result (IsBetween (page_of (D.state die.old) page) (page_of (D.state die.new) page) (with_write (D.state die.old) (place_of page slot) header.now main.now)
        ⊎ (page_of (D.state die.new) page
        ≡ charge (with_write (D.state die.old) (place_of page slot) header.now main.now) (gate_cell_of (D.state die.old).shape.main_bytes slot))) }
    ensures only_page { OnlyPage page (D.state die.old) (D.state die.new) }
    ensures kept { Kept (D.state die.old) (D.state die.new) }
    ensures passed { OnOk result (Passed 2 0 (D.state die.old) (D.state die.new)) }
    ensures failed { OnErr result (ChangeFailed 2 0 (D.state die.old) (D.state die.new)) }
{
    write_record(whole, main, slot, header);
    program_and_charge(die, page, whole, gate_cell(main.len() as u32, slot))
}

/// The same for a unit of one page.
fn put_single<D: Die>(
    die: &mut D,
    page: u32,
    slot: u32,
    header: &Header,
    whole: &mut [u8],
    main: &[u8],
) -> Result<(), DieFault>
    requires page { page < page_count (D.state die.old).shape }
    requires whole { whole.old ≡ page_of (D.state die.old) page }
    requires main { length main.now ≡ (D.state die.old).shape.main_bytes }
    requires few_bytes { (D.state die.old).shape.main_bytes ≤ 1200 }
    requires above { IsAbove main.now (main_of (D.state die.old) page) }
    requires slots { slot < 3 }
    requires within { 16 * slot + 16 ≤ (D.state die.old).shape.spare_bytes }
    requires blank { is_slot_blank (spare_of (D.state die.old) page) slot ≡ true }
    requires kind { header.now.kind ≡ 1 }
    ensures put { Puts (HasMain (D.state die.old).shape.main_bytes 1 page main.now) 1 (place_of page slot) header.now (D.state die.old) (D.state die.new) }
    ensures gated { OnOk result (is_gated (D.state die.new) (place_of page slot) ≡ true) }
    ensures kept { Kept (D.state die.old) (D.state die.new) }
    ensures passed { OnOk result (Passed 2 0 (D.state die.old) (D.state die.new)) }
    ensures failed { OnErr result (ChangeFailed 2 0 (D.state die.old) (D.state die.new)) }
{
    put_page(die, page, slot, header, whole, main)
}

/// The same for a unit of two pages, of which the second is programmed first.
fn put_pair<D: Die>(
    die: &mut D,
    page: u32,
    slot: u32,
    header: &Header,
    first: &mut [u8],
    second: &mut [u8],
    unit: &[u8],
) -> Result<(), DieFault>
    requires page { page + 2 ≤ page_count (D.state die.old).shape }
    requires few_pages { page_count (D.state die.old).shape < 2 ^ 32 }
    requires first { first.old ≡ page_of (D.state die.old) page }
    requires second { second.old ≡ page_of (D.state die.old) (page + 1) }
    requires unit { length unit.now ≡ 2 * (D.state die.old).shape.main_bytes }
    requires few_bytes { (D.state die.old).shape.main_bytes ≤ 1200 }
    requires above { IsAbove unit.now (main_of (D.state die.old) page ++ main_of (D.state die.old) (page + 1)) }
    requires slots { slot < 3 }
    requires within { 16 * slot + 16 ≤ (D.state die.old).shape.spare_bytes }
    requires blank { is_slot_blank (spare_of (D.state die.old) page) slot ≡ true }
    requires kind { header.now.kind ≡ 1 }
    ensures put { Puts (HasMain (D.state die.old).shape.main_bytes 2 page unit.now) 2 (place_of page slot) header.now (D.state die.old) (D.state die.new) }
    ensures gated { OnOk result (is_gated (D.state die.new) (place_of page slot) ≡ true) }
    ensures kept { Kept (D.state die.old) (D.state die.new) }
    ensures passed { OnOk result (Passed 3 0 (D.state die.old) (D.state die.new)) }
    ensures failed { OnErr result (ChangeFailed 3 0 (D.state die.old) (D.state die.new)) }
{
    let (main, more) = unit.split_at(unit.len() / 2);
    write_main(second, more);
    die.program(page + 1, second)?;
    put_page(die, page, slot, header, first, main)
}

/// Programs the pages of a unit from the last to the first, the first one with the header in a slot, and then charges the
/// slot's gate.
fn put_unit<D: Die>(
    die: &mut D,
    page: u32,
    span: u32,
    slot: u32,
    header: &Header,
    first: &mut [u8],
    further: &mut [u8],
    unit: &[u8],
) -> Result<(), DieFault>
    requires some_pages { 1 ≤ span }
    requires span { span ≤ 2 }
    requires page { page + span ≤ page_count (D.state die.old).shape }
    requires few_pages { page_count (D.state die.old).shape < 2 ^ 32 }
    requires first { first.old ≡ page_of (D.state die.old) page }
    requires further { span ≡ 2 → further.old ≡ page_of (D.state die.old) (page + 1) }
    requires unit { length unit.now ≡ span * (D.state die.old).shape.main_bytes }
    requires few_bytes { (D.state die.old).shape.main_bytes ≤ 1200 }
    requires above { IsAbove unit.now (unit_main (D.state die.old) span page) }
    requires slots { slot < 3 }
    requires within { 16 * slot + 16 ≤ (D.state die.old).shape.spare_bytes }
    requires blank { is_slot_blank (spare_of (D.state die.old) page) slot ≡ true }
    requires kind { header.now.kind ≡ 1 }
    ensures put { Puts (HasMain (D.state die.old).shape.main_bytes span page unit.now) span (place_of page slot) header.now (D.state die.old) (D.state die.new) }
    ensures gated { OnOk result (is_gated (D.state die.new) (place_of page slot) ≡ true) }
    ensures kept { Kept (D.state die.old) (D.state die.new) }
    ensures passed { OnOk result (Passed (span + 1) 0 (D.state die.old) (D.state die.new)) }
    ensures failed { OnErr result (ChangeFailed (span + 1) 0 (D.state die.old) (D.state die.new)) }
{
    if span == 1 {
        put_single(die, page, slot, header, first, unit)
    } else {
        put_pair(die, page, slot, header, first, further, unit)
    }
}

/// A later write of a unit, in buffers for its first page, its further pages and its main bytes.
fn put_over<D: Die, C: Scheme>(
    die: &mut D,
    scheme: &mut C,
    page: u32,
    span: u32,
    slot: u32,
    header: &Header,
    sector: &[u8],
    first: &mut [u8],
    further: &mut [u8],
    unit: &mut [u8],
) -> Result<Carry, PutFault>
    requires some_pages { 1 ≤ span }
    requires span { span ≤ 2 }
    requires page { page + span ≤ page_count (D.state die.old).shape }
    requires few_pages { page_count (D.state die.old).shape < 2 ^ 32 }
    requires first { length first.old ≡ page_bytes (D.state die.old).shape }
    requires further { length further.old ≡ (span - 1) * page_bytes (D.state die.old).shape }
    requires unit { length unit.old ≡ span * (D.state die.old).shape.main_bytes }
    requires few_bytes { (D.state die.old).shape.main_bytes ≤ 1200 }
    requires scheme_span { (C.meaning scheme.old).span ≡ span }
    requires scheme_bytes { (C.meaning scheme.old).page_bytes ≡ (D.state die.old).shape.main_bytes }
    requires slots { slot < 3 }
    requires within { 16 * slot + 16 ≤ (D.state die.old).shape.spare_bytes }
    requires blank { is_slot_blank (spare_of (D.state die.old) page) slot ≡ true }
    requires kind { header.now.kind ≡ 1 }
    requires sector { length sector.now ≡ (C.meaning scheme.old).sector_bytes }
    ensures ends { SecondEnds (C.meaning scheme.old) (place_of page slot) header.now sector.now result (D.state die.old) (D.state die.new) }
    ensures kept { Kept (D.state die.old) (D.state die.new) }
    ensures same_scheme { C.meaning scheme.new ≡ C.meaning scheme.old }
{
    if read_unit(die, page, span, first, further, unit).is_err() {
        return Err(PutFault::Read);
    }
    if scheme.over(unit, sector) == Carry::Declined {
        return Ok(Carry::Declined);
    }
    match put_unit(die, page, span, slot, header, first, further, unit) {
        Ok(()) => Ok(Carry::Carried),
        Err(DieFault) => Err(PutFault::Change),
    }
}

/// Reads the pages of a unit in order. Where cells above theirs carry the sector, it programs such cells from the last page
/// to the first, the first one with a header of kind 1 in a further slot, and then charges the gate of that slot.
///
/// `Declined` and `PutFault::Read` say that nothing was changed. After `PutFault::Change` the gate is not charged and the unit
/// has some of the cells of the write, its first page none while a further one lacks some, or all of it stands.
pub fn put_second<D: Die, C: Scheme>(
    die: &mut D,
    scheme: &mut C,
    work: &mut Work,
    page: u32,
    slot: u32,
    header: &Header,
    sector: &[u8],
) -> Result<Carry, PutFault>
    requires die { Serves work.old (D.state die.old).shape }
    requires scheme { ServesScheme work.old (C.meaning scheme.old) }
    requires unit { page + work.old.span ≤ page_count (D.state die.old).shape }
    requires some_slot { 1 ≤ slot }
    requires slot { slot < work.old.generations }
    requires blank { is_slot_blank (spare_of (D.state die.old) page) slot ≡ true }
    requires kind { header.now.kind ≡ 1 }
    requires sector { length sector.now ≡ (C.meaning scheme.old).sector_bytes }
    ensures ends { SecondEnds (C.meaning scheme.old) (place_of page slot) header.now sector.now result (D.state die.old) (D.state die.new) }
    ensures records { KeepsRecords (place_of page slot) header.now (D.state die.old) (D.state die.new) }
    ensures kept { Kept (D.state die.old) (D.state die.new) }
    ensures same_scheme { C.meaning scheme.new ≡ C.meaning scheme.old }
    ensures same_work { work.new ≡ work.old }
{
    put_over(
        die,
        scheme,
        page,
        work.span,
        slot,
        header,
        sector,
        &mut work.page,
        &mut work.further,
        &mut work.unit,
    )
}
