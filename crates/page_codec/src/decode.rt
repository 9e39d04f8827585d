//! What a record's page or unit decodes to: slot 0 by the first code, a further slot by the second code.

ghost use Rattle.std.specs.Prelude.{◌≡◌, ◌<◌, ◌≤◌, ◌+◌, ◌-◌, ◌*◌, ◌^◌, length, OnOk, OnErr};
ghost use Rattle.cell_die.specs.DieState.{page_count, page_bytes, page_of};
ghost use Rattle.cell_die.specs.Changes.{SameCells};
ghost use Rattle.cell_die.specs.Calls.{Kept, Passed, ReadFailed};
ghost use Rattle.page_codec.specs.Sizes.{Serves, ServesScheme};
ghost use Rattle.page_codec.specs.Units.{main_of, unit_main, reads_of, decoded_at};

use crate::place::Place;
use crate::read::read_unit;
use crate::work::Work;
use cell_die::{Die, DieFault};
use striped::Scheme;

/// Reads a page, and gives the sector that it decodes to.
fn get_first<D: Die, C: Scheme>(
    die: &mut D,
    scheme: &C,
    work: &mut Work,
    page: u32,
    into: &mut [u8],
) -> Result<(), DieFault>
    requires die { Serves work.old (D.state die.old).shape }
    requires scheme { ServesScheme work.old (C.meaning scheme.now) }
    requires page { page < page_count (D.state die.old).shape }
    requires into { length into.old ≡ (C.meaning scheme.now).sector_bytes }
    ensures got { OnOk result (into.new ≡ (C.meaning scheme.now).decoding.first (main_of (D.state die.old) page)) }
    ensures as_before { OnErr result (into.new ≡ into.old) }
    ensures same_cells { SameCells (D.state die.old) (D.state die.new) }
    ensures kept { Kept (D.state die.old) (D.state die.new) }
    ensures passed { OnOk result (Passed 0 1 (D.state die.old) (D.state die.new)) }
    ensures failed { OnErr result (ReadFailed 0 1 (D.state die.old) (D.state die.new)) }
    ensures same_work { work.new ≡ work.old }
{
    die.read(page, &mut work.page)?;
    scheme.read_first(&work.page[..work.page_bytes as usize], into);
    Ok(())
}

/// Reads the pages of a unit, and gives the sector that they decode to.
fn get_second<D: Die, C: Scheme>(
    die: &mut D,
    scheme: &C,
    work: &mut Work,
    page: u32,
    into: &mut [u8],
) -> Result<(), DieFault>
    requires die { Serves work.old (D.state die.old).shape }
    requires scheme { ServesScheme work.old (C.meaning scheme.now) }
    requires unit { page + work.old.span ≤ page_count (D.state die.old).shape }
    requires into { length into.old ≡ (C.meaning scheme.now).sector_bytes }
    ensures got { OnOk result (into.new ≡ (C.meaning scheme.now).decoding.second (unit_main (D.state die.old) work.old.span page)) }
    ensures as_before { OnErr result (into.new ≡ into.old) }
    ensures same_cells { SameCells (D.state die.old) (D.state die.new) }
    ensures kept { Kept (D.state die.old) (D.state die.new) }
    ensures passed { OnOk result (Passed 0 work.old.span (D.state die.old) (D.state die.new)) }
    ensures failed { OnErr result (ReadFailed 0 work.old.span (D.state die.old) (D.state die.new)) }
    ensures same_work { work.new ≡ work.old }
{
    read_unit(
        die,
        page,
        work.span,
        &mut work.page,
        &mut work.further,
        &mut work.unit,
    )?;
    scheme.read_second(&work.unit, into);
    Ok(())
}

/// Gives the sector that a record's page (slot 0) or unit (a further slot, the page being the unit's first) decodes to. It
/// reads these pages in order.
///
/// After a `DieFault` `into` is as it was.
pub fn get<D: Die, C: Scheme>(
    die: &mut D,
    scheme: &C,
    work: &mut Work,
    place: Place,
    into: &mut [u8],
) -> Result<(), DieFault>
    requires die { Serves work.old (D.state die.old).shape }
    requires scheme { ServesScheme work.old (C.meaning scheme.now) }
    requires pages { place.page + reads_of (C.meaning scheme.now) place ≤ page_count (D.state die.old).shape }
    requires into { length into.old ≡ (C.meaning scheme.now).sector_bytes }
    ensures got { OnOk result (into.new ≡ decoded_at (C.meaning scheme.now) (D.state die.old) place) }
    ensures as_before { OnErr result (into.new ≡ into.old) }
    ensures same_cells { SameCells (D.state die.old) (D.state die.new) }
    ensures kept { Kept (D.state die.old) (D.state die.new) }
    ensures passed { OnOk result (Passed 0 (reads_of (C.meaning scheme.now) place) (D.state die.old) (D.state die.new)) }
    ensures failed { OnErr result (ReadFailed 0 (reads_of (C.meaning scheme.now) place) (D.state die.old) (D.state die.new)) }
    ensures same_work { work.new ≡ work.old }
{
    if place.slot == 0 {
        get_first(die, scheme, work, place.page, into)
    } else {
        get_second(die, scheme, work, place.page, into)
    }
}
