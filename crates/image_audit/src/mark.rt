//! The marks of the valid headers of an image, in the order of their slots. A header's word counts for the seqs wherever it
//! stands; for the sectors it counts where it is that of a committed record.
ghost use Rattle.std.specs.Prelude.{◌≡◌, ◌<◌, ◌+◌, IfOk, IfErr, OnOk};
ghost use Rattle.page_codec.specs.Geometry.{page_count};
ghost use Rattle.page_codec.specs.Records.{is_committed as committed, is_copy as copy_of, places};
ghost use Rattle.image_audit.specs.Images.{pages_in, HasLength};
ghost use Rattle.image_audit.specs.Marks.{is_counted as counted_in};
ghost use Rattle.image_audit.specs.Reading.{slots_before, ReadTo, IsUnread};

use crate::geometry::Geometry;
use crate::header_cells::lies_below_valid;
use page_codec::Place;
use spare_gate::{gate_charged, header_at};
use std::alloc::Global;
use zero_count::Header;

/// A valid header, its slot, and whether it is that of a committed record.
#[derive(Clone, Copy, Debug, PartialEq, Eq)]
pub(crate) struct Mark {
    pub(crate) place: Place,
    pub(crate) header: Header,
    pub(crate) counts: bool,
}

/// Why the headers were not all read.
#[derive(Clone, Copy, Debug, PartialEq, Eq)]
pub(crate) enum Unread {
    OutOfMemory,
    /// The header cells of this slot lie below no valid word.
    Bad(Place),
}

/// Whether a header is that of a copy, which counts from the seal of its block on.
fn is_copy(header: &Header) -> bool
    ensures { result ≡ copy_of header.now }
{
    header.kind == 2 || header.kind == 4
}

/// Whether a record is committed: its gate is charged, and for a copy the seal of its block.
#[tactic(auto, unfolding(page_codec::specs::Records::is_committed))]
fn is_committed(geometry: &Geometry, cells: &[u8], place: &Place, header: &Header) -> bool
    requires long { HasLength geometry.now cells.now }
    requires page { place.now.page < page_count geometry.now }
    requires slot { place.now.slot < geometry.now.generations }
    ensures { result ≡ committed geometry.now (pages_in geometry.now cells.now) place.now header.now }
{
    let gate = gate_charged(geometry.spare(cells, place.page), place.slot);
    gate && (!is_copy(header) || geometry.is_sealed(cells, place.page))
}

/// Whether a valid header is that of a committed record of one of the sectors.
fn is_counted(geometry: &Geometry, cells: &[u8], place: &Place, header: &Header) -> bool
    requires long { HasLength geometry.now cells.now }
    requires page { place.now.page < page_count geometry.now }
    requires slot { place.now.slot < geometry.now.generations }
    ensures { result ≡ counted_in geometry.now (pages_in geometry.now cells.now) place.now header.now }
{
    geometry.may_hold(place)
        && header.sector < geometry.sectors
        && is_committed(geometry, cells, place, header)
}

/// Marks the header of the next slot, if it has a valid one.
fn mark_slot(
    marks: &mut Vec<Mark>,
    geometry: &Geometry,
    cells: &[u8],
    place: Place,
) -> Result<(), Unread>
    requires long { HasLength geometry.now cells.now }
    requires page { place.page < page_count geometry.now }
    requires slot { place.slot < geometry.now.generations }
    requires read { ReadTo geometry.now (pages_in geometry.now cells.now) (slots_before geometry.now place.page place.slot) marks.old.items }
    ensures read { OnOk result (ReadTo geometry.now (pages_in geometry.now cells.now) (slots_before geometry.now place.page (place.slot + 1)) marks.new.items) }
    ensures bad { IfErr result (IsUnread geometry.now (pages_in geometry.now cells.now)) }
{
    let spare = geometry.spare(cells, place.page);
    let Some(header) = header_at(spare, place.slot) else {
        let start = 16 * place.slot as usize;
        if lies_below_valid(&spare[start + 1..start + 15]) {
            return Ok(());
        }
        return Err(Unread::Bad(place));
    };
    let counts = is_counted(geometry, cells, &place, &header);
    let mark = Mark {
        place,
        header,
        counts,
    };
    match marks.push(mark) {
        Ok(()) => Ok(()),
        Err(_) => Err(Unread::OutOfMemory),
    }
}

/// Marks the headers of the next page.
fn mark_page(
    marks: &mut Vec<Mark>,
    geometry: &Geometry,
    cells: &[u8],
    page: u32,
) -> Result<(), Unread>
    requires long { HasLength geometry.now cells.now }
    requires page { page < page_count geometry.now }
    requires read { ReadTo geometry.now (pages_in geometry.now cells.now) (slots_before geometry.now page 0) marks.old.items }
    ensures read { OnOk result (ReadTo geometry.now (pages_in geometry.now cells.now) (slots_before geometry.now (page + 1) 0) marks.new.items) }
    ensures bad { IfErr result (IsUnread geometry.now (pages_in geometry.now cells.now)) }
{
    for slot in 0..geometry.generations {
        mark_slot(marks, geometry, cells, Place { page, slot })?;
    }
    Ok(())
}

/// The marks of all valid headers, in the order of their slots.
///
/// # Errors
///
/// `Bad` with the first slot whose header cells lie below no valid word.
pub(crate) fn read_marks(
    alloc: Global,
    geometry: &Geometry,
    cells: &[u8],
) -> Result<Vec<Mark>, Unread>
    requires { HasLength geometry.now cells.now }
    ensures read { IfOk result (λ marks. ReadTo geometry.now (pages_in geometry.now cells.now) (places geometry.now) marks.items) }
    ensures bad { IfErr result (IsUnread geometry.now (pages_in geometry.now cells.now)) }
{
    let mut marks = Vec::new(alloc);
    for page in 0..geometry.page_count() {
        mark_page(&mut marks, geometry, cells, page)?;
    }
    Ok(marks)
}
