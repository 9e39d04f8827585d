//! The bytes of sectors, as their live records say them: zeros, or what the page decodes to, or the unit for a later slot.
ghost use Rattle.std.specs.Prelude.{◌≡◌, ◌+◌, ◌*◌, ◌≤◌, true, length, map, IfOk, OnOk, Some};
ghost use Rattle.std.specs.List.{All};
ghost use Rattle.page_codec.specs.Geometry.{unit_at, page_count};
ghost use Rattle.page_codec.specs.Records.{may_hold};
ghost use Rattle.page_codec.specs.Sectors.{said_by};
ghost use Rattle.image_audit.specs.Held.{without_zeros};
ghost use Rattle.image_audit.specs.Images.{pages_in, HasLength, IsFitting, IsServed};
ghost use Rattle.image_audit.specs.Marks.{placed_of};
ghost use Rattle.image_audit.specs.Said.{told_of, told_by, IsWhole};

use crate::OutOfMemory;
use crate::geometry::Geometry;
use crate::mark::Mark;
use crate::row::{Held, RowBytes};
use std::alloc::Global;
use striped::Scheme;

/// The main bytes of a unit, one page after the other.
fn copy_unit(geometry: &Geometry, cells: &[u8], page: u32, unit: &mut [u8])
    requires long { HasLength geometry.now cells.now }
    requires page { page + geometry.now.span ≤ page_count geometry.now }
    requires unit { length unit.old ≡ geometry.now.span * geometry.now.main_bytes }
    ensures { unit.new ≡ unit_at geometry.now (pages_in geometry.now cells.now) page }
{
    if geometry.span == 1 {
        unit.copy_from_slice(geometry.main(cells, page));
    } else {
        let (first, second) = unit.split_at_mut(geometry.main_bytes as usize);
        first.copy_from_slice(geometry.main(cells, page));
        second.copy_from_slice(geometry.main(cells, page + 1));
    }
}

/// What a live record says of its sector.
fn read_row<C: Scheme>(
    geometry: &Geometry,
    cells: &[u8],
    scheme: &C,
    mark: &Mark,
    unit: &mut [u8],
    row: &mut [u8],
)
    requires long { HasLength geometry.now cells.now }
    requires sizes { IsServed geometry.now (C.meaning scheme.now) }
    requires fitting { IsFitting geometry.now }
    requires place { may_hold geometry.now mark.now.place ≡ true }
    requires unit { length unit.old ≡ geometry.now.span * geometry.now.main_bytes }
    requires row { length row.old ≡ geometry.now.sector_bytes }
    ensures { row.new ≡ said_by geometry.now (C.meaning scheme.now).decoding (pages_in geometry.now cells.now) (Some (placed_of mark.now)) }
{
    if mark.header.kind == 3 || mark.header.kind == 4 {
        row.fill(0);
    } else if mark.place.slot == 0 {
        scheme.read_first(geometry.main(cells, mark.place.page), row);
    } else {
        copy_unit(geometry, cells, mark.place.page, unit);
        scheme.read_second(unit, row);
    }
}

/// What a row tells of the sector of a live record.
fn hold_row(alloc: Global, sector: u32, row: &[u8]) -> Result<Held, OutOfMemory>
    requires { length row.now ≤ 512 }
    ensures { IfOk result (λ held. told_of held ≡ (sector, without_zeros row.now)) }
{
    Ok(Held {
        sector,
        bytes: RowBytes::trimmed(alloc, row)?,
    })
}

/// What live records say of their sectors, in their order.
pub(crate) fn hold<C: Scheme>(
    alloc: Global,
    geometry: &Geometry,
    cells: &[u8],
    scheme: &C,
    live: &[Mark],
) -> Result<Vec<Held>, OutOfMemory>
    requires long { HasLength geometry.now cells.now }
    requires sizes { IsServed geometry.now (C.meaning scheme.now) }
    requires live { All (λ mark. may_hold geometry.now mark.place ≡ true) live.now }
    requires fitting { IsFitting geometry.now }
    ensures told { IfOk result (λ held. map told_of held.items ≡ map (told_by geometry.now (C.meaning scheme.now).decoding (pages_in geometry.now cells.now)) live.now) }
    ensures whole { OnOk result (All (IsWhole geometry.now (C.meaning scheme.now).decoding (pages_in geometry.now cells.now)) live.now) }
{
    let mut unit_room = vec![in alloc; 0; (geometry.span * geometry.main_bytes) as usize]?;
    let mut row_room = vec![in alloc; 0; geometry.sector_bytes as usize]?;
    let mut held = Vec::with_capacity(alloc, live.len())?;
    let unit: &mut [u8] = &mut unit_room;
    let row: &mut [u8] = &mut row_room;
    for mark in live {
        read_row(geometry, cells, scheme, mark, unit, row);
        held.push(hold_row(alloc, mark.header.sector, row)?)?;
    }
    Ok(held)
}
