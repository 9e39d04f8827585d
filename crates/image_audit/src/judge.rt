//! The audit: all headers are read in one pass, and then each part of soundness is judged in its order.
ghost use Rattle.std.specs.Prelude.{◌<◌, map, IfOk};
ghost use Rattle.std.specs.List.{All};
ghost use Rattle.page_codec.specs.Geometry.{page_count};
ghost use Rattle.page_codec.specs.Records.{places};
ghost use Rattle.image_audit.specs.Audits.{IsAudit};
ghost use Rattle.image_audit.specs.Images.{geometry_of, pages_in, AreOf, HasLength, IsFitting, IsServed};
ghost use Rattle.image_audit.specs.Reading.{ReadTo};
ghost use Rattle.image_audit.specs.Said.{MarksSay, told_of};

use crate::OutOfMemory;
use crate::blocks::all_have_live;
use crate::geometry::Geometry;
use crate::held::hold;
use crate::high::first_high;
use crate::live::live_records;
use crate::mark::{Mark, Unread, read_marks};
use crate::repeat::first_repeat;
use crate::row::Held;
use crate::verdict::Verdict;
use die_image::ImageHead;
use page_codec::Place;
use std::alloc::{AllocError, Global};
use striped::Scheme;

/// The verdict on headers of which each slot's cells lie below some valid word, with their live records.
fn judge(
    alloc: Global,
    geometry: &Geometry,
    marks: &[Mark],
    live: &[Mark],
) -> Result<Verdict, OutOfMemory>
    requires { All (λ mark. mark.place.page < page_count geometry.now) live.now }
    ensures { IfOk result (MarksSay geometry.now marks.now live.now) }
{
    if let Some((first, second)) = first_repeat(alloc, marks)? {
        return Ok(Verdict::SameSeq {
            page: first.page,
            slot: first.slot,
            other_page: second.page,
            other_slot: second.slot,
        });
    }
    if all_have_live(alloc, geometry, live)? {
        return Ok(Verdict::NoSpare);
    }
    if let Some(mark) = first_high(marks) {
        return Ok(Verdict::Number {
            page: mark.place.page,
            slot: mark.place.slot,
        });
    }
    Ok(Verdict::Sound)
}

/// The audit by the marks of all valid headers.
fn audit_marks<C: Scheme>(
    alloc: Global,
    geometry: &Geometry,
    cells: &[u8],
    scheme: &C,
    marks: &[Mark],
) -> Result<(Verdict, Vec<Held>), OutOfMemory>
    requires long { HasLength geometry.now cells.now }
    requires served { IsServed geometry.now (C.meaning scheme.now) }
    requires fitting { IsFitting geometry.now }
    requires read { ReadTo geometry.now (pages_in geometry.now cells.now) (places geometry.now) marks.now }
    ensures { IfOk result (λ told. IsAudit geometry.now (C.meaning scheme.now).decoding (pages_in geometry.now cells.now) told.0 (map told_of told.1.items)) }
{
    let live = live_records(alloc, marks)?;
    match judge(alloc, geometry, marks, &live)? {
        Verdict::Sound => Ok((Verdict::Sound, hold(alloc, geometry, cells, scheme, &live)?)),
        verdict => Ok((verdict, Vec::new(alloc))),
    }
}

/// Judges the cells of an image, and tells what they hold where they are sound: each sector that has a live record, in the order
/// in which the sectors are first found, by page and then by slot. Elsewhere the list is empty.
pub fn audit<C: Scheme>(
    alloc: Global,
    head: &ImageHead,
    cells: &[u8],
    scheme: &C,
) -> Result<(Verdict, Vec<Held>), OutOfMemory>
    requires cells { AreOf head.now cells.now }
    requires scheme { IsServed (geometry_of head.now) (C.meaning scheme.now) }
    ensures { IfOk result (λ told. IsAudit (geometry_of head.now) (C.meaning scheme.now).decoding (pages_in (geometry_of head.now) cells.now) told.0 (map told_of told.1.items)) }
{
    let geometry = Geometry::of(head);
    match read_marks(alloc, &geometry, cells) {
        Ok(marks) => audit_marks(alloc, &geometry, cells, scheme, &marks),
        Err(Unread::OutOfMemory) => Err(AllocError),
        Err(Unread::Bad(place)) => {
            let Place { page, slot } = place;
            Ok((Verdict::Header { page, slot }, Vec::new(alloc)))
        }
    }
}
