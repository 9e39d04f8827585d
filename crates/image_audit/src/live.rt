//! The live records of an image, in the order in which their sectors are first found.
ghost use Rattle.std.specs.Prelude.{◌≡◌, List, [], ◌∷◌, ◌++◌, nat_eq, IfOk, OnOk};
ghost use Rattle.page_codec.specs.Records.{is_newer as newer_than};
ghost use Rattle.indexmap.specs.IndexMap.{get, values};
ghost use Rattle.image_audit.specs.declared.mark.Mark.{Mark as Found};
ghost use Rattle.image_audit.specs.Marks.{placed_of, AreLive};
ghost use Rattle.image_audit.specs.Live.{Knows, wins};

use crate::OutOfMemory;
use crate::mark::Mark;
use indexmap::IndexMap;
use std::alloc::Global;

/// Whether a record is newer than another: of a greater seq, or of the same on a lower page, or there in a higher slot.
fn is_newer(mark: &Mark, other: &Mark) -> bool
    ensures { result ≡ newer_than (placed_of mark.now) (placed_of other.now) }
{
    mark.header.seq > other.header.seq
        || mark.header.seq == other.header.seq
            && (mark.place.page < other.place.page
                || mark.place.page == other.place.page && mark.place.slot > other.place.slot)
}

/// Whether a mark is that of a committed record which is newer than the one known of its sector, if one is.
fn takes_over(live: &IndexMap<u32, Mark>, mark: &Mark) -> bool
    ensures { result ≡ wins (get nat_eq live.now mark.now.header.sector) mark.now }
{
    match live.get(&mark.header.sector) {
        Some(former) => is_newer(mark, former),
        None => true,
    }
}

/// Notes the record of a mark, where it is a committed one that takes over.
fn note(live: &mut IndexMap<u32, Mark>, mark: &Mark) -> Result<(), OutOfMemory>
    ensures { (marks : List Found) → Knows marks live.old → OnOk result (Knows (marks ++ mark.now ∷ []) live.new) }
{
    if mark.counts && takes_over(live, mark) {
        live.insert(mark.header.sector, *mark)?;
    }
    Ok(())
}

/// The values of a map, in its order.
fn values_of(alloc: Global, live: IndexMap<u32, Mark>) -> Result<Vec<Mark>, OutOfMemory>
    ensures { IfOk result (λ list. list.items ≡ values live) }
{
    live.into_values().collect(alloc)
}

/// The live record of each sector that has one.
pub(crate) fn live_records(alloc: Global, marks: &[Mark]) -> Result<Vec<Mark>, OutOfMemory>
    ensures { IfOk result (λ live. AreLive marks.now live.items) }
{
    let mut live = IndexMap::new(alloc);
    for mark in marks {
        note(&mut live, mark)?;
    }
    values_of(alloc, live)
}
