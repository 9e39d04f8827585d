//! Where live records stand, by the map alone: the record in a slot is live exactly where the map names the slot for its sector.
ghost use Rattle.std.specs.Prelude.{◌≡◌, ◌<◌, ◌+◌, ◌-◌, ◌≤◌, OnErr, IfOk, OnOk};
ghost use Rattle.std.specs.Option.{option_or};
ghost use Rattle.cell_die.specs.DieState.{page_count};
ghost use Rattle.cell_die.specs.Changes.{SameCells};
ghost use Rattle.cell_die.specs.Calls.{Kept, Passed, ReadFailed};
ghost use Rattle.page_codec.specs.Sizes.{Serves};
ghost use Rattle.collector.specs.Named.{names_slot, named_record, IsFirstNamed, HasNamed};

use crate::effect::place_named;
use cell_die::{Die, DieFault};
use page_codec::{Place, Seen, SeenSlot, Work, scan};
use sector_map::{Entry, SectorMap};
use zero_count::Header;

/// A live record, and the slot that it stands in.
#[derive(Clone, Copy, Debug, PartialEq, Eq)]
pub struct LiveRecord {
    pub place: Place,
    pub header: Header,
}

/// Whether an entry names this slot.
pub(crate) fn is_named(entry: Option<Entry>, place: Place) -> bool
    ensures { result ≡ names_slot entry place }
{
    match entry {
        Some(entry) => {
            let named = place_named(entry);
            named.page == place.page && named.slot == place.slot
        }
        None => false,
    }
}

/// The record in a slot, where the map names the slot for its sector.
pub(crate) fn live_in(map: &SectorMap, place: Place, slot: &SeenSlot) -> Option<LiveRecord>
    ensures { result ≡ named_record map.now place slot.now.header }
{
    let header = slot.header?;
    if header.sector < map.sectors() && is_named(map.get(header.sector), place) {
        Some(LiveRecord { place, header })
    } else {
        None
    }
}

/// The first of a page's slots whose record the map names.
fn first_on(map: &SectorMap, page: u32, seen: &Seen) -> Option<LiveRecord>
    ensures { result ≡ option_or (named_record map.now (record { page = page; slot = 0 }) seen.now.first.header)
        (option_or (named_record map.now (record { page = page; slot = 1 }) seen.now.second.header)
        (named_record map.now (record { page = page; slot = 2 }) seen.now.third.header)) }
{
    let first = live_in(map, Place { page, slot: 0 }, &seen.first);
    let second = live_in(map, Place { page, slot: 1 }, &seen.second);
    let third = live_in(map, Place { page, slot: 2 }, &seen.third);
    first.or(second.or(third))
}

/// The first of the records on these pages, by page and then by slot, that the map names. It reads the pages in order up to that
/// of the record, and fails at the latest there.
pub(crate) fn find_first<D: Die>(
    die: &mut D,
    work: &mut Work,
    map: &SectorMap,
    from: u32,
    pages: u32,
) -> Result<LiveRecord, DieFault>
    requires die { Serves work.old (D.state die.old).shape }
    requires pages { from + pages ≤ page_count (D.state die.old).shape }
    requires slots { (2 ≤ work.old.generations) × (work.old.generations ≤ 3) }
    requires some { HasNamed map.now work.old (D.state die.old) from pages }
    ensures found { IfOk result (λ live. IsFirstNamed map.now work.old (D.state die.old) from pages live) }
    ensures same_cells { SameCells (D.state die.old) (D.state die.new) }
    ensures kept { Kept (D.state die.old) (D.state die.new) }
    ensures passed { IfOk result (λ live. Passed 0 (live.place.page + 1 - from) (D.state die.old) (D.state die.new)) }
    ensures failed { OnErr result ((has : HasNamed map.now work.old (D.state die.old) from pages) → ReadFailed 0 (has.live.place.page + 1 - from) (D.state die.old) (D.state die.new)) }
    ensures same_work { work.new ≡ work.old }
{
    for page in from..from + pages {
        let seen = scan(die, work, page)?;
        if let Some(live) = first_on(map, page, &seen) {
            return Ok(live);
        }
    }
    unreachable!()
}
