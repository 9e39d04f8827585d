//! The record effect: what follows the gate of a single record, in the book and in the map.
ghost use Rattle.std.specs.Prelude.{◌≡◌, ◌<◌, ◌≤◌, ◌*◌, ◌/◌, ◌+◌, length, slice_set, Some, if◌then◌else◌};
ghost use Rattle.sector_map.specs.Entry.{place_of, entry_at};
ghost use Rattle.block_state.specs.State.{is_active};
ghost use Rattle.block_state.specs.Book.{live_at, state_at};
ghost use Rattle.collector.specs.Effects.{after_record, filled, one_less, block_in, former_in, MayDrop};

use block_state::{Book, State};
use sector_map::{Entry, Place2, SectorMap};

/// The place that an entry names.
pub(crate) fn place_named(entry: Entry) -> Place2
    ensures { result ≡ place_of entry }
{
    match entry {
        Entry::Held(place) | Entry::Zeros(place) => place,
    }
}

/// The Active block fills by one page, and closes where that was its last one.
fn fill_page(book: &mut Book, block: u32, fill: u32)
    requires block { block < length book.old.states }
    requires active { state_at book.old block ≡ State.Active fill }
    ensures { book.new ≡ filled book.old block }
{
    let pages = book.pages();
    if fill + 1 == pages {
        book.close(block);
    } else {
        book.set_state(block, State::Active { fill: fill + 1 });
    }
}

/// One live record less in the block of a sector's former live record, if it had one.
fn drop_former(book: &mut Book, former: Option<Entry>)
    requires some_pages { 0 < book.old.pages }
    requires former { MayDrop book.old (former_in book.old former) }
    ensures { book.new ≡ one_less book.old (former_in book.old former) }
{
    if let Some(entry) = former {
        let block = place_named(entry).page / book.pages();
        book.drop_live(block);
    }
}

/// The block fills by one page where it is Active.
fn fill_active(book: &mut Book, block: u32)
    requires { block < length book.old.states }
    ensures { book.new ≡ (if is_active (state_at book.old block) then filled book.old block else book.old) }
{
    if let State::Active { fill } = book.state_of(block) {
        fill_page(book, block, fill);
    }
}

/// The record effect: the record's block has one live record more, the block of the sector's former live record one less, an
/// Active block fills by one page, and the map names the new place.
pub fn record_effect(map: &mut SectorMap, book: &mut Book, sector: u32, entry: Entry)
    requires sector { sector < length map.old }
    requires page { (place_of entry).page < 131072 }
    requires slot { (place_of entry).slot < 4 }
    requires some_pages { 0 < book.old.pages }
    requires block { block_in book.old entry < length book.old.states }
    requires room { live_at book.old (block_in book.old entry) < book.old.generations * book.old.pages }
    requires former { MayDrop book.old (former_in book.old (entry_at map.old sector)) }
    ensures map { map.new ≡ slice_set map.old sector (Some entry) }
    ensures book { book.new ≡ after_record book.old (block_in book.old entry) (former_in book.old (entry_at map.old sector)) }
{
    let block = place_named(entry).page / book.pages();
    book.add_live(block);
    drop_former(book, map.get(sector));
    fill_active(book, block);
    map.set(sector, entry);
}
