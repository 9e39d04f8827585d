//! A record becomes its sector's where the map names none yet, or where it is newer than the one named: of a greater seq, or of
//! the same seq on a lower page, or there in a higher slot.
ghost use Rattle.std.specs.Prelude.{◌≡◌, ◌<◌, ◌/◌, ◌*◌, true, false, length, slice_index, IfSome, Some};
ghost use Rattle.sector_map.specs.Entry.{place_of as place_in, entry_at};
ghost use Rattle.block_state.specs.Book.{live_at};
ghost use Rattle.page_codec.specs.TrueBook.{entry_of};
ghost use Rattle.mount_scan.specs.Noted.{IsReading, TakesOver, Notes, MoreAt, SameBlocks, forgotten, is_newer_than, wins as wins_of};

use crate::tables::Tables;
use block_state::Book;
use page_codec::Place;
use sector_map::{Entry, Place2};
use zero_count::Header;

/// The place that an entry names.
fn place_of(entry: Entry) -> Place2
    ensures { result ≡ place_in entry }
{
    match entry {
        Entry::Held(place) | Entry::Zeros(place) => place,
    }
}

/// The map's entry for a record, by what it says.
fn entry_for(place: Place, header: &Header) -> Entry
    ensures entry { entry_of (Some (record { place = place; header = header.now })) ≡ Some result }
    ensures place { place_in result ≡ record { page = place.page; slot = place.slot } }
{
    let Place { page, slot } = place;
    let named = Place2 { page, slot };
    if header.kind == 3 || header.kind == 4 {
        Entry::Zeros(named)
    } else {
        Entry::Held(named)
    }
}

/// Whether a record is newer than the one at another place with another seq.
fn is_newer(former: Place2, former_seq: u64, place: Place, seq: u64) -> bool
    ensures { result ≡ is_newer_than former former_seq place seq }
{
    former_seq < seq
        || seq == former_seq
            && (place.page < former.page || place.page == former.page && former.slot < place.slot)
}

/// Whether a record becomes its sector's, for which the map names this entry with this seq.
pub(crate) fn wins(former: Option<Entry>, former_seq: u64, place: Place, seq: u64) -> bool
    ensures { result ≡ wins_of former former_seq place seq }
{
    match former {
        Some(former) => is_newer(place_of(former), former_seq, place, seq),
        None => true,
    }
}

/// Counts one live record less in the block of an entry.
fn forget(book: &mut Book, former: Option<Entry>)
    requires pages { 0 < book.old.pages }
    requires block { IfSome former (λ entry. (place_in entry).page / book.old.pages < length book.old.states) }
    requires some { IfSome former (λ entry. 0 < live_at book.old ((place_in entry).page / book.old.pages)) }
    ensures { book.new ≡ forgotten book.old former }
{
    if let Some(entry) = former {
        let block = place_of(entry).page / book.pages();
        book.drop_live(block);
    }
}

/// Makes a record its sector's, and counts it in its block.
fn take_over(tables: &mut Tables, place: Place, header: &Header)
    requires reading { IsReading tables.old }
    requires sector { header.now.sector < length tables.old.map }
    requires page { place.page < 131072 }
    requires slot { place.slot < 4 }
    requires block { place.page / tables.old.book.pages < length tables.old.book.states }
    requires room { live_at tables.old.book (place.page / tables.old.book.pages) < tables.old.book.generations * tables.old.book.pages }
    ensures takes_over { TakesOver tables.old tables.new place header.now }
    ensures seq { tables.new.seq ≡ tables.old.seq }
{
    let sector = header.sector;
    let block = place.page / tables.book.pages();
    let former = tables.map.get(sector);
    forget(&mut tables.book, former);
    tables.book.add_live(block);
    tables.map.set(sector, entry_for(place, header));
    tables.seqs[sector as usize] = header.seq;
}

/// Makes a record its sector's where it wins.
pub(crate) fn note(tables: &mut Tables, place: Place, header: &Header)
    requires reading { IsReading tables.old }
    requires sector { header.now.sector < length tables.old.map }
    requires page { place.page < 131072 }
    requires slot { place.slot < 4 }
    requires block { place.page / tables.old.book.pages < length tables.old.book.states }
    requires room { live_at tables.old.book (place.page / tables.old.book.pages) < tables.old.book.generations * tables.old.book.pages }
    ensures notes { Notes tables.old tables.new place header.now }
    ensures seq { tables.new.seq ≡ tables.old.seq }
    ensures reading { IsReading tables.new }
    ensures room { MoreAt (place.page / tables.old.book.pages) 1 tables.old tables.new }
    ensures same_blocks { SameBlocks tables.old.book tables.new.book }
    ensures same_sectors { length tables.new.map ≡ length tables.old.map }
    ensures same_found { tables.new.found ≡ tables.old.found }
    ensures same_span { tables.new.span ≡ tables.old.span }
{
    let former = tables.map.get(header.sector);
    let former_seq = tables.seqs[header.sector as usize];
    if wins(former, former_seq, place, header.seq) {
        take_over(tables, place, header);
    }
}
