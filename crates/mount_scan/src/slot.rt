//! What a slot says counts twice: the seq of its valid header raises the next seq, whatever else stands in it, and its record
//! counts where it is committed, of one of the sectors and in a slot where one may stand.
ghost use Rattle.std.specs.Prelude.{◌≡◌, ◌<◌, ◌/◌, ◌*◌, length};
ghost use Rattle.block_state.specs.Book.{live_at};
ghost use Rattle.page_codec.specs.Records.{is_copy as copy_of};
ghost use Rattle.mount_scan.specs.Noted.{IsReading, NotesAny, MoreAt, SameBlocks, seq_with, shown};

use crate::note::note;
use crate::tables::Tables;
use page_codec::{Place, SeenSlot};
use zero_count::Header;

/// Whether a header is that of a copy, which counts from the seal of its block on.
fn is_copy(header: &Header) -> bool
    ensures { result ≡ copy_of header.now }
{
    header.kind == 2 || header.kind == 4
}

/// Notes what stands in a slot, where a record `may` stand, of a block that is `sealed` or not.
pub(crate) fn note_slot(tables: &mut Tables, place: Place, slot: &SeenSlot, may: bool, sealed: bool)
    requires reading { IsReading tables.old }
    requires page { place.page < 131072 }
    requires slot { place.slot < 4 }
    requires block { place.page / tables.old.book.pages < length tables.old.book.states }
    requires room { live_at tables.old.book (place.page / tables.old.book.pages) < tables.old.book.generations * tables.old.book.pages }
    ensures notes { NotesAny tables.old tables.new place (shown may sealed (length tables.old.map) slot.now.gate slot.now.header) }
    ensures seq { tables.new.seq ≡ seq_with tables.old.seq slot.now.header }
    ensures reading { IsReading tables.new }
    ensures room { MoreAt (place.page / tables.old.book.pages) 1 tables.old tables.new }
    ensures same_blocks { SameBlocks tables.old.book tables.new.book }
    ensures same_sectors { length tables.new.map ≡ length tables.old.map }
    ensures same_found { tables.new.found ≡ tables.old.found }
    ensures same_span { tables.new.span ≡ tables.old.span }
{
    let Some(header) = slot.header else {
        return;
    };
    if may && header.sector < tables.map.sectors() && slot.gate && (sealed || !is_copy(&header)) {
        note(tables, place, &header);
    }
    tables.seq = tables.seq.max(header.seq.saturating_add(1));
}
