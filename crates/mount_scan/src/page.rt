//! The slots of a page are noted in order. Those from 1 on belong to a whole unit, so they count on a unit's first page alone.
ghost use Rattle.std.specs.Prelude.{◌≡◌, ◌+◌, ◌<◌, ◌≤◌, ◌/◌, ◌*◌, length};
ghost use Rattle.block_state.specs.Book.{live_at};
ghost use Rattle.mount_scan.specs.Noted.{IsReading, MoreAt, SameBlocks, ScansPage};

use crate::slot::note_slot;
use crate::tables::Tables;
use page_codec::{Place, Seen};

/// Notes what stands on a page, which is the first of a `unit` or not, of a block that is `sealed` or not.
pub(crate) fn note_page(tables: &mut Tables, page: u32, seen: &Seen, unit: bool, sealed: bool)
    requires reading { IsReading tables.old }
    requires page { page < 131072 }
    requires block { page / tables.old.book.pages < length tables.old.book.states }
    requires room { live_at tables.old.book (page / tables.old.book.pages) + tables.old.book.generations ≤ tables.old.book.generations * tables.old.book.pages }
    ensures reading { IsReading tables.new }
    ensures room { MoreAt (page / tables.old.book.pages) tables.old.book.generations tables.old tables.new }
    ensures same_blocks { SameBlocks tables.old.book tables.new.book }
    ensures same_sectors { length tables.new.map ≡ length tables.old.map }
    ensures same_found { tables.new.found ≡ tables.old.found }
    ensures same_span { tables.new.span ≡ tables.old.span }
    ensures scans { ScansPage page seen.now unit sealed tables.old tables.new }
{
    let generations = tables.book.generations();
    note_slot(tables, Place { page, slot: 0 }, &seen.first, true, sealed);
    note_slot(tables, Place { page, slot: 1 }, &seen.second, unit, sealed);
    if generations == 3 {
        note_slot(tables, Place { page, slot: 2 }, &seen.third, unit, sealed);
    }
}
