//! A mount, and then a collection where one is due.
ghost use Rattle.std.specs.Prelude.{◌≡◌, ◌≤◌, length, OnOk};
ghost use Rattle.page_codec.specs.Sizes.{Serves, ServesScheme};
ghost use Rattle.page_codec.specs.TrueBook.{IsTrue};
ghost use Rattle.mount_scan.specs.New.{IsNew};
ghost use Rattle.collector.specs.Store.{geometry_of};

use cell_die::Die;
use collector::{Moves, collect};
use mount_scan::{ScanRefusal, Tables, scan_all};
use page_alloc::{NextPage, next};
use page_codec::{PutFault, Work};
use striped::Scheme;

/// Reads a die into new tables, which are then true to its cells.
pub fn mount_true<D: Die, C: Scheme>(
    die: &mut D,
    _scheme: &C,
    work: &mut Work,
    tables: &mut Tables,
) -> Result<(), ScanRefusal>
    requires die { Serves work.old (D.state die.old).shape }
    requires scheme { ServesScheme work.old (C.meaning _scheme.now) }
    requires tables { IsNew (D.state die.old).shape (length tables.old.map) work.old.span work.old.generations tables.old }
    ensures tables { OnOk result (IsTrue (geometry_of (D.state die.new).shape (C.meaning _scheme.now) (length tables.new.map)) (D.state die.new).cells tables.new.book tables.new.map tables.new.seq) }
    ensures die { OnOk result ((D.state die.new).shape ≡ (D.state die.old).shape) }
    ensures same_work { work.new ≡ work.old }
{
    scan_all(die, work, tables, 0)?;
    Ok(())
}

/// Collects the victim, where a collection comes next. The answer is how many records were moved.
pub fn collect_next<D: Die, C: Scheme>(
    die: &mut D,
    scheme: &mut C,
    work: &mut Work,
    tables: &mut Tables,
    moves: &mut Moves,
) -> Result<Option<u32>, PutFault>
    requires die { Serves work.old (D.state die.old).shape }
    requires scheme { ServesScheme work.old (C.meaning scheme.old) }
    requires small_sector { (C.meaning scheme.old).sector_bytes ≤ 512 }
    requires small_page { (C.meaning scheme.old).page_bytes ≤ 1200 }
    requires two_blocks { 2 ≤ length tables.old.book.states }
    requires room { tables.old.book.pages ≤ moves.old }
    requires tables { IsTrue (geometry_of (D.state die.old).shape (C.meaning scheme.old) (length tables.old.map)) (D.state die.old).cells tables.old.book tables.old.map tables.old.seq }
{
    let NextPage::Collect { victim, .. } = next(&tables.book) else {
        return Ok(None);
    };
    if victim >= tables.book.blocks()
        || tables.book.live(victim) >= tables.book.pages()
        || tables.seq >= 1 << 62
    {
        return Ok(None);
    }
    let moved = collect(
        die,
        scheme,
        work,
        &mut tables.map,
        &mut tables.book,
        moves,
        &mut tables.seq,
    )?;
    Ok(Some(moved))
}
