//! A block is read page by page, in order. Its first page shows its seal, which counts for the copies on all of its pages, and its
//! units' first pages show its level.
ghost use Rattle.std.specs.Prelude.{◌≡◌, ◌+◌, ◌%◌, ◌/◌, ◌<◌, ◌&&◌, ◌==◌, nat_lt, length, OnOk, OnErr, IfOk};
ghost use Rattle.page_codec.specs.Sizes.{Serves};
ghost use Rattle.mount_scan.specs.Scanned.{ReadOn, ShowsOn, Reads, FailsToRead};
ghost use Rattle.mount_scan.specs.Sight.{sight_with};

use crate::found::{found_state, level_of};
use crate::page::note_page;
use crate::sight::Sight;
use crate::tables::Tables;
use cell_die::{Die, DieFault};
use page_codec::{Seen, Work, scan};

/// What the pages of a block show with one page more, which is its page `number`, and the first of a `unit` or not.
fn with_page(sight: Sight, seen: &Seen, number: u32, unit: bool) -> Sight
    ensures { result ≡ sight_with sight seen.now number unit }
{
    Sight {
        blank: sight.blank && seen.blank,
        sealed: if number == 0 { seen.seal } else { sight.sealed },
        level: if unit {
            sight.level.max(level_of(seen))
        } else {
            sight.level
        },
    }
}

/// Whether a unit begins at a page of a block.
fn begins_unit(tables: &Tables, number: u32) -> bool
    requires { 0 < tables.now.span }
    ensures { result ≡ (number % tables.now.span == 0 && nat_lt (number / tables.now.span) tables.now.book.units) }
{
    number % tables.span == 0 && number / tables.span < tables.book.units()
}

/// Reads the next page of a block, whose pages so far show this, and notes what stands there.
fn read_page<D: Die>(
    die: &mut D,
    work: &mut Work,
    tables: &mut Tables,
    block: u32,
    number: u32,
    sight: Sight,
) -> Result<Sight, DieFault>
    requires serves { Serves work.old (D.state die.old).shape }
    requires block { block < (D.state die.old).shape.blocks }
    requires number { number < (D.state die.old).shape.pages }
    requires read { ReadOn (D.state die.old) work.old block number tables.old }
    requires shows { ShowsOn (D.state die.old) work.old tables.old block number sight }
    ensures read { OnOk result (ReadOn (D.state die.new) work.new block (number + 1) tables.new) }
    ensures shows { IfOk result (ShowsOn (D.state die.new) work.new tables.new block (number + 1)) }
    ensures reads { OnOk result (Reads 1 (D.state die.old) (D.state die.new)) }
    ensures fails { OnErr result (FailsToRead 1 (D.state die.old) (D.state die.new)) }
    ensures same_work { work.new ≡ work.old }
    ensures same_sectors { length tables.new.map ≡ length tables.old.map }
{
    let page = block * tables.book.pages() + number;
    let seen = scan(die, work, page)?;
    let unit = begins_unit(tables, number);
    let shown = with_page(sight, &seen, number, unit);
    note_page(tables, page, &seen, unit, shown.sealed);
    Ok(shown)
}

/// Reads a block, and finds what its cells make it.
pub(crate) fn read_block<D: Die>(
    die: &mut D,
    work: &mut Work,
    tables: &mut Tables,
    block: u32,
) -> Result<(), DieFault>
    requires serves { Serves work.old (D.state die.old).shape }
    requires block { block < (D.state die.old).shape.blocks }
    requires read { ReadOn (D.state die.old) work.old block 0 tables.old }
    ensures read { OnOk result (ReadOn (D.state die.new) work.new (block + 1) 0 tables.new) }
    ensures reads { OnOk result (Reads (D.state die.old).shape.pages (D.state die.old) (D.state die.new)) }
    ensures fails { OnErr result (FailsToRead (D.state die.old).shape.pages (D.state die.old) (D.state die.new)) }
    ensures same_work { work.new ≡ work.old }
    ensures same_sectors { length tables.new.map ≡ length tables.old.map }
{
    let mut sight = Sight {
        blank: true,
        sealed: false,
        level: 0,
    };
    for number in 0..tables.book.pages() {
        sight = read_page(die, work, tables, block, number, sight)?;
    }
    let generations = tables.book.generations();
    tables.found[block as usize] = found_state(sight.blank, sight.level, generations);
    Ok(())
}
