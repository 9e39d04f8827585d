//! The row of a map's entry: read from the die where a record holds it, and zeros else.
ghost use Rattle.std.specs.Prelude.{◌≡◌, length, replicate, OnOk, OnErr};
ghost use Rattle.cell_die.specs.Changes.{SameCells};
ghost use Rattle.cell_die.specs.Calls.{Kept, Passed, ReadFailed};
ghost use Rattle.page_codec.specs.Sizes.{Serves, ServesScheme};
ghost use Rattle.rssd_core.specs.EntryRow.{entry_row, entry_reads, HasPages};

use cell_die::{Die, DieFault};
use page_codec::{Place, Work, get};
use sector_map::Entry;
use striped::Scheme;

fn zeros(into: &mut [u8])
    ensures { into.new ≡ replicate (length into.old) 0 }
{
    into.fill(0);
}

/// Gives the row of an entry. After a `DieFault` `into` is as it was.
pub fn get_row<D: Die, C: Scheme>(
    die: &mut D,
    scheme: &C,
    work: &mut Work,
    entry: Option<Entry>,
    into: &mut [u8],
) -> Result<(), DieFault>
    requires die { Serves work.old (D.state die.old).shape }
    requires scheme { ServesScheme work.old (C.meaning scheme.now) }
    requires pages { HasPages (C.meaning scheme.now) (D.state die.old).shape entry }
    requires into { length into.old ≡ (C.meaning scheme.now).sector_bytes }
    ensures got { OnOk result (into.new ≡ entry_row (C.meaning scheme.now) (D.state die.old) entry) }
    ensures as_before { OnErr result (into.new ≡ into.old) }
    ensures same_cells { SameCells (D.state die.old) (D.state die.new) }
    ensures kept { Kept (D.state die.old) (D.state die.new) }
    ensures passed { OnOk result (Passed 0 (entry_reads (C.meaning scheme.now) entry) (D.state die.old) (D.state die.new)) }
    ensures failed { OnErr result (ReadFailed 0 (entry_reads (C.meaning scheme.now) entry) (D.state die.old) (D.state die.new)) }
    ensures same_work { work.new ≡ work.old }
{
    match entry {
        Some(Entry::Held(held)) => {
            let place = Place {
                page: held.page,
                slot: held.slot,
            };
            get(die, scheme, work, place, into)
        }
        _ => {
            zeros(into);
            Ok(())
        }
    }
}
