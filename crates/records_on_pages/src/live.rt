//! The live record of a die's only sector: of the committed records, the one with the greatest seq. Each record here is on
//! one of the pages 0 to 2, and none is a copy, so that a record is committed where its gate is charged.

ghost use Rattle.std.specs.Prelude.{◌≡◌, ◌<◌, ◌≤◌, OnOk, IfOk, IfSome};
ghost use Rattle.cell_die.specs.DieState.{page_count};
ghost use Rattle.page_codec.specs.Sizes.{Serves, ServesScheme};

use cell_die::{Die, DieFault};
use page_codec::{Place, Seen, SeenSlot, Work, get, scan};
use striped::Scheme;
use zero_count::Header;

/// A committed record.
#[derive(Clone, Copy)]
struct Record {
    place: Place,
    header: Header,
}

/// The record of a slot, where it is committed.
fn committed(seen: &SeenSlot, page: u32, slot: u32) -> Option<Record>
    ensures { IfSome result (λ live. live.place.page ≡ page) }
{
    match seen.header {
        Some(header) if seen.gate => Some(Record {
            place: Place { page, slot },
            header,
        }),
        _ => None,
    }
}

/// The newer of two records.
fn newer(a: Option<Record>, b: Option<Record>) -> Option<Record>
    requires a { IfSome a (λ live. live.place.page < 3) }
    requires b { IfSome b (λ live. live.place.page < 3) }
    ensures { IfSome result (λ live. live.place.page < 3) }
{
    match (a, b) {
        (Some(x), Some(y)) if x.header.seq < y.header.seq => b,
        (Some(_), _) => a,
        (None, _) => b,
    }
}

/// The newest record of a page, which has one in a further slot only where it is newer.
fn newest_on<D: Die>(die: &mut D, work: &mut Work, page: u32) -> Result<Option<Record>, DieFault>
    requires die { Serves work.old (D.state die.old).shape }
    requires pages { 3 ≤ page_count (D.state die.old).shape }
    requires page { page < 3 }
    ensures page { IfOk result (λ found. IfSome found (λ live. live.place.page < 3)) }
    ensures same_shape { (D.state die.new).shape ≡ (D.state die.old).shape }
    ensures same_work { work.new ≡ work.old }
{
    let seen = scan(die, work, page)?;
    let first = committed(&seen.first, page, 0);
    Ok(newer(first, committed(&seen.second, page, 1)))
}

/// The newest record of the pages 0 to 2.
fn live_record<D: Die>(die: &mut D, work: &mut Work) -> Result<Option<Record>, DieFault>
    requires die { Serves work.old (D.state die.old).shape }
    requires pages { 3 ≤ page_count (D.state die.old).shape }
    ensures page { IfOk result (λ found. IfSome found (λ live. live.place.page < 3)) }
    ensures same_shape { (D.state die.new).shape ≡ (D.state die.old).shape }
    ensures same_work { work.new ≡ work.old }
{
    let first = newest_on(die, work, 0)?;
    let second = newest_on(die, work, 1)?;
    let third = newest_on(die, work, 2)?;
    Ok(newer(newer(first, second), third))
}

/// The sector that the live record says; zeros where there is none, or it is of kind 3.
pub fn live_sector<D: Die, C: Scheme>(
    die: &mut D,
    scheme: &C,
    work: &mut Work,
) -> Result<[u8; 16], DieFault>
    requires die { Serves work.old (D.state die.old).shape }
    requires scheme { ServesScheme work.old (C.meaning scheme.now) }
    requires sector_bytes { work.old.sector_bytes ≡ 16 }
    requires span { work.old.span ≡ 1 }
    requires pages { 3 ≤ page_count (D.state die.old).shape }
{
    let mut sector = [0; 16];
    match live_record(die, work)? {
        Some(live) if live.header.kind == 1 => {
            get(die, scheme, work, live.place, &mut sector)?;
        }
        _ => {}
    }
    Ok(sector)
}
