//! Idle moves: a live record of the closed block with the fewest goes to the Active block, so that a later wipe finds a block
//! without live records. An idle move opens, erases and collects no block.
ghost use Rattle.std.specs.Prelude.{◌≡◌, ◌<◌, ◌≤◌, ◌^◌, ℕ, length, true, false, Ok, Err, Some, IfSome, IfNone};
ghost use Rattle.block_state.specs.Book.{NoneActive};
ghost use Rattle.sector_map.specs.Entry.{place_of};
ghost use Rattle.page_codec.specs.Puts.{first_slot};
ghost use Rattle.page_codec.specs.Sizes.{Serves, ServesScheme};
ghost use Rattle.page_codec.specs.TrueBook.{IsTrue, entry_of};
ghost use Rattle.collector.specs.Store.{geometry_of, store, Holds};
ghost use Rattle.collector.specs.Desk.{SameDesk, Fits, Stays, geometry_on, DeskTrue, DeskHolds, DeskMoves};
ghost use Rattle.collector.specs.Again.{IsNextPage, IsLive};
ghost use Rattle.collector.specs.Moves.{Moved, MoveReadFailed, MoveChangeFailed, NoMoveLeft};

use crate::again::says_zeros;
use crate::desk::Desk;
use crate::effect::record_effect;
use crate::live::{LiveRecord, find_first};
use block_state::{Book, State};
use cell_die::Die;
use page_codec::{PutFault, Work};
use sector_map::{Entry, Place2, SectorMap};
use striped::Scheme;
use zero_count::Header;

/// The page that the Active block fills next.
#[derive(Clone, Copy, Debug, PartialEq, Eq)]
struct NextPage {
    /// The page's number on the die.
    page: u32,
    /// How many pages the block has left.
    room: u32,
}

/// The page that the Active block fills next, if there is an Active block.
fn next_page(book: &Book) -> Option<NextPage>
    ensures some { IfSome result (λ next. IsNextPage book.now next.page next.room) }
    ensures none { IfNone result (NoneActive book.now) }
{
    let block = book.active()?;
    let pages = book.pages();
    match book.state_of(block) {
        State::Active { fill } => Some(NextPage {
            page: block * pages + fill,
            room: pages - fill,
        }),
        _ => None,
    }
}

/// The map's entry for a record in slot 0 of a page.
fn first_entry(page: u32, header: &Header) -> Entry
    ensures entry { entry_of (Some (record { place = first_slot page; header = header.now })) ≡ Some result }
    ensures place { place_of result ≡ record { page = page; slot = 0 } }
{
    let place = Place2 { page, slot: 0 };
    if says_zeros(header) {
        Entry::Zeros(place)
    } else {
        Entry::Held(place)
    }
}

impl<D: Die, C: Scheme> Desk<'_, D, C> {
    /// Moves a live record to the Active block's next page.
    fn move_record(
        &mut self,
        map: &mut SectorMap,
        live: &LiveRecord,
        page: u32,
    ) -> Result<(), PutFault>
        requires fits { Fits D.state C.meaning self.old }
        requires tables { DeskTrue D.state C.meaning self.old map.old }
        requires fresh { self.old.seq.now < 2 ^ 62 }
        requires live { IsLive (geometry_on D.state C.meaning self.old map.old) (D.state self.old.die.now).cells live.now }
        requires next { (room : ℕ) × IsNextPage self.old.book.now page room }
        ensures holds { DeskHolds D.state C.meaning self.old map.old self.new map.new }
        ensures ends { DeskMoves D.state C.meaning live.now page result self.old map.old self.new map.new }
        ensures stays { Stays D.state C.meaning self.old self.new }
        ensures same_desk { SameDesk self.old self.new }
    {
        self.put_again(live, page)?;
        record_effect(
            map,
            self.book,
            live.header.sector,
            first_entry(page, &live.header),
        );
        Ok(())
    }
}

/// Moves the first live record of the idle victim to slot 0 of the Active block's next page. It answers whether there was one to
/// move: it answers false exactly where no closed block's live records fit the room that the Active block has left.
///
/// After `PutFault::Read` nothing has changed. After `PutFault::Change` all sectors are as before, and one number was drawn.
pub fn move_one<D: Die, C: Scheme>(
    die: &mut D,
    scheme: &mut C,
    work: &mut Work,
    map: &mut SectorMap,
    book: &mut Book,
    seq: &mut u64,
) -> Result<bool, PutFault>
    requires die { Serves work.old (D.state die.old).shape }
    requires scheme { ServesScheme work.old (C.meaning scheme.old) }
    requires small_sector { (C.meaning scheme.old).sector_bytes ≤ 512 }
    requires tables { IsTrue (geometry_of (D.state die.old).shape (C.meaning scheme.old) (length map.old)) (D.state die.old).cells book.old map.old seq.old }
    requires fresh { seq.old < 2 ^ 62 }
    ensures holds { Holds (geometry_of (D.state die.old).shape (C.meaning scheme.old) (length map.old))
        (store (D.state die.old) map.old book.old seq.old)
        (store (D.state die.new) map.new book.new seq.new) }
    ensures moved { result ≡ Ok true → Moved (geometry_of (D.state die.old).shape (C.meaning scheme.old) (length map.old)) (C.meaning scheme.old).decoding
        (store (D.state die.old) map.old book.old seq.old)
        (store (D.state die.new) map.new book.new seq.new) }
    ensures none { result ≡ Ok false → NoMoveLeft book.old }
    ensures none_alone { NoMoveLeft book.old → result ≡ Ok false }
    ensures nothing { result ≡ Ok false → store (D.state die.new) map.new book.new seq.new
        ≡ store (D.state die.old) map.old book.old seq.old }
    ensures read_failed { result ≡ Err PutFault.Read → MoveReadFailed (geometry_of (D.state die.old).shape (C.meaning scheme.old) (length map.old))
        (store (D.state die.old) map.old book.old seq.old)
        (store (D.state die.new) map.new book.new seq.new) }
    ensures change_failed { result ≡ Err PutFault.Change → MoveChangeFailed (geometry_of (D.state die.old).shape (C.meaning scheme.old) (length map.old)) (C.meaning scheme.old).decoding
        (store (D.state die.old) map.old book.old seq.old)
        (store (D.state die.new) map.new book.new seq.new) }
    ensures same_scheme { C.meaning scheme.new ≡ C.meaning scheme.old }
    ensures same_work { work.new ≡ work.old }
{
    let Some(next) = next_page(book) else {
        return Ok(false);
    };
    let Some(victim) = book.idle_victim(next.room) else {
        return Ok(false);
    };
    let pages = book.pages();
    let Ok(live) = find_first(die, work, map, victim * pages, pages) else {
        return Err(PutFault::Read);
    };
    let mut desk = Desk {
        die,
        scheme,
        work,
        book,
        seq,
    };
    desk.move_record(map, &live, next.page)?;
    Ok(true)
}
