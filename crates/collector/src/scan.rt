//! The pages of a victim are scanned in order, each once, and the live records of a page are copied before the next page is read.
//! A slot's record is live exactly where the map names that slot for its sector.
ghost use Rattle.std.specs.Prelude.{◌≡◌, ◌+◌, ◌*◌, ◌/◌, ◌%◌, ◌<◌, ◌≤◌, ◌^◌, length};
ghost use Rattle.cell_die.specs.DieState.{page_count, page_of};
ghost use Rattle.sector_map.specs.Entry.{entry_at};
ghost use Rattle.page_codec.specs.Records.{header_in};
ghost use Rattle.page_codec.specs.Seen.{seen_page};
ghost use Rattle.collector.specs.Desk.{SameDesk, Fits, Stays, geometry_on};
ghost use Rattle.collector.specs.Store.{Store};
ghost use Rattle.collector.specs.Named.{names_slot};
ghost use Rattle.collector.specs.Turns.{BeforePage, BeforeSlot, EndsBefore, DeskBegins, DeskScans};

use crate::again::says_zeros;
use crate::desk::Desk;
use crate::live::is_named;
use crate::moves::Move;
use cell_die::{Die, DieFault};
use page_codec::{Place, PutFault, Seen, scan};
use sector_map::SectorMap;
use striped::Scheme;
use zero_count::Header;

/// Whether the record of a header in a slot is live.
fn is_live(map: &SectorMap, header: &Header, place: Place) -> bool
    ensures named { result ≡ names_slot (entry_at map.now header.now.sector) place }
    ensures small { header.now.sector < 2 ^ 32 }
{
    if header.sector >= map.sectors() {
        return false;
    }
    is_named(map.get(header.sector), place)
}

/// A turn on a page of the victim, with so many copies in the Spare.
#[derive(Clone, Copy, Debug, PartialEq, Eq)]
struct Turn {
    spare: u32,
    page: u32,
    copies: u32,
}

impl<D: Die, C: Scheme> Desk<'_, D, C> {
    /// Copies the record in a slot of the victim, where it is live, and answers how many copies there are then.
    fn copy_slot(
        &mut self,
        map: &SectorMap,
        moves: &mut [Move],
        turn: Turn,
        slot: u32,
        header: Option<Header>,
    ) -> Result<u32, PutFault>
        requires fits { Fits D.state C.meaning self.old }
        requires stands { (start : Store) × BeforeSlot D.state C.meaning self.old map.now start turn slot moves.old }
        requires header { header ≡ header_in (geometry_on D.state C.meaning self.old map.now) (D.state self.old.die.now).cells (record { page = turn.page; slot = slot }) }
        ensures ends { (start : Store) → BeforeSlot D.state C.meaning self.old map.now start turn slot moves.old
            → EndsBefore D.state C.meaning self.old self.new map.now start turn (slot + 1) moves.new result }
        ensures stays { Stays D.state C.meaning self.old self.new }
        ensures same_desk { SameDesk self.old self.new }
    {
        let Some(header) = header else {
            return Ok(turn.copies);
        };
        let place = Place {
            page: turn.page,
            slot,
        };
        if !is_live(map, &header, place) {
            return Ok(turn.copies);
        }
        let page = turn.spare * self.book.pages() + turn.copies;
        match self.copy_record(turn.spare, page, place, &header) {
            Ok(()) => {
                moves[turn.copies as usize] = Move {
                    sector: header.sector,
                    zeros: says_zeros(&header),
                };
                Ok(turn.copies + 1)
            }
            Err(fault) => Err(fault),
        }
    }

    /// Copies the live records of a page that was scanned.
    fn copy_seen(
        &mut self,
        map: &SectorMap,
        moves: &mut [Move],
        turn: Turn,
        seen: &Seen,
    ) -> Result<u32, PutFault>
        requires fits { Fits D.state C.meaning self.old }
        requires stands { (start : Store) × BeforeSlot D.state C.meaning self.old map.now start turn 0 moves.old }
        requires seen { seen.now ≡ seen_page (D.state self.old.die.now).shape.main_bytes (C.meaning self.old.scheme.now).generations (page_of (D.state self.old.die.now) turn.page) }
        ensures ends { (start : Store) → BeforeSlot D.state C.meaning self.old map.now start turn 0 moves.old
            → EndsBefore D.state C.meaning self.old self.new map.now start turn (C.meaning self.old.scheme.now).generations moves.new result }
        ensures stays { Stays D.state C.meaning self.old self.new }
        ensures same_desk { SameDesk self.old self.new }
    {
        let copies = match self.copy_slot(map, moves, turn, 0, seen.first.header) {
            Ok(copies) => copies,
            Err(fault) => return Err(fault),
        };
        let second = Turn { copies, ..turn };
        let copies = match self.copy_slot(map, moves, second, 1, seen.second.header) {
            Ok(copies) => copies,
            Err(fault) => return Err(fault),
        };
        if self.scheme.generations() == 2 {
            return Ok(copies);
        }
        let third = Turn { copies, ..turn };
        self.copy_slot(map, moves, third, 2, seen.third.header)
    }

    /// Scans a page of the victim, and copies its live records.
    fn copy_page(
        &mut self,
        map: &SectorMap,
        moves: &mut [Move],
        turn: Turn,
    ) -> Result<u32, PutFault>
        requires fits { Fits D.state C.meaning self.old }
        requires page { turn.page < page_count (D.state self.old.die.now).shape }
        requires stands { (start : Store) × BeforePage D.state C.meaning self.old map.now start turn moves.old }
        ensures ends { (start : Store) → BeforePage D.state C.meaning self.old map.now start turn moves.old
            → EndsBefore D.state C.meaning self.old self.new map.now start turn (C.meaning self.old.scheme.now).generations moves.new result }
        ensures stays { Stays D.state C.meaning self.old self.new }
        ensures same_desk { SameDesk self.old self.new }
    {
        match scan(self.die, self.work, turn.page) {
            Ok(seen) => self.copy_seen(map, moves, turn, &seen),
            Err(DieFault) => Err(PutFault::Read),
        }
    }

    /// Copies the live records of the victim to the Spare, which is blank, and answers how many there are.
    pub(crate) fn copy_block(
        &mut self,
        map: &SectorMap,
        moves: &mut [Move],
        victim: u32,
        spare: u32,
    ) -> Result<u32, PutFault>
        requires fits { Fits D.state C.meaning self.old }
        requires begun { DeskBegins D.state C.meaning victim spare self.old map.now }
        requires room { (D.state self.old.die.now).shape.pages ≤ length moves.old }
        ensures ends { DeskScans D.state C.meaning victim spare moves.new result self.old self.new map.now }
        ensures stays { Stays D.state C.meaning self.old self.new }
        ensures same_desk { SameDesk self.old self.new }
    {
        let pages = self.book.pages();
        let first = victim * pages;
        let mut copies = 0;
        for i in 0..pages {
            let turn = Turn {
                spare,
                page: first + i,
                copies,
            };
            copies = match self.copy_page(map, moves, turn) {
                Ok(more) => more,
                Err(fault) => return Err(fault),
            };
        }
        Ok(copies)
    }
}
