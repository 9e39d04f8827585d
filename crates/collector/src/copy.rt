//! A copy of one record: its sector, or zeros, on a page of the Spare, with a header of kind 2 or 4. Such a record does not
//! count before the seal of its block.
ghost use Rattle.std.specs.Prelude.{◌≡◌, ◌+◌, ◌<◌, ◌≤◌, ◌^◌, true, false, length, OnOk, OnErr};
ghost use Rattle.cell_die.specs.DieState.{page_count};
ghost use Rattle.cell_die.specs.Calls.{Passed, ChangeFailed};
ghost use Rattle.block_state.specs.Book.{IsSpare, with_state};
ghost use Rattle.page_codec.specs.Sectors.{says_zeros};
ghost use Rattle.page_codec.specs.Units.{reads_of};
ghost use Rattle.page_codec.specs.Puts.{FirstGives, first_slot, is_gated};
ghost use Rattle.page_codec.specs.declared.place.Place.{Place};
ghost use Rattle.striped.specs.Meaning.{IsSector};
ghost use Rattle.collector.specs.Desk.{SameDesk, Fits, Stays, IsReady, DeskCopies};
ghost use Rattle.collector.specs.Steps.{PutsDrawn};

use crate::again::says_zeros as zeros_said;
use crate::desk::Desk;
use block_state::{Book, State};
use cell_die::{Die, DieFault};
use page_codec::{Place, PutFault, get, put_first, put_zeros};
use striped::Scheme;
use zero_count::Header;

/// The greatest number of bytes of a sector.
const SECTOR_BYTES: usize = 512;

/// The header of a copy, with the next seq. From here on the Spare is not known to be blank.
fn draw(book: &mut Book, seq: &mut u64, spare: u32, sector: u32, kind: u8) -> Header
    requires is_spare { IsSpare book.old spare }
    requires fresh { seq.old + 1 < 2 ^ 64 }
    ensures book { book.new ≡ with_state book.old spare (State.Spare false) }
    ensures seq { seq.new ≡ seq.old + 1 }
    ensures header { result ≡ record { sector = sector; seq = seq.old; kind = kind } }
{
    book.set_state(spare, State::Spare { blank: false });
    let drawn = *seq;
    *seq = drawn + 1;
    Header {
        sector,
        seq: drawn,
        kind,
    }
}

impl<D: Die, C: Scheme> Desk<'_, D, C> {
    /// Copies a record of zeros.
    fn copy_zeros(&mut self, spare: u32, page: u32, header: &Header) -> Result<(), PutFault>
        requires fits { Fits D.state C.meaning self.old }
        requires ready { IsReady D.state self.old spare page }
        requires zeros { says_zeros header.now ≡ true }
        ensures ends { (place : Place) → DeskCopies D.state C.meaning spare page place header.now result self.old self.new }
        ensures stays { Stays D.state C.meaning self.old self.new }
        ensures same_desk { SameDesk self.old self.new }
    {
        let copy = draw(self.book, self.seq, spare, header.sector, 4);
        match put_zeros(self.die, self.work, page, &copy) {
            Ok(()) => Ok(()),
            Err(DieFault) => Err(PutFault::Change),
        }
    }

    /// Puts a copy of a sector.
    fn put_bytes(
        &mut self,
        spare: u32,
        page: u32,
        number: u32,
        sector: &[u8],
    ) -> Result<(), DieFault>
        requires fits { Fits D.state C.meaning self.old }
        requires ready { IsReady D.state self.old spare page }
        requires sector { length sector.now ≡ (C.meaning self.old.scheme.now).sector_bytes }
        ensures puts { PutsDrawn (FirstGives (C.meaning self.old.scheme.now) page sector.now) spare page (record { sector = number; seq = self.old.seq.now; kind = 2 })
            (D.state self.old.die.now) self.old.book.now self.old.seq.now (D.state self.new.die.now) self.new.book.now self.new.seq.now }
        ensures sector { IsSector (C.meaning self.old.scheme.now) sector.now }
        ensures gated { OnOk result (is_gated (D.state self.new.die.now) (first_slot page) ≡ true) }
        ensures passed { OnOk result (Passed 2 0 (D.state self.old.die.now) (D.state self.new.die.now)) }
        ensures failed { OnErr result (ChangeFailed 2 0 (D.state self.old.die.now) (D.state self.new.die.now)) }
        ensures stays { Stays D.state C.meaning self.old self.new }
        ensures same_desk { SameDesk self.old self.new }
    {
        let copy = draw(self.book, self.seq, spare, number, 2);
        put_first(self.die, self.scheme, self.work, page, &copy, sector)
    }

    /// Copies a record of bytes.
    fn copy_bytes(
        &mut self,
        spare: u32,
        page: u32,
        place: Place,
        header: &Header,
    ) -> Result<(), PutFault>
        requires fits { Fits D.state C.meaning self.old }
        requires ready { IsReady D.state self.old spare page }
        requires pages { place.page + reads_of (C.meaning self.old.scheme.now) place ≤ page_count (D.state self.old.die.now).shape }
        requires bytes { says_zeros header.now ≡ false }
        ensures ends { DeskCopies D.state C.meaning spare page place header.now result self.old self.new }
        ensures stays { Stays D.state C.meaning self.old self.new }
        ensures same_desk { SameDesk self.old self.new }
    {
        let mut buffer = [0; SECTOR_BYTES];
        let sector = &mut buffer[..self.scheme.sector_bytes() as usize];
        if get(self.die, self.scheme, self.work, place, sector).is_err() {
            return Err(PutFault::Read);
        }
        match self.put_bytes(spare, page, header.sector, sector) {
            Ok(()) => Ok(()),
            Err(DieFault) => Err(PutFault::Change),
        }
    }

    /// Copies the record in a slot to a blank page: its sector with a header of kind 2, or zeros with one of kind 4. It draws a
    /// seq just before its first change call, of which it makes two.
    ///
    /// `PutFault::Read` says that nothing was changed and no seq drawn. After `PutFault::Change` the gate of the copy is not
    /// charged and the page has some of its cells, or all of it stands.
    pub(crate) fn copy_record(
        &mut self,
        spare: u32,
        page: u32,
        place: Place,
        header: &Header,
    ) -> Result<(), PutFault>
        requires fits { Fits D.state C.meaning self.old }
        requires ready { IsReady D.state self.old spare page }
        requires pages { place.page + reads_of (C.meaning self.old.scheme.now) place ≤ page_count (D.state self.old.die.now).shape }
        ensures ends { DeskCopies D.state C.meaning spare page place header.now result self.old self.new }
        ensures stays { Stays D.state C.meaning self.old self.new }
        ensures same_desk { SameDesk self.old self.new }
    {
        if zeros_said(header) {
            self.copy_zeros(spare, page, header)
        } else {
            self.copy_bytes(spare, page, place, header)
        }
    }
}
