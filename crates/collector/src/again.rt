//! A live record is put again with the next seq: its bytes as kind 1, or zeros as kind 3. Its bytes are read before the number is
//! drawn, so a failed read draws none.
ghost use Rattle.std.specs.Prelude.{◌≡◌, ◌<◌, ◌+◌, ◌-◌, ◌*◌, ◌^◌, ◌≤◌, true, false, length, OnOk, OnErr};
ghost use Rattle.cell_die.specs.DieState.{page_count};
ghost use Rattle.cell_die.specs.Calls.{Passed, ChangeFailed};
ghost use Rattle.striped.specs.Meaning.{IsSector};
ghost use Rattle.page_codec.specs.Sectors.{says_zeros as zeros_said};
ghost use Rattle.page_codec.specs.Puts.{Puts, FirstGives, first_slot, is_gated};
ghost use Rattle.page_codec.specs.Units.{reads_of};
ghost use Rattle.collector.specs.Again.{again};
ghost use Rattle.collector.specs.Desk.{SameDesk, Fits, IsFree, Stays, DeskPutsAgain};

use crate::desk::Desk;
use crate::live::LiveRecord;
use cell_die::{Die, DieFault};
use page_codec::{PutFault, get, put_first, put_zeros};
use striped::Scheme;
use zero_count::Header;

/// Whether a record says that its sector is zeros.
pub(crate) fn says_zeros(header: &Header) -> bool
    ensures { result ≡ zeros_said header.now }
{
    header.kind == 3 || header.kind == 4
}

/// Draws the next seq for the record that says the same.
fn draw_header(header: &Header, seq: &mut u64) -> Header
    requires { seq.old < 2 ^ 62 }
    ensures header { result ≡ again header.now seq.old }
    ensures seq { seq.new ≡ seq.old + 1 }
{
    let drawn = *seq;
    *seq += 1;
    Header {
        sector: header.sector,
        seq: drawn,
        kind: if says_zeros(header) { 3 } else { 1 },
    }
}

impl<D: Die, C: Scheme> Desk<'_, D, C> {
    /// Puts a record of zeros again.
    fn put_zeros_again(&mut self, live: &LiveRecord, page: u32) -> Result<(), PutFault>
        requires fits { Fits D.state C.meaning self.old }
        requires free { IsFree D.state self.old page }
        requires fresh { self.old.seq.now < 2 ^ 62 }
        requires zeros { zeros_said live.now.header ≡ true }
        ensures ends { DeskPutsAgain D.state C.meaning live.now page result self.old self.new }
        ensures stays { Stays D.state C.meaning self.old self.new }
        ensures same_book { self.new.book.now ≡ self.old.book.now }
        ensures same_desk { SameDesk self.old self.new }
    {
        let header = draw_header(&live.header, self.seq);
        match put_zeros(self.die, self.work, page, &header) {
            Ok(()) => Ok(()),
            Err(DieFault) => Err(PutFault::Change),
        }
    }

    /// Puts a sector with the next seq, under a header that says bytes.
    fn put_sector(&mut self, page: u32, header: &Header, sector: &[u8]) -> Result<(), DieFault>
        requires fits { Fits D.state C.meaning self.old }
        requires free { IsFree D.state self.old page }
        requires fresh { self.old.seq.now < 2 ^ 62 }
        requires bytes { zeros_said header.now ≡ false }
        requires sector { length sector.now ≡ (C.meaning self.old.scheme.now).sector_bytes }
        ensures put { Puts (FirstGives (C.meaning self.old.scheme.now) page sector.now) 1 (first_slot page) (again header.now self.old.seq.now)
            (D.state self.old.die.now) (D.state self.new.die.now) }
        ensures sector { IsSector (C.meaning self.old.scheme.now) sector.now }
        ensures gated { OnOk result (is_gated (D.state self.new.die.now) (first_slot page) ≡ true) }
        ensures passed { OnOk result (Passed 2 0 (D.state self.old.die.now) (D.state self.new.die.now)) }
        ensures failed { OnErr result (ChangeFailed 2 0 (D.state self.old.die.now) (D.state self.new.die.now)) }
        ensures seq { self.new.seq.now ≡ self.old.seq.now + 1 }
        ensures stays { Stays D.state C.meaning self.old self.new }
        ensures same_book { self.new.book.now ≡ self.old.book.now }
        ensures same_desk { SameDesk self.old self.new }
    {
        let header = draw_header(header, self.seq);
        put_first(self.die, self.scheme, self.work, page, &header, sector)
    }

    /// Reads the sector that a record says, and puts it again.
    fn put_bytes_again(&mut self, live: &LiveRecord, page: u32) -> Result<(), PutFault>
        requires fits { Fits D.state C.meaning self.old }
        requires free { IsFree D.state self.old page }
        requires fresh { self.old.seq.now < 2 ^ 62 }
        requires bytes { zeros_said live.now.header ≡ false }
        requires unit { live.now.place.page + reads_of (C.meaning self.old.scheme.now) live.now.place ≤ page_count (D.state self.old.die.now).shape }
        ensures ends { DeskPutsAgain D.state C.meaning live.now page result self.old self.new }
        ensures stays { Stays D.state C.meaning self.old self.new }
        ensures same_book { self.new.book.now ≡ self.old.book.now }
        ensures same_desk { SameDesk self.old self.new }
    {
        let mut buffer = [0; 512];
        let bytes = self.scheme.sector_bytes() as usize;
        let sector = &mut buffer[..bytes];
        let Ok(()) = get(self.die, self.scheme, self.work, live.place, sector) else {
            return Err(PutFault::Read);
        };
        match self.put_sector(page, &live.header, sector) {
            Ok(()) => Ok(()),
            Err(DieFault) => Err(PutFault::Change),
        }
    }

    /// Puts a record again on a page. After `PutFault::Read` no number was drawn.
    pub(crate) fn put_again(&mut self, live: &LiveRecord, page: u32) -> Result<(), PutFault>
        requires fits { Fits D.state C.meaning self.old }
        requires free { IsFree D.state self.old page }
        requires fresh { self.old.seq.now < 2 ^ 62 }
        requires unit { live.now.place.page + reads_of (C.meaning self.old.scheme.now) live.now.place ≤ page_count (D.state self.old.die.now).shape }
        ensures ends { DeskPutsAgain D.state C.meaning live.now page result self.old self.new }
        ensures stays { Stays D.state C.meaning self.old self.new }
        ensures same_book { self.new.book.now ≡ self.old.book.now }
        ensures same_desk { SameDesk self.old self.new }
    {
        if says_zeros(&live.header) {
            self.put_zeros_again(live, page)
        } else {
            self.put_bytes_again(live, page)
        }
    }
}
