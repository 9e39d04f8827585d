//! Where a write goes: over the offered unit, or to a clean page where none is offered or the offered one declines. A trim puts
//! zeros on a clean page.
ghost use Rattle.std.specs.Prelude.{◌≡◌, ◌^◌, ◌<◌, false, length};
ghost use Rattle.rssd_core.specs.Clearing.{ClearEnds};
ghost use Rattle.rssd_core.specs.Held.{Keeps, stops};
ghost use Rattle.rssd_core.specs.Placing.{CleanEnds, PlaceEnds};

use crate::device::Placed;
use crate::store::Store;
use cell_die::{Die, DieFault};
use page_codec::PutFault;
use reuse_pool::offer;
use striped::Scheme;
use wom_code::Carry;

impl<D: Die + Drop, C: Scheme + Drop> Store<D, C> {
    /// Puts a sector on a clean page.
    fn put_clean(&mut self, sector: u32, bytes: &[u8]) -> Result<(), PutFault>
        requires running { self.old.stopped ≡ false }
        requires fresh { self.old.cells.seq < 2 ^ 62 }
        requires sector { sector < self.old.geometry.sectors }
        requires bytes { length bytes.now ≡ self.old.geometry.sector_bytes }
        ensures keeps { Keeps C.meaning self.old self.new }
        ensures ends { CleanEnds self.old.geometry (C.meaning self.old.scheme).decoding sector bytes.now result self.old.cells self.new.cells self.old.moved self.new.moved }
        ensures stopped { self.new.stopped ≡ stops result }
    {
        let page = self.open_page()?;
        match self.put_sector(page, sector, bytes) {
            Ok(()) => Ok(()),
            Err(DieFault) => Err(PutFault::Change),
        }
    }

    /// Puts a sector where a write goes.
    pub(crate) fn place(&mut self, sector: u32, bytes: &[u8]) -> Result<Placed, PutFault>
        requires running { self.old.stopped ≡ false }
        requires fresh { self.old.cells.seq < 2 ^ 62 }
        requires sector { sector < self.old.geometry.sectors }
        requires bytes { length bytes.now ≡ self.old.geometry.sector_bytes }
        ensures keeps { Keeps C.meaning self.old self.new }
        ensures ends { PlaceEnds self.old.geometry (C.meaning self.old.scheme).decoding sector bytes.now result self.old.cells self.new.cells self.old.moved self.new.moved }
        ensures stopped { self.new.stopped ≡ stops result }
    {
        let Some(unit) = offer(&self.book) else {
            self.put_clean(sector, bytes)?;
            return Ok(Placed::First);
        };
        match self.put_over(unit, sector, bytes) {
            Ok(Carry::Carried) => Ok(Placed::Second),
            Ok(Carry::Declined) => match self.put_clean(sector, bytes) {
                Ok(()) => Ok(Placed::Declined),
                Err(fault) => Err(fault),
            },
            Err(fault) => Err(fault),
        }
    }

    /// Puts zeros on a clean page. After `PutFault::Read` the sector is as before; after `PutFault::Change`, over sound cells, it
    /// is as before or zeros.
    pub(crate) fn clear(&mut self, sector: u32) -> Result<(), PutFault>
        requires running { self.old.stopped ≡ false }
        requires fresh { self.old.cells.seq < 2 ^ 62 }
        requires sector { sector < self.old.geometry.sectors }
        ensures keeps { Keeps C.meaning self.old self.new }
        ensures ends { ClearEnds self.old.geometry (C.meaning self.old.scheme).decoding sector result self.old.cells self.new.cells self.old.moved self.new.moved }
        ensures stopped { self.new.stopped ≡ stops result }
    {
        let page = self.open_page()?;
        match self.put_zeros(page, sector) {
            Ok(()) => Ok(()),
            Err(DieFault) => Err(PutFault::Change),
        }
    }
}
