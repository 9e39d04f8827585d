//! A record over the offered unit. It draws the next seq where a change call of it was made, and the unit is passed once it was
//! written or declined.
ghost use Rattle.std.specs.Prelude.{◌≡◌, ◌+◌, ◌^◌, ◌<◌, false, length};
ghost use Rattle.reuse_pool.specs.Offer.{IsOffer};
ghost use Rattle.rssd_core.specs.Held.{Keeps, stops};
ghost use Rattle.rssd_core.specs.Placing.{header_at};
ghost use Rattle.rssd_core.specs.Steps.{OverEnds};

use crate::store::Store;
use cell_die::Die;
use collector::record_effect;
use page_codec::{PutFault, put_second};
use reuse_pool::{ReuseUnit, pass};
use sector_map::{Entry, Place2};
use striped::Scheme;
use wom_code::Carry;
use zero_count::Header;

impl<D: Die + Drop, C: Scheme + Drop> Store<D, C> {
    /// Puts a sector over the offered unit, where cells above the unit's carry it.
    ///
    /// After `PutFault::Read` nothing has changed. After `PutFault::Change` one seq was drawn, and the sector is as before or
    /// written.
    pub(crate) fn put_over(
        &mut self,
        unit: ReuseUnit,
        sector: u32,
        bytes: &[u8],
    ) -> Result<Carry, PutFault>
        requires running { self.old.stopped ≡ false }
        requires offer { IsOffer self.old.cells.book unit }
        requires small { self.old.cells.seq < 2 ^ 62 + 2 ^ 8 }
        requires sector { sector < self.old.geometry.sectors }
        requires bytes { length bytes.now ≡ self.old.geometry.sector_bytes }
        ensures keeps { Keeps C.meaning self.old self.new }
        ensures ends { OverEnds self.old.geometry (C.meaning self.old.scheme).decoding unit (header_at sector self.old.cells.seq) bytes.now result self.old.cells self.new.cells }
        ensures same_moved { self.new.moved ≡ self.old.moved }
        ensures stopped { self.new.stopped ≡ stops result }
    {
        let page = unit.block * self.book.pages() + unit.number * self.scheme.span();
        let header = Header {
            sector,
            seq: self.seq,
            kind: 1,
        };
        match put_second(
            &mut self.die,
            &mut self.scheme,
            &mut self.work,
            page,
            unit.slot,
            &header,
            bytes,
        ) {
            Ok(Carry::Carried) => {
                self.seq += 1;
                let place = Place2 {
                    page,
                    slot: unit.slot,
                };
                record_effect(&mut self.map, &mut self.book, sector, Entry::Held(place));
                pass(&mut self.book, unit);
                Ok(Carry::Carried)
            }
            Ok(Carry::Declined) => {
                pass(&mut self.book, unit);
                Ok(Carry::Declined)
            }
            Err(PutFault::Read) => Err(PutFault::Read),
            Err(PutFault::Change) => {
                self.seq += 1;
                self.stopped = true;
                Err(PutFault::Change)
            }
        }
    }
}
