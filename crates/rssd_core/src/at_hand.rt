//! A record on the page at hand: the Active block's next page. It draws the next seq just before its first change call, and
//! once its gate is charged the record effect follows.
ghost use Rattle.std.specs.Prelude.{◌≡◌, ◌+◌, ◌^◌, ◌<◌, false, length, is_err, OnOk, OnErr};
ghost use Rattle.page_alloc.specs.CleanPage.{IsPageBranch};
ghost use Rattle.page_codec.specs.Sectors.{zero_sector};
ghost use Rattle.rssd_core.specs.Clearing.{zeros_header};
ghost use Rattle.rssd_core.specs.Held.{Keeps};
ghost use Rattle.rssd_core.specs.Placing.{header_at};
ghost use Rattle.rssd_core.specs.Steps.{PutNext, PutNextFailed};

use crate::store::Store;
use cell_die::{Die, DieFault};
use collector::record_effect;
use page_codec::{put_first, put_zeros};
use sector_map::{Entry, Place2};
use striped::Scheme;
use zero_count::Header;

impl<D: Die + Drop, C: Scheme + Drop> Store<D, C> {
    /// Puts a sector on the page at hand. After a `DieFault` one seq was drawn, and the sector is as before or written.
    pub(crate) fn put_sector(
        &mut self,
        page: u32,
        sector: u32,
        bytes: &[u8],
    ) -> Result<(), DieFault>
        requires running { self.old.stopped ≡ false }
        requires page { IsPageBranch self.old.cells.book page }
        requires small { self.old.cells.seq < 2 ^ 62 + 2 ^ 8 }
        requires sector { sector < self.old.geometry.sectors }
        requires bytes { length bytes.now ≡ self.old.geometry.sector_bytes }
        ensures keeps { Keeps C.meaning self.old self.new }
        ensures put { OnOk result (PutNext self.old.geometry (C.meaning self.old.scheme).decoding page (header_at sector self.old.cells.seq) bytes.now self.old.cells self.new.cells) }
        ensures failed { OnErr result (PutNextFailed self.old.geometry (C.meaning self.old.scheme).decoding (header_at sector self.old.cells.seq) bytes.now self.old.cells self.new.cells) }
        ensures same_moved { self.new.moved ≡ self.old.moved }
        ensures stopped { self.new.stopped ≡ is_err result }
    {
        let header = Header {
            sector,
            seq: self.seq,
            kind: 1,
        };
        self.seq += 1;
        if let Err(fault) = put_first(
            &mut self.die,
            &mut self.scheme,
            &mut self.work,
            page,
            &header,
            bytes,
        ) {
            self.stopped = true;
            return Err(fault);
        }
        record_effect(
            &mut self.map,
            &mut self.book,
            sector,
            Entry::Held(Place2 { page, slot: 0 }),
        );
        Ok(())
    }

    /// Puts zeros on the page at hand. After a `DieFault` one seq was drawn, and the sector is as before or zeros.
    pub(crate) fn put_zeros(&mut self, page: u32, sector: u32) -> Result<(), DieFault>
        requires running { self.old.stopped ≡ false }
        requires page { IsPageBranch self.old.cells.book page }
        requires small { self.old.cells.seq < 2 ^ 62 + 2 ^ 8 }
        requires sector { sector < self.old.geometry.sectors }
        ensures keeps { Keeps C.meaning self.old self.new }
        ensures put { OnOk result (PutNext self.old.geometry (C.meaning self.old.scheme).decoding page (zeros_header sector self.old.cells.seq)
            (zero_sector self.old.geometry) self.old.cells self.new.cells) }
        ensures failed { OnErr result (PutNextFailed self.old.geometry (C.meaning self.old.scheme).decoding (zeros_header sector self.old.cells.seq)
            (zero_sector self.old.geometry) self.old.cells self.new.cells) }
        ensures same_moved { self.new.moved ≡ self.old.moved }
        ensures stopped { self.new.stopped ≡ is_err result }
    {
        let header = Header {
            sector,
            seq: self.seq,
            kind: 3,
        };
        self.seq += 1;
        if let Err(fault) = put_zeros(&mut self.die, &mut self.work, page, &header) {
            self.stopped = true;
            return Err(fault);
        }
        record_effect(
            &mut self.map,
            &mut self.book,
            sector,
            Entry::Zeros(Place2 { page, slot: 0 }),
        );
        Ok(())
    }
}
