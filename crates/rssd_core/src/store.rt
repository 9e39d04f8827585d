//! A die with a scheme, and the tables that are kept of it, as one value. Reads, puts, wipes, collections and idle moves are calls
//! of it.
ghost use Rattle.std.specs.Prelude.{◌≡◌, ◌≢◌, ◌⊎◌, ◌<◌, ◌≤◌, ◌^◌, ◌↔◌, false, true, length, slice_index_or, [], Err, OnOk, OnErr, IsTrue, IfSome};
ghost use Rattle.cell_die.specs.Calls.{Passed, ReadFailed};
ghost use Rattle.cell_die.specs.Changes.{SameCells};
ghost use Rattle.cell_die.specs.Counts.{sum_of};
ghost use Rattle.cell_die.specs.Power.{told, with_cut, with_read_failure};
ghost use Rattle.sector_map.specs.Entry.{entry_at};
ghost use Rattle.page_codec.specs.Sectors.{stored};
ghost use Rattle.page_codec.specs.TrueBook.{RecyclingDone};
ghost use Rattle.reuse_pool.specs.Recycling.{Recycles};
ghost use Rattle.collector.specs.Moves.{get_reads};
ghost use Rattle.rssd_core.specs.Clearing.{is_held as held_in};
ghost use Rattle.page_codec.specs.Records.{live_record};
ghost use Rattle.rssd_core.specs.Held.{Keeps, Stands, on_die};

use crate::device::FtlError;
use crate::row::get_row;
use block_state::Book;
use cell_die::{Die, DieFault, PowerDie, Torn};
use collector::Moves;
use page_codec::Work;
use reuse_pool::recycle_due;
use sector_map::{Entry, SectorMap};
use std::marker::Model;
use striped::Scheme;

/// No record is put with a number from here on.
const SPENT: u64 = 1 << 62;

/// A die with a scheme, its tables and all memory that its calls take. While no change call failed under it, the tables are true
/// to the cells.
#[derive(Drop)]
pub struct Store<D: Die + Drop, C: Scheme + Drop> {
    pub(crate) die: D,
    pub(crate) scheme: C,
    pub(crate) work: Work,
    pub(crate) map: SectorMap,
    pub(crate) book: Book,
    /// The number of the next record.
    pub(crate) seq: u64,
    /// Room for the moves of a collection.
    pub(crate) moves: Moves,
    /// How many records were moved; it stands still at 2^64 - 1.
    pub(crate) moved: u64,
    /// A change call failed.
    pub(crate) stopped: bool,
}

impl<D: Die + Drop, C: Scheme + Drop> Model for Store<D, C> {
    ghost use Rattle.rssd_core.specs.Held.{Held, held, IsHeld};

    ghost Value = { Held C };

    ghost view = { λ s. held C.meaning (D.state s.die) s.scheme s.map s.book s.seq s.moved s.stopped };

    ghost invariant = { λ s. IsHeld C.meaning s.work s.moves (held C.meaning (D.state s.die) s.scheme s.map s.book s.seq s.moved s.stopped) };
}

impl<D: Die + Drop, C: Scheme + Drop> Store<D, C> {
    /// Whether the store runs, and has the sector.
    pub(crate) fn check(&self, sector: u32) -> Result<(), FtlError>
        ensures bad_sector { result ≡ Err FtlError.BadSector ↔ self.now.geometry.sectors ≤ sector }
        ensures stopped { result ≡ Err FtlError.Stopped ↔ (sector < self.now.geometry.sectors) × (self.now.stopped ≡ true) }
        ensures never { OnErr result ((result ≢ Err FtlError.DieFault) × (result ≢ Err FtlError.Spent)) }
        ensures refused { OnErr result ((self.now.geometry.sectors ≤ sector) ⊎ (self.now.stopped ≡ true)) }
        ensures within { OnOk result (sector < self.now.geometry.sectors) }
        ensures running { OnOk result (self.now.stopped ≡ false) }
        ensures stands { Stands self.now }
        ensures few_moved { self.now.moved < 2 ^ 64 }
    {
        // Read, so that it is known to be a number of 64 bits.
        let _moved = self.moved;
        if sector >= self.map.sectors() {
            return Err(FtlError::BadSector);
        }
        if self.stopped {
            return Err(FtlError::Stopped);
        }
        Ok(())
    }

    /// How many sectors there are.
    pub(crate) fn sectors(&self) -> u32
        ensures { result ≡ self.now.geometry.sectors }
    {
        self.map.sectors()
    }

    /// The bytes of a sector.
    pub(crate) fn sector_bytes(&self) -> u32
        ensures { result ≡ self.now.geometry.sector_bytes }
    {
        self.scheme.sector_bytes()
    }

    /// Whether a change call failed under this value.
    pub(crate) fn stopped(&self) -> bool
        ensures stopped { result ≡ self.now.stopped }
        ensures stands { Stands self.now }
        ensures few_moved { self.now.moved < 2 ^ 64 }
    {
        let _moved = self.moved;
        self.stopped
    }

    /// Whether the numbers of records are spent.
    pub(crate) fn is_spent(&self) -> bool
        ensures { IsTrue result ↔ (2 ^ 62 ≤ self.now.cells.seq) }
    {
        self.seq >= SPENT
    }

    /// How many records were moved.
    pub(crate) fn moved(&self) -> u64
        ensures { result ≡ self.now.moved }
    {
        self.moved
    }

    /// Whether a sector has a record that holds bytes.
    pub(crate) fn holds_bytes(&self, sector: u32) -> bool
        requires { sector < self.now.geometry.sectors }
        ensures { result ≡ held_in (entry_at self.now.cells.table sector) }
    {
        matches!(self.map.get(sector), Some(Entry::Held(_)))
    }

    /// The die as it stands.
    pub(crate) fn die(&self) -> &D
        ensures { D.state result.now ≡ self.now.cells.die }
    {
        &self.die
    }

    /// Gives the die and the scheme back.
    pub(crate) fn close(self) -> (D, C)
        ensures die { D.state result.0 ≡ self.cells.die }
        ensures scheme { C.meaning result.1 ≡ C.meaning self.scheme }
    {
        (self.die, self.scheme)
    }

    /// Reads a sector into `sector_bytes` bytes. After a `DieFault` `into` is as before.
    pub(crate) fn read(&mut self, sector: u32, into: &mut [u8]) -> Result<(), DieFault>
        requires running { self.old.stopped ≡ false }
        requires sector { sector < self.old.geometry.sectors }
        requires into { length into.old ≡ self.old.geometry.sector_bytes }
        ensures keeps { Keeps C.meaning self.old self.new }
        ensures stands { Stands self.new }
        ensures row { OnOk result (into.new ≡ slice_index_or (stored self.old.geometry (C.meaning self.old.scheme).decoding self.old.cells.die.cells) sector []) }
        ensures same_into { OnErr result (into.new ≡ into.old) }
        ensures same_cells { SameCells self.old.cells.die self.new.cells.die }
        ensures same { self.new ≡ on_die (λ _. self.new.cells.die) self.old }
        ensures calls { OnOk result (Passed 0 (get_reads self.old.geometry (live_record self.old.geometry self.old.cells.die.cells sector)) self.old.cells.die self.new.cells.die) }
        ensures failed { OnErr result (ReadFailed 0 (get_reads self.old.geometry (live_record self.old.geometry self.old.cells.die.cells sector)) self.old.cells.die self.new.cells.die) }
    {
        let entry = self.map.get(sector);
        get_row(&mut self.die, &self.scheme, &mut self.work, entry, into)
    }

    /// What ends a call: where no change call failed, due blocks offer their units, while fewer than `reuse_max` blocks do.
    pub(crate) fn settle(&mut self, reuse_max: u32)
        ensures keeps { Keeps C.meaning self.old self.new }
        ensures stands { Stands self.new }
        ensures recycles { self.old.stopped ≡ false → Recycles reuse_max self.old.cells.book self.new.cells.book }
        ensures halted { self.old.stopped ≡ true → self.new ≡ self.old }
        ensures same { self.new ≡ record self.old { cells = record self.old.cells { book = self.new.cells.book } } }
        ensures done { self.new.stopped ≡ false → RecyclingDone reuse_max self.new.cells.book }
    {
        if self.stopped {
            return;
        }
        recycle_due(&mut self.book, reuse_max);
    }
}

impl<D: PowerDie + Drop, C: Scheme + Drop> Store<D, C> {
    /// The `n`-th change call from now is cut in this form.
    pub(crate) fn arm_cut(&mut self, n: u32, torn: Torn)
        requires { 1 ≤ n }
        ensures { self.new ≡ on_die (told (with_cut n torn)) self.old }
    {
        self.die.arm_cut(n, torn);
    }

    /// The `n`-th read from now fails.
    pub(crate) fn fail_read(&mut self, n: u32)
        requires { 1 ≤ n }
        ensures { self.new ≡ on_die (told (with_read_failure n)) self.old }
    {
        self.die.fail_read(n);
    }

    /// The sum of the die's erase counts; it stands still at 2^64 - 1.
    pub(crate) fn erased(&self) -> u64
        ensures { result ≡ sum_of self.now.cells.die.erases }
    {
        self.die.erased()
    }

    /// Whether the die has power.
    pub(crate) fn powered(&self) -> bool
        ensures { IfSome self.now.cells.die.failures (λ failures. result ≡ failures.powered) }
    {
        self.die.powered()
    }
}
