//! The whole device: numbered sectors over a store. A call that was made lets blocks whose records are gone offer their units, and
//! answers to writes are counted.
ghost use Rattle.std.specs.Prelude.{◌≡◌};
ghost use Rattle.cell_die.specs.Counts.{count_sum};
ghost use Rattle.rssd_core.specs.Outcomes.{firsts, seconds, declines};

use crate::device::{Counts, Device, FtlError, Placed, Plan, PowerDevice, Refused};
use crate::mounting;
use crate::store::Store;
use cell_die::{Die, DieFault, PowerDie, Torn};
use std::alloc::Global;
use std::marker::Model;
use striped::Scheme;

/// How often writes were answered so since the mount. The counts stand still at 2^64 - 1.
#[derive(Clone, Copy, Debug, PartialEq, Eq)]
pub struct Tallies {
    pub first: u64,
    pub second: u64,
    pub declined: u64,
}

impl Tallies {
    /// Of no write.
    pub(crate) const NONE: Tallies = Tallies {
        first: 0,
        second: 0,
        declined: 0,
    };

    /// With one write more, which was placed so.
    fn counted(self, placed: Placed) -> Tallies
        ensures first { result.first ≡ count_sum self.first (firsts placed) }
        ensures second { result.second ≡ count_sum self.second (seconds placed) }
        ensures declined { result.declined ≡ count_sum self.declined (declines placed) }
    {
        match placed {
            Placed::First => Tallies {
                first: self.first.saturating_add(1),
                ..self
            },
            Placed::Second => Tallies {
                second: self.second.saturating_add(1),
                ..self
            },
            Placed::Declined => Tallies {
                declined: self.declined.saturating_add(1),
                ..self
            },
        }
    }
}

/// A mounted device.
#[derive(Drop)]
pub struct Ftl<D: Die + Drop, C: Scheme + Drop> {
    pub(crate) store: Store<D, C>,
    pub(crate) reuse_max: u32,
    pub(crate) tallies: Tallies,
}

impl<D: Die + Drop, C: Scheme + Drop> Model for Ftl<D, C> {
    ghost use Rattle.rssd_core.specs.Parts.{Parts, IsSettled};

    ghost Value = { Parts C };

    ghost view = { λ f. record { store = f.store; reuse_max = f.reuse_max; tallies = f.tallies } };

    ghost invariant = { λ f. IsSettled (record { store = f.store; reuse_max = f.reuse_max; tallies = f.tallies }) };
}

impl<D: Die + Drop, C: Scheme + Drop> Device<D, C> for Ftl<D, C> {
    ghost use Rattle.rssd_core.specs.Parts.{device_of};

    ghost device = { device_of C.meaning };

    fn mount(alloc: Global, die: D, scheme: C, plan: Plan) -> Result<Self, Refused<D, C>> {
        mounting::mount(alloc, die, scheme, plan)
    }

    fn write(&mut self, sector: u32, bytes: &[u8]) -> Result<Placed, FtlError> {
        self.store.check(sector)?;
        if self.store.is_spent() {
            return Err(FtlError::Spent);
        }
        let ended = self.store.place(sector, bytes);
        self.store.settle(self.reuse_max);
        match ended {
            Ok(placed) => {
                self.tallies = self.tallies.counted(placed);
                Ok(placed)
            }
            Err(_) => Err(FtlError::DieFault),
        }
    }

    fn trim(&mut self, sector: u32) -> Result<(), FtlError> {
        self.store.check(sector)?;
        if self.store.is_spent() {
            return Err(FtlError::Spent);
        }
        if !self.store.holds_bytes(sector) {
            return Ok(());
        }
        let ended = self.store.clear(sector);
        self.store.settle(self.reuse_max);
        match ended {
            Ok(()) => {}
            Err(_) => return Err(FtlError::DieFault),
        }
        Ok(())
    }

    fn idle(&mut self, n: u32) -> Result<u32, FtlError> {
        if self.store.stopped() {
            return Err(FtlError::Stopped);
        }
        let moves = self.store.move_records(n);
        self.store.settle(self.reuse_max);
        match moves.fault {
            None => {}
            Some(_) => return Err(FtlError::DieFault),
        }
        Ok(moves.count)
    }

    fn read(&mut self, sector: u32, into: &mut [u8]) -> Result<(), FtlError> {
        self.store.check(sector)?;
        match self.store.read(sector, into) {
            Ok(()) => Ok(()),
            Err(DieFault) => Err(FtlError::DieFault),
        }
    }

    fn counts(&self) -> Counts {
        Counts {
            first: self.tallies.first,
            second: self.tallies.second,
            declined: self.tallies.declined,
            moved: self.store.moved(),
        }
    }

    fn stopped(&self) -> bool {
        self.store.stopped()
    }

    fn sectors(&self) -> u32 {
        self.store.sectors()
    }

    fn sector_bytes(&self) -> u32 {
        self.store.sector_bytes()
    }

    fn die(&self) -> &D {
        self.store.die()
    }

    fn close(self) -> (D, C) {
        self.store.close()
    }
}

impl<D: PowerDie + Drop, C: Scheme + Drop> PowerDevice<D, C> for Ftl<D, C> {
    fn arm_cut(&mut self, n: u32, torn: Torn) {
        self.store.arm_cut(n, torn);
    }

    fn fail_read(&mut self, n: u32) {
        self.store.fail_read(n);
    }

    fn erased(&self) -> u64 {
        self.store.erased()
    }

    fn powered(&self) -> bool {
        self.store.powered()
    }
}
