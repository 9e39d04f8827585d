//! A device as a disk: after a failed change call, which stops the device, it is mounted again before the next request.
ghost use Rattle.std.specs.Prelude.{◌≡◌, ◌↔◌, ℕ, Bool, List, Option, None, IfOk, IfSome, IfNone, IsTrue, length};
ghost use Rattle.nbd_wire.specs.declared.request.Request.{Request as Asked};
ghost use Rattle.nbd_wire.specs.declared.reply.Errno.{Errno as Reply};
ghost use Rattle.rssd_core.specs.Mount.{numbers_of};
ghost use Rattle.rssd_io.specs.Event.{Event};
ghost use Rattle.rssd_disk.specs.declared.device_disk.DeviceDisk.{DeviceDisk as Served};
ghost use Rattle.rssd_disk.specs.declared.serving.Ended.{Ended as End};
ghost use Rattle.rssd_disk.specs.DeviceBytes.{bytes_of_cells};
ghost use Rattle.rssd_disk.specs.DeviceDisks.{holding, IsDeviceDisk, DeviceAnswers, disk_bytes, HasSoundCells, sector_bytes_of, power_of};
ghost use Rattle.rssd_disk.specs.Handshakes.{Session};
ghost use Rattle.rssd_disk.specs.Held.{IsHeld, IsReady, SameHeld, Runs, Gives, ComesFrom};
ghost use Rattle.rssd_disk.specs.PlainServer.{AnswersPlainly};
ghost use Rattle.rssd_disk.specs.Tallied.{IsTallied};
ghost use Rattle.rssd_disk.specs.Rules.{data_length};

use crate::request::{answer_request, size_of};
use cell_die::PowerDie;
use nbd_wire::{Errno, Request};
use rssd_core::device::{Counts, Device, Plan, Refused};
use std::alloc::Global;
use striped::Scheme;

/// Bytes that requests read and change.
pub trait Disk {
    /// It has what it needs to answer.
    ghost held: { Self → Type 0 };

    /// What an answered request leaves: of the disk before and after, the request, the data before and after, and the reply.
    ghost answers: { Self → Self → Asked → List ℕ → List ℕ → Reply → Type 0 };

    /// How many bytes there are.
    ghost byte_count: { Self → ℕ };

    /// How many bytes there are.
    fn size(&self) -> u64
        ensures { result ≡ byte_count self.now };

    /// Answers a request. `bytes` are those of a write, and afterwards those of a read.
    fn answer(&mut self, alloc: Global, request: &Request, bytes: &mut [u8]) -> Errno
        requires held { held self.old }
        requires room { length bytes.old ≡ data_length request.now }
        ensures held { held self.new }
        ensures answered { answers self.old self.new request.now bytes.old bytes.new result };

    /// Whether the machine has power, where that is told.
    ghost power: { Self → Option Bool };

    /// Whether the machine still has power: without it, nothing is answered.
    fn has_power(&self) -> bool
        ensures { IfSome (power self.now) (λ there. result ≡ there) };
}

/// How writes were answered since the last mount, and the sum of the die's erase counts.
#[derive(Clone, Copy, Debug, PartialEq, Eq)]
pub struct Tallies {
    pub counts: Counts,
    pub erased: u64,
}

/// A device, or after a mount that was refused the die alone with its scheme.
#[derive(Drop)]
pub struct DeviceDisk<D: PowerDie + Drop, C: Scheme + Drop, F: Device<D, C>> {
    mounted: Option<F>,
    closed: Option<(D, C)>,
    plan: Plan,
    size: u64,
}

impl<D: PowerDie + Drop, C: Scheme + Drop, F: Device<D, C>> DeviceDisk<D, C, F> {
    /// A disk on a die that is mounted.
    pub fn start(alloc: Global, die: D, scheme: C, plan: Plan) -> Result<Self, Refused<D, C>>
        ensures is_disk { IfOk result (λ new. IsDeviceDisk D.state C.meaning F.device new) }
        ensures bytes { IfOk result (λ new. disk_bytes D.state C.meaning F.device new ≡ bytes_of_cells (numbers_of (D.state die).shape (C.meaning scheme) plan) (D.state die).cells) }
    {
        match F::mount(alloc, die, scheme, plan) {
            Ok(ftl) => {
                let size = size_of(&ftl);
                Ok(DeviceDisk {
                    mounted: Some(ftl),
                    closed: None,
                    plan,
                    size,
                })
            }
            Err(refused) => Err(refused),
        }
    }

    /// The tallies of the device; None after a mount that was refused.
    pub fn tallies(&self) -> Option<Tallies>
        ensures { IsTallied F.device self.now.mounted result }
    {
        match &self.mounted {
            Some(ftl) => Some(Tallies {
                counts: ftl.counts(),
                erased: ftl.die().erased(),
            }),
            None => None,
        }
    }

    /// Takes the die and the scheme out.
    fn close(&mut self) -> (D, C)
        requires { IsHeld F.device self.old.mounted self.old.closed }
        ensures gives { Gives D.state C.meaning F.device self.old.mounted self.old.closed result }
        ensures plan { self.new.plan ≡ self.old.plan }
        ensures size { self.new.size ≡ self.old.size }
    {
        match self.mounted.take() {
            Some(ftl) => ftl.close(),
            None => match self.closed.take() {
                Some(held) => held,
                None => unreachable!(),
            },
        }
    }

    /// Whether the device runs.
    fn runs(&self) -> bool
        ensures { IsTrue result ↔ Runs F.device self.now.mounted }
    {
        match &self.mounted {
            Some(ftl) => !ftl.stopped(),
            None => false,
        }
    }

    /// Mounts the die again where the device does not run.
    fn ready(&mut self, alloc: Global)
        requires { IsDeviceDisk D.state C.meaning F.device self.old }
        ensures plan { self.new.plan ≡ self.old.plan }
        ensures size { self.new.size ≡ self.old.size }
        ensures ready { IsReady F.device self.new.mounted self.new.closed }
        ensures comes { IfSome self.new.mounted (λ ftl. ComesFrom D.state C.meaning F.device self.old.plan self.old.mounted self.old.closed (F.device ftl)) }
        ensures stays { IfNone self.new.mounted (SameHeld (holding D.state C.meaning F.device self.old) (holding D.state C.meaning F.device self.new)) }
    {
        if self.runs() {
            return;
        }
        let (die, scheme) = self.close();
        match F::mount(alloc, die, scheme, self.plan) {
            Ok(ftl) => self.mounted = Some(ftl),
            Err(refused) => {
                self.mounted = None;
                self.closed = Some((refused.die, refused.scheme));
            }
        }
    }
}

impl<D: PowerDie + Drop, C: Scheme + Drop, F: Device<D, C>> Disk for DeviceDisk<D, C, F> {
    ghost use Rattle.rssd_disk.specs.DeviceDisks.{IsDeviceDisk, DeviceAnswers, power_of};

    ghost held = { IsDeviceDisk D.state C.meaning F.device };

    ghost answers = { DeviceAnswers D.state C.meaning F.device };

    ghost byte_count = { λ s. s.size };

    ghost power = { power_of D.state F.device };

    fn size(&self) -> u64 {
        self.size
    }

    fn answer(&mut self, alloc: Global, request: &Request, bytes: &mut [u8]) -> Errno {
        self.ready(alloc);
        match &mut self.mounted {
            Some(ftl) => answer_request(ftl, request, bytes),
            None => Errno::InputOutput,
        }
    }

    fn has_power(&self) -> bool {
        match &self.mounted {
            Some(ftl) => ftl.die().powered(),
            None => match &self.closed {
                Some((die, _)) => die.powered(),
                None => true,
            },
        }
    }
}

/// A session over a device is one over a plain list of bytes, with the same bytes taken and given: each request that is done is
/// carried out on the bytes that those before it left, one that is refused changes nothing, and where the device failed, from sound
/// cells, a front of the request's bytes was put.
pub fn sessions_are_those_of_a_plain_server<D: PowerDie + Drop, C: Scheme + Drop, F: Device<D, C>>()
    ensures whole { (disk : Served D C F) → IsDeviceDisk D.state C.meaning F.device disk → length (disk_bytes D.state C.meaning F.device disk) ≡ disk.size }
    ensures plain { (disk last : Served D C F) (ended : End) (from left to given : List Event) → IsDeviceDisk D.state C.meaning F.device disk
        → Session (DeviceAnswers D.state C.meaning F.device) (power_of D.state F.device) disk.size ended disk last from left to given
        → Session (AnswersPlainly (HasSoundCells D.state C.meaning F.device disk) disk.size (sector_bytes_of D.state C.meaning F.device disk)) (λ bytes. None) disk.size ended
        (disk_bytes D.state C.meaning F.device disk) (disk_bytes D.state C.meaning F.device last) from left to given }
{}
