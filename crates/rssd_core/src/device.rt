//! The contract of a mounted device: numbered sectors that hold what was last written, also after power cuts. A read or a
//! change call of the die may fail: after a failed read the device goes on, after a failed change call it is stopped.
//! A clause gives the sectors, where a write went, how the book, the next seq and the tallies moved, and how many calls of the
//! die were made. Knows no scripts and no sessions.
ghost use Rattle.std.specs.Prelude.{◌≡◌, ◌≢◌, ◌<◌, ◌≤◌, ◌↔◌, ◌^◌, true, false, length, slice_index_or, [], OnOk, OnErr, IfOk, IfErr, IsErrOf, IfSome};
ghost use Rattle.cell_die.specs.Counts.{sum_of};
ghost use Rattle.cell_die.specs.Calls.{Passed, ReadFailed};
ghost use Rattle.cell_die.specs.Power.{told, with_cut, with_read_failure};
ghost use Rattle.rssd_core.specs.DeviceValue.{DeviceValue, rows_of, with_die};
ghost use Rattle.rssd_core.specs.Outcomes.{Holds, Wrote, WriteFault, Trimmed, TrimFault, Idled, IdleFault, OnlyDie};
ghost use Rattle.rssd_core.specs.Within.{sector_reads};
ghost use Rattle.rssd_core.specs.Mount.{numbers_of, Fits, Mounts, Refuses};

use cell_die::{Die, PowerDie, Torn};
use std::alloc::Global;
use striped::Scheme;
use thiserror::Error;

/// How a device is laid out on a die: its number of sectors, and how many blocks may be Recycled at once.
#[derive(Clone, Copy, Debug, PartialEq, Eq)]
pub struct Plan {
    pub sectors: u32,
    pub reuse_max: u32,
}

/// Why a device was not mounted.
#[derive(Clone, Copy, Debug, PartialEq, Eq, Error)]
pub enum MountError {
    #[error("out of memory")]
    OutOfMemory = 1,
    #[error("the die, the scheme or the plan is outside the limits")]
    Shape = 2,
    #[error("a read of the die failed")]
    DieFault = 3,
    #[error("every block has a live record")]
    NoSpare = 4,
}

/// A die that was not mounted, handed back with its scheme.
#[derive(Drop)]
pub struct Refused<D: Drop, C: Drop> {
    pub die: D,
    pub scheme: C,
    pub why: MountError,
}

/// Where a write was placed.
#[derive(Clone, Copy, Debug, PartialEq, Eq)]
pub enum Placed {
    /// On a clean page; no unit was offered.
    First,
    /// Over the offered unit.
    Second,
    /// On a clean page; no cells above those of the offered unit carry the sector.
    Declined,
}

/// Why a call of a device was refused.
#[derive(Clone, Copy, Debug, PartialEq, Eq, Error)]
pub enum FtlError {
    #[error("the sector is out of range")]
    BadSector = 1,
    #[error("a change call failed earlier")]
    Stopped = 2,
    #[error("a call of the die failed")]
    DieFault = 3,
    #[error("the record numbers are spent")]
    Spent = 4,
}

/// How often writes were answered so since the mount, and how many records were moved. The counts stand still at 2^64 - 1.
#[derive(Clone, Copy, Debug, PartialEq, Eq)]
pub struct Counts {
    pub first: u64,
    pub second: u64,
    pub declined: u64,
    pub moved: u64,
}

/// A mounted device on a die, with a scheme.
pub trait Device<D: Die + Drop, C: Scheme + Drop>: Drop {
    /// All that contracts see of a device.
    ghost device: { Self → DeviceValue };

    /// Mounts a die. Every growth is made before the first read, and no change call is made.
    fn mount(alloc: Global, die: D, scheme: C, plan: Plan) -> Result<Self, Refused<D, C>>
        ensures mounted { IfOk result (λ new. Mounts (numbers_of (D.state die).shape (C.meaning scheme) plan) (D.state die) (device new)) }
        ensures fits { OnOk result (Fits (D.state die).shape (C.meaning scheme) plan) }
        ensures shape { IfErr result (λ refused. refused.why ≡ MountError.Shape ↔ (¬ Fits (D.state die).shape (C.meaning scheme) plan)) }
        ensures refused { IfErr result (λ refused. Refuses (numbers_of (D.state die).shape (C.meaning scheme) plan) (D.state die) (D.state refused.die) refused.why) }
        ensures scheme { IfErr result (λ refused. C.meaning refused.scheme ≡ C.meaning scheme) };

    /// Writes a sector, of `sector_bytes` bytes.
    fn write(&mut self, sector: u32, bytes: &[u8]) -> Result<Placed, FtlError>
        requires { length bytes.now ≡ (device self.old).numbers.geometry.sector_bytes }
        ensures holds { Holds (device self.old).numbers (device self.old) (device self.new) }
        ensures bad_sector { result ≡ Err FtlError.BadSector ↔ (device self.old).numbers.geometry.sectors ≤ sector }
        ensures stopped { result ≡ Err FtlError.Stopped ↔ (sector < (device self.old).numbers.geometry.sectors) × ((device self.old).stopped ≡ true) }
        ensures spent { result ≡ Err FtlError.Spent
            ↔ (sector < (device self.old).numbers.geometry.sectors) × ((device self.old).stopped ≡ false) × (2 ^ 62 ≤ (device self.old).view.seq) }
        ensures wrote { IfOk result (λ placed. Wrote (device self.old).numbers sector bytes.now placed (device self.old) (device self.new)) }
        ensures fault { IsErrOf result FtlError.DieFault → WriteFault (device self.old).numbers sector bytes.now (device self.old) (device self.new) }
        ensures refused { OnErr result (result ≢ Err FtlError.DieFault → device self.new ≡ device self.old) };

    /// Makes a sector zeros. For one that holds zeros already no call of the die is made.
    fn trim(&mut self, sector: u32) -> Result<(), FtlError>
        ensures holds { Holds (device self.old).numbers (device self.old) (device self.new) }
        ensures bad_sector { result ≡ Err FtlError.BadSector ↔ (device self.old).numbers.geometry.sectors ≤ sector }
        ensures stopped { result ≡ Err FtlError.Stopped ↔ (sector < (device self.old).numbers.geometry.sectors) × ((device self.old).stopped ≡ true) }
        ensures spent { result ≡ Err FtlError.Spent
            ↔ (sector < (device self.old).numbers.geometry.sectors) × ((device self.old).stopped ≡ false) × (2 ^ 62 ≤ (device self.old).view.seq) }
        ensures trimmed { OnOk result (Trimmed (device self.old).numbers sector (device self.old) (device self.new)) }
        ensures fault { IsErrOf result FtlError.DieFault → TrimFault (device self.old).numbers sector (device self.old) (device self.new) }
        ensures refused { OnErr result (result ≢ Err FtlError.DieFault → device self.new ≡ device self.old) };

    /// Moves records to the Active block, at most `n`, each the first live one of the idle victim. The answer is how many, below
    /// `n` only where no further one may be moved. After a `DieFault` the finished moves stand.
    fn idle(&mut self, n: u32) -> Result<u32, FtlError>
        ensures holds { Holds (device self.old).numbers (device self.old) (device self.new) }
        ensures stopped { result ≡ Err FtlError.Stopped ↔ (device self.old).stopped ≡ true }
        ensures never { OnErr result ((result ≢ Err FtlError.BadSector) × (result ≢ Err FtlError.Spent)) }
        ensures idled { IfOk result (λ moves. Idled (device self.old).numbers n moves (device self.old) (device self.new)) }
        ensures fault { IsErrOf result FtlError.DieFault → IdleFault (device self.old).numbers n (device self.old) (device self.new) }
        ensures refused { OnErr result (result ≢ Err FtlError.DieFault → device self.new ≡ device self.old) };

    /// Reads a sector into `sector_bytes` bytes. After a refusal `into` is as before.
    fn read(&mut self, sector: u32, into: &mut [u8]) -> Result<(), FtlError>
        requires { length into.old ≡ (device self.old).numbers.geometry.sector_bytes }
        ensures holds { Holds (device self.old).numbers (device self.old) (device self.new) }
        ensures bad_sector { result ≡ Err FtlError.BadSector ↔ (device self.old).numbers.geometry.sectors ≤ sector }
        ensures stopped { result ≡ Err FtlError.Stopped ↔ (sector < (device self.old).numbers.geometry.sectors) × ((device self.old).stopped ≡ true) }
        ensures never { OnErr result (result ≢ Err FtlError.Spent) }
        ensures row { OnOk result (into.new ≡ slice_index_or (rows_of (device self.old).numbers (device self.old).view) sector []) }
        ensures same_into { OnErr result (into.new ≡ into.old) }
        ensures only_die { OnlyDie (device self.old) (device self.new) }
        ensures calls { OnOk result (Passed 0 (sector_reads (device self.old).numbers (device self.old).view sector) (device self.old).view.die (device self.new).view.die) }
        ensures fault { IsErrOf result FtlError.DieFault
            → ReadFailed 0 (sector_reads (device self.old).numbers (device self.old).view sector) (device self.old).view.die (device self.new).view.die }
        ensures refused { OnErr result (result ≢ Err FtlError.DieFault → device self.new ≡ device self.old) };

    /// The tallies since the mount.
    fn counts(&self) -> Counts
        ensures first { result.first ≡ (device self.now).view.first }
        ensures second { result.second ≡ (device self.now).view.second }
        ensures declined { result.declined ≡ (device self.now).view.declined }
        ensures moved { result.moved ≡ (device self.now).view.moved };

    /// Whether a program, charge or erase failed under this value.
    fn stopped(&self) -> bool
        ensures { result ≡ (device self.now).stopped };

    /// How many sectors there are.
    fn sectors(&self) -> u32
        ensures { result ≡ (device self.now).numbers.geometry.sectors };

    /// The bytes of a sector.
    fn sector_bytes(&self) -> u32
        ensures { result ≡ (device self.now).numbers.geometry.sector_bytes };

    /// The die as it stands.
    fn die(&self) -> &D
        ensures { D.state result.now ≡ (device self.now).view.die };

    /// Gives the die and the scheme back.
    fn close(self) -> (D, C)
        ensures die { D.state result.0 ≡ (device self).view.die }
        ensures scheme { C.meaning result.1 ≡ (device self).numbers.meaning };
}

/// A device on a die whose power and failures a caller sets. Its calls hand on to the die and change no cell.
pub trait PowerDevice<D: PowerDie + Drop, C: Scheme + Drop>: Device<D, C> {
    /// The `n`-th change call from now is cut in this form.
    fn arm_cut(&mut self, n: u32, torn: Torn)
        requires { 1 ≤ n }
        ensures { Self.device self.new ≡ with_die (told (with_cut n torn)) (Self.device self.old) };

    /// The `n`-th read from now fails.
    fn fail_read(&mut self, n: u32)
        requires { 1 ≤ n }
        ensures { Self.device self.new ≡ with_die (told (with_read_failure n)) (Self.device self.old) };

    /// The sum of the die's erase counts; it stands still at 2^64 - 1.
    fn erased(&self) -> u64
        ensures { result ≡ sum_of (Self.device self.now).view.die.erases };

    /// Whether the die has power.
    fn powered(&self) -> bool
        ensures { IfSome (Self.device self.now).view.die.failures (λ failures. result ≡ failures.powered) };
}
