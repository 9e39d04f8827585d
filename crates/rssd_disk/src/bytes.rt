//! Bytes over several sectors: one call of the device a sector, in their order.
ghost use Rattle.std.specs.Prelude.{◌≡◌, ◌+◌, ◌<◌, ◌≤◌, false, length, OnOk, OnErr};
ghost use Rattle.rssd_disk.specs.Bytes.{part_of};
ghost use Rattle.rssd_disk.specs.Data.{bytes_in};
ghost use Rattle.rssd_disk.specs.Disk.{disk, disk_size, IsDisk, IsPart, IsNext, place_of};
ghost use Rattle.rssd_disk.specs.Puts.{Same, ReadFails, HasPut, PartFails, PutFails};

use crate::part::{Part, part_at};
use crate::sectors::{read_part, write_part, zero_part};
use cell_die::Die;
use rssd_core::device::{Device, FtlError};
use striped::Scheme;

/// Bytes that are put on a disk.
#[derive(Clone, Copy)]
pub(crate) enum Data<'a> {
    Given(&'a [u8]),
    /// So many zeros.
    Zeros(usize),
}

impl Data<'_> {
    /// How many bytes there are.
    fn count(&self) -> usize
        ensures { result ≡ length (bytes_in self.now) }
    {
        match self {
            Data::Given(given) => given.len(),
            Data::Zeros(count) => *count,
        }
    }
}

/// The part that is next, of so many bytes from a place on, of which some are done.
fn next_part<D: Die + Drop, C: Scheme + Drop, F: Device<D, C>>(
    ftl: &F,
    place: u64,
    count: usize,
    done: usize,
) -> Part
    requires sizes { IsDisk (F.device ftl.now).numbers }
    requires within { place + count ≤ disk_size (F.device ftl.now).numbers }
    requires more { done < count }
    ensures { IsNext (F.device ftl.now).numbers place count done result }
{
    part_at(place + done as u64, count - done, ftl.sector_bytes())
}

/// Reads the bytes from a place on.
pub(crate) fn read_bytes<D: Die + Drop, C: Scheme + Drop, F: Device<D, C>>(
    ftl: &mut F,
    place: u64,
    into: &mut [u8],
) -> Result<(), FtlError>
    requires sizes { IsDisk (F.device ftl.old).numbers }
    requires within { place + length into.old ≤ disk_size (F.device ftl.old).numbers }
    requires running { (F.device ftl.old).stopped ≡ false }
    ensures same { OnOk result (Same (F.device ftl.old).numbers (F.device ftl.old) (F.device ftl.new)) }
    ensures read { OnOk result (into.new ≡ part_of place (length into.old) (disk (F.device ftl.old).numbers (F.device ftl.old).view)) }
    ensures fault { OnErr result (ReadFails (F.device ftl.old).numbers (F.device ftl.old) (F.device ftl.new)) }
{
    let count = into.len();
    let mut done = 0;
    while done < count {
        let part = next_part(ftl, place, count, done);
        read_part(ftl, part, &mut into[done..done + part.count])?;
        done += part.count;
    }
    Ok(())
}

/// Puts those bytes in a part that come behind so many.
fn put_part<D: Die + Drop, C: Scheme + Drop, F: Device<D, C>>(
    ftl: &mut F,
    part: Part,
    bytes: &Data,
    done: usize,
) -> Result<(), FtlError>
    requires sizes { IsDisk (F.device ftl.old).numbers }
    requires part { IsPart (F.device ftl.old).numbers part }
    requires within { done + part.count ≤ length (bytes_in bytes.now) }
    requires running { (F.device ftl.old).stopped ≡ false }
    ensures put { OnOk result (HasPut (F.device ftl.old).numbers (place_of (F.device ftl.old).numbers part)
        (part_of done part.count (bytes_in bytes.now)) (F.device ftl.old) (F.device ftl.new)) }
    ensures fault { OnErr result (PartFails (F.device ftl.old).numbers (place_of (F.device ftl.old).numbers part)
        (part_of done part.count (bytes_in bytes.now)) (F.device ftl.old) (F.device ftl.new)) }
{
    match bytes {
        Data::Given(given) => write_part(ftl, part, &given[done..][..part.count]),
        Data::Zeros(_) => zero_part(ftl, part),
    }
}

/// Puts bytes on the disk from a place on.
pub(crate) fn put_bytes<D: Die + Drop, C: Scheme + Drop, F: Device<D, C>>(
    ftl: &mut F,
    place: u64,
    bytes: &Data,
) -> Result<(), FtlError>
    requires sizes { IsDisk (F.device ftl.old).numbers }
    requires within { place + length (bytes_in bytes.now) ≤ disk_size (F.device ftl.old).numbers }
    requires running { (F.device ftl.old).stopped ≡ false }
    ensures put { OnOk result (HasPut (F.device ftl.old).numbers place (bytes_in bytes.now) (F.device ftl.old) (F.device ftl.new)) }
    ensures fault { OnErr result (PutFails (F.device ftl.old).numbers place (bytes_in bytes.now) (F.device ftl.old) (F.device ftl.new)) }
{
    let count = bytes.count();
    let mut done = 0;
    while done < count {
        let part = next_part(ftl, place, count, done);
        put_part(ftl, part, bytes, done)?;
        done += part.count;
    }
    Ok(())
}
