//! Bytes within one sector. What does not fill the sector is read, changed and written.
ghost use Rattle.std.specs.Prelude.{◌≡◌, ◌<◌, [], false, length, replicate, slice_index_or, OnOk, OnErr};
ghost use Rattle.rssd_core.specs.DeviceValue.{rows_of};
ghost use Rattle.rssd_core.specs.Outcomes.{zeros};
ghost use Rattle.rssd_disk.specs.Bytes.{part_of};
ghost use Rattle.rssd_disk.specs.Disk.{disk, IsDisk, IsPart, place_of};
ghost use Rattle.rssd_disk.specs.Puts.{Same, ReadFails, HasRow, RowFails, HasPut, PartFails};

use crate::part::Part;
use cell_die::Die;
use rssd_core::device::{Device, FtlError};
use striped::Scheme;

/// The most bytes of a sector.
const ROW_BYTES: usize = 512;

/// Reads a whole sector.
fn read_whole<D: Die + Drop, C: Scheme + Drop, F: Device<D, C>>(
    ftl: &mut F,
    sector: u32,
    row: &mut [u8],
) -> Result<(), FtlError>
    requires sector { sector < (F.device ftl.old).numbers.geometry.sectors }
    requires whole { length row.old ≡ (F.device ftl.old).numbers.geometry.sector_bytes }
    requires running { (F.device ftl.old).stopped ≡ false }
    ensures same { OnOk result (Same (F.device ftl.old).numbers (F.device ftl.old) (F.device ftl.new)) }
    ensures row { OnOk result (row.new ≡ slice_index_or (rows_of (F.device ftl.old).numbers (F.device ftl.old).view) sector []) }
    ensures whole { length row.new ≡ (F.device ftl.old).numbers.geometry.sector_bytes }
    ensures fault { OnErr result (ReadFails (F.device ftl.old).numbers (F.device ftl.old) (F.device ftl.new)) }
{
    match ftl.read(sector, row) {
        Ok(()) => Ok(()),
        Err(why) => Err(why),
    }
}

/// Reads bytes of a sector.
pub(crate) fn read_part<D: Die + Drop, C: Scheme + Drop, F: Device<D, C>>(
    ftl: &mut F,
    part: Part,
    into: &mut [u8],
) -> Result<(), FtlError>
    requires sizes { IsDisk (F.device ftl.old).numbers }
    requires part { IsPart (F.device ftl.old).numbers part }
    requires room { length into.old ≡ part.count }
    requires running { (F.device ftl.old).stopped ≡ false }
    ensures same { OnOk result (Same (F.device ftl.old).numbers (F.device ftl.old) (F.device ftl.new)) }
    ensures read { OnOk result (into.new ≡ part_of (place_of (F.device ftl.old).numbers part) part.count (disk (F.device ftl.old).numbers (F.device ftl.old).view)) }
    ensures fault { OnErr result (ReadFails (F.device ftl.old).numbers (F.device ftl.old) (F.device ftl.new)) }
{
    let mut room = [0u8; ROW_BYTES];
    let row = &mut room[..ftl.sector_bytes() as usize];
    read_whole(ftl, part.sector, row)?;
    into.copy_from_slice(&row[part.start..part.start + part.count]);
    Ok(())
}

/// Writes a whole sector.
fn write_whole<D: Die + Drop, C: Scheme + Drop, F: Device<D, C>>(
    ftl: &mut F,
    sector: u32,
    row: &[u8],
) -> Result<(), FtlError>
    requires sector { sector < (F.device ftl.old).numbers.geometry.sectors }
    requires whole { length row.now ≡ (F.device ftl.old).numbers.geometry.sector_bytes }
    requires running { (F.device ftl.old).stopped ≡ false }
    ensures put { OnOk result (HasRow (F.device ftl.old).numbers sector row.now (F.device ftl.old) (F.device ftl.new)) }
    ensures fault { OnErr result (RowFails (F.device ftl.old).numbers sector row.now (F.device ftl.old) (F.device ftl.new)) }
{
    match ftl.write(sector, row) {
        Ok(_) => Ok(()),
        Err(why) => Err(why),
    }
}

/// Makes a whole sector zeros.
fn zero_whole<D: Die + Drop, C: Scheme + Drop, F: Device<D, C>>(
    ftl: &mut F,
    sector: u32,
) -> Result<(), FtlError>
    requires sector { sector < (F.device ftl.old).numbers.geometry.sectors }
    requires running { (F.device ftl.old).stopped ≡ false }
    ensures put { OnOk result (HasRow (F.device ftl.old).numbers sector (zeros (F.device ftl.old).numbers) (F.device ftl.old) (F.device ftl.new)) }
    ensures fault { OnErr result (RowFails (F.device ftl.old).numbers sector (zeros (F.device ftl.old).numbers) (F.device ftl.old) (F.device ftl.new)) }
{
    match ftl.trim(sector) {
        Ok(()) => Ok(()),
        Err(why) => Err(why),
    }
}

/// Writes bytes of a sector.
pub(crate) fn write_part<D: Die + Drop, C: Scheme + Drop, F: Device<D, C>>(
    ftl: &mut F,
    part: Part,
    bytes: &[u8],
) -> Result<(), FtlError>
    requires sizes { IsDisk (F.device ftl.old).numbers }
    requires part { IsPart (F.device ftl.old).numbers part }
    requires whole { length bytes.now ≡ part.count }
    requires running { (F.device ftl.old).stopped ≡ false }
    ensures put { OnOk result (HasPut (F.device ftl.old).numbers (place_of (F.device ftl.old).numbers part) bytes.now (F.device ftl.old) (F.device ftl.new)) }
    ensures fault { OnErr result (PartFails (F.device ftl.old).numbers (place_of (F.device ftl.old).numbers part) bytes.now (F.device ftl.old) (F.device ftl.new)) }
{
    let size = ftl.sector_bytes() as usize;
    if part.count == size {
        return write_whole(ftl, part.sector, bytes);
    }
    let mut room = [0u8; ROW_BYTES];
    let row = &mut room[..size];
    read_whole(ftl, part.sector, row)?;
    row[part.start..part.start + part.count].copy_from_slice(bytes);
    write_whole(ftl, part.sector, row)
}

/// Makes bytes of a sector zeros; a whole sector is trimmed.
pub(crate) fn zero_part<D: Die + Drop, C: Scheme + Drop, F: Device<D, C>>(
    ftl: &mut F,
    part: Part,
) -> Result<(), FtlError>
    requires sizes { IsDisk (F.device ftl.old).numbers }
    requires part { IsPart (F.device ftl.old).numbers part }
    requires running { (F.device ftl.old).stopped ≡ false }
    ensures put { OnOk result (HasPut (F.device ftl.old).numbers (place_of (F.device ftl.old).numbers part) (replicate part.count 0) (F.device ftl.old) (F.device ftl.new)) }
    ensures fault { OnErr result (PartFails (F.device ftl.old).numbers (place_of (F.device ftl.old).numbers part) (replicate part.count 0) (F.device ftl.old) (F.device ftl.new)) }
{
    if part.count == ftl.sector_bytes() as usize {
        return zero_whole(ftl, part.sector);
    }
    let row = [0u8; ROW_BYTES];
    write_part(ftl, part, &row[..part.count])
}
