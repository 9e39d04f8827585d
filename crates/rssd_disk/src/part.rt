//! The part of a request that lies in one sector.
ghost use Rattle.std.specs.Prelude.{◌≡◌, ◌-◌, ◌/◌, ◌%◌, ◌^◌, ◌<◌, ◌≤◌, min};

/// Bytes of one sector.
#[derive(Clone, Copy, Debug, PartialEq, Eq)]
pub(crate) struct Part {
    pub(crate) sector: u32,
    /// The place in the sector of the first.
    pub(crate) start: usize,
    pub(crate) count: usize,
}

/// The first part of so many bytes from a place on.
pub(crate) fn part_at(place: u64, left: usize, sector_bytes: u32) -> Part
    requires some { 1 ≤ sector_bytes }
    requires low { place / sector_bytes < 2 ^ 32 }
    ensures sector { result.sector ≡ place / sector_bytes }
    ensures start { result.start ≡ place % sector_bytes }
    ensures count { result.count ≡ min left (sector_bytes - place % sector_bytes) }
{
    let size = u64::from(sector_bytes);
    let start = place % size;
    Part {
        sector: (place / size) as u32,
        start: start as usize,
        count: left.min((size - start) as usize),
    }
}
