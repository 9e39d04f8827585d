//! Dies of four blocks, of four pages for sectors of 16 bytes and of two for those of 512. Each sector is written, and then one
//! that is drawn, over and over; every write answers Ok, and each sector reads what was last written to it, also after a mount.
//!
//! A die at its limit has one sector less than three blocks have pages. No block is then ever without a live record, so no unit is
//! offered and every write is a first one. Of 2,000 further writes the first finds a page. Each later one finds three full blocks,
//! one of which has one record that is no longer live, and collects the others of that block; each collection but the first erases
//! the Spare before. With as many sectors as a block has pages there is room for second writes.

use crate::start::{mounted, started};
use mem_die::MemDie;
use rssd_core::{Counts, Device, Ftl, Plan, PowerDevice};
use schemes::{cosets, flips, pairs, plains, sevens};
use std::alloc::Global;
use std::process::Abort;
use std::test::Fail;
use striped::Scheme;

/// What was last written to each sector; shorter sectors use the first bytes of a row.
type Rows = [[u8; 512]; 11];

/// Bytes drawn by a linear congruence.
#[derive(Drop)]
struct Draws {
    state: u64,
}

impl Draws {
    fn next(&mut self) -> u8 {
        self.state = self
            .state
            .wrapping_mul(6_364_136_223_846_793_005)
            .wrapping_add(1_442_695_040_888_963_407);
        (self.state >> 56) as u8
    }

    /// Draws a row; a fourth of the rows are all ones, which plain cells take over any others.
    fn fill(&mut self, row: &mut [u8]) {
        let ones = if self.next() < 64 { 0xff } else { 0 };
        for byte in row.iter_mut() {
            *byte = self.next() | ones;
        }
    }
}

/// Writes a drawn row to a sector.
fn write_drawn<C: Scheme + Drop>(
    rt: &impl Abort,
    ftl: &mut Ftl<MemDie, C>,
    rows: &mut Rows,
    draws: &mut Draws,
    sector: u32,
) {
    let bytes = ftl.sector_bytes() as usize;
    assert!(rt; sector < 11 && bytes <= 512);
    let row = &mut rows[sector as usize][..bytes];
    draws.fill(row);
    let placed = ftl.write(sector, row);
    assert!(rt; placed.is_ok(), "sector {sector}: {placed:?}");
}

/// Writes each sector, and then so many times one that is drawn.
fn write_far<C: Scheme + Drop>(
    rt: &impl Abort,
    ftl: &mut Ftl<MemDie, C>,
    sectors: u32,
    more: u32,
) -> Rows {
    assert!(rt; 1 <= sectors);
    let mut rows = [[0; 512]; 11];
    let mut draws = Draws { state: 1 };
    for sector in 0..sectors {
        write_drawn(rt, ftl, &mut rows, &mut draws, sector);
    }
    for _ in 0..more {
        let sector = u32::from(draws.next()) % sectors;
        write_drawn(rt, ftl, &mut rows, &mut draws, sector);
    }
    rows
}

/// Each sector reads its row.
fn assert_rows<C: Scheme + Drop>(
    rt: &impl Abort,
    ftl: &mut Ftl<MemDie, C>,
    rows: &Rows,
    sectors: u32,
) {
    for sector in 0..sectors {
        let bytes = ftl.sector_bytes() as usize;
        assert!(rt; sector < 11 && bytes <= 512);
        let mut read = [0; 512];
        assert_eq!(rt; ftl.read(sector, &mut read[..bytes]), Ok(()));
        assert!(rt;
            read[..bytes] == rows[sector as usize][..bytes],
            "sector {sector}"
        );
    }
}

/// Writes a new die of four blocks; then reads the sectors, also after a mount. Gives the tallies and the number of erases.
fn worn<C: Scheme + Drop>(
    rt: &impl Abort,
    alloc: Global,
    scheme: C,
    pages: u32,
    sectors: u32,
    more: u32,
) -> Result<(Counts, u64), Fail> {
    let plan = Plan {
        sectors,
        reuse_max: 4,
    };
    let mut ftl = started(rt, alloc, scheme, 4, pages, plan)?;
    let rows = write_far(rt, &mut ftl, sectors, more);
    assert_rows(rt, &mut ftl, &rows, sectors);
    let told = (ftl.counts(), ftl.erased());
    let (die, scheme) = ftl.close();
    let mut ftl = mounted(alloc, die, scheme, plan)?;
    assert_rows(rt, &mut ftl, &rows, sectors);
    Ok(told)
}

/// 2,000 writes of a die at its limit.
fn at_the_limit<C: Scheme + Drop>(
    rt: &impl Abort,
    alloc: Global,
    scheme: C,
    pages: u32,
) -> Result<(), Fail> {
    assert!(rt; 2 <= pages && pages <= 4);
    let sectors = 3 * pages - 1;
    let counts = Counts {
        first: u64::from(sectors) + 2000,
        second: 0,
        declined: 0,
        moved: 1999 * u64::from(pages - 1),
    };
    assert_eq!(rt;
        worn(rt, alloc, scheme, pages, sectors, 2000)?,
        (counts, 1998)
    );
    Ok(())
}

/// 400 writes of a die with room for second ones. Gives how often they were declined.
fn with_room<C: Scheme + Drop>(
    rt: &impl Abort,
    alloc: Global,
    scheme: C,
    pages: u32,
) -> Result<u64, Fail> {
    let (counts, _) = worn(rt, alloc, scheme, pages, pages, 400)?;
    assert!(rt; 0 < counts.second, "{counts:?}");
    Ok(counts.declined)
}

#[test]
fn plain16_is_written_at_its_limit(rt: HostRuntime) -> Result<(), Fail> {
    at_the_limit(&rt, rt.alloc(), plains(rt.alloc(), 16)?, 4)
}

#[test]
fn rs16_is_written_at_its_limit(rt: HostRuntime) -> Result<(), Fail> {
    at_the_limit(&rt, rt.alloc(), pairs(rt.alloc(), 16)?, 4)
}

#[test]
fn rs512_is_written_at_its_limit(rt: HostRuntime) -> Result<(), Fail> {
    at_the_limit(&rt, rt.alloc(), pairs(rt.alloc(), 512)?, 2)
}

#[test]
fn coset16_is_written_at_its_limit(rt: HostRuntime) -> Result<(), Fail> {
    at_the_limit(&rt, rt.alloc(), cosets(rt.alloc(), 16)?, 4)
}

#[test]
fn coset512_is_written_at_its_limit(rt: HostRuntime) -> Result<(), Fail> {
    at_the_limit(&rt, rt.alloc(), cosets(rt.alloc(), 512)?, 2)
}

#[test]
fn flip16_is_written_at_its_limit(rt: HostRuntime) -> Result<(), Fail> {
    at_the_limit(&rt, rt.alloc(), flips(rt.alloc(), 16)?, 4)
}

#[test]
fn flip512_is_written_at_its_limit(rt: HostRuntime) -> Result<(), Fail> {
    at_the_limit(&rt, rt.alloc(), flips(rt.alloc(), 512)?, 2)
}

#[test]
fn ham16_is_written_at_its_limit(rt: HostRuntime) -> Result<(), Fail> {
    at_the_limit(&rt, rt.alloc(), sevens(rt.alloc(), 16)?, 4)
}

#[test]
fn ham512_is_written_at_its_limit(rt: HostRuntime) -> Result<(), Fail> {
    at_the_limit(&rt, rt.alloc(), sevens(rt.alloc(), 512)?, 2)
}

#[test]
fn two_and_three_writes_of_a_page_are_never_declined(rt: HostRuntime) -> Result<(), Fail> {
    let alloc = rt.alloc();
    assert_eq!(rt; with_room(&rt, alloc, pairs(alloc, 16)?, 4)?, 0);
    assert_eq!(rt; with_room(&rt, alloc, pairs(alloc, 512)?, 2)?, 0);
    assert_eq!(rt; with_room(&rt, alloc, sevens(alloc, 16)?, 4)?, 0);
    assert_eq!(rt; with_room(&rt, alloc, sevens(alloc, 512)?, 2)?, 0);
    Ok(())
}

#[test]
fn plain_and_coset_units_are_written_over_where_they_can_be(rt: HostRuntime) -> Result<(), Fail> {
    let alloc = rt.alloc();
    assert!(rt; 0 < with_room(&rt, alloc, plains(alloc, 16)?, 4)?);
    assert!(rt; 0 < with_room(&rt, alloc, cosets(alloc, 16)?, 4)?);
    assert!(rt; 0 < with_room(&rt, alloc, cosets(alloc, 512)?, 2)?);
    with_room(&rt, alloc, flips(alloc, 16)?, 4)?;
    with_room(&rt, alloc, flips(alloc, 512)?, 2)?;
    Ok(())
}
