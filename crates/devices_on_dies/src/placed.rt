//! Where the worked rows put their writes: each answer, and then the sectors, the tallies and the die. The rows have dies of four
//! blocks of two pages, and the one of a thousand writes a die of three. The first bytes of a page are what the codes make
//! of the sectors written there, worked out by their tables.

use crate::start::started;
use cell_die::Die;
use mem_die::MemDie;
use rssd_core::{Counts, Device, Ftl, FtlError, Placed, Plan, PowerDevice};
use schemes::{cosets, pairs, plains, sevens};
use std::process::Abort;
use std::test::Fail;
use striped::Scheme;

/// Three sectors, and one block at a time that offers its units.
const PLAN: Plan = Plan {
    sectors: 3,
    reuse_max: 1,
};

/// The first two bytes of a page, and the seq of the record in each of its slots, 0 where there is none.
type Page = ([u8; 2], [u8; 3]);

/// A page that was never written.
const BLANK: Page = ([0; 2], [0; 3]);

/// What a row leaves.
#[derive(Drop)]
struct End<'a> {
    /// The first byte of each sector; the others are zeros.
    sectors: [u8; 3],
    /// The tallies: first, second, declined, moved.
    counts: (u64, u64, u64, u64),
    /// The pages that were written, from page 0 on.
    pages: &'a [Page],
}

/// The bytes of a sector that begins with this one and goes on with zeros.
fn row(first: u8) -> [u8; 16] {
    let mut row = [0; 16];
    row[0] = first;
    row
}

/// The tallies of a device.
fn tallies<C: Scheme + Drop>(ftl: &Ftl<MemDie, C>) -> (u64, u64, u64, u64) {
    let Counts {
        first,
        second,
        declined,
        moved,
    } = ftl.counts();
    (first, second, declined, moved)
}

/// Writes a row to a sector.
fn write<C: Scheme + Drop>(
    rt: &impl Abort,
    ftl: &mut Ftl<MemDie, C>,
    sector: u32,
    first: u8,
) -> Result<Placed, FtlError> {
    assert_eq!(rt; ftl.sector_bytes(), 16);
    ftl.write(sector, &row(first))
}

/// Writes rows to sectors, each of which is placed as it says.
fn write_all<C: Scheme + Drop>(
    rt: &impl Abort,
    ftl: &mut Ftl<MemDie, C>,
    writes: &[(u32, u8, Placed)],
) {
    for (sector, first, placed) in writes {
        assert_eq!(rt; write(rt, ftl, *sector, *first), Ok(*placed), "{first}");
    }
}

/// A sector reads the row that begins so.
fn assert_reads<C: Scheme + Drop>(
    rt: &impl Abort,
    ftl: &mut Ftl<MemDie, C>,
    sector: u32,
    first: u8,
) {
    let mut into = [0xff; 16];
    assert_eq!(rt; ftl.sector_bytes(), 16);
    assert_eq!(rt; ftl.read(sector, &mut into), Ok(()));
    assert_eq!(rt; into, row(first), "sector {sector}");
}

/// The seqs of the records in the slots of a spare area, by their low bytes.
fn seqs(spare: &[u8]) -> [u8; 3] {
    let mut seqs = [0; 3];
    let mut rest = spare;
    for found in seqs.iter_mut() {
        let Some((slot, next)) = rest.split_at_checked(16) else {
            break;
        };
        if let [1, _, _, _, _, seq, ..] = slot {
            *found = *seq;
        }
        rest = next;
    }
    seqs
}

/// The eight pages of a die.
fn pages(die: &MemDie) -> [Page; 8] {
    let shape = die.shape();
    let mut pages = [BLANK; 8];
    let mut rest = die.cells();
    for page in pages.iter_mut() {
        let Some((main, after)) = rest.split_at_checked(shape.main_bytes as usize) else {
            break;
        };
        let Some((spare, next)) = after.split_at_checked(shape.spare_bytes as usize) else {
            break;
        };
        if let [first, second, ..] = main {
            *page = ([*first, *second], seqs(spare));
        }
        rest = next;
    }
    pages
}

/// A device is as a row leaves it, and no block was erased.
fn assert_ends<C: Scheme + Drop>(rt: &impl Abort, mut ftl: Ftl<MemDie, C>, end: End) {
    assert_reads(rt, &mut ftl, 0, end.sectors[0]);
    assert_reads(rt, &mut ftl, 1, end.sectors[1]);
    assert_reads(rt, &mut ftl, 2, end.sectors[2]);
    assert_eq!(rt; (tallies(&ftl), ftl.erased()), (end.counts, 0));
    let (die, _) = ftl.close();
    let written = end.pages.len();
    assert!(rt; written <= 8);
    let pages = pages(&die);
    assert_eq!(rt; &pages[..written], end.pages);
    for page in &pages[written..] {
        assert_eq!(rt; *page, BLANK);
    }
}

#[test]
fn a_second_write_goes_over_the_first_page(rt: HostRuntime) -> Result<(), Fail> {
    let mut ftl = started(&rt, rt.alloc(), pairs(rt.alloc(), 16)?, 4, 2, PLAN)?;
    let writes = [
        (0, 1, Placed::First),
        (0, 2, Placed::First),
        (0, 3, Placed::First),
        (0, 4, Placed::Second),
    ];
    write_all(&rt, &mut ftl, &writes);
    let end = End {
        sectors: [4, 0, 0],
        counts: (3, 1, 0, 0),
        pages: &[
            ([0x17, 0], [1, 4, 0]),
            ([0x01, 0], [2, 0, 0]),
            ([0x04, 0], [3, 0, 0]),
        ],
    };
    assert_ends(&rt, ftl, end);
    Ok(())
}

#[test]
fn a_declined_write_passes_its_unit_and_goes_to_a_clean_page(rt: HostRuntime) -> Result<(), Fail> {
    let mut ftl = started(&rt, rt.alloc(), plains(rt.alloc(), 16)?, 4, 2, PLAN)?;
    let writes = [
        (0, 1, Placed::First),
        (0, 1, Placed::First),
        (0, 1, Placed::First),
        (0, 2, Placed::Declined),
        (0, 3, Placed::Second),
    ];
    write_all(&rt, &mut ftl, &writes);
    let end = End {
        sectors: [3, 0, 0],
        counts: (3, 1, 1, 0),
        pages: &[
            ([0x01, 0], [1, 0, 0]),
            ([0x03, 0], [2, 5, 0]),
            ([0x01, 0], [3, 0, 0]),
            ([0x02, 0], [4, 0, 0]),
        ],
    };
    assert_ends(&rt, ftl, end);
    Ok(())
}

#[test]
fn a_coset_write_of_zeros_goes_over_the_unit_of_both_pages(rt: HostRuntime) -> Result<(), Fail> {
    let mut ftl = started(&rt, rt.alloc(), cosets(rt.alloc(), 16)?, 4, 2, PLAN)?;
    let writes = [
        (0, 0, Placed::First),
        (0, 0, Placed::First),
        (0, 0, Placed::First),
        (0, 0, Placed::Second),
    ];
    write_all(&rt, &mut ftl, &writes);
    let end = End {
        sectors: [0, 0, 0],
        counts: (3, 1, 0, 0),
        pages: &[
            ([0, 0], [1, 4, 0]),
            ([0, 0], [2, 0, 0]),
            ([0, 0], [3, 0, 0]),
        ],
    };
    assert_ends(&rt, ftl, end);
    Ok(())
}

#[test]
fn nine_writes_on_seven_cells_go_over_two_pages_twice(rt: HostRuntime) -> Result<(), Fail> {
    let mut ftl = started(&rt, rt.alloc(), sevens(rt.alloc(), 16)?, 4, 2, PLAN)?;
    let writes = [
        (0, 1, Placed::First),
        (0, 2, Placed::First),
        (0, 3, Placed::First),
        (0, 4, Placed::Second),
        (0, 5, Placed::Second),
        (0, 6, Placed::First),
        (0, 7, Placed::Second),
        (0, 8, Placed::Second),
        (0, 9, Placed::Second),
    ];
    write_all(&rt, &mut ftl, &writes);
    let end = End {
        sectors: [9, 0, 0],
        counts: (4, 5, 0, 0),
        pages: &[
            ([0x15, 0], [1, 4, 7]),
            ([0xd2, 0], [2, 5, 8]),
            ([0x86, 0], [3, 9, 0]),
            ([0x20, 0], [6, 0, 0]),
        ],
    };
    assert_ends(&rt, ftl, end);
    Ok(())
}

#[test]
fn an_idle_move_empties_a_block_that_then_offers_its_units(rt: HostRuntime) -> Result<(), Fail> {
    let mut ftl = started(&rt, rt.alloc(), pairs(rt.alloc(), 16)?, 4, 2, PLAN)?;
    let (first, second) = (Placed::First, Placed::Second);
    write_all(
        &rt,
        &mut ftl,
        &[(0, 0x11, first), (1, 0x22, first), (2, 0x33, first)],
    );
    assert_eq!(rt; ftl.idle(5), Ok(0));
    write_all(&rt, &mut ftl, &[(0, 0x44, first), (2, 0x55, first)]);
    assert_eq!(rt; ftl.idle(5), Ok(1));
    write_all(&rt, &mut ftl, &[(1, 0x66, second)]);
    let end = End {
        sectors: [0x44, 0x66, 0x55],
        counts: (5, 1, 0, 1),
        pages: &[
            ([0x96, 0x05], [1, 7, 0]),
            ([0x41, 0], [2, 0, 0]),
            ([0x04, 0x01], [3, 0, 0]),
            ([0x10, 0x04], [4, 0, 0]),
            ([0x92, 0x04], [5, 0, 0]),
            ([0x41, 0], [6, 0, 0]),
        ],
    };
    assert_ends(&rt, ftl, end);
    Ok(())
}

/// Writes 1,000 times, to the three sectors in turn. From the fifth on each write collects one record, and from the sixth on each
/// erases the Spare first.
fn write_in_turn<C: Scheme + Drop>(rt: &impl Abort, ftl: &mut Ftl<MemDie, C>) {
    for k in 0..1000u64 {
        assert_eq!(rt; write(rt, ftl, (k % 3) as u32, 1), Ok(Placed::First));
        assert_eq!(rt; ftl.counts().moved, (k + 1).saturating_sub(4), "write {k}");
        assert_eq!(rt; ftl.erased(), (k + 1).saturating_sub(5), "write {k}");
    }
}

#[test]
fn a_thousand_writes_move_996_records_and_erase_995_blocks(rt: HostRuntime) -> Result<(), Fail> {
    let plan = Plan {
        sectors: 3,
        reuse_max: 0,
    };
    let mut ftl = started(&rt, rt.alloc(), pairs(rt.alloc(), 16)?, 3, 2, plan)?;
    write_in_turn(&rt, &mut ftl);
    assert_reads(&rt, &mut ftl, 0, 1);
    assert_reads(&rt, &mut ftl, 1, 1);
    assert_reads(&rt, &mut ftl, 2, 1);
    assert_eq!(rt; (tallies(&ftl), ftl.erased()), ((1000, 0, 0, 996), 995));
    let (die, _) = ftl.close();
    assert_eq!(rt; die.shape().blocks, 3);
    assert_eq!(rt;
        [die.erases(0), die.erases(1), die.erases(2)],
        [249, 249, 497]
    );
    Ok(())
}
