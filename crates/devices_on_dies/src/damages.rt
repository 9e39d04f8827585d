//! The damages of the page that a write of a5 leaves, each with what the sector then holds and the next seq.

use crate::found::{SHAPE, found_on, sector};
use cell_die::Shape;
use mem_die::MemDie;
use mount_scan::{ScanRefusal, Tables, scan_all};
use page_codec::Work;
use std::test::Fail;

/// A damage of the cells after the first write of sector 0.
#[derive(Clone, Copy, Debug)]
enum Damage {
    GateGone,
    SectorChanged,
    SectorOutOfRange,
    HighSeq,
    GreatestSeq,
    EqualSeqs,
}

/// The header of sector 0, seq 1 and kind 1, with its gate before it.
const RECORD: [u8; 15] = [1, 0, 0, 0, 0, 1, 0, 0, 0, 0, 0, 0, 0, 1, 0x66];

/// The cells of four pages of 56 bytes, of which page 0 has the sector a5 and its record, after a damage.
fn damaged(damage: Damage) -> [u8; 224] {
    let mut cells = [0; 224];
    cells[..2].copy_from_slice(&[0x52, 0x02]);
    cells[24..39].copy_from_slice(&RECORD);
    match damage {
        Damage::GateGone => cells[24] = 0,
        Damage::SectorChanged => cells[25] = 1,
        Damage::SectorOutOfRange => {
            cells[25] = 1;
            cells[38] = 0x65;
        }
        Damage::HighSeq => {
            cells[29] = 0;
            cells[36] = 0x40;
        }
        Damage::GreatestSeq => {
            cells[29..37].fill(0xff);
            cells[38] = 0x27;
        }
        Damage::EqualSeqs => cells[80..95].copy_from_slice(&RECORD),
    }
    cells
}

#[test]
fn damaged_cells_hold_what_is_committed_and_the_next_seq_is_above_all_headers(
    rt: HostRuntime,
) -> Result<(), Fail> {
    for (damage, byte, seq) in [
        (Damage::GateGone, 0, 2),
        (Damage::SectorChanged, 0, 1),
        (Damage::SectorOutOfRange, 0, 2),
        (Damage::HighSeq, 0xa5, 0x4000_0000_0000_0001),
        (Damage::GreatestSeq, 0xa5, 0xffff_ffff_ffff_ffff),
        (Damage::EqualSeqs, 0xa5, 2),
    ] {
        let cells = Vec::from_slice(rt.alloc(), &damaged(damage))?;
        let mut die = MemDie::of_cells(rt.alloc(), SHAPE, cells)?;
        let found = found_on(&rt, rt.alloc(), &mut die)?;
        assert_eq!(rt; found.sector, sector(byte), "{damage:?}");
        assert_eq!(rt; found.seq, seq, "{damage:?}");
    }
    Ok(())
}

#[test]
fn a_die_whose_blocks_all_have_live_records_has_no_spare(rt: HostRuntime) -> Result<(), Fail> {
    let shape = Shape { pages: 4, ..SHAPE };
    let mut cells = vec![in rt.alloc(); 0; 448]?;
    cells[24..39].copy_from_slice(&RECORD);
    cells[248..263].copy_from_slice(&[1, 1, 0, 0, 0, 2, 0, 0, 0, 0, 0, 0, 0, 1, 0x65]);
    let mut die = MemDie::of_cells(rt.alloc(), shape, cells)?;
    let mut work = Work::new(rt.alloc(), 24, 1, 16, 2)?;
    let mut tables = Tables::new(rt.alloc(), shape, 2, 1, 2)?;
    let mounted = scan_all(&mut die, &mut work, &mut tables, 0);
    assert_eq!(rt; mounted, Err(ScanRefusal::NoSpare));
    Ok(())
}
