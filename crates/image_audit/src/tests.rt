//! Audits of dies of rs16 pages, written out by the table of the spare area: 24 main bytes, and then two slots of 16 bytes.

ghost use Rattle.std.specs.Prelude.{◌≤◌};

use super::*;
use crate::header_cells::lies_below_valid;
use die_image::{ImageHead, SchemeName, within_limits};
use rivest_shamir::RivestShamir;
use std::alloc::Global;
use std::process::Abort;
use std::test::Fail;
use striped::Striped;

/// The word of sector 0 with seq 1, that of sector 1 with seq 2, and that of sector 0 with seq 2^62 + 2^20; all of kind 1.
const FIRST: [u8; 14] = [0, 0, 0, 0, 1, 0, 0, 0, 0, 0, 0, 0, 1, 0x66];

const SECOND: [u8; 14] = [1, 0, 0, 0, 2, 0, 0, 0, 0, 0, 0, 0, 1, 0x65];

const HIGH: [u8; 14] = [0, 0, 0, 0, 0, 0, 0x10, 0, 0, 0, 0, 0x40, 1, 0x65];

/// Writes bytes from a place on.
fn put(cells: &mut [u8], at: usize, bytes: &[u8]) {
    for (place, byte) in cells.iter_mut().skip(at).zip(bytes) {
        *place = *byte;
    }
}

/// The cells of the die of two pages a block whose sector 0 was written with a5.
fn one_sector() -> [u8; 224] {
    let mut cells = [0; 224];
    put(&mut cells, 0, &[0x52, 0x02]);
    put(&mut cells, 24, &[1]);
    put(&mut cells, 25, &FIRST);
    cells
}

/// What an audit says of the cells of a die of two blocks, with so many pages of a block and sectors.
#[tactic(auto, unfolding(die_image::specs::Image::die_bytes, die_image::specs::Schemes::row_of))]
fn audit_of(
    rt: &impl Abort,
    alloc: Global,
    pages: u32,
    sectors: u32,
    cells: &[u8],
) -> Result<(Verdict, Vec<Held>), Fail>
    requires { pages ≤ 128 }
{
    let head = ImageHead {
        scheme: SchemeName::Rs16,
        blocks: 2,
        pages,
        sectors,
        reuse_max: 0,
    };
    assert!(rt; within_limits(&head));
    assert_eq!(rt; cells.len(), 112 * pages as usize);
    let scheme = Striped::<RivestShamir, RivestShamir, 2, 3, 3>::new(
        alloc,
        RivestShamir::new(),
        RivestShamir::new(),
        16,
    )?;
    Ok(audit(alloc, &head, cells, &scheme)?)
}

#[test]
fn a_blank_die_is_sound_and_holds_nothing(rt: HostRuntime) -> Result<(), Fail> {
    let (verdict, held) = audit_of(&rt, rt.alloc(), 2, 1, &[0; 224])?;
    assert_eq!(rt; verdict, Verdict::Sound);
    assert_eq!(rt; held.len(), 0);
    Ok(())
}

#[test]
fn a_written_sector_is_told_without_its_zeros(rt: HostRuntime) -> Result<(), Fail> {
    let (verdict, held) = audit_of(&rt, rt.alloc(), 2, 1, &one_sector())?;
    assert_eq!(rt; verdict, Verdict::Sound);
    assert_eq!(rt; held.len(), 1);
    assert_eq!(rt; held[0].sector, 0);
    assert_eq!(rt; held[0].bytes.as_slice(), [0xa5].as_slice());
    Ok(())
}

#[test]
fn a_header_without_its_gate_is_sound_and_holds_nothing(rt: HostRuntime) -> Result<(), Fail> {
    let mut cells = one_sector();
    put(&mut cells, 24, &[0]);
    let (verdict, held) = audit_of(&rt, rt.alloc(), 2, 1, &cells)?;
    assert_eq!(rt; verdict, Verdict::Sound);
    assert_eq!(rt; held.len(), 0);
    Ok(())
}

#[test]
fn a_last_byte_that_is_too_great_is_the_first_fault(rt: HostRuntime) -> Result<(), Fail> {
    let mut cells = one_sector();
    put(&mut cells, 38, &[0x67]);
    put(&mut cells, 80, &FIRST);
    put(&mut cells, 94, &[0x67]);
    let (verdict, held) = audit_of(&rt, rt.alloc(), 2, 1, &cells)?;
    assert_eq!(rt; verdict, Verdict::Header { page: 0, slot: 0 });
    assert_eq!(rt; held.len(), 0);
    Ok(())
}

#[test]
fn a_seq_that_stands_twice_is_told_with_both_slots(rt: HostRuntime) -> Result<(), Fail> {
    let mut cells = one_sector();
    put(&mut cells, 80, &[1]);
    put(&mut cells, 81, &FIRST);
    let (verdict, held) = audit_of(&rt, rt.alloc(), 2, 1, &cells)?;
    let wanted = Verdict::SameSeq {
        page: 0,
        slot: 0,
        other_page: 1,
        other_slot: 0,
    };
    assert_eq!(rt; verdict, wanted);
    assert_eq!(rt; held.len(), 0);
    Ok(())
}

#[test]
fn a_live_record_in_every_block_leaves_no_spare(rt: HostRuntime) -> Result<(), Fail> {
    let mut cells = [0; 448];
    put(&mut cells, 24, &[1]);
    put(&mut cells, 25, &FIRST);
    put(&mut cells, 248, &[1]);
    put(&mut cells, 249, &SECOND);
    let (verdict, held) = audit_of(&rt, rt.alloc(), 4, 2, &cells)?;
    assert_eq!(rt; verdict, Verdict::NoSpare);
    assert_eq!(rt; held.len(), 0);
    Ok(())
}

#[test]
fn a_seq_past_the_bound_is_told(rt: HostRuntime) -> Result<(), Fail> {
    let mut cells = one_sector();
    put(&mut cells, 81, &HIGH);
    let (verdict, held) = audit_of(&rt, rt.alloc(), 2, 1, &cells)?;
    assert_eq!(rt; verdict, Verdict::Number { page: 1, slot: 0 });
    assert_eq!(rt; held.len(), 0);
    Ok(())
}

#[test]
fn header_cells_fall_below_their_word_and_no_further_up(rt: HostRuntime) {
    let words = [FIRST, SECOND, HIGH];
    for word in &words {
        for cell in 0..112usize {
            let mut fallen = *word;
            fallen[cell / 8] &= !(1 << (cell % 8));
            assert!(rt; lies_below_valid(&fallen), "cell {cell}");
            let mut risen = *word;
            risen[cell / 8] |= 1 << (cell % 8);
            assert!(rt; risen == *word || !lies_below_valid(&risen), "cell {cell}");
        }
    }
}
