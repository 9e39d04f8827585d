//! Sectors written, read, written over and read back, with the cells counted by hand.

use super::*;
use std::test::Fail;
use wom_code::{Carry, Plain};

#[test]
fn plain_chunks_are_the_sector_itself(rt: HostRuntime) -> Result<(), Fail> {
    let mut scheme = Striped::new(
        rt.alloc(),
        Plain::<128, 128>::new(),
        Plain::<128, 128>::new(),
        16,
    )?;
    assert_eq!(rt; scheme.sector_bytes(), 16);
    assert_eq!(rt; scheme.page_bytes(), 16);
    assert_eq!(rt; (scheme.span(), scheme.generations()), (1, 2));
    let mut page = [0xff; 16];
    scheme.first(&[0xa5; 16], &mut page);
    assert_eq!(rt; page, [0xa5; 16]);
    let mut sector = [0; 16];
    scheme.read_first(&page, &mut sector);
    assert_eq!(rt; sector, [0xa5; 16]);
    Ok(())
}

#[test]
fn a_unit_takes_only_sectors_above_its_own(rt: HostRuntime) -> Result<(), Fail> {
    let mut scheme = Striped::with_generations(
        rt.alloc(),
        Plain::<3, 5>::new(),
        Plain::<3, 10>::new(),
        1,
        3,
    )?;
    assert_eq!(rt; scheme.sector_bytes(), 1);
    assert_eq!(rt; scheme.page_bytes(), 2);
    assert_eq!(rt; (scheme.span(), scheme.generations()), (2, 3));
    // Bits 0 to 2 of each chunk of five cells: a5 is 101, 001, 01 and a zero past its end.
    let mut unit = [0, 0x80, 0, 0x80];
    assert_eq!(rt; scheme.over(&mut unit, &[0xa5]), Carry::Carried);
    assert_eq!(rt; unit, [0x85, 0x88, 0, 0x80]);
    assert_eq!(rt; scheme.over(&mut unit, &[0x2f]), Carry::Declined);
    assert_eq!(rt; unit, [0x85, 0x88, 0, 0x80]);
    let mut sector = [0];
    scheme.read_second(&unit, &mut sector);
    assert_eq!(rt; sector, [0xa5]);
    Ok(())
}

#[test]
fn small_chunks_of_one_page_go_in_groups(rt: HostRuntime) -> Result<(), Fail> {
    let mut scheme = Striped::new(rt.alloc(), Plain::<3, 5>::new(), Plain::<3, 5>::new(), 7)?;
    assert_eq!(rt; (scheme.page_bytes(), scheme.span()), (12, 1));
    let mut page = [0xff; 12];
    scheme.first(&[0xa5; 7], &mut page);
    // The first chunks are 101, 001, 011 and 010, and the last of the 19 is 01 and a zero past the end.
    assert_eq!(rt; (page[0], page[1], page[2]), (0x85, 0x18, 0x21));
    assert_eq!(rt; page[11], 0x08);
    let mut sector = [0; 7];
    scheme.read_first(&page, &mut sector);
    assert_eq!(rt; sector, [0xa5; 7]);
    assert_eq!(rt; scheme.over(&mut page, &[0xff; 7]), Carry::Carried);
    scheme.read_second(&page, &mut sector);
    assert_eq!(rt; sector, [0xff; 7]);
    assert_eq!(rt; scheme.over(&mut page, &[0xa5; 7]), Carry::Declined);
    Ok(())
}
