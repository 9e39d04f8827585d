//! A sector of each scheme written, read, written over and read back, with the pages of the byte
//! dumps. Two bits in three cells, three bits in seven, and coset cells over a page whose unit is
//! else blank take any second sector; plain cells take the one whose bits are all set.

use schemes::{cosets, flips, pairs, plains, sevens};
use std::alloc::Global;
use std::process::Abort;
use std::test::Fail;
use striped::Scheme;
use wom_code::Carry;

/// The page of a sector's first write, which reads back as the sector.
fn first_page<C: Scheme>(
    rt: &impl Abort,
    alloc: Global,
    scheme: &mut C,
    sector: &[u8],
) -> Result<Vec<u8>, Fail> {
    assert_eq!(rt; sector.len(), scheme.sector_bytes() as usize);
    let mut page = vec![in alloc; 0xff; scheme.page_bytes() as usize]?;
    scheme.first(sector, &mut page);
    let mut read = vec![in alloc; 0; sector.len()]?;
    scheme.read_first(&page, &mut read);
    assert_eq!(rt; read.as_slice(), sector);
    Ok(page)
}

/// Writes a sector over a unit whose first page was written, and reads it back.
fn write_over<C: Scheme>(
    rt: &impl Abort,
    alloc: Global,
    scheme: &mut C,
    page: &[u8],
    sector: &[u8],
) -> Result<(), Fail> {
    assert_eq!(rt; sector.len(), scheme.sector_bytes() as usize);
    let bytes = scheme
        .span()
        .checked_mul(scheme.page_bytes())
        .ok_or("a unit is small")?;
    let mut unit = vec![in alloc; 0; bytes as usize]?;
    assert!(rt; page.len() <= unit.len());
    unit[..page.len()].copy_from_slice(page);
    assert_eq!(rt; scheme.over(&mut unit, sector), Carry::Carried);
    let mut read = vec![in alloc; 0; sector.len()]?;
    scheme.read_second(&unit, &mut read);
    assert_eq!(rt; read.as_slice(), sector);
    Ok(())
}

/// The page of a first write, after a second one went over it.
fn write_twice<C: Scheme + Drop>(
    rt: &impl Abort,
    alloc: Global,
    mut scheme: C,
    first: &[u8],
    second: &[u8],
) -> Result<Vec<u8>, Fail> {
    let page = first_page(rt, alloc, &mut scheme, first)?;
    write_over(rt, alloc, &mut scheme, &page, second)?;
    Ok(page)
}

#[test]
fn plain16_takes_all_ones_over_any_sector(rt: HostRuntime) -> Result<(), Fail> {
    let scheme = plains(rt.alloc(), 16)?;
    let page = write_twice(&rt, rt.alloc(), scheme, &[0xa5; 16], &[0xff; 16])?;
    assert_eq!(rt; page.as_slice(), [0xa5; 16].as_slice());
    Ok(())
}

#[test]
fn the_rs16_page_of_a5_begins_with_52_02(rt: HostRuntime) -> Result<(), Fail> {
    let mut sector = [0; 16];
    sector[0] = 0xa5;
    let scheme = pairs(rt.alloc(), 16)?;
    let page = write_twice(&rt, rt.alloc(), scheme, &sector, &[0x5a; 16])?;
    let mut cells = [0; 24];
    cells[0] = 0x52;
    cells[1] = 0x02;
    assert_eq!(rt; page.as_slice(), cells.as_slice());
    Ok(())
}

#[test]
fn rs512_takes_any_second_sector(rt: HostRuntime) -> Result<(), Fail> {
    let scheme = pairs(rt.alloc(), 512)?;
    let page = write_twice(&rt, rt.alloc(), scheme, &[0xa5; 512], &[0x5a; 512])?;
    assert_eq!(rt; page.len(), 768);
    Ok(())
}

#[test]
fn the_ham16_page_of_a5_begins_with_10_84(rt: HostRuntime) -> Result<(), Fail> {
    let mut sector = [0; 16];
    sector[0] = 0xa5;
    let scheme = sevens(rt.alloc(), 16)?;
    let page = write_twice(&rt, rt.alloc(), scheme, &sector, &[0x5a; 16])?;
    let mut cells = [0; 38];
    cells[0] = 0x10;
    cells[1] = 0x84;
    assert_eq!(rt; page.as_slice(), cells.as_slice());
    Ok(())
}

#[test]
fn ham512_takes_any_second_sector(rt: HostRuntime) -> Result<(), Fail> {
    let scheme = sevens(rt.alloc(), 512)?;
    let page = write_twice(&rt, rt.alloc(), scheme, &[0xa5; 512], &[0x5a; 512])?;
    assert_eq!(rt; page.len(), 1196);
    Ok(())
}

#[test]
fn coset16_takes_a_second_sector_over_a_plain_one(rt: HostRuntime) -> Result<(), Fail> {
    let scheme = cosets(rt.alloc(), 16)?;
    let page = write_twice(&rt, rt.alloc(), scheme, &[0xa5; 16], &[0x5a; 16])?;
    assert_eq!(rt; page.len(), 18);
    Ok(())
}

#[test]
fn coset512_takes_a_second_sector_over_a_plain_one(rt: HostRuntime) -> Result<(), Fail> {
    let scheme = cosets(rt.alloc(), 512)?;
    let page = write_twice(&rt, rt.alloc(), scheme, &[0xa5; 512], &[0x5a; 512])?;
    assert_eq!(rt; page.len(), 576);
    Ok(())
}

#[test]
fn the_flip16_page_of_all_ones_has_one_charged_cell(rt: HostRuntime) -> Result<(), Fail> {
    let scheme = flips(rt.alloc(), 16)?;
    let page = write_twice(&rt, rt.alloc(), scheme, &[0xff; 16], &[0x5a; 16])?;
    let mut cells = [0; 18];
    cells[16] = 0x01;
    assert_eq!(rt; page.as_slice(), cells.as_slice());
    Ok(())
}

#[test]
fn flip512_takes_a_second_sector_over_a_turned_one(rt: HostRuntime) -> Result<(), Fail> {
    let scheme = flips(rt.alloc(), 512)?;
    let page = write_twice(&rt, rt.alloc(), scheme, &[0xff; 512], &[0x5a; 512])?;
    assert_eq!(rt; page.len(), 576);
    Ok(())
}
