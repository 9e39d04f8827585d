//! The page of the byte dump: sector 0 of `rs16` written once, with the byte a5 and fifteen zeros.

use cell_die::{Die, Shape};
use mem_die::MemDie;
use page_codec::{Place, Work, get, put_first};
use rivest_shamir::RivestShamir;
use std::test::Fail;
use striped::Striped;
use zero_count::Header;

/// Two blocks of two pages, of 24 main bytes and two slots.
const SHAPE: Shape = Shape {
    blocks: 2,
    pages: 2,
    main_bytes: 24,
    spare_bytes: 32,
};

/// The first record of sector 0.
const HEADER: Header = Header {
    sector: 0,
    seq: 1,
    kind: 1,
};

#[test]
fn page_0_after_a_write_of_a5_is_that_of_the_byte_dump(rt: HostRuntime) -> Result<(), Fail> {
    let mut scheme = Striped::new(rt.alloc(), RivestShamir::new(), RivestShamir::new(), 16)?;
    let mut work = Work::new(rt.alloc(), 24, 1, 16, 2)?;
    let mut die = MemDie::blank(rt.alloc(), SHAPE)?;
    let mut sector = [0; 16];
    sector[0] = 0xa5;
    put_first(&mut die, &mut scheme, &mut work, 0, &HEADER, &sector)?;
    let mut page = [0; 56];
    die.read(0, &mut page)?;
    let mut dump = [0; 56];
    dump[..2].copy_from_slice(&[0x52, 0x02]);
    dump[24..39].copy_from_slice(&[1, 0, 0, 0, 0, 1, 0, 0, 0, 0, 0, 0, 0, 1, 0x66]);
    assert_eq!(rt; page, dump);
    let mut read = [0xff; 16];
    get(
        &mut die,
        &scheme,
        &mut work,
        Place { page: 0, slot: 0 },
        &mut read,
    )?;
    assert_eq!(rt; read, sector);
    Ok(())
}
