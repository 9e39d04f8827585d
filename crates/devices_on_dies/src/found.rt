//! What a mount finds on a die of `rs16` with two blocks of two pages and one sector.

ghost use Rattle.std.specs.Prelude.{◌≡◌};

use block_state::State;
use cell_die::{Die, Shape};
use mount_scan::{Tables, scan_all};
use page_codec::{Place, Work, get};
use rivest_shamir::RivestShamir;
use sector_map::Entry;
use std::alloc::Global;
use std::process::Abort;
use std::test::Fail;
use striped::Striped;

/// Two blocks of two pages, of 24 main bytes and two slots.
pub const SHAPE: Shape = Shape {
    blocks: 2,
    pages: 2,
    main_bytes: 24,
    spare_bytes: 32,
};

/// The sector's bytes, the next seq, and the states of the two blocks.
#[derive(Clone, Copy, Debug, PartialEq, Eq)]
pub struct Found {
    pub sector: [u8; 16],
    pub seq: u64,
    pub blocks: [State; 2],
}

/// The bytes of a sector that begins with this one and goes on with zeros.
pub fn sector(first: u8) -> [u8; 16] {
    let mut sector = [0; 16];
    sector[0] = first;
    sector
}

/// Mounts a die, and reads its sector where a record holds it.
pub fn found_on<D: Die>(rt: &impl Abort, alloc: Global, die: &mut D) -> Result<Found, Fail>
    requires { (D.state die.old).shape ≡ SHAPE }
{
    let scheme = Striped::new(alloc, RivestShamir::new(), RivestShamir::new(), 16)?;
    let mut work = Work::new(alloc, 24, 1, 16, 2)?;
    let mut tables = Tables::new(alloc, SHAPE, 1, 1, 2)?;
    scan_all(die, &mut work, &mut tables, 0)?;
    assert!(rt; tables.map.sectors() == 1 && tables.book.blocks() == 2);
    let mut sector = [0; 16];
    if let Some(Entry::Held(place)) = tables.map.get(0) {
        assert!(rt; place.page < 4 && place.slot == 0);
        let place = Place {
            page: place.page,
            slot: 0,
        };
        get(die, &scheme, &mut work, place, &mut sector)?;
    }
    Ok(Found {
        sector,
        seq: tables.seq,
        blocks: [tables.book.state_of(0), tables.book.state_of(1)],
    })
}
