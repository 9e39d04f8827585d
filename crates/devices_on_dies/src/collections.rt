ghost use Rattle.std.specs.Prelude.{◌≡◌};

use crate::collected::{collect_next, mount_true};
use block_state::State;
use cell_die::{Die, Shape};
use collector::Moves;
use mem_die::MemDie;
use mount_scan::Tables;
use page_codec::Work;
use rivest_shamir::RivestShamir;
use sector_map::Entry;
use std::alloc::Global;
use std::process::Abort;
use std::test::Fail;
use striped::Striped;
use zero_count::{Header, spell};

/// Two blocks of four pages, of 24 main bytes and two slots.
const SHAPE: Shape = Shape {
    blocks: 2,
    pages: 4,
    main_bytes: 24,
    spare_bytes: 32,
};

/// The cells of a die whose block 0 is full: page `i` has a record of sector `i`, or of sector 0 from page `live` on.
fn full_block(live: u32) -> [u8; 448] {
    let mut cells = [0; 448];
    for page in 0..4 {
        let header = Header {
            sector: if page < live { page } else { 0 },
            seq: u64::from(page) + 1,
            kind: 1,
        };
        let mut word = [0; 14];
        spell(&header, &mut word);
        let at = page as usize * 56;
        cells[at] = 0x41;
        cells[at + 24] = 1;
        cells[at + 25..at + 39].copy_from_slice(&word);
    }
    cells
}

/// New tables of a die, read from it.
fn read_tables<D: Die>(alloc: Global, die: &mut D) -> Result<Tables, Fail>
    requires { (D.state die.old).shape ≡ SHAPE }
{
    let scheme = Striped::new(alloc, RivestShamir::new(), RivestShamir::new(), 16)?;
    let mut work = Work::new(alloc, 24, 1, 16, 2)?;
    let mut tables = Tables::new(alloc, SHAPE, 3, 1, 2)?;
    mount_true(die, &scheme, &mut work, &mut tables)?;
    Ok(tables)
}

/// The tables of a die after a mount and a collection, and how many records were moved.
fn collected<D: Die>(
    rt: &impl Abort,
    alloc: Global,
    die: &mut D,
) -> Result<(Tables, Option<u32>), Fail>
    requires { (D.state die.old).shape ≡ SHAPE }
{
    let mut scheme = Striped::new(alloc, RivestShamir::new(), RivestShamir::new(), 16)?;
    let mut work = Work::new(alloc, 24, 1, 16, 2)?;
    let mut tables = Tables::new(alloc, SHAPE, 3, 1, 2)?;
    let mut moves = Moves::new(alloc, 4)?;
    mount_true(die, &scheme, &mut work, &mut tables)?;
    assert!(rt; tables.book.blocks() == 2 && tables.book.pages() == 4);
    let moved = collect_next(die, &mut scheme, &mut work, &mut tables, &mut moves)
        .ok()
        .expect(rt, "no call fails");
    Ok((tables, moved))
}

/// The map's entries, and the live counts and the states of the blocks.
fn shown(rt: &impl Abort, tables: &Tables) -> ([Option<Entry>; 3], [u32; 2], [State; 2]) {
    let (map, book) = (&tables.map, &tables.book);
    assert!(rt; map.sectors() == 3 && book.blocks() == 2);
    (
        [map.get(0), map.get(1), map.get(2)],
        [book.live(0), book.live(1)],
        [book.state_of(0), book.state_of(1)],
    )
}

#[test]
fn after_a_collection_map_and_book_are_those_of_a_mount_but_for_the_active_block(
    rt: HostRuntime,
) -> Result<(), Fail> {
    for live in 1..4 {
        let cells = Vec::from_slice(rt.alloc(), &full_block(live))?;
        let mut die = MemDie::of_cells(rt.alloc(), SHAPE, cells)?;
        let (tables, moved) = collected(&rt, rt.alloc(), &mut die)?;
        assert_eq!(rt; moved, Some(live));
        assert_eq!(rt; die.shape(), SHAPE);
        let found = read_tables(rt.alloc(), &mut die)?;
        let (map, lives, states) = shown(&rt, &tables);
        let spare = State::Spare { blank: false };
        assert_eq!(rt; states, [spare, State::Active { fill: live }]);
        assert_eq!(rt;
            shown(&rt, &found),
            (map, lives, [spare, State::Used { level: 0 }])
        );
        assert_eq!(rt; tables.seq, found.seq);
    }
    Ok(())
}
