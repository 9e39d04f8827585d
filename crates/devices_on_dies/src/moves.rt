//! Sectors 0 and 1 stand in block 0, which closes; sector 0 is written again to block 1. So block 0 is the idle victim, with the
//! record of sector 1 on its page 1, and the room of block 1 is its page 3. A move reads pages 0 and 1, gets the record by a
//! third read, and makes two change calls.

ghost use Rattle.std.specs.Prelude.{◌≡◌, ℕ, List, Option};
ghost use Rattle.sector_map.specs.declared.entry.Entry.{Entry as EntryOf};
ghost use Rattle.block_state.specs.Book.{state_at};
ghost use Rattle.page_codec.specs.Geometry.{Geometry};
ghost use Rattle.page_codec.specs.TrueBook.{IsTrue};

use crate::fixture::{Small, new_book, new_die, open, write};
use block_state::{Book, State};
use cell_die::{PowerDie, Torn};
use collector::move_one;
use page_codec::{PutFault, Work};
use rivest_shamir::RivestShamir;
use sector_map::{Entry, SectorMap};
use std::alloc::Global;
use std::process::Abort;
use std::test::Fail;
use striped::Striped;

/// The failure that is to come in the move.
#[derive(Clone, Copy, Debug)]
enum Armed {
    Nothing,
    Cut(u32),
    Read(u32),
}

/// What a move answered and left: the page of sector 1, the live counts of blocks 0 and 1, and the next seq.
#[derive(Clone, Copy, Debug, PartialEq, Eq)]
struct After {
    answer: Result<bool, PutFault>,
    page: u32,
    lives: (u32, u32),
    seq: u64,
}

/// The fill of a block that is Active.
fn fill_of(rt: &impl Abort, book: &Book, block: u32) -> u32
    ensures { state_at book.now block ≡ State.Active result }
{
    assert!(rt; block < book.blocks());
    match book.state_of(block) {
        State::Active { fill } => fill,
        _ => panic!(rt; "block {block} is not Active"),
    }
}

/// Opens block 1, which is Clean.
fn open_next(rt: &impl Abort, book: &mut Book)
    ensures { (g : Geometry) (cells : List (List ℕ)) (table : List (Option EntryOf)) (seq : ℕ) → IsTrue g cells book.old table seq → IsTrue g cells book.new table seq }
{
    assert!(rt; book.blocks() == 3);
    assert!(rt; book.pages() == 2);
    let State::Clean = book.state_of(1) else {
        panic!(rt; "block 1 is not Clean");
    };
    let None = book.active() else {
        panic!(rt; "a block is Active");
    };
    open(book, 1);
}

/// Arms a failure.
fn arm<D: PowerDie>(rt: &impl Abort, die: &mut D, armed: Armed)
    ensures shape { (D.state die.new).shape ≡ (D.state die.old).shape }
    ensures cells { (D.state die.new).cells ≡ (D.state die.old).cells }
{
    match armed {
        Armed::Nothing => {}
        Armed::Cut(n) => {
            assert!(rt; 1 <= n);
            die.arm_cut(n, Torn::All);
        }
        Armed::Read(n) => {
            assert!(rt; 1 <= n);
            die.fail_read(n);
        }
    }
}

/// The page of a sector's record.
fn page_of(rt: &impl Abort, map: &SectorMap, sector: u32) -> u32 {
    assert!(rt; sector < map.sectors());
    match map.get(sector) {
        Some(Entry::Held(place)) => place.page,
        _ => panic!(rt; "sector {sector} is not held"),
    }
}

/// A move of the record of sector 1.
fn after_move(rt: &impl Abort, alloc: Global, armed: Armed) -> Result<After, Fail> {
    let mut small = Small {
        scheme: Striped::new(alloc, RivestShamir::new(), RivestShamir::new(), 16)?,
        work: Work::new(alloc, 24, 1, 16, 2)?,
        die: new_die(alloc)?,
        map: SectorMap::new(alloc, 2)?,
        book: new_book(alloc)?,
        seq: 1,
    };
    let fill = fill_of(rt, &small.book, 0);
    write(&mut small, 0, fill, 0, &[0x11; 16])?;
    let fill = fill_of(rt, &small.book, 0);
    write(&mut small, 0, fill, 1, &[0xa5; 16])?;
    open_next(rt, &mut small.book);
    let fill = fill_of(rt, &small.book, 1);
    write(&mut small, 1, fill, 0, &[0x5a; 16])?;
    arm(rt, &mut small.die, armed);
    let answer = move_one(
        &mut small.die,
        &mut small.scheme,
        &mut small.work,
        &mut small.map,
        &mut small.book,
        &mut small.seq,
    );
    assert!(rt; small.book.blocks() == 3);
    Ok(After {
        answer,
        page: page_of(rt, &small.map, 1),
        lives: (small.book.live(0), small.book.live(1)),
        seq: small.seq,
    })
}

#[test]
fn an_idle_move_takes_the_first_live_record_of_the_idle_victim(
    rt: HostRuntime,
) -> Result<(), Fail> {
    for (armed, answer, page, lives, seq) in [
        (Armed::Nothing, Ok(true), 3, (0, 2), 5),
        (Armed::Read(4), Ok(true), 3, (0, 2), 5),
        (Armed::Read(3), Err(PutFault::Read), 1, (1, 1), 4),
        (Armed::Read(1), Err(PutFault::Read), 1, (1, 1), 4),
        (Armed::Cut(3), Ok(true), 3, (0, 2), 5),
        (Armed::Cut(2), Err(PutFault::Change), 1, (1, 1), 5),
        (Armed::Cut(1), Err(PutFault::Change), 1, (1, 1), 5),
    ] {
        let after = after_move(&rt, rt.alloc(), armed)?;
        let want = After {
            answer,
            page,
            lives,
            seq,
        };
        assert_eq!(rt; after, want, "{armed:?}");
    }
    Ok(())
}
