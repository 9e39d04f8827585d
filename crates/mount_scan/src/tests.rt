//! Which of two records is the newer, what a block's cells make it, and new tables.

use crate::found::{found_state, level_of};
use crate::note::wins;
use crate::spare::highest_free;
use crate::tables::Tables;
use block_state::{Book, State};
use cell_die::Shape;
use page_codec::{Place, Seen, SeenSlot};
use sector_map::{Entry, Place2};
use std::test::Fail;

#[test]
fn the_greater_seq_wins_then_the_lower_page_then_the_higher_slot(rt: HostRuntime) {
    let named = Some(Entry::Held(Place2 { page: 5, slot: 1 }));
    assert_eq!(rt; wins(None, 0, Place { page: 9, slot: 0 }, 0), true);
    assert_eq!(rt; wins(named, 7, Place { page: 9, slot: 0 }, 8), true);
    assert_eq!(rt; wins(named, 7, Place { page: 0, slot: 2 }, 6), false);
    assert_eq!(rt; wins(named, 7, Place { page: 4, slot: 0 }, 7), true);
    assert_eq!(rt; wins(named, 7, Place { page: 6, slot: 2 }, 7), false);
    assert_eq!(rt; wins(named, 7, Place { page: 5, slot: 2 }, 7), true);
    assert_eq!(rt; wins(named, 7, Place { page: 5, slot: 0 }, 7), false);
}

#[test]
fn a_block_is_reused_once_its_last_slot_is_written(rt: HostRuntime) {
    let blank = SeenSlot {
        blank: true,
        gate: false,
        header: None,
    };
    let torn = SeenSlot {
        blank: false,
        gate: false,
        header: None,
    };
    let seen = Seen {
        blank: false,
        seal: false,
        first: torn,
        second: torn,
        third: blank,
    };
    assert_eq!(rt; level_of(&seen), 1);
    assert_eq!(rt; found_state(false, 1, 3), State::Used { level: 1 });
    assert_eq!(rt; found_state(false, 1, 2), State::Reused);
    assert_eq!(rt; found_state(true, 0, 2), State::Clean);
}

#[test]
fn new_tables_name_nothing(rt: HostRuntime) -> Result<(), Fail> {
    let shape = Shape {
        blocks: 4,
        pages: 2,
        main_bytes: 16,
        spare_bytes: 32,
    };
    let tables = Tables::new(rt.alloc(), shape, 3, 1, 2)?;
    assert_eq!(rt; tables.map.get(2), None);
    assert_eq!(rt; tables.book.state_of(3), State::Clean);
    assert_eq!(rt; tables.seq, 1);
    Ok(())
}

#[test]
fn the_highest_block_without_a_live_record_is_the_spare(rt: HostRuntime) -> Result<(), Fail> {
    let mut book = Book::new(rt.alloc(), 3, 2, 2, 2)?;
    assert_eq!(rt; highest_free(&book), Some(2));
    book.add_live(2);
    assert_eq!(rt; highest_free(&book), Some(1));
    Ok(())
}
