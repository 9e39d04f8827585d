//! The smallest device: tables that begin true to a blank die, a block that opens, and records on its next page.

ghost use Rattle.std.specs.Prelude.{◌≡◌, ◌<◌, ◌≤◌, ◌^◌, ◌*◌, ◌+◌, ℕ, List, Option, length, replicate, true, Some, None, OnOk, IfOk};
ghost use Rattle.sector_map.specs.declared.entry.Entry.{Entry as EntryOf};
ghost use Rattle.cell_die.specs.Cells.{is_blank, page_at};
ghost use Rattle.block_state.specs.Book.{NoneActive, state_at};
ghost use Rattle.page_codec.specs.Geometry.{Geometry};
ghost use Rattle.page_codec.specs.Sizes.{Serves, ServesScheme};
ghost use Rattle.page_codec.specs.TrueBook.{IsTrue};
ghost use Rattle.mem_die.specs.MemState.{mem_state};
ghost use Rattle.collector.specs.Store.{geometry_of};

use block_state::{Book, OutOfMemory, State};
use cell_die::{Die, DieFault, Shape};
use collector::record_effect;
use mem_die::{DieRefusal, MemDie};
use page_codec::{Work, put_first};
use sector_map::{Entry, Place2, SectorMap};
use std::alloc::Global;
use striped::Scheme;
use zero_count::Header;

/// Three blocks of two pages, of 24 main bytes and two slots.
pub const SHAPE: Shape = Shape {
    blocks: 3,
    pages: 2,
    main_bytes: 24,
    spare_bytes: 32,
};

/// A die with no charged cell.
pub fn new_die(alloc: Global) -> Result<MemDie, DieRefusal>
    ensures shape { IfOk result (λ die. (mem_state die).shape ≡ SHAPE) }
    ensures blank { IfOk result (λ die. (page : ℕ) → is_blank (page_at (mem_state die).cells page) ≡ true) }
{
    MemDie::blank(alloc, SHAPE)
}

/// The book of such a die: block 0 is Active, and block 2 the Spare, known to be blank.
pub fn new_book(alloc: Global) -> Result<Book, OutOfMemory>
    ensures { IfOk result (λ book. (g : Geometry) (cells : List (List ℕ)) → g.blocks ≡ 3 → g.pages ≡ 2 → g.span ≡ 1 → g.generations ≡ 2
        → ((page : ℕ) → is_blank (page_at cells page) ≡ true) → IsTrue g cells book (replicate g.sectors None) 1) }
{
    let mut book = Book::new(alloc, 3, 2, 2, 2)?;
    book.set_state(0, State::Active { fill: 0 });
    book.set_state(2, State::Spare { blank: true });
    let _blocks = book.blocks();
    Ok(book)
}

/// Opens a Clean block, where none is Active.
pub fn open(book: &mut Book, block: u32)
    requires block { block < length book.old.states }
    requires clean { state_at book.old block ≡ State.Clean }
    requires some_pages { 0 < book.old.pages }
    requires none_active { NoneActive book.old }
    ensures tables { (g : Geometry) (cells : List (List ℕ)) (table : List (Option EntryOf)) (seq : ℕ) → IsTrue g cells book.old table seq → IsTrue g cells book.new table seq }
{
    book.set_state(block, State::Active { fill: 0 });
}

/// A die and a scheme, with what is kept of them: a device without its rules.
#[derive(Drop)]
pub struct Small<D, C> {
    pub die: D,
    pub scheme: C,
    pub work: Work,
    pub map: SectorMap,
    pub book: Book,
    pub seq: u64,
}

/// Puts a sector on the next page of the Active block, whose fill is given.
pub fn write<D: Die, C: Scheme>(
    small: &mut Small<D, C>,
    block: u32,
    fill: u32,
    sector: u32,
    bytes: &[u8],
) -> Result<(), DieFault>
    requires die { Serves small.old.work (D.state small.old.die).shape }
    requires scheme { ServesScheme small.old.work (C.meaning small.old.scheme) }
    requires tables { IsTrue (geometry_of (D.state small.old.die).shape (C.meaning small.old.scheme) (length small.old.map)) (D.state small.old.die).cells small.old.book small.old.map small.old.seq }
    requires fresh { small.old.seq < 2 ^ 62 }
    requires active { state_at small.old.book block ≡ State.Active fill }
    requires sector { sector < length small.old.map }
    requires bytes { length bytes.now ≡ (C.meaning small.old.scheme).sector_bytes }
    ensures tables { OnOk result (IsTrue (geometry_of (D.state small.new.die).shape (C.meaning small.new.scheme) (length small.new.map)) (D.state small.new.die).cells
        small.new.book small.new.map small.new.seq) }
    ensures same_shape { (D.state small.new.die).shape ≡ (D.state small.old.die).shape }
    ensures same_sectors { length small.new.map ≡ length small.old.map }
    ensures next { small.new.seq ≡ small.old.seq + 1 }
    ensures same_scheme { C.meaning small.new.scheme ≡ C.meaning small.old.scheme }
    ensures same_work { small.new.work ≡ small.old.work }
{
    let page = block * small.book.pages() + fill;
    let header = Header {
        sector,
        seq: small.seq,
        kind: 1,
    };
    small.seq += 1;
    put_first(
        &mut small.die,
        &mut small.scheme,
        &mut small.work,
        page,
        &header,
        bytes,
    )?;
    record_effect(
        &mut small.map,
        &mut small.book,
        sector,
        Entry::Held(Place2 { page, slot: 0 }),
    );
    Ok(())
}
