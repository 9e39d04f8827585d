//! Values from the rules of the table and of the worn die: an erase whose number is a multiple of `every` goes bad.
ghost use Rattle.std.specs.Prelude.{◌≡◌, ◌<◌, OnOk, IfOk};
ghost use Rattle.cell_die.specs.DieState.{page_of, page_count};

use crate::entry::{Entry, read, spell};
use crate::{OpenError, SpareDie, open};
use cell_bits::is_above;
use cell_die::{Die, Shape, WornDie};
use mem_die::{MemDie, WornMem};
use std::alloc::Global;
use std::test::Fail;

/// Two logical blocks of two pages, the table, and two reserve blocks.
const SHAPE: Shape = Shape {
    blocks: 5,
    pages: 2,
    main_bytes: 9,
    spare_bytes: 1,
};

/// A spare die over a blank die each `every`-th erase of which makes its block bad.
fn opened(alloc: Global, shape: Shape, every: u32) -> Result<SpareDie<WornMem>, Fail> {
    let die = WornMem::new(alloc, MemDie::blank(alloc, shape)?, every)?;
    Ok(open(alloc, die, 2).ok().ok_or("refused")?)
}

/// Whether an erase of the die answers Ok.
fn erases<D: Die>(die: &mut D, block: u32) -> bool {
    block < die.shape().blocks && die.erase(block).is_ok()
}

/// Whether the charge of a page's first cell answers Ok.
fn charges<D: Die>(die: &mut D, page: u32) -> bool {
    let shape = die.shape();
    let pages = u64::from(shape.blocks) * u64::from(shape.pages);
    u64::from(page) < pages && shape.main_bytes > 0 && die.charge(page, 0).is_ok()
}

/// The cells of a page of the die.
fn row<D: Die>(die: &mut D, page: u32) -> Result<[u8; 10], Fail>
    ensures row { IfOk result (λ row. row ≡ page_of (D.state die.new) page) }
    ensures inside { OnOk result (page < page_count (D.state die.new).shape) }
{
    let shape = die.shape();
    let pages = u64::from(shape.blocks) * u64::from(shape.pages);
    if u64::from(page) >= pages
        || u64::from(shape.main_bytes) + u64::from(shape.spare_bytes) != 10
    {
        return Err("no such page".into());
    }
    let mut row = [7; 10];
    die.read(page, &mut row).ok().ok_or("read")?;
    Ok(row)
}

/// Programs a page of the die to cells above its own.
fn program<D: Die>(die: &mut D, page: u32, target: [u8; 10]) -> Result<(), Fail> {
    if !is_above(&target, &row(die, page)?) {
        return Err("a cell would fall".into());
    }
    die.program(page, &target).ok().ok_or("program")?;
    Ok(())
}

/// The cells of a page of the die below.
fn inner_row(die: &mut WornMem, page: u32) -> Result<[u8; 10], Fail> {
    let shape = die.shape();
    let pages = u64::from(shape.blocks) * u64::from(shape.pages);
    if u64::from(page) >= pages
        || u64::from(shape.main_bytes) + u64::from(shape.spare_bytes) != 10
    {
        return Err("no such page".into());
    }
    let mut row = [7; 10];
    die.read(page, &mut row).ok().ok_or("read")?;
    Ok(row)
}

#[test]
fn an_entry_counts_from_its_gate_on(rt: HostRuntime) {
    let entry = Entry {
        logical: 3,
        inner: 258,
    };
    let mut page = [9; 12];
    spell(entry, &mut page);
    assert_eq!(rt; page, [3, 0, 0, 0, 2, 1, 0, 0, 0, 0, 0, 0]);
    assert_eq!(rt; read(&page), None);
    page[8] = 1;
    assert_eq!(rt; read(&page), Some(entry));
}

#[test]
fn every_second_erase_bad_and_opened_again_after_each_the_cells_stay(
    rt: HostRuntime,
) -> Result<(), Fail> {
    let shape = Shape {
        blocks: 8,
        pages: 6,
        ..SHAPE
    };
    let mut die = opened(rt.alloc(), shape, 2)?;
    for turn in 0..10u32 {
        let block = turn % 2;
        assert!(rt; erases(&mut die, block), "turn {turn}");
        program(&mut die, block * 6 + 5, [turn as u8 + 1; 10])?;
        die = open(rt.alloc(), die.into_inner(), 2).ok().ok_or("refused")?;
        assert_eq!(rt; die.left(), 5 - (turn + 1) / 2, "turn {turn}");
        assert_eq!(rt;
            row(&mut die, block * 6 + 5)?,
            [turn as u8 + 1; 10],
            "turn {turn}"
        );
        assert_eq!(rt;
            row(&mut die, (1 - block) * 6 + 5)?,
            [turn as u8; 10],
            "turn {turn}"
        );
    }
    Ok(())
}

#[test]
fn without_a_reserve_block_left_an_erase_that_goes_bad_fails_and_so_does_all_after_it(
    rt: HostRuntime,
) -> Result<(), Fail> {
    let mut die = opened(rt.alloc(), SHAPE, 1)?;
    assert_eq!(rt; die.left(), 2);
    assert!(rt; erases(&mut die, 0));
    assert!(rt; erases(&mut die, 1));
    assert_eq!(rt; die.left(), 0);
    program(&mut die, 0, [3; 10])?;
    assert!(rt; !erases(&mut die, 0));
    assert!(rt; !charges(&mut die, 2));
    let mut again = open(rt.alloc(), die.into_inner(), 2).ok().ok_or("refused")?;
    assert!(rt; charges(&mut again, 2));
    assert_eq!(rt; row(&mut again, 2)?, [1, 0, 0, 0, 0, 0, 0, 0, 0, 0]);
    Ok(())
}

#[test]
fn logical_pages_stand_in_their_homes_and_not_in_the_table(rt: HostRuntime) -> Result<(), Fail> {
    let mut die = opened(rt.alloc(), SHAPE, 1)?;
    assert_eq!(rt; die.shape(), Shape { blocks: 2, ..SHAPE });
    program(&mut die, 3, [2; 10])?;
    assert!(rt; erases(&mut die, 0));
    program(&mut die, 1, [5; 10])?;
    assert_eq!(rt; row(&mut die, 0)?, [0; 10]);
    assert_eq!(rt; row(&mut die, 1)?, [5; 10]);
    assert_eq!(rt; row(&mut die, 3)?, [2; 10]);
    let mut inner = die.into_inner();
    assert_eq!(rt; inner_row(&mut inner, 0)?, [0, 0, 0, 0, 3, 0, 0, 0, 1, 0]);
    assert_eq!(rt; inner_row(&mut inner, 7)?, [5; 10]);
    Ok(())
}

/// A page with no charged cell.
const BLANK: [u8; 10] = [0; 10];

/// The page of a gated entry.
fn gated(logical: u8, inner: u8) -> [u8; 10] {
    [logical, 0, 0, 0, inner, 0, 0, 0, 1, 0]
}

/// Why a die is refused whose table pages and whose page 7, in inner block 3, are these.
fn refusal(
    alloc: Global,
    shape: Shape,
    logical: u32,
    table: [[u8; 10]; 2],
    spare: &[u8],
) -> Result<Option<OpenError>, Fail> {
    let [first, second] = table;
    let mut cells = Vec::new(alloc);
    cells.extend_from_slice(&first)?;
    cells.extend_from_slice(&second)?;
    cells.extend_from_slice(&[0; 50])?;
    cells.extend_from_slice(spare)?;
    cells.extend_from_slice(&[0; 20])?;
    let worn = WornMem::new(alloc, MemDie::of_cells(alloc, shape, cells)?, 0)?;
    match open(alloc, worn, logical) {
        Ok(_) => Ok(None),
        Err(refused) => Ok(Some(refused.why)),
    }
}

#[test]
fn a_die_without_room_is_refused_by_its_shape(rt: HostRuntime) -> Result<(), Fail> {
    let shape = Some(OpenError::Shape);
    let short = Shape {
        main_bytes: 8,
        spare_bytes: 2,
        ..SHAPE
    };
    assert_eq!(rt; refusal(rt.alloc(), SHAPE, 1, [BLANK; 2], &BLANK)?, shape);
    assert_eq!(rt; refusal(rt.alloc(), SHAPE, 4, [BLANK; 2], &BLANK)?, None);
    assert_eq!(rt; refusal(rt.alloc(), SHAPE, 5, [BLANK; 2], &BLANK)?, shape);
    assert_eq!(rt; refusal(rt.alloc(), short, 2, [BLANK; 2], &BLANK)?, shape);
    Ok(())
}

#[test]
fn a_die_is_refused_by_its_table_where_an_entry_cannot_stand_there(
    rt: HostRuntime,
) -> Result<(), Fail> {
    let table = Some(OpenError::Table);
    let torn = [0, 0, 0, 0, 3, 0, 0, 0, 0, 0];
    for (first, second, why) in [
        (gated(0, 3), BLANK, None),
        (gated(0, 3), gated(0, 4), None),
        (torn, gated(0, 3), None),
        (gated(2, 3), BLANK, table),
        (gated(0, 2), BLANK, table),
        (gated(0, 5), BLANK, table),
        (gated(0, 3), gated(1, 3), table),
        (BLANK, gated(0, 3), table),
    ] {
        assert_eq!(rt;
            refusal(rt.alloc(), SHAPE, 2, [first, second], &BLANK)?,
            why
        );
    }
    Ok(())
}

#[test]
fn a_reserve_block_that_no_entry_names_is_blank(rt: HostRuntime) -> Result<(), Fail> {
    let mark = [1; 10];
    assert_eq!(rt;
        refusal(rt.alloc(), SHAPE, 2, [BLANK; 2], &mark)?,
        Some(OpenError::Table)
    );
    assert_eq!(rt;
        refusal(rt.alloc(), SHAPE, 2, [gated(1, 3), BLANK], &mark)?,
        None
    );
    Ok(())
}
