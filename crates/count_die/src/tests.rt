use super::*;
use cell_die::{Die, DieFault, PowerDie, Shape, Torn};
use mem_die::MemDie;
use std::process::Abort;
use std::test::Fail;

const SHAPE: Shape = Shape {
    blocks: 2,
    pages: 2,
    main_bytes: 1,
    spare_bytes: 1,
};

/// Reads a page of a die of that shape.
fn read_page(rt: &impl Abort, die: &mut CountDie<MemDie>, page: u32) -> Result<(), DieFault> {
    assert_eq!(rt; die.shape(), SHAPE);
    assert!(rt; page < 4);
    die.read(page, &mut [0; 2])
}

/// Erases a block of a die of that shape.
fn erase_block(rt: &impl Abort, die: &mut CountDie<MemDie>, block: u32) -> Result<(), DieFault> {
    assert_eq!(rt; die.shape(), SHAPE);
    assert!(rt; block < 2);
    die.erase(block)
}

/// Charges a cell of a die of that shape.
fn charge_cell(
    rt: &impl Abort,
    die: &mut CountDie<MemDie>,
    page: u32,
    cell: u32,
) -> Result<(), DieFault> {
    assert_eq!(rt; die.shape(), SHAPE);
    assert!(rt; page < 4);
    assert!(rt; cell < 16);
    die.charge(page, cell)
}

/// The programs, and the programs and charges, of a page since its block's last erase.
fn since(rt: &impl Abort, tally: &Tally, page: u32) -> (u64, u64) {
    assert!(rt; u64::from(page) < u64::from(tally.blocks()) * u64::from(tally.pages()));
    (tally.programs_since(page), tally.changes_since(page))
}

#[test]
fn each_call_is_counted_for_its_block_and_page(rt: HostRuntime) -> Result<(), Fail> {
    let inner = MemDie::blank(rt.alloc(), SHAPE)?;
    let mut die = CountDie::new(rt.alloc(), inner).ok().ok_or("no memory")?;
    assert_eq!(rt; read_page(&rt, &mut die, 3), Ok(()));
    assert_eq!(rt; charge_cell(&rt, &mut die, 2, 9), Ok(()));
    assert_eq!(rt; charge_cell(&rt, &mut die, 2, 3), Ok(()));
    let tally = die.tally();
    assert_eq!(rt; (tally.blocks(), tally.pages()), (2, 2));
    assert_eq!(rt; (tally.reads(0), tally.reads(1)), (0, 1));
    assert_eq!(rt; (tally.charges(0), tally.charges(1)), (0, 2));
    assert_eq!(rt; since(&rt, tally, 2), (0, 2));
    assert_eq!(rt; since(&rt, tally, 3), (0, 0));
    assert_eq!(rt; tally.most_changes(1), 2);
    Ok(())
}

#[test]
fn an_erase_begins_the_pages_anew_and_keeps_the_most(rt: HostRuntime) -> Result<(), Fail> {
    let inner = MemDie::blank(rt.alloc(), SHAPE)?;
    let mut die = CountDie::new(rt.alloc(), inner).ok().ok_or("no memory")?;
    assert_eq!(rt; die.program(2, &[0, 0]), Ok(()));
    assert_eq!(rt; erase_block(&rt, &mut die, 1), Ok(()));
    let (inner, tally) = die.into_parts();
    assert_eq!(rt; inner.erased(), 1);
    assert_eq!(rt; (tally.blocks(), tally.pages()), (2, 2));
    assert_eq!(rt; since(&rt, &tally, 2), (0, 0));
    assert_eq!(rt; tally.programs(1), 1);
    assert_eq!(rt; (tally.most_programs(1), tally.most_changes(1)), (1, 1));
    assert_eq!(rt; (tally.erases(0), tally.erases(1)), (0, 1));
    let totals = Totals {
        reads: 0,
        programs: 1,
        charges: 0,
        erases: 1,
    };
    assert_eq!(rt; tally.totals(), totals);
    Ok(())
}

#[test]
fn a_call_that_fails_is_counted(rt: HostRuntime) -> Result<(), Fail> {
    let inner = MemDie::blank(rt.alloc(), SHAPE)?;
    let mut die = CountDie::new(rt.alloc(), inner).ok().ok_or("no memory")?;
    die.arm_cut(1, Torn::Nothing);
    assert_eq!(rt; erase_block(&rt, &mut die, 0), Err(DieFault));
    assert!(rt; !die.powered());
    die.power_on();
    die.fail_read(1);
    assert_eq!(rt; read_page(&rt, &mut die, 0), Err(DieFault));
    assert_eq!(rt; die.erased(), 0);
    let tally = die.tally();
    assert_eq!(rt; (tally.blocks(), tally.pages()), (2, 2));
    assert_eq!(rt; (tally.erases(0), tally.reads(0)), (1, 1));
    Ok(())
}
