use super::*;
use std::test::Fail;

/// Two blocks of one page of nine bytes: cells 64 to 71 of a page are those of a mask's bits 0 to 7 again.
const SHAPE: Shape = Shape {
    blocks: 2,
    pages: 1,
    main_bytes: 8,
    spare_bytes: 1,
};

#[test]
#[tactic(auto, using(cell_die::proofs::CellLaws::above_blank))]
fn every_second_erase_makes_its_block_bad(rt: HostRuntime) -> Result<(), Fail> {
    let mut die = WornMem::new(rt.alloc(), MemDie::blank(rt.alloc(), SHAPE)?, 2)?;
    let mut page = [0; 9];
    assert_eq!(rt; die.program(1, &[0xff; 9]), Ok(()));
    assert_eq!(rt; die.erase_or_bad(0), Ok(Erased::Clean));
    assert_eq!(rt; die.erase_or_bad(1), Ok(Erased::Bad));
    assert_eq!(rt; die.read(1, &mut page), Ok(()));
    assert_eq!(rt; page, [0xaa; 9]);
    assert_eq!(rt; die.erase_or_bad(1), Ok(Erased::Bad));
    assert_eq!(rt; die.erase_or_bad(0), Ok(Erased::Bad));
    assert_eq!(rt; die.bad_erases, 3);
    Ok(())
}

#[test]
fn with_none_to_go_bad_every_erase_is_clean(rt: HostRuntime) -> Result<(), Fail> {
    let mut die = WornMem::new(rt.alloc(), MemDie::blank(rt.alloc(), SHAPE)?, 0)?;
    let mut page = [0; 9];
    assert_eq!(rt; die.charge(0, 65), Ok(()));
    assert_eq!(rt; die.read(0, &mut page), Ok(()));
    assert_eq!(rt; page, [0, 0, 0, 0, 0, 0, 0, 0, 2]);
    assert_eq!(rt; die.erase_or_bad(0), Ok(Erased::Clean));
    assert_eq!(rt; die.erase_or_bad(0), Ok(Erased::Clean));
    assert_eq!(rt; (die.bad_erases, die.shape()), (0, SHAPE));
    Ok(())
}
