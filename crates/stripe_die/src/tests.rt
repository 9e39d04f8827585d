use crate::new;
use cell_die::{Die, DieFault, PowerDie, Shape, Torn};
use mem_die::MemDie;
use std::test::Fail;

/// Two blocks of two pages of two bytes; a pair of such dies has four blocks.
const SHAPE: Shape = Shape {
    blocks: 2,
    pages: 2,
    main_bytes: 1,
    spare_bytes: 1,
};

#[test]
fn a_die_that_fails_for_good_leaves_the_other_at_work(rt: HostRuntime) -> Result<(), Fail> {
    let a = MemDie::blank(rt.alloc(), SHAPE)?;
    let mut b = MemDie::blank(rt.alloc(), SHAPE)?;
    b.arm_cut(1, Torn::Nothing);
    let mut pair = new(a, b).ok().ok_or("refused")?;
    assert_eq!(rt; pair.erase(0), Ok(()));
    assert_eq!(rt; pair.erase(2), Ok(()));
    assert_eq!(rt; pair.erase(1), Err(DieFault));
    assert_eq!(rt; pair.erase(0), Ok(()));
    let (a, b) = pair.parts();
    assert_eq!(rt; (a.erased(), b.erased()), (3, 0));
    Ok(())
}

#[test]
fn the_blocks_of_the_two_dies_come_in_turn(rt: HostRuntime) -> Result<(), Fail> {
    let (a, b) = (
        MemDie::blank(rt.alloc(), SHAPE)?,
        MemDie::blank(rt.alloc(), SHAPE)?,
    );
    let mut pair = new(a, b).ok().ok_or("refused")?;
    assert_eq!(rt; pair.shape(), Shape { blocks: 4, ..SHAPE });
    assert_eq!(rt; pair.charge(3, 9), Ok(()));
    assert_eq!(rt; pair.charge(4, 2), Ok(()));
    let mut page = [1; 2];
    assert_eq!(rt; pair.read(3, &mut page), Ok(()));
    assert_eq!(rt; page, [0, 2]);
    let (a, b) = pair.parts();
    assert_eq!(rt; a.cells(), [0, 0, 0, 0, 4, 0, 0, 0].as_slice());
    assert_eq!(rt; b.cells(), [0, 0, 0, 2, 0, 0, 0, 0].as_slice());
    Ok(())
}

#[test]
fn dies_of_two_shapes_or_of_more_than_512_blocks_are_given_back(
    rt: HostRuntime,
) -> Result<(), Fail> {
    for (first, second, refused) in [
        (2, 2, false),
        (2, 3, true),
        (512, 512, false),
        (513, 513, true),
    ] {
        let a = MemDie::blank(
            rt.alloc(),
            Shape {
                blocks: first,
                ..SHAPE
            },
        )?;
        let b = MemDie::blank(
            rt.alloc(),
            Shape {
                blocks: second,
                ..SHAPE
            },
        )?;
        assert_eq!(rt; new(a, b).is_err(), refused, "{first} and {second}");
    }
    Ok(())
}
