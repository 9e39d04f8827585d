use super::*;
use cell_die::{Die, DieFault, PowerDie, Shape, Torn};
use mem_die::MemDie;
use std::test::Fail;

#[test]
fn a_mirror_keeps_the_cells_and_catches_up(rt: HostRuntime) -> Result<(), Fail> {
    let shape = Shape {
        blocks: 2,
        pages: 2,
        main_bytes: 2,
        spare_bytes: 1,
    };
    let inner = MemDie::of_cells(rt.alloc(), shape, [0u8; 12].to_vec(rt.alloc())?)?;
    let mirror = MemMirror::new([0u8; 44].to_vec(rt.alloc())?, [2, 3].to_vec(rt.alloc())?);
    let mut die = FileDie::new(inner, mirror);
    assert_eq!(rt; die.program(1, &[1, 2, 3]), Ok(()));
    assert!(rt;
        die.mirror()
            .bytes()
            .ends_with(&[0, 0, 0, 1, 2, 3, 0, 0, 0, 0, 0, 0])
    );
    assert_eq!(rt; die.charge(3, 0), Err(DieFault));
    assert!(rt; die.is_behind());
    assert_eq!(rt; die.charge(3, 1), Err(DieFault));
    assert_eq!(rt; die.charge(3, 1), Ok(()));
    assert!(rt;
        die.mirror()
            .bytes()
            .ends_with(&[0, 0, 0, 1, 2, 3, 0, 0, 0, 3, 0, 0])
    );
    assert_eq!(rt; die.put_faults(), 2);
    assert_eq!(rt; die.erase(0), Ok(()));
    assert!(rt;
        die.mirror()
            .bytes()
            .ends_with(&[0, 0, 0, 0, 0, 0, 0, 0, 0, 3, 0, 0])
    );
    assert_eq!(rt; die.erased(), 1);
    Ok(())
}

#[test]
fn a_cut_leaves_the_torn_cells_in_the_mirror(rt: HostRuntime) -> Result<(), Fail> {
    let shape = Shape {
        blocks: 2,
        pages: 2,
        main_bytes: 2,
        spare_bytes: 1,
    };
    let inner = MemDie::of_cells(rt.alloc(), shape, [0u8; 12].to_vec(rt.alloc())?)?;
    let mirror = MemMirror::new([0u8; 44].to_vec(rt.alloc())?, Vec::new(rt.alloc()));
    let mut die = FileDie::new(inner, mirror);
    die.arm_cut(1, Torn::Mask(0xff));
    assert_eq!(rt; die.program(0, &[7, 7, 7]), Err(DieFault));
    assert!(rt; !die.powered());
    assert!(rt;
        die.mirror()
            .bytes()
            .ends_with(&[7, 0, 0, 0, 0, 0, 0, 0, 0, 0, 0, 0])
    );
    die.power_on();
    let mut row = [0; 3];
    assert_eq!(rt; die.read(0, &mut row), Ok(()));
    assert_eq!(rt; row, [7, 0, 0]);
    Ok(())
}
