use super::*;
use std::process::Abort;
use std::test::Fail;

/// Two blocks of two pages of nine bytes: cells 64 to 71 of a page are those of a mask's bits 0 to 7 again.
const SHAPE: Shape = Shape {
    blocks: 2,
    pages: 2,
    main_bytes: 8,
    spare_bytes: 1,
};

/// The cells of page 0.
fn first_page(rt: &impl Abort, die: &MemDie) -> [u8; 9] {
    let mut page = [0; 9];
    assert!(rt; die.cells().len() >= 9);
    page.copy_from_slice(&die.cells()[..9]);
    page
}

#[test]
#[tactic(auto, using(cell_die::proofs::CellLaws::above_blank))]
fn a_cut_program_charges_the_cells_of_its_form(rt: HostRuntime) -> Result<(), Fail> {
    for (torn, want) in [
        (Torn::Nothing, [0; 9]),
        (Torn::All, [0xff; 9]),
        (Torn::Mask(1 << 3), [8, 0, 0, 0, 0, 0, 0, 0, 8]),
        (Torn::Mask(1 << 63), [0, 0, 0, 0, 0, 0, 0, 128, 0]),
    ] {
        let mut die = MemDie::blank(rt.alloc(), SHAPE)?;
        die.arm_cut(1, torn);
        assert_eq!(rt; die.program(0, &[0xff; 9]), Err(DieFault));
        assert_eq!(rt; first_page(&rt, &die), want, "{torn:?}");
        assert_eq!(rt; (die.powered(), die.faults()), (false, 1));
    }
    Ok(())
}

#[test]
fn a_cut_charge_charges_its_cell_where_the_form_reaches_it(rt: HostRuntime) -> Result<(), Fail> {
    for (torn, want) in [
        (Torn::Nothing, 0),
        (Torn::All, 2),
        (Torn::Mask(1 << 1), 2),
        (Torn::Mask(!(1 << 1)), 0),
    ] {
        let mut die = MemDie::blank(rt.alloc(), SHAPE)?;
        die.arm_cut(1, torn);
        assert_eq!(rt; die.charge(0, 65), Err(DieFault));
        assert_eq!(rt;
            first_page(&rt, &die),
            [0, 0, 0, 0, 0, 0, 0, 0, want],
            "{torn:?}"
        );
        assert!(rt; !die.powered());
    }
    Ok(())
}

#[test]
#[tactic(auto, using(cell_die::proofs::CellLaws::above_blank))]
fn a_cut_erase_uncharges_the_cells_of_its_form_and_is_counted(rt: HostRuntime) -> Result<(), Fail> {
    for (torn, want, erased) in [
        (Torn::Nothing, [0xff; 9], 0),
        (Torn::All, [0; 9], 1),
        (
            Torn::Mask(1 << 3),
            [0xf7, 255, 255, 255, 255, 255, 255, 255, 0xf7],
            1,
        ),
    ] {
        let mut die = MemDie::blank(rt.alloc(), SHAPE)?;
        assert_eq!(rt; die.program(0, &[0xff; 9]), Ok(()));
        die.arm_cut(1, torn);
        assert_eq!(rt; die.erase(0), Err(DieFault));
        assert_eq!(rt; first_page(&rt, &die), want, "{torn:?}");
        assert_eq!(rt;
            (die.erased(), die.erases(0), die.powered()),
            (erased, erased, false)
        );
    }
    Ok(())
}

#[test]
fn an_armed_cut_stays_armed_over_power_on_and_a_later_one_replaces_it(
    rt: HostRuntime,
) -> Result<(), Fail> {
    let mut die = MemDie::blank(rt.alloc(), SHAPE)?;
    die.arm_cut(9, Torn::Nothing);
    die.arm_cut(2, Torn::All);
    die.power_on();
    assert_eq!(rt; die.charge(0, 0), Ok(()));
    assert_eq!(rt; die.charge(0, 1), Err(DieFault));
    assert_eq!(rt; die.charge(0, 2), Err(DieFault));
    die.power_on();
    assert_eq!(rt; die.charge(0, 2), Ok(()));
    assert_eq!(rt; first_page(&rt, &die), [7, 0, 0, 0, 0, 0, 0, 0, 0]);
    assert_eq!(rt; die.faults(), 2);
    Ok(())
}

#[test]
fn a_failed_read_leaves_the_power_on(rt: HostRuntime) -> Result<(), Fail> {
    let mut die = MemDie::blank(rt.alloc(), SHAPE)?;
    let mut page = [1; 9];
    die.fail_read(2);
    assert_eq!(rt; die.read(3, &mut page), Ok(()));
    assert_eq!(rt; page, [0; 9]);
    assert_eq!(rt; die.read(3, &mut page), Err(DieFault));
    assert_eq!(rt; (die.powered(), die.read(3, &mut page)), (true, Ok(())));
    Ok(())
}

#[test]
fn a_shape_is_refused_outside_the_limits(rt: HostRuntime) -> Result<(), Fail> {
    for (blocks, pages, main_bytes, spare_bytes) in [
        (0, 2, 8, 1),
        (1025, 2, 8, 1),
        (2, 129, 8, 1),
        (2, 2, 1201, 1),
        (2, 2, 8, 65),
        (1024, 128, 500, 13),
    ] {
        let shape = Shape {
            blocks,
            pages,
            main_bytes,
            spare_bytes,
        };
        assert_eq!(rt;
            MemDie::blank(rt.alloc(), shape).err(),
            Some(DieRefusal::Shape),
            "{shape:?}"
        );
    }
    let short = vec![in rt.alloc(); 0; 35]?;
    assert_eq!(rt;
        MemDie::of_cells(rt.alloc(), SHAPE, short).err(),
        Some(DieRefusal::Shape)
    );
    Ok(())
}

fn erase_whole(rt: &impl Abort, die: &mut MemDie, block: u32) {
    let shape = die.shape();
    assert!(rt; block < shape.blocks);
    assert_eq!(rt; die.erase(block), Ok(()));
}

#[test]
fn a_die_of_64_mebibytes_is_made_and_erased(rt: HostRuntime) -> Result<(), Fail> {
    let shape = Shape {
        blocks: 1024,
        pages: 128,
        main_bytes: 448,
        spare_bytes: 64,
    };
    let bytes = vec![in rt.alloc(); 0xff; 67_108_864]?;
    let mut die = MemDie::of_cells(rt.alloc(), shape, bytes)?;
    for block in 0..1024 {
        erase_whole(&rt, &mut die, block);
    }
    assert_eq!(rt; die.erased(), 1024);
    assert!(rt; die.cells().iter().all(|byte| *byte == 0));
    Ok(())
}
