//! What a cut left of a collection: copies count from the seal on, all at once, and a block that was erased in part holds none.

use crate::found::{Found, SHAPE, found_on, sector};
use block_state::State;
use cell_die::{Die, PowerDie, Torn};
use mem_die::MemDie;
use std::test::Fail;

/// How far a collection of block 0 into block 1 came.
#[derive(Clone, Copy, Debug)]
enum Step {
    /// The copy stands there with its gate.
    Copied,
    /// The block of the copy is sealed.
    Sealed,
    /// The write of 33 for which the block was collected stands there too.
    Written,
}

/// Four pages of 56 bytes: block 0 has 11 and then 22 in the sector, and block 1 has what a collection made.
fn collected(step: Step) -> [u8; 224] {
    let mut cells = [0; 224];
    cells[0] = 0x82;
    cells[24..39].copy_from_slice(&[1, 0, 0, 0, 0, 1, 0, 0, 0, 0, 0, 0, 0, 1, 0x66]);
    cells[56] = 0x41;
    cells[80..95].copy_from_slice(&[1, 0, 0, 0, 0, 2, 0, 0, 0, 0, 0, 0, 0, 1, 0x66]);
    cells[112] = 0x41;
    cells[136..151].copy_from_slice(&[1, 0, 0, 0, 0, 3, 0, 0, 0, 0, 0, 0, 0, 2, 0x65]);
    match step {
        Step::Copied => {}
        Step::Sealed => cells[167] = 1,
        Step::Written => {
            cells[167] = 1;
            cells[168..170].copy_from_slice(&[0x04, 0x01]);
            cells[192..207].copy_from_slice(&[1, 0, 0, 0, 0, 4, 0, 0, 0, 0, 0, 0, 0, 1, 0x66]);
        }
    }
    cells
}

#[test]
fn a_half_done_collection_frees_its_spare_until_the_seal_and_then_its_victim(
    rt: HostRuntime,
) -> Result<(), Fail> {
    let used = State::Used { level: 0 };
    let spare = State::Spare { blank: false };
    for (step, blocks) in [(Step::Copied, [used, spare]), (Step::Sealed, [spare, used])] {
        let cells = Vec::from_slice(rt.alloc(), &collected(step))?;
        let mut die = MemDie::of_cells(rt.alloc(), SHAPE, cells)?;
        let found = found_on(&rt, rt.alloc(), &mut die)?;
        let want = Found {
            sector: sector(0x22),
            seq: 4,
            blocks,
        };
        assert_eq!(rt; found, want, "{step:?}");
    }
    Ok(())
}

#[test]
fn a_torn_erase_of_the_spare_leaves_the_live_record(rt: HostRuntime) -> Result<(), Fail> {
    let cells = Vec::from_slice(rt.alloc(), &collected(Step::Written))?;
    let mut die = MemDie::of_cells(rt.alloc(), SHAPE, cells)?;
    die.arm_cut(1, Torn::Mask(0x5555_5555_5555_5555));
    assert!(rt; die.erase(0).is_err());
    die.power_on();
    let found = found_on(&rt, rt.alloc(), &mut die)?;
    let want = Found {
        sector: sector(0x33),
        seq: 5,
        blocks: [State::Spare { blank: false }, State::Used { level: 0 }],
    };
    assert_eq!(rt; found, want);
    Ok(())
}
