//! Three writes of one unit of `ham16`, whose pages have three slots.

ghost use Rattle.std.specs.Prelude.{◌≡◌, ◌<◌, ◌≤◌};
ghost use Rattle.cell_die.specs.DieState.{page_count};
ghost use Rattle.page_codec.specs.Sizes.{Serves, ServesScheme};

use crate::writes::{write_first, write_second, write_third};
use cell_die::{Die, DieFault, Shape};
use hamming_seven::HammingSeven;
use mem_die::MemDie;
use page_codec::{Place, Work, get};
use std::test::Fail;
use striped::{Scheme, Striped};
use wom_code::Carry;

/// Two blocks of two pages, of 38 main bytes and three slots.
const SHAPE: Shape = Shape {
    blocks: 2,
    pages: 2,
    main_bytes: 38,
    spare_bytes: 48,
};

/// The sector of a record on page 0.
fn sector_at<D: Die, C: Scheme>(
    die: &mut D,
    scheme: &C,
    work: &mut Work,
    slot: u32,
) -> Result<[u8; 16], DieFault>
    requires die { Serves work.old (D.state die.old).shape }
    requires scheme { ServesScheme work.old (C.meaning scheme.now) }
    requires sector_bytes { work.old.sector_bytes ≡ 16 }
    requires span { work.old.span ≡ 1 }
    requires page { 1 ≤ page_count (D.state die.old).shape }
    ensures same_shape { (D.state die.new).shape ≡ (D.state die.old).shape }
    ensures same_work { work.new ≡ work.old }
{
    let mut sector = [0; 16];
    get(die, scheme, work, Place { page: 0, slot }, &mut sector)?;
    Ok(sector)
}

#[test]
fn a_unit_of_ham16_takes_a_second_and_a_third_write(rt: HostRuntime) -> Result<(), Fail> {
    let code = HammingSeven::new();
    let mut scheme = Striped::with_generations(rt.alloc(), code, HammingSeven::new(), 16, 3)?;
    let mut work = Work::new(rt.alloc(), 38, 1, 16, 3)?;
    let mut die = MemDie::blank(rt.alloc(), SHAPE)?;
    write_first(&rt, &mut die, &mut scheme, &mut work, 0, 1, &[0xa5; 16])?;
    let second = write_second(&rt, &mut die, &mut scheme, &mut work, 2, &[0x5a; 16])?;
    assert_eq!(rt; second, Carry::Carried);
    let sector = sector_at(&mut die, &scheme, &mut work, 1)?;
    assert_eq!(rt; sector, [0x5a; 16]);
    let third = write_third(&rt, &mut die, &mut scheme, &mut work, 3, &[0x3c; 16])?;
    assert_eq!(rt; third, Carry::Carried);
    let sector = sector_at(&mut die, &scheme, &mut work, 2)?;
    assert_eq!(rt; sector, [0x3c; 16]);
    Ok(())
}
