//! Each put cut at each of its change calls. A record counts from its gate on: a cut at the program leaves what was live, and
//! a cut at the gate leaves the new record exactly where its form reaches the gate's cell.

ghost use Rattle.std.specs.Prelude.{◌≡◌, ◌<◌, ◌≤◌};
ghost use Rattle.cell_die.specs.DieState.{page_count};
ghost use Rattle.page_codec.specs.Sizes.{Serves, ServesScheme};

use crate::live::live_sector;
use crate::writes::{write_first, write_second, write_zeros};
use cell_die::{Die, DieFault, PowerDie, Shape, Torn};
use mem_die::MemDie;
use page_codec::Work;
use rivest_shamir::RivestShamir;
use std::alloc::Global;
use std::process::Abort;
use std::test::Fail;
use striped::{Scheme, Striped};

/// Two blocks of two pages, of 24 main bytes and two slots.
const SHAPE: Shape = Shape {
    blocks: 2,
    pages: 2,
    main_bytes: 24,
    spare_bytes: 32,
};

/// The put that is cut.
#[derive(Clone, Copy, Debug)]
enum Put {
    First,
    Zeros,
    Second,
}

/// Whether the third record of the sector fails: it goes to page 2 by a first write or as zeros, and over the unit of page 0
/// by a second write.
fn third_fails<D: Die, C: Scheme>(
    rt: &impl Abort,
    die: &mut D,
    scheme: &mut C,
    work: &mut Work,
    put: Put,
) -> bool
    requires die { Serves work.old (D.state die.old).shape }
    requires scheme { ServesScheme work.old (C.meaning scheme.old) }
    requires sector_bytes { work.old.sector_bytes ≡ 16 }
    requires generations { 2 ≤ work.old.generations }
    requires span { work.old.span ≡ 1 }
    requires pages { 3 ≤ page_count (D.state die.old).shape }
    ensures same_shape { (D.state die.new).shape ≡ (D.state die.old).shape }
    ensures same_scheme { C.meaning scheme.new ≡ C.meaning scheme.old }
    ensures same_work { work.new ≡ work.old }
{
    match put {
        Put::First => write_first(rt, die, scheme, work, 2, 3, &[0x5a; 16]).is_err(),
        Put::Zeros => write_zeros(rt, die, work, 2, 3).is_err(),
        Put::Second => write_second(rt, die, scheme, work, 3, &[0x5a; 16]).is_err(),
    }
}

/// What is live after the third record of the sector is cut.
fn cut_third<D: PowerDie, C: Scheme>(
    rt: &impl Abort,
    die: &mut D,
    scheme: &mut C,
    work: &mut Work,
    put: Put,
    n: u32,
    torn: Torn,
) -> Result<[u8; 16], DieFault>
    requires die { Serves work.old (D.state die.old).shape }
    requires scheme { ServesScheme work.old (C.meaning scheme.old) }
    requires sector_bytes { work.old.sector_bytes ≡ 16 }
    requires generations { 2 ≤ work.old.generations }
    requires span { work.old.span ≡ 1 }
    requires pages { 3 ≤ page_count (D.state die.old).shape }
    requires cut { 1 ≤ n }
{
    die.arm_cut(n, torn);
    assert!(rt; third_fails(rt, die, scheme, work, put));
    die.power_on();
    live_sector(die, scheme, work)
}

/// What is live after the third record of a new die's sector is cut, where the second one says a5.
fn after_cut(rt: &impl Abort, alloc: Global, put: Put, n: u32, torn: Torn) -> Result<[u8; 16], Fail>
    requires { 1 ≤ n }
{
    let mut scheme = Striped::new(alloc, RivestShamir::new(), RivestShamir::new(), 16)?;
    let mut work = Work::new(alloc, 24, 1, 16, 2)?;
    let mut die = MemDie::blank(alloc, SHAPE)?;
    write_first(rt, &mut die, &mut scheme, &mut work, 0, 1, &[0x11; 16])?;
    write_first(rt, &mut die, &mut scheme, &mut work, 1, 2, &[0xa5; 16])?;
    Ok(cut_third(rt, &mut die, &mut scheme, &mut work, put, n, torn)?)
}

#[test]
fn a_cut_put_counts_exactly_where_its_gate_is_charged(rt: HostRuntime) -> Result<(), Fail> {
    for (n, torn, is_there) in [
        (1, Torn::Nothing, false),
        (1, Torn::All, false),
        (1, Torn::Mask(0x5555_5555_5555_5555), false),
        (2, Torn::Nothing, false),
        (2, Torn::All, true),
        (2, Torn::Mask(0x5555_5555_5555_5555), true),
        (2, Torn::Mask(0xaaaa_aaaa_aaaa_aaaa), false),
    ] {
        for (put, new) in [(Put::First, 0x5a), (Put::Zeros, 0), (Put::Second, 0x5a)] {
            let live = after_cut(&rt, rt.alloc(), put, n, torn)?;
            let want = if is_there { new } else { 0xa5 };
            assert_eq!(rt; live, [want; 16], "{put:?} at {n} {torn:?}");
        }
    }
    Ok(())
}
