//! A later write of a unit of two pages, cut at each of its three change calls. The first page is programmed last: the cut of
//! the first call leaves it as it was, and from the second call on the second page is whole.

ghost use Rattle.std.specs.Prelude.{◌≡◌, ◌<◌, ◌≤◌};
ghost use Rattle.cell_die.specs.DieState.{page_count, page_bytes};
ghost use Rattle.page_codec.specs.Sizes.{Serves, ServesScheme};

use crate::writes::{write_first, write_second};
use cell_die::{Die, DieFault, PowerDie, Shape, Torn};
use mem_die::MemDie;
use page_codec::Work;
use schemes::{cosets, flips};
use std::alloc::Global;
use std::process::Abort;
use std::test::Fail;
use striped::Scheme;
use wom_code::Carry;

/// Two blocks of two pages, of 18 main bytes and two slots.
const SHAPE: Shape = Shape {
    blocks: 2,
    pages: 2,
    main_bytes: 18,
    spare_bytes: 32,
};

/// The pages of a unit.
type Unit = [[u8; 50]; 2];

/// The unit of page 0.
fn read_unit<D: Die>(die: &mut D) -> Result<Unit, DieFault>
    requires bytes { page_bytes (D.state die.old).shape ≡ 50 }
    requires pages { 2 ≤ page_count (D.state die.old).shape }
    ensures same_shape { (D.state die.new).shape ≡ (D.state die.old).shape }
{
    let mut first = [0; 50];
    die.read(0, &mut first)?;
    let mut second = [0; 50];
    die.read(1, &mut second)?;
    Ok([first, second])
}

/// The unit of page 0 after a later write of it that is cut.
fn cut_over<D: PowerDie, C: Scheme>(
    rt: &impl Abort,
    die: &mut D,
    scheme: &mut C,
    work: &mut Work,
    n: u32,
    torn: Torn,
) -> Result<Unit, DieFault>
    requires die { Serves work.old (D.state die.old).shape }
    requires scheme { ServesScheme work.old (C.meaning scheme.old) }
    requires sector_bytes { work.old.sector_bytes ≡ 16 }
    requires generations { 2 ≤ work.old.generations }
    requires span { work.old.span ≡ 2 }
    requires bytes { page_bytes (D.state die.old).shape ≡ 50 }
    requires pages { 2 ≤ page_count (D.state die.old).shape }
    requires cut { 1 ≤ n }
{
    die.arm_cut(n, torn);
    assert!(rt; write_second(rt, die, scheme, work, 2, &[0x5a; 16]).is_err());
    die.power_on();
    read_unit(die)
}

/// The unit of page 0 of a blank die after a first write of it, and then after a later one that is cut.
fn write_and_cut<D: PowerDie, C: Scheme>(
    rt: &impl Abort,
    die: &mut D,
    scheme: &mut C,
    work: &mut Work,
    n: u32,
    torn: Torn,
) -> Result<(Unit, Unit), DieFault>
    requires die { Serves work.old (D.state die.old).shape }
    requires scheme { ServesScheme work.old (C.meaning scheme.old) }
    requires sector_bytes { work.old.sector_bytes ≡ 16 }
    requires generations { 2 ≤ work.old.generations }
    requires span { work.old.span ≡ 2 }
    requires bytes { page_bytes (D.state die.old).shape ≡ 50 }
    requires pages { 2 ≤ page_count (D.state die.old).shape }
    requires cut { 1 ≤ n }
{
    write_first(rt, die, scheme, work, 0, 1, &[0xa5; 16])?;
    let before = read_unit(die)?;
    Ok((before, cut_over(rt, die, scheme, work, n, torn)?))
}

/// The same on a new die.
fn before_and_after<C: Scheme>(
    rt: &impl Abort,
    alloc: Global,
    scheme: &mut C,
    n: u32,
    torn: Torn,
) -> Result<(Unit, Unit), Fail>
    requires { 1 ≤ n }
{
    assert!(rt; scheme.sector_bytes() == 16 && scheme.page_bytes() == 18);
    assert!(rt; scheme.span() == 2 && scheme.generations() == 2);
    let mut work = Work::new(alloc, 18, 2, 16, 2)?;
    let mut die = MemDie::blank(alloc, SHAPE)?;
    Ok(write_and_cut(rt, &mut die, scheme, &mut work, n, torn)?)
}

/// The main bytes that a second page has after a first write of the unit and a later one.
fn second_main<C: Scheme>(rt: &impl Abort, scheme: &mut C) -> [u8; 18] {
    assert!(rt; scheme.sector_bytes() == 16 && scheme.page_bytes() == 18 && scheme.span() == 2);
    let mut unit = [0; 36];
    scheme.first(&[0xa5; 16], &mut unit[..18]);
    assert_eq!(rt; scheme.over(&mut unit, &[0x5a; 16]), Carry::Carried);
    let mut second = [0; 18];
    second.copy_from_slice(&unit[18..]);
    second
}

/// Cuts a later write at each of its change calls, in forms that reach no cell, all, and one half of them or the other.
fn cut_each<C: Scheme>(rt: &impl Abort, alloc: Global, scheme: &mut C) -> Result<(), Fail> {
    let whole = second_main(rt, scheme);
    for torn in [
        Torn::Nothing,
        Torn::All,
        Torn::Mask(0x5555_5555_5555_5555),
        Torn::Mask(0xaaaa_aaaa_aaaa_aaaa),
    ] {
        for n in 1..=3 {
            let (before, after) = before_and_after(rt, alloc, scheme, n, torn)?;
            if n == 1 {
                assert_eq!(rt; after[0], before[0], "at {n} {torn:?}");
            } else {
                assert_eq!(rt; &after[1][..18], whole.as_slice(), "at {n} {torn:?}");
            }
        }
    }
    Ok(())
}

#[test]
fn a_cut_unit_of_two_pages_has_its_first_page_as_it_was_or_its_second_whole(
    rt: HostRuntime,
) -> Result<(), Fail> {
    cut_each(&rt, rt.alloc(), &mut cosets(rt.alloc(), 16)?)?;
    cut_each(&rt, rt.alloc(), &mut flips(rt.alloc(), 16)?)
}
