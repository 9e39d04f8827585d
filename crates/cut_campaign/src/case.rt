//! One cut, or one failed read, in the last line of a script.

use crate::counts::Counts;
use crate::lines::{Case, Line};
use crate::rig::{Rig, Said};
use crate::stop::{Stop, Wrong, ensure};
use cell_die::Torn;
use std::alloc::Global;
use striped::Scheme;

/// A device after all lines but the last.
fn before_last<C: Scheme + Drop>(alloc: Global, scheme: C, case: &Case) -> Result<Rig<C>, Stop> {
    let mut rig = Rig::start(alloc, scheme, case.size)?;
    for place in 0..case.front() {
        let (next, said) = rig.line(alloc, case.line(place))?;
        ensure(said != Said::Fault, Wrong::Answer)?;
        rig = next;
    }
    Ok(rig)
}

/// The mounts after a cut: with each of their reads failing, and with none, and then all sectors are read. Then the power is cut
/// again in the first change call of a write, and after one more mount a write is done.
fn after_cut<C: Scheme + Drop>(
    alloc: Global,
    rig: Rig<C>,
    case: &Case,
    form: Torn,
    counts: &mut Counts,
) -> Result<Rig<C>, Stop> {
    let mut rig = rig;
    let pages = case.size.blocks.saturating_mul(case.size.pages);
    for failing in 0..pages {
        rig = rig.mount(alloc, failing.saturating_add(1))?;
        rig.read_all()?;
    }
    rig.arm_cut(1, form);
    let mut rig = rig.mount(alloc, 0)?;
    rig.read_all()?;
    let (mut rig, said) = rig.line(alloc, Line::Write(0))?;
    ensure(said == Said::Fault, Wrong::Answer)?;
    rig.judge_power(true)?;
    let mut rig = rig.mount(alloc, 0)?;
    rig.read_all()?;
    let (mut rig, said) = rig.line(alloc, Line::Write(0))?;
    ensure(said != Said::Fault, Wrong::Answer)?;
    rig.read_all()?;
    counts.mounted(pages.saturating_mul(2).saturating_add(2));
    counts.cut_again();
    counts.read(case.size.sectors.saturating_mul(pages.saturating_add(3)));
    Ok(rig)
}

/// Cuts the `n`-th change call of the last line in this form. Says what became of the line: `Fault` where that call came.
pub fn cut<C: Scheme + Drop>(
    alloc: Global,
    scheme: C,
    case: &Case,
    n: u32,
    form: Torn,
    counts: &mut Counts,
) -> Result<(C, Said), Stop> {
    let mut rig = before_last(alloc, scheme, case)?;
    rig.arm_cut(n, form);
    let (mut rig, said) = rig.line(alloc, case.line(case.front()))?;
    if said != Said::Fault {
        return Ok((rig.close(), said));
    }
    counts.cut();
    rig.judge_power(true)?;
    let rig = after_cut(alloc, rig, case, form, counts)?;
    Ok((rig.close(), said))
}

/// The `n`-th read of the last line fails: every sector is as before, and the device goes on. Says what became of the line.
pub fn fail_read<C: Scheme + Drop>(
    alloc: Global,
    scheme: C,
    case: &Case,
    n: u32,
    counts: &mut Counts,
) -> Result<(C, Said), Stop> {
    let mut rig = before_last(alloc, scheme, case)?;
    let last = case.line(case.front());
    if last == Line::Mount {
        return Ok((rig.close(), Said::Mounted));
    }
    rig.fail_read(n);
    let (mut rig, said) = rig.line(alloc, last)?;
    if said != Said::Fault {
        return Ok((rig.close(), said));
    }
    counts.failed_read();
    rig.judge_power(false)?;
    rig.read_all()?;
    let mut rig = rig.mount(alloc, 0)?;
    rig.read_all()?;
    counts.mounted(1);
    counts.read(case.size.sectors.saturating_mul(2));
    Ok((rig.close(), said))
}
