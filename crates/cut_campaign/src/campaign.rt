//! All scripts, all their cuts in six forms, and all their failed reads.

use crate::case::{cut, fail_read};
use crate::counts::Counts;
use crate::lines::{Case, Prefix, Size, script_count};
use crate::rig::Said;
use crate::stop::{Stop, Wrong};
use cell_die::Torn;
use std::alloc::Global;
use striped::Scheme;

/// The devices: two and three blocks, with and without a block more than the sectors need.
const SIZES: [Size; 5] = [
    Size {
        blocks: 2,
        pages: 2,
        sectors: 1,
        reuse_max: 1,
    },
    Size {
        blocks: 2,
        pages: 4,
        sectors: 2,
        reuse_max: 1,
    },
    Size {
        blocks: 3,
        pages: 2,
        sectors: 2,
        reuse_max: 2,
    },
    Size {
        blocks: 3,
        pages: 2,
        sectors: 3,
        reuse_max: 1,
    },
    Size {
        blocks: 3,
        pages: 3,
        sectors: 2,
        reuse_max: 3,
    },
];

/// The prefixes: none, a few lines, full blocks, collections, offered units, blocks that were recycled twice.
const PREFIXES: [Prefix; 14] = [
    Prefix::Hot(0),
    Prefix::Hot(2),
    Prefix::Hot(4),
    Prefix::Hot(7),
    Prefix::Hot(11),
    Prefix::Hot(16),
    Prefix::Hot(24),
    Prefix::Round(2),
    Prefix::Round(4),
    Prefix::Round(7),
    Prefix::Round(11),
    Prefix::Round(16),
    Prefix::Mixed(9),
    Prefix::Mixed(17),
];

/// The forms of a cut: no cell, all cells, each second one, all but one in 64, and about half of them.
const FORMS: [Torn; 6] = [
    Torn::Nothing,
    Torn::All,
    Torn::Mask(0x5555_5555_5555_5555),
    Torn::Mask(0xaaaa_aaaa_aaaa_aaaa),
    Torn::Mask(0xffff_ffff_ffff_fffd),
    Torn::Mask(0x9b1d_04f7_62e8_c35a),
];

/// More calls than a line of any of these scripts makes.
const MOST_CALLS: u32 = 100;

/// Which part of the scripts is run: those whose number is `shard` modulo `of`, of at most `lines` lines.
#[derive(Clone, Copy, Debug, PartialEq, Eq)]
pub struct Share {
    pub lines: u32,
    pub shard: u64,
    pub of: u64,
}

impl Share {
    /// Whether the script with this number is of the part.
    fn has(&self, number: u64) -> bool {
        self.of == 0 || number % self.of == self.shard
    }
}

/// All cuts of one form. Says what the last line does where nothing fails.
fn cuts_of_form<C: Scheme + Drop>(
    alloc: Global,
    scheme: C,
    case: &Case,
    form: Torn,
    counts: &mut Counts,
) -> Result<(C, Said), Stop> {
    let mut scheme = scheme;
    for n in 1..MOST_CALLS {
        let (back, said) = cut(alloc, scheme, case, n, form, counts)?;
        if said != Said::Fault {
            return Ok((back, said));
        }
        scheme = back;
    }
    Err(Stop::Differs(Wrong::Answer))
}

/// All failed reads.
fn failed_reads<C: Scheme + Drop>(
    alloc: Global,
    scheme: C,
    case: &Case,
    counts: &mut Counts,
) -> Result<C, Stop> {
    let mut scheme = scheme;
    for n in 1..MOST_CALLS {
        let (back, said) = fail_read(alloc, scheme, case, n, counts)?;
        if said != Said::Fault {
            return Ok(back);
        }
        scheme = back;
    }
    Err(Stop::Differs(Wrong::Answer))
}

/// One script.
fn script<C: Scheme + Drop>(
    alloc: Global,
    scheme: C,
    case: Case,
    counts: &mut Counts,
) -> Result<C, Stop> {
    counts.begin(case);
    let mut scheme = scheme;
    let mut does = Said::Mounted;
    for form in FORMS {
        let (back, said) = cuts_of_form(alloc, scheme, &case, form, counts)?;
        scheme = back;
        does = said;
    }
    counts.done(does);
    failed_reads(alloc, scheme, &case, counts)
}

/// All scripts of a length after a prefix.
fn scripts<C: Scheme + Drop>(
    alloc: Global,
    scheme: C,
    first: Case,
    share: Share,
    counts: &mut Counts,
) -> Result<C, Stop> {
    let mut scheme = scheme;
    for number in 0..script_count(first.size.sectors, first.length) {
        if share.has(number) {
            let case = Case { number, ..first };
            scheme = script(alloc, scheme, case, counts)?;
        }
    }
    Ok(scheme)
}

/// All scripts on a device.
fn on_size<C: Scheme + Drop>(
    alloc: Global,
    scheme: C,
    size: Size,
    share: Share,
    counts: &mut Counts,
) -> Result<C, Stop> {
    let mut scheme = scheme;
    for prefix in PREFIXES {
        for before in 0..share.lines {
            let first = Case {
                size,
                prefix,
                length: before.saturating_add(1),
                number: 0,
            };
            scheme = scripts(alloc, scheme, first, share, counts)?;
        }
    }
    Ok(scheme)
}

/// All scripts on all devices.
pub fn run<C: Scheme + Drop>(
    alloc: Global,
    scheme: C,
    share: Share,
    counts: &mut Counts,
) -> Result<(), Stop> {
    let mut scheme = scheme;
    for size in SIZES {
        scheme = on_size(alloc, scheme, size, share, counts)?;
    }
    Ok(())
}
