//! Every cut: all scripts of a few lines after prefixes that bring small dies into each state, each change call of their last
//! line cut in six forms, each read of it failing, and then mounts of which each read fails once, and all sectors read. A plain
//! array with power cuts judges the replies; it was written from the words of the promise, and knows nothing of the device.
//!
//! The words are `SCHEME LINES SHARD OF`: the scripts of at most LINES lines whose number is SHARD modulo OF, on the scheme, or
//! on all nine where it is `all`.
#![tactic(auto)]

mod by_scheme;
mod campaign;
mod case;
mod charge;
mod counts;
mod lines;
mod rig;
mod rows;
mod sectors;
mod stop;

use crate::by_scheme::{NAMES, run_named};
use crate::campaign::Share;
use crate::counts::Counts;
use crate::stop::Stop;
use anyhow::{Context, Result, bail};
use std::env;

/// Runs the campaign on a scheme, and prints a line of what it counted.
fn run_and_print(rt: &HostRuntime, name: &str, share: Share) -> Result<()> {
    let mut counts = Counts::new();
    let ran = run_named(rt.alloc(), name, share, &mut counts).context("no such scheme")?;
    println!(rt;
        "{name}: {} scripts, {} cuts, {} cut again, {} failed reads, {} mounts, {} sectors read; first {} second {} declined {} collected {} others {}",
        counts.scripts,
        counts.cuts,
        counts.again,
        counts.failed_reads,
        counts.mounts,
        counts.rows,
        counts.first,
        counts.second,
        counts.declined,
        counts.collected,
        counts.others
    )?;
    match ran {
        Ok(()) => Ok(()),
        Err(Stop::OutOfMemory) => bail!("no memory"),
        Err(Stop::Differs(wrong)) => {
            println!(rt;
                "{name}: {wrong:?} differs after {} cuts: {:?}",
                counts.cuts, counts.now
            )?;
            bail!("a difference")
        }
    }
}

fn main(rt: HostRuntime) -> Result<()> {
    let mut words = env::args(&rt)?.skip(1);
    let scheme = words.next().context("no scheme")?;
    let share = Share {
        lines: words.next().context("no number of lines")?.parse::<u32>()?,
        shard: words.next().context("no shard")?.parse::<u64>()?,
        of: words.next().context("no number of shards")?.parse::<u64>()?,
    };
    if scheme.as_str() != "all" {
        return run_and_print(&rt, scheme.as_str(), share);
    }
    for name in NAMES {
        run_and_print(&rt, name, share)?;
    }
    Ok(())
}
