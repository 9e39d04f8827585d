//! Runs one kernel so often and prints one line, its checksum: `bench_kernels above 65536 20000` goes
//! over two rows of 65,536 bytes 20,000 times, and `bench_kernels second rs512 1000` writes 64 units of that
//! scheme a second time, 1,000 times. Times are taken outside, as the difference between two numbers of
//! rounds, so what is made before the rounds does not count.
#![tactic(auto)]

mod cosets;
mod rows;
mod scripts;
mod sectors;

use crate::sectors::{Work, scheme_rounds};
use anyhow::{Context, Result, bail};
use std::env;

/// The checksum of so many rounds of a kernel over rows, chunks or lines of a size, or over the sectors of a scheme.
fn checksum(rt: &HostRuntime, kernel: &str, of: &str, rounds: u32) -> Result<u64> {
    match kernel {
        "first" => return scheme_rounds(rt.alloc(), of, Work::First, rounds),
        "second" => return scheme_rounds(rt.alloc(), of, Work::Over, rounds),
        "read" => return scheme_rounds(rt.alloc(), of, Work::Read, rounds),
        _ => {}
    }
    let size = of.parse::<u32>()?;
    match kernel {
        "above" => rows::above(rt.alloc(), size, rounds),
        "blank" => rows::blank(rt.alloc(), size, rounds),
        "charged" => rows::charged(rt.alloc(), size, rounds),
        "cells" => cosets::cells(rt.alloc(), size, rounds),
        "over" => cosets::over(rt.alloc(), size, rounds),
        "decode" => cosets::decode(rt.alloc(), size, rounds),
        "parse" => scripts::parsed(rt.alloc(), size, rounds),
        _ => bail!("no kernel {kernel}"),
    }
}

fn main(rt: HostRuntime) -> Result<()> {
    let mut words = env::args(&rt)?.skip(1);
    let kernel = words.next().context("no kernel")?;
    let of = words.next().context("no size or scheme")?;
    let rounds = words.next().context("no rounds")?.parse::<u32>()?;
    let sum = checksum(&rt, &kernel, &of, rounds)?;
    println!(rt; "{kernel} {sum}")?;
    Ok(())
}
