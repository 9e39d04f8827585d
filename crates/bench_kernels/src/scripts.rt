//! Scripts of write lines of 16 random bytes.

use anyhow::{Result, bail};
use rand_core::SeedableRng;
use rand_core::utils::NextWord;
use rand_xoshiro::SplitMix64;
use rssd_script::parse;
use std::alloc::Global;

/// So many write lines, each of 32 digits.
fn write_lines(alloc: Global, lines: u32) -> Result<String> {
    let mut random = SplitMix64::seed_from_u64(1);
    let mut text = String::new(alloc);
    for sector in 0..lines {
        let high = random.next_word();
        let low = random.next_word();
        let line = format!(in alloc; "write {sector} {high:016x}{low:016x}\n")?;
        text.push_str(&line)?;
    }
    Ok(text)
}

/// The lines that the script of so many write lines gives, summed over the rounds.
pub fn parsed(alloc: Global, lines: u32, rounds: u32) -> Result<u64> {
    let text = write_lines(alloc, lines)?;
    let mut sum: u64 = 0;
    for _round in 0..rounds {
        match parse(alloc, text.as_bytes()) {
            Ok(lines) => sum = sum.wrapping_add(lines.len() as u64),
            Err(_) => bail!("no script"),
        }
    }
    Ok(sum)
}
