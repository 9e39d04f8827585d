//! Whole rows of cells. A byte is written before each round, so that no round can stand for another.

ghost use Rattle.std.specs.Prelude.{◌≡◌, ◌≤◌, length, vec_len, IfOk};

use anyhow::{Result, ensure};
use cell_bits::{charged as charged_cells, is_above, is_blank};
use rand_core::SeedableRng;
use rand_core::utils::NextWord;
use rand_xoshiro::SplitMix64;
use std::alloc::{AllocError, Global};

/// A row of so many random bytes.
fn random_row(alloc: Global, bytes: u32) -> Result<Vec<u8>, AllocError>
    ensures { IfOk result (λ row. vec_len row ≡ bytes) }
{
    let mut random = SplitMix64::seed_from_u64(1);
    let mut row = vec![in alloc; 0; bytes as usize]?;
    for byte in row.iter_mut() {
        *byte = (random.next_word() % 256) as u8;
    }
    Ok(row)
}

fn above_rounds(new: &mut [u8], old: &[u8], rounds: u32) -> u64
    requires same { length new.old ≡ length old.now }
    requires some { 1 ≤ length old.now }
{
    let mut sum: u64 = 0;
    for round in 0..rounds {
        let at = round as usize % old.len();
        new[at] = old[at] | 1;
        sum = sum.wrapping_add(is_above(new, old) as u64);
    }
    sum
}

/// How often a row is above another.
pub fn above(alloc: Global, bytes: u32, rounds: u32) -> Result<u64> {
    ensure!(bytes >= 1, "no bytes");
    let old = random_row(alloc, bytes)?;
    let mut new = random_row(alloc, bytes)?;
    Ok(above_rounds(&mut new, &old, rounds))
}

fn blank_rounds(row: &mut [u8], rounds: u32) -> u64
    requires some { 1 ≤ length row.old }
{
    let mut sum: u64 = 0;
    for round in 0..rounds {
        let at = round as usize % row.len();
        row[at] = (round % 3 / 2) as u8;
        sum = sum.wrapping_add(is_blank(row) as u64);
        row[at] = 0;
    }
    sum
}

/// How often a row is blank where one byte in three rounds is not.
pub fn blank(alloc: Global, bytes: u32, rounds: u32) -> Result<u64> {
    ensure!(bytes >= 1, "no bytes");
    let mut row = vec![in alloc; 0; bytes as usize]?;
    Ok(blank_rounds(&mut row, rounds))
}

fn charged_rounds(row: &mut [u8], rounds: u32) -> u64
    requires some { 1 ≤ length row.old }
    requires few { length row.old ≤ 1_048_576 }
{
    let mut sum: u64 = 0;
    for round in 0..rounds {
        let at = round as usize % row.len();
        row[at] = row[at].wrapping_add(1);
        sum = sum.wrapping_add(charged_cells(row));
    }
    sum
}

/// The charged cells of a row, summed over the rounds.
pub fn charged(alloc: Global, bytes: u32, rounds: u32) -> Result<u64> {
    ensure!(bytes >= 1, "no bytes");
    ensure!(bytes <= 1_048_576, "too many bytes");
    let mut row = random_row(alloc, bytes)?;
    Ok(charged_rounds(&mut row, rounds))
}
