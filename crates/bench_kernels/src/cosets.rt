//! Chunks of `Coset<128, 288>` over fresh random cells, one in three of them charged. A row that comes
//! again would teach the branch predictor; `cells` makes the rows alone, so that their time can be
//! taken off.

ghost use Rattle.std.specs.Prelude.{◌≡◌, ◌≤◌, length};
ghost use Rattle.wom_code.specs.Packed.{IsRow, words_for};

use anyhow::{Result, bail, ensure};
use coset_code::{Columns, Coset};
use rand_core::SeedableRng;
use rand_core::utils::NextWord;
use rand_xoshiro::SplitMix64;
use std::alloc::Global;
use wom_code::{Carry, PackedCode, pack};

/// The code of the units of two pages, over the columns of seed 1.
fn unit_code(alloc: Global) -> Result<Coset<128, 288>> {
    match Coset::new(alloc, Columns::new(alloc, 1, 288)?) {
        Ok(code) => Ok(code),
        Err(_) => bail!("no code"),
    }
}

/// Makes the cells of a row random, one in `one_in` of them charged.
fn charge_at_random(random: &mut SplitMix64, one_in: u64, cells: &mut [bool], row: &mut [u64])
    requires some { 1 ≤ one_in }
    requires row { length row.old ≡ words_for (length cells.old) }
    ensures { IsRow (length cells.old) row.new }
{
    let limit = u64::MAX / one_in;
    for cell in cells.iter_mut() {
        *cell = random.next_word() < limit;
    }
    pack(cells, row);
}

fn cells_rounds(one_in: u64, cells: &mut [bool], row: &mut [u64], rounds: u32) -> u64
    requires some { 1 ≤ one_in }
    requires cells { length cells.old ≡ 288 }
    requires row { length row.old ≡ 5 }
{
    let mut random = SplitMix64::seed_from_u64(1);
    let mut sum: u64 = 0;
    for _round in 0..rounds {
        charge_at_random(&mut random, one_in, cells, row);
        sum = sum.wrapping_add(row[0]);
    }
    sum
}

/// The first words of so many random rows, summed.
pub fn cells(alloc: Global, one_in: u32, rounds: u32) -> Result<u64> {
    ensure!(one_in >= 1, "one cell in none");
    let mut cells = vec![in alloc; false; 288]?;
    let mut row = vec![in alloc; 0; 5]?;
    Ok(cells_rounds(one_in as u64, &mut cells, &mut row, rounds))
}

fn over_rounds(
    code: &mut Coset<128, 288>,
    one_in: u64,
    cells: &mut [bool],
    row: &mut [u64],
    message: &[u64],
    out: &mut [u64],
    rounds: u32,
) -> u64
    requires some { 1 ≤ one_in }
    requires cells { length cells.old ≡ 288 }
    requires row { length row.old ≡ 5 }
    requires message { IsRow 128 message.now }
    requires out { length out.old ≡ 5 }
{
    let mut random = SplitMix64::seed_from_u64(1);
    let mut sum: u64 = 0;
    for _round in 0..rounds {
        charge_at_random(&mut random, one_in, cells, row);
        if let Carry::Carried = code.over_words(row, message, out) {
            sum = sum.wrapping_add(out[0]);
        }
    }
    sum
}

/// The first words of the rows that carry one message over random cells, summed.
pub fn over(alloc: Global, one_in: u32, rounds: u32) -> Result<u64> {
    ensure!(one_in >= 1, "one cell in none");
    let mut code = unit_code(alloc)?;
    let mut bits = vec![in alloc; false; 128]?;
    let mut message = vec![in alloc; 0; 2]?;
    charge_at_random(
        &mut SplitMix64::seed_from_u64(2),
        2,
        &mut bits,
        &mut message,
    );
    let mut cells = vec![in alloc; false; 288]?;
    let mut row = vec![in alloc; 0; 5]?;
    let mut out = vec![in alloc; 0; 5]?;
    Ok(over_rounds(
        &mut code,
        one_in as u64,
        &mut cells,
        &mut row,
        &message,
        &mut out,
        rounds,
    ))
}

fn decode_rounds(
    code: &Coset<128, 288>,
    one_in: u64,
    cells: &mut [bool],
    row: &mut [u64],
    message: &mut [u64],
    rounds: u32,
) -> u64
    requires some { 1 ≤ one_in }
    requires cells { length cells.old ≡ 288 }
    requires row { length row.old ≡ 5 }
    requires message { length message.old ≡ 2 }
{
    let mut random = SplitMix64::seed_from_u64(1);
    let mut sum: u64 = 0;
    for _round in 0..rounds {
        charge_at_random(&mut random, one_in, cells, row);
        code.decode_words(row, message);
        sum = sum.wrapping_add(message[0]);
    }
    sum
}

/// The first words of the messages of random cells, summed.
pub fn decode(alloc: Global, one_in: u32, rounds: u32) -> Result<u64> {
    ensure!(one_in >= 1, "one cell in none");
    let code = unit_code(alloc)?;
    let mut cells = vec![in alloc; false; 288]?;
    let mut row = vec![in alloc; 0; 5]?;
    let mut message = vec![in alloc; 0; 2]?;
    Ok(decode_rounds(
        &code,
        one_in as u64,
        &mut cells,
        &mut row,
        &mut message,
        rounds,
    ))
}
