//! Sectors of 512 bytes in a scheme: 64 random sectors, and 64 units whose pages have first writes of random sectors. A round
//! goes once over all of them.

ghost use Rattle.std.specs.Prelude.{◌≡◌, ◌≤◌, ◌*◌, length, vec_len, IfOk};

use anyhow::{Result, bail, ensure};
use coset_code::{Columns, Coset};
use hamming_seven::HammingSeven;
use rand_core::SeedableRng;
use rand_core::utils::NextWord;
use rand_xoshiro::SplitMix64;
use rivest_shamir::RivestShamir;
use std::alloc::{AllocError, Global};
use striped::{Scheme, Striped};
use wom_code::{Carry, Flip, Plain};

/// How many sectors and how many units.
const COUNT: usize = 64;

/// The bytes of a sector.
const SECTOR_BYTES: usize = 512;

/// What is done with each of them.
#[derive(Clone, Copy)]
pub enum Work {
    First,
    Over,
    Read,
}

/// So many random bytes.
fn fill_at_random(random: &mut SplitMix64, row: &mut [u8]) {
    for byte in row.iter_mut() {
        *byte = (random.next_word() % 256) as u8;
    }
}

/// Sixty-four random sectors.
fn random_sectors(alloc: Global, random: &mut SplitMix64) -> Result<Vec<u8>, AllocError> {
    let mut sectors = vec![in alloc; 0; COUNT * SECTOR_BYTES]?;
    fill_at_random(random, &mut sectors);
    Ok(sectors)
}

/// Sixty-four units, each page of them with the first write of a random sector.
fn written_units<C: Scheme>(
    alloc: Global,
    random: &mut SplitMix64,
    scheme: &mut C,
) -> Result<Vec<u8>, AllocError>
    requires sector { (C.meaning scheme.old).sector_bytes ≡ 512 }
    requires page { 1 ≤ (C.meaning scheme.old).page_bytes }
    requires small_page { (C.meaning scheme.old).page_bytes ≤ 2_048 }
    requires span { (C.meaning scheme.old).span ≤ 2 }
    ensures { C.meaning scheme.new ≡ C.meaning scheme.old }
{
    let page_bytes = scheme.page_bytes() as usize;
    let mut sector = [0; SECTOR_BYTES];
    let mut units = vec![in alloc; 0; COUNT * scheme.span() as usize * page_bytes]?;
    for page in units.chunks_exact_mut(page_bytes) {
        fill_at_random(random, &mut sector);
        scheme.first(&sector, page);
    }
    Ok(units)
}

fn first_rounds<C: Scheme>(scheme: &mut C, sectors: &[u8], page: &mut [u8], rounds: u32) -> u64
    requires sector { (C.meaning scheme.old).sector_bytes ≡ 512 }
    requires page { length page.old ≡ (C.meaning scheme.old).page_bytes }
    requires some_page { 1 ≤ length page.old }
{
    let mut sum: u64 = 0;
    for round in 0..rounds {
        for sector in sectors.chunks_exact(SECTOR_BYTES) {
            scheme.first(sector, page);
            sum = sum.wrapping_add(page[round as usize % page.len()] as u64);
        }
    }
    sum
}

fn over_rounds<C: Scheme>(
    scheme: &mut C,
    sectors: &[u8],
    units: &[u8],
    unit: &mut [u8],
    rounds: u32,
) -> u64
    requires sector { (C.meaning scheme.old).sector_bytes ≡ 512 }
    requires unit { length unit.old ≡ (C.meaning scheme.old).span * (C.meaning scheme.old).page_bytes }
    requires some_unit { 1 ≤ length unit.old }
{
    let mut sum: u64 = 0;
    for round in 0..rounds {
        let sectors = sectors.chunks_exact(SECTOR_BYTES);
        for (sector, old) in sectors.zip(units.chunks_exact(unit.len())) {
            unit.copy_from_slice(old);
            if let Carry::Carried = scheme.over(unit, sector) {
                sum = sum.wrapping_add(unit[round as usize % unit.len()] as u64);
            }
        }
    }
    sum
}

fn read_rounds<C: Scheme>(
    scheme: &C,
    units: &[u8],
    unit_bytes: usize,
    page_bytes: usize,
    rounds: u32,
) -> u64
    requires sector { (C.meaning scheme.now).sector_bytes ≡ 512 }
    requires page { page_bytes ≡ (C.meaning scheme.now).page_bytes }
    requires some_page { 1 ≤ page_bytes }
    requires unit { page_bytes ≤ unit_bytes }
{
    let mut sector = [0; SECTOR_BYTES];
    let mut sum: u64 = 0;
    for round in 0..rounds {
        for unit in units.chunks_exact(unit_bytes) {
            if let Some(page) = unit.get(..page_bytes) {
                scheme.read_first(page, &mut sector);
            }
            sum = sum.wrapping_add(sector[round as usize % SECTOR_BYTES] as u64);
        }
    }
    sum
}

/// A byte of each page, unit or sector that the rounds make, summed.
fn rounds_of<C: Scheme + Drop>(
    alloc: Global,
    mut scheme: C,
    work: Work,
    rounds: u32,
) -> Result<u64> {
    let page_bytes = scheme.page_bytes() as usize;
    let span = scheme.span() as usize;
    ensure!(scheme.sector_bytes() == 512, "512 bytes");
    ensure!(page_bytes >= 1 && page_bytes <= 2_048, "no page");
    ensure!(span >= 1 && span <= 2, "no unit");
    let mut random = SplitMix64::seed_from_u64(7);
    let sectors = random_sectors(alloc, &mut random)?;
    let units = written_units(alloc, &mut random, &mut scheme)?;
    let mut unit = vec![in alloc; 0; span * page_bytes]?;
    Ok(match work {
        Work::First => first_rounds(&mut scheme, &sectors, &mut unit[..page_bytes], rounds),
        Work::Over => over_rounds(&mut scheme, &sectors, &units, &mut unit, rounds),
        Work::Read => read_rounds(&scheme, &units, span * page_bytes, page_bytes, rounds),
    })
}

/// The code of the units of two pages, over the columns of seed 1.
fn unit_code(alloc: Global) -> Result<Coset<128, 288>> {
    match Coset::new(alloc, Columns::new(alloc, 1, 288)?) {
        Ok(code) => Ok(code),
        Err(_) => bail!("no code"),
    }
}

/// The rounds of one scheme of 512 bytes.
pub fn scheme_rounds(alloc: Global, name: &str, work: Work, rounds: u32) -> Result<u64> {
    match name {
        "rs512" => {
            let code = RivestShamir::new();
            let scheme: Striped<_, _, 2, 3, 3> = Striped::new(alloc, code, code, 512)?;
            rounds_of(alloc, scheme, work, rounds)
        }
        "ham512" => {
            let code = HammingSeven::new();
            let scheme: Striped<_, _, 3, 7, 7> = Striped::with_generations(
                alloc, code, code, 512, 3,
            )?;
            rounds_of(alloc, scheme, work, rounds)
        }
        "coset512" => {
            let first: Plain<128, 144> = Plain::new();
            let scheme: Striped<_, _, 128, 144, 288> = Striped::new(
                alloc,
                first,
                unit_code(alloc)?,
                512,
            )?;
            rounds_of(alloc, scheme, work, rounds)
        }
        "flip512" => {
            let first: Flip<128, 144> = Flip::new();
            let scheme: Striped<_, _, 128, 144, 288> = Striped::new(
                alloc,
                first,
                unit_code(alloc)?,
                512,
            )?;
            rounds_of(alloc, scheme, work, rounds)
        }
        _ => bail!("no scheme {name}"),
    }
}
