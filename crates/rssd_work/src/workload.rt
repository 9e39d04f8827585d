//! A workload is a function of its seed: as many lines as are asked for, drawn in order.

ghost use Rattle.std.specs.Prelude.{◌≡◌, ◌≤◌, ◌⊎◌, IfOk};
ghost use Rattle.rssd_work.specs.Workload.{workload};

use crate::drawing::draw_line;
use rand_core::SeedableRng;
use rand_xoshiro::SplitMix64;
use rssd_script::{Line, OutOfMemory};
use std::alloc::Global;

/// The `count` lines of the workload of this seed, for a device of so many sectors of 16 or 512 bytes. It fails only
/// where memory does.
pub fn make(
    alloc: Global,
    seed: u64,
    count: u32,
    sectors: u32,
    sector_bytes: u32,
) -> Result<Vec<Line>, OutOfMemory>
    requires sectors { 1 ≤ sectors }
    requires sector_bytes { (sector_bytes ≡ 16) ⊎ (sector_bytes ≡ 512) }
    ensures { IfOk result (λ lines. lines.items ≡ workload seed count sectors sector_bytes) }
{
    let mut words = SplitMix64::seed_from_u64(seed);
    let mut lines = Vec::new(alloc);
    for _ in 0..count {
        let line = draw_line(alloc, &mut words, sectors, sector_bytes)?;
        lines.push(line)?;
    }
    Ok(lines)
}
