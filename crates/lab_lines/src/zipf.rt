//! The table of a zipf workload: sector k stands in it SECTORS / (k + 1) times.
ghost use Rattle.std.specs.Prelude.{◌≡◌, ◌++◌, ◌≤◌, IfOk, replicate};
ghost use Rattle.lab_lines.specs.Workload.{zipf_rows};

use std::alloc::{AllocError, Global};

/// Adds a sector so many times.
fn push_times(table: &mut Vec<u32>, sector: u32, times: u32) -> Result<(), AllocError>
    ensures { IfOk result (λ _. table.new.items ≡ table.old.items ++ replicate times sector) }
{
    for _ in 0..times {
        table.push(sector)?;
    }
    Ok(())
}

/// The table for so many sectors.
pub fn zipf_table(alloc: Global, sectors: u32) -> Result<Vec<u32>, AllocError>
    ensures { IfOk result (λ table. table.items ≡ zipf_rows sectors sectors) }
{
    let mut table = Vec::new(alloc);
    for sector in 0..sectors {
        push_times(&mut table, sector, sectors / (sector + 1))?;
    }
    Ok(table)
}
