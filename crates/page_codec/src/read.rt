//! Reads of pages and of units. A read changes no cell, so the pages of a unit are all of one moment.

ghost use Rattle.std.specs.Prelude.{◌≡◌, ◌<◌, ◌≤◌, ◌+◌, ◌-◌, ◌*◌, ◌^◌, ◌++◌, length, OnOk, OnErr};
ghost use Rattle.cell_die.specs.DieState.{page_count, page_bytes, page_of};
ghost use Rattle.cell_die.specs.Changes.{SameCells};
ghost use Rattle.cell_die.specs.Calls.{Kept, Passed, ReadFailed};
ghost use Rattle.page_codec.specs.Units.{main_of, unit_main};

use cell_die::{Die, DieFault};

/// Reads a page, and gives its main bytes too.
fn read_page<D: Die>(
    die: &mut D,
    page: u32,
    whole: &mut [u8],
    main: &mut [u8],
) -> Result<(), DieFault>
    requires page { page < page_count (D.state die.old).shape }
    requires whole { length whole.old ≡ page_bytes (D.state die.old).shape }
    requires main { length main.old ≡ (D.state die.old).shape.main_bytes }
    ensures whole { OnOk result (whole.new ≡ page_of (D.state die.old) page) }
    ensures main { OnOk result (main.new ≡ main_of (D.state die.old) page) }
    ensures same_cells { SameCells (D.state die.old) (D.state die.new) }
    ensures kept { Kept (D.state die.old) (D.state die.new) }
    ensures passed { OnOk result (Passed 0 1 (D.state die.old) (D.state die.new)) }
    ensures failed { OnErr result (ReadFailed 0 1 (D.state die.old) (D.state die.new)) }
{
    die.read(page, whole)?;
    main.copy_from_slice(&whole[..main.len()]);
    Ok(())
}

/// Reads two pages side by side, and gives their main bytes one after the other.
fn read_pair<D: Die>(
    die: &mut D,
    page: u32,
    first: &mut [u8],
    second: &mut [u8],
    unit: &mut [u8],
) -> Result<(), DieFault>
    requires page { page + 2 ≤ page_count (D.state die.old).shape }
    requires few_pages { page_count (D.state die.old).shape < 2 ^ 32 }
    requires first { length first.old ≡ page_bytes (D.state die.old).shape }
    requires second { length second.old ≡ page_bytes (D.state die.old).shape }
    requires unit { length unit.old ≡ 2 * (D.state die.old).shape.main_bytes }
    ensures first { OnOk result (first.new ≡ page_of (D.state die.old) page) }
    ensures second { OnOk result (second.new ≡ page_of (D.state die.old) (page + 1)) }
    ensures unit { OnOk result (unit.new ≡ main_of (D.state die.old) page ++ main_of (D.state die.old) (page + 1)) }
    ensures same_cells { SameCells (D.state die.old) (D.state die.new) }
    ensures kept { Kept (D.state die.old) (D.state die.new) }
    ensures passed { OnOk result (Passed 0 2 (D.state die.old) (D.state die.new)) }
    ensures failed { OnErr result (ReadFailed 0 2 (D.state die.old) (D.state die.new)) }
{
    let (main, more) = unit.split_at_mut(unit.len() / 2);
    read_page(die, page, first, main)?;
    read_page(die, page + 1, second, more)
}

/// Reads the pages of a unit in order, and gives their main bytes one after the other.
pub fn read_unit<D: Die>(
    die: &mut D,
    page: u32,
    span: u32,
    first: &mut [u8],
    further: &mut [u8],
    unit: &mut [u8],
) -> Result<(), DieFault>
    requires some_pages { 1 ≤ span }
    requires span { span ≤ 2 }
    requires page { page + span ≤ page_count (D.state die.old).shape }
    requires few_pages { page_count (D.state die.old).shape < 2 ^ 32 }
    requires first { length first.old ≡ page_bytes (D.state die.old).shape }
    requires further { length further.old ≡ (span - 1) * page_bytes (D.state die.old).shape }
    requires unit { length unit.old ≡ span * (D.state die.old).shape.main_bytes }
    ensures first { OnOk result (first.new ≡ page_of (D.state die.old) page) }
    ensures further { OnOk result (span ≡ 2 → further.new ≡ page_of (D.state die.old) (page + 1)) }
    ensures unit { OnOk result (unit.new ≡ unit_main (D.state die.old) span page) }
    ensures same_cells { SameCells (D.state die.old) (D.state die.new) }
    ensures kept { Kept (D.state die.old) (D.state die.new) }
    ensures passed { OnOk result (Passed 0 span (D.state die.old) (D.state die.new)) }
    ensures failed { OnErr result (ReadFailed 0 span (D.state die.old) (D.state die.new)) }
{
    if span == 1 {
        read_page(die, page, first, unit)
    } else {
        read_pair(die, page, first, further, unit)
    }
}
