//! Puts of records of sector 0, each on a page or in a slot that a scan finds blank.

ghost use Rattle.std.specs.Prelude.{◌≡◌, ◌<◌, ◌≤◌};
ghost use Rattle.cell_die.specs.DieState.{page_count};
ghost use Rattle.page_codec.specs.Sizes.{Serves, ServesScheme};

use cell_die::{Die, DieFault};
use page_codec::{PutFault, Work, put_first, put_second, put_zeros, scan};
use std::process::Abort;
use striped::Scheme;
use wom_code::Carry;
use zero_count::Header;

/// The header of a record of sector 0 with a sector's bytes.
fn header(seq: u64) -> Header
    ensures { result.kind ≡ 1 }
{
    Header {
        sector: 0,
        seq,
        kind: 1,
    }
}

/// A first write of a page that is blank.
pub fn write_first<D: Die, C: Scheme>(
    rt: &impl Abort,
    die: &mut D,
    scheme: &mut C,
    work: &mut Work,
    page: u32,
    seq: u64,
    sector: &[u8; 16],
) -> Result<(), DieFault>
    requires die { Serves work.old (D.state die.old).shape }
    requires scheme { ServesScheme work.old (C.meaning scheme.old) }
    requires sector_bytes { work.old.sector_bytes ≡ 16 }
    requires page { page < page_count (D.state die.old).shape }
    ensures same_shape { (D.state die.new).shape ≡ (D.state die.old).shape }
    ensures same_scheme { C.meaning scheme.new ≡ C.meaning scheme.old }
    ensures same_work { work.new ≡ work.old }
{
    assert!(rt; scan(die, work, page)?.blank);
    put_first(die, scheme, work, page, &header(seq), sector)
}

/// A record of zeros on a page that is blank.
pub fn write_zeros<D: Die>(
    rt: &impl Abort,
    die: &mut D,
    work: &mut Work,
    page: u32,
    seq: u64,
) -> Result<(), DieFault>
    requires die { Serves work.old (D.state die.old).shape }
    requires page { page < page_count (D.state die.old).shape }
    ensures same_shape { (D.state die.new).shape ≡ (D.state die.old).shape }
    ensures same_work { work.new ≡ work.old }
{
    assert!(rt; scan(die, work, page)?.blank);
    let header = Header {
        sector: 0,
        seq,
        kind: 3,
    };
    put_zeros(die, work, page, &header)
}

/// A second write of the unit of page 0, whose second slot is blank.
pub fn write_second<D: Die, C: Scheme>(
    rt: &impl Abort,
    die: &mut D,
    scheme: &mut C,
    work: &mut Work,
    seq: u64,
    sector: &[u8; 16],
) -> Result<Carry, PutFault>
    requires die { Serves work.old (D.state die.old).shape }
    requires scheme { ServesScheme work.old (C.meaning scheme.old) }
    requires sector_bytes { work.old.sector_bytes ≡ 16 }
    requires generations { 2 ≤ work.old.generations }
    requires unit { work.old.span ≤ page_count (D.state die.old).shape }
    requires page { 1 ≤ page_count (D.state die.old).shape }
    ensures same_shape { (D.state die.new).shape ≡ (D.state die.old).shape }
    ensures same_scheme { C.meaning scheme.new ≡ C.meaning scheme.old }
    ensures same_work { work.new ≡ work.old }
{
    let Ok(seen) = scan(die, work, 0) else {
        return Err(PutFault::Read);
    };
    assert!(rt; seen.second.blank);
    put_second(die, scheme, work, 0, 1, &header(seq), sector)
}

/// A third write of the unit of page 0, whose third slot is blank.
pub fn write_third<D: Die, C: Scheme>(
    rt: &impl Abort,
    die: &mut D,
    scheme: &mut C,
    work: &mut Work,
    seq: u64,
    sector: &[u8; 16],
) -> Result<Carry, PutFault>
    requires die { Serves work.old (D.state die.old).shape }
    requires scheme { ServesScheme work.old (C.meaning scheme.old) }
    requires sector_bytes { work.old.sector_bytes ≡ 16 }
    requires generations { work.old.generations ≡ 3 }
    requires unit { work.old.span ≤ page_count (D.state die.old).shape }
    requires page { 1 ≤ page_count (D.state die.old).shape }
    ensures same_shape { (D.state die.new).shape ≡ (D.state die.old).shape }
    ensures same_scheme { C.meaning scheme.new ≡ C.meaning scheme.old }
    ensures same_work { work.new ≡ work.old }
{
    let Ok(seen) = scan(die, work, 0) else {
        return Err(PutFault::Read);
    };
    assert!(rt; seen.third.blank);
    put_second(die, scheme, work, 0, 2, &header(seq), sector)
}
