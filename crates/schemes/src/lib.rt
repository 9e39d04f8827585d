//! The schemes of the table, made of their codes. Each takes a unit's memory, and those of coset codes also that of their columns.
#![tactic(auto)]

ghost use Rattle.std.specs.Prelude.{◌≡◌, ◌≤◌, IfOk};
ghost use Rattle.die_image.specs.declared.scheme.SchemeName.{SchemeName as Name};
ghost use Rattle.schemes.specs.Schemes.{plain_meaning, pair_meaning, coset_meaning, flip_meaning, seven_meaning, table_of_one, meaning_named, HasRow};

use coset_code::{Columns, Coset, CosetRefusal};
use hamming_seven::HammingSeven;
use rivest_shamir::RivestShamir;
use std::alloc::{AllocError, Global};
use striped::{Scheme, Striped};
use wom_code::{Flip, Plain};

pub type Plains = Striped<Plain<128, 128>, Plain<128, 128>, 128, 128, 128>;

pub type Pairs = Striped<RivestShamir, RivestShamir, 2, 3, 3>;

pub type Cosets = Striped<Plain<128, 144>, Coset<128, 288>, 128, 144, 288>;

pub type Flips = Striped<Flip<128, 144>, Coset<128, 288>, 128, 144, 288>;

pub type Sevens = Striped<HammingSeven, HammingSeven, 3, 7, 7>;

/// 128 bits as they are, at both writes.
#[tactic(auto, unfolding(crate::specs::Schemes::plain_meaning))]
pub fn plains(alloc: Global, sector_bytes: u32) -> Result<Plains, AllocError>
    requires some { 1 ≤ sector_bytes }
    requires few { sector_bytes ≤ 512 }
    ensures { IfOk result (λ scheme. ⟦<Plains as Scheme>⟧.meaning scheme ≡ plain_meaning sector_bytes) }
{
    Striped::new(alloc, Plain::new(), Plain::new(), sector_bytes)
}

/// Two bits in three cells, at both writes.
#[tactic(auto, unfolding(crate::specs::Schemes::pair_meaning))]
pub fn pairs(alloc: Global, sector_bytes: u32) -> Result<Pairs, AllocError>
    requires some { 1 ≤ sector_bytes }
    requires few { sector_bytes ≤ 512 }
    ensures { IfOk result (λ scheme. ⟦<Pairs as Scheme>⟧.meaning scheme ≡ pair_meaning sector_bytes) }
{
    Striped::new(
        alloc,
        RivestShamir::new(),
        RivestShamir::new(),
        sector_bytes,
    )
}

/// The coset code of the columns of seed 1.
fn unit_code(alloc: Global) -> Result<Coset<128, 288>, AllocError>
    ensures { IfOk result (λ code. code ≡ table_of_one) }
{
    match Coset::new(alloc, Columns::new(alloc, 1, 288)?) {
        Ok(code) => Ok(code),
        Err(CosetRefusal::OutOfMemory) => Err(AllocError),
        Err(CosetRefusal::Shape) => unreachable!(),
    }
}

/// 128 bits as they are, and then a coset code over two pages.
#[tactic(auto, unfolding(crate::specs::Schemes::coset_meaning))]
pub fn cosets(alloc: Global, sector_bytes: u32) -> Result<Cosets, AllocError>
    requires some { 1 ≤ sector_bytes }
    requires few { sector_bytes ≤ 512 }
    ensures { IfOk result (λ scheme. ⟦<Cosets as Scheme>⟧.meaning scheme ≡ coset_meaning sector_bytes) }
{
    let code = unit_code(alloc)?;
    Striped::new(alloc, Plain::new(), code, sector_bytes)
}

/// 128 bits that may be turned, and then a coset code over two pages.
#[tactic(auto, unfolding(crate::specs::Schemes::flip_meaning))]
pub fn flips(alloc: Global, sector_bytes: u32) -> Result<Flips, AllocError>
    requires some { 1 ≤ sector_bytes }
    requires few { sector_bytes ≤ 512 }
    ensures { IfOk result (λ scheme. ⟦<Flips as Scheme>⟧.meaning scheme ≡ flip_meaning sector_bytes) }
{
    let code = unit_code(alloc)?;
    Striped::new(alloc, Flip::new(), code, sector_bytes)
}

/// Three bits in seven cells, at all three writes.
#[tactic(auto, unfolding(crate::specs::Schemes::seven_meaning))]
pub fn sevens(alloc: Global, sector_bytes: u32) -> Result<Sevens, AllocError>
    requires some { 1 ≤ sector_bytes }
    requires few { sector_bytes ≤ 512 }
    ensures { IfOk result (λ scheme. ⟦<Sevens as Scheme>⟧.meaning scheme ≡ seven_meaning sector_bytes) }
{
    Striped::with_generations(
        alloc,
        HammingSeven::new(),
        HammingSeven::new(),
        sector_bytes,
        3,
    )
}

/// The numbers of each scheme are those of its row in the table.
pub fn schemes_have_the_rows_of_the_table()
    ensures { (name : Name) → HasRow name (meaning_named name) }
{}
