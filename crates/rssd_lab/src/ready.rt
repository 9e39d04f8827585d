//! The dies of a laboratory: blank ones, and that of an image. Knows no scheme, no line and no count.
ghost use Rattle.std.specs.Prelude.{◌≡◌, ◌%◌, ◌^◌, ◌<◌, true, false, IfOk, IfErr};
ghost use Rattle.die_image.specs.Image.{is_within_limits, shape_of, AreCells};
ghost use Rattle.mem_die.specs.MemState.{mem_state, IsMade, IsNew};
ghost use Rattle.rssd_core.specs.Mount.{MountFails};
ghost use Rattle.rssd_words.specs.Commands.{IsReserve};
ghost use Rattle.rssd_run.specs.Heads.{numbers_named};
ghost use Rattle.rssd_run.specs.PlayRuns.{IsBlankWorn, IsBlankPair};
ghost use Rattle.rssd_run.specs.ReadImage.{RefusesImage, TakesImage};
ghost use Rattle.rssd_lab.specs.Dies.{IsReadyOf};

use cell_die::Die;
use die_image::{ImageError, ImageHead, ImageReader};
use mem_die::{MemDie, WornMem};
use rssd_io::Source;
use rssd_run::run::image::{ImageReadError, read_image};
use rssd_run::run::image_run::die_of;
use rssd_run::run::play_run::{pair_die, worn_die};
use rssd_run::run::replay::blank_die;
use spare_die::SpareDie;
use std::alloc::{AllocError, Global};
use stripe_die::StripeDie;

/// A die of a head, no mount of which fails.
#[derive(Drop)]
pub struct Ready<D: Die> {
    pub head: ImageHead,
    pub die: D,
    ghost within: { is_within_limits head ≡ true },
    ghost shape: { (D.state die).shape ≡ shape_of head },
    ghost mounts: { (new : D) → MountFails (numbers_named head) (D.state die) (D.state new) → ⊥ },
}

/// One blank die, no block of which goes bad.
pub fn plain(alloc: Global, head: ImageHead) -> Result<Ready<MemDie>, AllocError>
    requires { is_within_limits head ≡ true }
    ensures head { IfOk result (λ ready. ready.head ≡ head) }
    ensures die { IfOk result (λ ready. IsNew (shape_of head) (mem_state ready.die)) }
{
    let die = blank_die(alloc, &head)?;
    Ok(Ready { head, die })
}

/// A blank die with so many reserve blocks, each `bad`-th erase of which makes its block bad.
pub fn worn(
    alloc: Global,
    head: ImageHead,
    reserve: u32,
    bad: u32,
) -> Result<Ready<SpareDie<WornMem>>, AllocError>
    requires within { is_within_limits head ≡ true }
    requires reserve { IsReserve head reserve }
    ensures head { IfOk result (λ ready. ready.head ≡ head) }
    ensures die { IfOk result (λ ready. IsBlankWorn head reserve bad (⟦<SpareDie<WornMem> as Die>⟧.state ready.die)) }
{
    let die = worn_die(alloc, &head, reserve, bad)?;
    Ok(Ready { head, die })
}

/// Two blank dies, each with half of the blocks, as one.
pub fn pair(alloc: Global, head: ImageHead) -> Result<Ready<StripeDie<MemDie, MemDie>>, AllocError>
    requires within { is_within_limits head ≡ true }
    requires even { head.blocks % 2 ≡ 0 }
    ensures head { IfOk result (λ ready. ready.head ≡ head) }
    ensures die { IfOk result (λ ready. IsBlankPair head (⟦<StripeDie<MemDie, MemDie> as Die>⟧.state ready.die)) }
{
    let die = pair_die(alloc, &head)?;
    Ok(Ready { head, die })
}

/// The die of an image.
fn of_image(alloc: Global, head: ImageHead, cells: Vec<u8>) -> Result<Ready<MemDie>, AllocError>
    requires { AreCells head cells.items }
    ensures head { IfOk result (λ ready. ready.head ≡ head) }
    ensures die { IfOk result (λ ready. IsMade (shape_of head) cells.items (mem_state ready.die)) }
{
    let die = die_of(alloc, &head, cells)?;
    Ok(Ready { head, die })
}

/// Reads an image, and makes its die.
///
/// # Errors
///
/// As `read_image`, or want of memory for the die.
pub fn read_ready<I: Source>(alloc: Global, image: &mut I) -> Result<Ready<MemDie>, ImageReadError>
    ensures ready { IfOk result (λ ready. IsReadyOf (I.log image.old) (I.log image.new) ready.head (mem_state ready.die)) }
    ensures refused { IfErr result (RefusesImage false (I.log image.old) (I.log image.new)) }
    ensures bounded { TakesImage false (I.log image.old) (I.log image.new) }
{
    let (head, cells) = read_image(ImageReader::new(alloc), image)?;
    match of_image(alloc, head, cells) {
        Ok(ready) => Ok(ready),
        Err(_) => Err(ImageReadError::Refused(ImageError::OutOfMemory)),
    }
}
