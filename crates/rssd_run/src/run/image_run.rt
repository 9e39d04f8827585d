//! A run on an image: the lines of a script are run on a die of the image's cells that is mounted first.
ghost use Rattle.std.specs.Prelude.{◌≡◌, ℕ, List, Ok, Option, true, false, replicate, IfOk, IsErrOf};
ghost use Rattle.std.specs.List.{All};
ghost use Rattle.cell_die.specs.Calls.{IsQuiet};
ghost use Rattle.cell_die.specs.DieState.{DieState};
ghost use Rattle.die_image.specs.declared.head.ImageHead.{ImageHead as Head};
ghost use Rattle.die_image.specs.Image.{die_bytes, image, image_read, is_within_limits, shape_of, AreCells};
ghost use Rattle.mem_die.specs.MemState.{mem_state, IsMade};
ghost use Rattle.rssd_io.specs.Event.{Event, HasFailed};
ghost use Rattle.rssd_script.specs.declared.lines.Line.{Line as Spelled};
ghost use Rattle.rssd_io.specs.Told.{TellsHeld};
ghost use Rattle.rssd_run.specs.Calm.{is_arming, IsCalm};
ghost use Rattle.rssd_run.specs.DieRuns.{RunsOn};
ghost use Rattle.rssd_run.specs.Headline.{AllKeepHeadline, ChargeNeverFalls};
ghost use Rattle.rssd_run.specs.Heads.{numbers_named};
ghost use Rattle.rssd_run.specs.Run.{CalmFor};
ghost use Rattle.rssd_run.specs.ImageRuns.{HasCells, IsFull, RunsImage, RunsImageFront};
ghost use Rattle.rssd_run.specs.Shows.{CanStep};

use crate::run::on_die::{RunError, die_shape, run_on};
use die_image::ImageHead;
use mem_die::{DieRefusal, MemDie, OutOfMemory};
use rssd_io::Sink;
use rssd_script::Line;
use std::alloc::{AllocError, Global};

/// A die of an image's cells, or want of memory.
pub fn die_of(alloc: Global, head: &ImageHead, cells: Vec<u8>) -> Result<MemDie, OutOfMemory>
    requires { AreCells head.now cells.items }
    ensures { IfOk result (λ die. IsMade (shape_of head.now) cells.items (mem_state die)) }
{
    match MemDie::of_cells(alloc, die_shape(head), cells) {
        Ok(die) => Ok(die),
        Err(DieRefusal::OutOfMemory) => Err(AllocError),
        Err(DieRefusal::Shape) => unreachable!(),
    }
}

/// The cells of a die, page after page.
pub fn cells_of(die: &MemDie) -> &[u8]
    ensures { HasCells result.now (mem_state die.now) }
{
    die.cells()
}

/// The cells of a head's die, none of them charged.
#[tactic(auto, unfolding(die_image::specs::Image::die_bytes))]
pub fn blank_cells(alloc: Global, head: &ImageHead) -> Result<Vec<u8>, OutOfMemory>
    requires { is_within_limits head.now ≡ true }
    ensures { IfOk result (λ cells. cells.items ≡ replicate (die_bytes head.now) 0) }
{
    let shape = die_shape(head);
    let bytes = shape.blocks * shape.pages * (shape.main_bytes + shape.spare_bytes);
    vec![in alloc; 0; bytes as usize]
}

/// Runs lines on a die of an image's cells that is mounted first, and gives each reply with its line feed to `out` in one
/// piece. The answer is the die as the lines leave it.
///
/// # Errors
///
/// Want of memory, or `NoSpare` where every block has a live record, before anything is given; or a fault of the sink.
pub fn run_image<O: Sink>(
    alloc: Global,
    head: &ImageHead,
    cells: Vec<u8>,
    lines: &[Line],
    out: &mut O,
) -> Result<MemDie, RunError>
    requires cells { AreCells head.now cells.items }
    requires can_step { All CanStep lines.now }
    ensures done { IfOk result (λ last. RunsImage head.now cells.items lines.now (O.log out.old) (O.log out.new) (mem_state last)) }
    ensures front { IsErrOf result RunError.Sink → RunsImageFront head.now cells.items lines.now (O.log out.old) (O.log out.new) }
    ensures fault { IsErrOf result RunError.Sink → HasFailed (O.log out.old) (O.log out.new) }
    ensures no_spare { IsErrOf result RunError.NoSpare → IsFull head.now cells.items × (out.new ≡ out.old) }
    ensures memory { IsErrOf result RunError.OutOfMemory → out.new ≡ out.old }
    ensures held { TellsHeld (O.written out.old) (O.written out.new) (O.log out.old) (O.log out.new) }
{
    let Ok(die) = die_of(alloc, head, cells) else {
        return Err(RunError::OutOfMemory);
    };
    run_on(alloc, head, die, lines, out)
}

/// Each line of a run on an image keeps the headline, over sound cells or where no line is `cut`: its reply is one of a plain
/// sector array where only the write or trim under way at a cut is afterwards old or new; no cell's charge falls between erases
/// of its block; a second write is declined exactly where no cells above the old carry the sector; a powered write fails only
/// where die faults rose.
pub fn image_runs_keep_the_headline()
    ensures { (head : Head) (die last : DieState) (lines : List Spelled) (log after : List Event) (given : RunsOn head die lines log after last)
        (calm : CalmFor (numbers_named head) die lines) → AllKeepHeadline (numbers_named head) (given.run calm).run.events }
{}

/// From any view of such a run to any later one, no cell's charge falls between erases of its block.
pub fn charge_never_falls_in_an_image_run()
    ensures { (head : Head) (die last : DieState) (lines : List Spelled) (log after : List Event) (given : RunsOn head die lines log after last)
        (calm : CalmFor (numbers_named head) die lines) → ChargeNeverFalls given.before (given.run calm).run.events }
{}

/// Where no line is `cut` or `failread`, no reply is `fault` or `no spare`, and none is `off` before one is `no memory`, whether
/// the image's cells are sound or not.
pub fn image_runs_without_failures_are_calm()
    ensures { (head : Head) (die last : DieState) (lines : List Spelled) (log after : List Event) (quiet : IsQuiet die) (given : RunsOn head die lines log after last)
        (calm : CalmFor (numbers_named head) die lines) → All (λ line. is_arming line ≡ false) lines → IsCalm (given.run calm).run.events }
{}

/// The image of the cells that a run on an image leaves is read again, as this head and these cells, whatever the image's cells are
/// and whatever its lines: no pad cell is charged.
pub fn image_runs_leave_images()
    ensures { (head : Head) (cells left : List ℕ) (last : DieState) (lines : List Spelled) (log after : List Event) (given : RunsImage head cells lines log after last)
        → AreCells head cells → HasCells left last
        → AreCells head left × (image_read false (image head left) ≡ Ok (head, left)) }
{}
