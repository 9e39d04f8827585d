//! A replay: the lines of a script are run on a blank die that is mounted first, for each scheme of the table.
ghost use Rattle.std.specs.Prelude.{◌≡◌, ℕ, List, [], ◌∷◌, ◌++◌, Option, true, false, OnOk, IfOk, IsErrOf};
ghost use Rattle.std.specs.List.{All};
ghost use Rattle.die_image.specs.declared.head.ImageHead.{ImageHead as Head};
ghost use Rattle.die_image.specs.Image.{is_within_limits, shape_of};
ghost use Rattle.mem_die.specs.MemState.{mem_state, IsNew};
ghost use Rattle.rssd_io.specs.Event.{Event, HasFailed};
ghost use Rattle.rssd_script.specs.declared.lines.Line.{Line as Spelled};
ghost use Rattle.rssd_script.specs.Scripts.{Reads};
ghost use Rattle.rssd_io.specs.Told.{TellsHeld};
ghost use Rattle.rssd_run.specs.Calm.{is_arming, IsCalm, NeverSpends};
ghost use Rattle.rssd_run.specs.Headline.{AllKeepHeadline, ChargeNeverFalls};
ghost use Rattle.rssd_run.specs.Heads.{numbers_named};
ghost use Rattle.rssd_run.specs.Replays.{Replays, ReplaysFront};
ghost use Rattle.schemes.specs.Schemes.{meaning_named};
ghost use Rattle.rssd_run.specs.Shows.{CanStep};

use crate::run::on_die::{RunError, die_shape, run_on};
use die_image::ImageHead;
use mem_die::{DieRefusal, MemDie, OutOfMemory};
use rssd_io::Sink;
use rssd_script::Line;
use std::alloc::{AllocError, Global};

/// A blank die of a head.
pub fn blank_die(alloc: Global, head: &ImageHead) -> Result<MemDie, OutOfMemory>
    requires { is_within_limits head.now ≡ true }
    ensures { IfOk result (λ die. IsNew (shape_of head.now) (mem_state die)) }
{
    match MemDie::blank(alloc, die_shape(head)) {
        Ok(die) => Ok(die),
        Err(DieRefusal::OutOfMemory) => Err(AllocError),
        Err(DieRefusal::Shape) => unreachable!(),
    }
}

/// Runs lines on a blank die of this head that is mounted first, and gives each reply with its line feed to `out` in one piece.
///
/// # Errors
///
/// Want of memory, before anything is given; or a fault of the sink. A blank die has a spare block.
pub fn replay<O: Sink>(
    alloc: Global,
    head: &ImageHead,
    lines: &[Line],
    out: &mut O,
) -> Result<(), RunError>
    requires within { is_within_limits head.now ≡ true }
    requires can_step { All CanStep lines.now }
    ensures done { OnOk result (Replays head.now lines.now (O.log out.old) (O.log out.new)) }
    ensures front { IsErrOf result RunError.Sink → ReplaysFront head.now lines.now (O.log out.old) (O.log out.new) }
    ensures fault { IsErrOf result RunError.Sink → HasFailed (O.log out.old) (O.log out.new) }
    ensures spare { IsErrOf result RunError.NoSpare → ⊥ }
    ensures memory { IsErrOf result RunError.OutOfMemory → out.new ≡ out.old }
    ensures held { TellsHeld (O.written out.old) (O.written out.new) (O.log out.old) (O.log out.new) }
{
    let Ok(die) = blank_die(alloc, head) else {
        return Err(RunError::OutOfMemory);
    };
    run_on(alloc, head, die, lines, out)?;
    Ok(())
}

/// Each line of a replay keeps the headline: its reply is one of a plain sector array where only the write or trim under way at
/// a cut is afterwards old or new; no cell's charge falls between erases of its block; a second write is declined exactly where
/// no cells above the old carry the sector; a powered write fails only where die faults rose.
pub fn replays_keep_the_headline()
    ensures { (head : Head) (lines : List Spelled) (log after : List Event) (given : Replays head lines log after)
        → AllKeepHeadline (numbers_named head) given.run.events }
{}

/// From any view of a replay to any later one, no cell's charge falls between erases of its block.
pub fn charge_never_falls_in_a_replay()
    ensures { (head : Head) (lines : List Spelled) (log after : List Event) (given : Replays head lines log after)
        → ChargeNeverFalls given.before given.run.events }
{}

/// The headline is kept too by each line of a replay whose sink failed, up to the line whose reply it did not take whole.
pub fn cut_off_replays_keep_the_headline()
    ensures { (head : Head) (lines : List Spelled) (log after : List Event) (given : ReplaysFront head lines log after)
        → AllKeepHeadline (numbers_named head) (given.run.events ++ given.run.last ∷ []) }
{}

/// Where no line of a replay is `cut` or `failread`, no reply is `fault` or `no spare`, and none is `off` before one is `no memory`.
pub fn replays_without_failures_are_calm()
    ensures { (head : Head) (lines : List Spelled) (log after : List Event) (given : Replays head lines log after)
        → All (λ line. is_arming line ≡ false) lines → IsCalm given.run.events }
{}

/// A replay of a script never answers `spent`: its record numbers stay far below 2^62.
pub fn replays_never_spend_the_record_numbers()
    ensures { (head : Head) (text : List ℕ) (lines : List Spelled) (log after : List Event) (given : Replays head lines log after)
        → Reads text lines → All NeverSpends given.run.events }
{}
