//! Lines played on a device over any die: a blank one is mounted with the scheme of a head, and the lines are played in order.
ghost use Rattle.std.specs.Prelude.{◌≡◌, ◌≤◌, List, true, All, OnOk, OnErr, IfOk, IsErrOf};
ghost use Rattle.cell_die.specs.Calls.{Kept};
ghost use Rattle.die_image.specs.Image.{is_within_limits, shape_of};
ghost use Rattle.rssd_core.specs.DeviceValue.{Numbers};
ghost use Rattle.rssd_core.specs.Mount.{Mounts, MountFails};
ghost use Rattle.rssd_io.specs.Told.{TellsHeld};
ghost use Rattle.rssd_run.specs.Headline.{ChargeNeverFalls};
ghost use Rattle.rssd_run.specs.Heads.{numbers_named};
ghost use Rattle.rssd_run.specs.Played.{IsPlayed, Plays, PlaysQuiet};
ghost use Rattle.rssd_run.specs.PlayRuns.{IsBlankDie, IsPlayStart, LeavesDie, PlaysLines, CutsOffPlay, PlaysFrom, PlaysFrontFrom, IsPlay, KeepsPlayHeadline};
ghost use Rattle.schemes.specs.Schemes.{meaning_named};
ghost use Rattle.rssd_run.specs.View.{View, Event};

use crate::run::line::play;
use cell_die::Die;
use die_image::{ImageHead, SchemeName};
use rssd_core::device::{Device, MountError, Plan};
use rssd_core::whole::Ftl;
use rssd_io::{Sink, WriteFault};
use rssd_script::{Line, Reply, print_reply};
use schemes::{cosets, flips, pairs, plains, sevens};
use std::alloc::{AllocError, Global};
use striped::Scheme;

/// Why lines were not all played.
#[derive(Clone, Copy, Debug, PartialEq, Eq)]
pub enum PlayError {
    OutOfMemory,
    /// The sink failed.
    Sink,
}

/// Plays a line that a device takes.
fn play_one<D: Die + Drop, C: Scheme + Drop, F: Device<D, C>>(ftl: &mut F, line: &Line) -> Reply
    requires line { IsPlayed line.now }
    requires few_bytes { (F.device ftl.old).numbers.geometry.sector_bytes ≤ 512 }
    ensures plays { Plays (F.device ftl.old).numbers line.now result (F.device ftl.old) (F.device ftl.new) }
    ensures quiet { PlaysQuiet result (F.device ftl.old) (F.device ftl.new) }
    ensures numbers { (F.device ftl.new).numbers ≡ (F.device ftl.old).numbers }
    ensures kept { Kept (F.device ftl.old).view.die (F.device ftl.new).view.die }
    ensures die { (die : D) × (D.state die ≡ (F.device ftl.new).view.die) }
{
    let Some(reply) = play(ftl, line) else {
        unreachable!();
    };
    let _die = ftl.die();
    reply
}

/// Plays the lines in order, and gives each reply with its line feed to `out` in one piece.
fn play_lines<D: Die + Drop, C: Scheme + Drop, F: Device<D, C>, O: Sink>(
    ftl: &mut F,
    lines: &[Line],
    out: &mut O,
) -> Result<(), WriteFault>
    requires played { All IsPlayed lines.now }
    requires few_bytes { (F.device ftl.old).numbers.geometry.sector_bytes ≤ 512 }
    ensures ok { OnOk result (PlaysLines (LeavesDie D.state) (F.device ftl.old) lines.now (O.log out.old) (O.log out.new)) }
    ensures err { OnErr result (CutsOffPlay (LeavesDie D.state) (F.device ftl.old) lines.now (O.log out.old) (O.log out.new)) }
    ensures held { TellsHeld (O.written out.old) (O.written out.new) (O.log out.old) (O.log out.new) }
{
    for line in lines {
        let reply = play_one(ftl, line);
        out.give(print_reply(&reply).as_slice())?;
    }
    Ok(())
}

/// Mounts a blank die, no mount of which fails, as a device of the kind `F`.
fn mount_blank<D: Die + Drop, C: Scheme + Drop, F: Device<D, C>>(
    alloc: Global,
    head: &ImageHead,
    scheme: C,
    die: D,
) -> Result<F, AllocError>
    requires within { is_within_limits head.now ≡ true }
    requires scheme { C.meaning scheme ≡ meaning_named head.now.scheme }
    requires blank { IsBlankDie (shape_of head.now) (D.state die) }
    requires mounts { (new : D) → MountFails (numbers_named head.now) (D.state die) (D.state new) → ⊥ }
    ensures { IfOk result (λ ftl. Mounts (numbers_named head.now) (D.state die) (F.device ftl)) }
{
    let plan = Plan {
        sectors: head.sectors,
        reuse_max: head.reuse_max,
    };
    match F::mount(alloc, die, scheme, plan) {
        Ok(ftl) => Ok(ftl),
        Err(refused) => match refused.why {
            MountError::OutOfMemory => Err(AllocError),
            MountError::Shape | MountError::DieFault | MountError::NoSpare => unreachable!(),
        },
    }
}

/// Plays lines on a blank die, as a device of the kind `F`.
fn play_with<D: Die + Drop, C: Scheme + Drop, F: Device<D, C>, O: Sink>(
    alloc: Global,
    head: &ImageHead,
    scheme: C,
    die: D,
    lines: &[Line],
    out: &mut O,
) -> Result<(), PlayError>
    requires within { is_within_limits head.now ≡ true }
    requires scheme { C.meaning scheme ≡ meaning_named head.now.scheme }
    requires blank { IsBlankDie (shape_of head.now) (D.state die) }
    requires mounts { (new : D) → MountFails (numbers_named head.now) (D.state die) (D.state new) → ⊥ }
    requires played { All IsPlayed lines.now }
    ensures done { OnOk result (PlaysFrom (IsPlayStart head.now (D.state die)) (LeavesDie D.state) (numbers_named head.now) lines.now (O.log out.old) (O.log out.new)) }
    ensures front { IsErrOf result PlayError.Sink
        → PlaysFrontFrom (IsPlayStart head.now (D.state die)) (LeavesDie D.state) (numbers_named head.now) lines.now (O.log out.old) (O.log out.new) }
    ensures memory { IsErrOf result PlayError.OutOfMemory → out.new ≡ out.old }
    ensures held { TellsHeld (O.written out.old) (O.written out.new) (O.log out.old) (O.log out.new) }
{
    let Ok(mut ftl) = mount_blank::<D, C, F>(alloc, head, scheme, die) else {
        return Err(PlayError::OutOfMemory);
    };
    match play_lines(&mut ftl, lines, out) {
        Ok(()) => Ok(()),
        Err(_) => Err(PlayError::Sink),
    }
}

/// Plays lines with a scheme that was made, or for which there was no memory.
fn play_made<D: Die + Drop, C: Scheme + Drop, O: Sink>(
    alloc: Global,
    head: &ImageHead,
    made: Result<C, AllocError>,
    die: D,
    lines: &[Line],
    out: &mut O,
) -> Result<(), PlayError>
    requires within { is_within_limits head.now ≡ true }
    requires scheme { IfOk made (λ scheme. C.meaning scheme ≡ meaning_named head.now.scheme) }
    requires blank { IsBlankDie (shape_of head.now) (D.state die) }
    requires mounts { (new : D) → MountFails (numbers_named head.now) (D.state die) (D.state new) → ⊥ }
    requires played { All IsPlayed lines.now }
    ensures done { OnOk result (PlaysFrom (IsPlayStart head.now (D.state die)) (LeavesDie D.state) (numbers_named head.now) lines.now (O.log out.old) (O.log out.new)) }
    ensures front { IsErrOf result PlayError.Sink
        → PlaysFrontFrom (IsPlayStart head.now (D.state die)) (LeavesDie D.state) (numbers_named head.now) lines.now (O.log out.old) (O.log out.new) }
    ensures memory { IsErrOf result PlayError.OutOfMemory → out.new ≡ out.old }
    ensures held { TellsHeld (O.written out.old) (O.written out.new) (O.log out.old) (O.log out.new) }
{
    match made {
        Ok(scheme) => play_with::<D, C, Ftl<D, C>, O>(alloc, head, scheme, die, lines, out),
        Err(_) => Err(PlayError::OutOfMemory),
    }
}

/// Mounts a blank die, no mount of which fails, with the head's scheme, plays lines on it, and gives each reply with its line
/// feed to `out` in one piece.
///
/// # Errors
///
/// Want of memory, before anything is given; or a fault of the sink.
#[tactic(auto, unfolding(schemes::specs::Schemes::meaning_named, die_image::specs::Schemes::row_of))]
pub fn play_on<D: Die + Drop, O: Sink>(
    alloc: Global,
    head: &ImageHead,
    die: D,
    lines: &[Line],
    out: &mut O,
) -> Result<(), PlayError>
    requires within { is_within_limits head.now ≡ true }
    requires blank { IsBlankDie (shape_of head.now) (D.state die) }
    requires mounts { (new : D) → MountFails (numbers_named head.now) (D.state die) (D.state new) → ⊥ }
    requires played { All IsPlayed lines.now }
    ensures done { OnOk result (PlaysFrom (IsPlayStart head.now (D.state die)) (LeavesDie D.state) (numbers_named head.now) lines.now (O.log out.old) (O.log out.new)) }
    ensures front { IsErrOf result PlayError.Sink
        → PlaysFrontFrom (IsPlayStart head.now (D.state die)) (LeavesDie D.state) (numbers_named head.now) lines.now (O.log out.old) (O.log out.new) }
    ensures memory { IsErrOf result PlayError.OutOfMemory → out.new ≡ out.old }
    ensures held { TellsHeld (O.written out.old) (O.written out.new) (O.log out.old) (O.log out.new) }
{
    match head.scheme {
        SchemeName::Plain16 => play_made(alloc, head, plains(alloc, 16), die, lines, out),
        SchemeName::Rs16 => play_made(alloc, head, pairs(alloc, 16), die, lines, out),
        SchemeName::Rs512 => play_made(alloc, head, pairs(alloc, 512), die, lines, out),
        SchemeName::Coset16 => play_made(alloc, head, cosets(alloc, 16), die, lines, out),
        SchemeName::Coset512 => play_made(alloc, head, cosets(alloc, 512), die, lines, out),
        SchemeName::Flip16 => play_made(alloc, head, flips(alloc, 16), die, lines, out),
        SchemeName::Flip512 => play_made(alloc, head, flips(alloc, 512), die, lines, out),
        SchemeName::Ham16 => play_made(alloc, head, sevens(alloc, 16), die, lines, out),
        SchemeName::Ham512 => play_made(alloc, head, sevens(alloc, 512), die, lines, out),
    }
}

/// Each line of a play keeps the headline, over any die: its reply is one of a plain sector array where only the write or trim
/// under way at a stop is afterwards old or new; no cell's charge falls between erases of its block; a second write is declined
/// exactly where no cells above the old carry the sector; a write fails only where die faults rose.
pub fn plays_keep_the_headline()
    ensures { (d : Numbers) (before : View) (events : List Event) (after : View) → IsPlay d before events after → All (KeepsPlayHeadline d) events }
{}

/// From any view of a play to any later one, no cell's charge falls between erases of its block.
pub fn charge_never_falls_in_a_play()
    ensures { (d : Numbers) (before : View) (events : List Event) (after : View) → IsPlay d before events after → ChargeNeverFalls before events }
{}
