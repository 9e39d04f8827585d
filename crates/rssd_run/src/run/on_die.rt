//! Lines on a die in memory: it is mounted with the scheme of a head, the lines are run on it, and it is given back.
ghost use Rattle.std.specs.Prelude.{◌≡◌, true, IfOk, IsErrOf};
ghost use Rattle.std.specs.List.{All};
ghost use Rattle.die_image.specs.Image.{is_within_limits, shape_of};
ghost use Rattle.mem_die.specs.Limits.{IsWithinLimits as FitsDie};
ghost use Rattle.mem_die.specs.MemState.{mem_state};
ghost use Rattle.rssd_core.specs.Mount.{EveryBlockLive};
ghost use Rattle.rssd_io.specs.Event.{HasFailed};
ghost use Rattle.rssd_io.specs.Told.{TellsHeld};
ghost use Rattle.rssd_run.specs.DieRuns.{IsReady, StartsOn, RunsOn, RunsFrontOn};
ghost use Rattle.rssd_run.specs.Heads.{numbers_named};
ghost use Rattle.schemes.specs.Schemes.{meaning_named};
ghost use Rattle.rssd_run.specs.Shows.{CanStep, session_of};

use crate::run::run_lines;
use crate::run::session::Session;
use cell_die::Shape;
use die_image::{ImageHead, SchemeName};
use mem_die::MemDie;
use rssd_core::device::{MountError, Plan, PowerDevice};
use rssd_core::whole::Ftl;
use rssd_io::Sink;
use rssd_script::Line;
use schemes::{cosets, flips, pairs, plains, sevens};
use std::alloc::{AllocError, Global};
use striped::Scheme;

/// Why lines were not all answered.
#[derive(Clone, Copy, Debug, PartialEq, Eq)]
pub enum RunError {
    OutOfMemory,
    /// Every block of the die has a live record.
    NoSpare,
    /// The sink failed.
    Sink,
}

/// The shape of a head's die: 16 spare bytes for each generation.
pub fn die_shape(head: &ImageHead) -> Shape
    requires { is_within_limits head.now ≡ true }
    ensures shape { result ≡ shape_of head.now }
    ensures fits { FitsDie (shape_of head.now) }
{
    Shape {
        blocks: head.blocks,
        pages: head.pages,
        main_bytes: head.scheme.page_bytes(),
        spare_bytes: 16 * head.scheme.generations(),
    }
}

/// A session on the die.
pub fn start<C: Scheme + Drop, F: PowerDevice<MemDie, C>>(
    alloc: Global,
    head: &ImageHead,
    scheme: C,
    die: MemDie,
) -> Result<Session<MemDie, C, F>, RunError>
    requires within { is_within_limits head.now ≡ true }
    requires scheme { C.meaning scheme ≡ meaning_named head.now.scheme }
    requires ready { IsReady head.now (mem_state die) }
    ensures started { IfOk result (λ new. StartsOn head.now (mem_state die) (session_of mem_state C.meaning F.device new)) }
    ensures no_spare { IsErrOf result RunError.NoSpare → EveryBlockLive (numbers_named head.now).geometry (mem_state die) }
    ensures no_sink { IsErrOf result RunError.Sink → ⊥ }
{
    let plan = Plan {
        sectors: head.sectors,
        reuse_max: head.reuse_max,
    };
    match Session::start(alloc, die, scheme, plan) {
        Ok(session) => Ok(session),
        Err(refused) => match refused.why {
            MountError::OutOfMemory => Err(RunError::OutOfMemory),
            MountError::NoSpare => Err(RunError::NoSpare),
            MountError::Shape | MountError::DieFault => unreachable!(),
        },
    }
}

/// Runs lines on a die, as a device of the kind `F`.
fn run_with<C: Scheme + Drop, F: PowerDevice<MemDie, C>, O: Sink>(
    alloc: Global,
    head: &ImageHead,
    scheme: C,
    die: MemDie,
    lines: &[Line],
    out: &mut O,
) -> Result<MemDie, RunError>
    requires within { is_within_limits head.now ≡ true }
    requires scheme { C.meaning scheme ≡ meaning_named head.now.scheme }
    requires ready { IsReady head.now (mem_state die) }
    requires can_step { All CanStep lines.now }
    ensures done { IfOk result (λ last. RunsOn head.now (mem_state die) lines.now (O.log out.old) (O.log out.new) (mem_state last)) }
    ensures front { IsErrOf result RunError.Sink → RunsFrontOn head.now (mem_state die) lines.now (O.log out.old) (O.log out.new) }
    ensures fault { IsErrOf result RunError.Sink → HasFailed (O.log out.old) (O.log out.new) }
    ensures no_spare { IsErrOf result RunError.NoSpare → EveryBlockLive (numbers_named head.now).geometry (mem_state die) × (out.new ≡ out.old) }
    ensures memory { IsErrOf result RunError.OutOfMemory → out.new ≡ out.old }
    ensures held { TellsHeld (O.written out.old) (O.written out.new) (O.log out.old) (O.log out.new) }
{
    let mut session: Session<MemDie, C, F> = start(alloc, head, scheme, die)?;
    match run_lines(alloc, &mut session, lines, out) {
        Ok(()) => Ok(session.finish()),
        Err(_) => Err(RunError::Sink),
    }
}

/// Runs lines with a scheme that was made, or for which there was no memory.
fn run_made<C: Scheme + Drop, O: Sink>(
    alloc: Global,
    head: &ImageHead,
    made: Result<C, AllocError>,
    die: MemDie,
    lines: &[Line],
    out: &mut O,
) -> Result<MemDie, RunError>
    requires within { is_within_limits head.now ≡ true }
    requires scheme { IfOk made (λ scheme. C.meaning scheme ≡ meaning_named head.now.scheme) }
    requires ready { IsReady head.now (mem_state die) }
    requires can_step { All CanStep lines.now }
    ensures done { IfOk result (λ last. RunsOn head.now (mem_state die) lines.now (O.log out.old) (O.log out.new) (mem_state last)) }
    ensures front { IsErrOf result RunError.Sink → RunsFrontOn head.now (mem_state die) lines.now (O.log out.old) (O.log out.new) }
    ensures fault { IsErrOf result RunError.Sink → HasFailed (O.log out.old) (O.log out.new) }
    ensures no_spare { IsErrOf result RunError.NoSpare → EveryBlockLive (numbers_named head.now).geometry (mem_state die) × (out.new ≡ out.old) }
    ensures memory { IsErrOf result RunError.OutOfMemory → out.new ≡ out.old }
    ensures held { TellsHeld (O.written out.old) (O.written out.new) (O.log out.old) (O.log out.new) }
{
    match made {
        Ok(scheme) => run_with::<C, Ftl<MemDie, C>, O>(alloc, head, scheme, die, lines, out),
        Err(_) => Err(RunError::OutOfMemory),
    }
}

/// Mounts a die with the head's scheme, runs lines on it, and gives each reply with its line feed to `out` in one piece. The
/// answer is the die as the lines leave it.
///
/// # Errors
///
/// Want of memory, or `NoSpare` where every block has a live record, before anything is given; or a fault of the sink.
#[tactic(auto, unfolding(schemes::specs::Schemes::meaning_named, die_image::specs::Schemes::row_of))]
pub fn run_on<O: Sink>(
    alloc: Global,
    head: &ImageHead,
    die: MemDie,
    lines: &[Line],
    out: &mut O,
) -> Result<MemDie, RunError>
    requires within { is_within_limits head.now ≡ true }
    requires ready { IsReady head.now (mem_state die) }
    requires can_step { All CanStep lines.now }
    ensures done { IfOk result (λ last. RunsOn head.now (mem_state die) lines.now (O.log out.old) (O.log out.new) (mem_state last)) }
    ensures front { IsErrOf result RunError.Sink → RunsFrontOn head.now (mem_state die) lines.now (O.log out.old) (O.log out.new) }
    ensures fault { IsErrOf result RunError.Sink → HasFailed (O.log out.old) (O.log out.new) }
    ensures no_spare { IsErrOf result RunError.NoSpare → EveryBlockLive (numbers_named head.now).geometry (mem_state die) × (out.new ≡ out.old) }
    ensures memory { IsErrOf result RunError.OutOfMemory → out.new ≡ out.old }
    ensures held { TellsHeld (O.written out.old) (O.written out.new) (O.log out.old) (O.log out.new) }
{
    match head.scheme {
        SchemeName::Plain16 => run_made(alloc, head, plains(alloc, 16), die, lines, out),
        SchemeName::Rs16 => run_made(alloc, head, pairs(alloc, 16), die, lines, out),
        SchemeName::Rs512 => run_made(alloc, head, pairs(alloc, 512), die, lines, out),
        SchemeName::Coset16 => run_made(alloc, head, cosets(alloc, 16), die, lines, out),
        SchemeName::Coset512 => run_made(alloc, head, cosets(alloc, 512), die, lines, out),
        SchemeName::Flip16 => run_made(alloc, head, flips(alloc, 16), die, lines, out),
        SchemeName::Flip512 => run_made(alloc, head, flips(alloc, 512), die, lines, out),
        SchemeName::Ham16 => run_made(alloc, head, sevens(alloc, 16), die, lines, out),
        SchemeName::Ham512 => run_made(alloc, head, sevens(alloc, 512), die, lines, out),
    }
}
