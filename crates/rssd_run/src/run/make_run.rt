//! The command `make`: a workload is stepped on a blank die, and two lines tell of it.
ghost use Rattle.std.specs.Prelude.{◌≡◌, ℕ, List, [], ◌∷◌, true, IfOk, OnOk, OnErr, IsErrOf};
ghost use Rattle.die_image.specs.declared.head.ImageHead.{ImageHead as Head};
ghost use Rattle.die_image.specs.Image.{is_within_limits, shape_of};
ghost use Rattle.mem_die.specs.MemState.{mem_state, IsNew};
ghost use Rattle.rssd_io.specs.Pieces.{Gives, StopsAt};
ghost use Rattle.rssd_io.specs.Told.{TellsHeld};
ghost use Rattle.rssd_run.specs.Calm.{IsCalm};
ghost use Rattle.rssd_run.specs.MakeRuns.{Makes, TellsMade, SaysMake};
ghost use Rattle.rssd_run.specs.Statuses.{output};
ghost use Rattle.schemes.specs.Schemes.{meaning_named};

use crate::run::Stepping;
use crate::run::on_die::{RunError, start};
use crate::run::replay::blank_die;
use crate::run::session::Session;
use crate::run::workload::{Seeded, held_text, read_held, step_workload};
use crate::status::Status;
use die_image::{ImageHead, SchemeName};
use mem_die::MemDie;
use rssd_core::device::PowerDevice;
use rssd_core::whole::Ftl;
use rssd_io::{Sink, WriteFault};
use rssd_script::{Line, Reply, print_reply};
use schemes::{cosets, flips, pairs, plains, sevens};
use std::alloc::{AllocError, Global};
use striped::Scheme;

/// Gives two lines to `out`, each in one piece.
fn tell<O: Sink>(out: &mut O, stat: &[u8], held: &[u8]) -> Result<(), WriteFault>
    ensures done { OnOk result (Gives (stat.now ∷ held.now ∷ []) (O.log out.old) (O.log out.new)) }
    ensures stops { OnErr result (StopsAt (stat.now ∷ held.now ∷ []) (O.log out.old) (O.log out.new)) }
    ensures held { TellsHeld (O.written out.old) (O.written out.new) (O.log out.old) (O.log out.new) }
{
    out.give(stat)?;
    out.give(held)
}

/// Steps a workload on a blank die, as a device of the kind `F`, and tells of it.
fn make_with<C: Scheme + Drop, F: PowerDevice<MemDie, C>, O: Sink>(
    alloc: Global,
    head: &ImageHead,
    seeded: Seeded,
    scheme: C,
    die: MemDie,
    out: &mut O,
) -> Result<(), RunError>
    requires within { is_within_limits head.now ≡ true }
    requires scheme { C.meaning scheme ≡ meaning_named head.now.scheme }
    requires blank { IsNew (shape_of head.now) (mem_state die) }
    ensures done { OnOk result (TellsMade head.now seeded.seed seeded.count (λ lines. Gives lines (O.log out.old) (O.log out.new))) }
    ensures front { IsErrOf result RunError.Sink → TellsMade head.now seeded.seed seeded.count (λ lines. StopsAt lines (O.log out.old) (O.log out.new)) }
    ensures spare { IsErrOf result RunError.NoSpare → ⊥ }
    ensures memory { IsErrOf result RunError.OutOfMemory → out.new ≡ out.old }
    ensures held { TellsHeld (O.written out.old) (O.written out.new) (O.log out.old) (O.log out.new) }
{
    let mut session: Session<MemDie, C, F> = start(alloc, head, scheme, die)?;
    let sector_bytes = head.scheme.sector_bytes();
    let Ok(()) = step_workload(alloc, &mut session, seeded, head.sectors, sector_bytes) else {
        return Err(RunError::OutOfMemory);
    };
    let mut stat = Reply::Off;
    session.step(alloc, &Line::Stat, &mut stat);
    let held = read_held(alloc, &mut session, head.sectors);
    match tell(
        out,
        print_reply(&stat).as_slice(),
        held_text(held).as_slice(),
    ) {
        Ok(()) => Ok(()),
        Err(_) => Err(RunError::Sink),
    }
}

/// Steps a workload with a scheme that was made, or for which there was no memory.
fn make_made<C: Scheme + Drop, O: Sink>(
    alloc: Global,
    head: &ImageHead,
    seeded: Seeded,
    made: Result<C, AllocError>,
    die: MemDie,
    out: &mut O,
) -> Result<(), RunError>
    requires within { is_within_limits head.now ≡ true }
    requires scheme { IfOk made (λ scheme. C.meaning scheme ≡ meaning_named head.now.scheme) }
    requires blank { IsNew (shape_of head.now) (mem_state die) }
    ensures done { OnOk result (TellsMade head.now seeded.seed seeded.count (λ lines. Gives lines (O.log out.old) (O.log out.new))) }
    ensures front { IsErrOf result RunError.Sink → TellsMade head.now seeded.seed seeded.count (λ lines. StopsAt lines (O.log out.old) (O.log out.new)) }
    ensures spare { IsErrOf result RunError.NoSpare → ⊥ }
    ensures memory { IsErrOf result RunError.OutOfMemory → out.new ≡ out.old }
    ensures held { TellsHeld (O.written out.old) (O.written out.new) (O.log out.old) (O.log out.new) }
{
    match made {
        Ok(scheme) => make_with::<C, Ftl<MemDie, C>, O>(alloc, head, seeded, scheme, die, out),
        Err(_) => Err(RunError::OutOfMemory),
    }
}

/// Steps the workload of a seed on a blank die of this head that is mounted first, each line as it is drawn. Then it gives two
/// lines to `out`: the reply to `stat`, and how many sectors are not all zeros with the sum of all bytes of all sectors.
///
/// # Errors
///
/// Want of memory, before anything is given; or a fault of the sink. A blank die has a spare block.
#[tactic(auto, unfolding(schemes::specs::Schemes::meaning_named, die_image::specs::Schemes::row_of))]
pub fn make_run<O: Sink>(
    alloc: Global,
    head: &ImageHead,
    seeded: Seeded,
    out: &mut O,
) -> Result<(), RunError>
    requires { is_within_limits head.now ≡ true }
    ensures done { OnOk result (TellsMade head.now seeded.seed seeded.count (λ lines. Gives lines (O.log out.old) (O.log out.new))) }
    ensures front { IsErrOf result RunError.Sink → TellsMade head.now seeded.seed seeded.count (λ lines. StopsAt lines (O.log out.old) (O.log out.new)) }
    ensures spare { IsErrOf result RunError.NoSpare → ⊥ }
    ensures memory { IsErrOf result RunError.OutOfMemory → out.new ≡ out.old }
    ensures held { TellsHeld (O.written out.old) (O.written out.new) (O.log out.old) (O.log out.new) }
{
    let Ok(die) = blank_die(alloc, head) else {
        return Err(RunError::OutOfMemory);
    };
    match head.scheme {
        SchemeName::Plain16 => make_made(alloc, head, seeded, plains(alloc, 16), die, out),
        SchemeName::Rs16 => make_made(alloc, head, seeded, pairs(alloc, 16), die, out),
        SchemeName::Rs512 => make_made(alloc, head, seeded, pairs(alloc, 512), die, out),
        SchemeName::Coset16 => make_made(alloc, head, seeded, cosets(alloc, 16), die, out),
        SchemeName::Coset512 => make_made(alloc, head, seeded, cosets(alloc, 512), die, out),
        SchemeName::Flip16 => make_made(alloc, head, seeded, flips(alloc, 16), die, out),
        SchemeName::Flip512 => make_made(alloc, head, seeded, flips(alloc, 512), die, out),
        SchemeName::Ham16 => make_made(alloc, head, seeded, sevens(alloc, 16), die, out),
        SchemeName::Ham512 => make_made(alloc, head, seeded, sevens(alloc, 512), die, out),
    }
}

/// Answers `make`.
#[tactic(auto, using(rssd_io::proofs::Told::held_more))]
pub fn answer_make<O: Sink>(alloc: Global, head: &ImageHead, seeded: Seeded, out: &mut O) -> Status
    requires { is_within_limits head.now ≡ true }
    ensures says { SaysMake head.now seeded.seed seeded.count (output (O.log out.old) (O.log out.new)) result }
    ensures held { TellsHeld (O.written out.old) (O.written out.new) (O.log out.old) (O.log out.new) }
{
    match make_run(alloc, head, seeded, out) {
        Ok(()) => match out.flush() {
            Ok(()) => Status::Done,
            Err(_) => Status::WriteFault,
        },
        Err(RunError::Sink) => Status::WriteFault,
        Err(RunError::OutOfMemory) => Status::OutOfMemory,
        Err(RunError::NoSpare) => unreachable!(),
    }
}

/// No reply of such a run is `fault` or `no spare`, and none is `off`.
pub fn makes_are_calm()
    ensures { (head : Head) (seed count : ℕ) (made : Makes head seed count) → IsCalm made.run.events }
{}
