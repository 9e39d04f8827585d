//! The command `queue`: the lines of a script go through a queue to a blank die that is mounted first.
ghost use Rattle.std.specs.Prelude.{◌≡◌, ℕ, ◌^◌, ◌<◌, List, true, length, IfOk, OnOk, IsErrOf};
ghost use Rattle.std.specs.List.{All};
ghost use Rattle.die_image.specs.declared.head.ImageHead.{ImageHead as Head};
ghost use Rattle.die_image.specs.Image.{is_within_limits, shape_of};
ghost use Rattle.die_image.specs.Schemes.{row_of};
ghost use Rattle.mem_die.specs.MemState.{mem_state, IsNew};
ghost use Rattle.rssd_io.specs.Event.{Event};
ghost use Rattle.rssd_io.specs.Told.{TellsLeft, TellsHeld};
ghost use Rattle.rssd_script.specs.declared.lines.Line.{Line as Spelled};
ghost use Rattle.rssd_run.specs.Headline.{AllKeepHeadline, ChargeNeverFalls};
ghost use Rattle.rssd_run.specs.Heads.{numbers_named, zero_sectors};
ghost use Rattle.rssd_run.specs.QueueActs.{steps_of};
ghost use Rattle.rssd_run.specs.QueueLaws.{ReadsTheOrder, ServesAll, ServesSoon, ServesSoonWhereServed};
ghost use Rattle.rssd_run.specs.QueueRuns.{Queues, QueuesFront};
ghost use Rattle.rssd_run.specs.ReadScript.{TakesScript};
ghost use Rattle.rssd_run.specs.Run.{IsRun};
ghost use Rattle.schemes.specs.Schemes.{meaning_named};
ghost use Rattle.rssd_run.specs.Shows.{CanStep};
ghost use Rattle.rssd_run.specs.Statuses.{input, output};
ghost use Rattle.rssd_run.specs.Top.{SaysQueue};

use crate::refusal::refuse_script;
use crate::run::on_die::{RunError, start};
use crate::run::queue_lines::queue_lines;
use crate::run::replay::blank_die;
use crate::run::script::{ReadError, read_script};
use crate::run::session::Session;
use crate::status::Status;
use die_image::{ImageHead, SchemeName};
use mem_die::MemDie;
use rssd_core::device::PowerDevice;
use rssd_core::whole::Ftl;
use rssd_io::{Sink, Source};
use rssd_queue::Queue;
use rssd_script::Line;
use schemes::{cosets, flips, pairs, plains, sevens};
use std::alloc::{AllocError, Global};
use striped::Scheme;

/// Runs lines through a queue on a blank die, as a device of the kind `F`.
fn queue_with<C: Scheme + Drop, F: PowerDevice<MemDie, C>, O: Sink>(
    alloc: Global,
    head: &ImageHead,
    scheme: C,
    die: MemDie,
    lines: &[Line],
    out: &mut O,
) -> Result<(), RunError>
    requires within { is_within_limits head.now ≡ true }
    requires scheme { C.meaning scheme ≡ meaning_named head.now.scheme }
    requires blank { IsNew (shape_of head.now) (mem_state die) }
    requires can_step { All CanStep lines.now }
    requires few_lines { length lines.now < 2 ^ 32 }
    ensures done { OnOk result (Queues head.now lines.now (O.log out.old) (O.log out.new)) }
    ensures front { IsErrOf result RunError.Sink → QueuesFront head.now lines.now (O.log out.old) (O.log out.new) }
    ensures spare { IsErrOf result RunError.NoSpare → ⊥ }
    ensures memory { IsErrOf result RunError.OutOfMemory → out.new ≡ out.old }
    ensures held { TellsHeld (O.written out.old) (O.written out.new) (O.log out.old) (O.log out.new) }
{
    let mut session: Session<MemDie, C, F> = start(alloc, head, scheme, die)?;
    let Ok(mut queue) = Queue::new(alloc, head.sectors, head.scheme.sector_bytes()) else {
        return Err(RunError::OutOfMemory);
    };
    match queue_lines(alloc, &mut session, &mut queue, lines, out) {
        Ok(()) => Ok(()),
        Err(_) => Err(RunError::Sink),
    }
}

/// Runs lines with a scheme that was made, or for which there was no memory.
fn queue_made<C: Scheme + Drop, O: Sink>(
    alloc: Global,
    head: &ImageHead,
    made: Result<C, AllocError>,
    die: MemDie,
    lines: &[Line],
    out: &mut O,
) -> Result<(), RunError>
    requires within { is_within_limits head.now ≡ true }
    requires scheme { IfOk made (λ scheme. C.meaning scheme ≡ meaning_named head.now.scheme) }
    requires blank { IsNew (shape_of head.now) (mem_state die) }
    requires can_step { All CanStep lines.now }
    requires few_lines { length lines.now < 2 ^ 32 }
    ensures done { OnOk result (Queues head.now lines.now (O.log out.old) (O.log out.new)) }
    ensures front { IsErrOf result RunError.Sink → QueuesFront head.now lines.now (O.log out.old) (O.log out.new) }
    ensures spare { IsErrOf result RunError.NoSpare → ⊥ }
    ensures memory { IsErrOf result RunError.OutOfMemory → out.new ≡ out.old }
    ensures held { TellsHeld (O.written out.old) (O.written out.new) (O.log out.old) (O.log out.new) }
{
    match made {
        Ok(scheme) => queue_with::<C, Ftl<MemDie, C>, O>(alloc, head, scheme, die, lines, out),
        Err(_) => Err(RunError::OutOfMemory),
    }
}

/// Runs lines through a queue on a blank die of this head that is mounted first, and gives each reply with the number of its line
/// to `out` in one piece.
///
/// # Errors
///
/// Want of memory, before anything is given; or a fault of the sink. A blank die has a spare block.
#[tactic(auto, unfolding(schemes::specs::Schemes::meaning_named, die_image::specs::Schemes::row_of))]
fn queue_run<O: Sink>(
    alloc: Global,
    head: &ImageHead,
    lines: &[Line],
    out: &mut O,
) -> Result<(), RunError>
    requires within { is_within_limits head.now ≡ true }
    requires can_step { All CanStep lines.now }
    requires few_lines { length lines.now < 2 ^ 32 }
    ensures done { OnOk result (Queues head.now lines.now (O.log out.old) (O.log out.new)) }
    ensures front { IsErrOf result RunError.Sink → QueuesFront head.now lines.now (O.log out.old) (O.log out.new) }
    ensures spare { IsErrOf result RunError.NoSpare → ⊥ }
    ensures memory { IsErrOf result RunError.OutOfMemory → out.new ≡ out.old }
    ensures held { TellsHeld (O.written out.old) (O.written out.new) (O.log out.old) (O.log out.new) }
{
    let Ok(die) = blank_die(alloc, head) else {
        return Err(RunError::OutOfMemory);
    };
    match head.scheme {
        SchemeName::Plain16 => queue_made(alloc, head, plains(alloc, 16), die, lines, out),
        SchemeName::Rs16 => queue_made(alloc, head, pairs(alloc, 16), die, lines, out),
        SchemeName::Rs512 => queue_made(alloc, head, pairs(alloc, 512), die, lines, out),
        SchemeName::Coset16 => queue_made(alloc, head, cosets(alloc, 16), die, lines, out),
        SchemeName::Coset512 => queue_made(alloc, head, cosets(alloc, 512), die, lines, out),
        SchemeName::Flip16 => queue_made(alloc, head, flips(alloc, 16), die, lines, out),
        SchemeName::Flip512 => queue_made(alloc, head, flips(alloc, 512), die, lines, out),
        SchemeName::Ham16 => queue_made(alloc, head, sevens(alloc, 16), die, lines, out),
        SchemeName::Ham512 => queue_made(alloc, head, sevens(alloc, 512), die, lines, out),
    }
}

/// Answers `queue`.
#[tactic(auto, using(rssd_io::proofs::Told::held_more))]
pub fn answer_queue<T: Source, O: Sink>(
    alloc: Global,
    head: &ImageHead,
    script: &mut T,
    out: &mut O,
) -> Status
    requires { is_within_limits head.now ≡ true }
    ensures says { SaysQueue head.now (input (T.log script.old) (T.log script.new)) (output (O.log out.old) (O.log out.new)) result }
    ensures script_bounded { TakesScript (T.log script.old) (T.log script.new) }
    ensures script_left { TellsLeft (T.left script.old) (T.left script.new) (T.log script.old) (T.log script.new) }
    ensures held { TellsHeld (O.written out.old) (O.written out.new) (O.log out.old) (O.log out.new) }
{
    let lines = match read_script(alloc, script) {
        Ok(lines) => lines,
        Err(ReadError::Fault) => return Status::ReadFault,
        Err(ReadError::Refused(why)) => return refuse_script(out, why),
    };
    match queue_run(alloc, head, &lines, out) {
        Ok(()) => match out.flush() {
            Ok(()) => Status::Done,
            Err(_) => Status::WriteFault,
        },
        Err(RunError::Sink) => Status::WriteFault,
        Err(RunError::OutOfMemory) => Status::OutOfMemory,
        Err(RunError::NoSpare) => unreachable!(),
    }
}

/// What is carried out in a queue run, with its replies and in its order, is a run of the session.
pub fn queue_runs_are_runs_of_the_session()
    ensures { (head : Head) (lines : List Spelled) (log after : List Event) (given : Queues head lines log after)
        → IsRun (numbers_named head) given.before (steps_of given.acts.acts) given.after }
{}

/// So each line of a queue run keeps the headline.
pub fn queue_runs_keep_the_headline()
    ensures { (head : Head) (lines : List Spelled) (log after : List Event) (given : Queues head lines log after)
        → AllKeepHeadline (numbers_named head) (steps_of given.acts.acts) }
{}

/// The headline is kept too by each line of a queue run whose sink failed, up to the line whose reply it did not take whole.
pub fn cut_off_queue_runs_keep_the_headline()
    ensures { (head : Head) (lines : List Spelled) (log after : List Event) (given : QueuesFront head lines log after)
        → AllKeepHeadline (numbers_named head) (steps_of given.acts.acts) }
{}

/// From any view of a queue run to any later one, no cell's charge falls between erases of its block.
pub fn charge_never_falls_in_a_queue_run()
    ensures { (head : Head) (lines : List Spelled) (log after : List Event) (given : Queues head lines log after)
        → ChargeNeverFalls given.before (steps_of given.acts.acts) }
{}

/// Each command that a queue run puts is served exactly once, with its tag, and those of a sector in the order of their lines.
pub fn queue_runs_serve_all_in_order()
    ensures { (head : Head) (lines : List Spelled) (log after : List Event) (given : Queues head lines log after)
        → ServesAll (row_of head.scheme).sector_bytes given.acts.acts }
{}

/// Each command that a queue run puts is among the next 1,024 that are served.
pub fn queue_runs_serve_each_soon()
    ensures { (head : Head) (lines : List Spelled) (log after : List Event) (given : Queues head lines log after)
        → ServesSoon (row_of head.scheme).sector_bytes given.acts.acts }
{}

/// Where a queue run's sink failed, each command that it put is among the next 1,024 that were served, if so many were.
pub fn cut_off_queue_runs_serve_each_soon()
    ensures { (head : Head) (lines : List Spelled) (log after : List Event) (given : QueuesFront head lines log after)
        → ServesSoonWhereServed (row_of head.scheme).sector_bytes given.acts.acts }
{}

/// Where no served command is refused, each read that is served tells the row that the array has where the commands are carried
/// out in the order of their lines, and all rows are zeros at first.
pub fn reads_of_a_queue_run_give_the_rows_of_the_order()
    ensures { (head : Head) (lines : List Spelled) (log after : List Event) (given : Queues head lines log after)
        → ReadsTheOrder (row_of head.scheme).sector_bytes (zero_sectors head) given.acts.acts }
{}
