//! The commands `worn` and `pair`: a script is played on a die with reserve blocks whose erases go bad, or on two dies as one.
//! They know neither the lines that only a session takes, nor what a line does.
ghost use Rattle.std.specs.Prelude.{◌≡◌, ◌%◌, ◌^◌, ◌<◌, ◌↔◌, length, List, true, All, IfOk, IfErr, IfSome, IsNone};
ghost use Rattle.die_image.specs.declared.head.ImageHead.{ImageHead as Head};
ghost use Rattle.die_image.specs.Image.{is_within_limits, shape_of};
ghost use Rattle.mem_die.specs.Limits.{IsWithinLimits as FitsDie};
ghost use Rattle.mem_die.specs.MemState.{mem_state, IsNew};
ghost use Rattle.rssd_core.specs.Mount.{MountFails};
ghost use Rattle.rssd_io.specs.Event.{Event as Act};
ghost use Rattle.rssd_io.specs.Told.{TellsLeft, TellsHeld};
ghost use Rattle.rssd_script.specs.declared.lines.Line.{Line as Spelled};
ghost use Rattle.rssd_words.specs.Commands.{IsReserve};
ghost use Rattle.rssd_run.specs.Heads.{numbers_named};
ghost use Rattle.rssd_run.specs.Played.{IsPlayed};
ghost use Rattle.rssd_run.specs.PlayRuns.{FirstUnplayed, RefusesPlayed, IsBlankDie, IsPlayStart, LeavesDie, EndsPlay, IsBlankPair, IsBlankWorn, IsPairStart, NeverStops, PlaysFrom, PlaysFrontFrom};
ghost use Rattle.rssd_run.specs.Replays.{Replays, ReplaysFront};
ghost use Rattle.rssd_run.specs.ReadScript.{ReadsAll, TakesScript};
ghost use Rattle.rssd_run.specs.Statuses.{input, output};
ghost use Rattle.rssd_run.specs.Top.{SaysWorn, SaysPair};

use crate::refusal::refuse_script;
use crate::run::on_die::die_shape;
use crate::run::playing::{PlayError, play_on};
use crate::run::script::{ReadError, read_script};
use crate::status::Status;
use cell_die::{Die, Shape};
use die_image::ImageHead;
use mem_die::{DieRefusal, MemDie, OutOfMemory, WornMem};
use rssd_io::{Sink, Source};
use rssd_script::{Line, ScriptError};
use spare_die::{OpenError, SpareDie, open};
use std::alloc::{AllocError, Global};
use stripe_die::StripeDie;

/// A die in memory with no charged cell.
fn blank_mem(alloc: Global, shape: Shape) -> Result<MemDie, OutOfMemory>
    requires { FitsDie shape }
    ensures { IfOk result (λ die. IsNew shape (mem_state die)) }
{
    match MemDie::blank(alloc, shape) {
        Ok(die) => Ok(die),
        Err(DieRefusal::OutOfMemory) => Err(AllocError),
        Err(DieRefusal::Shape) => unreachable!(),
    }
}

/// A blank die with so many reserve blocks, each `bad`-th erase of which makes its block bad.
pub fn worn_die(
    alloc: Global,
    head: &ImageHead,
    reserve: u32,
    bad: u32,
) -> Result<SpareDie<WornMem>, OutOfMemory>
    requires within { is_within_limits head.now ≡ true }
    requires reserve { IsReserve head.now reserve }
    ensures { IfOk result (λ die. IsBlankWorn head.now reserve bad (⟦<SpareDie<WornMem> as Die>⟧.state die)) }
{
    let shape = Shape {
        blocks: head.blocks + reserve + 1,
        ..die_shape(head)
    };
    let die = WornMem::new(alloc, blank_mem(alloc, shape)?, bad)?;
    match open(alloc, die, head.blocks) {
        Ok(die) => Ok(die),
        Err(refused) => match refused.why {
            OpenError::OutOfMemory => Err(AllocError),
            OpenError::Shape | OpenError::DieFault | OpenError::Table => unreachable!(),
        },
    }
}

/// Two blank dies, each with half of the blocks, as one.
pub fn pair_die(alloc: Global, head: &ImageHead) -> Result<StripeDie<MemDie, MemDie>, OutOfMemory>
    requires within { is_within_limits head.now ≡ true }
    requires even { head.now.blocks % 2 ≡ 0 }
    ensures { IfOk result (λ die. IsBlankPair head.now (⟦<StripeDie<MemDie, MemDie> as Die>⟧.state die)) }
{
    let shape = Shape {
        blocks: head.blocks / 2,
        ..die_shape(head)
    };
    match stripe_die::new(blank_mem(alloc, shape)?, blank_mem(alloc, shape)?) {
        Ok(pair) => Ok(pair),
        Err(_) => unreachable!(),
    }
}

/// Whether a line is played on a device.
fn is_played(line: &Line) -> bool
    ensures { result ≡ true ↔ IsPlayed line.now }
{
    match line {
        Line::Write { .. } | Line::Read { .. } | Line::Trim { .. } | Line::Idle { .. } => true,
        Line::Cut { .. } | Line::FailRead { .. } | Line::Mount | Line::Stat => false,
    }
}

/// The number of the first line that is not played, from 1.
fn first_unplayed(lines: &[Line]) -> Option<u32>
    requires { length lines.now < 2 ^ 32 }
    ensures first { IfSome result (λ line. FirstUnplayed lines.now line) }
    ensures none { IsNone result → All IsPlayed lines.now }
{
    for (place, line) in lines.iter().enumerate() {
        if !is_played(line) {
            return Some(place as u32 + 1);
        }
    }
    None
}

/// Reads a script each line of which is played.
fn read_played<T: Source>(alloc: Global, script: &mut T) -> Result<Vec<Line>, ReadError>
    ensures lines { IfOk result (λ lines. ReadsAll (T.log script.old) (T.log script.new) lines.items) }
    ensures played { IfOk result (λ lines. All IsPlayed lines.items) }
    ensures refused { IfErr result (RefusesPlayed (T.log script.old) (T.log script.new)) }
    ensures bounded { TakesScript (T.log script.old) (T.log script.new) }
    ensures left { TellsLeft (T.left script.old) (T.left script.new) (T.log script.old) (T.log script.new) }
{
    let lines = read_script(alloc, script)?;
    match first_unplayed(&lines) {
        Some(line) => Err(ReadError::Refused(ScriptError::BadLine(line))),
        None => Ok(lines),
    }
}

/// Plays lines on a blank die, no mount of which fails, and has `out` hand the replies on.
#[tactic(auto, using(rssd_io::proofs::Told::held_more))]
fn answer_on<D: Die + Drop, O: Sink>(
    alloc: Global,
    head: &ImageHead,
    die: D,
    lines: &[Line],
    out: &mut O,
) -> Status
    requires within { is_within_limits head.now ≡ true }
    requires blank { IsBlankDie (shape_of head.now) (D.state die) }
    requires mounts { (new : D) → MountFails (numbers_named head.now) (D.state die) (D.state new) → ⊥ }
    requires played { All IsPlayed lines.now }
    ensures ends { EndsPlay (IsPlayStart head.now (D.state die)) (LeavesDie D.state) (numbers_named head.now) lines.now (output (O.log out.old) (O.log out.new)) result }
    ensures held { TellsHeld (O.written out.old) (O.written out.new) (O.log out.old) (O.log out.new) }
{
    match play_on(alloc, head, die, lines, out) {
        Ok(()) => match out.flush() {
            Ok(()) => Status::Done,
            Err(_) => Status::WriteFault,
        },
        Err(PlayError::Sink) => Status::WriteFault,
        Err(PlayError::OutOfMemory) => Status::OutOfMemory,
    }
}

/// Answers `worn`.
pub fn answer_worn<T: Source, O: Sink>(
    alloc: Global,
    head: &ImageHead,
    reserve: u32,
    bad: u32,
    script: &mut T,
    out: &mut O,
) -> Status
    requires within { is_within_limits head.now ≡ true }
    requires reserve { IsReserve head.now reserve }
    ensures says { SaysWorn head.now reserve bad (input (T.log script.old) (T.log script.new)) (output (O.log out.old) (O.log out.new)) result }
    ensures script_bounded { TakesScript (T.log script.old) (T.log script.new) }
    ensures script_left { TellsLeft (T.left script.old) (T.left script.new) (T.log script.old) (T.log script.new) }
    ensures held { TellsHeld (O.written out.old) (O.written out.new) (O.log out.old) (O.log out.new) }
{
    let lines = match read_played(alloc, script) {
        Ok(lines) => lines,
        Err(ReadError::Fault) => return Status::ReadFault,
        Err(ReadError::Refused(why)) => return refuse_script(out, why),
    };
    let Ok(die) = worn_die(alloc, head, reserve, bad) else {
        return Status::OutOfMemory;
    };
    answer_on(alloc, head, die, &lines, out)
}

/// Answers `pair`.
pub fn answer_pair<T: Source, O: Sink>(
    alloc: Global,
    head: &ImageHead,
    script: &mut T,
    out: &mut O,
) -> Status
    requires within { is_within_limits head.now ≡ true }
    requires even { head.now.blocks % 2 ≡ 0 }
    ensures says { SaysPair head.now (input (T.log script.old) (T.log script.new)) (output (O.log out.old) (O.log out.new)) result }
    ensures script_bounded { TakesScript (T.log script.old) (T.log script.new) }
    ensures script_left { TellsLeft (T.left script.old) (T.left script.new) (T.log script.old) (T.log script.new) }
    ensures held { TellsHeld (O.written out.old) (O.written out.new) (O.log out.old) (O.log out.new) }
{
    let lines = match read_played(alloc, script) {
        Ok(lines) => lines,
        Err(ReadError::Fault) => return Status::ReadFault,
        Err(ReadError::Refused(why)) => return refuse_script(out, why),
    };
    let Ok(die) = pair_die(alloc, head) else {
        return Status::OutOfMemory;
    };
    answer_on(alloc, head, die, &lines, out)
}

/// What `pair` gives is what a replay of the same lines on one die of the head may give: it begins at a first view of one, and
/// each of its steps is a step of a session. So all that holds of replays holds of it.
pub fn pairs_are_replays()
    ensures { (head : Head) (lines : List Spelled) (log after : List Act) → head.blocks % 2 ≡ 0
        → PlaysFrom (IsPairStart head) NeverStops (numbers_named head) lines log after → Replays head lines log after }
{}

/// The same up to the line whose reply the sink did not take whole.
pub fn cut_off_pairs_are_replays()
    ensures { (head : Head) (lines : List Spelled) (log after : List Act) → head.blocks % 2 ≡ 0
        → PlaysFrontFrom (IsPairStart head) NeverStops (numbers_named head) lines log after → ReplaysFront head lines log after }
{}
