//! The top call: words and lines to tables and a status.
ghost use Rattle.std.specs.Prelude.{◌≡◌, ◌≤◌, ◌<◌, ◌^◌, ◌++◌, ◌∷◌, [], ℕ, List, true, false, IfOk, IfErr, codes, decimal, map, string_bytes};
ghost use Rattle.die_image.specs.Image.{is_within_limits};
ghost use Rattle.die_image.specs.Schemes.{row_of};
ghost use Rattle.lab_lines.specs.Drawing.{plan_of as drawn_for, state_of, left_of};
ghost use Rattle.lab_words.specs.Orders.{IsWithin};
ghost use Rattle.rssd_run.specs.ReadImage.{TakesImage};
ghost use Rattle.rssd_run.specs.Statuses.{bad_line, input as taken_of, output as given_to};
ghost use Rattle.rssd_lab.specs.declared.status.Status.{Status as How};
ghost use Rattle.rssd_lab.specs.declared.telling.Telling.{Telling as Told};
ghost use Rattle.rssd_lab.specs.Top.{number_of, GivesLine, SaysEnd, SaysStopped, SaysUnread, SaysHalted, SaysLeft, Settles, SettlesBlank, IsTold};
ghost use Rattle.rssd_lab.specs.Stages.{IsStageWithin, StartOn, EndOn, head_on};
ghost use Rattle.rssd_lab.specs.Started.{RunsFrom};
ghost use Rattle.rssd_lab.specs.Listed.{RunHalts};
ghost use Rattle.rssd_lab.specs.Ends.{Call, Says, SaysOf, SaysOnBlank, SaysOnImage, PlaysInput, PlaysDrawn, HaltsInput, HaltsDrawn, PlaysAllOf, HaltsOf};

use crate::pace::{Pace, Paced};
use crate::ready::read_ready;
use crate::stage::{Stage, run_stage};
use crate::status::{Halt, NotRun, Outcome, Sources, Status, Stop};
use crate::telling::Telling;
use arrayvec::ArrayVec;
use die_image::{ImageError, ImageHead};
use itoa::Buffer;
use lab_lines::{Drawn, Kind, Lines, LinesEnd, Plan};
use lab_stream::Stream;
use lab_words::{Asked, AskedDie, DieFrom, LinesFrom, Voice, read_words};
use mem_die::MemDie;
use rssd_io::{Sink, Source, give_last};
use rssd_run::image_line;
use rssd_run::run::image::{ImageReadError, give_image};
use rssd_run::run::image_run::cells_of;
use std::alloc::Global;

/// The line that says which line is bad.
fn bad_line(number: u64) -> ArrayVec<u8, 32>
    ensures { result.items ≡ bad_line number }
{
    let mut digits = Buffer::new();
    let mut text = ArrayVec::new();
    let _ = text.try_extend_from_slice(b"bad line ");
    let _ = text.try_extend_from_slice(digits.format(number).as_bytes());
    let _ = text.try_extend_from_slice(b"\n");
    text
}

/// Gives a line of refusal, and has it handed on. A fault there changes nothing of the answer.
fn refuse<O: Sink>(out: &mut O, line: &[u8])
    ensures { GivesLine line.now (O.log out.old) (O.log out.new) }
{
    let _ = give_last(out, line);
}

/// Refuses words.
pub fn refuse_words<O: Sink>(out: &mut O) -> Status
    ensures line { GivesLine (codes "bad words\n") (O.log out.old) (O.log out.new) }
    ensures status { result ≡ Status.BadWords }
{
    refuse(out, b"bad words\n");
    Status::BadWords
}

/// Refuses a line.
fn refuse_line<O: Sink>(number: u64, out: &mut O) -> Status
    ensures line { GivesLine (bad_line number) (O.log out.old) (O.log out.new) }
    ensures status { result ≡ Status.BadLine }
{
    let line = bad_line(number);
    refuse(out, line.as_slice());
    Status::BadLine
}

/// The status of lines that ended so.
fn ended<O: Sink>(why: LinesEnd, out: &mut O) -> Status
    ensures { SaysEnd why result (O.log out.old) (O.log out.new) }
{
    match why {
        LinesEnd::OutOfMemory => Status::OutOfMemory,
        LinesEnd::Fault => Status::ReadFault,
        LinesEnd::BadLine(number) => refuse_line(number, out),
    }
}

/// Ends a run that stopped.
fn stopped<O: Sink>(why: Stop, out: &mut O) -> Status
    ensures { SaysStopped why result (O.log out.old) (O.log out.new) }
{
    match why {
        Stop::Lines(why) => ended(why, out),
        Stop::NotPlayed(number) => refuse_line(number, out),
        Stop::Sink => Status::WriteFault,
        Stop::OutOfMemory => Status::OutOfMemory,
    }
}

/// What is told of a run.
fn telling_of(asked: &Asked) -> Telling
    requires { 1 ≤ asked.now.every }
    ensures { IsTold asked.now result }
{
    Telling {
        replies: matches!(asked.voice, Voice::Loud),
        every: asked.every,
    }
}

/// Refuses an image, or says how it was not read.
fn unread<O: Sink>(why: ImageReadError, out: &mut O) -> Status
    ensures { SaysUnread why result (O.log out.old) (O.log out.new) }
{
    match why {
        ImageReadError::Fault => Status::ReadFault,
        ImageReadError::Refused(ImageError::OutOfMemory) => Status::OutOfMemory,
        ImageReadError::Refused(why) => {
            refuse(out, image_line(why));
            Status::BadImage
        }
    }
}

/// The status of lines that were not all played and told.
fn halted<O: Sink>(halt: Halt, out: &mut O) -> Status
    ensures { SaysHalted halt result (O.log out.old) (O.log out.new) }
{
    match halt {
        Halt::NoSpare => {
            refuse(out, b"bad image no spare\n");
            Status::BadImage
        }
        Halt::Ended(status) => status,
    }
}

/// Plays lines, and gives the die of an image back.
fn play_lines<L: Lines, O: Sink>(
    alloc: Global,
    stage: Stage,
    telling: Telling,
    lines: &mut L,
    out: &mut O,
) -> Result<Option<MemDie>, Halt>
    requires { IsStageWithin stage }
    ensures all { IfOk result (λ left. RunsFrom L.gives L.ended telling (StartOn stage) (EndOn stage left)
        lines.old lines.new (O.log out.old) (O.log out.new)) }
    ensures halts { IfErr result (λ halt. RunHalts L.gives L.ended L.stops telling stage halt lines.old lines.new (O.log out.old) (O.log out.new)) }
{
    match run_stage(alloc, stage, telling, lines, out) {
        Ok(left) => Ok(left),
        Err(NotRun::NoSpare) => Err(Halt::NoSpare),
        Err(NotRun::Stopped(why)) => Err(Halt::Ended(stopped(why, out))),
    }
}

/// Plays the lines of the input, which comes back.
fn play_input<I: Source + Drop, O: Sink, P: Pace>(
    alloc: Global,
    stage: Stage,
    telling: Telling,
    input: I,
    out: &mut O,
    pace: Option<P>,
) -> (Result<Option<MemDie>, Halt>, I)
    requires { IsStageWithin stage }
    ensures all { IfOk result.0 (λ left. PlaysInput telling (StartOn stage) (EndOn stage left)
        (taken_of (I.log input) (I.log result.1)) (given_to (O.log out.old) (O.log out.new))) }
    ensures halts { IfErr result.0 (λ halt. HaltsInput telling stage (taken_of (I.log input) (I.log result.1)) (given_to (O.log out.old) (O.log out.new)) halt) }
{
    match Stream::new(alloc, input) {
        Ok(stream) => {
            let mut lines = Paced::new(stream, pace);
            let played = play_lines(alloc, stage, telling, &mut lines, out);
            (played, lines.into_inner().into_source())
        }
        Err(input) => (Err(Halt::Ended(Status::OutOfMemory)), input),
    }
}

/// Plays lines that are drawn.
fn play_drawn<O: Sink, P: Pace>(
    alloc: Global,
    stage: Stage,
    telling: Telling,
    drawn: Drawn,
    out: &mut O,
    pace: Option<P>,
) -> Result<Option<MemDie>, Halt>
    requires { IsStageWithin stage }
    ensures all { IfOk result (λ left. (seed : ℕ) → state_of drawn ≡ record { words = seed; turn = 0 } → left_of drawn < 2 ^ 64
        → PlaysDrawn telling (StartOn stage) (EndOn stage left) (drawn_for drawn) seed (left_of drawn) (given_to (O.log out.old) (O.log out.new))) }
    ensures halts { IfErr result (λ halt. (seed : ℕ) → state_of drawn ≡ record { words = seed; turn = 0 } → left_of drawn < 2 ^ 64
        → HaltsDrawn telling stage (drawn_for drawn) seed (left_of drawn) (given_to (O.log out.old) (O.log out.new)) halt) }
{
    let mut lines = Paced::new(drawn, pace);
    play_lines(alloc, stage, telling, &mut lines, out)
}

/// What lines are drawn for: this kind of workload on a head's device.
fn plan_of(head: &ImageHead, kind: Kind, idle: u32) -> Plan
    requires { is_within_limits head.now ≡ true }
    ensures is { result ≡ record { kind = kind; sectors = head.now.sectors; sector_bytes = (row_of head.now.scheme).sector_bytes; idle = idle } }
    ensures sectors { 0 < result.sectors }
    ensures few_bytes { result.sector_bytes ≤ 512 }
{
    let sector_bytes = head.scheme.sector_bytes();
    Plan {
        kind,
        sectors: head.sectors,
        sector_bytes,
        idle,
    }
}

/// Who is told how far a run has come, where that is asked for.
fn pace_of<P: Pace>(asked: &Asked, pace: P) -> Option<P> {
    match asked.voice {
        Voice::Progress => Some(pace),
        Voice::Loud | Voice::Quiet => None,
    }
}

/// Plays the lines of an order, and gives the input back.
fn play_order<I: Source + Drop, O: Sink, P: Pace>(
    alloc: Global,
    asked: &Asked,
    stage: Stage,
    input: I,
    out: &mut O,
    pace: P,
) -> (Result<Option<MemDie>, Halt>, I)
    requires within { IsWithin asked.now }
    requires stage { IsStageWithin stage }
    ensures all { IfOk result.0 (λ left. (telling : Told) × IsTold asked.now telling × PlaysAllOf asked.now.from telling (head_on stage) (StartOn stage) (EndOn stage left)
        (taken_of (I.log input) (I.log result.1)) (given_to (O.log out.old) (O.log out.new))) }
    ensures halts { IfErr result.0 (λ halt. (telling : Told) × IsTold asked.now telling × HaltsOf asked.now.from telling stage
        (taken_of (I.log input) (I.log result.1)) (given_to (O.log out.old) (O.log out.new)) halt) }
{
    let telling = telling_of(asked);
    let pace = pace_of(asked, pace);
    match asked.from {
        LinesFrom::Stream => play_input(alloc, stage, telling, input, out, pace),
        LinesFrom::Drawn {
            kind,
            seed,
            count,
            idle,
        } => match Drawn::new(alloc, plan_of(&stage.head(), kind, idle), seed, count) {
            Ok(drawn) => {
                let played = play_drawn(alloc, stage, telling, drawn, out, pace);
                (played, input)
            }
            Err(_) => (Err(Halt::Ended(Status::OutOfMemory)), input),
        },
    }
}

/// Gives the image of a die that came back. Where none did, all is done.
fn give_left<G: Sink>(head: &ImageHead, left: Option<MemDie>, image_out: &mut G) -> Status
    ensures { SaysLeft head.now left result (G.log image_out.old) (G.log image_out.new) }
{
    match left {
        Some(die) => match give_image(head, cells_of(&die), image_out) {
            Ok(()) => Status::Done,
            Err(_) => Status::WriteFault,
        },
        None => Status::Done,
    }
}

/// The status of lines on a blank die.
fn settle_blank<O: Sink>(played: Result<Option<MemDie>, Halt>, out: &mut O) -> Status
    ensures { SettlesBlank played result (O.log out.old) (O.log out.new) }
{
    match played {
        Ok(_) => Status::Done,
        Err(halt) => halted(halt, out),
    }
}

/// Answers an order on a blank die, and gives the input back.
fn answer_blank<I: Source + Drop, O: Sink, P: Pace>(
    alloc: Global,
    asked: &Asked,
    die: AskedDie,
    input: I,
    out: &mut O,
    pace: P,
) -> (Status, I)
    requires within { IsWithin asked.now }
    requires die { asked.now.die ≡ DieFrom.Blank die }
    ensures { (telling : Told) × IsTold asked.now telling × SaysOnBlank asked.now.from telling die
        (taken_of (I.log input) (I.log result.1)) (given_to (O.log out.old) (O.log out.new)) result.0 }
{
    let (played, input) = play_order(alloc, asked, Stage::Blank(die), input, out, pace);
    let status = settle_blank(played, out);
    (status, input)
}

/// The status of lines on the die of an image, which is given where all were played.
fn settle<O: Sink, G: Sink>(
    head: &ImageHead,
    played: Result<Option<MemDie>, Halt>,
    out: &mut O,
    image_out: &mut G,
) -> Status
    ensures { Settles head.now played result (O.log out.old) (O.log out.new) (G.log image_out.old) (G.log image_out.new) }
{
    match played {
        Ok(left) => give_left(head, left, image_out),
        Err(halt) => halted(halt, out),
    }
}

/// Answers an order on the die of an image, and gives the sources back.
fn answer_image<I: Source + Drop, M: Source + Drop, O: Sink, G: Sink, P: Pace>(
    alloc: Global,
    asked: &Asked,
    from: Sources<I, M>,
    out: &mut O,
    image_out: &mut G,
    pace: P,
) -> (Status, Sources<I, M>)
    requires { IsWithin asked.now }
    ensures says { (telling : Told) × IsTold asked.now telling × SaysOnImage asked.now.from telling
        (taken_of (M.log from.image) (M.log result.1.image)) (taken_of (I.log from.lines) (I.log result.1.lines))
        (given_to (O.log out.old) (O.log out.new)) (given_to (G.log image_out.old) (G.log image_out.new)) result.0 }
    ensures bounded { TakesImage false (M.log from.image) (M.log result.1.image) }
{
    let Sources { lines, mut image } = from;
    match read_ready(alloc, &mut image) {
        Ok(ready) => {
            let head = ready.head;
            let (played, lines) = play_order(alloc, asked, Stage::Image(ready), lines, out, pace);
            let status = settle(&head, played, out, image_out);
            (status, Sources { lines, image })
        }
        Err(why) => (unread(why, out), Sources { lines, image }),
    }
}

/// Answers an order, and gives the sources back.
fn answer_order<I: Source + Drop, M: Source + Drop, O: Sink, G: Sink, P: Pace>(
    alloc: Global,
    asked: &Asked,
    from: Sources<I, M>,
    out: &mut O,
    image_out: &mut G,
    pace: P,
) -> (Status, Sources<I, M>)
    requires { IsWithin asked.now }
    ensures { (words : List (List ℕ)) → SaysOf asked.now (record {
      words = words;
      input = taken_of (I.log from.lines) (I.log result.1.lines);
      image = taken_of (M.log from.image) (M.log result.1.image);
      out = given_to (O.log out.old) (O.log out.new);
      image_out = given_to (G.log image_out.old) (G.log image_out.new);
    }) result.0 }
{
    match asked.die {
        DieFrom::Blank(die) => {
            let Sources { lines, image } = from;
            let (status, lines) = answer_blank(alloc, asked, die, lines, out, pace);
            (status, Sources { lines, image })
        }
        DieFrom::Image => answer_image(alloc, asked, from, out, image_out, pace),
    }
}

/// Answers words, says how it ended, and gives the sources back.
fn answer<I: Source + Drop, M: Source + Drop, O: Sink, G: Sink, P: Pace>(
    alloc: Global,
    words: &[String],
    from: Sources<I, M>,
    out: &mut O,
    image_out: &mut G,
    pace: P,
) -> (Status, Sources<I, M>)
    ensures { Says (record {
      words = map string_bytes words.now;
      input = taken_of (I.log from.lines) (I.log result.1.lines);
      image = taken_of (M.log from.image) (M.log result.1.image);
      out = given_to (O.log out.old) (O.log out.new);
      image_out = given_to (G.log image_out.old) (G.log image_out.new);
    }) result.0 }
{
    match read_words(words) {
        Some(asked) => answer_order(alloc, &asked, from, out, image_out, pace),
        None => (refuse_words(out), from),
    }
}

/// Answers words. They do not include the program's name.
///
/// - `play VOICE EVERY DIE` plays the lines of the input, each as it comes.
/// - `draw VOICE KIND SEED COUNT IDLE EVERY DIE` plays lines that are drawn.
///
/// DIE is HEAD, which is SCHEME BLOCKS PAGES SECTORS REUSE, for a blank die; or `worn HEAD RESERVE BAD`, for one with so many reserve
/// blocks each BAD-th erase of which makes its block bad; or `pair HEAD`, for two as one; or `run`, for the die of an image. That
/// is read first; behind all lines the image of the cells as they stand is given to `image_out`, and at any other end nothing.
///
/// A row of what was counted is given after each EVERY lines, and each reply before it where VOICE is `loud`; at the end a last row
/// and two tables. `pace` is told how many lines have come where VOICE is `progress`.
///
/// The status is 0 where all lines were played and told, and the image was given; 2 where the words are no order; 3 where a line is
/// outside the grammar, or is one of `cut`, `failread`, `mount` and `stat`; 4 where the image is refused, or each of its blocks has a
/// live record; 5 where a source failed; 6 where a sink did; 7 for want of memory. Before 2, 3 and 4 one line to `out` says so. The
/// sources come back: one that the order does not read was not called.
pub fn lab<I: Source + Drop, M: Source + Drop, O: Sink, G: Sink, P: Pace>(
    alloc: Global,
    words: &[String],
    from: Sources<I, M>,
    out: &mut O,
    image_out: &mut G,
    pace: P,
) -> Outcome<I, M>
    ensures { let call : Call = record {
      words = map string_bytes words.now;
      input = taken_of (I.log from.lines) (I.log result.from.lines);
      image = taken_of (M.log from.image) (M.log result.from.image);
      out = given_to (O.log out.old) (O.log out.new);
      image_out = given_to (G.log image_out.old) (G.log image_out.new);
    } in (status : How) × (result.status ≡ number_of status) × Says call status }
{
    let (status, from) = answer(alloc, words, from, out, image_out, pace);
    Outcome {
        status: status.number(),
        from,
    }
}
