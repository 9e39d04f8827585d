//! The top call: words and input to output and a status. It knows the commands `replay`, `run`, `format`, `make`, `upgrade`,
//! `queue`, `worn`, `pair` and `audit`; any other words are bad.
ghost use Rattle.std.specs.Prelude.{◌≡◌, ℕ, List, map, string_bytes, true, false};
ghost use Rattle.die_image.specs.Image.{is_within_limits};
ghost use Rattle.rssd_run.specs.declared.status.Status.{Status as How};
ghost use Rattle.rssd_io.specs.Told.{TellsLeft, TellsHeld};
ghost use Rattle.rssd_run.specs.ReadScript.{TakesScript};
ghost use Rattle.rssd_run.specs.ReadImage.{TakesImage};
ghost use Rattle.rssd_run.specs.Statuses.{Call, input, output, number_of};
ghost use Rattle.rssd_run.specs.Top.{Says, SaysFormat, SaysOf, SaysReplay, SaysRun, SaysUpgrade, LeavesImage, LeavesImageOut, LeavesScript, OfSpelled};
ghost use Rattle.rssd_words.specs.Commands.{IsWithin};

use crate::refusal::{refuse, refuse_image, refuse_script, refuse_words};
use crate::run::audit_run::answer_audit;
use crate::run::image::{ImageReadError, give_image, read_image};
use crate::run::image_run::{blank_cells, cells_of, run_image};
use crate::run::make_run::answer_make;
use crate::run::on_die::RunError;
use crate::run::play_run::{answer_pair, answer_worn};
use crate::run::queue_run::answer_queue;
use crate::run::replay::replay;
use crate::run::script::{ReadError, read_script};
use crate::run::workload::Seeded;
use crate::status::Status;
use die_image::{ImageHead, ImageReader};
use rssd_io::{Sink, Source};
use rssd_words::{Command, read_words};
use std::alloc::Global;

/// Answers `replay`.
#[tactic(auto, using(rssd_io::proofs::Told::held_more))]
fn answer_replay<T: Source, O: Sink>(
    alloc: Global,
    head: &ImageHead,
    script: &mut T,
    out: &mut O,
) -> Status
    requires { is_within_limits head.now ≡ true }
    ensures says { SaysReplay head.now (input (T.log script.old) (T.log script.new)) (output (O.log out.old) (O.log out.new)) result }
    ensures script_bounded { TakesScript (T.log script.old) (T.log script.new) }
    ensures script_left { TellsLeft (T.left script.old) (T.left script.new) (T.log script.old) (T.log script.new) }
    ensures held { TellsHeld (O.written out.old) (O.written out.new) (O.log out.old) (O.log out.new) }
{
    let lines = match read_script(alloc, script) {
        Ok(lines) => lines,
        Err(ReadError::Fault) => return Status::ReadFault,
        Err(ReadError::Refused(why)) => return refuse_script(out, why),
    };
    match replay(alloc, head, &lines, out) {
        Ok(()) => match out.flush() {
            Ok(()) => Status::Done,
            Err(_) => Status::WriteFault,
        },
        Err(RunError::Sink) => Status::WriteFault,
        Err(RunError::OutOfMemory) => Status::OutOfMemory,
        Err(RunError::NoSpare) => unreachable!(),
    }
}

/// Answers `run`.
#[tactic(auto, using(rssd_io::proofs::Told::held_more))]
fn answer_run<I: Source, T: Source, O: Sink, G: Sink>(
    alloc: Global,
    image: &mut I,
    script: &mut T,
    out: &mut O,
    image_out: &mut G,
) -> Status
    ensures says { SaysRun (input (I.log image.old) (I.log image.new))
        (input (T.log script.old) (T.log script.new))
        (output (O.log out.old) (O.log out.new))
        (output (G.log image_out.old) (G.log image_out.new)) result }
    ensures script_bounded { TakesScript (T.log script.old) (T.log script.new) }
    ensures script_left { TellsLeft (T.left script.old) (T.left script.new) (T.log script.old) (T.log script.new) }
    ensures image_bounded { TakesImage false (I.log image.old) (I.log image.new) }
    ensures image_left { TellsLeft (I.left image.old) (I.left image.new) (I.log image.old) (I.log image.new) }
    ensures out_held { TellsHeld (O.written out.old) (O.written out.new) (O.log out.old) (O.log out.new) }
    ensures image_out_held { TellsHeld (G.written image_out.old) (G.written image_out.new) (G.log image_out.old) (G.log image_out.new) }
{
    let lines = match read_script(alloc, script) {
        Ok(lines) => lines,
        Err(ReadError::Fault) => return Status::ReadFault,
        Err(ReadError::Refused(why)) => return refuse_script(out, why),
    };
    let (head, cells) = match read_image(ImageReader::new(alloc), image) {
        Ok(read) => read,
        Err(ImageReadError::Fault) => return Status::ReadFault,
        Err(ImageReadError::Refused(why)) => return refuse_image(out, why),
    };
    let die = match run_image(alloc, &head, cells, &lines, out) {
        Ok(die) => die,
        Err(RunError::OutOfMemory) => return Status::OutOfMemory,
        Err(RunError::Sink) => return Status::WriteFault,
        Err(RunError::NoSpare) => {
            refuse(out, b"bad image no spare\n");
            return Status::BadImage;
        }
    };
    if out.flush().is_err() {
        return Status::WriteFault;
    }
    match give_image(&head, cells_of(&die), image_out) {
        Ok(()) => Status::Done,
        Err(_) => Status::WriteFault,
    }
}

/// Answers `format`.
fn answer_format<G: Sink>(alloc: Global, head: &ImageHead, image_out: &mut G) -> Status
    requires { is_within_limits head.now ≡ true }
    ensures says { SaysFormat head.now (output (G.log image_out.old) (G.log image_out.new)) result }
    ensures held { TellsHeld (G.written image_out.old) (G.written image_out.new) (G.log image_out.old) (G.log image_out.new) }
{
    let Ok(cells) = blank_cells(alloc, head) else {
        return Status::OutOfMemory;
    };
    match give_image(head, &cells, image_out) {
        Ok(()) => Status::Done,
        Err(_) => Status::WriteFault,
    }
}

/// Answers `upgrade`.
fn answer_upgrade<I: Source, O: Sink, G: Sink>(
    alloc: Global,
    image: &mut I,
    out: &mut O,
    image_out: &mut G,
) -> Status
    ensures says { SaysUpgrade (input (I.log image.old) (I.log image.new))
        (output (O.log out.old) (O.log out.new))
        (output (G.log image_out.old) (G.log image_out.new)) result }
    ensures image_bounded { TakesImage true (I.log image.old) (I.log image.new) }
    ensures image_left { TellsLeft (I.left image.old) (I.left image.new) (I.log image.old) (I.log image.new) }
    ensures out_held { TellsHeld (O.written out.old) (O.written out.new) (O.log out.old) (O.log out.new) }
    ensures image_out_held { TellsHeld (G.written image_out.old) (G.written image_out.new) (G.log image_out.old) (G.log image_out.new) }
{
    let (head, cells) = match read_image(ImageReader::old(alloc), image) {
        Ok(read) => read,
        Err(ImageReadError::Fault) => return Status::ReadFault,
        Err(ImageReadError::Refused(why)) => return refuse_image(out, why),
    };
    match give_image(&head, &cells, image_out) {
        Ok(()) => Status::Done,
        Err(_) => Status::WriteFault,
    }
}

/// Answers a command.
fn answer_command<I: Source, T: Source, O: Sink, G: Sink>(
    alloc: Global,
    command: &Command,
    image: &mut I,
    script: &mut T,
    out: &mut O,
    image_out: &mut G,
) -> Status
    requires { IsWithin command.now }
    ensures says { (words : List (List ℕ)) → SaysOf command.now (record {
      words = words;
      image = input (I.log image.old) (I.log image.new);
      script = input (T.log script.old) (T.log script.new);
      out = output (O.log out.old) (O.log out.new);
      image_out = output (G.log image_out.old) (G.log image_out.new);
    }) result }
    ensures image_left { TellsLeft (I.left image.old) (I.left image.new) (I.log image.old) (I.log image.new) }
    ensures script_left { TellsLeft (T.left script.old) (T.left script.new) (T.log script.old) (T.log script.new) }
    ensures same_script { LeavesScript command.now → script.new ≡ script.old }
    ensures same_image { LeavesImage command.now → image.new ≡ image.old }
    ensures same_image_out { LeavesImageOut command.now → image_out.new ≡ image_out.old }
    ensures out_held { TellsHeld (O.written out.old) (O.written out.new) (O.log out.old) (O.log out.new) }
    ensures image_out_held { TellsHeld (G.written image_out.old) (G.written image_out.new) (G.log image_out.old) (G.log image_out.new) }
{
    match command {
        Command::Replay(head) => answer_replay(alloc, head, script, out),
        Command::Run => answer_run(alloc, image, script, out, image_out),
        Command::Format(head) => answer_format(alloc, head, image_out),
        Command::Make { seed, count, head } => {
            let seeded = Seeded {
                seed: *seed,
                count: *count,
            };
            answer_make(alloc, head, seeded, out)
        }
        Command::Upgrade => answer_upgrade(alloc, image, out, image_out),
        Command::Audit => answer_audit(alloc, image, out),
        Command::Worn { head, reserve, bad } => {
            answer_worn(alloc, head, *reserve, *bad, script, out)
        }
        Command::Pair(head) => answer_pair(alloc, head, script, out),
        Command::Queue(head) => answer_queue(alloc, head, script, out),
    }
}

/// Answers words, and says how it ended.
fn answer<I: Source, T: Source, O: Sink, G: Sink>(
    alloc: Global,
    words: &[String],
    image: &mut I,
    script: &mut T,
    out: &mut O,
    image_out: &mut G,
) -> Status
    ensures says { Says (record {
      words = map string_bytes words.now;
      image = input (I.log image.old) (I.log image.new);
      script = input (T.log script.old) (T.log script.new);
      out = output (O.log out.old) (O.log out.new);
      image_out = output (G.log image_out.old) (G.log image_out.new);
    }) result }
    ensures image_left { TellsLeft (I.left image.old) (I.left image.new) (I.log image.old) (I.log image.new) }
    ensures script_left { TellsLeft (T.left script.old) (T.left script.new) (T.log script.old) (T.log script.new) }
    ensures same_script { OfSpelled LeavesScript (map string_bytes words.now) → script.new ≡ script.old }
    ensures same_image { OfSpelled LeavesImage (map string_bytes words.now) → image.new ≡ image.old }
    ensures same_image_out { OfSpelled LeavesImageOut (map string_bytes words.now) → image_out.new ≡ image_out.old }
    ensures out_held { TellsHeld (O.written out.old) (O.written out.new) (O.log out.old) (O.log out.new) }
    ensures image_out_held { TellsHeld (G.written image_out.old) (G.written image_out.new) (G.log image_out.old) (G.log image_out.new) }
{
    match read_words(words) {
        Some(command) => answer_command(alloc, &command, image, script, out, image_out),
        None => refuse_words(out),
    }
}

/// Answers words. They do not include the program's name.
///
/// - `replay SCHEME BLOCKS PAGES SECTORS REUSE` reads the script to its end, mounts a blank die, and gives the reply to each
///   line with its line feed to `out` in one piece.
/// - `run` reads the script and then the image, mounts a die of its cells, gives the replies, has `out` hand them on, and then
///   gives the image of the cells as they stand to `image_out`: the head in one piece, and each page in one.
/// - `format SCHEME BLOCKS PAGES SECTORS REUSE` gives the image of a blank die to `image_out`.
/// - `make SEED COUNT SCHEME BLOCKS PAGES SECTORS REUSE` steps the lines of a workload, which is a function of its seed, on a blank
///   die, and gives two lines to `out`: the reply to `stat`, and what the sectors hold.
/// - `upgrade` reads an image of version 1, and gives the image of version 2 with the same head and cells to `image_out`.
/// - `audit` reads an image and mounts nothing. It gives the line of the verdict to `out`, and where the cells are sound one line
///   for each sector that has a live record.
/// - `worn SCHEME BLOCKS PAGES SECTORS REUSE RESERVE BAD` reads the script, each line of which a device is to play: `cut`,
///   `failread`, `mount` and `stat` are bad lines here. It plays the lines on a blank die with RESERVE reserve blocks, each BAD-th
///   erase of which makes its block bad, and gives the replies to `out`.
/// - `pair SCHEME BLOCKS PAGES SECTORS REUSE` does the same on two blank dies of half the blocks each, as one.
/// - `queue SCHEME BLOCKS PAGES SECTORS REUSE` is `replay` with a queue before the device: each reply stands behind the number of
///   its line, and reads overtake writes of other sectors.
///
/// Any other words are bad. A source that the command does not read, and a sink that it does not write, are as before the call.
///
/// The status is 0 where all input was read to its end and all output was given and handed on; 2 where the words are no command; 3 where the
/// script is refused; 4 where the image is, or each of its blocks has a live record; 5 where a source failed; 6 where a sink
/// failed; 7 for want of memory; 8 where `audit` finds cells that are not sound. Before 2, 3, 4 and 8 one line to `out` says so.
pub fn rssd<I: Source, T: Source, O: Sink, G: Sink>(
    alloc: Global,
    words: &[String],
    image: &mut I,
    script: &mut T,
    out: &mut O,
    image_out: &mut G,
) -> u8
    ensures status { let call : Call = record {
      words = map string_bytes words.now;
      image = input (I.log image.old) (I.log image.new);
      script = input (T.log script.old) (T.log script.new);
      out = output (O.log out.old) (O.log out.new);
      image_out = output (G.log image_out.old) (G.log image_out.new);
    } in (status : How) × (result ≡ number_of status) × Says call status }
    ensures image_left { TellsLeft (I.left image.old) (I.left image.new) (I.log image.old) (I.log image.new) }
    ensures script_left { TellsLeft (T.left script.old) (T.left script.new) (T.log script.old) (T.log script.new) }
    ensures same_script { OfSpelled LeavesScript (map string_bytes words.now) → script.new ≡ script.old }
    ensures same_image { OfSpelled LeavesImage (map string_bytes words.now) → image.new ≡ image.old }
    ensures same_image_out { OfSpelled LeavesImageOut (map string_bytes words.now) → image_out.new ≡ image_out.old }
    ensures out_held { TellsHeld (O.written out.old) (O.written out.new) (O.log out.old) (O.log out.new) }
    ensures image_out_held { TellsHeld (G.written image_out.old) (G.written image_out.new) (G.log image_out.old) (G.log image_out.new) }
{
    answer(alloc, words, image, script, out, image_out) as u8
}
