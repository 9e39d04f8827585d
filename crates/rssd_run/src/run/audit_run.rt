//! The command `audit`: an image is read and judged without mounting it, and lines tell the verdict and what the image holds.
ghost use Rattle.std.specs.Prelude.{◌≡◌, ◌⊎◌, ℕ, ◌+◌, ◌≤◌, ◌++◌, List, [], true, false, length, map, replicate, decimal, IfOk, OnOk, OnErr};
ghost use Rattle.cell_die.specs.DieState.{DieState};
ghost use Rattle.die_image.specs.declared.head.ImageHead.{ImageHead as Head};
ghost use Rattle.die_image.specs.Image.{die_bytes, is_within_limits, AreCells};
ghost use Rattle.rssd_io.specs.Told.{TellsLeft, TellsHeld};
ghost use Rattle.page_codec.specs.Sound.{IsSound};
ghost use Rattle.image_audit.specs.Held.{array_told};
ghost use Rattle.image_audit.specs.Images.{geometry_of};
ghost use Rattle.image_audit.specs.Said.{told_of};
ghost use Rattle.rssd_io.specs.Event.{Event};
ghost use Rattle.rssd_io.specs.Pieces.{HandsOn, StopsIn};
ghost use Rattle.rssd_script.specs.declared.lines.Line.{Line as Spelled};
ghost use Rattle.rssd_run.specs.declared.status.Status.{Status as How};
ghost use Rattle.rssd_run.specs.ArrayWithCuts.{On};
ghost use Rattle.rssd_run.specs.AuditRuns.{IsAuditOf, IsFoundSound, HasUnsoundImage, sector_line, slot_text, sound_lines, verdict_line, verdict_text};
ghost use Rattle.rssd_run.specs.Headline.{AllKeepHeadline};
ghost use Rattle.rssd_run.specs.Heads.{numbers_named};
ghost use Rattle.rssd_run.specs.ImageRuns.{HasCells, RunsImage};
ghost use Rattle.rssd_run.specs.MakeRuns.{Makes};
ghost use Rattle.rssd_run.specs.ReadImage.{TakesImage};
ghost use Rattle.rssd_run.specs.Run.{CalmFor};
ghost use Rattle.schemes.specs.Schemes.{meaning_named};
ghost use Rattle.rssd_run.specs.Statuses.{input, output, Input as Given, Output as Taken};
ghost use Rattle.rssd_run.specs.Top.{SaysAudit};

use crate::refusal::{refuse, refuse_image};
use crate::run::image::{ImageReadError, read_image};
use crate::status::Status;
use arrayvec::ArrayVec;
use die_image::{ImageHead, ImageReader, SchemeName};
use image_audit::{Held, OutOfMemory, Verdict, audit};
use itoa::Buffer;
use rssd_io::{Sink, Source, WriteFault};
use rssd_script::{ReplyText, print_sector};
use schemes::{cosets, flips, pairs, plains, sevens};
use std::alloc::{AllocError, Global};
use striped::Scheme;

/// Room for the line of a verdict.
type VerdictText = ArrayVec<u8, 64>;

/// Adds bytes at the end.
fn put(text: &mut VerdictText, more: &[u8])
    requires { length text.old.items + length more.now ≤ 64 }
    ensures items { text.new.items ≡ text.old.items ++ more.now }
    ensures len { length text.new.items ≡ length text.old.items + length more.now }
{
    let _ = text.try_extend_from_slice(more);
}

/// Adds a number.
fn put_number(text: &mut VerdictText, number: u32)
    requires { length text.old.items ≤ 54 }
    ensures items { text.new.items ≡ text.old.items ++ decimal number }
    ensures len { length text.new.items ≤ length text.old.items + 10 }
{
    let mut buffer = Buffer::new();
    put(text, buffer.format(number).as_bytes());
}

/// Adds a word, and a slot: its page, and its number there.
fn put_slot(text: &mut VerdictText, word: &[u8], page: u32, slot: u32)
    requires { length text.old.items + length word.now ≤ 43 }
    ensures items { text.new.items ≡ text.old.items ++ (word.now ++ slot_text page slot) }
    ensures len { length text.new.items ≤ length text.old.items + length word.now + 21 }
{
    put(text, word);
    put_number(text, page);
    put(text, b" ");
    put_number(text, slot);
}

/// Writes a verdict without its line feed into empty room.
fn put_verdict(text: &mut VerdictText, verdict: &Verdict)
    requires { text.old.items ≡ [] }
    ensures items { text.new.items ≡ verdict_text verdict.now }
    ensures len { length text.new.items ≤ 63 }
{
    match verdict {
        Verdict::Sound => put(text, b"sound"),
        Verdict::Header { page, slot } => put_slot(text, b"unsound header ", *page, *slot),
        Verdict::SameSeq {
            page,
            slot,
            other_page,
            other_slot,
        } => {
            put_slot(text, b"unsound seq ", *page, *slot);
            put_slot(text, b" ", *other_page, *other_slot);
        }
        Verdict::NoSpare => put(text, b"unsound spare"),
        Verdict::Number { page, slot } => put_slot(text, b"unsound number ", *page, *slot),
    }
}

/// The line of a verdict.
fn line_of_verdict(verdict: &Verdict) -> VerdictText
    ensures { result.items ≡ verdict_line verdict.now }
{
    let mut text = ArrayVec::new();
    put_verdict(&mut text, verdict);
    put(&mut text, b"\n");
    text
}

/// The line of a sector.
fn line_of_sector(held: &Held) -> ReplyText
    ensures { result ≡ sector_line (told_of held.now) }
{
    print_sector(held.sector, held.bytes.as_slice())
}

/// Gives the lines for sound cells to `out`, each in one piece, and has it hand them on.
fn tell<O: Sink>(out: &mut O, held: &[Held]) -> Result<(), WriteFault>
    ensures done { OnOk result (HandsOn (sound_lines (map told_of held.now)) (O.log out.old) (O.log out.new)) }
    ensures stops { OnErr result (StopsIn (sound_lines (map told_of held.now)) (O.log out.old) (O.log out.new)) }
    ensures held { TellsHeld (O.written out.old) (O.written out.new) (O.log out.old) (O.log out.new) }
{
    out.give(b"sound\n")?;
    for one in held {
        out.give(line_of_sector(one).as_slice())?;
    }
    out.flush()
}

/// Audits by a scheme that was made, or for which there was no memory.
fn audit_made<C: Scheme + Drop>(
    alloc: Global,
    head: &ImageHead,
    cells: &[u8],
    made: Result<C, AllocError>,
) -> Result<(Verdict, Vec<Held>), OutOfMemory>
    requires cells { AreCells head.now cells.now }
    requires scheme { IfOk made (λ scheme. C.meaning scheme ≡ meaning_named head.now.scheme) }
    ensures { IfOk result (λ told. IsAuditOf head.now cells.now told.0 (map told_of told.1.items)) }
{
    match made {
        Ok(scheme) => audit(alloc, head, cells, &scheme),
        Err(_) => Err(AllocError),
    }
}

/// Judges the cells of a head's die by the scheme of the head, and tells the sectors that they hold where they are sound.
#[tactic(auto, unfolding(schemes::specs::Schemes::meaning_named, die_image::specs::Schemes::row_of))]
pub fn audit_image(
    alloc: Global,
    head: &ImageHead,
    cells: &[u8],
) -> Result<(Verdict, Vec<Held>), OutOfMemory>
    requires { AreCells head.now cells.now }
    ensures { IfOk result (λ told. IsAuditOf head.now cells.now told.0 (map told_of told.1.items)) }
{
    match head.scheme {
        SchemeName::Plain16 => audit_made(alloc, head, cells, plains(alloc, 16)),
        SchemeName::Rs16 => audit_made(alloc, head, cells, pairs(alloc, 16)),
        SchemeName::Rs512 => audit_made(alloc, head, cells, pairs(alloc, 512)),
        SchemeName::Coset16 => audit_made(alloc, head, cells, cosets(alloc, 16)),
        SchemeName::Coset512 => audit_made(alloc, head, cells, cosets(alloc, 512)),
        SchemeName::Flip16 => audit_made(alloc, head, cells, flips(alloc, 16)),
        SchemeName::Flip512 => audit_made(alloc, head, cells, flips(alloc, 512)),
        SchemeName::Ham16 => audit_made(alloc, head, cells, sevens(alloc, 16)),
        SchemeName::Ham512 => audit_made(alloc, head, cells, sevens(alloc, 512)),
    }
}

/// Answers `audit`. The line of a verdict on cells that are not sound is given as lines of refusal are: a fault there changes
/// nothing of the answer.
pub fn answer_audit<I: Source, O: Sink>(alloc: Global, image: &mut I, out: &mut O) -> Status
    ensures says { SaysAudit (input (I.log image.old) (I.log image.new)) (output (O.log out.old) (O.log out.new)) result }
    ensures image_bounded { TakesImage false (I.log image.old) (I.log image.new) }
    ensures image_left { TellsLeft (I.left image.old) (I.left image.new) (I.log image.old) (I.log image.new) }
    ensures held { TellsHeld (O.written out.old) (O.written out.new) (O.log out.old) (O.log out.new) }
{
    let (head, cells) = match read_image(ImageReader::new(alloc), image) {
        Ok(read) => read,
        Err(ImageReadError::Fault) => return Status::ReadFault,
        Err(ImageReadError::Refused(why)) => return refuse_image(out, why),
    };
    let Ok((verdict, held)) = audit_image(alloc, &head, &cells) else {
        return Status::OutOfMemory;
    };
    match verdict {
        Verdict::Sound => match tell(out, &held) {
            Ok(()) => Status::Done,
            Err(_) => Status::WriteFault,
        },
        verdict => {
            refuse(out, line_of_verdict(&verdict).as_slice());
            Status::Unsound
        }
    }
}

/// Status 8 comes only where all of an image was taken whose cells are not sound. There the status is 8, or 7 for want of memory.
pub fn unsound_images_are_told()
    ensures only { (image : Given) (out : Taken) → SaysAudit image out Status.Unsound → HasUnsoundImage image }
    ensures always { (image : Given) (out : Taken) (status : How) → SaysAudit image out status → HasUnsoundImage image → (status ≡ Status.Unsound) ⊎ (status ≡ Status.OutOfMemory) }
{}

/// A run on an image that an audit finds sound starts with the sectors that the audit tells, and each of its lines keeps the
/// headline, whatever the script, also with cuts.
pub fn sound_images_keep_the_headline()
    ensures sectors { (head : Head) (cells : List ℕ) (told : List (ℕ × List ℕ)) (last : DieState) (lines : List Spelled) (log after : List Event) → IsAuditOf head cells Verdict.Sound told
        → (given : RunsImage head cells lines log after last) → given.runs.before.array ≡ On (array_told (geometry_of head) told) }
    ensures headline { (head : Head) (cells : List ℕ) (told : List (ℕ × List ℕ)) (last : DieState) (lines : List Spelled) (log after : List Event) → IsAuditOf head cells Verdict.Sound told
        → (given : RunsImage head cells lines log after last)
        → (calm : CalmFor (numbers_named head) given.die lines) × AllKeepHeadline (numbers_named head) (given.runs.run calm).run.events }
{}

/// What a run leaves of an image that an audit finds sound is found sound again, whatever the script.
pub fn runs_keep_images_sound()
    ensures { (head : Head) (cells left : List ℕ) (told : List (ℕ × List ℕ)) (last : DieState) (lines : List Spelled) (log after : List Event) → IsAuditOf head cells Verdict.Sound told
        → RunsImage head cells lines log after last → HasCells left last → IsFoundSound head left }
{}

/// What `format` writes is found sound.
pub fn blank_images_are_found_sound()
    ensures { (head : Head) → is_within_limits head ≡ true → IsFoundSound head (replicate (die_bytes head) 0) }
{}

/// The cells that a workload of `make` leaves are sound.
pub fn makes_leave_sound_cells()
    ensures { (head : Head) (seed count : ℕ) (made : Makes head seed count) → IsSound (numbers_named head).geometry made.after.device.die.cells }
{}
