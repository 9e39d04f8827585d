//! The lines of refusal: what `out` is told before a status that refuses words, a script or an image.
ghost use Rattle.std.specs.Prelude.{◌≡◌};
ghost use Rattle.rssd_io.specs.Told.{TellsHeld};
ghost use Rattle.rssd_run.specs.Statuses.{GaveLine, output, RefusesSo, RefusesImageSo, bad_image, bad_line, bad_words};

use crate::status::Status;
use arrayvec::ArrayVec;
use die_image::ImageError;
use itoa::Buffer;
use rssd_io::{Sink, give_last};
use rssd_script::ScriptError;

/// The line of refusal for a bad line.
fn bad_line(line: u32) -> ArrayVec<u8, 24>
    ensures { result.items ≡ bad_line line }
{
    let mut number = Buffer::new();
    let mut text = ArrayVec::new();
    let _ = text.try_extend_from_slice(b"bad line ");
    let _ = text.try_extend_from_slice(number.format(line).as_bytes());
    let _ = text.try_extend_from_slice(b"\n");
    text
}

/// Gives a line of refusal to `out`, and has it hand the line on. A fault there changes nothing of the answer.
pub fn refuse<O: Sink>(out: &mut O, line: &[u8])
    ensures line { GaveLine (output (O.log out.old) (O.log out.new)) line.now }
    ensures held { TellsHeld (O.written out.old) (O.written out.new) (O.log out.old) (O.log out.new) }
{
    let _ = give_last(out, line);
}

/// Refuses words.
pub fn refuse_words<O: Sink>(out: &mut O) -> Status
    ensures status { result ≡ Status.BadWords }
    ensures line { GaveLine (output (O.log out.old) (O.log out.new)) bad_words }
    ensures held { TellsHeld (O.written out.old) (O.written out.new) (O.log out.old) (O.log out.new) }
{
    refuse(out, b"bad words\n");
    Status::BadWords
}

/// Refuses a script.
pub fn refuse_script<O: Sink>(out: &mut O, why: ScriptError) -> Status
    ensures says { RefusesSo why result (output (O.log out.old) (O.log out.new)) }
    ensures held { TellsHeld (O.written out.old) (O.written out.new) (O.log out.old) (O.log out.new) }
{
    match why {
        ScriptError::TooLong => {
            refuse(out, b"script too long\n");
            Status::BadScript
        }
        ScriptError::BadLine(line) => {
            refuse(out, &bad_line(line));
            Status::BadScript
        }
        ScriptError::OutOfMemory => Status::OutOfMemory,
    }
}

/// The line that refuses an image; there is none for want of memory.
pub fn image_line(why: ImageError) -> &'static [u8]
    ensures { result.now ≡ bad_image why }
{
    match why {
        ImageError::OutOfMemory => b"",
        ImageError::Magic => b"bad image magic\n",
        ImageError::Version => b"bad image version\n",
        ImageError::Shape => b"bad image shape\n",
        ImageError::Short => b"bad image short\n",
        ImageError::Long => b"bad image long\n",
        ImageError::PadCells => b"bad image pad\n",
    }
}

/// Refuses an image.
pub fn refuse_image<O: Sink>(out: &mut O, why: ImageError) -> Status
    ensures says { RefusesImageSo why result (output (O.log out.old) (O.log out.new)) }
    ensures held { TellsHeld (O.written out.old) (O.written out.new) (O.log out.old) (O.log out.new) }
{
    match why {
        ImageError::OutOfMemory => Status::OutOfMemory,
        why => {
            refuse(out, image_line(why));
            Status::BadImage
        }
    }
}
