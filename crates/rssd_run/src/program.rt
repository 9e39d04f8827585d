//! The whole program, but for the system's ends: its words as they were found, its sources and its sinks, and the status that it
//! ends with.
ghost use Rattle.std.specs.Prelude.{◌≡◌, ◌≢◌, IfOk, IfErr, IsErr, map, string_bytes};
ghost use Rattle.std.specs.IoError.{error_kind};
ghost use Rattle.rssd_run.specs.declared.status.Status.{Status as How};
ghost use Rattle.rssd_io.specs.Told.{TellsLeft, TellsHeld};
ghost use Rattle.rssd_run.specs.Statuses.{GaveLine, bad_words, input, output, number_of};
ghost use Rattle.rssd_run.specs.Top.{Says};

use crate::refusal::refuse_words;
use crate::rssd;
use crate::status::Status;
use rssd_io::{Sink, Source};
use std::alloc::Global;
use std::io::{self, ErrorKind};

/// Answers the words of the program. Where they are no text they are bad words, and where there was no memory for them the
/// status is 7.
pub fn main_of<I: Source, T: Source, O: Sink, G: Sink>(
    alloc: Global,
    words: io::Result<Vec<String>>,
    image: &mut I,
    script: &mut T,
    out: &mut O,
    image_out: &mut G,
) -> u8
    ensures words { IfOk words (λ words. (status : How) × (result ≡ number_of status) × Says (record {
      words = map string_bytes words.items;
      image = input (I.log image.old) (I.log image.new);
      script = input (T.log script.old) (T.log script.new);
      out = output (O.log out.old) (O.log out.new);
      image_out = output (G.log image_out.old) (G.log image_out.new);
    }) status) }
    ensures no_text { IfErr words (λ e. error_kind e ≢ ErrorKind.OutOfMemory → (result ≡ 2) × GaveLine (output (O.log out.old) (O.log out.new)) bad_words) }
    ensures memory { IfErr words (λ e. error_kind e ≡ ErrorKind.OutOfMemory → (result ≡ 7) × (out.new ≡ out.old)) }
    ensures image_left { TellsLeft (I.left image.old) (I.left image.new) (I.log image.old) (I.log image.new) }
    ensures script_left { TellsLeft (T.left script.old) (T.left script.new) (T.log script.old) (T.log script.new) }
    ensures untouched { IsErr words → (image.new ≡ image.old) × (script.new ≡ script.old) × (image_out.new ≡ image_out.old) }
    ensures out_held { TellsHeld (O.written out.old) (O.written out.new) (O.log out.old) (O.log out.new) }
    ensures image_out_held { TellsHeld (G.written image_out.old) (G.written image_out.new) (G.log image_out.old) (G.log image_out.new) }
{
    match words {
        Ok(words) => rssd(alloc, &words, image, script, out, image_out),
        Err(e) if e.kind() == ErrorKind::OutOfMemory => Status::OutOfMemory as u8,
        Err(_) => refuse_words(out) as u8,
    }
}
