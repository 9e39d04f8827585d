//! The whole program, but for the system's ends and its clock: its words as they were found, its sources and its sinks, and the
//! status that it ends with.
ghost use Rattle.std.specs.Prelude.{◌≡◌, ◌≢◌, IfOk, IfErr, IsErr, codes, map, string_bytes};
ghost use Rattle.std.specs.IoError.{error_kind};
ghost use Rattle.rssd_lab.specs.declared.status.Status.{Status as How};
ghost use Rattle.rssd_run.specs.Statuses.{GaveLine, input as taken_of, output as given_to};
ghost use Rattle.rssd_lab.specs.Top.{number_of};
ghost use Rattle.rssd_lab.specs.Ends.{Says};

use crate::pace::Pace;
use crate::status::{Outcome, Sources, Status};
use crate::top::{lab, refuse_words};
use rssd_io::{Sink, Source};
use std::alloc::Global;
use std::io::{self, ErrorKind};

/// Answers the words of the program. Where they are no text they are bad words, and where there was no memory for them the
/// status is 7.
pub fn main_of<I: Source + Drop, M: Source + Drop, O: Sink, G: Sink, P: Pace>(
    alloc: Global,
    words: io::Result<Vec<String>>,
    from: Sources<I, M>,
    out: &mut O,
    image_out: &mut G,
    pace: P,
) -> Outcome<I, M>
    ensures words { IfOk words (λ words. (status : How) × (result.status ≡ number_of status) × Says (record {
      words = map string_bytes words.items;
      input = taken_of (I.log from.lines) (I.log result.from.lines);
      image = taken_of (M.log from.image) (M.log result.from.image);
      out = given_to (O.log out.old) (O.log out.new);
      image_out = given_to (G.log image_out.old) (G.log image_out.new);
    }) status) }
    ensures no_text { IfErr words (λ e. error_kind e ≢ ErrorKind.OutOfMemory
        → (result.status ≡ 2) × GaveLine (given_to (O.log out.old) (O.log out.new)) (codes "bad words\n")) }
    ensures memory { IfErr words (λ e. error_kind e ≡ ErrorKind.OutOfMemory → (result.status ≡ 7) × (out.new ≡ out.old)) }
    ensures untouched { IsErr words → (result.from ≡ from) × (image_out.new ≡ image_out.old) }
{
    match words {
        Ok(words) => lab(alloc, &words, from, out, image_out, pace),
        Err(e) if e.kind() == ErrorKind::OutOfMemory => Outcome {
            status: Status::OutOfMemory.number(),
            from,
        },
        Err(_) => Outcome {
            status: refuse_words(out).number(),
            from,
        },
    }
}
