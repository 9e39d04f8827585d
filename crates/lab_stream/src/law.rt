//! What lines that were read are.
ghost use Rattle.std.specs.Prelude.{◌≡◌, List, []};
ghost use Rattle.rssd_script.specs.declared.lines.Line.{Line};
ghost use Rattle.lab_lines.specs.Given.{AllGiven};
ghost use Rattle.lab_stream.specs.declared.stream.Stream.{Stream};
ghost use Rattle.lab_stream.specs.Streaming.{ahead_of, TakesLine};
ghost use Rattle.lab_stream.specs.Spelled.{Streamed};

use rssd_io::Source;

/// Lines that were read one after another, from a stream of which nothing was taken before, are those that the bytes spell.
pub fn lines_of_a_stream_are_spelled<S: Source>()
    ensures { (old new : Stream S) (lines : List Line) → ahead_of old ≡ [] → AllGiven (TakesLine S.log) old lines new
        → Streamed (S.log old.source) (S.log new.source) lines (ahead_of new) }
{}
