//! The readers and writers of std as sources and sinks: each call is on record, an error as a failure.
ghost use Rattle.std.specs.Prelude.{◌≡◌, []};
ghost use Rattle.rssd_io.specs.Told.{TellsHeld};
ghost use Rattle.rssd_io.specs.Event.{Gave, Flushed};
ghost use Rattle.rssd_io.specs.Standard.{source_log, sink_log};

mod place;

use crate::log::Log;
use crate::{ReadFault, Sink, Source, WriteFault};
pub(crate) use place::Place;
use std::io::{Read, Write};

/// A reader as a source.
#[derive(Drop)]
pub struct StdSource<R: Read> {
    inner: R,
    log: Log,
}

impl<R: Read> StdSource<R> {
    /// A source that was not called yet.
    pub fn new(inner: R) -> StdSource<R>
        ensures log { source_log result ≡ [] }
        ensures inner { result.inner ≡ inner }
    {
        StdSource {
            inner,
            log: Log::new(),
        }
    }
}

impl<R: Read> Source for StdSource<R> {
    ghost log = { λ s. s.log.events };

    ghost left = { λ s. R.remaining s.inner };

    fn take(&mut self, into: &mut [u8]) -> Result<usize, ReadFault> {
        match self.inner.read(into) {
            Ok(count) => {
                self.log.note(&into[..count]);
                Ok(count)
            }
            Err(_) => {
                self.log.note_failure();
                Err(ReadFault)
            }
        }
    }
}

/// A writer as a sink.
#[derive(Drop)]
pub struct StdSink<W: Write> {
    inner: W,
    log: Log,
}

impl<W: Write> StdSink<W> {
    /// A sink that was not called yet.
    pub fn new(inner: W) -> StdSink<W>
        ensures log { sink_log result ≡ [] }
        ensures inner { result.inner ≡ inner }
    {
        StdSink {
            inner,
            log: Log::new(),
        }
    }
}

/// Writes the whole piece, and notes what was written. A write of nothing is a failure.
pub fn write_whole<W: Write>(inner: &mut W, log: &mut Log, piece: &[u8]) -> Result<(), WriteFault>
    ensures log { Gave result piece.now log.old.events log.new.events }
    ensures held { TellsHeld (W.contents inner.old) (W.contents inner.new) log.old.events log.new.events }
{
    let mut at = 0;
    while at < piece.len() {
        match inner.write(&piece[at..]) {
            Ok(0) | Err(_) => {
                log.note(&piece[..at]);
                log.note_failure();
                return Err(WriteFault);
            }
            Ok(count) => at += count,
        }
    }
    log.note(piece);
    Ok(())
}

/// Hands on what waits in the writer, and notes whether this failed.
fn hand_on<W: Write>(inner: &mut W, log: &mut Log) -> Result<(), WriteFault>
    ensures log { Flushed result log.old.events log.new.events }
    ensures held { TellsHeld (W.contents inner.old) (W.contents inner.new) log.old.events log.new.events }
{
    match inner.flush() {
        Ok(()) => {
            log.note_flush();
            Ok(())
        }
        Err(_) => {
            log.note_failure();
            Err(WriteFault)
        }
    }
}

impl<W: Write> Sink for StdSink<W> {
    ghost log = { λ s. s.log.events };

    ghost written = { λ s. W.contents s.inner };

    fn give(&mut self, piece: &[u8]) -> Result<(), WriteFault> {
        write_whole(&mut self.inner, &mut self.log, piece)
    }

    fn flush(&mut self) -> Result<(), WriteFault> {
        hand_on(&mut self.inner, &mut self.log)
    }
}
