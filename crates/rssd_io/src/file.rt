//! Files as sources and sinks: a file is opened at the first take, and a new one is written at the gives and put in its place at
//! the flush. Each error is on record.
ghost use Rattle.std.specs.Prelude.{◌≡◌, ◌++◌, [], false, None};
ghost use Rattle.std.specs.Option.{ForSome};
ghost use Rattle.rssd_io.specs.Files.{opened_log, opened_left, placed_log};

use crate::opener::Opener;
use crate::standard::Place;
use crate::{ReadFault, Sink, Source, StdSink, StdSource, WriteFault};
use std::rt::Files;

/// A file as a source. A file that cannot be opened is a failure.
#[derive(Drop)]
pub struct FileSource<'a, R: Files> {
    opener: Opener<'a, R>,
    opened: Option<StdSource<R::File>>,
}

impl<'a, R: Files> FileSource<'a, R> {
    /// The file of this name, which is not opened yet.
    pub fn new(rt: &'a R, name: &'a str) -> FileSource<'a, R>
        ensures log { result.opener.log.events ++ opened_log result.opened ≡ [] }
        ensures name { result.opener.name.now ≡ name.now }
    {
        FileSource {
            opener: Opener::new(rt, name),
            opened: None,
        }
    }
}

impl<'a, R: Files> Source for FileSource<'a, R> {
    ghost use Rattle.std.specs.Prelude.{◌≡◌, ◌++◌, ◌<◌, length};
    ghost use Rattle.std.specs.Io.{ReadsAtMost};
    ghost use Rattle.std.specs.Io.KnownBytes.{ReadConsumes};
    ghost use Rattle.rssd_io.specs.Event.{Adds, took};
    ghost use Rattle.rssd_io.specs.Files.{opened_log, opened_left};

    ghost log = { λ s. s.opener.log.events ++ opened_log s.opened };

    ghost left = { λ s. opened_left R.File.remaining s.opened };

    fn take(&mut self, into: &mut [u8]) -> Result<usize, ReadFault>
        requires { 0 < length into.old }
        ensures bound { ReadsAtMost result into.new }
        ensures log { Adds (took result into.new) (self.old.opener.log.events ++ opened_log self.old.opened) (self.new.opener.log.events ++ opened_log self.new.opened) }
        ensures bytes { ReadConsumes (opened_left R.File.remaining self.old.opened) (opened_left R.File.remaining self.new.opened) result into.new }
        // It is the file of one name.
        ensures same_name { self.new.opener.name ≡ self.old.opener.name }
    {
        if let Some(source) = &mut self.opened {
            return source.take(into);
        }
        let file = self.opener.open()?;
        let mut source = StdSource::new(file);
        let taken = source.take(into);
        self.opened = Some(source);
        taken
    }
}

/// A file as a sink. What is given is written to a new file beside the one of this name, and takes its place, synced and in one
/// step, at the flush: until then, and where a call fails or the program is killed, the file of this name is as it was. After a
/// failure every call fails.
#[derive(Drop)]
pub struct FileSink<'a, R: Files> {
    place: Place<'a, R>,
    written: Option<StdSink<R::File>>,
    ghost none_lost: { ForSome written (λ _. place.is_lost ≡ false) },
}

impl<'a, R: Files> FileSink<'a, R> {
    /// The file of this name, for which nothing is written yet.
    pub fn new(rt: &'a R, name: &'a str) -> FileSink<'a, R>
        ensures log { placed_log result.place.log.events result.written ≡ [] }
        ensures name { result.place.name.now ≡ name.now }
        ensures sound { result.place.is_lost ≡ false }
    {
        FileSink {
            place: Place::new(rt, name),
            written: None,
        }
    }
}

impl<'a, R: Files> Sink for FileSink<'a, R> {
    ghost use Rattle.std.specs.Prelude.{◌≡◌, true, false, None, OnOk, OnErr};
    ghost use Rattle.rssd_io.specs.Event.{Gave, Flushed};
    ghost use Rattle.rssd_io.specs.Told.{TellsHeld};
    ghost use Rattle.rssd_io.specs.Files.{placed_log};

    ghost log = { λ s. placed_log s.place.log.events s.written };

    ghost written = { λ _. None };

    fn give(&mut self, piece: &[u8]) -> Result<(), WriteFault>
        ensures log { Gave result piece.now (placed_log self.old.place.log.events self.old.written) (placed_log self.new.place.log.events self.new.written) }
        ensures held { TellsHeld None None (placed_log self.old.place.log.events self.old.written) (placed_log self.new.place.log.events self.new.written) }
        // After a failure every call fails, and the file has one name.
        ensures sound { OnOk result ((self.old.place.is_lost ≡ false) × (self.new.place.is_lost ≡ false)) }
        ensures lost { OnErr result (self.new.place.is_lost ≡ true) }
        ensures same_name { self.new.place.name ≡ self.old.place.name }
    {
        let mut sink = match self.written.take() {
            Some(sink) => sink,
            None => self.place.create()?,
        };
        let given = sink.give(piece);
        match given {
            Ok(()) => self.written = Some(sink),
            Err(_) => self.place.give_up(sink),
        }
        given
    }

    fn flush(&mut self) -> Result<(), WriteFault>
        ensures log { Flushed result (placed_log self.old.place.log.events self.old.written) (placed_log self.new.place.log.events self.new.written) }
        ensures held { TellsHeld None None (placed_log self.old.place.log.events self.old.written) (placed_log self.new.place.log.events self.new.written) }
        // All that was written is in its place, and nothing of it was lost.
        ensures placed { OnOk result ((self.new.written ≡ None) × (self.new.place.is_lost ≡ false)) }
        // After a failure every call fails, and the file has one name.
        ensures sound { OnOk result (self.old.place.is_lost ≡ false) }
        ensures lost { OnErr result (self.new.place.is_lost ≡ true) }
        ensures same_name { self.new.place.name ≡ self.old.place.name }
    {
        match self.written.take() {
            Some(sink) => self.place.put(sink),
            None => self.place.keep(),
        }
    }
}
