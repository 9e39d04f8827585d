//! A file that is put in its place whole: it is written under a name of its own beside the place, synced, and renamed at the end.
//! Nothing else reaches the files for writing.
ghost use Rattle.std.specs.Prelude.{◌≡◌, ◌++◌, [], ◌∷◌, Bool, true, false, MatchResult, OnOk, OnErr};
ghost use Rattle.rssd_io.specs.Event.{Flushed, moved, flushed, failed};

use super::StdSink;
use crate::WriteFault;
use crate::log::Log;
use arrayvec::ArrayString;
use itoa::Buffer;
use std::fs::{self, File, Files, OpenFile};
use std::io::{self, ErrorKind};
use std::mem;

/// How many names beside the place are tried.
const NAMES: u32 = 1000;

/// The place of a file. What is written for it is lost for good where a call fails: nothing is put there any more.
#[derive(Drop)]
pub(crate) struct Place<'a, R: Files> {
    rt: &'a R,
    name: &'a str,
    beside: ArrayString<64>,
    is_lost: bool,
    log: Log,
}

impl<'a, R: Files> Place<'a, R> {
    pub(crate) fn new(rt: &'a R, name: &'a str) -> Place<'a, R>
        ensures log { result.log.events ≡ [] }
        ensures sound { result.is_lost ≡ false }
        ensures name { result.name.now ≡ name.now }
    {
        Place {
            rt,
            name,
            beside: ArrayString::new(),
            is_lost: false,
            log: Log::new(),
        }
    }

    /// The name beside the place with this number, where there is room for it.
    fn name_beside(&self, number: u32) -> Option<ArrayString<64>> {
        let mut name = ArrayString::new();
        name.try_push_str(self.name).ok()?;
        name.try_push_str(".").ok()?;
        name.try_push_str(Buffer::new().format(number)).ok()?;
        Some(name)
    }

    /// Creates a file beside the place, under the first name that no file has.
    fn open_beside(&self) -> Option<(ArrayString<64>, R::File)> {
        for number in 0..NAMES {
            let name = self.name_beside(number)?;
            match File::create_new(self.rt, name.as_str()) {
                Ok(file) => return Some((name, file)),
                Err(e) if e.kind() == ErrorKind::AlreadyExists => {}
                Err(_) => return None,
            }
        }
        None
    }

    /// Creates the file, or notes that this failed.
    pub(crate) fn create(&mut self) -> Result<StdSink<R::File>, WriteFault>
        ensures log { MatchResult result (λ sink. sink.log.events ≡ self.old.log.events) (λ _. self.new.log.events ≡ self.old.log.events ++ moved [] ∷ failed ∷ []) }
        ensures sound { OnOk result ((self.old.is_lost ≡ false) × (self.new.is_lost ≡ false)) }
        ensures lost { OnErr result (self.new.is_lost ≡ true) }
        ensures same_name { self.new.name ≡ self.old.name }
    {
        let opened = if self.is_lost {
            None
        } else {
            self.open_beside()
        };
        match opened {
            Some((name, inner)) => {
                self.beside = name;
                Ok(StdSink {
                    inner,
                    log: mem::replace(&mut self.log, Log::new()),
                })
            }
            None => {
                self.log.note(&[]);
                self.log.note_failure();
                self.is_lost = true;
                Err(WriteFault)
            }
        }
    }

    /// Puts the file that was written in its place, in one step, or notes that this failed.
    pub(crate) fn put(&mut self, written: StdSink<R::File>) -> Result<(), WriteFault>
        ensures log { Flushed result written.log.events self.new.log.events }
        ensures sound { OnOk result ((self.old.is_lost ≡ false) × (self.new.is_lost ≡ false)) }
        ensures lost { OnErr result (self.new.is_lost ≡ true) }
        ensures same_name { self.new.name ≡ self.old.name }
    {
        self.log = written.log;
        if !self.is_lost && self.replace_with(written.inner).is_ok() {
            self.log.note_flush();
            return Ok(());
        }
        self.log.note_failure();
        self.remove();
        Err(WriteFault)
    }

    /// Syncs the file that was written, and gives it the name of the place.
    fn replace_with(&self, written: R::File) -> io::Result<()> {
        written.sync_all()?;
        fs::rename(self.rt, self.beside.as_str(), self.name)
    }

    /// Gives up the file that was written.
    pub(crate) fn give_up(&mut self, written: StdSink<R::File>)
        ensures log { self.new.log.events ≡ written.log.events }
        ensures lost { self.new.is_lost ≡ true }
        ensures same_name { self.new.name ≡ self.old.name }
    {
        self.log = written.log;
        self.remove();
    }

    /// Removes the file beside the place: what was written is lost.
    fn remove(&mut self)
        ensures log { self.new.log ≡ self.old.log }
        ensures lost { self.new.is_lost ≡ true }
        ensures same_name { self.new.name ≡ self.old.name }
    {
        let _ = fs::remove_file(self.rt, self.beside.as_str());
        self.is_lost = true;
    }

    /// Nothing waits where nothing was written and nothing was lost.
    pub(crate) fn keep(&mut self) -> Result<(), WriteFault>
        ensures log { Flushed result self.old.log.events self.new.log.events }
        ensures sound { OnOk result (self.old.is_lost ≡ false) }
        ensures lost { OnErr result (self.old.is_lost ≡ true) }
        ensures same { self.new.is_lost ≡ self.old.is_lost }
        ensures same_name { self.new.name ≡ self.old.name }
    {
        if self.is_lost {
            self.log.note_failure();
            return Err(WriteFault);
        }
        self.log.note_flush();
        Ok(())
    }
}
