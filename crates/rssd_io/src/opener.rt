//! The name of a file that is opened later. That it could not be is on record, and nothing else reads files.
ghost use Rattle.std.specs.Prelude.{◌≡◌, ◌++◌, [], ◌∷◌, MatchResult};
ghost use Rattle.rssd_io.specs.Event.{failed};

use crate::ReadFault;
use crate::log::Log;
use std::fs;
use std::rt::Files;

/// A file by its name, and the record of the calls that failed to open it.
#[derive(Drop)]
pub(crate) struct Opener<'a, R: Files> {
    rt: &'a R,
    name: &'a str,
    log: Log,
}

impl<'a, R: Files> Opener<'a, R> {
    pub(crate) fn new(rt: &'a R, name: &'a str) -> Opener<'a, R>
        ensures log { result.log.events ≡ [] }
        ensures name { result.name.now ≡ name.now }
    {
        Opener {
            rt,
            name,
            log: Log::new(),
        }
    }

    /// Opens the file, or notes that this failed.
    pub(crate) fn open(&mut self) -> Result<R::File, ReadFault>
        ensures log { MatchResult result (λ _. self.new.log.events ≡ self.old.log.events) (λ _. self.new.log.events ≡ self.old.log.events ++ failed ∷ []) }
        ensures same_name { self.new.name ≡ self.old.name }
    {
        match fs::open(self.rt, self.name) {
            Ok(file) => Ok(file),
            Err(_) => {
                self.log.note_failure();
                Err(ReadFault)
            }
        }
    }
}
