//! The file of a die as a mirror: a put is one positioned write, and in `sync` mode also a wait until the file's data are kept.
ghost use Rattle.std.specs.Prelude.{None};

use crate::mirror::{Mirror, PutFault};
use std::fs::{File, OpenOptions};
use std::io;
use std::os::unix::fs::FileExt;
use std::rt::Files;

/// Why a file was not opened.
#[derive(Clone, Copy, Debug, PartialEq, Eq)]
pub enum OpenFault {
    /// It is not there, or may not be read and written.
    File,
    /// Another program has its lock.
    Locked,
}

/// A file as a mirror.
#[derive(Drop)]
pub struct FileMirror {
    file: File,
    sync: bool,
}

impl FileMirror {
    /// Opens a file that is there, to be read and written, and takes its lock. The lock is given back when the mirror is dropped.
    pub fn open<R: Files<File = File>>(
        rt: &R,
        name: &str,
        sync: bool,
    ) -> Result<FileMirror, OpenFault> {
        let mut how = OpenOptions::new();
        how.read(true).write(true);
        let Ok(file) = how.open(rt, name) else {
            return Err(OpenFault::File);
        };
        match file.try_lock() {
            Ok(()) => Ok(FileMirror { file, sync }),
            Err(_) => Err(OpenFault::Locked),
        }
    }

    /// The file, to be read.
    pub fn file(&self) -> &File {
        &self.file
    }

    fn try_put(&self, place: u64, bytes: &[u8]) -> io::Result<()> {
        self.file.write_all_at(bytes, place)?;
        if self.sync {
            self.file.sync_data()?;
        }
        Ok(())
    }
}

impl Mirror for FileMirror {
    ghost held = { λ _. None };

    fn put(&mut self, place: u64, bytes: &[u8]) -> Result<(), PutFault> {
        match self.try_put(place, bytes) {
            Ok(()) => Ok(()),
            Err(_) => Err(PutFault),
        }
    }
}
