//! The file of a die: it is made with no charged cell, or opened, locked and read.
ghost use Rattle.std.specs.Prelude.{◌≡◌, true};
ghost use Rattle.die_image.specs.Image.{is_within_limits};

use crate::status::{Status, of_image};
use crate::words::Cut;
use cell_die::PowerDie;
use die_image::{ImageHead, ImageReader};
use file_die::{FileDie, FileMirror, OpenFault};
use rssd_io::{FileSink, StdSource};
use rssd_run::run::image::{ImageReadError, give_image, read_image};
use rssd_run::run::image_run::{blank_cells, die_of};
use std::fs;

/// Makes the image of a die with no charged cell. A file that is there stays as it is.
pub fn make(rt: &HostRuntime, name: &str, head: &ImageHead) -> Result<(), Status>
    requires { is_within_limits head.now ≡ true }
{
    if fs::open(rt, name).is_ok() {
        return Err(Status::IsThere);
    }
    let Ok(cells) = blank_cells(rt.alloc(), head) else {
        return Err(Status::OutOfMemory);
    };
    match give_image(head, &cells, &mut FileSink::new(rt, name)) {
        Ok(()) => Ok(()),
        Err(_) => Err(Status::WriteFault),
    }
}

/// Opens and locks the file of a die, and reads it.
pub fn open(
    rt: &HostRuntime,
    name: &str,
    sync: bool,
    cut: Option<Cut>,
) -> Result<(ImageHead, FileDie<FileMirror>), Status> {
    let mirror = match FileMirror::open(rt, name, sync) {
        Ok(mirror) => mirror,
        Err(OpenFault::File) => return Err(Status::NoFile),
        Err(OpenFault::Locked) => return Err(Status::Locked),
    };
    let read = read_image(
        ImageReader::new(rt.alloc()),
        &mut StdSource::new(mirror.file()),
    );
    let (head, cells) = match read {
        Ok(read) => read,
        Err(ImageReadError::Fault) => return Err(Status::ReadFault),
        Err(ImageReadError::Refused(why)) => return Err(of_image(why)),
    };
    let Ok(die) = die_of(rt.alloc(), &head, cells) else {
        return Err(Status::OutOfMemory);
    };
    let mut die = FileDie::new(die, mirror);
    if let Some(cut) = cut {
        die.arm_cut(cut.calls.max(1), cut.form);
    }
    Ok((head, die))
}
