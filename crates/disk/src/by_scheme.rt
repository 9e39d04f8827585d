//! The device over the die, by the scheme of the file's head.

use crate::status::{Status, of_session, tell_tallies};
use die_image::{ImageHead, SchemeName};
use file_die::{FileDie, FileMirror};
use rssd_core::device::{MountError, Plan};
use rssd_core::whole::Ftl;
use rssd_disk::{DeviceDisk, ROOM, serve};
use rssd_io::{StdSink, StdSource};
use schemes::{cosets, flips, pairs, plains, sevens};
use std::alloc::AllocError;
use striped::Scheme;

type HeldDie = FileDie<FileMirror>;

/// Serves the die with a scheme that was made, or for which there was no memory.
fn serve_made<C: Scheme + Drop>(
    rt: &HostRuntime,
    head: &ImageHead,
    made: Result<C, AllocError>,
    die: HeldDie,
) -> Result<Status, Status> {
    let Ok(scheme) = made else {
        return Err(Status::OutOfMemory);
    };
    let plan = Plan {
        sectors: head.sectors,
        reuse_max: head.reuse_max,
    };
    let mut disk: DeviceDisk<HeldDie, C, Ftl<HeldDie, C>> = match DeviceDisk::start(
        rt.alloc(),
        die,
        scheme,
        plan,
    ) {
        Ok(disk) => disk,
        Err(refused) => {
            return Err(match refused.why {
                MountError::OutOfMemory => Status::OutOfMemory,
                MountError::NoSpare => Status::NoSpare,
                MountError::Shape | MountError::DieFault => Status::ReadFault,
            });
        }
    };
    let Ok(mut room) = vec![in rt.alloc(); 0u8; ROOM] else {
        return Err(Status::OutOfMemory);
    };
    let mut from = StdSource::new(rt.stdin());
    let mut to = StdSink::new(rt.stdout());
    let ended = serve(rt.alloc(), &mut disk, &mut from, &mut to, &mut room);
    if let Some(tallies) = disk.tallies() {
        tell_tallies(rt, tallies);
    }
    Ok(of_session(ended))
}

/// Serves the die with the scheme of its head.
pub fn serve_with(rt: &HostRuntime, head: &ImageHead, die: HeldDie) -> Result<Status, Status> {
    let alloc = rt.alloc();
    match head.scheme {
        SchemeName::Plain16 => serve_made(rt, head, plains(alloc, 16), die),
        SchemeName::Rs16 => serve_made(rt, head, pairs(alloc, 16), die),
        SchemeName::Rs512 => serve_made(rt, head, pairs(alloc, 512), die),
        SchemeName::Coset16 => serve_made(rt, head, cosets(alloc, 16), die),
        SchemeName::Coset512 => serve_made(rt, head, cosets(alloc, 512), die),
        SchemeName::Flip16 => serve_made(rt, head, flips(alloc, 16), die),
        SchemeName::Flip512 => serve_made(rt, head, flips(alloc, 512), die),
        SchemeName::Ham16 => serve_made(rt, head, sevens(alloc, 16), die),
        SchemeName::Ham512 => serve_made(rt, head, sevens(alloc, 512), die),
    }
}
