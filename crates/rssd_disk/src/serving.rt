//! A session with one client.
ghost use Rattle.std.specs.Prelude.{◌≡◌, length};
ghost use Rattle.rssd_disk.specs.Handshakes.{Session};

use crate::device_disk::Disk;
use crate::handshake::greet;
use crate::requests::answer_all;
use rssd_io::{Sink, Source};
use std::alloc::Global;

/// The bytes of the room that a session needs: the head of a reply, and the longest data of a request.
pub const ROOM: usize = 1_048_592;

/// How a session ended.
#[derive(Clone, Copy, Debug, PartialEq, Eq)]
pub enum Ended {
    /// The client said that it leaves.
    Left,
    /// The input ended.
    Cut,
    /// What came is not the protocol. A session also ends so where 2^64 - 1 options were answered, behind each of which another may
    /// come, or 2^64 - 1 requests: it takes no more.
    NotProtocol,
    ReadFault,
    WriteFault,
    /// The die lost its power, and the last request was not answered.
    NoPower,
}

/// Serves a disk to one client until the session ends.
pub fn serve<K: Disk, I: Source, O: Sink>(
    alloc: Global,
    disk: &mut K,
    from: &mut I,
    to: &mut O,
    room: &mut [u8],
) -> Ended
    requires held { K.held disk.old }
    requires room { length room.old ≡ 1048592 }
    ensures held { K.held disk.new }
    ensures session { Session K.answers K.power (K.byte_count disk.old) result disk.old disk.new (I.log from.old) (I.log from.new) (O.log to.old) (O.log to.new) }
{
    match greet(from, to, room, disk.size()) {
        Ok(()) => answer_all(alloc, disk, from, to, room),
        Err(ended) => ended,
    }
}
