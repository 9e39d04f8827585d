//! How the program ends. The numbers up to 7 are those of `rssd`.

use die_image::ImageError;
use rssd_disk::{Ended, Tallies};
use rssd_io::{Sink, StdSink};
use rssd_run::image_line;
use rssd_script::{Reply, print_reply};

/// How the program ends.
#[derive(Clone, Copy, Debug, PartialEq, Eq)]
pub enum Status {
    /// The client left, or the input ended.
    Done,
    BadWords,
    /// What the client sent is not the protocol.
    NotProtocol,
    BadImage(ImageError),
    /// Every block of the image has a live record.
    NoSpare,
    /// A file of this name is there already.
    IsThere,
    /// The file is not there, or may not be read and written.
    NoFile,
    /// Another program has the file's lock.
    Locked,
    ReadFault,
    WriteFault,
    OutOfMemory,
    /// The armed cut came.
    NoPower,
}

impl Status {
    /// The number that the program ends with.
    pub fn number(self) -> u8 {
        match self {
            Status::Done => 0,
            Status::BadWords => 2,
            Status::NotProtocol => 3,
            Status::BadImage(_) | Status::NoSpare => 4,
            Status::NoFile | Status::Locked | Status::ReadFault => 5,
            Status::IsThere | Status::WriteFault => 6,
            Status::OutOfMemory => 7,
            Status::NoPower => 8,
        }
    }

    /// What standard error is told.
    fn line(self) -> &'static [u8] {
        match self {
            Status::Done => b"",
            Status::BadWords => b"bad words\n",
            Status::NotProtocol => b"the client does not speak the protocol\n",
            Status::BadImage(why) => image_line(why),
            Status::NoSpare => b"bad image no spare\n",
            Status::IsThere => b"the file is there already\n",
            Status::NoFile => b"the file is not there, or may not be read and written\n",
            Status::Locked => b"another program has the file's lock\n",
            Status::ReadFault => b"a read failed\n",
            Status::WriteFault => b"a write failed\n",
            Status::OutOfMemory => b"out of memory\n",
            Status::NoPower => b"the power was cut\n",
        }
    }
}

/// The status of an image that was refused.
pub fn of_image(why: ImageError) -> Status {
    match why {
        ImageError::OutOfMemory => Status::OutOfMemory,
        why => Status::BadImage(why),
    }
}

/// The status of a session.
pub fn of_session(ended: Ended) -> Status {
    match ended {
        Ended::Left | Ended::Cut => Status::Done,
        Ended::NotProtocol => Status::NotProtocol,
        Ended::ReadFault => Status::ReadFault,
        Ended::WriteFault => Status::WriteFault,
        Ended::NoPower => Status::NoPower,
    }
}

/// Tells standard error of a status. A fault there changes nothing.
pub fn tell(rt: &HostRuntime, status: Status) {
    let mut errors = StdSink::new(rt.stderr());
    let _ = errors.give(status.line());
}

/// Tells standard error what a session came to in which something was written, as a script's line `stat` is answered. A fault there
/// changes nothing.
pub fn tell_tallies(rt: &HostRuntime, tallies: Tallies) {
    let Tallies { counts, erased } = tallies;
    if counts.first == 0 && counts.second == 0 && counts.declined == 0 && erased == 0 {
        return;
    }
    let reply = Reply::Stat {
        first: counts.first,
        second: counts.second,
        declined: counts.declined,
        moved: counts.moved,
        erased,
    };
    let mut errors = StdSink::new(rt.stderr());
    let _ = errors.give(print_reply(&reply).as_slice());
}
