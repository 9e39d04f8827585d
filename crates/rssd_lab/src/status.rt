//! How a call ends. The number of a status is what the program ends with.
use lab_lines::LinesEnd;

/// How a call ends.
#[derive(Clone, Copy, Debug, PartialEq, Eq)]
pub enum Status {
    /// All lines were played, and all tables were given.
    Done = 0,
    /// The words are no order.
    BadWords = 2,
    /// A line is outside the grammar.
    BadLine = 3,
    /// The image is refused, or each block of its die has a live record.
    BadImage = 4,
    /// The source of the lines failed.
    ReadFault = 5,
    /// The sink failed.
    WriteFault = 6,
    OutOfMemory = 7,
}

impl Status {
    ghost use Rattle.std.specs.Prelude.{◌≡◌};
    ghost use Rattle.rssd_lab.specs.Top.{number_of};

    /// What the program ends with.
    pub fn number(self) -> u8
        ensures { result ≡ number_of self }
    {
        self as u8
    }
}

/// Why a run of lines stopped.
#[derive(Clone, Copy, Debug, PartialEq, Eq)]
pub enum Stop {
    /// No further line came, where more may have been wanted.
    Lines(LinesEnd),
    /// A line came that only a session takes. It has this number, from 1.
    NotPlayed(u64),
    /// The sink failed.
    Sink,
    /// There was no memory for the die, the scheme or the device.
    OutOfMemory,
}

/// Why no run of lines came to its end.
#[derive(Clone, Copy, Debug, PartialEq, Eq)]
pub enum NotRun {
    /// Each block of the die has a live record: nothing was called.
    NoSpare,
    Stopped(Stop),
}

/// How lines ended that were not all played and told.
#[derive(Clone, Copy, Debug, PartialEq, Eq)]
pub enum Halt {
    /// Each block of the die has a live record: nothing was called.
    NoSpare,
    /// The run stopped, and the call ends so.
    Ended(Status),
}

/// What a call reads: the lines, and the image of the die, where they are asked for.
#[derive(Drop)]
pub struct Sources<I: Drop, M: Drop> {
    pub lines: I,
    pub image: M,
}

/// How a call ended, and its sources back, so that what was taken of them can be told.
#[derive(Drop)]
pub struct Outcome<I: Drop, M: Drop> {
    /// The number of the status.
    pub status: u8,
    pub from: Sources<I, M>,
}
