//! How a call ends. The number of a status is what the program ends with.

/// How a call ends.
#[derive(Clone, Copy, Debug, PartialEq, Eq)]
pub enum Status {
    /// All input was read to its end and all output was given.
    Done = 0,
    /// The words are no command.
    BadWords = 2,
    /// The script is too long, or a line of it is bad.
    BadScript = 3,
    /// The image is none, or each of its blocks has a live record.
    BadImage = 4,
    /// A source failed.
    ReadFault = 5,
    /// A sink failed.
    WriteFault = 6,
    OutOfMemory = 7,
    /// The image was read, and an audit finds that its cells are not sound.
    Unsound = 8,
}
