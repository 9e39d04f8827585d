//! Why a campaign stops.

use std::alloc::AllocError;

/// What differs from the plain array.
#[derive(Clone, Copy, Debug, PartialEq, Eq)]
pub enum Wrong {
    /// A call was refused though nothing failed, or did its work though something failed.
    Answer,
    /// A sector reads as a row that it cannot hold.
    Row,
    /// A charge fell in a block that was not erased.
    Charge,
    /// A second write erased a block, or another line more than one.
    Erases,
    /// The device goes on after a cut, or is off after a failed read.
    Power,
    /// The die was not mounted though no read failed, or was though one did.
    Mount,
}

/// Why it stops.
#[derive(Clone, Copy, Debug, PartialEq, Eq)]
pub enum Stop {
    OutOfMemory,
    Differs(Wrong),
}

impl From<AllocError> for Stop {
    fn from(_: AllocError) -> Self {
        Stop::OutOfMemory
    }
}

/// Stops where something does not hold.
pub fn ensure(holds: bool, wrong: Wrong) -> Result<(), Stop> {
    if holds {
        Ok(())
    } else {
        Err(Stop::Differs(wrong))
    }
}
