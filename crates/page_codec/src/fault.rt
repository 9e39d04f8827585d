//! A later write of a unit reads before it changes anything, so it may fail in one of two ways.

/// Which kind of call on the die failed. Its count of faults rose in the put.
#[derive(Clone, Copy, Debug, PartialEq, Eq)]
pub enum PutFault {
    /// A read failed, and nothing was changed.
    Read,
    /// A change call failed.
    Change,
}
