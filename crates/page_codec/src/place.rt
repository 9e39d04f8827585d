//! A record stands in a slot of a page: in slot 0 for the page alone, and in a further slot for a whole unit.

/// Where a record stands.
#[derive(Clone, Copy, Debug, PartialEq, Eq)]
pub struct Place {
    /// The page's number on the die.
    pub page: u32,
    /// The slot's number in the page's spare area.
    pub slot: u32,
}
