//! What the pages of a block that were read so far show of it.

/// What some pages of a block show.
#[derive(Clone, Copy)]
pub(crate) struct Sight {
    /// No cell of the pages is charged.
    pub(crate) blank: bool,
    /// The block's seal is charged, which stands on its first page.
    pub(crate) sealed: bool,
    /// The highest slot from 1 on that is not blank in a unit, and 0 where there is none.
    pub(crate) level: u32,
}
