//! The plain array that judges the replies. A sector holds the row that was last acknowledged for it. Only the sector that was
//! being written or trimmed when a call failed may hold the old row or the new one, and the first read says which.

/// The rows that each sector may hold: bit `r` of its byte stands for row `r`.
#[derive(Clone, Copy, Debug, PartialEq, Eq)]
pub struct Sectors {
    may_hold: [u8; 3],
}

/// The set of one row, and none of a number that no row has.
fn set_of(row: u8) -> u8 {
    match row {
        0 => 1,
        1 => 2,
        2 => 4,
        3 => 8,
        _ => 0,
    }
}

impl Sectors {
    /// All sectors are zeros.
    pub fn new() -> Self {
        Sectors { may_hold: [1; 3] }
    }

    /// A write or trim of a sector was acknowledged.
    pub fn acknowledge(&mut self, sector: u32, row: u8) {
        if let Some(rows) = self.may_hold.get_mut(sector as usize) {
            *rows = set_of(row);
        }
    }

    /// The power went in a write or trim of a sector.
    pub fn doubt(&mut self, sector: u32, row: u8) {
        if let Some(rows) = self.may_hold.get_mut(sector as usize) {
            *rows |= set_of(row);
        }
    }

    /// Whether a sector may read so; if it may, it holds that row from now on.
    pub fn settle(&mut self, sector: u32, row: u8) -> bool {
        let Some(rows) = self.may_hold.get_mut(sector as usize) else {
            return false;
        };
        let may = *rows & set_of(row) != 0;
        *rows = set_of(row);
        may
    }
}
