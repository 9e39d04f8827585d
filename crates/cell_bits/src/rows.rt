//! Whole rows: which lies above which, whether one is blank, and how far it is charged.
//! Each call gathers over the whole row in one pass, with no exit on the way.

ghost use Rattle.std.specs.Prelude.{◌≡◌, ◌↔◌, ◌<◌, ◌^◌, length, IsTrue};
ghost use Rattle.cell_bits.specs.Cells.{IsAbove, is_blank, charge_of};

/// Whether the new row lies above the old one: every charged cell of the old row is charged in
/// the new one (Rivest and Shamir, 1982). The rows have one length.
pub fn is_above(new: &[u8], old: &[u8]) -> bool
    requires { length new.now ≡ length old.now }
    ensures { IsTrue result ↔ IsAbove new.now old.now }
{
    let mut lost = 0;
    for at in 0..old.len() {
        lost |= (old[at] | new[at]) ^ new[at];
    }
    lost == 0
}

/// Whether no cell of the row is charged.
pub fn is_blank(row: &[u8]) -> bool
    ensures { result ≡ is_blank row.now }
{
    let mut all = 0;
    for byte in row {
        all |= *byte;
    }
    all == 0
}

/// The number of charged cells of a row of fewer than 2^32 bytes.
pub fn charged(row: &[u8]) -> u64
    requires { length row.now < 2 ^ 32 }
    ensures { result ≡ charge_of row.now }
{
    let mut count = 0;
    for byte in row {
        count += byte.count_ones() as u64;
    }
    count
}
